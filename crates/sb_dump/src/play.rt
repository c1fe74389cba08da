//! A script, played on a fresh tenant.
ghost use Rattle.std.specs.Prelude.{◌≡◌, ◌≤◌, [], ◌∷◌, true, All, IfOk, OnOk, IfSome, IsTrue};
ghost use Rattle.sb_cell.specs.Tenants.{hosts, states};
ghost use Rattle.sb_dump.specs.Dumps.{IsSendable, played};
ghost use Rattle.sb_dump.specs.Playing.{AreSent, HostsOnly, IsDone};
ghost use Rattle.sb_tenant.specs.Tenant.{state};

use sb_cell::{Cell, StepError};
use sb_syntax::COMMAND_LIMIT;
use sb_tenant::{Answer, Bound, END, Line, OPEN, Reply, Tenant};
use sb_value::{Refusal, TenantId};
use std::alloc::Global;

/// Why a script wasn't played to its end.
#[derive(Clone, Copy)]
pub(crate) enum SendFault {
    /// A line can't be sent, or was refused.
    Refused,
    NoMemory,
}

/// A cell whose one tenant, of that number and bound, was fresh and was sent the lines in a session of its own.
pub(crate) fn play(
    alloc: Global,
    id: TenantId,
    bound: Bound,
    lines: &[Line],
) -> Result<Cell, SendFault>
    requires { bound.considerations ≤ 1000 }
    ensures sendable { OnOk result (All IsSendable lines.now) }
    ensures played { IfOk result (λ cell. states cell id ≡ played id bound lines.now) }
    ensures alone { IfOk result (HostsOnly id bound) }
{
    let number = u32::from(id.number());
    let Ok(mut cell) = Cell::new(alloc, number, 256, number + 1, bound) else {
        return Err(SendFault::NoMemory);
    };
    send(alloc, &mut cell, id, OPEN)?;
    send_all(alloc, &mut cell, id, lines)?;
    send(alloc, &mut cell, id, END)?;
    Ok(cell)
}

/// The tenant of a cell that has no other one.
pub(crate) fn only_tenant(cell: &Cell, id: TenantId) -> Option<&Tenant>
    requires { HostsOnly id cell.now.bound cell.now }
    ensures { IfSome result (λ own. state own.now ≡ states cell.now id) }
{
    cell.tenant(u32::from(id.number()))
}

/// Sends lines in session 0, each of which can be sent and is done.
fn send_all(alloc: Global, cell: &mut Cell, id: TenantId, lines: &[Line]) -> Result<(), SendFault>
    requires { hosts cell.old id ≡ true }
    ensures sendable { OnOk result (All IsSendable lines.now) }
    ensures sent { OnOk result (AreSent id lines.now cell.old cell.new) }
{
    for line in lines {
        if !is_sendable(line.as_slice()) {
            return Err(SendFault::Refused);
        }
        send_line(alloc, cell, id, line)?;
    }
    Ok(())
}

/// Sends a line, which shares its bytes with the trail.
fn send_line(alloc: Global, cell: &mut Cell, id: TenantId, line: &Line) -> Result<(), SendFault>
    requires { hosts cell.old id ≡ true }
    ensures { OnOk result (AreSent id (line.now ∷ []) cell.old cell.new) }
{
    let answer = cell.step_line(alloc, u32::from(id.number()), 0, line);
    check(answer)
}

/// Sends a line.
fn send(alloc: Global, cell: &mut Cell, id: TenantId, line: &[u8]) -> Result<(), SendFault>
    requires { hosts cell.old id ≡ true }
    ensures { OnOk result (AreSent id (line.now ∷ []) cell.old cell.new) }
{
    let answer = cell.step(alloc, u32::from(id.number()), 0, line);
    check(answer)
}

/// True if a line can be sent.
fn is_sendable(line: &[u8]) -> bool
    ensures { IsTrue result → IsSendable line.now }
{
    line.len() <= COMMAND_LIMIT && line.iter().all(|byte| *byte >= b' ' && *byte <= b'~')
}

/// True if a line was done.
fn check(answer: Result<Answer, StepError>) -> Result<(), SendFault>
    ensures { OnOk result (IsDone answer) }
{
    match answer {
        Ok(answer) => match answer.reply {
            Reply::Ok => Ok(()),
            Reply::Count(_) => Ok(()),
            Reply::Done(_) => Ok(()),
            Reply::No(Refusal::NoMemory) => Err(SendFault::NoMemory),
            _ => Err(SendFault::Refused),
        },
        Err(_) => Err(SendFault::NoMemory),
    }
}
