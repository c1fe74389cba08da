//! The parts of a replay: each session of the host with its sheet.
ghost use Rattle.std.specs.Prelude.{◌≡◌, ◌++◌, ◌∷◌, ◌*◌, ◌<◌, [], length, IfErr, IfOk, OnOk};
ghost use Rattle.sb_replay.specs.Lists.{AllFrom};
ghost use Rattle.sb_replay.specs.Parts.{AddsPart, Opens};
ghost use Rattle.sb_replay.specs.Replay.{IsUnopened};

use crate::error::{ReplayError, unattached};
use crate::sheet::Sheet;
use sb_host::{Host, Naming, Session};
use sb_value::{SESSION_LIMIT, SessionId};
use std::alloc::Global;
use std::sync::Wait;

/// A session, if there are commands for it, with its sheet.
#[derive(Drop)]
pub(crate) struct SessionPart<'h, N: Naming> {
    pub(crate) session: Option<Session<'h, N>>,
    pub(crate) sheet: Sheet,
}

/// The part of each rank, with its session opened where there are commands for it.
pub(crate) fn attach_all<'h, T: Wait, N: Naming>(
    rt: &T,
    alloc: Global,
    host: &'h Host<N>,
    rows: Vec<Vec<Vec<u8>>>,
) -> Result<Vec<SessionPart<'h, N>>, ReplayError>
    requires { length rows.items ≡ 8 * host.now }
    ensures ok { IfOk result (λ parts. AllFrom Opens 0 rows.items parts.items) }
    ensures err { IfErr result (λ e. IsUnopened host.now e) }
{
    let mut parts = Vec::new(alloc);
    for commands in rows {
        attach(rt, alloc, host, commands, &mut parts)?;
    }
    Ok(parts)
}

/// Adds the part of the next rank.
fn attach<'h, T: Wait, N: Naming>(
    rt: &T,
    alloc: Global,
    host: &'h Host<N>,
    commands: Vec<Vec<u8>>,
    parts: &mut Vec<SessionPart<'h, N>>,
) -> Result<(), ReplayError>
    requires { length parts.old.items < 8 * host.now }
    ensures ok { OnOk result (AddsPart (Opens (length parts.old.items) commands) parts.old.items parts.new.items) }
    ensures err { IfErr result (λ e. IsUnopened host.now e) }
{
    // for the proof: the number of tenants has 32 bits
    let _tenants = host.tenants();
    let rank = parts.len();
    let tenant = (rank / SESSION_LIMIT) as u32;
    let number = SessionId::new((rank % SESSION_LIMIT) as u8);
    let is_named = !commands.is_empty();
    let sheet = Sheet::new(alloc, tenant, number, commands);
    if !is_named {
        return add(
            parts,
            SessionPart {
                session: None,
                sheet,
            },
        );
    }
    match host.attach(rt, alloc, tenant, number.number() as u32) {
        Ok(session) => add(
            parts,
            SessionPart {
                session: Some(session),
                sheet,
            },
        ),
        Err(error) => Err(unattached(error, tenant, number)),
    }
}

/// Adds a part.
fn add<'h, N: Naming>(
    parts: &mut Vec<SessionPart<'h, N>>,
    part: SessionPart<'h, N>,
) -> Result<(), ReplayError>
    ensures ok { OnOk result (parts.new.items ≡ parts.old.items ++ part.entry ∷ []) }
    ensures err { IfErr result (λ e. e ≡ ReplayError.NoMemory) }
{
    match parts.push(part) {
        Ok(()) => Ok(()),
        Err(_) => Err(ReplayError::NoMemory),
    }
}
