//! All sessions played to their end.
ghost use Rattle.std.specs.Prelude.{◌≡◌, ◌*◌, ◌<◌, ◌≤◌, ◌++◌, ◌∷◌, [], length, IfErr, IfOk, MatchBool, OnOk};
ghost use Rattle.std.specs.List.{All};
ghost use Rattle.sb_host.specs.Finish.{IsInOrder};
ghost use Rattle.sb_replay.specs.Lists.{AllCut};
ghost use Rattle.sb_replay.specs.Parts.{AreAttended, Closes, ClosesOne, PlaysOut};
ghost use Rattle.sb_replay.specs.Replay.{IsUnclosed, IsUnplayed};

use crate::error::ReplayError;
use crate::part::{SessionPart, attach_all};
use crate::round::play;
use crate::sheet::Sheet;
use sb_host::{FinishError, Host, Naming, Receipt, Stub, step_number};
use std::alloc::Global;
use std::sync::Wait;
use std::thread::Threads;

/// What all sessions leave: a sheet for each rank, and a stub for each that was opened.
#[derive(Drop)]
pub(crate) struct Closed {
    pub(crate) stubs: Vec<Stub>,
    pub(crate) sheets: Vec<Sheet>,
}

/// Closes all sessions, in this order.
fn close_all<N: Naming, T: Wait>(
    rt: &T,
    alloc: Global,
    parts: Vec<SessionPart<'_, N>>,
) -> Result<Closed, ReplayError>
    ensures ok { IfOk result (λ closed. AllCut Closes parts.entry.items closed.sheets.items closed.stubs.items) }
    ensures err { IfErr result IsUnclosed }
{
    let mut stubs = Vec::new(alloc);
    let mut sheets = Vec::new(alloc);
    for part in parts {
        close_one(rt, part, &mut stubs, &mut sheets)?;
    }
    Ok(Closed { stubs, sheets })
}

/// Closes a session, if there is one.
fn close_one<N: Naming, T: Wait>(
    rt: &T,
    part: SessionPart<'_, N>,
    stubs: &mut Vec<Stub>,
    sheets: &mut Vec<Sheet>,
) -> Result<(), ReplayError>
    ensures ok { OnOk result (ClosesOne part.entry stubs.old.items sheets.old.items stubs.new.items sheets.new.items) }
    ensures err { IfErr result IsUnclosed }
{
    let SessionPart { session, sheet } = part;
    add(sheets, sheet)?;
    let Some(session) = session else {
        return Ok(());
    };
    let stub = session.close(rt);
    if !are_in_order(stub.list()) {
        return Err(ReplayError::Finish(FinishError::Mismatch {
            tenant: stub.tenant,
            session: stub.session,
        }));
    }
    add(stubs, stub)?;
    Ok(())
}

/// Adds an item to a list.
fn add<A: Drop>(list: &mut Vec<A>, item: A) -> Result<(), ReplayError>
    ensures ok { OnOk result (list.new.items ≡ list.old.items ++ item ∷ []) }
    ensures err { IfErr result (λ e. e ≡ ReplayError.NoMemory) }
{
    match list.push(item) {
        Ok(()) => Ok(()),
        Err(_) => Err(ReplayError::NoMemory),
    }
}

/// True if the receipts stand in the order of their steps.
fn are_in_order(receipts: &[Receipt]) -> bool
    ensures { MatchBool result (IsInOrder receipts.now) (IsInOrder receipts.now → ⊥) }
{
    receipts.is_sorted_by_key(|receipt| step_number(receipt))
}

/// The larger of the two.
fn larger(a: usize, b: usize) -> usize
    ensures { (a ≤ result) × (b ≤ result) }
{
    if a < b { b } else { a }
}

/// The most commands of a session.
fn longest(rows: &[Vec<Vec<u8>>]) -> usize
    ensures { All (λ row. length row.items ≤ result) rows.now }
{
    let mut most = 0;
    for row in rows {
        most = larger(most, row.len());
    }
    most
}

/// So many rounds, and then all sessions are closed.
fn play_out<N: Naming + Send + Sync, T: Threads + Wait + Sync>(
    rt: &T,
    alloc: Global,
    parts: Vec<SessionPart<'_, N>>,
    rounds: usize,
    workers: usize,
) -> Result<Closed, ReplayError>
    requires workers { (0 < workers) × (workers ≤ 16) }
    ensures ok { IfOk result (λ closed. PlaysOut rounds parts.entry.items closed.sheets.items closed.stubs.items) }
    ensures err { IfErr result IsUnclosed }
{
    match play(rt, alloc, parts, rounds, workers) {
        Ok(parts) => close_all(rt, alloc, parts),
        Err(_) => Err(ReplayError::NoMemory),
    }
}

/// Opens the sessions that have commands, calls each with its commands, and closes them all.
pub(crate) fn play_all<N: Naming + Send + Sync, T: Threads + Wait + Sync>(
    rt: &T,
    alloc: Global,
    host: &Host<N>,
    rows: Vec<Vec<Vec<u8>>>,
    workers: usize,
) -> Result<Closed, ReplayError>
    requires workers { (0 < workers) × (workers ≤ 16) }
    requires rows { length rows.items ≡ 8 * host.now }
    ensures ok { IfOk result (λ closed. AreAttended rows.items closed.sheets.items closed.stubs.items) }
    ensures err { IfErr result (λ e. IsUnplayed host.now e) }
{
    let rounds = longest(rows.as_slice());
    match attach_all(rt, alloc, host, rows) {
        Ok(parts) => play_out(rt, alloc, parts, rounds, workers),
        Err(error) => Err(error),
    }
}
