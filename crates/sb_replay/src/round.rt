//! Rounds: each calls every session that has a command left with its next one.
ghost use Rattle.std.specs.Prelude.{◌≡◌, ◌<◌, ◌≤◌, length, IfOk, OnOk};
ghost use Rattle.std.specs.List.{AllZip};
ghost use Rattle.std.specs.Vec.Iter.{into_iter_items};
ghost use Rattle.sb_replay.specs.Lists.{AllCut};
ghost use Rattle.sb_replay.specs.Parts.{AddsPart, Deals, DealsOne, Gathers, GathersOne, Moves, MovesIn, TellsDone, calls, calls_of};

use crate::part::SessionPart;
use crate::pool::{Done, Job, Pool};
use crate::sheet::Sheet;
use sb_host::{Naming, NoGate, Session};
use std::alloc::{AllocError, Global};
use std::sync::Wait;
use std::thread::Threads;
use std::vec::IntoIter;

/// A part while others are called.
#[derive(Drop)]
enum Waiting<'h, N: Naming> {
    /// Its session is called, too.
    Called(Sheet),
    /// It has no command left.
    Resting(SessionPart<'h, N>),
}

/// The jobs of a round, and the parts that wait.
#[derive(Drop)]
struct Dealt<'h, N: Naming> {
    jobs: Vec<Job<Session<'h, N>>>,
    waiting: Vec<Waiting<'h, N>>,
}

/// Takes the next command of each session.
fn deal<'h, N: Naming>(
    alloc: Global,
    parts: Vec<SessionPart<'h, N>>,
) -> Result<Dealt<'h, N>, AllocError>
    ensures { IfOk result (λ dealt. AllCut Deals parts.entry.items dealt.waiting.items dealt.jobs.items) }
{
    let mut jobs = Vec::new(alloc);
    let mut waiting = Vec::new(alloc);
    for part in parts {
        deal_one(part, &mut jobs, &mut waiting)?;
    }
    Ok(Dealt { jobs, waiting })
}

/// Takes the next command of a session, if there is one.
fn deal_one<'h, N: Naming>(
    part: SessionPart<'h, N>,
    jobs: &mut Vec<Job<Session<'h, N>>>,
    waiting: &mut Vec<Waiting<'h, N>>,
) -> Result<(), AllocError>
    ensures { OnOk result (DealsOne part.entry jobs.old.items waiting.old.items jobs.new.items waiting.new.items) }
{
    let SessionPart { session, mut sheet } = part;
    let Some(session) = session else {
        waiting.push(Waiting::Resting(SessionPart {
            session: None,
            sheet,
        }))?;
        return Ok(());
    };
    match sheet.next_command() {
        Some(line) => {
            jobs.push(Job { session, line })?;
            waiting.push(Waiting::Called(sheet))?;
            Ok(())
        }
        None => {
            waiting.push(Waiting::Resting(SessionPart {
                session: Some(session),
                sheet,
            }))?;
            Ok(())
        }
    }
}

/// The parts after a round.
fn gather<'h, N: Naming>(
    alloc: Global,
    done: Vec<Done<Session<'h, N>>>,
    waiting: Vec<Waiting<'h, N>>,
) -> Result<Vec<SessionPart<'h, N>>, AllocError>
    requires { calls waiting.items ≡ length done.items }
    ensures { IfOk result (λ parts. AllCut Gathers waiting.entry.items parts.items done.entry.items) }
{
    let mut parts = Vec::new(alloc);
    let mut answered = done.into_iter();
    for part in waiting {
        gather_one(part, &mut answered, &mut parts)?;
    }
    Ok(parts)
}

/// Adds a part, with what its call was answered, if there was one.
fn gather_one<'h, N: Naming>(
    waiting: Waiting<'h, N>,
    done: &mut IntoIter<Done<Session<'h, N>>>,
    parts: &mut Vec<SessionPart<'h, N>>,
) -> Result<(), AllocError>
    requires { calls_of waiting ≤ length (into_iter_items done.old) }
    ensures { let had = into_iter_items done.old in let left = into_iter_items done.new in
        OnOk result (GathersOne waiting.entry had parts.old.items left parts.new.items) }
{
    match waiting {
        Waiting::Called(sheet) => match done.next() {
            Some(answered) => tell(sheet, answered, parts),
            None => unreachable!(),
        },
        Waiting::Resting(part) => {
            parts.push(part)?;
            Ok(())
        }
    }
}

/// Adds the part of a session whose call was done.
fn tell<'h, N: Naming>(
    mut sheet: Sheet,
    done: Done<Session<'h, N>>,
    parts: &mut Vec<SessionPart<'h, N>>,
) -> Result<(), AllocError>
    ensures { OnOk result (AddsPart (TellsDone sheet done.entry) parts.old.items parts.new.items) }
{
    let Done {
        session,
        result: given,
        ..
    } = done;
    sheet.tell(&session, given)?;
    parts.push(SessionPart {
        session: Some(session),
        sheet,
    })?;
    Ok(())
}

/// One round.
fn round<'h, N: Naming + Send + Sync, T: Threads + Wait + Sync>(
    rt: &T,
    alloc: Global,
    parts: Vec<SessionPart<'h, N>>,
    workers: usize,
) -> Result<Vec<SessionPart<'h, N>>, AllocError>
    requires workers { (0 < workers) × (workers ≤ 16) }
    ensures { IfOk result (λ after. AllZip Moves parts.entry.items after.items) }
{
    let Dealt { jobs, waiting } = deal(alloc, parts)?;
    match Pool::run(rt, alloc, jobs, workers, &NoGate) {
        Ok(done) => gather(alloc, done, waiting),
        Err(_) => Err(AllocError),
    }
}

/// So many rounds.
pub(crate) fn play<'h, N: Naming + Send + Sync, T: Threads + Wait + Sync>(
    rt: &T,
    alloc: Global,
    parts: Vec<SessionPart<'h, N>>,
    rounds: usize,
    workers: usize,
) -> Result<Vec<SessionPart<'h, N>>, AllocError>
    requires workers { (0 < workers) × (workers ≤ 16) }
    ensures { IfOk result (λ after. AllZip (MovesIn rounds) parts.entry.items after.items) }
{
    let mut playing = parts;
    for _round in 0..rounds {
        playing = round(rt, alloc, playing, workers)?;
    }
    Ok(playing)
}
