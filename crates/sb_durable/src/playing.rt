//! A journal that is opened, and replayed on a host; how far it is replayed is logged.
ghost use Rattle.std.specs.Prelude.{◌≡◌, ◌↔◌, ◌≤◌};

use crate::journal_fault::JournalFault;
use crate::log_lines::{tell_no_journal, tell_played};
use crate::{File, Head, Journal, Played, Progress, Syncing, Wary, open_path, play};
use sb_host::Renewing;
use sb_tenant::Bound;
use sb_words::{Log, Syncs};
use std::alloc::Global;
use std::fs;
use std::rt::{Clock, Files};
use std::sync::Wait;
use std::time::{Duration, Instant};

/// The progress of a replay is logged once in so many seconds.
const TOLD: u64 = 1;

/// True if commits are synced.
pub fn syncing_of(syncs: Syncs) -> Syncing
    ensures { result ≡ Syncing.Always ↔ syncs ≡ Syncs.Always }
{
    match syncs {
        Syncs::Always => Syncing::Always,
        Syncs::Second | Syncs::Never => Syncing::Never,
    }
}

/// The bound of a journal's tenants. None has a higher one than 1,000, whatever a head says: where it does, no tenant is
/// renewed.
pub(crate) fn bound_of(head: Head) -> Bound
    ensures { result.considerations ≤ 1000 }
{
    let work = match head.work {
        0 => None,
        work => Some(work),
    };
    Bound {
        considerations: head.bound.min(1000),
        work,
    }
}

/// Opens the journal at this path and replays it on a host. Error: CannotOpen, and the reason
/// is logged.
pub(crate) fn played_journal<H: Renewing, T: Wait + Clock + Files<File = fs::File>, O: Log>(
    rt: &T,
    alloc: Global,
    host: H,
    path: &str,
    syncing: Syncing,
    head: Head,
    log: &O,
) -> Result<(Journal<File<Wary>>, Played), JournalFault> {
    let mut file = match open_path(rt, alloc, path, syncing, head) {
        Ok(file) => file,
        Err(error) => {
            tell_no_journal(log, path, &error);
            return Err(JournalFault::CannotOpen);
        }
    };
    let mut playing = Playing::new(rt, log);
    match play(rt, alloc, host, bound_of(head), &mut file, &mut playing) {
        Ok(played) => Ok((file, played)),
        Err(error) => {
            tell_no_journal(log, path, &error);
            Err(JournalFault::CannotOpen)
        }
    }
}

/// Tells how far a journal is played.
#[derive(Drop)]
pub(crate) struct Playing<'k, 'o, T, O> {
    rt: &'k T,
    log: &'o O,
    told: Option<Instant>,
}

impl<'k, 'o, T, O> Playing<'k, 'o, T, O> {
    pub(crate) fn new(rt: &'k T, log: &'o O) -> Playing<'k, 'o, T, O> {
        Playing {
            rt,
            log,
            told: None,
        }
    }
}

impl<'k, 'o, T: Clock, O: Log> Progress for Playing<'k, 'o, T, O> {
    fn tell(&mut self, records: u64, bytes: u64) {
        let Ok(now) = Instant::now(self.rt) else {
            return;
        };
        match self.told {
            Some(told) if now.duration_since(told) < Duration::from_secs(TOLD) => {}
            Some(_) => {
                self.told = Some(now);
                tell_played(self.log, records, bytes);
            }
            None => self.told = Some(now),
        }
    }
}
