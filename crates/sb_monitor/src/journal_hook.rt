//! A server's journal: what is answered is recorded before it is sent, and synced.
ghost use Rattle.std.specs.Prelude.{◌≢◌, true};
ghost use Rattle.sb_durable.specs.RecordedTrails.{AreKept};

use crate::event_log::EventLog;
use crate::housekeeping::Chore;
use crate::journal_board::{CommitStart, JournalBoard};
use sb_durable::{
    BatchJournal, Flusher, JournalError, Recorder, tell_no_room, tell_not_recorded, tell_room,
};
use sb_host::Lending;
use sb_server::{CommitHook, CommitStatus};
use sb_words::Log;
use std::rt::Clock;
use std::sync::Wait;
use std::sync::atomic::{AtomicBool, Ordering};

/// Records what tenants are answered in a journal.
#[derive(Drop)]
pub struct JournalHook<'k, R, T> {
    recorder: R,
    log: &'k EventLog<'k, T>,
    /// The last commit lacked memory.
    lacks_memory: AtomicBool,
    has_failed: AtomicBool,
    /// Where commits are counted.
    board: &'k JournalBoard,
    /// Syncs what is written, if commits don't.
    flusher: Option<&'k Flusher<'k, EventLog<'k, T>>>,
}

impl<'k, R, T: Eprint + Clock> JournalHook<'k, R, T> {
    /// A hook of this recorder, whose commits are counted on this board. Without a flusher each commit has synced what it
    /// wrote.
    pub fn new(
        recorder: R,
        log: &'k EventLog<'k, T>,
        board: &'k JournalBoard,
        flusher: Option<&'k Flusher<'k, EventLog<'k, T>>>,
    ) -> JournalHook<'k, R, T> {
        board.note_used();
        JournalHook {
            recorder,
            log,
            lacks_memory: AtomicBool::new(false),
            has_failed: AtomicBool::new(false),
            board,
            flusher,
        }
    }

    /// Notes that something was written, unless an earlier sync has failed.
    fn written(&self) -> CommitStatus {
        match self.flusher {
            Some(flusher) if flusher.has_failed() => CommitStatus::Failed,
            Some(flusher) => {
                flusher.note();
                CommitStatus::All
            }
            None => CommitStatus::All,
        }
    }

    /// Logs why nothing was recorded. A lack of memory or of room is logged again after a success, any other reason once.
    fn tell(&self, error: &JournalError) {
        match error {
            JournalError::NoRoom(why) => {
                if !self.board.note_room(true) {
                    tell_no_room(self.log, why);
                }
            }
            JournalError::Memory => self.tell_once(&self.lacks_memory, error),
            _ => self.tell_once(&self.has_failed, error),
        }
    }

    /// Logs why nothing was recorded, if that wasn't told.
    fn tell_once(&self, was_told: &AtomicBool, error: &JournalError) {
        if !was_told.swap(true, Ordering::SeqCst) {
            tell_not_recorded(self.log, error);
        }
    }

    /// Notes that a commit lacked neither memory nor room.
    fn note_kept(&self, start: CommitStart) {
        self.board.note_kept(self.log.rt(), start);
        self.lacks_memory.store(false, Ordering::SeqCst);
        if self.board.note_room(false) {
            tell_room(self.log);
        }
    }
}

impl<'k, H: Lending, B: BatchJournal, T: Eprint + Clock> CommitHook
    for JournalHook<'k, Recorder<H, B>, T> {
    ghost is_set = { λ _. true };

    ghost keeps = { λ _ tenants. AreKept B.BatchJournal tenants };

    fn is_set(&self) -> bool {
        true
    }

    fn keep<W: Wait>(&self, rt: &W, tenants: &[u32]) -> CommitStatus {
        let start = self.board.begin(self.log.rt());
        match self.recorder.keep(rt, tenants) {
            Ok(()) => {
                self.note_kept(start);
                self.written()
            }
            Err(error) => {
                self.tell(&error);
                status_of(&error)
            }
        }
    }
}

/// How a commit ended that failed: want of memory and of room may pass.
fn status_of(error: &JournalError) -> CommitStatus
    ensures { result ≢ CommitStatus.All }
{
    match error {
        JournalError::Memory | JournalError::NoRoom(_) => CommitStatus::NotYet,
        _ => CommitStatus::Failed,
    }
}

/// A chore, and the syncs of a journal if its commits don't sync.
#[derive(Drop)]
pub struct SyncedChore<'c, 'f, 'k, C, O> {
    pub chore: &'c C,
    pub flusher: Option<&'f Flusher<'k, O>>,
}

impl<'c, 'f, 'k, C: Chore, O: Log> Chore for SyncedChore<'c, 'f, 'k, C, O> {
    type Seen = C::Seen;

    fn is_idle(&self) -> bool {
        self.chore.is_idle() && self.flusher.is_none()
    }

    fn first(&self) -> C::Seen {
        self.chore.first()
    }

    /// A sync that fails is logged, and the next commit fails.
    fn look<R: Wait>(&self, rt: &R, last: C::Seen) -> C::Seen {
        if let Some(flusher) = self.flusher {
            let _or_it_is_logged = flusher.flush(rt);
        }
        self.chore.look(rt, last)
    }
}
