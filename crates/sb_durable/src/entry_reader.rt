//! The entries of a trail beyond those that are recorded, noted while the cell's lock is held.
ghost use Rattle.std.specs.Prelude.{◌≡◌, [], false, IfOk};
ghost use Rattle.sb_durable.specs.EntryReaders.{NotesAll, note_of, text_of};

use crate::recorded_reach::{RecordingStart, start_in};
use sb_host::Reading;
use sb_tenant::{Entry, Line, Reply, Tenant};
use sb_value::{Refusal, SessionId};
use sb_wire::LINE_LIMIT;
use std::alloc::AllocError;

/// The record of an abort.
pub(crate) const ROLLBACK: &[u8] = b"rollback";

/// The bytes of a record without its line.
const BESIDE: usize = 9;

/// A step of a trail that waits to be recorded.
#[derive(Drop)]
pub(crate) struct PendingEntry {
    pub(crate) session: SessionId,
    /// None: an abort.
    pub(crate) line: Option<Line>,
}

impl PendingEntry {
    fn of(entry: &Entry) -> Result<PendingEntry, AllocError>
        ensures { IfOk result (λ note. note ≡ note_of entry.now) }
    {
        let line = match &entry.reply {
            Reply::No(Refusal::NoMemory) => None,
            _ => Some(entry.line.share()?),
        };
        Ok(PendingEntry {
            session: entry.session,
            line,
        })
    }

    /// The recorded text of the step.
    pub(crate) fn text(&self) -> &[u8]
        ensures { result.now ≡ text_of self.now }
    {
        match &self.line {
            Some(line) => line.as_slice(),
            None => ROLLBACK,
        }
    }

    /// The bytes of its record. One that is too long is seen when it is staged.
    pub(crate) fn size(&self) -> usize {
        BESIDE + self.text().len().min(LINE_LIMIT)
    }
}

/// The place up to which the entries were read.
#[derive(Clone, Copy)]
pub(crate) enum ReadReach {
    /// There is no tenant, or it doesn't go on where it is recorded.
    Nowhere,
    /// The buffer is full. More entries follow.
    Part,
    /// To the end of the trail.
    End,
    NoMemory,
}

/// Reads the entries of a tenant from where its recording goes on.
#[derive(Drop)]
pub(crate) struct EntryReader {
    /// The place up to which it is recorded; once it is read, the one at which recording goes on.
    pub(crate) start: RecordingStart,
    /// The most bytes of their records.
    pub(crate) room: usize,
    pub(crate) list: Vec<PendingEntry>,
    pub(crate) reach: ReadReach,
}

impl Reading for EntryReader {
    ghost use Rattle.sb_durable.specs.EntryReaders.{Reads};

    ghost reads = { Reads };

    fn read(&mut self, tenant: &Tenant) {
        let trail = tenant.trail();
        let Some(start) = start_in(self.start.reach, tenant.volume()) else {
            self.stay();
            return;
        };
        let from = start.reach.entries as usize;
        if from > trail.len() {
            self.stay();
            return;
        }
        self.start = start;
        self.list.clear();
        self.reach = note_all(&mut self.list, &trail[from..], self.room);
    }
}

impl EntryReader {
    /// Nothing is read.
    fn stay(&mut self)
        ensures { self.new ≡ record self.old { start = record (self.old).start { is_renewed = false }; reach = ReadReach.Nowhere } }
    {
        self.start.is_renewed = false;
        self.reach = ReadReach::Nowhere;
    }
}

/// Notes the first of these entries, as many as there is room for.
fn note_all(list: &mut Vec<PendingEntry>, entries: &[Entry], room: usize) -> ReadReach
    requires { list.old.items ≡ [] }
    ensures { NotesAll entries.now list.new.items result }
{
    let mut left = room;
    for entry in entries {
        let Ok(note) = PendingEntry::of(entry) else {
            return ReadReach::NoMemory;
        };
        let needs = note.size();
        if needs > left {
            return ReadReach::Part;
        }
        left -= needs;
        if list.push(note).is_err() {
            return ReadReach::NoMemory;
        }
    }
    ReadReach::End
}
