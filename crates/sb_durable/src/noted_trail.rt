//! The entries of a trail beyond the journal, read before the journal is locked.
ghost use Rattle.std.specs.Prelude.{◌≡◌, IfOk, IfSome};
ghost use Rattle.sb_durable.specs.EntryReaders.{EndsAt, IsNoted};

use crate::entry_reader::{EntryReader, ReadReach};
use crate::record::RENEWAL_SIZE;
use crate::recorded_reach::RecordingStart;
use crate::{JournalError, RecordedReach};
use sb_host::Lending;
use std::alloc::Global;
use std::sync::Wait;

/// The most bytes of the records that are read at once: less than a batch may have.
const ROOM: usize = 1 << 19;

/// The entries of a tenant's trail beyond what was recorded when they were read.
#[derive(Drop)]
pub(crate) struct NotedTrail {
    pub(crate) tenant: u32,
    /// Its reach in the journal then.
    pub(crate) recorded: RecordedReach,
    pub(crate) notes: EntryReader,
    ghost read: { ∥ IsNoted tenant recorded notes ∥₁ },
}

/// The end of a tenant's trail when it was read.
#[derive(Clone, Copy, Debug)]
pub(crate) struct TrailEnd {
    pub(crate) tenant: u32,
    pub(crate) reach: RecordedReach,
}

impl NotedTrail {
    /// Reads the entries of a tenant's trail behind this place. Errors: Memory; or Unrecorded, where it doesn't go on there.
    pub(crate) fn read<H: Lending, T: Wait>(
        rt: &T,
        alloc: Global,
        host: H,
        tenant: u32,
        recorded: RecordedReach,
    ) -> Result<NotedTrail, JournalError>
        ensures { IfOk result (λ trail. (trail.tenant ≡ tenant) × IsNoted tenant recorded trail.notes) }
    {
        let mut notes = EntryReader {
            start: RecordingStart {
                reach: recorded,
                is_renewed: false,
            },
            room: ROOM,
            list: Vec::new(alloc),
            reach: ReadReach::Nowhere,
        };
        let _is_there = host.read(rt, tenant, &mut notes);
        match notes.reach {
            ReadReach::Nowhere => Err(JournalError::Unrecorded),
            ReadReach::NoMemory => Err(JournalError::Memory),
            ReadReach::Part | ReadReach::End => Ok(NotedTrail {
                tenant,
                recorded,
                notes,
            }),
        }
    }

    /// The trail's end. None if entries follow that weren't read.
    pub(crate) fn end(&self) -> Option<TrailEnd>
        ensures { IfSome result (λ end. (end.tenant ≡ self.now.tenant) × EndsAt self.now.notes end.reach) }
    {
        let ReadReach::End = self.notes.reach else {
            return None;
        };
        let start = self.notes.start.reach;
        let count = u32::try_from(self.notes.list.len()).ok()?;
        let entries = start.entries.checked_add(count)?;
        Some(TrailEnd {
            tenant: self.tenant,
            reach: RecordedReach {
                volume: start.volume,
                entries,
            },
        })
    }

    /// The most bytes that its records may have.
    pub(crate) fn size(&self) -> usize {
        let mut size = RENEWAL_SIZE;
        for note in &self.notes.list {
            size = size.saturating_add(note.size());
        }
        size
    }
}
