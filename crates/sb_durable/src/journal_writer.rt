//! The journal, and how much of each trail is recorded in it.
ghost use Rattle.std.specs.Prelude.{◌≡◌, ◌⊎◌, ◌+◌, ◌<◌, ◌≤◌, ◌++◌, [], ◌∷◌, List, ℕ, true, length, slice_set, is_ok, IfOk, IfErr, OnOk, OnErr, IsErr, IsTrue, Some, slice_get, ◌↔◌};
ghost use Rattle.sb_durable.specs.BatchJournals.{Base};
ghost use Rattle.sb_durable.specs.Records.{Entry};
ghost use Rattle.sb_durable.specs.EntryReaders.{IsEndOf, IsStaged, record_of_note};
ghost use Rattle.sb_durable.specs.Recording.{renewals_of};

use crate::entry_reader::{EntryReader, PendingEntry, ReadReach};
use crate::noted_trail::{NotedTrail, TrailEnd};
use crate::record::renewal;
use crate::recorded_reach::RecordingStart;
use crate::{BatchJournal, JournalError, Record, RecordedReach};
use sb_wire::LINE_LIMIT;
use std::alloc::Global;

#[derive(Drop)]
pub(crate) struct JournalWriter<B> {
    pub(crate) alloc: Global,
    pub(crate) journal: B,
    /// The reach of each tenant: it is recorded so far.
    pub(crate) recorded: Vec<RecordedReach>,
}

impl<B: BatchJournal> JournalWriter<B> {
    ghost use Rattle.std.specs.List.{All};
    ghost use Rattle.sb_durable.specs.RecordedTrails.{AreKept, StagesNoted, StagesNothing, StagesSome, Takes, TakesParts, ends_of};
    ghost use Rattle.sb_durable.specs.declared.noted_trail.TrailEnd.{TrailEnd as ItsEnd};

    /// Records what was noted of trails, where they are recorded as far as they were then, and commits it. True if each of
    /// these ends is recorded. It may be called again after a lack of memory.
    pub(crate) fn bring_up(
        &mut self,
        trails: &[NotedTrail],
        ends: &[TrailEnd],
    ) -> Result<bool, JournalError>
        ensures kept { IfOk result (λ is_kept. IsTrue is_kept → All (λ (end : ItsEnd). IsEndOf end.tenant end.reach) ends.now → AreKept B.BatchJournal (ends_of ends.now)) }
        ensures ok { OnOk result ∥ TakesParts B.BatchJournal ⊥ self.old self.new ∥₁ }
        ensures err { OnErr result ∥ TakesParts B.BatchJournal (B.BatchJournal.is_over self.new.journal) self.old self.new ∥₁ }
        ensures spent { B.BatchJournal.is_over self.old.journal → IsErr result × (self.new ≡ self.old) }
    {
        if self.journal.is_spent() {
            self.journal.is_kept();
            return Err(JournalError::Spent);
        }
        self.stage_all(trails)?;
        let is_kept = self.has_all(ends);
        self.commit()?;
        Ok(is_kept)
    }

    /// Stages what was noted of trails.
    fn stage_all(&mut self, trails: &[NotedTrail]) -> Result<(), JournalError>
        ensures ok { OnOk result ∥ TakesParts B.BatchJournal ⊥ self.old self.new ∥₁ }
        ensures err { OnErr result ∥ TakesParts B.BatchJournal (B.BatchJournal.is_over self.new.journal) self.old self.new ∥₁ }
    {
        self.journal.is_kept();
        for trail in trails {
            self.stage_trail(trail)?;
        }
        Ok(())
    }

    /// Stages what was noted of a trail, unless it is recorded further by now.
    fn stage_trail(&mut self, trail: &NotedTrail) -> Result<(), JournalError>
        ensures ok { OnOk result ∥ TakesParts B.BatchJournal ⊥ self.old self.new ∥₁ }
        ensures err { OnErr result ∥ TakesParts B.BatchJournal (B.BatchJournal.is_over self.new.journal) self.old self.new ∥₁ }
    {
        self.journal.is_kept();
        match self.is_recorded_to(trail.tenant, trail.recorded) {
            true => self.stage_behind(trail),
            false => Ok(()),
        }
    }

    /// Stages what was noted of a trail. If the buffer hasn't the room, what is staged is committed first.
    fn stage_behind(&mut self, trail: &NotedTrail) -> Result<(), JournalError>
        requires { slice_get self.old.recorded.items trail.now.tenant ≡ Some trail.now.recorded }
        ensures ok { OnOk result ∥ TakesParts B.BatchJournal ⊥ self.old self.new ∥₁ }
        ensures err { OnErr result ∥ TakesParts B.BatchJournal (B.BatchJournal.is_over self.new.journal) self.old self.new ∥₁ }
    {
        self.make_room(trail.size())?;
        let staged = self.stage_noted(trail.tenant, &trail.notes);
        self.journal.is_kept();
        match staged {
            Ok(_) => Ok(()),
            Err(error) => Err(error),
        }
    }

    /// Commits what is staged if the buffer hasn't room for so many bytes more.
    fn make_room(&mut self, size: usize) -> Result<(), JournalError>
        ensures ok { OnOk result ∥ TakesParts B.BatchJournal ⊥ self.old self.new ∥₁ }
        ensures err { OnErr result ∥ TakesParts B.BatchJournal (B.BatchJournal.is_over self.new.journal) self.old self.new ∥₁ }
        ensures counts { self.new.recorded ≡ self.old.recorded }
    {
        self.journal.is_kept();
        match self.journal.room() < size {
            true => self.commit(),
            false => Ok(()),
        }
    }

    /// True if each of these ends is recorded.
    fn has_all(&self, ends: &[TrailEnd]) -> bool
        ensures { IsTrue result → All (λ (end : ItsEnd). slice_get self.now.recorded.items end.tenant ≡ Some end.reach) ends.now }
    {
        for end in ends {
            match self.is_recorded_to(end.tenant, end.reach) {
                true => {}
                false => return false,
            }
        }
        true
    }

    /// True if a tenant is recorded just so far.
    pub(crate) fn is_recorded_to(&self, tenant: u32, reach: RecordedReach) -> bool
        ensures { IsTrue result ↔ slice_get self.now.recorded.items tenant ≡ Some reach }
    {
        let place = tenant as usize;
        if place >= self.recorded.len() {
            return false;
        }
        self.recorded[place].equals(reach)
    }

    /// Stages the steps that were read. True if none is left.
    fn stage_noted(&mut self, tenant: u32, notes: &EntryReader) -> Result<bool, JournalError>
        requires { tenant < length self.old.recorded.items }
        ensures whole { IfOk result (λ is_whole. IsStaged notes.now.reach is_whole) }
        ensures staged { StagesNoted B.BatchJournal self.old self.new tenant notes.now (is_ok result) }
    {
        match notes.reach {
            ReadReach::Nowhere => Err(JournalError::Unrecorded),
            ReadReach::NoMemory => Err(JournalError::Memory),
            ReadReach::Part => self.stage(tenant, notes.start, notes.list.as_slice(), false),
            ReadReach::End => self.stage(tenant, notes.start, notes.list.as_slice(), true),
        }
    }

    /// Stages these steps of a tenant, behind the renewal if there is one. True if none is left.
    fn stage(
        &mut self,
        tenant: u32,
        start: RecordingStart,
        notes: &[PendingEntry],
        is_all: bool,
    ) -> Result<bool, JournalError>
        requires { tenant < length self.old.recorded.items }
        ensures all { IfOk result (λ gives. gives ≡ is_all) }
        ensures staged { StagesSome B.BatchJournal self.old self.new tenant start notes.now (is_ok result) }
    {
        let mut reach = start.reach;
        self.begin(tenant, start)?;
        for note in notes {
            let Some(entries) = reach.entries.checked_add(1) else {
                return Err(JournalError::Full);
            };
            stage_one(&mut self.journal, tenant, note)?;
            reach.entries = entries;
            self.recorded[tenant as usize] = reach;
        }
        Ok(is_all)
    }

    /// Counts where recording goes on, and stages the renewal if there is one.
    fn begin(&mut self, tenant: u32, start: RecordingStart) -> Result<(), JournalError>
        requires { tenant < length self.old.recorded.items }
        ensures counts { OnOk result (self.new.recorded.items ≡ slice_set self.old.recorded.items tenant start.reach) }
        ensures has { OnOk result ((base : Base) (records waiting : List Entry) → B.BatchJournal.has self.old.journal base records waiting
            → B.BatchJournal.has self.new.journal base records (waiting ++ renewals_of tenant start.is_renewed)) }
        ensures err { OnErr result (StagesNothing B.BatchJournal self.old self.new) }
    {
        stage_renewal(&mut self.journal, tenant, start.is_renewed)?;
        self.recorded[tenant as usize] = start.reach;
        Ok(())
    }

    /// Commits what is staged.
    fn commit(&mut self) -> Result<(), JournalError>
        ensures ok { OnOk result ((base : Base) (records waiting : List Entry) → B.BatchJournal.has self.old.journal base records waiting
            → Takes B.BatchJournal ⊥ self.old self.new base records waiting []
            × B.BatchJournal.has self.new.journal base (records ++ waiting) []) }
        ensures err { OnErr result ((base : Base) (records waiting : List Entry) → B.BatchJournal.has self.old.journal base records waiting
            → Takes B.BatchJournal (B.BatchJournal.is_over self.new.journal) self.old self.new base records waiting []) }
        ensures counts { self.new.recorded ≡ self.old.recorded }
    {
        self.journal.commit()
    }
}

/// Stages the renewal of a tenant, if there is one.
fn stage_renewal<B: BatchJournal>(
    journal: &mut B,
    tenant: u32,
    is_renewed: bool,
) -> Result<(), JournalError>
    ensures ok { OnOk result ((base : Base) (records waiting : List Entry) → B.BatchJournal.has journal.old base records waiting
        → B.BatchJournal.has journal.new base records (waiting ++ renewals_of tenant is_renewed)) }
    ensures err { OnErr result ((base : Base) (records waiting : List Entry) → B.BatchJournal.has journal.old base records waiting
        → B.BatchJournal.has journal.new base records waiting) }
{
    match is_renewed {
        true => journal.stage(renewal(tenant)),
        false => Ok(()),
    }
}

/// Stages one step of a tenant.
fn stage_one<B: BatchJournal>(
    journal: &mut B,
    tenant: u32,
    note: &PendingEntry,
) -> Result<(), JournalError>
    ensures ok { OnOk result ((base : Base) (records waiting : List Entry) → B.BatchJournal.has journal.old base records waiting
        → B.BatchJournal.has journal.new base records (waiting ++ record_of_note tenant note.now ∷ [])) }
    ensures err { OnErr result ((base : Base) (records waiting : List Entry) → B.BatchJournal.has journal.old base records waiting
        → B.BatchJournal.has journal.new base records waiting) }
{
    let text = note.text();
    if text.len() > LINE_LIMIT {
        return Err(JournalError::Full);
    }
    journal.stage(Record {
        tenant,
        session: note.session.number(),
        text,
    })
}
