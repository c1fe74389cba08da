//! A journal that records are staged in and committed to, over one file or over the files of a folder.
ghost use Rattle.std.specs.Prelude.{◌≡◌, ◌⊎◌, ◌≤◌, ◌^◌, ◌++◌, ◌↔◌, [], ◌∷◌, Bool, List, ℕ, length, OnOk, OnErr, IsTrue};
ghost use Rattle.sb_durable.specs.BatchJournals.{Base, IsLater};
ghost use Rattle.sb_durable.specs.Records.{Entry, entry_of};

use crate::segment::SegmentError;
use crate::segmented_journal::MakesSegments;
use crate::{Journal, JournalError, Record, RowJournal, SegmentedJournal};
use sqlite_disk::Disk;

/// A journal. What is staged waits in memory until it is committed.
pub trait BatchJournal {
    /// Behind this base it has these records, all of them on the disk, and these others wait.
    ghost has: { Self → Base → List Entry → List Entry → Type 0 };

    /// A crash may leave these files, in the order of their numbers.
    ghost leaves: { Self → Base → List (List ℕ) → Type 0 };

    /// The files keep these records.
    ghost keeps: { Base → List Entry → List (List ℕ) → Type 0 };

    /// No wrong answer of a disk was taken as true.
    ghost is_clean: { Self → Bool };

    /// A write or a sync has failed, and nothing more is written.
    ghost is_over: { Self → Type 0 };

    /// Stages a record for the next commit. Errors: Full, or Memory.
    fn stage(&mut self, line: Record) -> Result<(), JournalError>
        requires { length line.text.now ≤ 4096 }
        ensures ok { OnOk result ((base : Base) (entries waiting : List Entry) → has self.old base entries waiting
            → has self.new base entries (waiting ++ entry_of line.entry ∷ [])) }
        ensures err { OnErr result ((base : Base) (entries waiting : List Entry) → has self.old base entries waiting → has self.new base entries waiting) }
        ensures leaves { (base : Base) (files : List (List ℕ)) → leaves self.new base files → leaves self.old base files }
        ensures clean { is_clean self.new ≡ is_clean self.old };

    /// Writes all staged records as one batch, and syncs it. After an error nothing more is written, but for NoRoom and want
    /// of memory.
    fn commit(&mut self) -> Result<(), JournalError>
        ensures ok { OnOk result ((base : Base) (entries waiting : List Entry) → has self.old base entries waiting → has self.new base (entries ++ waiting) []) }

        // Nothing was done, or it isn't used any more.
        ensures err { OnErr result (((base : Base) (entries waiting : List Entry) → has self.old base entries waiting → has self.new base entries waiting) ⊎ is_over self.new) }

        // A crash at any moment of the call leaves what was there, or that and all that waited.
        ensures any_moment { (base : Base) (entries waiting : List Entry) → has self.old base entries waiting
            → (files : List (List ℕ)) → leaves self.new base files → keeps base entries files ⊎ keeps base (entries ++ waiting) files }
        ensures clean { IsTrue (is_clean self.new) → IsTrue (is_clean self.old) };

    /// Goes on in a further file, where the one that is written is full. Where that fails, it goes on where it was.
    fn turn(&mut self)
        ensures { IsTrue (is_clean self.new) → (base : Base) (entries waiting : List Entry) → has self.old base entries waiting
            → (later : Base) × IsLater base later × has self.new later entries waiting };

    /// Whatever a crash leaves of the files as they are has the records.
    fn is_kept(&self)
        ensures { (base : Base) (entries waiting : List Entry) → has self.now base entries waiting
            → (files : List (List ℕ)) → leaves self.now base files → keeps base entries files };

    /// The number of bytes that can still be staged.
    fn room(&self) -> usize
        ensures { result ≤ 2 ^ 20 };

    /// True if a write or a sync has failed. Then nothing more is written.
    fn is_spent(&self) -> bool
        ensures { IsTrue result ↔ is_over self.now };
}

impl<D: Disk> BatchJournal for Journal<D> {
    ghost use Rattle.sb_durable.specs.BatchJournals.{HasFile, IsFileSpent, KeepsFile, LeavesFile};
    ghost use Rattle.sb_durable.specs.Journal.{disk_of};

    ghost has = { HasFile D.Disk.seen D.Disk.may_leave };

    ghost leaves = { LeavesFile D.Disk.may_leave };

    ghost keeps = { KeepsFile };

    ghost is_clean = { λ journal. D.Disk.is_clean (disk_of journal) };

    ghost is_over = { IsFileSpent };

    fn stage(&mut self, line: Record) -> Result<(), JournalError> {
        Journal::stage(self, line)
    }

    fn commit(&mut self) -> Result<(), JournalError> {
        Journal::commit(self)
    }

    fn turn(&mut self) {}

    fn is_kept(&self) {
        Journal::is_kept(self);
    }

    fn room(&self) -> usize {
        Journal::room(self)
    }

    fn is_spent(&self) -> bool {
        Journal::is_spent(self)
    }
}

impl<D: Disk + Drop, M: MakesSegments<D>> BatchJournal for SegmentedJournal<D, M> {
    ghost use Rattle.sb_durable.specs.BatchJournals.{HasSegments, AreSpent, KeepsFiles, LeavesSegments, segments_disk};

    ghost has = { HasSegments D.Disk.seen D.Disk.may_leave };

    ghost leaves = { LeavesSegments D.Disk.may_leave };

    ghost keeps = { KeepsFiles };

    ghost is_clean = { λ journal. D.Disk.is_clean (segments_disk journal) };

    ghost is_over = { AreSpent };

    fn stage(&mut self, line: Record) -> Result<(), JournalError> {
        match self.row.stage(line) {
            Ok(()) => Ok(()),
            Err(error) => Err(reason_of(error)),
        }
    }

    fn commit(&mut self) -> Result<(), JournalError> {
        match self.row.commit() {
            Ok(()) => Ok(()),
            Err(error) => Err(reason_of(error)),
        }
    }

    fn turn(&mut self) {
        self.turn_when_full();
    }

    fn is_kept(&self) {
        self.row.is_kept();
    }

    fn room(&self) -> usize {
        self.row.room()
    }

    fn is_spent(&self) -> bool {
        self.row.is_spent()
    }
}

/// Why a journal doesn't go on, where its newest segment doesn't.
fn reason_of(error: SegmentError) -> JournalError {
    match error {
        SegmentError::Device(error) => JournalError::Device(error),
        SegmentError::Memory => JournalError::Memory,
        SegmentError::Full => JournalError::Full,
        SegmentError::NoRoom(error) => JournalError::NoRoom(error),
        SegmentError::Spent | SegmentError::Unsettled => JournalError::Spent,
        SegmentError::NotASegment
        | SegmentError::NotBegun
        | SegmentError::CutShort
        | SegmentError::Begun
        | SegmentError::Damaged => JournalError::Damaged,
    }
}
