//! A journal over a row of segments: batches of records go to the newest one. What is staged waits in memory until it is
//! committed.
ghost use Rattle.std.specs.Prelude.{◌≡◌, ◌⊎◌, ◌≤◌, ◌^◌, ◌++◌, ◌↔◌, [], ◌∷◌, List, ℕ, length, IfOk, IfErr, OnOk, OnErr, IsTrue};
ghost use Rattle.sqlite_disk.specs.Disk.{Only};
ghost use Rattle.sb_durable.specs.Head.{IsHead, IsLeft, IsUnbegun};
ghost use Rattle.sb_durable.specs.Records.{Entry, entry_of};
ghost use Rattle.sb_durable.specs.Row.{Filed, IsRow, HaveSettings, AreLeft, all_contents};
ghost use Rattle.sb_durable.specs.RowJournal.{settings_of};
ghost use Rattle.sb_durable.specs.Segment.{EndsWithin, HasAll, IsSpent, device_of, end_of, head_of};

use crate::record::record_bytes;
use crate::recovery::MAX_CONTENT;
use crate::segment::{RowError, RowReader, Segment, SegmentError};
use crate::{Head, Record};
use sqlite_disk::Disk;
use std::alloc::Global;
use std::mem;

/// The number of a journal's first segment.
pub(crate) const FIRST_NUMBER: u64 = 1;

pub struct RowJournal<D: Disk> {
    alloc: Global,
    newest: Segment<D>,
    waiting: Vec<u8>,
    ghost small: { length waiting.items ≤ 2 ^ 20 },
    ghost settings_fit: { length (head_of newest).settings ≤ 4096 },
}

impl<D: Disk + Drop> Drop for RowJournal<D> {
    fn drop(self) {
        let Self {
            alloc: _,
            newest: _,
            waiting: _,
        } = self;
    }
}

impl<D: Disk> RowJournal<D> {
    ghost use Rattle.sb_durable.specs.declared.journal_header.Head.{Head as TheHead};
    ghost use Rattle.sb_durable.specs.Journal.{all_of, contents_of};
    ghost use Rattle.sb_durable.specs.RowJournal.{KeepRow};
    ghost use Rattle.sb_durable.specs.RowJournals.{HasRow, disk_of, newest_of};
    ghost use Rattle.sb_durable.specs.RowReaders.{HasRead, filed, last_of};

    /// A journal whose newest segment is this one. Nothing is staged.
    pub fn over(alloc: Global, newest: Segment<D>) -> RowJournal<D>
        requires { length (head_of newest).settings ≤ 4096 }
        ensures has { (head : TheHead) (older : List Filed) (contents : List (List ℕ)) (batches : List (List Entry)) → HasAll D.Disk.seen D.Disk.may_leave newest contents
            → IsRow (older ++ filed newest contents ∷ []) → HaveSettings (settings_of head) (older ++ filed newest contents ∷ [])
            → contents_of batches ≡ all_contents (older ++ filed newest contents ∷ []) → HasRow D.Disk.seen D.Disk.may_leave result head older (all_of batches) [] }
        ensures newest { newest_of result ≡ newest }
        ensures disk { disk_of result ≡ device_of newest }
    {
        RowJournal {
            alloc,
            newest,
            waiting: Vec::new(alloc),
        }
    }

    /// A journal over the files of a folder, which were read up to the newest. What a crash may have left behind the last
    /// block is cut off. It may crash too. Error: the file ends within a block, or the segment's.
    pub fn open(alloc: Global, reader: RowReader<D>) -> Result<RowJournal<D>, (RowError, D)>
        requires { IsHead (head_of (last_of reader)) }
        ensures ok { IfOk result (λ journal. IsTrue (D.Disk.is_clean (disk_of journal)) → (head : TheHead) (older : List Filed) (contents : List (List ℕ)) (batches : List (List Entry))
            → HasRead D.Disk.seen reader (settings_of head) older contents → contents_of batches ≡ all_contents (older ++ filed (last_of reader) contents ∷ [])
            → HasRow D.Disk.seen D.Disk.may_leave journal head older (all_of batches) []) }

        ensures newest { IfOk result (λ journal. head_of (newest_of journal) ≡ head_of (last_of reader)) }

        // A file that ends within a block is refused, and left as it is.
        ensures whole { IfOk result (λ journal. IsTrue (D.Disk.is_clean (disk_of journal)) → EndsWithin D.Disk.seen (last_of reader) → ⊥) }
        ensures ends_within { IfErr result (λ e. e.0 ≡ RowError.EndsWithin → (D.Disk.seen e.1 ≡ D.Disk.seen (device_of (last_of reader)))
            × ((file : List ℕ) → D.Disk.may_leave e.1 file → D.Disk.may_leave (device_of (last_of reader)) file)
            × (IsTrue (D.Disk.is_clean e.1) → EndsWithin D.Disk.seen (last_of reader))) }

        // Where a crash left the files, a crash at any moment of the call leaves them with the same records.
        ensures any_moment { IfOk result (λ journal. IsTrue (D.Disk.is_clean (disk_of journal)) → Only (D.Disk.seen (device_of (last_of reader))) (D.Disk.may_leave (device_of (last_of reader)))
            → (head : TheHead) (older : List Filed) (contents : List (List ℕ)) (batches : List (List Entry))
            → HasRead D.Disk.seen reader (settings_of head) older contents → contents_of batches ≡ all_contents (older ++ filed (last_of reader) contents ∷ [])
            → (files : List (List ℕ)) → AreLeft older files → IsLeft (head_of (last_of reader)) contents (D.Disk.seen (device_of (last_of reader)))
            → (file : List ℕ) → D.Disk.may_leave (disk_of journal) file → KeepRow head (all_of batches) (files ++ file ∷ [])) }
        ensures any_moment_err { IfErr result (λ e. IsTrue (D.Disk.is_clean e.1) → Only (D.Disk.seen (device_of (last_of reader))) (D.Disk.may_leave (device_of (last_of reader)))
            → (head : TheHead) (older : List Filed) (contents : List (List ℕ)) (batches : List (List Entry))
            → HasRead D.Disk.seen reader (settings_of head) older contents → contents_of batches ≡ all_contents (older ++ filed (last_of reader) contents ∷ [])
            → (files : List (List ℕ)) → AreLeft older files → IsLeft (head_of (last_of reader)) contents (D.Disk.seen (device_of (last_of reader)))
            → (file : List ℕ) → D.Disk.may_leave e.1 file → KeepRow head (all_of batches) (files ++ file ∷ [])) }
    {
        match reader.finish() {
            Ok(newest) => Ok(RowJournal::over(alloc, newest)),
            Err(error) => Err(error),
        }
    }

    /// A new journal with these settings: its first segment is begun in a file that hasn't begun. It may crash too. Error:
    /// as of `Segment::begin`.
    pub fn begin(alloc: Global, device: D, head: Head) -> Result<RowJournal<D>, (SegmentError, D)>
        requires { IsTrue (D.Disk.is_usable device) }
        ensures ok { IfOk result (λ journal. IsTrue (D.Disk.is_clean (disk_of journal)) → HasRow D.Disk.seen D.Disk.may_leave journal head [] [] []) }

        // A file that has begun, or that is of another program, is left as it is.
        ensures kept { IfErr result (λ e. IsTrue (D.Disk.is_clean e.1) → (IsUnbegun (D.Disk.seen device) → ⊥)
            → (D.Disk.seen e.1 ≡ D.Disk.seen device) × ((file : List ℕ) → D.Disk.may_leave e.1 file → D.Disk.may_leave device file)) }

        // A crash at any moment of the call leaves a folder that keeps no record.
        ensures any_moment { IfOk result (λ journal. IsTrue (D.Disk.is_clean (disk_of journal)) → Only (D.Disk.seen device) (D.Disk.may_leave device) → IsUnbegun (D.Disk.seen device)
            → (file : List ℕ) → D.Disk.may_leave (disk_of journal) file → KeepRow head [] (file ∷ [])) }
        ensures any_moment_err { IfErr result (λ e. IsTrue (D.Disk.is_clean e.1) → Only (D.Disk.seen device) (D.Disk.may_leave device) → IsUnbegun (D.Disk.seen device)
            → (file : List ℕ) → D.Disk.may_leave e.1 file → KeepRow head [] (file ∷ [])) }
    {
        let settings = settings_bytes(head);
        match Segment::begin(alloc, device, FIRST_NUMBER, 0, &settings) {
            Ok(newest) => Ok(RowJournal::over(alloc, newest)),
            Err(error) => Err(error),
        }
    }

    /// Stages a record for the next commit. Errors: Full, or Memory.
    pub fn stage(&mut self, line: Record) -> Result<(), SegmentError>
        requires { length line.text.now ≤ 4096 }
        ensures ok { OnOk result ((head : TheHead) (older : List Filed) (entries waiting : List Entry) → HasRow D.Disk.seen D.Disk.may_leave self.old head older entries waiting
            → HasRow D.Disk.seen D.Disk.may_leave self.new head older entries (waiting ++ entry_of line.entry ∷ [])) }
        ensures err { OnErr result ((head : TheHead) (older : List Filed) (entries waiting : List Entry) → HasRow D.Disk.seen D.Disk.may_leave self.old head older entries waiting
            → HasRow D.Disk.seen D.Disk.may_leave self.new head older entries waiting) }
        ensures disk { disk_of self.new ≡ disk_of self.old }
    {
        let bytes = record_bytes(self.alloc, line)?;
        if bytes.len() > MAX_CONTENT - self.waiting.len() {
            return Err(SegmentError::Full);
        }
        self.waiting.extend_from_slice(&bytes)?;
        Ok(())
    }

    /// Writes all staged records as one batch to the newest segment, and syncs it. After an error nothing more is written,
    /// but for NoRoom and want of memory.
    pub fn commit(&mut self) -> Result<(), SegmentError>
        ensures ok { OnOk result ((head : TheHead) (older : List Filed) (entries waiting : List Entry) → HasRow D.Disk.seen D.Disk.may_leave self.old head older entries waiting
            → HasRow D.Disk.seen D.Disk.may_leave self.new head older (entries ++ waiting) []) }

        // Nothing was done, or it isn't used any more.
        ensures err { OnErr result (((head : TheHead) (older : List Filed) (entries waiting : List Entry) → HasRow D.Disk.seen D.Disk.may_leave self.old head older entries waiting
            → HasRow D.Disk.seen D.Disk.may_leave self.new head older entries waiting) ⊎ IsSpent (newest_of self.new)) }

        // A crash at any moment of the call leaves what was there, or that and all that waited, in the files of the folder.
        ensures any_moment { (head : TheHead) (older : List Filed) (entries waiting : List Entry) → HasRow D.Disk.seen D.Disk.may_leave self.old head older entries waiting
            → (files : List (List ℕ)) → AreLeft older files → (file : List ℕ) → D.Disk.may_leave (disk_of self.new) file
            → KeepRow head entries (files ++ file ∷ []) ⊎ KeepRow head (entries ++ waiting) (files ++ file ∷ []) }
        ensures clean { IsTrue (D.Disk.is_clean (disk_of self.new)) → IsTrue (D.Disk.is_clean (disk_of self.old)) }
    {
        if self.waiting.is_empty() {
            return Ok(());
        }
        self.newest.append(self.alloc, &self.waiting)?;
        self.waiting.clear();
        Ok(())
    }

    /// Begins the next segment in a file that hasn't begun: batches go there from then on. Gives back the file of the one
    /// before. Error: batches go where they went, and the file is given back.
    pub fn turn(&mut self, device: D) -> Result<D, (SegmentError, D)>
        requires { IsTrue (D.Disk.is_usable device) }
        ensures ok { IfOk result (λ full. IsTrue (D.Disk.is_clean (disk_of self.new)) → (head : TheHead) (older : List Filed) (entries waiting : List Entry)
            → (has : HasRow D.Disk.seen D.Disk.may_leave self.old head older entries waiting)
            → HasRow D.Disk.seen D.Disk.may_leave self.new head (older ++ filed (newest_of self.old) has.contents ∷ []) entries waiting) }
        ensures full { IfOk result (λ full. full ≡ disk_of self.old) }

        // A crash at any moment of the call leaves a file behind the others that hasn't begun, or the whole head.
        ensures any_moment { IfOk result (λ full. IsTrue (D.Disk.is_clean (disk_of self.new)) → Only (D.Disk.seen device) (D.Disk.may_leave device) → IsUnbegun (D.Disk.seen device)
            → (head : TheHead) (older : List Filed) (entries waiting : List Entry) (has : HasRow D.Disk.seen D.Disk.may_leave self.old head older entries waiting)
            → (files : List (List ℕ)) → AreLeft (older ++ filed (newest_of self.old) has.contents ∷ []) files
            → (file : List ℕ) → D.Disk.may_leave (disk_of self.new) file → KeepRow head entries (files ++ file ∷ [])) }
        ensures any_moment_err { IfErr result (λ e. IsTrue (D.Disk.is_clean e.1) → Only (D.Disk.seen device) (D.Disk.may_leave device) → IsUnbegun (D.Disk.seen device)
            → (head : TheHead) (older : List Filed) (entries waiting : List Entry) (has : HasRow D.Disk.seen D.Disk.may_leave self.old head older entries waiting)
            → (files : List (List ℕ)) → AreLeft (older ++ filed (newest_of self.old) has.contents ∷ []) files
            → (file : List ℕ) → D.Disk.may_leave e.1 file → KeepRow head entries (files ++ file ∷ [])) }
        ensures err { IfErr result (λ e. (head : TheHead) (older : List Filed) (entries waiting : List Entry) → HasRow D.Disk.seen D.Disk.may_leave self.old head older entries waiting
            → HasRow D.Disk.seen D.Disk.may_leave self.new head older entries waiting) }
    {
        match self.newest.begin_next(self.alloc, device) {
            Ok(next) => {
                let full = mem::replace(&mut self.newest, next);
                Ok(full.close())
            }
            Err((error, device)) => Err((error, device)),
        }
    }

    /// Lets nothing be committed any more.
    pub fn give_up(&mut self)
        ensures has { (head : TheHead) (older : List Filed) (entries waiting : List Entry) → HasRow D.Disk.seen D.Disk.may_leave self.old head older entries waiting
            → HasRow D.Disk.seen D.Disk.may_leave self.new head older entries waiting }
        ensures spent { IsSpent (newest_of self.new) }
        ensures disk { disk_of self.new ≡ disk_of self.old }
    {
        self.newest.give_up();
    }

    /// Whatever a crash leaves of the files as they are has the records.
    pub fn is_kept(&self)
        ensures { (head : TheHead) (older : List Filed) (entries waiting : List Entry) → HasRow D.Disk.seen D.Disk.may_leave self.now head older entries waiting
            → (files : List (List ℕ)) → AreLeft older files → (file : List ℕ) → D.Disk.may_leave (disk_of self.now) file → KeepRow head entries (files ++ file ∷ []) }
    {}

    /// The number of the newest segment.
    pub fn number(&self) -> u64
        ensures { result ≡ (head_of (newest_of self.now)).number }
    {
        self.newest.number()
    }

    /// The bytes of the newest segment.
    pub fn size(&self) -> usize
        ensures { result ≡ (end_of (newest_of self.now)).at }
    {
        self.newest.size()
    }

    /// The number of bytes that can still be staged.
    pub fn room(&self) -> usize
        ensures { result ≤ 2 ^ 20 }
    {
        MAX_CONTENT - self.waiting.len()
    }

    /// True if a write or a sync has failed. Then nothing more is written.
    pub fn is_spent(&self) -> bool
        ensures { IsTrue result ↔ IsSpent (newest_of self.now) }
    {
        self.newest.is_spent()
    }

    /// Returns the file of the newest segment. Staged records are dropped.
    pub fn close(self) -> D
        ensures { result ≡ disk_of self }
    {
        let Self {
            alloc: _,
            newest,
            waiting: _,
        } = self;
        newest.close()
    }
}

/// The settings of a journal, which each of its segments has: four bytes of tenants, four of
/// the budget and four of the limit of considerations.
pub(crate) fn settings_bytes(head: Head) -> [u8; 12]
    ensures { result ≡ settings_of head }
{
    let [t0, t1, t2, t3] = head.tenants.to_be_bytes();
    let [w0, w1, w2, w3] = head.work.to_be_bytes();
    let [b0, b1, b2, b3] = head.bound.to_be_bytes();
    [t0, t1, t2, t3, w0, w1, w2, w3, b0, b1, b2, b3]
}
