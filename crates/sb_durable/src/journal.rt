//! A journal: a head, and then records in batches. What is staged waits in memory until it is committed.
ghost use Rattle.std.specs.Prelude.{◌≡◌, ◌⊎◌, ◌≤◌, ◌^◌, ◌++◌, ◌↔◌, [], ◌∷◌, List, ℕ, length, IfOk, OnOk, OnErr, IsTrue};
ghost use Rattle.sb_durable.specs.Log.{HasAll, IsSpent, device_of};
ghost use Rattle.sb_durable.specs.Records.{Entry, entry_of};

use crate::record::record_bytes;
use crate::recovery::MAX_CONTENT;
use crate::{JournalError, Record, RecordLog};
use sqlite_disk::Disk;
use std::alloc::Global;

pub struct Journal<D: Disk> {
    alloc: Global,
    log: RecordLog<D>,
    waiting: Vec<u8>,
    ghost small: { length waiting.items ≤ 2 ^ 20 },
}

impl<D: Disk + Drop> Drop for Journal<D> {
    fn drop(self) {
        let Self {
            alloc: _,
            log: _,
            waiting: _,
        } = self;
    }
}

impl<D: Disk> Journal<D> {
    ghost use Rattle.sb_durable.specs.declared.journal_header.Head.{Head as TheHead};
    ghost use Rattle.sb_durable.specs.Journal.{head_bytes, contents_of, all_of, Keeps, Has, IsAt, Gives, disk_of};

    /// A journal over a log that has its header already. Nothing is staged.
    pub fn over(alloc: Global, log: RecordLog<D>) -> Journal<D>
        ensures has { (head : TheHead) (batches : List (List Entry)) → HasAll D.Disk.seen D.Disk.may_leave log (head_bytes head ∷ contents_of batches)
            → Has D.Disk.seen D.Disk.may_leave result head (all_of batches) [] }
        ensures disk { disk_of result ≡ device_of log }
    {
        Journal {
            alloc,
            log,
            waiting: Vec::new(alloc),
        }
    }

    /// Returns the file. Staged records are dropped.
    pub fn close(self) -> D
        ensures { result ≡ disk_of self }
    {
        let Self {
            alloc: _,
            log,
            waiting: _,
        } = self;
        log.close()
    }

    /// The place of the first batch.
    pub fn first_place(&self) -> usize
        ensures { (head : TheHead) (entries waiting : List Entry) → Has D.Disk.seen D.Disk.may_leave self.now head entries waiting
            → IsAt D.Disk.seen D.Disk.may_leave self.now head result entries }
    {
        25
    }

    /// Reads the bytes of the batch at a place, and says where the next one is; `None` behind the last. Error: the
    /// device's, Memory or Damaged.
    pub fn read(&mut self, place: usize, batch: &mut Vec<u8>) -> Result<Option<usize>, JournalError>
        ensures found { IfOk result (λ next. IsTrue (D.Disk.is_clean (disk_of self.new)) → (head : TheHead) (entries : List Entry)
            → IsAt D.Disk.seen D.Disk.may_leave self.old head place entries
            → Gives (IsAt D.Disk.seen D.Disk.may_leave self.new head) entries batch.new.items next) }
        ensures same { (head : TheHead) (entries waiting : List Entry) → Has D.Disk.seen D.Disk.may_leave self.old head entries waiting
            → Has D.Disk.seen D.Disk.may_leave self.new head entries waiting }
        ensures clean { IsTrue (D.Disk.is_clean (disk_of self.new)) → IsTrue (D.Disk.is_clean (disk_of self.old)) }
    {
        self.log.read(place, batch)
    }

    /// Stages a record for the next commit. Errors: the buffer is full, or out of memory.
    pub fn stage(&mut self, line: Record) -> Result<(), JournalError>
        requires { length line.text.now ≤ 4096 }
        ensures ok { OnOk result ((head : TheHead) (entries waiting : List Entry) → Has D.Disk.seen D.Disk.may_leave self.old head entries waiting
            → Has D.Disk.seen D.Disk.may_leave self.new head entries (waiting ++ entry_of line.entry ∷ [])) }
        ensures err { OnErr result ((head : TheHead) (entries waiting : List Entry) → Has D.Disk.seen D.Disk.may_leave self.old head entries waiting
            → Has D.Disk.seen D.Disk.may_leave self.new head entries waiting) }
        ensures disk { disk_of self.new ≡ disk_of self.old }
    {
        let bytes = record_bytes(self.alloc, line)?;
        if bytes.len() > MAX_CONTENT - self.waiting.len() {
            return Err(JournalError::Full);
        }
        self.waiting.extend_from_slice(&bytes)?;
        Ok(())
    }

    /// Whatever a crash leaves of the file as it is has the records.
    pub fn is_kept(&self)
        ensures { (head : TheHead) (entries waiting : List Entry) → Has D.Disk.seen D.Disk.may_leave self.now head entries waiting
            → (file : List ℕ) → D.Disk.may_leave (disk_of self.now) file → Keeps head entries file }
    {}

    /// True if a write or a sync has failed. Then nothing more is written.
    pub fn is_spent(&self) -> bool
        ensures { IsTrue result ↔ IsSpent self.now.log }
    {
        self.log.is_spent()
    }

    /// The number of bytes that can still be staged.
    pub fn room(&self) -> usize
        ensures { result ≤ 2 ^ 20 }
    {
        MAX_CONTENT - self.waiting.len()
    }

    /// Writes all staged records as one batch, and syncs it. After an error nothing more is written.
    pub fn commit(&mut self) -> Result<(), JournalError>
        ensures ok { OnOk result ((head : TheHead) (entries waiting : List Entry) → Has D.Disk.seen D.Disk.may_leave self.old head entries waiting
            → Has D.Disk.seen D.Disk.may_leave self.new head (entries ++ waiting) []) }

        // Nothing was done, or it isn't used any more.
        ensures err { OnErr result (((head : TheHead) (entries waiting : List Entry) → Has D.Disk.seen D.Disk.may_leave self.old head entries waiting
            → Has D.Disk.seen D.Disk.may_leave self.new head entries waiting) ⊎ IsSpent self.new.log) }

        // A crash at any moment of the call leaves what was there, or that and all that waited.
        ensures any_moment { (head : TheHead) (entries waiting : List Entry) → Has D.Disk.seen D.Disk.may_leave self.old head entries waiting
            → (file : List ℕ) → D.Disk.may_leave (disk_of self.new) file → Keeps head entries file ⊎ Keeps head (entries ++ waiting) file }
        ensures clean { IsTrue (D.Disk.is_clean (disk_of self.new)) → IsTrue (D.Disk.is_clean (disk_of self.old)) }
    {
        if self.waiting.is_empty() {
            return Ok(());
        }
        self.log.append(self.alloc, &self.waiting)?;
        self.waiting.clear();
        Ok(())
    }
}
