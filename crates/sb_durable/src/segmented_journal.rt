//! A journal over the segments of a folder, which goes on in a new one where the newest is full.
ghost use Rattle.std.specs.Prelude.{◌≡◌, List, IfSome, IsTrue};

use crate::RowJournal;
use crate::segment::SegmentError;
use sqlite_disk::Disk;

/// Makes the files of further segments.
pub trait MakesSegments<D: Disk> {
    /// Makes the file of the segment with this number. None where that fails: then the reason is told.
    fn make_file(&self, number: u64) -> Option<D>
        ensures { IfSome result (λ file. IsTrue (D.Disk.is_usable file)) };

    /// Hears that batches go to the segment with this number from then on.
    fn hear_turned(&self, number: u64);

    /// Hears why the segment with this number could not be begun in the file that was made. False where a restart may take
    /// what was begun of it.
    fn hear_unturned(&self, number: u64, why: SegmentError) -> bool;
}

#[derive(Drop)]
pub struct SegmentedJournal<D: Disk, M> {
    pub(crate) row: RowJournal<D>,
    pub(crate) maker: M,
    /// A segment of so many bytes is full.
    pub(crate) limit: usize,
}

impl<D: Disk + Drop, M: MakesSegments<D>> SegmentedJournal<D, M> {
    ghost use Rattle.std.specs.Prelude.{◌++◌};
    ghost use Rattle.sb_durable.specs.BatchJournals.{Base, HasSegments, IsLater, segments_disk};
    ghost use Rattle.sb_durable.specs.Records.{Entry};

    /// Goes on in a new segment where the newest is full. Where that fails, it goes on in the newest, and the next call tries
    /// again. It is given up where a restart may take what was begun of the new one.
    pub(crate) fn turn_when_full(&mut self)
        ensures { IsTrue (D.Disk.is_clean (segments_disk self.new)) → (base : Base) (entries waiting : List Entry) → HasSegments D.Disk.seen D.Disk.may_leave self.old base entries waiting
            → (later : Base) × IsLater base later × HasSegments D.Disk.seen D.Disk.may_leave self.new later entries waiting }
    {
        if self.row.size() < self.limit || self.row.is_spent() {
            return;
        }
        let Some(number) = self.row.number().checked_add(1) else {
            return;
        };
        let Some(file) = self.maker.make_file(number) else {
            return;
        };
        match self.row.turn(file) {
            Ok(_full) => self.maker.hear_turned(number),
            Err((why, _file)) => {
                if !self.maker.hear_unturned(number, why) {
                    self.row.give_up();
                }
            }
        }
    }
}

/// Makes no further segment.
#[derive(Clone, Copy, Debug)]
pub(crate) struct OneSegment;

impl<D: Disk> MakesSegments<D> for OneSegment {
    fn make_file(&self, _number: u64) -> Option<D> {
        None
    }

    fn hear_turned(&self, _number: u64) {}

    fn hear_unturned(&self, _number: u64, _why: SegmentError) -> bool {
        true
    }
}
