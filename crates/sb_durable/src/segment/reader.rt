//! The segments of a folder, read one after the other: each goes on where the one before it ends. Nothing is written.
ghost use Rattle.std.specs.Prelude.{◌≡◌, ◌++◌, [], ◌∷◌, List, ℕ, IfOk, IfErr, OnOk, OnErr, IsTrue};
ghost use Rattle.sqlite_disk.specs.Disk.{Only};
ghost use Rattle.sb_durable.specs.Head.{Head, IsHead, IsLeft, IsUnbegun, Stands};
ghost use Rattle.sb_durable.specs.Row.{Filed, IsNext};
ghost use Rattle.sb_durable.specs.RowFaults.{IsRefused, Tells, TellsFirst};
ghost use Rattle.sb_durable.specs.declared.segment.error.SegmentError.{SegmentError as TheError};
ghost use Rattle.sb_durable.specs.declared.segment.row.RowFault.{RowFault as TheFault};
ghost use Rattle.sb_durable.specs.Segment.{BindsAll, EndsWithin, HasAll, IsBehind, Knows, Reads, Gives, device_of, end_of, head_of};

use crate::segment::{Place, RowFault, Segment, SegmentError};
use sqlite_disk::Disk;
use std::alloc::Global;
use std::mem;
use thiserror::Error;

/// Why a file isn't taken as the next one of a row. It is left as it is.
#[derive(Clone, Copy, Debug, Error)]
pub enum RowError {
    #[error("{0}")]
    Segment(SegmentError),
    #[error("{0}")]
    Fault(RowFault),
    /// It ends within a block whose gate is open, as part of a copy does. No crash leaves that.
    #[error("it ends within a block")]
    EndsWithin,
}

/// The segment of a row that was read last.
#[derive(Drop)]
pub struct RowReader<D: Disk> {
    pub(crate) last: Segment<D>,
}

impl<D: Disk> RowReader<D> {
    ghost use Rattle.sb_durable.specs.RowReaders.{HasRead, BindsRow, StaysRead, filed, last_of};

    /// Reads the oldest file of a folder, which is to have this number and these settings. Error: the segment's, or what of
    /// its head differs.
    pub fn first(
        alloc: Global,
        device: D,
        number: u64,
        settings: &[u8],
    ) -> Result<RowReader<D>, (RowError, D)>
        requires { IsTrue (D.Disk.is_usable device) }
        ensures ok { IfOk result (λ reader. IsTrue (D.Disk.is_clean (device_of (last_of reader))) → (head : Head) (contents : List (List ℕ)) → Stands head contents (D.Disk.seen device)
            → (head_of (last_of reader) ≡ head) × HasRead D.Disk.seen reader settings.now [] contents) }
        ensures number { IfOk result (λ reader. (head_of (last_of reader)).number ≡ number) }
        ensures fits { IfOk result (λ reader. IsHead (head_of (last_of reader))) }

        ensures begun { IfOk result (λ reader. IsTrue (D.Disk.is_clean (device_of (last_of reader))) → IsUnbegun (D.Disk.seen device) → ⊥) }

        // What was read bears its digests, whatever the disk did.
        ensures bears { IfOk result (λ reader. BindsAll (last_of reader)) }
        ensures binds { IfOk result (λ reader. BindsRow reader []) }

        ensures refused { IfErr result (λ e. (error : TheError) → e.0 ≡ RowError.Segment error → IsTrue (D.Disk.is_clean e.1) → IsRefused error (D.Disk.seen device)) }
        ensures fault { IfErr result (λ e. (fault : TheFault) → e.0 ≡ RowError.Fault fault → IsTrue (D.Disk.is_clean e.1)
            → (head : Head) (contents : List (List ℕ)) → Stands head contents (D.Disk.seen device) → TellsFirst fault number settings.now head) }

        // Nothing is written.
        ensures same { IfOk result (λ reader. (D.Disk.seen (device_of (last_of reader)) ≡ D.Disk.seen device)
            × ((file : List ℕ) → D.Disk.may_leave (device_of (last_of reader)) file → D.Disk.may_leave device file)) }
        ensures same_err { IfErr result (λ e. (D.Disk.seen e.1 ≡ D.Disk.seen device)
            × ((file : List ℕ) → D.Disk.may_leave e.1 file → D.Disk.may_leave device file)) }
    {
        let last = match Segment::open(alloc, device) {
            Ok(last) => last,
            Err((error, device)) => return Err((RowError::Segment(error), device)),
        };
        match check_first(&last, number, settings) {
            Ok(()) => Ok(RowReader { last }),
            Err(fault) => Err((RowError::Fault(fault), last.close())),
        }
    }

    /// Reads the next file of the folder, and gives the one before back. Error: the segment's, or what of its head differs;
    /// the row is as it was.
    pub fn go_on(&mut self, alloc: Global, device: D) -> Result<D, (RowError, D)>
        requires { IsTrue (D.Disk.is_usable device) }
        ensures ok { IfOk result (λ full. IsTrue (D.Disk.is_clean (device_of (last_of self.new))) → (head : Head) (others : List (List ℕ)) → Stands head others (D.Disk.seen device)
            → (settings : List ℕ) (older : List Filed) (contents : List (List ℕ)) → HasRead D.Disk.seen self.old settings older contents
            → (head_of (last_of self.new) ≡ head) × HasRead D.Disk.seen self.new settings (older ++ filed (last_of self.old) contents ∷ []) others) }
        ensures knows { IfOk result (λ full. IsTrue (D.Disk.is_clean (device_of (last_of self.new))) → (head : Head) (others : List (List ℕ)) → Stands head others (D.Disk.seen device)
            → (head_of (last_of self.new) ≡ head) × Knows D.Disk.seen (last_of self.new) others) }
        ensures next { IfOk result (λ full. (contents : List (List ℕ)) → IsBehind (head_of (last_of self.old)) contents (end_of (last_of self.old))
            → IsNext (filed (last_of self.old) contents) (head_of (last_of self.new))) }
        ensures full { IfOk result (λ full. full ≡ device_of (last_of self.old)) }
        ensures fits { IfOk result (λ full. IsHead (head_of (last_of self.new))) }

        ensures begun { IfOk result (λ full. IsTrue (D.Disk.is_clean (device_of (last_of self.new))) → IsUnbegun (D.Disk.seen device) → ⊥) }

        // What was read bears its digests, whatever the disks did.
        ensures bears { IfOk result (λ full. BindsAll (last_of self.new)) }
        ensures binds { IfOk result (λ full. (older : List Filed) (bound : BindsRow self.old older)
            → BindsRow self.new (older ++ filed (last_of self.old) bound.contents ∷ [])) }

        ensures err { OnErr result (self.new ≡ self.old) }
        ensures refused { IfErr result (λ e. (error : TheError) → e.0 ≡ RowError.Segment error → IsTrue (D.Disk.is_clean e.1) → IsRefused error (D.Disk.seen device)) }
        ensures fault { IfErr result (λ e. (fault : TheFault) → e.0 ≡ RowError.Fault fault → IsTrue (D.Disk.is_clean e.1)
            → (head : Head) (contents : List (List ℕ)) → Stands head contents (D.Disk.seen device)
            → Tells fault (head_of (last_of self.old)) (end_of (last_of self.old)).chain head) }

        // Nothing is written.
        ensures same { IfOk result (λ full. (D.Disk.seen (device_of (last_of self.new)) ≡ D.Disk.seen device)
            × ((file : List ℕ) → D.Disk.may_leave (device_of (last_of self.new)) file → D.Disk.may_leave device file)) }
        ensures same_err { IfErr result (λ e. (D.Disk.seen e.1 ≡ D.Disk.seen device)
            × ((file : List ℕ) → D.Disk.may_leave e.1 file → D.Disk.may_leave device file)) }
    {
        let next = match Segment::open(alloc, device) {
            Ok(next) => next,
            Err((error, device)) => return Err((RowError::Segment(error), device)),
        };
        match self.last.check_next(&next) {
            Ok(()) => {
                let full = mem::replace(&mut self.last, next);
                Ok(full.close())
            }
            Err(fault) => Err((RowError::Fault(fault), next.close())),
        }
    }

    /// The place of the last segment's first content.
    pub fn first_place(&self) -> Place
        ensures { BindsAll (last_of self.now) → IsBehind (head_of (last_of self.now)) [] result }
    {
        self.last.first_place()
    }

    /// Reads the content of the last segment at a place, and says where the next one is; `None` behind the last.
    pub fn read(
        &mut self,
        place: Place,
        content: &mut Vec<u8>,
    ) -> Result<Option<Place>, SegmentError>
        ensures bears { IfOk result (λ next. Gives (end_of (last_of self.old)) place content.new.items next) }
        ensures found { IfOk result (λ next. IsTrue (D.Disk.is_clean (device_of (last_of self.new))) → (front back : List (List ℕ))
            → Knows D.Disk.seen (last_of self.old) (front ++ back) → IsBehind (head_of (last_of self.old)) front place
            → Reads (head_of (last_of self.old)) front back content.new.items next) }
        ensures same { StaysRead D.Disk.seen D.Disk.may_leave D.Disk.is_clean self.old self.new }
    {
        self.last.read(place, content)
    }

    /// Gives the last segment, to be appended to: what a crash may have left behind its last block is cut off. It may crash
    /// too. Error: EndsWithin, or the segment's.
    pub fn finish(self) -> Result<Segment<D>, (RowError, D)>
        ensures ok { IfOk result (λ segment. IsTrue (D.Disk.is_clean (device_of segment)) → (settings : List ℕ) (older : List Filed) (contents : List (List ℕ)) → HasRead D.Disk.seen self settings older contents
            → HasAll D.Disk.seen D.Disk.may_leave segment contents) }
        ensures head { IfOk result (λ segment. (head_of segment ≡ head_of (last_of self)) × (end_of segment ≡ end_of (last_of self))) }

        // A file that ends within a block is refused, and left as it is.
        ensures whole { IfOk result (λ segment. IsTrue (D.Disk.is_clean (device_of segment)) → EndsWithin D.Disk.seen (last_of self) → ⊥) }
        ensures ends_within { IfErr result (λ e. e.0 ≡ RowError.EndsWithin → (D.Disk.seen e.1 ≡ D.Disk.seen (device_of (last_of self)))
            × ((file : List ℕ) → D.Disk.may_leave e.1 file → D.Disk.may_leave (device_of (last_of self)) file)
            × (IsTrue (D.Disk.is_clean e.1) → EndsWithin D.Disk.seen (last_of self))) }

        // Where a crash left the file, a crash at any moment of the call leaves it with the same contents.
        ensures any_moment { IfOk result (λ segment. IsTrue (D.Disk.is_clean (device_of segment)) → Only (D.Disk.seen (device_of (last_of self))) (D.Disk.may_leave (device_of (last_of self)))
            → (settings : List ℕ) (older : List Filed) (contents : List (List ℕ)) → HasRead D.Disk.seen self settings older contents → IsLeft (head_of (last_of self)) contents (D.Disk.seen (device_of (last_of self)))
            → (file : List ℕ) → D.Disk.may_leave (device_of segment) file → IsLeft (head_of (last_of self)) contents file) }
        ensures any_moment_err { IfErr result (λ e. IsTrue (D.Disk.is_clean e.1) → Only (D.Disk.seen (device_of (last_of self))) (D.Disk.may_leave (device_of (last_of self)))
            → (settings : List ℕ) (older : List Filed) (contents : List (List ℕ)) → HasRead D.Disk.seen self settings older contents → IsLeft (head_of (last_of self)) contents (D.Disk.seen (device_of (last_of self)))
            → (file : List ℕ) → D.Disk.may_leave e.1 file → IsLeft (head_of (last_of self)) contents file) }
    {
        let Self { last } = self;
        let mut segment = last;
        match segment.ends_within() {
            Ok(false) => {}
            Ok(true) => return Err((RowError::EndsWithin, segment.close())),
            Err(error) => return Err((RowError::Segment(error), segment.close())),
        }
        match segment.settle() {
            Ok(()) => Ok(segment),
            Err(error) => Err((RowError::Segment(error), segment.close())),
        }
    }

    /// Gives the file of the last segment back.
    pub fn close(self) -> D
        ensures { result ≡ device_of (last_of self) }
    {
        let Self { last } = self;
        last.close()
    }
}

/// Compares the head of a row's oldest segment with what it is to have.
fn check_first<D: Disk>(segment: &Segment<D>, number: u64, settings: &[u8]) -> Result<(), RowFault>
    ensures ok { OnOk result (((head_of segment.now).number ≡ number) × ((head_of segment.now).settings ≡ settings.now)) }
    ensures err { IfErr result (λ fault. TellsFirst fault number settings.now (head_of segment.now)) }
{
    if segment.number() != number {
        return Err(RowFault::OtherNumber);
    }
    if segment.settings() != settings {
        return Err(RowFault::OtherSettings);
    }
    Ok(())
}
