//! Segments in a row: each goes on where the one before it ends.
ghost use Rattle.std.specs.Prelude.{◌≡◌, ◌⊎◌, ◌+◌, ◌≤◌, [], List, ℕ, length, IfOk, IfErr, OnOk, IsTrue};
ghost use Rattle.sqlite_disk.specs.Disk.{Only};
ghost use Rattle.sb_durable.specs.Head.{IsUnbegun, IsLeft};
ghost use Rattle.sb_durable.specs.Row.{IsNext, next_head};
ghost use Rattle.sb_durable.specs.RowFaults.{Tells};
ghost use Rattle.sb_durable.specs.Segment.{HasAll, IsBehind, device_of, head_of, end_of};

use crate::segment::{Segment, SegmentError};
use sqlite_disk::Disk;
use std::alloc::Global;
use thiserror::Error;

/// Why a segment isn't the next one of a row.
#[derive(Clone, Copy, Debug, Error)]
pub enum RowFault {
    #[error("it hasn't the next number")]
    OtherNumber,
    /// It was begun behind other contents than the segment before has.
    #[error("it goes on behind another end")]
    OtherEnd,
    #[error("it has other settings")]
    OtherSettings,
}

impl<D: Disk> Segment<D> {
    /// Compares the head of the next segment with the end of this one. Error: the first field in which it differs.
    pub fn check_next(&self, next: &Segment<D>) -> Result<(), RowFault>
        ensures ok { OnOk result ((contents : List (List ℕ)) → IsBehind (head_of self.now) contents (end_of self.now)
            → IsNext (record { head = head_of self.now; contents = contents }) (head_of next.now)) }
        ensures err { IfErr result (λ fault. Tells fault (head_of self.now) (end_of self.now).chain (head_of next.now)) }
    {
        let found = next.number();
        let Some(number) = self.number().checked_add(1) else {
            return Err(RowFault::OtherNumber);
        };
        if found != number {
            return Err(RowFault::OtherNumber);
        }
        if next.beginning.before != self.end.chain {
            return Err(RowFault::OtherEnd);
        }
        if next.beginning.settings.as_slice() != self.beginning.settings.as_slice() {
            return Err(RowFault::OtherSettings);
        }
        Ok(())
    }

    /// Begins the next segment in a file that hasn't begun. It may crash too. Error: as of `begin`; Full where this one
    /// has the last number.
    pub fn begin_next(&self, alloc: Global, device: D) -> Result<Segment<D>, (SegmentError, D)>
        requires usable { IsTrue (D.Disk.is_usable device) }
        requires settings { length (head_of self.now).settings ≤ 4096 }
        ensures ok { IfOk result (λ segment. IsTrue (D.Disk.is_clean (device_of segment)) → HasAll D.Disk.seen D.Disk.may_leave segment []) }
        ensures head { IfOk result (λ segment. head_of segment ≡ next_head (head_of self.now) (end_of self.now).chain) }

        // A crash at any moment of the call leaves a file that hasn't begun, or the whole head.
        ensures any_moment { IfOk result (λ segment. IsTrue (D.Disk.is_clean (device_of segment)) → Only (D.Disk.seen device) (D.Disk.may_leave device) → IsUnbegun (D.Disk.seen device)
            → (file : List ℕ) → D.Disk.may_leave (device_of segment) file → IsUnbegun file ⊎ IsLeft (next_head (head_of self.now) (end_of self.now).chain) [] file) }
        ensures any_moment_err { IfErr result (λ e. IsTrue (D.Disk.is_clean e.1) → Only (D.Disk.seen device) (D.Disk.may_leave device) → IsUnbegun (D.Disk.seen device)
            → (file : List ℕ) → D.Disk.may_leave e.1 file → IsUnbegun file ⊎ IsLeft (next_head (head_of self.now) (end_of self.now).chain) [] file) }

        // A file that has begun, or that is of another program, is left as it is.
        ensures kept { IfErr result (λ e. IsTrue (D.Disk.is_clean e.1) → (IsUnbegun (D.Disk.seen device) → ⊥)
            → (D.Disk.seen e.1 ≡ D.Disk.seen device) × ((file : List ℕ) → D.Disk.may_leave e.1 file → D.Disk.may_leave device file)) }
    {
        let Some(number) = self.beginning.number.checked_add(1) else {
            return Err((SegmentError::Full, device));
        };
        Segment::begin(
            alloc,
            device,
            number,
            self.end.chain,
            self.beginning.settings.as_slice(),
        )
    }
}
