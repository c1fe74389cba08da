//! The end of a file, where a crash may have left a part of a block: it is cut off.
ghost use Rattle.std.specs.Prelude.{◌≡◌, ◌+◌, ◌-◌, ◌<◌, ◌≢◌, ◌≤◌, List, ℕ, length, slice_index, IfErr, OnOk, IsTrue};
ghost use Rattle.sqlite_disk.specs.Disk.{Follows, Holds, Only, Torn};
ghost use Rattle.sb_durable.specs.Head.{Head, IsLeft, Stands};
ghost use Rattle.sb_durable.specs.Segment.{Extends, IsAtRest, IsNoRoom};
ghost use Rattle.sb_durable.specs.SegmentEnds.{EndsAt};

use crate::segment::SegmentError;
use sqlite_disk::Disk;
use std::io;
use std::io::ErrorKind;

/// Leaves the gate at `end`, shut, and nothing behind it.
pub(crate) fn leave_gate<D: Disk>(disk: &mut D, end: usize, len: usize) -> io::Result<()>
    requires usable { IsTrue (D.Disk.is_usable disk.old) }
    requires within { end ≤ len }
    ensures at_rest { OnOk result (IsTrue (D.Disk.is_clean disk.new) → (head : Head) (contents : List (List ℕ))
        → EndsAt head contents end len (D.Disk.seen disk.old) → IsAtRest head contents (D.Disk.seen disk.new)) }
    ensures any_moment { IsTrue (D.Disk.is_clean disk.new) → Only (D.Disk.seen disk.old) (D.Disk.may_leave disk.old) → (head : Head) (contents : List (List ℕ))
        → EndsAt head contents end len (D.Disk.seen disk.old) → (file : List ℕ) → D.Disk.may_leave disk.new file → Stands head contents file }

    // Where a crash left the file, a shut gate stays behind the last block.
    ensures left { IsTrue (D.Disk.is_clean disk.new) → Only (D.Disk.seen disk.old) (D.Disk.may_leave disk.old) → (head : Head) (contents : List (List ℕ))
        → EndsAt head contents end len (D.Disk.seen disk.old) → IsLeft head contents (D.Disk.seen disk.old) → (file : List ℕ) → D.Disk.may_leave disk.new file → IsLeft head contents file }
    ensures clean { IsTrue (D.Disk.is_clean disk.new) → IsTrue (D.Disk.is_clean disk.old) }
    ensures usable { OnOk result (IsTrue (D.Disk.is_usable disk.new)) }
{
    if len == end {
        return disk.write_at(end, &[0]);
    }
    shut_gate(disk, end)?;
    disk.set_len(end + 1)
}

/// Shuts the gate at `end` if it is open, before what is behind it is cut off. A shut gate is left as it is, since a
/// torn write might open it.
fn shut_gate<D: Disk>(disk: &mut D, end: usize) -> io::Result<()>
    requires { IsTrue (D.Disk.is_usable disk.old) }
    ensures shut { OnOk result (IsTrue (D.Disk.is_clean disk.new) → slice_index (D.Disk.seen disk.new) end ≡ 0) }
    ensures stays { OnOk result (IsTrue (D.Disk.is_clean disk.new) → (head : Head) (contents : List (List ℕ)) (len : ℕ)
        → EndsAt head contents end len (D.Disk.seen disk.old) → EndsAt head contents end len (D.Disk.seen disk.new)) }
    ensures durable { OnOk result (Only (D.Disk.seen disk.old) (D.Disk.may_leave disk.old) → Only (D.Disk.seen disk.new) (D.Disk.may_leave disk.new)) }
    ensures any_moment { IsTrue (D.Disk.is_clean disk.new) → Only (D.Disk.seen disk.old) (D.Disk.may_leave disk.old) → (head : Head) (contents : List (List ℕ)) (len : ℕ)
        → EndsAt head contents end len (D.Disk.seen disk.old) → (file : List ℕ) → D.Disk.may_leave disk.new file → Stands head contents file }
    ensures left { IsTrue (D.Disk.is_clean disk.new) → slice_index (D.Disk.seen disk.old) end ≡ 0 → (file : List ℕ) → D.Disk.may_leave disk.new file → D.Disk.may_leave disk.old file }
    ensures clean { IsTrue (D.Disk.is_clean disk.new) → IsTrue (D.Disk.is_clean disk.old) }
    ensures usable { OnOk result (IsTrue (D.Disk.is_usable disk.new)) }
{
    let mut gate = [0];
    disk.read_at(end, &mut gate)?;
    if gate[0] == 0 {
        return Ok(());
    }
    disk.write_at(end, &[0])?;
    disk.sync()
}

/// Writes bytes at the end of a file. Error: NoRoom, if the disk has no room for them and nothing of them is left; the
/// device's.
pub(crate) fn write_end<D: Disk>(disk: &mut D, end: usize, bytes: &[u8]) -> Result<(), SegmentError>
    requires { IsTrue (D.Disk.is_usable disk.old) }
    ensures others { OnOk result (Torn end (length bytes.now) (D.Disk.seen disk.old) (D.Disk.seen disk.new)) }
    ensures written { OnOk result (0 < length bytes.now → Holds (D.Disk.seen disk.new) end bytes.now) }
    ensures crash { OnOk result (Follows (Torn end (length bytes.now)) (D.Disk.may_leave disk.old) (D.Disk.may_leave disk.new)) }
    ensures usable { OnOk result (IsTrue (D.Disk.is_usable disk.new)) }

    // A crash at any moment leaves some bytes behind the end.
    ensures any_moment { end ≡ length (D.Disk.seen disk.old) → Only (D.Disk.seen disk.old) (D.Disk.may_leave disk.old)
        → (file : List ℕ) → D.Disk.may_leave disk.new file → Extends (length bytes.now) (D.Disk.seen disk.old) file }
    ensures same { IfErr result (λ e. IsNoRoom e → end ≡ length (D.Disk.seen disk.old) → Only (D.Disk.seen disk.old) (D.Disk.may_leave disk.old)
        → (D.Disk.seen disk.new ≡ D.Disk.seen disk.old) × Only (D.Disk.seen disk.old) (D.Disk.may_leave disk.new)) }
    ensures kind { IfErr result (λ e. (e ≢ SegmentError.Unsettled) × (e ≢ SegmentError.Full)) }
    ensures clean { IsTrue (D.Disk.is_clean disk.new) → IsTrue (D.Disk.is_clean disk.old) }
{
    let error = match disk.write_at(end, bytes) {
        Ok(()) => return Ok(()),
        Err(error) => error,
    };
    if !lacks_room(&error) {
        return Err(SegmentError::Device(error));
    }
    disk.set_len(end)?;
    disk.sync()?;
    Err(SegmentError::NoRoom(error))
}

/// True if a disk or a user has no more room.
fn lacks_room(error: &io::Error) -> bool {
    matches!(
        error.kind(),
        ErrorKind::StorageFull | ErrorKind::QuotaExceeded | ErrorKind::FileTooLarge
    )
}
