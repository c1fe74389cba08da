//! A segment that is read.
ghost use Rattle.std.specs.Prelude.{◌≡◌, ◌≢◌, ◌++◌, ◌↔◌, [], List, ℕ, take, IfOk, IfErr, IsErr, IsTrue};
ghost use Rattle.sb_durable.specs.Head.{Head, Stands, IsCutHead, IsForeign, IsUnbegun};
ghost use Rattle.sb_durable.specs.Segment.{Knows, HasAll, IsSpent, EndsWithin, IsBehind, IsBound, BindsAll, Reads, Gives, Refuses, device_of, head_of, head_in, end_of};

use crate::segment::beginning::{Beginning, read_beginning};
use crate::segment::walk::{block_at, find_end};
use crate::segment::{Place, Segment, SegmentError};
use sqlite_disk::Disk;
use std::alloc::Global;

/// The number of bytes of a head that aren't settings.
pub(crate) const HEAD: usize = 36;

impl<D: Disk> Segment<D> {
    /// Reads a file that a crash may have left: its head and all its blocks. Each digest is compared. Nothing is written.
    pub fn open(alloc: Global, device: D) -> Result<Segment<D>, (SegmentError, D)>
        requires { IsTrue (D.Disk.is_usable device) }
        ensures ok { IfOk result (λ segment. IsTrue (D.Disk.is_clean (device_of segment)) → (head : Head) (contents : List (List ℕ)) → Stands head contents (D.Disk.seen device)
            → (head_of segment ≡ head) × Knows D.Disk.seen segment contents) }

        // What was read bears its digests, whatever the disk did.
        ensures bears { IfOk result (λ segment. BindsAll segment) }

        // Nothing is written.
        ensures same { IfOk result (λ segment. (D.Disk.seen (device_of segment) ≡ D.Disk.seen device)
            × ((file : List ℕ) → D.Disk.may_leave (device_of segment) file → D.Disk.may_leave device file)) }
        ensures same_err { IfErr result (λ e. (D.Disk.seen e.1 ≡ D.Disk.seen device)
            × ((file : List ℕ) → D.Disk.may_leave e.1 file → D.Disk.may_leave device file)) }

        // A file that stands for a list isn't called damaged, cut at any byte or whole.
        ensures damaged { IfErr result (λ e. e.0 ≡ SegmentError.Damaged → IsTrue (D.Disk.is_clean e.1)
            → (head : Head) (contents : List (List ℕ)) → Stands head contents (D.Disk.seen device) → ⊥) }
        ensures cut { IfErr result (λ e. e.0 ≡ SegmentError.Damaged → IsTrue (D.Disk.is_clean e.1)
            → (head : Head) (contents : List (List ℕ)) (file : List ℕ) (n : ℕ) → Stands head contents file → D.Disk.seen device ≡ take n file → ⊥) }
        ensures not_begun { IfErr result (λ e. e.0 ≡ SegmentError.NotBegun → IsTrue (D.Disk.is_clean e.1)
            → (head : Head) (contents : List (List ℕ)) → Stands head contents (D.Disk.seen device) → ⊥) }
        ensures begun { IfOk result (λ segment. IsTrue (D.Disk.is_clean (device_of segment)) → IsUnbegun (D.Disk.seen device) → ⊥) }
        ensures unbegun { IfErr result (λ e. e.0 ≡ SegmentError.NotBegun → IsTrue (D.Disk.is_clean e.1) → IsUnbegun (D.Disk.seen device)) }
        ensures cut_short { IfErr result (λ e. e.0 ≡ SegmentError.CutShort → IsTrue (D.Disk.is_clean e.1) → IsCutHead (D.Disk.seen device)) }
        ensures not_cut { IfErr result (λ e. e.0 ≡ SegmentError.CutShort → IsTrue (D.Disk.is_clean e.1)
            → (head : Head) (contents : List (List ℕ)) → Stands head contents (D.Disk.seen device) → ⊥) }

        // A file of another program is refused as such, and no other is.
        ensures foreign { IfErr result (λ e. e.0 ≡ SegmentError.NotASegment → IsTrue (D.Disk.is_clean e.1) → IsForeign (D.Disk.seen device)) }
        ensures refused { IfOk result (λ segment. IsTrue (D.Disk.is_clean (device_of segment)) → IsForeign (D.Disk.seen device) → ⊥) }
        ensures refused_err { IfErr result (λ e. IsTrue (D.Disk.is_clean e.1) → IsForeign (D.Disk.seen device) → (e.0 ≢ SegmentError.Damaged) × (e.0 ≢ SegmentError.NotBegun) × (e.0 ≢ SegmentError.CutShort)) }
    {
        let mut device = device;
        match survey(alloc, &mut device) {
            Ok((beginning, end)) => Ok(Segment {
                device,
                beginning,
                end,
                is_settled: false,
                is_spent: false,
            }),
            Err(error) => Err((error, device)),
        }
    }

    /// Reads the content whose block begins at a place, and says where the next begins. Behind the last it says that
    /// there is none.
    pub fn read(
        &mut self,
        place: Place,
        content: &mut Vec<u8>,
    ) -> Result<Option<Place>, SegmentError>
        // What is given bears its digest, whatever the disk did.
        ensures bears { IfOk result (λ next. Gives (end_of self.old) place content.new.items next) }

        ensures found { IfOk result (λ next. IsTrue (D.Disk.is_clean (device_of self.new)) → (front back : List (List ℕ))
            → Knows D.Disk.seen self.old (front ++ back) → IsBehind (head_of self.old) front place → Reads (head_of self.old) front back content.new.items next) }
        ensures damaged { IfErr result (λ e. e ≡ SegmentError.Damaged → IsTrue (D.Disk.is_clean (device_of self.new)) → (front back : List (List ℕ))
            → Knows D.Disk.seen self.old (front ++ back) → IsBehind (head_of self.old) front place → ⊥) }

        ensures clean { IsTrue (D.Disk.is_clean (device_of self.new)) → IsTrue (D.Disk.is_clean (device_of self.old)) }

        // Reading changes nothing.
        ensures same { (head_of self.new ≡ head_of self.old) × (end_of self.new ≡ end_of self.old) }
        ensures knows { (contents : List (List ℕ)) → Knows D.Disk.seen self.old contents → Knows D.Disk.seen self.new contents }
        ensures has { (contents : List (List ℕ)) → HasAll D.Disk.seen D.Disk.may_leave self.old contents → HasAll D.Disk.seen D.Disk.may_leave self.new contents }
        ensures seen { (D.Disk.seen (device_of self.new) ≡ D.Disk.seen (device_of self.old))
            × ((file : List ℕ) → D.Disk.may_leave (device_of self.new) file → D.Disk.may_leave (device_of self.old) file) }
        ensures spent { IsSpent self.old → IsErr result }
    {
        if self.is_spent || !self.device.may_be_used() {
            return Err(SegmentError::Spent);
        }
        if place.at == self.end.at {
            if place.chain != self.end.chain {
                return Err(SegmentError::Damaged);
            }
            return Ok(None);
        }
        let len = self.device.len()?;
        if place.at > len {
            return Err(SegmentError::Damaged);
        }
        match block_at(&mut self.device, place, len, content) {
            Ok(Some(next)) => {
                if next.at > self.end.at {
                    return Err(SegmentError::Damaged);
                }
                Ok(Some(next))
            }
            Ok(None) => Err(SegmentError::Damaged),
            Err(error) => Err(error),
        }
    }

    /// True if the file ends within a block whose gate is open, as part of a copy does. No crash leaves that, and a length
    /// that has changed may. Then the contents may be a first part of what was there.
    pub fn ends_within(&mut self) -> Result<bool, SegmentError>
        ensures told { IfOk result (λ is. IsTrue (D.Disk.is_clean (device_of self.new)) → IsTrue is ↔ EndsWithin D.Disk.seen self.old) }
        ensures clean { IsTrue (D.Disk.is_clean (device_of self.new)) → IsTrue (D.Disk.is_clean (device_of self.old)) }

        // Nothing is written.
        ensures same { (head_of self.new ≡ head_of self.old) × (end_of self.new ≡ end_of self.old) }
        ensures knows { (contents : List (List ℕ)) → Knows D.Disk.seen self.old contents → Knows D.Disk.seen self.new contents }
        ensures has { (contents : List (List ℕ)) → HasAll D.Disk.seen D.Disk.may_leave self.old contents → HasAll D.Disk.seen D.Disk.may_leave self.new contents }
        ensures seen { (D.Disk.seen (device_of self.new) ≡ D.Disk.seen (device_of self.old))
            × ((file : List ℕ) → D.Disk.may_leave (device_of self.new) file → D.Disk.may_leave (device_of self.old) file) }
        ensures spent { IsSpent self.old → IsErr result }
    {
        if self.is_spent || !self.device.may_be_used() {
            return Err(SegmentError::Spent);
        }
        let len = self.device.len()?;
        if self.end.at >= len {
            return Ok(false);
        }
        let mut gate = [0];
        self.device.read_at(self.end.at, &mut gate)?;
        Ok(gate[0] != 0)
    }

    /// The place of the first block.
    pub fn first_place(&self) -> Place
        ensures { BindsAll self.now → IsBehind (head_of self.now) [] result }
    {
        Place {
            at: HEAD + self.beginning.settings.len(),
            chain: self.beginning.own,
        }
    }
}

/// Reads the head and all blocks of a file, and says where they end.
fn survey<D: Disk>(alloc: Global, disk: &mut D) -> Result<(Beginning, Place), SegmentError>
    requires { IsTrue (D.Disk.is_usable disk.old) }
    ensures found { IfOk result (λ found. IsTrue (D.Disk.is_clean disk.new) → (head : Head) (contents : List (List ℕ)) → Stands head contents (D.Disk.seen disk.old)
        → (head_in found.0 ≡ head) × IsBehind head contents found.1) }
    ensures bears { IfOk result (λ found. IsBound found.0 found.1) }
    ensures cut { IfErr result (λ e. e ≡ SegmentError.Damaged → IsTrue (D.Disk.is_clean disk.new)
        → (head : Head) (contents : List (List ℕ)) (tail : List ℕ) → Stands head contents (D.Disk.seen disk.old ++ tail) → ⊥) }
    ensures not_begun { IfErr result (λ e. e ≡ SegmentError.NotBegun → IsTrue (D.Disk.is_clean disk.new)
        → (head : Head) (contents : List (List ℕ)) → Stands head contents (D.Disk.seen disk.old) → ⊥) }
    ensures begun { IfOk result (λ found. IsTrue (D.Disk.is_clean disk.new) → IsUnbegun (D.Disk.seen disk.old) → ⊥) }
    ensures unbegun { IfErr result (λ e. e ≡ SegmentError.NotBegun → IsTrue (D.Disk.is_clean disk.new) → IsUnbegun (D.Disk.seen disk.old)) }
    ensures cut_short { IfErr result (λ e. e ≡ SegmentError.CutShort → IsTrue (D.Disk.is_clean disk.new) → IsCutHead (D.Disk.seen disk.old)) }
    ensures foreign { IfErr result (λ e. e ≡ SegmentError.NotASegment → IsTrue (D.Disk.is_clean disk.new) → IsForeign (D.Disk.seen disk.old)) }
    ensures refused { IsTrue (D.Disk.is_clean disk.new) → IsForeign (D.Disk.seen disk.old) → Refuses result }
    ensures seen { D.Disk.seen disk.new ≡ D.Disk.seen disk.old }
    ensures crash { (file : List ℕ) → D.Disk.may_leave disk.new file → D.Disk.may_leave disk.old file }
{
    let len = disk.len()?;
    let beginning = match read_beginning(alloc, disk, len) {
        Ok(beginning) => beginning,
        Err(error) => return Err(error),
    };
    let first = Place {
        at: HEAD + beginning.settings.len(),
        chain: beginning.own,
    };
    match find_end(alloc, disk, first, len) {
        Ok(end) => Ok((beginning, end)),
        Err(error) => Err(error),
    }
}
