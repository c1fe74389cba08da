//! The blocks of a file, read one after the other. Each digest is compared.
ghost use Rattle.std.specs.Prelude.{◌≡◌, ◌≢◌, ◌+◌, ◌<◌, ◌≤◌, ◌^◌, List, ℕ, length, drop, IfOk, IfErr, IfSome, OnOk, IsTrue};
ghost use Rattle.sqlite_disk.specs.Disk.{Holds};
ghost use Rattle.sb_durable.specs.SegmentBlocks.{GoOn};
ghost use Rattle.sb_durable.specs.Segment.{Bears};
ghost use Rattle.sb_durable.specs.SegmentEnds.{Finds, Walked, Ends};

use crate::segment::bytes::opening_of;
use crate::segment::{Place, SegmentError};
use sqlite_disk::{Disk, digest_of};
use std::alloc::Global;

/// A content has no more bytes than this.
const MAX_CONTENT: usize = 1 << 20;

/// The number of bytes of a block before its content.
const OPENING: usize = 13;

/// The end of the blocks of a file that begin at `first`.
pub(crate) fn find_end<D: Disk>(
    alloc: Global,
    disk: &mut D,
    first: Place,
    len: usize,
) -> Result<Place, SegmentError>
    requires usable { IsTrue (D.Disk.is_usable disk.old) }
    requires within { first.at ≤ len }
    requires len { IsTrue (D.Disk.is_clean disk.old) → len ≡ length (D.Disk.seen disk.old) }
    ensures bears { IfOk result (λ end. Walked (IsTrue (D.Disk.is_clean disk.new)) (D.Disk.seen disk.old) first end) }
    ensures found { IfOk result (λ end. IsTrue (D.Disk.is_clean disk.new) → (contents : List (List ℕ))
        → GoOn first.chain contents (drop first.at (D.Disk.seen disk.old)) → Ends first contents end) }
    ensures within { IfOk result (λ end. end.at ≤ len) }
    ensures damaged { IfErr result (λ e. e ≡ SegmentError.Damaged → IsTrue (D.Disk.is_clean disk.new)
        → (contents : List (List ℕ)) → GoOn first.chain contents (drop first.at (D.Disk.seen disk.old)) → ⊥) }
    ensures kind { IfErr result (λ e. (e ≢ SegmentError.NotASegment) × (e ≢ SegmentError.NotBegun) × (e ≢ SegmentError.CutShort)) }
    ensures clean { IsTrue (D.Disk.is_clean disk.new) → IsTrue (D.Disk.is_clean disk.old) }
    ensures seen { D.Disk.seen disk.new ≡ D.Disk.seen disk.old }
    ensures crash { (file : List ℕ) → D.Disk.may_leave disk.new file → D.Disk.may_leave disk.old file }
{
    let mut content = Vec::new(alloc);
    let mut place = first;
    loop {
        match block_at(disk, place, len, &mut content) {
            Ok(Some(next)) => place = next,
            Ok(None) => return Ok(place),
            Err(error) => return Err(error),
        }
    }
}

/// Reads the content of the block that begins at a place, if one does, and says where the next begins.
pub(crate) fn block_at<D: Disk>(
    disk: &mut D,
    place: Place,
    len: usize,
    content: &mut Vec<u8>,
) -> Result<Option<Place>, SegmentError>
    requires usable { IsTrue (D.Disk.is_usable disk.old) }
    requires within { place.at ≤ len }
    requires len { IsTrue (D.Disk.is_clean disk.old) → len ≡ length (D.Disk.seen disk.old) }

    // What is given bears its digest, whatever the disk did.
    ensures bears { IfOk result (λ found. IfSome found (λ next. Bears place content.new.items next)) }
    ensures within { IfOk result (λ found. IfSome found (λ next. next.at ≤ len)) }
    ensures found { IfOk result (λ found. IsTrue (D.Disk.is_clean disk.new) → Finds place.chain (drop place.at (D.Disk.seen disk.old)) content.new.items found) }
    ensures damaged { IfErr result (λ e. e ≡ SegmentError.Damaged → IsTrue (D.Disk.is_clean disk.new)
        → (contents : List (List ℕ)) → GoOn place.chain contents (drop place.at (D.Disk.seen disk.old)) → ⊥) }
    ensures kind { IfErr result (λ e. (e ≢ SegmentError.NotASegment) × (e ≢ SegmentError.NotBegun) × (e ≢ SegmentError.CutShort)) }
    ensures clean { IsTrue (D.Disk.is_clean disk.new) → IsTrue (D.Disk.is_clean disk.old) }
    ensures seen { D.Disk.seen disk.new ≡ D.Disk.seen disk.old }
    ensures usable { IsTrue (D.Disk.is_usable disk.new) }
    ensures crash { (file : List ℕ) → D.Disk.may_leave disk.new file → D.Disk.may_leave disk.old file }
{
    if len - place.at < OPENING {
        return Ok(None);
    }
    let mut opening = [0; OPENING];
    disk.read_at(place.at, &mut opening)?;
    let opening = opening_of(opening);
    let behind = len - place.at - OPENING;
    if opening.gate == 0 {
        if behind > MAX_CONTENT + 1 {
            return Err(SegmentError::Damaged);
        }
        return Ok(None);
    }
    if opening.size > MAX_CONTENT {
        return Err(SegmentError::Damaged);
    }
    if opening.size > behind {
        return Ok(None);
    }
    fill(disk, place.at + OPENING, opening.size, content)?;
    let own = digest_of(place.chain, content);
    if own != opening.chain {
        return Err(SegmentError::Damaged);
    }
    Ok(Some(Place {
        at: place.at + OPENING + opening.size,
        chain: own,
    }))
}

/// Reads so many bytes at a place in the place of those that are there.
pub(crate) fn fill<D: Disk>(
    disk: &mut D,
    at: usize,
    size: usize,
    bytes: &mut Vec<u8>,
) -> Result<(), SegmentError>
    requires usable { IsTrue (D.Disk.is_usable disk.old) }
    ensures size { OnOk result (length bytes.new.items ≡ size) }
    ensures read { OnOk result (IsTrue (D.Disk.is_clean disk.new) → 0 < size → Holds (D.Disk.seen disk.old) at bytes.new.items) }
    ensures kind { IfErr result (λ e. (e ≢ SegmentError.Damaged) × (e ≢ SegmentError.NotASegment) × (e ≢ SegmentError.NotBegun) × (e ≢ SegmentError.CutShort) × (e ≢ SegmentError.Begun)) }
    ensures clean { IsTrue (D.Disk.is_clean disk.new) → IsTrue (D.Disk.is_clean disk.old) }
    ensures seen { D.Disk.seen disk.new ≡ D.Disk.seen disk.old }
    ensures usable { IsTrue (D.Disk.is_usable disk.new) }
    ensures crash { (file : List ℕ) → D.Disk.may_leave disk.new file → D.Disk.may_leave disk.old file }
{
    bytes.clear();
    bytes.resize(size, 0)?;
    disk.read_at(at, bytes)?;
    Ok(())
}
