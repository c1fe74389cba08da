//! A segment begins with a head.
ghost use Rattle.std.specs.Prelude.{◌≡◌, ◌≢◌, ◌+◌, ◌<◌, ◌≤◌, ◌^◌, ◌↔◌, ◌++◌, ◌∷◌, List, ℕ, length, drop, IfOk, IfErr, OnOk, IsTrue, vec_len};
ghost use Rattle.std.specs.Int.{w32, w64, to_be_bytes};
ghost use Rattle.sb_durable.specs.Head.{Head, IsHead, IsCutHead, IsForeign, IsUnbegun, IsOpened, mark, head_bytes, head_digest};
ghost use Rattle.sb_durable.specs.Segment.{head_in, Refuses};

use crate::segment::SegmentError;
use crate::segment::bytes::{number_of, text_of_head, word_of};
use crate::segment::walk::fill;
use sqlite_disk::{Disk, digest_of};
use std::alloc::Global;
use std::io;

/// Settings have no more bytes than this.
pub(crate) const MAX_SETTINGS: usize = 4096;

/// The number of bytes of a head before its settings.
const FIELDS: usize = 28;

#[derive(Drop, Debug)]
pub(crate) struct Beginning {
    pub number: u64,
    /// The digest at the end of the segment before.
    pub before: u64,
    pub settings: Vec<u8>,
    /// The digest of all that.
    pub own: u64,
}

/// Reads the head of a file of this length, if it has the mark, and compares its digest.
pub(crate) fn read_beginning<D: Disk>(
    alloc: Global,
    disk: &mut D,
    len: usize,
) -> Result<Beginning, SegmentError>
    requires usable { IsTrue (D.Disk.is_usable disk.old) }
    requires len { IsTrue (D.Disk.is_clean disk.old) → len ≡ length (D.Disk.seen disk.old) }

    // What is given bears its digest, whatever the disk did.
    ensures bears { IfOk result (λ beginning. (beginning.own ≡ head_digest (head_in beginning)) × IsHead (head_in beginning)) }
    ensures within { IfOk result (λ beginning. 36 + vec_len beginning.settings ≤ len) }
    ensures found { IfOk result (λ beginning. IsTrue (D.Disk.is_clean disk.new) → (rest : List ℕ) × IsOpened (head_bytes (head_in beginning) ++ rest) (D.Disk.seen disk.old)) }

    // No file that is part of one with a head is called damaged, and none that has a whole head is taken for one that has none.
    ensures damaged { IfErr result (λ e. e ≡ SegmentError.Damaged → IsTrue (D.Disk.is_clean disk.new)
        → (head : Head) (rest tail : List ℕ) → IsHead head → IsOpened (head_bytes head ++ rest) (D.Disk.seen disk.old ++ tail) → ⊥) }
    ensures not_begun { IfErr result (λ e. e ≡ SegmentError.NotBegun → IsTrue (D.Disk.is_clean disk.new)
        → (head : Head) (rest : List ℕ) → IsHead head → IsOpened (head_bytes head ++ rest) (D.Disk.seen disk.old) → ⊥) }
    ensures unbegun { IfErr result (λ e. e ≡ SegmentError.NotBegun → IsTrue (D.Disk.is_clean disk.new) → IsUnbegun (D.Disk.seen disk.old)) }
    ensures cut_short { IfErr result (λ e. e ≡ SegmentError.CutShort → IsTrue (D.Disk.is_clean disk.new) → IsCutHead (D.Disk.seen disk.old)) }

    // A file of another program is refused as such, and no other is.
    ensures foreign { IfErr result (λ e. e ≡ SegmentError.NotASegment → IsTrue (D.Disk.is_clean disk.new) → IsForeign (D.Disk.seen disk.old)) }
    ensures refused { IsTrue (D.Disk.is_clean disk.new) → IsForeign (D.Disk.seen disk.old) → Refuses result }
    ensures kind { IfErr result (λ e. e ≢ SegmentError.Begun) }
    ensures clean { IsTrue (D.Disk.is_clean disk.new) → IsTrue (D.Disk.is_clean disk.old) }
    ensures seen { D.Disk.seen disk.new ≡ D.Disk.seen disk.old }
    ensures usable { IsTrue (D.Disk.is_usable disk.new) }
    ensures crash { (file : List ℕ) → D.Disk.may_leave disk.new file → D.Disk.may_leave disk.old file }
{
    check_mark(disk, len)?;
    read_head(alloc, disk, len)
}

/// Reads the head of a file of this length that has the mark, and compares its digest.
fn read_head<D: Disk>(alloc: Global, disk: &mut D, len: usize) -> Result<Beginning, SegmentError>
    requires usable { IsTrue (D.Disk.is_usable disk.old) }
    requires len { IsTrue (D.Disk.is_clean disk.old) → len ≡ length (D.Disk.seen disk.old) }
    requires marked { IsTrue (D.Disk.is_clean disk.old) → IsOpened (mark ++ drop 8 (D.Disk.seen disk.old)) (D.Disk.seen disk.old) }
    ensures bears { IfOk result (λ beginning. (beginning.own ≡ head_digest (head_in beginning)) × IsHead (head_in beginning)) }
    ensures within { IfOk result (λ beginning. 36 + vec_len beginning.settings ≤ len) }
    ensures found { IfOk result (λ beginning. IsTrue (D.Disk.is_clean disk.new) → (rest : List ℕ) × IsOpened (head_bytes (head_in beginning) ++ rest) (D.Disk.seen disk.old)) }
    ensures damaged { IfErr result (λ e. e ≡ SegmentError.Damaged → IsTrue (D.Disk.is_clean disk.new)
        → (head : Head) (rest tail : List ℕ) → IsHead head → IsOpened (head_bytes head ++ rest) (D.Disk.seen disk.old ++ tail) → ⊥) }
    ensures cut_short { IfErr result (λ e. e ≡ SegmentError.CutShort → IsTrue (D.Disk.is_clean disk.new) → IsCutHead (D.Disk.seen disk.old)) }
    ensures kind { IfErr result (λ e. (e ≢ SegmentError.NotASegment) × (e ≢ SegmentError.NotBegun) × (e ≢ SegmentError.Begun)) }
    ensures clean { IsTrue (D.Disk.is_clean disk.new) → IsTrue (D.Disk.is_clean disk.old) }
    ensures seen { D.Disk.seen disk.new ≡ D.Disk.seen disk.old }
    ensures usable { IsTrue (D.Disk.is_usable disk.new) }
    ensures crash { (file : List ℕ) → D.Disk.may_leave disk.new file → D.Disk.may_leave disk.old file }
{
    if len < FIELDS {
        return Err(SegmentError::CutShort);
    }
    let number = number_at(disk, 8)?;
    let before = number_at(disk, 16)?;
    let size = word_at(disk, 24)? as usize;
    if size > MAX_SETTINGS {
        return Err(SegmentError::Damaged);
    }
    if len - FIELDS < size + 8 {
        return Err(SegmentError::CutShort);
    }
    let mut settings = Vec::new(alloc);
    fill(disk, FIELDS, size, &mut settings)?;
    let own = number_at(disk, FIELDS + size)?;
    let text = text_of_head(alloc, number, before, &settings)?;
    if digest_of(0, &text) != own {
        return Err(SegmentError::Damaged);
    }
    Ok(Beginning {
        number,
        before,
        settings,
        own,
    })
}

/// True if a file of this length has the mark behind an open gate.
pub(crate) fn check_mark<D: Disk>(disk: &mut D, len: usize) -> Result<(), SegmentError>
    requires usable { IsTrue (D.Disk.is_usable disk.old) }
    requires len { IsTrue (D.Disk.is_clean disk.old) → len ≡ length (D.Disk.seen disk.old) }
    ensures begun { OnOk result (IsTrue (D.Disk.is_clean disk.new) → (8 < length (D.Disk.seen disk.old)) × IsOpened (mark ++ drop 8 (D.Disk.seen disk.old)) (D.Disk.seen disk.old)) }
    ensures foreign { IfErr result (λ e. e ≡ SegmentError.NotASegment → IsTrue (D.Disk.is_clean disk.new) → IsForeign (D.Disk.seen disk.old)) }
    ensures not_begun { IfErr result (λ e. e ≡ SegmentError.NotBegun → IsTrue (D.Disk.is_clean disk.new) → IsUnbegun (D.Disk.seen disk.old)) }
    ensures kind { IfErr result (λ e. (e ≢ SegmentError.Damaged) × (e ≢ SegmentError.Begun) × (e ≢ SegmentError.CutShort)) }
    ensures clean { IsTrue (D.Disk.is_clean disk.new) → IsTrue (D.Disk.is_clean disk.old) }
    ensures seen { D.Disk.seen disk.new ≡ D.Disk.seen disk.old }
    ensures usable { IsTrue (D.Disk.is_usable disk.new) }
    ensures crash { (file : List ℕ) → D.Disk.may_leave disk.new file → D.Disk.may_leave disk.old file }
{
    if len <= 8 {
        return Err(SegmentError::NotBegun);
    }
    let mut gate = [0];
    disk.read_at(0, &mut gate)?;
    let mut found = [0; 7];
    disk.read_at(1, &mut found)?;
    if !is_mark(&found) {
        return Err(SegmentError::NotASegment);
    }
    if gate[0] == 0 {
        return Err(SegmentError::NotBegun);
    }
    Ok(())
}

fn is_mark(bytes: &[u8]) -> bool
    ensures { IsTrue result ↔ (bytes.now ≡ mark) }
{
    bytes == b"ILGJRN2".as_slice()
}

/// Reads eight bytes as a number, the first of them the highest.
fn number_at<D: Disk>(disk: &mut D, at: usize) -> io::Result<u64>
    requires { IsTrue (D.Disk.is_usable disk.old) }
    ensures read { IfOk result (λ n. IsTrue (D.Disk.is_clean disk.new) → drop at (D.Disk.seen disk.old) ≡ to_be_bytes w64 n ++ drop (at + 8) (D.Disk.seen disk.old)) }
    ensures fits { IfOk result (λ n. n < 2 ^ 64) }
    ensures clean { IsTrue (D.Disk.is_clean disk.new) → IsTrue (D.Disk.is_clean disk.old) }
    ensures seen { D.Disk.seen disk.new ≡ D.Disk.seen disk.old }
    ensures usable { IsTrue (D.Disk.is_usable disk.new) }
    ensures crash { (file : List ℕ) → D.Disk.may_leave disk.new file → D.Disk.may_leave disk.old file }
{
    let mut bytes = [0; 8];
    disk.read_at(at, &mut bytes)?;
    Ok(number_of(bytes))
}

/// Reads four bytes as a number, the first of them the highest.
fn word_at<D: Disk>(disk: &mut D, at: usize) -> io::Result<u32>
    requires { IsTrue (D.Disk.is_usable disk.old) }
    ensures read { IfOk result (λ n. IsTrue (D.Disk.is_clean disk.new) → drop at (D.Disk.seen disk.old) ≡ to_be_bytes w32 n ++ drop (at + 4) (D.Disk.seen disk.old)) }
    ensures fits { IfOk result (λ n. n < 2 ^ 32) }
    ensures clean { IsTrue (D.Disk.is_clean disk.new) → IsTrue (D.Disk.is_clean disk.old) }
    ensures seen { D.Disk.seen disk.new ≡ D.Disk.seen disk.old }
    ensures usable { IsTrue (D.Disk.is_usable disk.new) }
    ensures crash { (file : List ℕ) → D.Disk.may_leave disk.new file → D.Disk.may_leave disk.old file }
{
    let mut bytes = [0; 4];
    disk.read_at(at, &mut bytes)?;
    Ok(word_of(bytes))
}
