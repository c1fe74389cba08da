//! What a crash may have left: the end of its blocks is found, and what is torn behind them is cut off.
ghost use Rattle.std.specs.Prelude.{◌≡◌, ◌≢◌, ◌+◌, ◌-◌, ◌<◌, ◌≤◌, ◌^◌, ◌↔◌, List, ℕ, length, drop, IfOk, IfErr, IfSome, OnOk, IsTrue};
ghost use Rattle.std.specs.Int.{w32, to_be_bytes, from_be_bytes};
ghost use Rattle.sqlite_disk.specs.Disk.{Only};
ghost use Rattle.sb_durable.specs.Blocks.{IsExcess, IsLeft, IsRemnant, blocks, Stands};
ghost use Rattle.sb_durable.specs.Log.{IsAtRest};
ghost use Rattle.sb_durable.specs.Ends.{Finds, EndsAt};

use crate::JournalError;
use sqlite_disk::Disk;
use std::io;

pub const MAX_CONTENT: usize = 1 << 20;

/// A crash leaves no more bytes behind the last block: a gate, the length and the content of one block, and the next gate.
const MOST_LEFT: usize = MAX_CONTENT + 6;

/// Finds the gate behind the last block, and leaves nothing behind it. It may crash too. Error: Behind, if more is there
/// than a crash leaves; the device's, or Damaged.
pub(crate) fn recover<D: Disk>(disk: &mut D) -> Result<usize, JournalError>
    requires { IsTrue (D.Disk.is_usable disk.old) }
    ensures found { IfOk result (λ end. IsTrue (D.Disk.is_clean disk.new) → (contents : List (List ℕ)) → Stands contents (D.Disk.seen disk.old)
        → (end ≡ length (blocks contents)) × IsAtRest contents (D.Disk.seen disk.new)) }
    ensures durable { OnOk result (Only (D.Disk.seen disk.new) (D.Disk.may_leave disk.new)) }
    ensures any_moment { IsTrue (D.Disk.is_clean disk.new) → Only (D.Disk.seen disk.old) (D.Disk.may_leave disk.old)
        → (contents : List (List ℕ)) → Stands contents (D.Disk.seen disk.old) → (file : List ℕ) → D.Disk.may_leave disk.new file → Stands contents file }

    // A file in which no more is than a crash leaves stays one.
    ensures left { IsTrue (D.Disk.is_clean disk.new) → Only (D.Disk.seen disk.old) (D.Disk.may_leave disk.old)
        → (contents : List (List ℕ)) → IsLeft contents (D.Disk.seen disk.old) → (file : List ℕ) → D.Disk.may_leave disk.new file → IsLeft contents file }

    // Any other is refused, and left as it is.
    ensures remnant { OnOk result (IsTrue (D.Disk.is_clean disk.new) → (contents : List (List ℕ)) → Stands contents (D.Disk.seen disk.old)
        → IsRemnant (drop (length (blocks contents)) (D.Disk.seen disk.old))) }
    ensures behind { IfErr result (λ e. (count : ℕ) → e ≡ JournalError.Behind count → IsTrue (D.Disk.is_clean disk.new)
        → (contents : List (List ℕ)) → Stands contents (D.Disk.seen disk.old) → IsExcess count (drop (length (blocks contents)) (D.Disk.seen disk.old))) }
    ensures same { IfErr result (λ e. (count : ℕ) → e ≡ JournalError.Behind count → (D.Disk.seen disk.new ≡ D.Disk.seen disk.old)
        × ((file : List ℕ) → D.Disk.may_leave disk.new file → D.Disk.may_leave disk.old file)) }
    ensures damaged { IfErr result (λ e. e ≡ JournalError.Damaged → IsTrue (D.Disk.is_clean disk.new)
        → (contents : List (List ℕ)) → Stands contents (D.Disk.seen disk.old) → ⊥) }
    ensures clean { IsTrue (D.Disk.is_clean disk.new) → IsTrue (D.Disk.is_clean disk.old) }
{
    let len = disk.len()?;
    let end = match find_end(disk, len) {
        Ok(end) => end,
        Err(error) => return Err(error),
    };
    let may_go = is_remnant(disk, end, len)?;
    if !may_go {
        return Err(JournalError::Behind(len - end));
    }
    leave_gate(disk, end, len)?;
    disk.sync()?;
    Ok(end)
}

/// True if a crash may have left what is behind the blocks of a file, which end there.
fn is_remnant<D: Disk>(disk: &mut D, end: usize, len: usize) -> io::Result<bool>
    requires usable { IsTrue (D.Disk.is_usable disk.old) }
    requires within { end ≤ len }
    requires len { IsTrue (D.Disk.is_clean disk.old) → len ≡ length (D.Disk.seen disk.old) }
    ensures told { IfOk result (λ is. IsTrue (D.Disk.is_clean disk.new) → IsTrue is ↔ IsRemnant (drop end (D.Disk.seen disk.old))) }
    ensures clean { IsTrue (D.Disk.is_clean disk.new) → IsTrue (D.Disk.is_clean disk.old) }
    ensures seen { D.Disk.seen disk.new ≡ D.Disk.seen disk.old }
    ensures usable { IsTrue (D.Disk.is_usable disk.new) }
    ensures crash { (file : List ℕ) → D.Disk.may_leave disk.new file → D.Disk.may_leave disk.old file }
{
    if len - end <= 1 {
        return Ok(true);
    }
    if len - end > MOST_LEFT {
        return Ok(false);
    }
    let mut gate = [0];
    disk.read_at(end, &mut gate)?;
    Ok(gate[0] != 1)
}

/// Leaves the gate at `end`, shut, and nothing behind it. A gate that has something behind it is shut already, and is left
/// as it is, since a torn write might open it.
fn leave_gate<D: Disk>(disk: &mut D, end: usize, len: usize) -> io::Result<()>
    requires usable { IsTrue (D.Disk.is_usable disk.old) }
    requires within { end ≤ len }
    requires remnant { IsTrue (D.Disk.is_clean disk.old) → IsRemnant (drop end (D.Disk.seen disk.old)) }
    ensures at_rest { OnOk result (IsTrue (D.Disk.is_clean disk.new)
        → (contents : List (List ℕ)) → EndsAt contents end len (D.Disk.seen disk.old) → IsAtRest contents (D.Disk.seen disk.new)) }
    ensures any_moment { IsTrue (D.Disk.is_clean disk.new) → Only (D.Disk.seen disk.old) (D.Disk.may_leave disk.old)
        → (contents : List (List ℕ)) → EndsAt contents end len (D.Disk.seen disk.old) → (file : List ℕ) → D.Disk.may_leave disk.new file → IsLeft contents file }
    ensures clean { IsTrue (D.Disk.is_clean disk.new) → IsTrue (D.Disk.is_clean disk.old) }
    ensures usable { OnOk result (IsTrue (D.Disk.is_usable disk.new)) }
{
    if len - end <= 1 {
        return disk.write_at(end, &[0]);
    }
    disk.set_len(end + 1)
}

/// The place at which the blocks of a file end. No content is read.
fn find_end<D: Disk>(disk: &mut D, len: usize) -> Result<usize, JournalError>
    requires usable { IsTrue (D.Disk.is_usable disk.old) }
    requires len { IsTrue (D.Disk.is_clean disk.old) → len ≡ length (D.Disk.seen disk.old) }
    ensures found { IfOk result (λ end. IsTrue (D.Disk.is_clean disk.new) → (contents : List (List ℕ)) → Stands contents (D.Disk.seen disk.old)
        → end ≡ length (blocks contents)) }
    ensures within { IfOk result (λ end. end ≤ len) }
    ensures damaged { IfErr result (λ e. e ≡ JournalError.Damaged → IsTrue (D.Disk.is_clean disk.new)
        → (contents : List (List ℕ)) → Stands contents (D.Disk.seen disk.old) → ⊥) }
    ensures kind { IfErr result (λ e. (count : ℕ) → e ≢ JournalError.Behind count) }
    ensures clean { IsTrue (D.Disk.is_clean disk.new) → IsTrue (D.Disk.is_clean disk.old) }
    ensures seen { D.Disk.seen disk.new ≡ D.Disk.seen disk.old }
    ensures usable { IsTrue (D.Disk.is_usable disk.new) }
    ensures crash { (file : List ℕ) → D.Disk.may_leave disk.new file → D.Disk.may_leave disk.old file }
{
    let mut at = 0;
    loop {
        match block_at(disk, at, len) {
            Ok(Some(size)) => at += 5 + size,
            Ok(None) => return Ok(at),
            Err(error) => return Err(error),
        }
    }
}

/// The length of the content of the block that begins at `at`, if one does.
pub(crate) fn block_at<D: Disk>(
    disk: &mut D,
    at: usize,
    len: usize,
) -> Result<Option<usize>, JournalError>
    requires usable { IsTrue (D.Disk.is_usable disk.old) }
    requires within { at ≤ len }
    requires len { IsTrue (D.Disk.is_clean disk.old) → len ≡ length (D.Disk.seen disk.old) }
    ensures found { IfOk result (λ found. IsTrue (D.Disk.is_clean disk.new) → Finds (drop at (D.Disk.seen disk.old)) found) }
    ensures fits { IfOk result (λ found. IfSome found (λ size. (size ≤ 2 ^ 20) × (at + 5 + size ≤ len))) }
    ensures damaged { IfErr result (λ e. e ≡ JournalError.Damaged → IsTrue (D.Disk.is_clean disk.new)
        → (contents : List (List ℕ)) → Stands contents (drop at (D.Disk.seen disk.old)) → ⊥) }
    ensures kind { IfErr result (λ e. (count : ℕ) → e ≢ JournalError.Behind count) }
    ensures clean { IsTrue (D.Disk.is_clean disk.new) → IsTrue (D.Disk.is_clean disk.old) }
    ensures seen { D.Disk.seen disk.new ≡ D.Disk.seen disk.old }
    ensures usable { IsTrue (D.Disk.is_usable disk.new) }
    ensures crash { (file : List ℕ) → D.Disk.may_leave disk.new file → D.Disk.may_leave disk.old file }
{
    if len - at <= 1 {
        return Ok(None);
    }
    let mut gate = [0];
    disk.read_at(at, &mut gate)?;
    if gate[0] != 1 {
        return Ok(None);
    }
    if len - at < 5 {
        return Ok(None);
    }
    let mut size = [0; 4];
    disk.read_at(at + 1, &mut size)?;
    let size = number_of(size);
    if size > MAX_CONTENT {
        return Err(JournalError::Damaged);
    }
    if size > len - at - 5 {
        return Ok(None);
    }
    Ok(Some(size))
}

/// The number that these bytes are, the first of them the highest.
pub(crate) fn number_of(bytes: [u8; 4]) -> usize
    ensures value { result ≡ from_be_bytes w32 bytes }
    ensures bytes { to_be_bytes w32 result ≡ bytes }
{
    u32::from_be_bytes(bytes) as usize
}
