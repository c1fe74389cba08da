//! A file of blocks. A block counts if its gate is open, and it is whole; a shut gate stands behind the last, on the
//! disk before anything is written behind it.
ghost use Rattle.std.specs.Prelude.{◌≡◌, ◌≢◌, ◌⊎◌, ◌+◌, ◌<◌, ◌≤◌, ◌^◌, ◌++◌, ◌↔◌, [], ◌∷◌, List, ℕ, length, drop, take, IfOk, IfErr, OnOk, OnErr, IsErr, IsTrue};
ghost use Rattle.sqlite_disk.specs.Disk.{Only, Holds};
ghost use Rattle.sb_durable.specs.Blocks.{body, blocks, IsContent, IsBeforeOrAfter, IsExcess, IsLeft, IsRemnant, Stands};
ghost use Rattle.sb_durable.specs.Log.{HasAll, IsSpent, device_of, Reads};

use crate::JournalError;
use crate::recovery::{block_at, recover};
use sqlite_disk::Disk;
use std::alloc::{AllocError, Global};

/// No file gets as long as this.
const MAX_LEN: usize = 1 << 62;

#[derive(Drop)]
pub struct RecordLog<D: Disk> {
    device: D,
    /// The place of the shut gate behind the last block.
    gate: usize,
    is_spent: bool,
}

impl<D: Disk> RecordLog<D> {
    /// Opens a file that a crash may have left, or an empty one. A crash during the call is covered, too. Error: the
    /// device's, Memory, Damaged, or Behind, where more stands behind the last block than a crash leaves. The file is given
    /// back.
    pub fn open(device: D) -> Result<RecordLog<D>, (JournalError, D)>
        requires { IsTrue (D.Disk.is_usable device) }
        ensures ok { IfOk result (λ log. IsTrue (D.Disk.is_clean (device_of log)) → (contents : List (List ℕ)) → Stands contents (D.Disk.seen device)
            → HasAll D.Disk.seen D.Disk.may_leave log contents) }

        // A crash at any moment of the call leaves what was there. After a restart, what is read is what is on the disk.
        ensures any_moment { IfOk result (λ log. IsTrue (D.Disk.is_clean (device_of log)) → Only (D.Disk.seen device) (D.Disk.may_leave device)
            → (contents : List (List ℕ)) → Stands contents (D.Disk.seen device) → (file : List ℕ) → D.Disk.may_leave (device_of log) file → Stands contents file) }
        ensures any_moment_err { IfErr result (λ e. IsTrue (D.Disk.is_clean e.1) → Only (D.Disk.seen device) (D.Disk.may_leave device)
            → (contents : List (List ℕ)) → Stands contents (D.Disk.seen device) → (file : List ℕ) → D.Disk.may_leave e.1 file → Stands contents file) }

        // A file in which no more is than a crash leaves stays one.
        ensures left { IfOk result (λ log. IsTrue (D.Disk.is_clean (device_of log)) → Only (D.Disk.seen device) (D.Disk.may_leave device)
            → (contents : List (List ℕ)) → IsLeft contents (D.Disk.seen device) → (file : List ℕ) → D.Disk.may_leave (device_of log) file → IsLeft contents file) }
        ensures left_err { IfErr result (λ e. IsTrue (D.Disk.is_clean e.1) → Only (D.Disk.seen device) (D.Disk.may_leave device)
            → (contents : List (List ℕ)) → IsLeft contents (D.Disk.seen device) → (file : List ℕ) → D.Disk.may_leave e.1 file → IsLeft contents file) }

        // Any other is refused, and left as it is.
        ensures remnant { IfOk result (λ log. IsTrue (D.Disk.is_clean (device_of log)) → (contents : List (List ℕ)) → Stands contents (D.Disk.seen device)
            → IsRemnant (drop (length (blocks contents)) (D.Disk.seen device))) }
        ensures behind { IfErr result (λ e. (count : ℕ) → e.0 ≡ JournalError.Behind count → IsTrue (D.Disk.is_clean e.1)
            → (contents : List (List ℕ)) → Stands contents (D.Disk.seen device) → IsExcess count (drop (length (blocks contents)) (D.Disk.seen device))) }
        ensures same { IfErr result (λ e. (count : ℕ) → e.0 ≡ JournalError.Behind count → (D.Disk.seen e.1 ≡ D.Disk.seen device)
            × ((file : List ℕ) → D.Disk.may_leave e.1 file → D.Disk.may_leave device file)) }

        // A file that stands for a list isn't called damaged, cut at any byte or whole.
        ensures damaged { IfErr result (λ e. e.0 ≡ JournalError.Damaged → IsTrue (D.Disk.is_clean e.1)
            → (contents : List (List ℕ)) → Stands contents (D.Disk.seen device) → ⊥) }
        ensures cut { IfErr result (λ e. e.0 ≡ JournalError.Damaged → IsTrue (D.Disk.is_clean e.1)
            → (contents : List (List ℕ)) (file : List ℕ) (n : ℕ) → Stands contents file → D.Disk.seen device ≡ take n file → ⊥) }
    {
        let mut device = device;
        match recover(&mut device) {
            Ok(gate) => Ok(RecordLog {
                device,
                gate,
                is_spent: false,
            }),
            Err(error) => Err((error, device)),
        }
    }

    /// Returns the file.
    pub fn close(self) -> D
        ensures { result ≡ device_of self }
    {
        self.device
    }

    /// True if a write or a sync has failed.
    pub fn is_spent(&self) -> bool
        ensures { IsTrue result ↔ IsSpent self.now }
    {
        self.is_spent
    }

    /// Reads the block at `at`. Returns the place of the next block. Error: the device's, Memory or Damaged.
    pub fn read(&mut self, at: usize, content: &mut Vec<u8>) -> Result<Option<usize>, JournalError>
        ensures found { IfOk result (λ next. IsTrue (D.Disk.is_clean (device_of self.new)) → (front back : List (List ℕ))
            → HasAll D.Disk.seen D.Disk.may_leave self.old (front ++ back) → at ≡ length (blocks front) → Reads front back content.new.items next) }
        ensures damaged { IfErr result (λ e. e ≡ JournalError.Damaged → IsTrue (D.Disk.is_clean (device_of self.new)) → (front back : List (List ℕ))
            → HasAll D.Disk.seen D.Disk.may_leave self.old (front ++ back) → at ≡ length (blocks front) → ⊥) }

        ensures clean { IsTrue (D.Disk.is_clean (device_of self.new)) → IsTrue (D.Disk.is_clean (device_of self.old)) }

        // Reading changes nothing.
        ensures same { (contents : List (List ℕ)) → HasAll D.Disk.seen D.Disk.may_leave self.old contents → HasAll D.Disk.seen D.Disk.may_leave self.new contents }
        ensures spent { IsSpent self.old → IsErr result }
    {
        if self.is_spent || !self.device.may_be_used() {
            return Err(JournalError::Spent);
        }
        let len = self.device.len()?;
        if at > len {
            return Err(JournalError::Damaged);
        }
        match block_at(&mut self.device, at, len) {
            Ok(Some(size)) => {
                fill(&mut self.device, at + 5, size, content)?;
                Ok(Some(at + 5 + size))
            }
            Ok(None) => Ok(None),
            Err(error) => Err(error),
        }
    }

    /// Appends a block and syncs it. Behind `Ok` no crash loses it. Error: the device's, Memory, Full, or Spent behind
    /// a write that failed.
    pub fn append(&mut self, alloc: Global, content: &[u8]) -> Result<(), JournalError>
        requires { IsContent content.now }
        ensures ok { OnOk result ((contents : List (List ℕ)) → HasAll D.Disk.seen D.Disk.may_leave self.old contents
            → HasAll D.Disk.seen D.Disk.may_leave self.new (contents ++ content.now ∷ [])) }

        // A crash at any moment of the call leaves what was there, or that and the whole content.
        ensures any_moment { (contents : List (List ℕ)) → HasAll D.Disk.seen D.Disk.may_leave self.old contents
            → (file : List ℕ) → D.Disk.may_leave self.new.device file → IsBeforeOrAfter contents content.now file }

        ensures clean { IsTrue (D.Disk.is_clean (device_of self.new)) → IsTrue (D.Disk.is_clean (device_of self.old)) }

        // Nothing was done, or the log isn't used any more.
        ensures err { OnErr result ((self.new ≡ self.old) ⊎ IsSpent self.new) }
        ensures spent { IsSpent self.old → IsErr result }
    {
        if self.is_spent || !self.device.may_be_used() {
            return Err(JournalError::Spent);
        }
        if self.gate >= MAX_LEN {
            return Err(JournalError::Full);
        }
        let behind = behind_gate(alloc, content)?;
        self.is_spent = true;
        self.device.write_at(self.gate + 1, &behind)?;
        self.device.sync()?;
        self.device.write_at(self.gate, &[1])?;
        self.device.sync()?;
        self.gate += behind.len();
        self.is_spent = false;
        Ok(())
    }
}

/// The bytes of a block behind its gate, and the shut gate of the next one.
fn behind_gate(alloc: Global, content: &[u8]) -> Result<Vec<u8>, AllocError>
    requires { IsContent content.now }
    ensures { IfOk result (λ bytes. bytes.items ≡ body content.now ++ 0 ∷ []) }
{
    let mut bytes = Vec::with_capacity(alloc, content.len() + 5)?;
    bytes.extend_from_slice(&(content.len() as u32).to_be_bytes())?;
    bytes.extend_from_slice(content)?;
    bytes.push(0)?;
    Ok(bytes)
}

/// Replaces the buffer by so many bytes at a place of the file.
fn fill<D: Disk>(
    disk: &mut D,
    at: usize,
    size: usize,
    bytes: &mut Vec<u8>,
) -> Result<(), JournalError>
    requires usable { IsTrue (D.Disk.is_usable disk.old) }
    ensures size { OnOk result (length bytes.new.items ≡ size) }
    ensures read { OnOk result (IsTrue (D.Disk.is_clean disk.new) → 0 < size → Holds (D.Disk.seen disk.old) at bytes.new.items) }
    ensures whole { IfErr result (λ e. e ≢ JournalError.Damaged) }
    ensures clean { IsTrue (D.Disk.is_clean disk.new) → IsTrue (D.Disk.is_clean disk.old) }
    ensures seen { D.Disk.seen disk.new ≡ D.Disk.seen disk.old }
    ensures crash { (file : List ℕ) → D.Disk.may_leave disk.new file → D.Disk.may_leave disk.old file }
{
    bytes.clear();
    bytes.resize(size, 0)?;
    disk.read_at(at, bytes)?;
    Ok(())
}
