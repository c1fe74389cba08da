//! A segment that is begun. The first byte of its file is a gate: what is behind it counts once that is open. It is
//! opened as an F, so that the file begins with FILGJRN2.
ghost use Rattle.std.specs.Prelude.{◌≡◌, ◌≢◌, ◌⊎◌, ◌++◌, [], ◌∷◌, ◌<◌, ◌≤◌, List, ℕ, length, slice_index, IfOk, IfErr, OnOk, IsErr, IsTrue};
ghost use Rattle.sqlite_disk.specs.Disk.{Only};
ghost use Rattle.sb_durable.specs.Head.{Head, Stands, IsLeft, IsCutHead, IsForeign, IsUnbegun, IsReady, IsOpened, file_gate, mark, head_bytes, head_digest};
ghost use Rattle.sb_durable.specs.Segment.{HasAll, IsBegun, device_of, head_of, head_in};

use crate::segment::beginning::{Beginning, read_beginning};
use crate::segment::bytes::text_of_head;
use crate::segment::opening::HEAD;
use crate::segment::{Place, Segment, SegmentError};
use sqlite_disk::{Disk, digest_of};
use std::alloc::{AllocError, Global};
use std::io;

impl<D: Disk> Segment<D> {
    /// Begins a segment in a file that hasn't begun: its number, the digest at the end of the segment before, and
    /// settings. It may crash too. Error: the journal's, or what of the header differs.
    pub fn begin(
        alloc: Global,
        device: D,
        number: u64,
        before: u64,
        settings: &[u8],
    ) -> Result<Segment<D>, (SegmentError, D)>
        requires usable { IsTrue (D.Disk.is_usable device) }
        requires settings { length settings.now ≤ 4096 }
        ensures ok { IfOk result (λ segment. IsTrue (D.Disk.is_clean (device_of segment)) → HasAll D.Disk.seen D.Disk.may_leave segment []) }
        ensures gate { IfOk result (λ segment. IsTrue (D.Disk.is_clean (device_of segment)) → slice_index (D.Disk.seen (device_of segment)) 0 ≡ file_gate) }
        ensures head { IfOk result (λ segment. head_of segment ≡ record { number = number; before = before; settings = settings.now }) }

        // A crash at any moment of the call leaves a file that hasn't begun, or the whole head. After a restart, what is
        // read is what is on the disk.
        ensures any_moment { IfOk result (λ segment. IsTrue (D.Disk.is_clean (device_of segment)) → Only (D.Disk.seen device) (D.Disk.may_leave device) → IsUnbegun (D.Disk.seen device)
            → (file : List ℕ) → D.Disk.may_leave (device_of segment) file → IsUnbegun file ⊎ IsLeft (record { number = number; before = before; settings = settings.now }) [] file) }
        ensures any_moment_err { IfErr result (λ e. IsTrue (D.Disk.is_clean e.1) → Only (D.Disk.seen device) (D.Disk.may_leave device) → IsUnbegun (D.Disk.seen device)
            → (file : List ℕ) → D.Disk.may_leave e.1 file → IsUnbegun file ⊎ IsLeft (record { number = number; before = before; settings = settings.now }) [] file) }

        // A file that has begun, or that is of another program, is refused and left as it is.
        ensures refused { IfOk result (λ segment. IsTrue (D.Disk.is_clean (device_of segment)) → IsUnbegun (D.Disk.seen device)) }
        ensures kept { IfErr result (λ e. IsTrue (D.Disk.is_clean e.1) → (IsUnbegun (D.Disk.seen device) → ⊥)
            → (D.Disk.seen e.1 ≡ D.Disk.seen device) × ((file : List ℕ) → D.Disk.may_leave e.1 file → D.Disk.may_leave device file)) }
        ensures begun { IfErr result (λ e. e.0 ≡ SegmentError.Begun → IsTrue (D.Disk.is_clean e.1) → IsUnbegun (D.Disk.seen device) → ⊥) }
        ensures cut_short { IfErr result (λ e. e.0 ≡ SegmentError.CutShort → IsTrue (D.Disk.is_clean e.1) → IsCutHead (D.Disk.seen device)) }
        ensures foreign { IfErr result (λ e. e.0 ≡ SegmentError.NotASegment → IsTrue (D.Disk.is_clean e.1) → IsForeign (D.Disk.seen device)) }
        ensures damaged { IfErr result (λ e. e.0 ≡ SegmentError.Damaged → IsTrue (D.Disk.is_clean e.1)
            → (other : Head) (contents : List (List ℕ)) → Stands other contents (D.Disk.seen device) → ⊥) }
    {
        let mut device = device;
        match lay_out(alloc, &mut device, number, before, settings) {
            Ok(beginning) => {
                let end = Place {
                    at: HEAD + beginning.settings.len(),
                    chain: beginning.own,
                };
                Ok(Segment {
                    device,
                    beginning,
                    end,
                    is_settled: true,
                    is_spent: false,
                })
            }
            Err(error) => Err((error, device)),
        }
    }
}

/// Writes a head and a shut gate into a file that hasn't begun.
fn lay_out<D: Disk>(
    alloc: Global,
    disk: &mut D,
    number: u64,
    before: u64,
    settings: &[u8],
) -> Result<Beginning, SegmentError>
    requires usable { IsTrue (D.Disk.is_usable disk.old) }
    requires settings { length settings.now ≤ 4096 }
    ensures begun { IfOk result (λ beginning. IsBegun (record { number = number; before = before; settings = settings.now }) beginning) }
    ensures ok { OnOk result (IsTrue (D.Disk.is_clean disk.new) → D.Disk.seen disk.new ≡ file_gate ∷ (head_bytes (record { number = number; before = before; settings = settings.now }) ++ 0 ∷ [])) }
    ensures durable { OnOk result (Only (D.Disk.seen disk.new) (D.Disk.may_leave disk.new)) }
    ensures any_moment { IsTrue (D.Disk.is_clean disk.new) → Only (D.Disk.seen disk.old) (D.Disk.may_leave disk.old) → IsUnbegun (D.Disk.seen disk.old)
        → (file : List ℕ) → D.Disk.may_leave disk.new file → IsUnbegun file ⊎ IsOpened (head_bytes (record { number = number; before = before; settings = settings.now }) ++ 0 ∷ []) file }
    ensures refused { OnOk result (IsTrue (D.Disk.is_clean disk.new) → IsUnbegun (D.Disk.seen disk.old)) }
    ensures kept { IsTrue (D.Disk.is_clean disk.new) → (IsUnbegun (D.Disk.seen disk.old) → ⊥)
        → (D.Disk.seen disk.new ≡ D.Disk.seen disk.old) × ((file : List ℕ) → D.Disk.may_leave disk.new file → D.Disk.may_leave disk.old file) }
    ensures again { IfErr result (λ e. e ≡ SegmentError.Begun → IsTrue (D.Disk.is_clean disk.new) → IsUnbegun (D.Disk.seen disk.old) → ⊥) }
    ensures cut_short { IfErr result (λ e. e ≡ SegmentError.CutShort → IsTrue (D.Disk.is_clean disk.new) → IsCutHead (D.Disk.seen disk.old)) }
    ensures foreign { IfErr result (λ e. e ≡ SegmentError.NotASegment → IsTrue (D.Disk.is_clean disk.new) → IsForeign (D.Disk.seen disk.old)) }
    ensures damaged { IfErr result (λ e. e ≡ SegmentError.Damaged → IsTrue (D.Disk.is_clean disk.new)
        → (other : Head) (contents : List (List ℕ)) → Stands other contents (D.Disk.seen disk.old) → ⊥) }
{
    let (beginning, bytes) = whole_head(alloc, number, before, settings)?;
    match prepare(alloc, disk) {
        Ok(()) => {}
        Err(error) => return Err(error),
    }
    write_head(disk, &bytes)?;
    Ok(beginning)
}

/// A head with its digest, and its bytes with a shut gate behind them.
fn whole_head(
    alloc: Global,
    number: u64,
    before: u64,
    settings: &[u8],
) -> Result<(Beginning, Vec<u8>), AllocError>
    requires { length settings.now ≤ 4096 }
    ensures begun { IfOk result (λ made. IsBegun (record { number = number; before = before; settings = settings.now }) made.0) }
    ensures bytes { IfOk result (λ made. made.1.items ≡ file_gate ∷ (head_bytes (record { number = number; before = before; settings = settings.now }) ++ 0 ∷ [])) }
{
    let text = text_of_head(alloc, number, before, settings)?;
    let own = digest_of(0, &text);
    let mut bytes = Vec::with_capacity(alloc, text.len() + 10)?;
    bytes.push(b'F')?;
    bytes.extend_from_slice(&text)?;
    bytes.extend_from_slice(&own.to_be_bytes())?;
    bytes.push(0)?;
    let settings = settings.to_vec(alloc)?;
    let beginning = Beginning {
        number,
        before,
        settings,
        own,
    };
    Ok((beginning, bytes))
}

/// Leaves the mark behind a shut gate, and nothing behind that, in a file that hasn't begun.
fn prepare<D: Disk>(alloc: Global, disk: &mut D) -> Result<(), SegmentError>
    requires { IsTrue (D.Disk.is_usable disk.old) }
    ensures ready { OnOk result (IsTrue (D.Disk.is_clean disk.new) → IsReady (D.Disk.seen disk.new)) }
    ensures durable { OnOk result (Only (D.Disk.seen disk.new) (D.Disk.may_leave disk.new)) }
    ensures any_moment { IsTrue (D.Disk.is_clean disk.new) → Only (D.Disk.seen disk.old) (D.Disk.may_leave disk.old) → IsUnbegun (D.Disk.seen disk.old)
        → (file : List ℕ) → D.Disk.may_leave disk.new file → IsUnbegun file }
    ensures refused { OnOk result (IsTrue (D.Disk.is_clean disk.new) → IsUnbegun (D.Disk.seen disk.old)) }
    ensures kept { IsTrue (D.Disk.is_clean disk.new) → (IsUnbegun (D.Disk.seen disk.old) → ⊥)
        → (D.Disk.seen disk.new ≡ D.Disk.seen disk.old) × ((file : List ℕ) → D.Disk.may_leave disk.new file → D.Disk.may_leave disk.old file) }
    ensures again { IfErr result (λ e. e ≡ SegmentError.Begun → IsTrue (D.Disk.is_clean disk.new) → IsUnbegun (D.Disk.seen disk.old) → ⊥) }
    ensures cut_short { IfErr result (λ e. e ≡ SegmentError.CutShort → IsTrue (D.Disk.is_clean disk.new) → IsCutHead (D.Disk.seen disk.old)) }
    ensures foreign { IfErr result (λ e. e ≡ SegmentError.NotASegment → IsTrue (D.Disk.is_clean disk.new) → IsForeign (D.Disk.seen disk.old)) }
    ensures damaged { IfErr result (λ e. e ≡ SegmentError.Damaged → IsTrue (D.Disk.is_clean disk.new)
        → (other : Head) (contents : List (List ℕ)) → Stands other contents (D.Disk.seen disk.old) → ⊥) }
    ensures clean { IsTrue (D.Disk.is_clean disk.new) → IsTrue (D.Disk.is_clean disk.old) }
    ensures usable { OnOk result (IsTrue (D.Disk.is_usable disk.new)) }
{
    let len = disk.len()?;
    if len <= 8 {
        disk.write_at(0, b"\0ILGJRN2")?;
        disk.sync()?;
        return Ok(());
    }
    match read_beginning(alloc, disk, len) {
        Ok(_beginning) => return Err(SegmentError::Begun),
        Err(SegmentError::NotBegun) => {}
        Err(error) => return Err(error),
    }
    disk.set_len(8)?;
    disk.sync()?;
    Ok(())
}

/// Writes a head behind the mark, and then opens its gate.
fn write_head<D: Disk>(disk: &mut D, bytes: &[u8]) -> io::Result<()>
    requires usable { IsTrue (D.Disk.is_usable disk.old) }
    requires marked { 8 < length bytes.now }
    ensures ok { OnOk result ((rest : List ℕ) → bytes.now ≡ 70 ∷ (mark ++ rest) → IsReady (D.Disk.seen disk.old) → D.Disk.seen disk.new ≡ bytes.now) }
    ensures durable { OnOk result (Only (D.Disk.seen disk.new) (D.Disk.may_leave disk.new)) }
    ensures any_moment { (rest : List ℕ) → bytes.now ≡ 70 ∷ (mark ++ rest) → IsReady (D.Disk.seen disk.old) → Only (D.Disk.seen disk.old) (D.Disk.may_leave disk.old)
        → (file : List ℕ) → D.Disk.may_leave disk.new file → IsUnbegun file ⊎ IsOpened (mark ++ rest) file }
    ensures clean { IsTrue (D.Disk.is_clean disk.new) → IsTrue (D.Disk.is_clean disk.old) }
{
    disk.write_at(8, &bytes[8..])?;
    disk.sync()?;
    disk.write_at(0, b"F")?;
    disk.sync()
}
