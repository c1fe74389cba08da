//! The head of a log, found or written.
ghost use Rattle.std.specs.Prelude.{◌≡◌, ◌≢◌, ◌++◌, [], ◌∷◌, List, ℕ, length, take, IfOk, IfErr, OnOk, OnErr, IsTrue};
ghost use Rattle.sb_durable.specs.Blocks.{IsBeforeOrAfter, Stands};
ghost use Rattle.sb_durable.specs.Log.{HasAll, device_of};
ghost use Rattle.sb_durable.specs.Records.{Entry};
ghost use Rattle.sb_durable.specs.Journal.{head_bytes, disk_of, Has, Keeps};
ghost use Rattle.sb_durable.specs.LogHeaders.{Names};
ghost use Rattle.sb_durable.specs.declared.journal_header.Head.{Head as TheHead};

use crate::{Head, Journal, JournalError, RecordLog};
use sqlite_disk::Disk;
use std::alloc::{AllocError, Global};
use thiserror::Error;

/// Why a log does not begin with this header.
#[derive(Clone, Copy, Debug, Error)]
pub enum BeginError {
    #[error("{0}")]
    Journal(JournalError),
    /// The log belongs to another program or another version of the language.
    #[error("it is no journal of this version")]
    OtherMeaning,
    #[error("it has another number of tenants")]
    OtherTenants,
    #[error("it has another budget of a step")]
    OtherWork,
    #[error("it has another bound on considerations")]
    OtherBound,
}

/// Opens the journal of a file that a crash may have left, or begins one in an empty file. A crash during the call is
/// covered, too. Error: the journal's, or what of its header differs.
pub fn open_journal<D: Disk + Drop>(
    alloc: Global,
    disk: D,
    head: Head,
) -> Result<Journal<D>, BeginError>
    requires { IsTrue (D.Disk.is_usable disk) }
    ensures there { IfOk result (λ journal. IsTrue (D.Disk.is_clean (disk_of journal)) → (other : TheHead) (entries : List Entry)
        → Keeps other entries (D.Disk.seen disk) → Has D.Disk.seen D.Disk.may_leave journal head entries []) }
    ensures begun { IfOk result (λ journal. IsTrue (D.Disk.is_clean (disk_of journal))
        → Stands [] (D.Disk.seen disk) → Has D.Disk.seen D.Disk.may_leave journal head [] []) }

    // A file that was cut at any byte has the first of its records.
    ensures cut { IfOk result (λ journal. IsTrue (D.Disk.is_clean (disk_of journal)) → (other : TheHead) (entries : List Entry) (file : List ℕ) (n : ℕ)
        → Keeps other entries file → D.Disk.seen disk ≡ take n file
        → (first others : List Entry) × (entries ≡ first ++ others) × Has D.Disk.seen D.Disk.may_leave journal head first []) }
{
    let mut log = match RecordLog::open(disk) {
        Ok(log) => log,
        Err((error, _disk)) => return Err(BeginError::Journal(error)),
    };
    match begin(alloc, &mut log, head) {
        Ok(()) => Ok(Journal::over(alloc, log)),
        Err(error) => Err(error),
    }
}

/// Compares the header of a log, or writes it into an empty one. A crash during the call is covered, too. Error: the
/// journal's, or what of the header differs.
pub fn begin<D: Disk>(alloc: Global, log: &mut RecordLog<D>, head: Head) -> Result<(), BeginError>
    // A log that has something begins with this head, and keeps all.
    ensures found { OnOk result (IsTrue (D.Disk.is_clean (device_of log.new)) → (first : List ℕ) (others : List (List ℕ))
        → HasAll D.Disk.seen D.Disk.may_leave log.old (first ∷ others) → first ≡ head_bytes head) }
    ensures kept { IsTrue (D.Disk.is_clean (device_of log.new)) → (first : List ℕ) (others : List (List ℕ))
        → HasAll D.Disk.seen D.Disk.may_leave log.old (first ∷ others) → HasAll D.Disk.seen D.Disk.may_leave log.new (first ∷ others) }

    ensures clean { IsTrue (D.Disk.is_clean (device_of log.new)) → IsTrue (D.Disk.is_clean (device_of log.old)) }

    // Of another head it is told where it differs.
    ensures other { IfErr result (λ e. IsTrue (D.Disk.is_clean (device_of log.new)) → (other : TheHead) (others : List (List ℕ))
        → HasAll D.Disk.seen D.Disk.may_leave log.old (head_bytes other ∷ others) → Names e other head) }

    // An empty log has the head then. A crash at any moment leaves it empty, or with the whole head.
    ensures begun { OnOk result (IsTrue (D.Disk.is_clean (device_of log.new)) → HasAll D.Disk.seen D.Disk.may_leave log.old []
        → HasAll D.Disk.seen D.Disk.may_leave log.new (head_bytes head ∷ [])) }
    ensures any_moment { HasAll D.Disk.seen D.Disk.may_leave log.old []
        → (file : List ℕ) → D.Disk.may_leave (device_of log.new) file → IsBeforeOrAfter [] (head_bytes head) file }
{
    let Ok(ours) = bytes_of_head(alloc, head) else {
        return Err(BeginError::Journal(JournalError::Memory));
    };
    let mut first = Vec::new(alloc);
    match log.read(0, &mut first) {
        Ok(Some(_)) => compare(&first, &ours),
        Ok(None) => match log.append(alloc, &ours) {
            Ok(()) => Ok(()),
            Err(error) => Err(BeginError::Journal(error)),
        },
        Err(error) => Err(BeginError::Journal(error)),
    }
}

/// Compares two headers. Error: the first field in which they differ.
fn compare(first: &[u8], ours: &[u8]) -> Result<(), BeginError>
    requires { length ours.now ≡ 20 }
    ensures same { OnOk result (first.now ≡ ours.now) }
    ensures other { IfErr result (λ e. (other head : TheHead) → first.now ≡ head_bytes other → ours.now ≡ head_bytes head → Names e other head) }
{
    if first == ours {
        return Ok(());
    }
    if first.len() != 20 || first[..8] != ours[..8] {
        return Err(BeginError::OtherMeaning);
    }
    if first[8..12] != ours[8..12] {
        return Err(BeginError::OtherTenants);
    }
    if first[12..16] != ours[12..16] {
        return Err(BeginError::OtherWork);
    }
    Err(BeginError::OtherBound)
}

fn bytes_of_head(alloc: Global, head: Head) -> Result<Vec<u8>, AllocError>
    ensures { IfOk result (λ bytes. bytes.items ≡ head_bytes head) }
{
    let mut bytes = Vec::with_capacity(alloc, 20)?;
    bytes.extend_from_slice(b"FILGJRN1")?;
    bytes.extend_from_slice(&head.tenants.to_be_bytes())?;
    bytes.extend_from_slice(&head.work.to_be_bytes())?;
    bytes.extend_from_slice(&head.bound.to_be_bytes())?;
    Ok(bytes)
}
