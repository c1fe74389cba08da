//! The file of a path, for this process alone.
ghost use Rattle.std.specs.Prelude.{false, IsTrue, IfOk};
ghost use Rattle.sb_durable.specs.File.{may_be_used};

use crate::system_file::{Syncing, SystemFile};
use crate::{BeginError, Head, Journal, open_journal};
use sqlite_disk::{Modelled, Start, Wary};
use std::alloc::Global;
use std::fs::{Files, OpenOptions, TryLockError};
use std::os::fd::AsRawFd;
use std::os::unix::fs::FileExt;
use std::path::Path;
use std::{fs, io};
use thiserror::Error;

/// A file whose content at its opening is what `S` says.
pub type File<S> = Modelled<SystemFile, S>;

/// Why a file isn't opened.
#[derive(Clone, Copy, Debug, Error)]
pub enum OpenError {
    #[error("{0}")]
    System(io::Error),
    /// Another server has it.
    #[error("another server has it open")]
    Locked,
    /// The name belongs to a folder, a device or the like.
    #[error("it is no file")]
    NotAFile,
    /// The file has other content.
    #[error("it is no journal")]
    NotAJournal,
}

impl From<io::Error> for OpenError {
    fn from(error: io::Error) -> OpenError {
        OpenError::System(error)
    }
}

/// The beginning of a journal: an open gate, the length of its head, and the word of its head but for the version.
const BEGINNING: &[u8] = b"\x01\x00\x00\x00\x14FILGJRN";

/// The most bytes of a journal whose head isn't there yet: a shut gate, a length, the head and the next gate.
const MOST_BEGUN: u64 = 26;

/// Opens the file of a path, and makes it if it is missing. It is locked until it is dropped. No other code may write
/// to it meanwhile. A file in which something else stands is left as it is (NotAJournal). Error: the system's, Locked,
/// NotAFile or NotAJournal.
pub fn open_file<R: Files<File = fs::File>, S: Start>(
    rt: &R,
    path: &str,
    _start: S,
    syncing: Syncing,
) -> Result<File<S>, OpenError>
    ensures { IfOk result (λ file. IsTrue (may_be_used S.Start file)) }
{
    let (file, is_new) = open_or_make(rt, path)?;
    if !file.metadata()?.is_file() {
        return Err(OpenError::NotAFile);
    }
    match file.try_lock() {
        Ok(()) => {}
        Err(TryLockError::WouldBlock) => return Err(OpenError::Locked),
        Err(TryLockError::Error(error)) => return Err(OpenError::System(error)),
    }
    if !may_be_journal(&file)? {
        return Err(OpenError::NotAJournal);
    }
    if is_new {
        sync_folder(rt, path)?;
    }
    let settled = SystemFile::settle(file, syncing)?;
    Ok(Modelled::new(settled, false, 0))
}

/// True if a file is empty, begins as a journal does, or may be one that a crash left before it had its head.
fn may_be_journal(file: &fs::File) -> io::Result<bool> {
    let mut buffer = [0u8; 12];
    let count = file.read_at(&mut buffer, 0)?;
    let found = &buffer[..count];
    if found.first() == Some(&0) {
        return Ok(file.metadata()?.len() <= MOST_BEGUN);
    }
    Ok(BEGINNING.starts_with(found))
}

/// Why there is no journal at a path.
#[derive(Clone, Copy, Debug, Error)]
pub enum StartError {
    #[error("{0}")]
    File(OpenError),
    #[error("{0}")]
    Begin(BeginError),
}

/// Opens the journal at a path. An empty or missing file becomes a new journal with this header. Error: why the file
/// isn't opened, or what of its header differs.
pub fn open_path<R: Files<File = fs::File>>(
    rt: &R,
    alloc: Global,
    path: &str,
    syncing: Syncing,
    head: Head,
) -> Result<Journal<File<Wary>>, StartError> {
    match open_file(rt, path, Wary, syncing) {
        Ok(file) => match open_journal(alloc, file, head) {
            Ok(journal) => Ok(journal),
            Err(error) => Err(StartError::Begin(error)),
        },
        Err(error) => Err(StartError::File(error)),
    }
}

/// Opens or makes the file. True if this call made it.
fn open_or_make<R: Files<File = fs::File>>(rt: &R, path: &str) -> io::Result<(fs::File, bool)> {
    let (file, is_new) = match made(rt, path) {
        Ok(file) => (file, true),
        Err(error) if error.kind() == io::ErrorKind::AlreadyExists => {
            (
                OpenOptions::new().read(true).write(true).open(rt, path)?,
                false,
            )
        }
        Err(error) => return Err(error),
    };
    // What is meant for a standard stream that was closed must not land in the file.
    if file.as_raw_fd() <= 2 {
        return Ok((file.try_clone()?, is_new));
    }
    Ok((file, is_new))
}

/// Makes the file. None if the name is taken.
fn made<R: Files<File = fs::File>>(rt: &R, path: &str) -> io::Result<fs::File> {
    OpenOptions::new()
        .read(true)
        .write(true)
        .create_new(true)
        .open(rt, path)
}

/// Syncs the folder of a file, so that its name is durable. Error: the system's.
pub fn sync_folder<R: Files<File = fs::File>>(rt: &R, path: &str) -> io::Result<()> {
    let folder = match Path::new(path).parent() {
        Some(folder) if !folder.as_str().is_empty() => folder,
        _ => Path::new("."),
    };
    fs::open(rt, folder)?.sync_all()
}
