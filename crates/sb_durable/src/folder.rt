//! The folder of a journal: a file for each segment, which is named by its number.
ghost use Rattle.std.specs.Prelude.{false, IsTrue, IfOk};
ghost use Rattle.sb_durable.specs.File.{may_be_used};
ghost use Rattle.sb_durable.specs.Folders.{FollowOn};

use crate::file::File;
use crate::replay::PlayFault;
use crate::segment::{PREFIX, RowError, SegmentError, check_row, number_in};
use crate::system_file::{Syncing, SystemFile};
use crate::{Head, sync_folder};
use sqlite_disk::{Modelled, Start};
use std::alloc::{AllocError, AllocFailed, Global};
use std::fs::{Files, OpenOptions, TryLockError};
use std::io::ErrorKind;
use std::os::fd::AsRawFd;
use std::{fs, io};
use thiserror::Error;

/// Why a folder isn't opened. Nothing in it is changed then.
#[derive(Debug, Drop, Error)]
pub enum FolderError {
    #[error("{0}")]
    System(io::Error),
    #[error("there is no memory")]
    Memory,
    /// Another server has it.
    #[error("another server has it open")]
    Locked,
    /// The path names a file, as a journal of an earlier version is.
    #[error("it is no folder of segments; `starhost compact` writes an old journal anew as one")]
    NotAFolder,
    /// It has no segment.
    #[error("it has no journal")]
    NotAJournal,
    /// The name begins as a segment's does, and isn't one.
    #[error("{0} is no name of a segment")]
    OtherName(String),
    /// Between the files of two segments one is missing.
    #[error("behind journal.{0:06} one is missing")]
    Missing(u64),
    /// The name belongs to a folder, a device or the like.
    #[error("journal.{0:06} is no file")]
    NotAFile(u64),
    #[error("journal.{number:06}: {why}")]
    Refused {
        number: u64,
        why: RowError,
    },
    /// It is the journal of another server.
    #[error("journal.{number:06} is of {settings}")]
    OtherSettings {
        number: u64,
        settings: Head,
    },
    /// Its head has other settings than those of a journal.
    #[error("journal.{0:06} has no settings of a journal")]
    NoSettings(u64),
    /// A record of it can't be read or played. Records are counted from 1, over all segments.
    #[error("journal.{number:06}, record {record}: {why}")]
    Unplayed {
        number: u64,
        record: u64,
        why: PlayFault,
    },
}

impl FolderError {
    /// Why the segment with this number isn't taken.
    pub(crate) fn of_segment(number: u64, why: SegmentError) -> FolderError {
        FolderError::Refused {
            number,
            why: RowError::Segment(why),
        }
    }
}

impl From<io::Error> for FolderError {
    fn from(error: io::Error) -> FolderError {
        FolderError::System(error)
    }
}

impl From<AllocError> for FolderError {
    fn from(_: AllocError) -> FolderError {
        FolderError::Memory
    }
}

impl<T: Drop> From<AllocFailed<T>> for FolderError {
    fn from(_: AllocFailed<T>) -> FolderError {
        FolderError::Memory
    }
}

/// The folder of a journal, for this process alone: it is locked until it is dropped.
#[derive(Drop)]
pub struct Folder<'p> {
    path: &'p str,
    syncing: Syncing,
    _lock: fs::File,
}

impl<'p> Folder<'p> {
    /// Opens and locks the folder at a path, and makes it if nothing is there. Error: the system's, Locked or NotAFolder.
    pub fn open<R: Files<File = fs::File>>(
        rt: &R,
        path: &'p str,
        syncing: Syncing,
    ) -> Result<Folder<'p>, FolderError> {
        let lock = match fs::open(rt, path) {
            Ok(lock) => lock,
            Err(error) if error.kind() == ErrorKind::NotFound => made_folder(rt, path)?,
            Err(error) => return Err(FolderError::System(error)),
        };
        if !lock.metadata()?.is_dir() {
            return Err(FolderError::NotAFolder);
        }
        match lock.try_lock() {
            Ok(()) => {}
            Err(TryLockError::WouldBlock) => return Err(FolderError::Locked),
            Err(TryLockError::Error(error)) => return Err(FolderError::System(error)),
        }
        Ok(Folder {
            path,
            syncing,
            _lock: lock,
        })
    }

    /// The numbers of its segments, in order. Error: the system's, Memory, OtherName or Missing.
    pub fn numbers<R: Files<File = fs::File> + Alloc + Clone + Drop>(
        &self,
        rt: &R,
        alloc: Global,
    ) -> Result<Vec<u64>, FolderError>
        ensures { IfOk result (λ numbers. FollowOn numbers.items) }
    {
        let mut numbers = Vec::new(alloc);
        for entry in fs::read_dir(rt, self.path)? {
            let entry = entry?;
            let name = entry.file_name();
            if !name.starts_with(PREFIX) {
                continue;
            }
            let Some(number) = number_in(name) else {
                return Err(FolderError::OtherName(String::from_str(alloc, name)?));
            };
            numbers.push(number)?;
        }
        numbers.sort_unstable();
        match check_row(&numbers) {
            Ok(()) => Ok(numbers),
            Err((before, _)) => Err(FolderError::Missing(before)),
        }
    }

    /// Opens the file of a segment. Nothing is written. Error: the system's, Memory or NotAFile.
    pub fn open_segment<R: Files<File = fs::File>, S: Start>(
        &self,
        rt: &R,
        alloc: Global,
        number: u64,
        _start: S,
    ) -> Result<File<S>, FolderError>
        ensures { IfOk result (λ file. IsTrue (may_be_used S.Start file)) }
    {
        let path = self.path_of(alloc, number)?;
        self.settled(opened_segment(rt, path.as_str(), number)?)
    }

    /// Makes the file of a segment, and syncs the folder, so that its name is durable before anything is written to it. A
    /// file of this name that is there is opened. Error: the system's, Memory or NotAFile.
    pub fn make_segment<R: Files<File = fs::File>, S: Start>(
        &self,
        rt: &R,
        alloc: Global,
        number: u64,
        _start: S,
    ) -> Result<File<S>, FolderError>
        ensures { IfOk result (λ file. IsTrue (may_be_used S.Start file)) }
    {
        let path = self.path_of(alloc, number)?;
        let made = OpenOptions::new()
            .read(true)
            .write(true)
            .create_new(true)
            .open(rt, path.as_str());
        let file = match made {
            Ok(file) => file,
            Err(error) if error.kind() == ErrorKind::AlreadyExists => {
                opened_segment(rt, path.as_str(), number)?
            }
            Err(error) => return Err(FolderError::System(error)),
        };
        sync_folder(rt, path.as_str())?;
        self.settled(file)
    }

    /// Removes the file of a segment, and syncs the folder. Error: the system's, or Memory; then it may be there.
    pub(crate) fn remove_segment<R: Files<File = fs::File>>(
        &self,
        rt: &R,
        alloc: Global,
        number: u64,
    ) -> Result<(), FolderError> {
        let path = self.path_of(alloc, number)?;
        fs::remove_file(rt, path.as_str())?;
        sync_folder(rt, path.as_str())?;
        Ok(())
    }

    /// Removes the files of all segments. Error: as of `numbers`, and the system's.
    pub(crate) fn clear<R: Files<File = fs::File> + Alloc + Clone + Drop>(
        &self,
        rt: &R,
        alloc: Global,
    ) -> Result<(), FolderError> {
        let numbers = self.numbers(rt, alloc)?;
        for number in &numbers {
            self.remove_segment(rt, alloc, *number)?;
        }
        Ok(())
    }

    /// Opens the file of a segment for its syncs. Error: the system's, or Memory.
    pub(crate) fn reopen_segment<R: Files<File = fs::File>>(
        &self,
        rt: &R,
        alloc: Global,
        number: u64,
    ) -> Result<fs::File, FolderError> {
        let path = self.path_of(alloc, number)?;
        Ok(fs::open(rt, path.as_str())?)
    }

    fn settled<S: Start>(&self, file: fs::File) -> Result<File<S>, FolderError>
        ensures { IfOk result (λ file. IsTrue (may_be_used S.Start file)) }
    {
        // What is meant for a standard stream that was closed must not land in the file.
        let file = if file.as_raw_fd() <= 2 {
            file.try_clone()?
        } else {
            file
        };
        let settled = SystemFile::settle(file, self.syncing)?;
        Ok(Modelled::new(settled, false, 0))
    }

    fn path_of(&self, alloc: Global, number: u64) -> Result<String, FolderError> {
        Ok(format!(in alloc; "{}/journal.{number:06}", self.path)?)
    }
}

/// Makes a folder at this path, durably, and opens it.
fn made_folder<R: Files<File = fs::File>>(rt: &R, path: &str) -> io::Result<fs::File> {
    fs::create_dir(rt, path)?;
    sync_folder(rt, path)?;
    fs::open(rt, path)
}

/// The file of the segment with this number, at this path.
fn opened_segment<R: Files<File = fs::File>>(
    rt: &R,
    path: &str,
    number: u64,
) -> Result<fs::File, FolderError> {
    let file = OpenOptions::new().read(true).write(true).open(rt, path)?;
    match file.metadata()?.is_file() {
        true => Ok(file),
        false => Err(FolderError::NotAFile(number)),
    }
}
