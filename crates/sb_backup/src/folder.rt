//! Files of tenants in a folder: one file for each, named by the tenant's number.
ghost use Rattle.std.specs.Prelude.{◌≡◌, ◌+◌, IfOk, IfSome, Some, codes, option_copied, string_bytes};
ghost use Rattle.sb_backup.specs.HostDumps.{file_name};

use crate::error::BackupError;
use sb_wire::StreamError;
use sb_words::{Log, Severity};
use std::alloc::{AllocError, Global};
use std::fmt::Display;
use std::fs;
use std::fs::{File, OpenFile as _, TryLockError};
use std::io::{self, Write as _};
use std::rt::Files;

/// A folder, and the number of the first tenant, as files are named.
#[derive(Clone, Copy)]
pub struct Folder<'a> {
    pub path: &'a str,
    pub first: u32,
}

impl<'a> Folder<'a> {
    /// The number by which this tenant's file is named.
    pub(crate) fn number_of(self, tenant: u32) -> u64
        ensures { result ≡ self.entry.first + tenant }
    {
        u64::from(self.first) + u64::from(tenant)
    }

    /// The file of the tenant with this number.
    pub(crate) fn file_of(self, alloc: Global, number: u64) -> Result<String, AllocError>
        ensures { IfOk result (λ name. string_bytes name ≡ file_name self.entry.path.now number (codes ".lines")) }
    {
        let folder = self.path;
        format!(in alloc; "{folder}/{number}.lines")
    }

    /// The file that is written in its place, and then gets its name.
    fn new_file_of(self, alloc: Global, number: u64) -> Result<String, AllocError>
        ensures { IfOk result (λ name. string_bytes name ≡ file_name self.entry.path.now number (codes ".lines.new")) }
    {
        let folder = self.path;
        format!(in alloc; "{folder}/{number}.lines.new")
    }

    /// True if the folder is there. If not, the reason is logged.
    pub(crate) fn is_found<R: Files, O: Log>(self, rt: &R, log: &O) -> bool {
        match fs::metadata(rt, self.path) {
            Ok(found) if found.is_dir() => true,
            Ok(_) => {
                tell_no_folder(log, self.path, &"it is a file");
                false
            }
            Err(error) => {
                tell_no_folder(log, self.path, &error);
                false
            }
        }
    }

    /// Locks the folder for this process until the lock is dropped. If it can't be locked, the reason is logged.
    pub(crate) fn lock<R: Files<File = File>, O: Log>(self, rt: &R, log: &O) -> Option<FolderLock> {
        match locked(rt, self.path) {
            Ok(lock) => Some(lock),
            Err(TryLockError::WouldBlock) => {
                tell_no_folder(log, self.path, &"another process writes to it");
                None
            }
            Err(TryLockError::Error(error)) => {
                tell_no_folder(log, self.path, &error);
                None
            }
        }
    }

    /// Locks the folder for this process until the lock is dropped. Error: NoFolder, and why it isn't there or can't be
    /// locked is logged.
    pub fn claim<R: Files<File = File>, O: Log>(
        self,
        rt: &R,
        log: &O,
    ) -> Result<FolderLock, BackupError> {
        if !self.is_found(rt, log) {
            return Err(BackupError::NoFolder);
        }
        match self.lock(rt, log) {
            Some(lock) => Ok(lock),
            None => Err(BackupError::NoFolder),
        }
    }

    /// Writes the file of the tenant with this number. The name never has a part of a file.
    pub(crate) fn write<R: Files>(
        self,
        rt: &R,
        alloc: Global,
        number: u64,
        text: &[u8],
    ) -> Result<io::Result<()>, BackupError> {
        let Ok(path) = self.file_of(alloc, number) else {
            return Err(BackupError::Stream(StreamError::NoMemory));
        };
        let Ok(beside) = self.new_file_of(alloc, number) else {
            return Err(BackupError::Stream(StreamError::NoMemory));
        };
        Ok(write_beside(rt, self.path, beside.as_str(), path.as_str(), text))
    }
}

/// Keeps other processes from writing to a folder.
#[derive(Drop)]
pub struct FolderLock {
    _folder: File,
}

/// The lock of the folder at this path, if no other process has it.
fn locked<R: Files<File = File>>(rt: &R, path: &str) -> Result<FolderLock, TryLockError> {
    let folder = match fs::open(rt, path) {
        Ok(folder) => folder,
        Err(error) => return Err(TryLockError::Error(error)),
    };
    match folder.try_lock() {
        Ok(()) => Ok(FolderLock { _folder: folder }),
        Err(why) => Err(why),
    }
}

/// The folder at this path, for tenants from 0 on. If there is none, the reason is logged.
pub(crate) fn found_folder<'a, R: Files, O: Log>(
    rt: &R,
    path: Option<&'a str>,
    log: &O,
) -> Option<Folder<'a>>
    ensures { IfSome result (λ folder. (folder.first ≡ 0) × (option_copied path.entry ≡ Some folder.path.now)) }
{
    let folder = Folder {
        path: path?,
        first: 0,
    };
    match folder.is_found(rt, log) {
        true => Some(folder),
        false => None,
    }
}

/// Logs why a folder can't be used.
fn tell_no_folder<O: Log, D: Display>(log: &O, folder: &str, why: &D) {
    log.write(Severity::Error, &format_args!("no folder {folder}: {why}"));
}

/// Writes a file to a temporary name, and renames it.
fn write_beside<R: Files>(
    rt: &R,
    folder: &str,
    beside: &str,
    path: &str,
    text: &[u8],
) -> io::Result<()> {
    match write_new(rt, beside, text) {
        Ok(()) => {
            fs::rename(rt, beside, path)?;
            sync_folder(rt, folder)
        }
        Err(error) => {
            // what is there of it is of no use
            let _removed = fs::remove_file(rt, beside);
            Err(error)
        }
    }
}

/// Syncs a folder, so that its names are durable.
fn sync_folder<R: Files>(rt: &R, folder: &str) -> io::Result<()> {
    fs::open(rt, folder)?.sync_all()
}

/// Writes and syncs a new file. What an earlier try left under the name is removed first; of a link, the link alone.
fn write_new<R: Files>(rt: &R, path: &str, text: &[u8]) -> io::Result<()> {
    let _removed = fs::remove_file(rt, path);
    let mut file = File::create_new(rt, path)?;
    file.write_all(text)?;
    file.sync_all()
}
