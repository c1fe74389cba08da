//! A file of the system. Each method makes one call, and then notes it with its answer.
ghost use Rattle.std.specs.Prelude.{◌≡◌, ◌<◌, ◌≤◌, ◌^◌, [], ◌∷◌, length, IfOk};
ghost use Rattle.sqlite_disk.specs.Events.{settled};

use crate::pending_entries::PendingEntries;
use sqlite_disk::{Calls, is_no_room};
use std::os::fd::AsRawFd;
use std::os::unix::fs::FileExt;
use std::{fs, io};

const SETTLED: u64 = 0;

const MEASURED: u64 = 1;

const READ: u64 = 2;

const WRITTEN: u64 = 3;

const CUT: u64 = 4;

const FLUSHED: u64 = 5;

const TESTED: u64 = 6;

const MAX_OFFSET: usize = (1 << 63) - 1;

/// True if syncs are made. Without them, written data survives the death of the process, but not of the machine: what
/// is proved of a crash does not hold of the file.
#[derive(Clone, Copy, Debug)]
pub enum Syncing {
    Always,
    Never,
}

/// An open file.
#[derive(Drop)]
pub struct SystemFile {
    file: fs::File,
    syncing: Syncing,
    noted: PendingEntries,
}

impl SystemFile {
    /// Syncs the file, and has the system forget its copies of it, which a sync that failed in an earlier process may
    /// have left other than the disk has them.
    pub(crate) fn settle(file: fs::File, syncing: Syncing) -> io::Result<SystemFile>
        ensures { IfOk result (λ it. it.noted.events ≡ settled 0 ∷ []) }
    {
        file.sync_all()?;
        let advised = libc::posix_fadvise(file.as_raw_fd(), 0, 0, libc::POSIX_FADV_DONTNEED);
        if advised != 0 {
            return Err(io::Error::from_raw_os_error(advised));
        }
        let mut noted = PendingEntries::new();
        noted.note(&[SETTLED, 0, 0, 1], &[]);
        Ok(SystemFile {
            file,
            syncing,
            noted,
        })
    }
}

fn measure(file: &fs::File) -> io::Result<usize> {
    Ok(file.metadata()?.len() as usize)
}

/// A place in the file, as the system counts.
fn offset(at: usize) -> io::Result<u64>
    ensures { IfOk result (λ offset. at < 2 ^ 63) }
{
    if at > MAX_OFFSET {
        return Err(io::ErrorKind::InvalidInput.into());
    }
    Ok(at as u64)
}

/// The number of bytes that the system has moved, where it has moved some.
fn some(count: usize, otherwise: io::ErrorKind) -> io::Result<usize>
    ensures { IfOk result (λ n. (n ≡ count) × (0 < n)) }
{
    if count == 0 {
        return Err(otherwise.into());
    }
    Ok(count)
}

fn read(file: &fs::File, at: usize, buf: &mut [u8]) -> io::Result<usize>
    ensures { IfOk result (λ n. (0 < n) × (n ≤ length buf.old) × (at < 2 ^ 63)) }
{
    let count = file.read_at(buf, offset(at)?)?;
    some(count, io::ErrorKind::UnexpectedEof)
}

fn write(file: &fs::File, at: usize, bytes: &[u8]) -> io::Result<usize>
    ensures { IfOk result (λ n. (0 < n) × (n ≤ length bytes.now) × (at < 2 ^ 63)) }
{
    let count = file.write_at(bytes, offset(at)?)?;
    some(count, io::ErrorKind::WriteZero)
}

impl Calls for SystemFile {
    ghost history = { λ f. f.noted.events };

    fn len(&mut self) -> io::Result<usize> {
        let answer = measure(&self.file);
        match answer {
            Ok(n) => self.noted.note(&[MEASURED, n as u64, 0, 1], &[]),
            Err(_) => self.noted.note(&[MEASURED, 0, 0, 0], &[]),
        }
        answer
    }

    fn read_some(&mut self, at: usize, buf: &mut [u8]) -> io::Result<usize> {
        let (place, len) = (at as u64, buf.len() as u64);
        let answer = read(&self.file, at, buf);
        match answer {
            Ok(n) => self.noted.note(&[READ, place, len, 1], &buf[..n]),
            Err(_) => self.noted.note(&[READ, place, len, 0], &[]),
        }
        answer
    }

    fn read_under(&mut self, key: u64, want: u64, at: usize, buf: &mut [u8]) -> io::Result<usize> {
        let (place, len) = (at as u64, buf.len() as u64);
        let answer = read(&self.file, at, buf);
        match answer {
            Ok(n) => self
                .noted
                .note(&[TESTED, place, len, 1, key, want], &buf[..n]),
            Err(_) => self.noted.note(&[TESTED, place, len, 0, key, want], &[]),
        }
        answer
    }

    fn write_some(&mut self, at: usize, bytes: &[u8]) -> io::Result<usize> {
        let answer = write(&self.file, at, bytes);
        match answer {
            Ok(n) => self.noted.note(&[WRITTEN, at as u64, n as u64, 1], bytes),
            Err(error) => self.noted.note(
                &[WRITTEN, at as u64, u64::from(is_no_room(&error)), 0],
                bytes,
            ),
        }
        answer
    }

    fn resize(&mut self, len: usize) -> io::Result<()> {
        let answer = self.file.set_len(len as u64);
        match answer {
            Ok(()) => self.noted.note(&[CUT, len as u64, 0, 1], &[]),
            Err(error) => self
                .noted
                .note(&[CUT, len as u64, u64::from(is_no_room(&error)), 0], &[]),
        }
        answer
    }

    fn sync(&mut self) -> io::Result<()> {
        let answer = match self.syncing {
            Syncing::Always => self.file.sync_data(),
            Syncing::Never => Ok(()),
        };
        match answer {
            Ok(()) => self.noted.note(&[FLUSHED, 0, 0, 1], &[]),
            Err(error) => self
                .noted
                .note(&[FLUSHED, 0, u64::from(is_no_room(&error)), 0], &[]),
        }
        answer
    }
}
