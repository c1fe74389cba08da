//! A file of keys, as a system has it.

use crate::key_source::{KeyFiles, KeySource, Stamp};
use std::fs::{self, File};
use std::io;
use std::os::unix::fs::MetadataExt as _;
use std::rt::Files;

/// Whichever files a system has, of which no contract can say more.
pub struct AnyFiles;

impl KeyFiles for AnyFiles {
    ghost use Rattle.std.specs.Prelude.{true};

    ghost is_opened = { λ _. true };
}

/// The file of this path.
#[derive(Drop)]
pub struct KeyFile<'k, 'p, T> {
    /// The system that has it.
    pub rt: &'k T,
    pub path: &'p str,
}

impl<'k, 'p, T: Files<File = File>> KeySource<AnyFiles> for KeyFile<'k, 'p, T> {
    type File = File;

    fn stamp(&self) -> Option<Stamp> {
        let Ok(found) = fs::metadata(self.rt, self.path) else {
            return None;
        };
        let Ok(changed) = found.modified() else {
            return None;
        };
        Some(Stamp {
            changed,
            len: found.len(),
            inode: found.ino(),
            touched: (found.ctime(), found.ctime_nsec()),
        })
    }

    fn is_file(&self) -> io::Result<bool> {
        Ok(fs::metadata(self.rt, self.path)?.is_file())
    }

    fn open(&self) -> io::Result<File> {
        fs::open(self.rt, self.path)
    }
}
