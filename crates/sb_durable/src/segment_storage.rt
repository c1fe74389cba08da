//! The storage of segments. A server lends it to its threads; the bound `Files` stays with one thread.
ghost use Rattle.std.specs.Prelude.{IfOk, IsTrue};
ghost use Rattle.sb_durable.specs.File.{may_be_used};

use crate::file::File;
use crate::folder::{Folder, FolderError};
use sqlite_disk::Start;
use std::alloc::Global;
use std::fs;
use std::fs::Files;

/// Makes, opens and removes the files of segments in a folder.
pub trait SegmentStorage {
    /// Makes the file of the segment with this number. Errors: those of `Folder::make_segment`.
    fn make_segment<S: Start>(
        &self,
        alloc: Global,
        folder: &Folder,
        number: u64,
        start: S,
    ) -> Result<File<S>, FolderError>
        ensures { IfOk result (λ file. IsTrue (may_be_used S.Start file)) };

    /// Removes the file of the segment with this number. Errors: those of `Folder::remove_segment`.
    fn remove_segment(
        &self,
        alloc: Global,
        folder: &Folder,
        number: u64,
    ) -> Result<(), FolderError>;

    /// Opens the file of the segment with this number for its syncs. Errors: those of `Folder::reopen_segment`.
    fn reopen_segment(
        &self,
        alloc: Global,
        folder: &Folder,
        number: u64,
    ) -> Result<fs::File, FolderError>;
}

impl<R: Files<File = fs::File>> SegmentStorage for R {
    fn make_segment<S: Start>(
        &self,
        alloc: Global,
        folder: &Folder,
        number: u64,
        start: S,
    ) -> Result<File<S>, FolderError>
        ensures { IfOk result (λ file. IsTrue (may_be_used S.Start file)) }
    {
        folder.make_segment(self, alloc, number, start)
    }

    fn remove_segment(
        &self,
        alloc: Global,
        folder: &Folder,
        number: u64,
    ) -> Result<(), FolderError> {
        folder.remove_segment(self, alloc, number)
    }

    fn reopen_segment(
        &self,
        alloc: Global,
        folder: &Folder,
        number: u64,
    ) -> Result<fs::File, FolderError> {
        folder.reopen_segment(self, alloc, number)
    }
}
