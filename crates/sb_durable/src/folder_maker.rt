//! The files of a journal's further segments, made in its folder.

use crate::file::File;
use crate::flusher::Flusher;
use crate::folder::{Folder, FolderError};
use crate::log_lines::{tell_turned, tell_unturned};
use crate::segment::SegmentError;
use crate::segment_storage::SegmentStorage;
use crate::segmented_journal::MakesSegments;
use sb_words::Log;
use sqlite_disk::Wary;
use std::alloc::Global;
use std::sync::Wait;
use std::sync::atomic::{AtomicBool, Ordering};

/// Makes files in the folder of a journal.
#[derive(Drop)]
pub struct FolderMaker<'r, 'f, 'p, 'k, R, O> {
    pub(crate) rt: &'r R,
    pub(crate) alloc: Global,
    pub(crate) folder: &'f Folder<'p>,
    pub(crate) log: &'k O,
    /// Syncs the newest segment, where commits don't.
    flusher: Option<&'f Flusher<'k, O>>,
    /// A fault was told since the last segment was begun.
    has_told: AtomicBool,
}

impl<'r, 'f, 'p, 'k, R: SegmentStorage + Wait, O: Log> FolderMaker<'r, 'f, 'p, 'k, R, O> {
    /// Makes files in this folder. Without a flusher each commit has synced what it wrote.
    pub fn new(
        rt: &'r R,
        alloc: Global,
        folder: &'f Folder<'p>,
        log: &'k O,
        flusher: Option<&'f Flusher<'k, O>>,
    ) -> FolderMaker<'r, 'f, 'p, 'k, R, O> {
        FolderMaker {
            rt,
            alloc,
            folder,
            log,
            flusher,
            has_told: AtomicBool::new(false),
        }
    }

    /// Logs why the segment with this number isn't begun, once.
    fn tell(&self, number: u64, why: &FolderError) {
        if !self.has_told.swap(true, Ordering::SeqCst) {
            tell_unturned(self.log, number, why);
        }
    }

    /// Has the flusher sync the segment with this number.
    pub(crate) fn follow(&self, number: u64) {
        let Some(flusher) = self.flusher else {
            return;
        };
        match self.rt.reopen_segment(self.alloc, self.folder, number) {
            Ok(file) => flusher.follow(self.rt, file),
            Err(error) => flusher.fail(&error),
        }
    }
}

impl<'r, 'f, 'p, 'k, R: SegmentStorage + Wait, O: Log> MakesSegments<File<Wary>>
    for FolderMaker<'r, 'f, 'p, 'k, R, O> {
    /// Syncs the segment before it first.
    fn make_file(&self, number: u64) -> Option<File<Wary>> {
        let is_synced = match self.flusher {
            Some(flusher) => flusher.flush(self.rt),
            None => true,
        };
        if !is_synced {
            return None;
        }
        match self.rt.make_segment(self.alloc, self.folder, number, Wary) {
            Ok(file) => Some(file),
            Err(error) => {
                self.tell(number, &error);
                None
            }
        }
    }

    fn hear_turned(&self, number: u64) {
        self.has_told.store(false, Ordering::SeqCst);
        tell_turned(self.log, number);
        self.follow(number);
    }

    fn hear_unturned(&self, number: u64, why: SegmentError) -> bool {
        self.tell(number, &FolderError::of_segment(number, why));
        if is_of_another(&why) {
            return true;
        }
        match self.rt.remove_segment(self.alloc, self.folder, number) {
            Ok(()) => true,
            Err(error) => {
                tell_unturned(self.log, number, &error);
                false
            }
        }
    }
}

/// True if the file isn't one that was begun here.
fn is_of_another(why: &SegmentError) -> bool {
    match why {
        SegmentError::NotASegment
        | SegmentError::NotBegun
        | SegmentError::CutShort
        | SegmentError::Begun
        | SegmentError::Damaged => true,
        SegmentError::Device(_)
        | SegmentError::Memory
        | SegmentError::Full
        | SegmentError::NoRoom(_)
        | SegmentError::Spent
        | SegmentError::Unsettled => false,
    }
}
