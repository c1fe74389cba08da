//! The journal of a folder, read from end to end: what is there, and what would be played. Nothing is changed.
ghost use Rattle.std.specs.Prelude.{◌≡◌, ◌+◌, IfSome, OnOk};
ghost use Rattle.sb_durable.specs.RowJournal.{settings_of};

use crate::folder::{Folder, FolderError};
use crate::replay::{PlayFault, Plays, Progress};
use crate::row_opening::FolderFiles;
use crate::row_reading::{ReadRow, SegmentFiles, WantedRow, read_row, refused};
use crate::segment::{RowError, RowReader, Segment};
use crate::{Head, Record};
use sqlite_disk::Disk;
use std::alloc::Global;
use std::fs::Files;
use std::sync::Wait;
use std::{fmt, fs};

/// The contents of a journal's folder.
#[derive(Clone, Copy, Debug)]
pub struct JournalSummary {
    pub head: Head,
    /// The numbers of the oldest and of the newest segment.
    pub oldest: u64,
    pub newest: u64,
    pub records: u64,
    /// True if the newest file has a whole head.
    pub has_begun: bool,
}

impl fmt::Display for JournalSummary {
    fn fmt<W: fmt::Write>(&self, f: &mut fmt::Formatter<W>) -> fmt::Result {
        write!(
            f,
            "segments {} to {}, {} records, {}",
            self.oldest, self.newest, self.records, self.head
        )?;
        match self.has_begun {
            true => Ok(()),
            false => write!(f, "; the newest has not begun"),
        }
    }
}

/// Reads all segments of a folder, and compares each digest. None if the folder is empty. Error: as of the opening of a
/// journal.
pub fn check_journal<R: Files<File = fs::File> + Alloc + Clone + Drop + Wait>(
    rt: &R,
    alloc: Global,
    folder: &Folder,
) -> Result<Option<JournalSummary>, FolderError> {
    let numbers = folder.numbers(rt, alloc)?;
    let Some(oldest) = numbers.first() else {
        return Ok(None);
    };
    let files = FolderFiles { rt, alloc, folder };
    let head = head_of_file(alloc, &files, *oldest)?;
    let wanted = WantedRow {
        numbers: &numbers,
        head,
    };
    let ReadRow {
        reader,
        records,
        unbegun,
    } = read_row(rt, alloc, &files, wanted, &mut Unplayed, &mut Untold)?;
    check_end(reader)?;
    Ok(Some(JournalSummary {
        head,
        oldest: *oldest,
        newest: numbers[numbers.len() - 1],
        records,
        has_begun: unbegun.is_none(),
    }))
}

/// Refuses a file that ends within a block, as part of a copy does.
pub(crate) fn check_end<D: Disk + Drop>(reader: RowReader<D>) -> Result<(), FolderError> {
    let mut last = reader.last;
    match last.ends_within() {
        Ok(false) => Ok(()),
        Ok(true) => Err(refused(last.number(), RowError::EndsWithin)),
        Err(error) => Err(refused(last.number(), RowError::Segment(error))),
    }
}

/// The settings in the head of a segment's file.
pub(crate) fn head_of_file<D: Disk + Drop, F: SegmentFiles<D>>(
    alloc: Global,
    files: &F,
    number: u64,
) -> Result<Head, FolderError> {
    let file = files.open_file(number)?;
    match Segment::open(alloc, file) {
        Ok(segment) => match head_in(segment.settings()) {
            Some(head) => Ok(head),
            None => Err(FolderError::NoSettings(number)),
        },
        Err((error, _file)) => Err(refused(number, RowError::Segment(error))),
    }
}

/// The settings of a journal that these bytes are.
pub(crate) fn head_in(settings: &[u8]) -> Option<Head>
    ensures { IfSome result (λ head. settings.now ≡ settings_of head) }
{
    let [t0, t1, t2, t3, w0, w1, w2, w3, b0, b1, b2, b3] = settings else {
        return None;
    };
    Some(Head {
        tenants: u32::from_be_bytes([*t0, *t1, *t2, *t3]),
        work: u32::from_be_bytes([*w0, *w1, *w2, *w3]),
        bound: u32::from_be_bytes([*b0, *b1, *b2, *b3]),
    })
}

/// Takes records and does nothing with them.
#[derive(Drop)]
struct Unplayed;

impl Plays for Unplayed {
    ghost plays = { λ old r new. new ≡ old };

    fn play<T: Wait>(&mut self, _rt: &T, _alloc: Global, _line: Record) -> Result<(), PlayFault> {
        Ok(())
    }
}

/// Tells nothing of a replay.
#[derive(Drop)]
struct Untold;

impl Progress for Untold {
    fn tell(&mut self, _records: u64, _bytes: u64) {}
}
