//! The journal of a folder, opened: its files are read in the order of their numbers, and their records are played.
ghost use Rattle.std.specs.Prelude.{◌≡◌, ◌<◌, [], List, ℕ, length, IfOk, IfSome, IsTrue};
ghost use Rattle.sb_durable.specs.Folders.{FollowOn};
ghost use Rattle.sb_durable.specs.Head.{IsHead};
ghost use Rattle.sb_durable.specs.Records.{Entry};
ghost use Rattle.sb_durable.specs.Replays.{PlaysAll};
ghost use Rattle.sb_durable.specs.Row.{Filed};
ghost use Rattle.sb_durable.specs.RowJournals.{HasRow, disk_of};
ghost use Rattle.sb_durable.specs.RowOpenings.{OpensRow};
ghost use Rattle.sb_durable.specs.RowReaders.{last_of};
ghost use Rattle.sb_durable.specs.RowReplays.{IsReadAs};
ghost use Rattle.sb_durable.specs.Segment.{head_of};
ghost use Rattle.sb_durable.specs.declared.journal_header.Head.{Head as TheHead};

use crate::file::File;
use crate::folder::{Folder, FolderError};
use crate::replay::{Plays, Progress};
use crate::row_journal::{FIRST_NUMBER, RowJournal};
use crate::row_reading::{ReadRow, SegmentFiles, WantedRow, read_row, refused};
use crate::segment::{RowError, SegmentError};
use crate::{Head, Wary};
use sqlite_disk::Disk;
use std::alloc::Global;
use std::fs;
use std::fs::Files;
use std::sync::Wait;

/// The files of a folder.
#[derive(Drop)]
pub(crate) struct FolderFiles<'r, 'f, 'p, R> {
    pub rt: &'r R,
    pub alloc: Global,
    pub folder: &'f Folder<'p>,
}

impl<'r, 'f, 'p, R: Files<File = fs::File>> SegmentFiles<File<Wary>>
    for FolderFiles<'r, 'f, 'p, R> {
    ghost use Rattle.std.specs.Prelude.{ℕ, List};

    ghost has = { λ _ _ _. Unit {0} };

    fn open_file(&self, number: u64) -> Result<File<Wary>, FolderError> {
        self.folder.open_segment(self.rt, self.alloc, number, Wary)
    }
}

/// A journal that was opened over the files of a folder.
#[derive(Drop)]
pub(crate) struct OpenedRow<D: Disk> {
    pub journal: RowJournal<D>,
    /// The number of records that were replayed.
    pub records: u64,
    /// The file before the newest one, where the newest was begun by this call.
    pub full: Option<D>,
}

/// Opens the journal of a folder, replays its records and counts them. In an empty folder a journal with these settings
/// is begun. Error: the folder's, the first file that isn't taken as the next segment, or the first record that can't be
/// played.
pub(crate) fn open_row<
    R: Files<File = fs::File> + Alloc + Clone + Drop + Wait,
    S: Plays,
    P: Progress,
>(
    rt: &R,
    alloc: Global,
    folder: &Folder,
    head: Head,
    player: &mut S,
    progress: &mut P,
) -> Result<OpenedRow<File<Wary>>, FolderError>
    ensures { IfOk result (λ opened. (played : List Entry) × PlaysAll S.plays player.old played player.new × (opened.records ≡ length played)) }
{
    let numbers = folder.numbers(rt, alloc)?;
    if numbers.is_empty() {
        let file = folder.make_segment(rt, alloc, FIRST_NUMBER, Wary)?;
        return begin_row(alloc, file, head);
    }
    if numbers.len() == 1 && numbers[0] == FIRST_NUMBER {
        let file = folder.open_segment(rt, alloc, FIRST_NUMBER, Wary)?;
        match begin_row(alloc, file, head) {
            Err(
                FolderError::Refused {
                    number: _,
                    why: RowError::Segment(SegmentError::Begun),
                },
            ) => {}
            ended => return ended,
        }
    }
    let files = FolderFiles { rt, alloc, folder };
    let wanted = WantedRow {
        numbers: &numbers,
        head,
    };
    open_files(rt, alloc, &files, wanted, player, progress)
}

/// Opens the files of a row, and replays their records.
fn open_files<T: Wait, D: Disk + Drop, F: SegmentFiles<D>, S: Plays, P: Progress>(
    rt: &T,
    alloc: Global,
    files: &F,
    wanted: WantedRow<'_>,
    player: &mut S,
    progress: &mut P,
) -> Result<OpenedRow<D>, FolderError>
    requires some { 0 < length wanted.numbers.now }
    requires follow { FollowOn wanted.numbers.now }
    ensures { IfOk result (λ opened. OpensRow (F.has files.now) D.Disk.seen D.Disk.may_leave D.Disk.is_clean S.plays player.old player.new
        wanted.entry.numbers.now opened.journal opened.full opened.records) }
{
    let newest = wanted.numbers[wanted.numbers.len() - 1];
    match read_row(rt, alloc, files, wanted, player, progress) {
        Ok(read) => finished(alloc, read, newest),
        Err(error) => Err(error),
    }
}

/// Begins the first segment of a journal, in a file that hasn't begun.
fn begin_row<D: Disk + Drop>(
    alloc: Global,
    file: D,
    head: Head,
) -> Result<OpenedRow<D>, FolderError>
    requires { IsTrue (D.Disk.is_usable file) }
    ensures has { IfOk result (λ opened. IsTrue (D.Disk.is_clean (disk_of opened.journal)) → HasRow D.Disk.seen D.Disk.may_leave opened.journal head [] [] []) }
    ensures records { IfOk result (λ opened. opened.records ≡ 0) }
{
    match RowJournal::begin(alloc, file, head) {
        Ok(journal) => Ok(OpenedRow {
            journal,
            records: 0,
            full: None,
        }),
        Err((error, _file)) => Err(refused(FIRST_NUMBER, RowError::Segment(error))),
    }
}

/// The journal of a row that was read. Where the newest file, which has this number, hasn't begun, it is begun.
fn finished<D: Disk + Drop>(
    alloc: Global,
    read: ReadRow<D>,
    newest: u64,
) -> Result<OpenedRow<D>, FolderError>
    requires { IsHead (head_of (last_of read.reader)) }
    ensures { IfOk result (λ opened. (opened.records ≡ read.records) × (IsTrue (D.Disk.is_clean (disk_of opened.journal)) → IfSome opened.full (λ full. IsTrue (D.Disk.is_clean full))
        → (head : TheHead) (records : List Entry) → IsReadAs D.Disk.seen read.reader head records → (older : List Filed) × HasRow D.Disk.seen D.Disk.may_leave opened.journal head older records [])) }
{
    let ReadRow {
        reader,
        records,
        unbegun,
    } = read;
    let number = reader.last.number();
    let mut journal = match RowJournal::open(alloc, reader) {
        Ok(journal) => journal,
        Err((why, _file)) => return Err(refused(number, why)),
    };
    let Some(file) = unbegun else {
        return Ok(OpenedRow {
            journal,
            records,
            full: None,
        });
    };
    if !file.may_be_used() {
        return Err(refused(newest, RowError::Segment(SegmentError::Spent)));
    }
    match journal.turn(file) {
        Ok(full) => Ok(OpenedRow {
            journal,
            records,
            full: Some(full),
        }),
        Err((error, _file)) => Err(refused(newest, RowError::Segment(error))),
    }
}
