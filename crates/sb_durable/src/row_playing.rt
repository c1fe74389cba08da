//! The journal of a folder, opened and replayed on a host.
ghost use Rattle.std.specs.Prelude.{◌≡◌, List, length, IfOk};
ghost use Rattle.sb_durable.specs.Records.{Entry};
ghost use Rattle.sb_durable.specs.Replays.{LeavesPlayed};

use crate::folder::{Folder, FolderError};
use crate::folder_maker::FolderMaker;
use crate::playing::{Playing, bound_of};
use crate::record_player::Player;
use crate::row_check::check_end;
use crate::row_opening::{FolderFiles, OpenedRow, open_row};
use crate::row_reading::{WantedRow, read_row};
use crate::{File, Head, Played, Progress, Recorder, RowJournal, SegmentedJournal, Wary};
use sb_host::{Renewing, Stub};
use sb_words::Log;
use std::alloc::Global;
use std::fs;
use std::rt::{Clock, Files};
use std::sync::Wait;

/// Opens the journal of a folder and replays it on a new host, and ends the sessions that are open then. In an empty folder
/// a journal with these settings is begun. Error: the folder's, the first file that isn't taken as the next segment, or the
/// first record that can't be played.
pub(crate) fn play_row<
    H: Renewing,
    R: Files<File = fs::File> + Alloc + Clone + Drop + Wait,
    P: Progress,
>(
    rt: &R,
    alloc: Global,
    host: H,
    folder: &Folder,
    head: Head,
    progress: &mut P,
) -> Result<(RowJournal<File<Wary>>, Played), FolderError>
    ensures { IfOk result (λ opened. (played : List Entry)
        × LeavesPlayed (H.tenants host) played opened.1.stubs.items opened.1.recorded.items × (opened.1.records ≡ length played)) }
{
    let Ok(mut player) = Player::new(alloc, host, bound_of(head)) else {
        return Err(FolderError::Memory);
    };
    let opened = match open_row(rt, alloc, folder, head, &mut player, progress) {
        Ok(opened) => opened,
        Err(error) => return Err(error),
    };
    let OpenedRow {
        journal,
        records,
        full: _,
    } = opened;
    match player.end_all(rt) {
        Ok(left) => Ok((
            journal,
            Played {
                stubs: left.0,
                records,
                recorded: left.1,
            },
        )),
        Err(_) => Err(FolderError::Memory),
    }
}

/// A recorder in the journal of a folder.
pub type RowRecorder<'r, 'f, 'p, 'k, H, R, O> = Recorder<
    H,
    SegmentedJournal<File<Wary>, FolderMaker<'r, 'f, 'p, 'k, R, O>>,
>;

impl<
    'r,
    'f,
    'p,
    'k,
    R: Files<File = fs::File> + Alloc + Clone + Drop + Wait + Clock,
    O: Log,
> FolderMaker<'r, 'f, 'p, 'k, R, O> {
    /// Opens the journal of the folder and replays it on a host, whose tenants are recorded behind its records from then
    /// on; a segment of so many bytes is full. Gives the recorder, and the receipts of the sessions that were replayed.
    /// Error: as of the opening and the replay.
    pub fn open_recorder<H: Renewing>(
        self,
        host: H,
        head: Head,
        limit: usize,
    ) -> Result<(RowRecorder<'r, 'f, 'p, 'k, H, R, O>, Vec<Stub>), FolderError> {
        let mut playing = Playing::new(self.rt, self.log);
        match play_row(self.rt, self.alloc, host, self.folder, head, &mut playing) {
            Ok((row, played)) => {
                let Played {
                    stubs,
                    recorded,
                    ..
                } = played;
                let alloc = self.alloc;
                self.follow(row.number());
                let journal = SegmentedJournal {
                    row,
                    maker: self,
                    limit,
                };
                match Recorder::new(alloc, host, journal, recorded) {
                    Ok(recorder) => Ok((recorder, stubs)),
                    Err(_) => Err(FolderError::Memory),
                }
            }
            Err(error) => Err(error),
        }
    }
}

/// Replays the segments of a folder on a new host, and ends the sessions that are open then. Nothing is changed. Error: the
/// folder's, NotAJournal if it is empty, the first file that isn't taken as the next segment, or the first record that
/// can't be played.
pub(crate) fn replay_row<
    H: Renewing,
    R: Files<File = fs::File> + Alloc + Clone + Drop + Wait,
    P: Progress,
>(
    rt: &R,
    alloc: Global,
    host: H,
    folder: &Folder,
    head: Head,
    progress: &mut P,
) -> Result<(), FolderError> {
    let Ok(mut player) = Player::new(alloc, host, bound_of(head)) else {
        return Err(FolderError::Memory);
    };
    let numbers = folder.numbers(rt, alloc)?;
    if numbers.is_empty() {
        return Err(FolderError::NotAJournal);
    }
    let files = FolderFiles { rt, alloc, folder };
    let wanted = WantedRow {
        numbers: &numbers,
        head,
    };
    let read = read_row(rt, alloc, &files, wanted, &mut player, progress)?;
    check_end(read.reader)?;
    match player.end_all(rt) {
        Ok(_) => Ok(()),
        Err(_) => Err(FolderError::Memory),
    }
}
