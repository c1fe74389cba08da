//! The files of a row, read in the order of their numbers. Their records are played on the way.
ghost use Rattle.std.specs.Prelude.{◌≡◌, ◌<◌, List, ℕ, length, IfOk, IsTrue};
ghost use Rattle.sb_durable.specs.Folders.{FollowOn};
ghost use Rattle.sb_durable.specs.Head.{Head as SegmentHead, IsHead, IsUnbegun, Stands};
ghost use Rattle.sb_durable.specs.RowReaders.{last_of};
ghost use Rattle.sb_durable.specs.RowReplays.{ReadsRow};
ghost use Rattle.sb_durable.specs.Segment.{BindsAll, Knows, device_of, head_of};

use crate::Head;
use crate::folder::FolderError;
use crate::replay::{PlayFault, Plays, Progress};
use crate::row_check::head_of_file;
use crate::row_journal::settings_bytes;
use crate::row_replay::play_segment;
use crate::segment::{RowError, RowFault, RowReader, SegmentError};
use sqlite_disk::Disk;
use std::alloc::Global;
use std::sync::Wait;

/// Opens the files of segments.
pub(crate) trait SegmentFiles<D: Disk> {
    // what the file of the segment with this number may have
    ghost has: { Self → ℕ → List ℕ → Type 0 };

    /// Opens the file of the segment with this number. Nothing is written.
    fn open_file(&self, number: u64) -> Result<D, FolderError>
        ensures usable { IfOk result (λ file. IsTrue (D.Disk.is_usable file)) }
        ensures has { IfOk result (λ file. has self.now number (D.Disk.seen file)) };
}

/// The row that is to be read.
#[derive(Clone, Copy)]
pub(crate) struct WantedRow<'n> {
    /// The numbers of its files, in order.
    pub numbers: &'n [u64],
    pub head: Head,
}

/// A row that was read and played.
#[derive(Drop)]
pub(crate) struct ReadRow<D: Disk> {
    pub reader: RowReader<D>,
    pub records: u64,
    /// The file behind the newest segment, which hasn't begun.
    pub unbegun: Option<D>,
}

/// Reads the files of a row, each of which goes on where the one before it ends, and replays their records. Error: the
/// first file that isn't taken as the next segment, or the first record that can't be played.
pub(crate) fn read_row<T: Wait, D: Disk + Drop, F: SegmentFiles<D>, S: Plays, P: Progress>(
    rt: &T,
    alloc: Global,
    files: &F,
    wanted: WantedRow<'_>,
    player: &mut S,
    progress: &mut P,
) -> Result<ReadRow<D>, FolderError>
    requires some { 0 < length wanted.numbers.now }
    requires follow { FollowOn wanted.numbers.now }
    ensures reads { IfOk result (λ read. ReadsRow (F.has files.now) D.Disk.seen D.Disk.is_clean S.plays player.old player.new
        read.reader wanted.entry.numbers.now read.unbegun read.records) }
    ensures fits { IfOk result (λ read. IsHead (head_of (last_of read.reader))) }
{
    let numbers = wanted.numbers;
    let mut records = 0;
    let mut reader = oldest(alloc, files, numbers[0], wanted.head)?;
    if let Err(why) = play_segment(rt, alloc, player, &mut reader, &mut records, progress) {
        return Err(unplayed(numbers[0], records, why));
    }
    for k in 1..numbers.len() {
        let file = files.open_file(numbers[k])?;
        match reader.go_on(alloc, file) {
            Ok(_full) => {}
            Err((RowError::Segment(SegmentError::NotBegun), file)) if k + 1 == numbers.len() => {
                return Ok(ReadRow {
                    reader,
                    records,
                    unbegun: Some(file),
                });
            }
            Err((why, _file)) => return Err(refused(numbers[k], why)),
        }
        if let Err(why) = play_segment(rt, alloc, player, &mut reader, &mut records, progress) {
            return Err(unplayed(numbers[k], records, why));
        }
    }
    Ok(ReadRow {
        reader,
        records,
        unbegun: None,
    })
}

/// Reads the oldest file of a row.
fn oldest<D: Disk + Drop, F: SegmentFiles<D>>(
    alloc: Global,
    files: &F,
    number: u64,
    head: Head,
) -> Result<RowReader<D>, FolderError>
    ensures bears { IfOk result (λ reader. BindsAll (last_of reader)) }
    ensures knows { IfOk result (λ reader. IsTrue (D.Disk.is_clean (device_of (last_of reader))) → (head : SegmentHead) (contents : List (List ℕ))
        → Stands head contents (D.Disk.seen (device_of (last_of reader))) → Knows D.Disk.seen (last_of reader) contents) }
    ensures begun { IfOk result (λ reader. IsTrue (D.Disk.is_clean (device_of (last_of reader))) → IsUnbegun (D.Disk.seen (device_of (last_of reader))) → ⊥) }
    ensures number { IfOk result (λ reader. (head_of (last_of reader)).number ≡ number) }
    ensures has { IfOk result (λ reader. F.has files.now number (D.Disk.seen (device_of (last_of reader)))) }
    ensures fits { IfOk result (λ reader. IsHead (head_of (last_of reader))) }
{
    let file = files.open_file(number)?;
    match RowReader::first(alloc, file, number, &settings_bytes(head)) {
        Ok(reader) => Ok(reader),
        Err((RowError::Fault(RowFault::OtherSettings), _file)) => {
            Err(other_settings(alloc, files, number))
        }
        Err((why, _file)) => Err(refused(number, why)),
    }
}

/// A file that has other settings than those that are asked for: which.
fn other_settings<D: Disk + Drop, F: SegmentFiles<D>>(
    alloc: Global,
    files: &F,
    number: u64,
) -> FolderError {
    match head_of_file(alloc, files, number) {
        Ok(settings) => FolderError::OtherSettings { number, settings },
        Err(error) => error,
    }
}

/// A file that isn't taken as the next segment.
pub(crate) fn refused(number: u64, why: RowError) -> FolderError {
    FolderError::Refused { number, why }
}

fn unplayed(number: u64, record: u64, why: PlayFault) -> FolderError {
    FolderError::Unplayed {
        number,
        record,
        why,
    }
}
