//! The records of a row of segments, played to what is new.
ghost use Rattle.std.specs.Prelude.{◌≡◌, ◌+◌, List, length, OnOk, IsTrue};
ghost use Rattle.sb_durable.specs.Journal.{all_of};
ghost use Rattle.sb_durable.specs.Records.{Entry};
ghost use Rattle.sb_durable.specs.Replays.{PlaysAll};
ghost use Rattle.sb_durable.specs.RowReaders.{StaysRead, last_of};
ghost use Rattle.sb_durable.specs.RowReplays.{AreRead};
ghost use Rattle.sb_durable.specs.Segment.{device_of};

use crate::replay::{PlayFault, Plays, Progress, play_batch};
use crate::segment::RowReader;
use sqlite_disk::Disk;
use std::alloc::Global;
use std::sync::Wait;

/// Replays the records of the segment that was read last, in order, and counts them. Error: why one can't be read or
/// played.
pub(crate) fn play_segment<T: Wait, S: Plays, D: Disk, P: Progress>(
    rt: &T,
    alloc: Global,
    player: &mut S,
    reader: &mut RowReader<D>,
    records: &mut u64,
    progress: &mut P,
) -> Result<(), PlayFault>
    ensures plays { OnOk result ((batches : List (List Entry)) × PlaysAll S.plays player.old (all_of batches) player.new
        × (records.new ≡ records.old + length (all_of batches))
        × AreRead D.Disk.seen (IsTrue (D.Disk.is_clean (device_of (last_of reader.new)))) (last_of reader.old) batches) }
    ensures same { StaysRead D.Disk.seen D.Disk.may_leave D.Disk.is_clean reader.old reader.new }
{
    let mut batch = Vec::new(alloc);
    let mut place = reader.first_place();
    for _ in rt.forever() {
        match reader.read(place, &mut batch) {
            Ok(Some(next)) => {
                play_batch(rt, alloc, player, records, &batch)?;
                place = next;
                progress.tell(*records, next.at as u64);
            }
            Ok(None) => return Ok(()),
            Err(error) => return Err(PlayFault::Segment(error)),
        }
    }
    unreachable!()
}
