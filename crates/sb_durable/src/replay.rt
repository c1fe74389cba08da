//! A journal's records, played to what is new.
ghost use Rattle.std.specs.Prelude.{◌≡◌, ◌+◌, ◌≤◌, List, [], length, IfOk, OnOk, IsTrue};
ghost use Rattle.sb_durable.specs.Journal.{Has, disk_of};
ghost use Rattle.sb_durable.specs.Records.{Entry, bytes_of, entry_of};
ghost use Rattle.sb_durable.specs.declared.journal_header.Head.{Head};
ghost use Rattle.sb_durable.specs.Replays.{LeavesPlayed, PlaysAll};
ghost use Rattle.sb_durable.specs.Restart.{AreRecords};

use crate::record_player::Player;
use crate::segment::SegmentError;
use crate::{Disk, Journal, JournalError, Record, RecordedReach, first_record};
use sb_backup::RenewalFault;
use sb_desk::{AttachError, Stub};
use sb_host::Renewing;
use sb_tenant::Bound;
use std::alloc::Global;
use std::sync::Wait;
use std::{fmt, str};
use thiserror::Error;

/// Receives the progress of a replay.
pub trait Progress {
    /// So many records were replayed, and so many bytes of the file were read.
    fn tell(&mut self, records: u64, bytes: u64);
}

/// The result of a replay.
#[derive(Drop)]
pub struct Played {
    /// The receipts of each tenant's newest trail: of its opening, and of all sessions, which are closed.
    pub stubs: Vec<Stub>,
    pub records: u64,
    /// The reach of each tenant: all is recorded but the `end` of sessions that the replay closed.
    pub recorded: Vec<RecordedReach>,
}

/// Why a record can't be replayed.
#[derive(Clone, Copy, Error)]
pub enum PlayFault {
    #[error("{0}")]
    Journal(JournalError),
    #[error("{0}")]
    Segment(SegmentError),
    /// Its bytes are no record.
    #[error("it is damaged")]
    NoRecord,
    #[error("the tenant isn't there")]
    NoTenant,
    #[error("a tenant has no session of this number")]
    NoSession,
    /// Its session isn't open.
    #[error("its session isn't open")]
    NotOpen,
    #[error("its session can't be opened")]
    Refused(AttachError),
    #[error("there is no memory for it")]
    NoMemory,
    #[error("the tenant's trail is full")]
    TrailFull,
    /// A renewal, while a session of its tenant is open.
    #[error("a session of the tenant is open")]
    NotClosed,
    #[error("the tenant isn't renewed: {}", reason_of(.0))]
    NotRenewed(RenewalFault),
}

impl fmt::Debug for PlayFault {
    fn fmt<W: fmt::Write>(&self, f: &mut fmt::Formatter<W>) -> fmt::Result {
        fmt::Display::fmt(self, f)
    }
}

/// The reason as a part of a sentence.
fn reason_of(why: &RenewalFault) -> &'static str {
    str::from_utf8(why.reason()).unwrap_or("its reason is no text")
}

/// Why a journal can't be replayed, and the number of the record, from 1.
#[derive(Clone, Copy, Debug, Error)]
#[error("record {record}: {why}")]
pub struct PlayError {
    pub record: u64,
    pub why: PlayFault,
}

/// Replays the records of a journal on a new host with this bound, and ends the sessions that are open then. Error: why a
/// record can't be read or played.
pub fn play<T: Wait, H: Renewing, D: Disk, P: Progress>(
    rt: &T,
    alloc: Global,
    host: H,
    bound: Bound,
    journal: &mut Journal<D>,
    progress: &mut P,
) -> Result<Played, PlayError>
    requires { bound.considerations ≤ 1000 }
    ensures plays { IfOk result (λ left. (played : List Entry)
        × LeavesPlayed (H.tenants host) played left.stubs.items left.recorded.items × (left.records ≡ length played)
        × (IsTrue (D.Disk.is_clean (disk_of journal.new)) → (head : Head) (records : List Entry)
        → Has D.Disk.seen D.Disk.may_leave journal.old head records [] → AreRecords records
        → (played ≡ records) × Has D.Disk.seen D.Disk.may_leave journal.new head records [])) }
{
    let Ok(mut player) = Player::new(alloc, host, bound) else {
        return Err(PlayError {
            record: 1,
            why: PlayFault::NoMemory,
        });
    };
    let records = match play_all(rt, alloc, &mut player, journal, progress) {
        Ok(records) => records,
        Err(error) => return Err(error),
    };
    match player.end_all(rt) {
        Ok(left) => Ok(Played {
            stubs: left.0,
            records,
            recorded: left.1,
        }),
        Err(_) => Err(PlayError {
            record: records,
            why: PlayFault::NoMemory,
        }),
    }
}

/// A target of a replay.
pub(crate) trait Plays {
    // what one record makes of it
    ghost plays: { Self → Entry → Self → Type 0 };

    /// Replays a record.
    fn play<T: Wait>(&mut self, rt: &T, alloc: Global, line: Record) -> Result<(), PlayFault>
        ensures { OnOk result (plays self.old (entry_of line.entry) self.new) };
}

/// Replays all records of a journal, in order. Returns their number.
pub(crate) fn play_all<T: Wait, S: Plays, D: Disk, P: Progress>(
    rt: &T,
    alloc: Global,
    player: &mut S,
    journal: &mut Journal<D>,
    progress: &mut P,
) -> Result<u64, PlayError>
    ensures { IfOk result (λ count. (played : List Entry) × PlaysAll S.plays player.old played player.new
        × (count ≡ length played) × (IsTrue (D.Disk.is_clean (disk_of journal.new)) → (head : Head) (records : List Entry)
        → Has D.Disk.seen D.Disk.may_leave journal.old head records [] → AreRecords records
        → (played ≡ records) × Has D.Disk.seen D.Disk.may_leave journal.new head records [])) }
{
    let mut records = 0;
    let mut batch = Vec::new(alloc);
    let mut place = journal.first_place();
    for _ in rt.forever() {
        match journal.read(place, &mut batch) {
            Ok(Some(next)) => {
                if let Err(why) = play_batch(rt, alloc, player, &mut records, &batch) {
                    return Err(PlayError {
                        record: records,
                        why,
                    });
                }
                place = next;
                progress.tell(records, next as u64);
            }
            Ok(None) => return Ok(records),
            Err(error) => {
                return Err(PlayError {
                    record: records,
                    why: PlayFault::Journal(error),
                });
            }
        }
    }
    unreachable!()
}

/// Replays a batch of records, and counts them.
pub(crate) fn play_batch<T: Wait, S: Plays>(
    rt: &T,
    alloc: Global,
    player: &mut S,
    records: &mut u64,
    batch: &[u8],
) -> Result<(), PlayFault>
    ensures { OnOk result ((played : List Entry) × PlaysAll S.plays player.old played player.new
        × (records.new ≡ records.old + length played) × ((entries : List Entry) → AreRecords entries → batch.now ≡ bytes_of entries → played ≡ entries)
        × (batch.now ≡ bytes_of played)) }
{
    let mut left = batch;
    while !left.is_empty() {
        let Some((line, behind)) = first_record(left) else {
            return Err(PlayFault::NoRecord);
        };
        let Some(number) = records.checked_add(1) else {
            return Err(PlayFault::Journal(JournalError::Full));
        };
        *records = number;
        player.play(rt, alloc, line)?;
        left = behind;
    }
    Ok(())
}
