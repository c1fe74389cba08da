//! A run whose lines are in a journal before they are answered.
ghost use Rattle.std.specs.Prelude.{◌≡◌, ◌⊎◌, [], Err, List, false, is_ok, is_some, true, IfErr, IfOk, IsTrue, OnErr, OnOk};
ghost use Rattle.sb_durable.specs.Journal.{Has, disk_of};
ghost use Rattle.sb_durable.specs.Records.{Entry};
ghost use Rattle.sb_durable.specs.Restart.{AreRecords, Tells};
ghost use Rattle.sb_durable.specs.declared.journal_header.Head.{Head as ItsHead};
ghost use Rattle.sb_durable.specs.JournaledRuns.{AnswersJournaled, EndsJournaled, IsBegun, RunsJournaled};
ghost use Rattle.sb_durable.specs.declared.journal_fault.JournalFault.TheVariants as fault;
ghost use Rattle.sb_wire.specs.declared.fault.StreamError.{StreamError as ItsStreamError};
ghost use Rattle.sb_backup.specs.Outputs.{WritesOf};
ghost use Rattle.sb_words.specs.Within.{AreRun};
ghost use Rattle.sb_backup.specs.Bounds.{bound_of};

use crate::flusher::Flusher;
use crate::journal_fault::JournalFault;
use crate::log_lines::{tell_no_journal, tell_not_recorded};
use crate::playing::{Playing, syncing_of};
use crate::{Disk, Head, PlayError, PlayFault, Recording, open_path, restart, run_recorded};
use sb_cell::{Cell, ample_buckets};
use sb_tenant::Bound;
use sb_wire::{Sink, Source, StreamError};
use sb_words::{JournalWords, Log, Run, Syncs};
use std::alloc::Global;
use std::fs::File;
use std::rt::{Clock, Files};
use std::sync::Wait;

/// A run on the tenants of a journal.
#[derive(Clone, Copy)]
pub struct JournaledRun<'p> {
    pub run: Run,
    pub journal: JournalWords<'p>,
}

/// Replays a journal, and answers the lines of the input on its tenants. Error: the journal can't be opened or played, a
/// line couldn't be recorded, or a stream failed.
pub fn run_journaled<T: Wait + Clock + Files<File = File>, O: Log, R: Source, W: Sink>(
    rt: &T,
    alloc: Global,
    log: &O,
    asked: JournaledRun<'_>,
    reader: &mut R,
    writer: &mut W,
) -> Result<(), JournalFault>
    requires { AreRun asked.run }
    ensures ok { OnOk result (WritesOf R.remaining W.contents reader.old writer.old writer.new
        (AnswersJournaled asked.entry.run.tenants (bound_of asked.entry.run))) }
    ensures err { IfErr result (EndsJournaled R.fails R.remaining W.contents reader.old reader.new
        writer.old writer.new asked.entry.run.tenants (bound_of asked.entry.run)) }
{
    let JournaledRun {
        run,
        journal: words,
    } = asked;
    let path = words.path;
    let bound = Bound {
        considerations: run.bound,
        work: run.work,
    };
    let head = Head::new(run.tenants, bound);
    match open_path(rt, alloc, path, syncing_of(words.syncs), head) {
        Ok(journal) => {
            let mut recording = Recording::new(journal);
            let mut playing = Playing::new(rt, log);
            match run_on(rt, alloc, run, &mut recording, &mut playing, reader, writer) {
                Ok(ended) => match is_settled(rt, path, words.syncs, log) {
                    true => end_by(log, &recording, ended),
                    false => Err(JournalFault::Failed),
                },
                Err(error) => {
                    tell_no_journal(log, path, &error);
                    Err(JournalFault::CannotOpen)
                }
            }
        }
        Err(error) => {
            tell_no_journal(log, path, &error);
            Err(JournalFault::CannotOpen)
        }
    }
}

/// Replays a journal, and answers the lines of the input on its tenants. Returns how the stream of lines ended.
fn run_on<T: Wait + Clock, O: Log, D: Disk, R: Source, W: Sink>(
    rt: &T,
    alloc: Global,
    asked: Run,
    recording: &mut Recording<D>,
    playing: &mut Playing<'_, '_, T, O>,
    reader: &mut R,
    writer: &mut W,
) -> Result<Result<(), StreamError>, PlayError>
    requires run { AreRun asked }
    requires goes { is_some recording.old.fault ≡ false }
    ensures runs { IfOk result (RunsJournaled R.fails R.remaining W.contents reader.old reader.new
        writer.old writer.new D.Disk asked.tenants (bound_of asked) recording.old recording.new) }
    ensures answers { IfOk result (λ ended. OnOk ended (is_some recording.new.fault ≡ false
        → WritesOf R.remaining W.contents reader.old writer.old writer.new
        (AnswersJournaled asked.tenants (bound_of asked)))) }
    ensures err { OnErr result ((reader.new ≡ reader.old) × (writer.new ≡ writer.old)) }
{
    match restarted_cell(rt, alloc, asked, recording, playing) {
        Ok(mut cell) => Ok(run_recorded(alloc, reader, writer, &mut cell, recording)),
        Err(error) => Err(error),
    }
}

/// A cell as the records of a journal make it.
fn restarted_cell<T: Wait + Clock, O: Log, D: Disk>(
    rt: &T,
    alloc: Global,
    asked: Run,
    recording: &mut Recording<D>,
    playing: &mut Playing<'_, '_, T, O>,
) -> Result<Cell, PlayError>
    requires run { AreRun asked }
    requires goes { is_some recording.old.fault ≡ false }
    ensures cell { IfOk result (λ cell. (records : List Entry) × IsBegun asked.tenants (bound_of asked) records cell
        × (IsTrue (D.Disk.is_clean (disk_of recording.new.journal)) → (head : ItsHead) (there : List Entry)
        → Has D.Disk.seen D.Disk.may_leave recording.old.journal head there [] → AreRecords there
        → (records ≡ there) × Tells D.Disk.seen D.Disk.may_leave recording.new.journal head cell)) }
    ensures goes { is_some recording.new.fault ≡ false }
{
    let buckets = ample_buckets(asked.tenants);
    let bound = Bound {
        considerations: asked.bound,
        work: asked.work,
    };
    let Ok(mut cell) = Cell::with_buckets(alloc, 0, 1, asked.tenants, bound, buckets) else {
        return Err(PlayError {
            record: 1,
            why: PlayFault::NoMemory,
        });
    };
    match restart(rt, alloc, asked.tenants, &mut cell, recording, playing) {
        Ok(_) => Ok(cell),
        Err(error) => Err(error),
    }
}

/// Syncs the journal at the end, if it has to be. False if that fails, which is logged.
fn is_settled<T: Wait + Files<File = File>, O: Log>(
    rt: &T,
    path: &str,
    syncs: Syncs,
    log: &O,
) -> bool {
    let Syncs::Second = syncs else {
        return true;
    };
    match Flusher::open(rt, path, log) {
        Ok(flusher) => flusher.flush(rt),
        Err(error) => {
            tell_not_recorded(log, &error);
            false
        }
    }
}

/// A run's end: by the journal's fault, if it has one, and else as its stream ended.
fn end_by<O: Log, D: Disk>(
    log: &O,
    recording: &Recording<D>,
    ended: Result<(), StreamError>,
) -> Result<(), JournalFault>
    ensures ok { OnOk result ((is_ok ended ≡ true) × (is_some recording.now.fault ≡ false)) }
    ensures err { IfErr result (λ why. ((is_some recording.now.fault ≡ true) × (why ≡ fault.Failed))
        ⊎ ((is_some recording.now.fault ≡ false) × ((e : ItsStreamError) × (ended ≡ Err e) × (why ≡ fault.Stream e)))) }
{
    if let Some(error) = recording.fault {
        tell_not_recorded(log, &error);
        return Err(JournalFault::Failed);
    }
    match ended {
        Ok(()) => Ok(()),
        Err(error) => Err(JournalFault::Stream(error)),
    }
}
