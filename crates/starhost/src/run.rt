//! A run, on the tenants that it begins with.
ghost use Rattle.std.specs.Prelude.{◌≡◌};
ghost use Rattle.sb_wire.specs.Counts.{Summarizes};
ghost use Rattle.sb_wire.specs.Stream.{AnswersFresh, AnswersInput, EndsBy, MayFail, OnWriteFault, Streams};
ghost use Rattle.sb_words.specs.Requests as request;
ghost use Rattle.sb_words.specs.Within.{AreRun};
ghost use Rattle.sb_backup.specs.Outputs.{WritesOf};
ghost use Rattle.starhost.specs.Commands.{GoesFresh, TellsRun, status_of};
ghost use Rattle.starhost.specs.Reads.{Goes, Succeeds};
ghost use Rattle.sb_backup.specs.Bounds.{bound_of};

use crate::fault::{ProgramFault, tell_end, tell_fault};
use crate::part_faults::of_journal;
use crate::run_report::{Console, tell_run};
use crate::system::System;
use sb_backup::loaded_cell;
use sb_cell::Cell;
use sb_durable::{JournaledRun, run_journaled};
use sb_monitor::EventLog;
use sb_tenant::Bound;
use sb_wire::{Sink, Source, Summary, run_fresh, run_stream};
use sb_words::{Origin, Run, RunWords, Severity};
use std::alloc::Global;

/// Answers the lines of the input on the tenants that the run begins with, and tells how that went.
pub(crate) fn run<T: System, R: Source, W: Sink, E: Sink>(
    rt: &T,
    alloc: Global,
    asked: RunWords<'_>,
    reader: &mut R,
    writer: &mut W,
    errors: &mut Console<E>,
) -> u8
    requires { AreRun asked.run }
    ensures succeeds { result ≡ 0 → Succeeds R.remaining W.contents reader.old reader.new writer.old writer.new
        (request.run asked.entry.run (request.beginning_of asked.entry.origin)) }
    ensures goes { Goes R.fails R.remaining W.refuses W.contents E.refuses E.contents reader.old reader.new
        writer.old writer.new errors.old.is_terminal errors.old.sink errors.new.sink result
        (request.run asked.entry.run (request.beginning_of asked.entry.origin)) }
{
    let log = EventLog::new(rt, Severity::Info);
    match asked.origin {
        Origin::Fresh => run_new(alloc, asked.run, reader, writer, errors),
        Origin::Folder(path) => match loaded_cell(rt, alloc, &log, asked.run, Some(path)) {
            Ok(mut cell) => run_on(alloc, &mut cell, reader, writer, errors),
            Err(why) => tell_fault(alloc, ProgramFault::Backup(why), &mut errors.sink),
        },
        Origin::Journal(journal) => {
            let journaled = JournaledRun {
                run: asked.run,
                journal,
            };
            let ended = run_journaled(rt, alloc, &log, journaled, reader, writer);
            tell_end(alloc, of_journal(ended), &mut errors.sink)
        }
    }
}

/// Answers the lines of the input on new tenants, and tells how that went.
fn run_new<R: Source, W: Sink, E: Sink>(
    alloc: Global,
    asked: Run,
    reader: &mut R,
    writer: &mut W,
    errors: &mut Console<E>,
) -> u8
    requires { AreRun asked }
    ensures runs { result ≡ 0 → WritesOf R.remaining W.contents reader.old writer.old writer.new
        (AnswersFresh asked.tenants (bound_of asked)) }
    ensures goes { (ended : _) × (summary : _) × (result ≡ status_of ended)
        × GoesFresh R.fails R.remaining W.refuses W.contents asked.tenants (bound_of asked)
        reader.old reader.new writer.old writer.new ended summary
        × TellsRun E.refuses E.contents errors.old.is_terminal errors.old.sink errors.new.sink
        summary ended }
{
    let mut summary = Summary::new();
    let bound = Bound {
        considerations: asked.bound,
        work: asked.work,
    };
    let ended = run_fresh(alloc, asked.tenants, bound, reader, writer, &mut summary);
    tell_run(alloc, &summary, ended, errors)
}

/// Answers the lines of the input on a cell, and tells how that went.
fn run_on<R: Source, W: Sink, E: Sink>(
    alloc: Global,
    cell: &mut Cell,
    reader: &mut R,
    writer: &mut W,
    errors: &mut Console<E>,
) -> u8
    ensures runs { result ≡ 0 → WritesOf R.remaining W.contents reader.old writer.old writer.new
        (λ input text. AnswersInput cell.old input text cell.new) }
    ensures goes { (ended : _) × (summary : _) × (result ≡ status_of ended)
        × (s : Streams cell.old (R.remaining reader.old) (W.contents writer.old)
        cell.new (R.remaining reader.new) (W.contents writer.new))
        × EndsBy R.fails R.remaining reader.new s.seen s.pieces s.left ended
        × Summarizes s.pieces s.replies.text summary
        × OnWriteFault ended (MayFail W.refuses W.contents writer.new)
        × TellsRun E.refuses E.contents errors.old.is_terminal errors.old.sink errors.new.sink
        summary ended }
{
    let mut summary = Summary::new();
    let ended = run_stream(alloc, reader, writer, cell, &mut summary);
    tell_run(alloc, &summary, ended, errors)
}
