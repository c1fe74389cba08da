//! What a command line is answered.
ghost use Rattle.std.specs.Prelude.{◌≡◌, ◌≤◌, ◌⊎◌, IfSome, List, None, Option, Some, ℕ, length, map};
ghost use Rattle.sb_wire.specs.Faults.{fault_line};
ghost use Rattle.sb_wire.specs.Stream.{AnswersFresh};
ghost use Rattle.sb_backup.specs.Dumps.{DumpsInput, HaveScripts};
ghost use Rattle.sb_backup.specs.Loads.{AnswersLoaded};
ghost use Rattle.sb_backup.specs.Outputs.{Writes, WritesOf};
ghost use Rattle.sb_durable.specs.JournaledRuns.{AnswersJournaled};
ghost use Rattle.sb_keys.specs.KeyDigests.{TellsDigest};
ghost use Rattle.sb_replay.specs.Replay.{Replays};
ghost use Rattle.sb_words.specs.Refusals.{misplaced_text, refusal_text};
ghost use Rattle.sb_words.specs.Requests as request;
ghost use Rattle.sb_words.specs.Requests.{Beginning, Request, request_of, text_of};
ghost use Rattle.sb_words.specs.Within.{AreDump, IsWithin};
ghost use Rattle.sb_words.specs.Words.{AskFor, AskForHelp, AskForVersion, HasFault, HaveMisplaced, HaveUnfit};
ghost use Rattle.sb_words.specs.declared.argument.Unfit.{Unfit as ItsUnfit};
ghost use Rattle.sb_words.specs.declared.invocation.Dumping.{Dumping as ItsDumping};
ghost use Rattle.sb_words.specs.declared.invocation.HostOptions.{HostOptions as ItsHostOptions};
ghost use Rattle.sb_words.specs.declared.invocation.Run.{Run as ItsRun};
ghost use Rattle.sb_words.specs.declared.invocation.ServerOptions.{ServerOptions as ItsServerOptions};
ghost use Rattle.sb_words.specs.declared.syncs.Syncs.{Syncs as ItsSyncs};
ghost use Rattle.starhost.specs.Commands.{Shows, Tells};
ghost use Rattle.starhost.specs.Parses.{TellsLines};
ghost use Rattle.starhost.specs.Reads.{Goes, Succeeds};
ghost use Rattle.starhost.specs.Totals.{TellsServer};
ghost use Rattle.sb_backup.specs.Bounds.{bound_of};

use crate::fault::tell_end;
use crate::journal_check::check;
use crate::parse::parse_lines;
use crate::part_faults::{of_backup, of_digest, of_journal};
use crate::refusal_lines::{refuse, refuse_misplaced, refuse_part, show, show_help};
use crate::replay::replay;
use crate::run::run;
use crate::run_report::{Console, fault, tell_stream_end};
use crate::server::serve;
use crate::system::System;
use sb_backup::{dump_all, dump_tenant};
use sb_durable::compact;
use sb_keys::tell_digest;
use sb_monitor::EventLog;
use sb_wire::{Sink, Source, StreamError};
use sb_words::{Asked, DumpWords, Invocation, Severity, VERSION, read_words, words_ask_once};
use std::alloc::Global;
use std::convert::AsStr;

/// Does what the program's words ask for, and gives its status.
pub fn command<T: System + Sync, S: AsStr, R: Source, W: Sink, E: Sink>(
    rt: &T,
    alloc: Global,
    words: &[S],
    reader: &mut R,
    writer: &mut W,
    errors: &mut Console<E>,
) -> u8
    // with status 0, words that ask for a run have the definition's text for the input
    ensures runs { (r : ItsRun) → AskFor (map S.text words.now) (request.run r request.fresh)
        → result ≡ 0 → WritesOf R.remaining W.contents reader.old writer.old writer.new
        (AnswersFresh r.tenants (bound_of r)) }
    ensures usual { length words.now ≤ 1 → result ≡ 0 →
        WritesOf R.remaining W.contents reader.old writer.old writer.new
        (AnswersFresh 16 (record { considerations = 1000; work = None })) }
    // and words that ask for a run on files what it is answered on tenants that scripts made
    ensures loads { (r : ItsRun) (path : List ℕ) → AskFor (map S.text words.now) (request.run r (request.folder path))
        → result ≡ 0 → WritesOf R.remaining W.contents reader.old writer.old writer.new
        (AnswersLoaded r.tenants (bound_of r)) }
    // and words that ask for a run with a journal what it is answered on tenants that a journal made
    ensures records { (r : ItsRun) (path : List ℕ) (syncs : ItsSyncs)
        → AskFor (map S.text words.now) (request.run r (request.journal path syncs))
        → result ≡ 0 → WritesOf R.remaining W.contents reader.old writer.old writer.new
        (AnswersJournaled r.tenants (bound_of r)) }
    // and words that ask for a server, whatever it begins with, its port and its trails
    ensures serves { (s : ItsServerOptions) (begins : Beginning) (dump_to keys : Option (List ℕ))
        → AskFor (map S.text words.now) (request.serve s begins dump_to keys)
        → result ≡ 0 → Writes W.contents writer.old writer.new
        (TellsServer (bound_of s.hosting.run) s.hosting.run.tenants) }
    // and words that ask for a replay what the sessions of the input were answered
    ensures replays { (h : ItsHostOptions) → AskFor (map S.text words.now) (request.replay h)
        → result ≡ 0 → WritesOf R.remaining W.contents reader.old writer.old writer.new
        (Replays h.run.tenants (bound_of h.run)) }
    // and words that ask for it which lines of the input are commands
    ensures parses { AskFor (map S.text words.now) request.parse
        → result ≡ 0 → WritesOf R.remaining W.contents reader.old writer.old writer.new TellsLines }
    // and words that ask for a dump the script of a tenant, as the input leaves it
    ensures dumps { (d : ItsDumping) → AskFor (map S.text words.now) (request.dump d None)
        → result ≡ 0 → WritesOf R.remaining W.contents reader.old writer.old writer.new
        (DumpsInput d.run.tenants (bound_of d.run) d.tenant) }
    // and words that ask for a dump of all nothing, where each tenant has a script as the input leaves it
    ensures dumps_all { (d : ItsDumping) (path : List ℕ) → AskFor (map S.text words.now) (request.dump d (Some path))
        → result ≡ 0 → (writer.new ≡ writer.old)
        × IfSome (R.remaining reader.old) (HaveScripts d.run.tenants (bound_of d.run)) }
    // and words that ask for it the digest of the key that the input's first line is
    ensures digests { AskFor (map S.text words.now) request.key
        → result ≡ 0 → TellsDigest (R.remaining reader.old) (R.remaining reader.new)
        (W.contents writer.old) (W.contents writer.new) }
    // whatever the status: of a run how its stream went; of a server, a replay or a dump the fault that it ended with, and
    // why; how the stream of lines went of which it is told whether they are commands; some help, and the version, as they
    // are asked for; words with a fault; the first part that isn't allowed, and the first option in front of a command,
    // each by its line; and want of memory
    ensures asked { ((q : Request) × AskFor (map S.text words.now) q
        × Goes R.fails R.remaining W.refuses W.contents E.refuses E.contents reader.old reader.new
        writer.old writer.new errors.old.is_terminal errors.old.sink errors.new.sink result q)
        ⊎ (AskForHelp (map S.text words.now) × (reader.new ≡ reader.old)
        × ((text : List ℕ) × Shows W.refuses W.contents E.refuses E.contents text writer.old writer.new
        errors.old.sink errors.new.sink result))
        ⊎ (AskForVersion (map S.text words.now) × (reader.new ≡ reader.old)
        × Shows W.refuses W.contents E.refuses E.contents VERSION.now writer.old writer.new
        errors.old.sink errors.new.sink result)
        ⊎ (HasFault (map S.text words.now) × (result ≡ 2) × (reader.new ≡ reader.old)
        × (writer.new ≡ writer.old))
        ⊎ ((u : ItsUnfit) × HaveUnfit (map S.text words.now) u × (result ≡ 2)
        × (reader.new ≡ reader.old) × (writer.new ≡ writer.old)
        × Tells E.refuses E.contents errors.old.sink errors.new.sink (refusal_text u))
        ⊎ ((u : ItsUnfit) × HaveMisplaced (map S.text words.now) u × (result ≡ 2)
        × (reader.new ≡ reader.old) × (writer.new ≡ writer.old)
        × Tells E.refuses E.contents errors.old.sink errors.new.sink (misplaced_text u))
        ⊎ ((result ≡ 1) × (reader.new ≡ reader.old) × (writer.new ≡ writer.old)
        × Tells E.refuses E.contents errors.old.sink errors.new.sink
        (fault_line StreamError.NoMemory)) }
{
    // for the proof: words ask for one thing
    words_ask_once();
    match read_words(alloc, words) {
        Ok(Asked::For(asked)) => answer(rt, alloc, asked, reader, writer, errors),
        Ok(Asked::Help(help)) => show_help(alloc, &help, writer, &mut errors.sink),
        Ok(Asked::Version) => show(VERSION, writer, &mut errors.sink),
        Ok(Asked::Refused(error)) => refuse(alloc, &error, &mut errors.sink),
        Ok(Asked::NotAllowed(unfit)) => refuse_part(alloc, unfit, &mut errors.sink),
        Ok(Asked::Misplaced(unfit)) => refuse_misplaced(alloc, unfit, &mut errors.sink),
        Err(_) => fault(StreamError::NoMemory, &mut errors.sink),
    }
}

/// Does what is asked for, and gives the status.
fn answer<T: System + Sync, R: Source, W: Sink, E: Sink>(
    rt: &T,
    alloc: Global,
    wanted: Invocation<'_>,
    reader: &mut R,
    writer: &mut W,
    errors: &mut Console<E>,
) -> u8
    requires { IsWithin wanted }
    ensures succeeds { result ≡ 0 → Succeeds R.remaining W.contents reader.old reader.new
        writer.old writer.new (request_of wanted.entry) }
    ensures goes { Goes R.fails R.remaining W.refuses W.contents E.refuses E.contents reader.old reader.new
        writer.old writer.new errors.old.is_terminal errors.old.sink errors.new.sink result (request_of wanted.entry) }
{
    match wanted {
        Invocation::Run(asked) => run(rt, alloc, asked, reader, writer, errors),
        Invocation::Serve(asked) => {
            let ended = serve(rt, alloc, asked, writer);
            tell_end(alloc, ended, &mut errors.sink)
        }
        Invocation::Replay(asked) => {
            let ended = replay(rt, alloc, asked, reader, writer);
            tell_end(alloc, ended, &mut errors.sink)
        }
        Invocation::Parse => {
            let ended = parse_lines(alloc, reader, writer);
            tell_stream_end(ended, &mut errors.sink)
        }
        Invocation::Dump(asked) => dump(rt, alloc, asked, reader, writer, errors),
        Invocation::Compact(asked) => {
            let log = EventLog::new(rt, Severity::Info);
            let ended = compact(rt, alloc, &log, asked);
            tell_end(alloc, of_journal(ended), &mut errors.sink)
        }
        Invocation::Check(folder) => {
            let ended = check(rt, alloc, folder, writer);
            tell_end(alloc, ended, &mut errors.sink)
        }
        Invocation::Key => {
            let ended = tell_digest(alloc, reader, writer);
            tell_end(alloc, of_digest(ended), &mut errors.sink)
        }
    }
}

/// Writes the script of one tenant, or those of all to files, and tells how that went.
fn dump<T: System, R: Source, W: Sink, E: Sink>(
    rt: &T,
    alloc: Global,
    asked: DumpWords<'_>,
    reader: &mut R,
    writer: &mut W,
    errors: &mut Console<E>,
) -> u8
    requires { AreDump asked.dump }
    ensures succeeds { result ≡ 0 → Succeeds R.remaining W.contents reader.old reader.new
        writer.old writer.new (request.dump asked.entry.dump (text_of asked.entry.into)) }
    ensures goes { Goes R.fails R.remaining W.refuses W.contents E.refuses E.contents reader.old reader.new
        writer.old writer.new errors.old.is_terminal errors.old.sink errors.new.sink result
        (request.dump asked.entry.dump (text_of asked.entry.into)) }
{
    match asked.into {
        None => {
            let ended = dump_tenant(alloc, asked.dump, reader, writer);
            tell_end(alloc, of_backup(ended), &mut errors.sink)
        }
        Some(path) => {
            let log = EventLog::new(rt, Severity::Info);
            let ended = dump_all(rt, alloc, &log, asked.dump.run, Some(path), reader);
            tell_end(alloc, of_backup(ended), &mut errors.sink)
        }
    }
}
