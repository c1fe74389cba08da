//! A run whose steps are in a journal before they are answered.
ghost use Rattle.std.specs.Prelude.{◌≡◌, ◌⊎◌, ◌++◌, ℕ, List, [], false, is_some, IfOk, IfSome, OnOk, OnErr, IsTrue, Result};
ghost use Rattle.std.specs.Io.KnownBytes.{Appends, Consumes};
ghost use Rattle.sb_cell.specs.Tenants.{AnswersEvent, IsSame};
ghost use Rattle.sb_durable.specs.Journal.{disk_of};
ghost use Rattle.sb_wire.specs.Lines.{Piece as ItsPiece};
ghost use Rattle.sb_wire.specs.Responses.{StopsBy};
ghost use Rattle.sb_wire.specs.Seen.{addressed_seen};
ghost use Rattle.sb_wire.specs.Stream.{IsSeenInTime, MayFail, OnWriteFault};
ghost use Rattle.sb_durable.specs.Recorded.{Adds, IsRecordedAs, MayAdd, RespondsTo};
ghost use Rattle.sb_durable.specs.Restart.{Tells};
ghost use Rattle.sb_durable.specs.Runs.{AnswersRecorded, RunsRecorded, event_of, records_of};

use crate::entry_reader::ROLLBACK;
use crate::{Disk, Journal, JournalError, Record};
use sb_cell::{Cell, StepError};
use sb_tenant::{Answer, Reply};
use sb_value::Refusal;
use sb_wire::{
    Addressed, LINE_LIMIT, Piece, Prefix, Responder, Sink, Source, StreamError, WireRefusal,
    answer_stream, write_answer, write_refusal,
};
use std::alloc::{AllocError, Global};

/// The journal of a run, and why the run stops where a step can't be recorded.
pub struct Recording<D: Disk> {
    pub journal: Journal<D>,
    pub fault: Option<JournalError>,
}

impl<D: Disk + Drop> Drop for Recording<D> {
    fn drop(self) {
        let Self {
            journal: _,
            fault: _,
        } = self;
    }
}

impl<D: Disk> Recording<D> {
    /// Nothing has failed yet.
    pub fn new(journal: Journal<D>) -> Recording<D>
        ensures journal { result.journal ≡ journal }
        ensures goes { is_some result.fault ≡ false }
    {
        Recording {
            journal,
            fault: None,
        }
    }

    /// Records a line's step, and commits it.
    pub(crate) fn record(
        &mut self,
        line: Addressed<'_>,
        given: &Result<Answer, StepError>,
    ) -> Result<(), JournalError>
        ensures ok { OnOk result (Adds D.Disk.seen D.Disk.may_leave self.old.journal
            (records_of (event_of (addressed_seen line.entry), given.now)) self.new.journal) }
        ensures err { OnErr result (MayAdd D.Disk.seen D.Disk.may_leave self.old.journal
            (records_of (event_of (addressed_seen line.entry), given.now)) self.new.journal) }
        ensures fault { self.new.fault ≡ self.old.fault }
        ensures clean { IsTrue (D.Disk.is_clean (disk_of self.new.journal)) → IsTrue (D.Disk.is_clean (disk_of self.old.journal)) }
    {
        // for the proof: what a crash leaves before the call has all records
        self.journal.is_kept();
        let Some(text) = recorded_text(line.command, given) else {
            return Ok(());
        };
        let Ok(session) = u8::try_from(line.session) else {
            return Err(JournalError::Full);
        };
        if text.len() > LINE_LIMIT {
            return Err(JournalError::Full);
        }
        let record = Record {
            tenant: line.tenant,
            session,
            text,
        };
        self.journal.stage(record)?;
        self.journal.commit()
    }
}

/// The recorded text of a line's step. None if it was no step.
fn recorded_text<'l>(line: &'l [u8], given: &Result<Answer, StepError>) -> Option<&'l [u8]>
    ensures { (tenant session : ℕ) → IsRecordedAs (record { tenant = tenant; session = session; line = line.now }) given.now result }
{
    match given {
        Ok(answer) => match answer.number {
            Some(_) => match &answer.reply {
                Reply::No(Refusal::NoMemory) => Some(ROLLBACK),
                _ => Some(line),
            },
            None => None,
        },
        Err(_) => None,
    }
}

/// Makes the step of a line, and records it.
pub(crate) fn step<D: Disk>(
    alloc: Global,
    cell: &mut Cell,
    recording: &mut Recording<D>,
    line: Addressed<'_>,
) -> Result<Result<Answer, StepError>, JournalError>
    ensures made { (given : Result Answer StepError)
        × AnswersEvent cell.old line.entry.tenant line.entry.session line.entry.command.now given cell.new
        × OnErr result (MayAdd D.Disk.seen D.Disk.may_leave recording.old.journal
        (records_of (event_of (addressed_seen line.entry), given)) recording.new.journal)
        × IfOk result (λ told. (told ≡ given) × Adds D.Disk.seen D.Disk.may_leave recording.old.journal
        (records_of (event_of (addressed_seen line.entry), given)) recording.new.journal) }
    ensures same { IsSame cell.old cell.new }
    ensures fault { recording.new.fault ≡ recording.old.fault }
    ensures clean { IsTrue (D.Disk.is_clean (disk_of recording.new.journal)) → IsTrue (D.Disk.is_clean (disk_of recording.old.journal)) }
{
    let given = cell.step(alloc, line.tenant, line.session, line.command);
    match recording.record(line, &given) {
        Ok(()) => Ok(given),
        Err(error) => Err(error),
    }
}

/// Answers the lines of the input, each after its step is durable. A run that can't record a step stops there. Error: a
/// read or a write that failed, or out of memory.
pub fn run_recorded<R: Source, W: Sink, D: Disk>(
    alloc: Global,
    reader: &mut R,
    writer: &mut W,
    cell: &mut Cell,
    recording: &mut Recording<D>,
) -> Result<(), StreamError>
    requires { is_some recording.old.fault ≡ false }
    ensures goes { (seen : List ℕ) × (pieces : List ItsPiece) × (left : List ℕ)
        × Consumes (R.remaining reader.old) (R.remaining reader.new) seen × IsSeenInTime seen
        × StopsBy R.fails R.remaining reader.new (is_some recording.new.fault) seen pieces left result
        × (r : RunsRecorded cell.old cell.new pieces (W.contents writer.old) (W.contents writer.new) left
        (λ head. Tells D.Disk.seen D.Disk.may_leave recording.old.journal head cell.old)
        (D.Disk.may_leave (disk_of recording.new.journal)))
        × (is_some recording.new.fault ≡ false → (r.untold ≡ []) × (r.unanswered ≡ [])) }
    ensures refused { OnWriteFault result (MayFail W.refuses W.contents writer.new) }
    ensures ok { OnOk result (is_some recording.new.fault ≡ false → IfSome (R.remaining reader.old) (λ input. (text : List ℕ)
        × Appends (W.contents writer.old) (W.contents writer.new) text × AnswersRecorded cell.old input text cell.new)) }
{
    let ended = answer_stream(alloc, reader, writer, &RecordedLines, cell, recording);
    // for the proof: what a crash leaves of a journal has its records
    recording.journal.is_kept();
    ended
}

/// A responder whose lines are steps of a cell, recorded before they are answered.
struct RecordedLines;

impl<D: Disk> Responder<Cell, Recording<D>> for RecordedLines {
    ghost use Rattle.std.specs.Prelude.{is_some};
    ghost use Rattle.sb_durable.specs.Recorded.{Responds};

    ghost responds = { λ _. Responds D.Disk.seen D.Disk.may_leave };

    ghost over = { λ s. is_some s.1.fault };

    fn respond(
        &self,
        alloc: Global,
        piece: Piece<'_>,
        out: &mut Vec<u8>,
        first: &mut Cell,
        second: &mut Recording<D>,
    ) -> Result<(), AllocError> {
        match piece {
            Piece::TooLong => write_refusal(out, &Prefix::none(), WireRefusal::TooLong),
            Piece::Line(line) => match Addressed::split(line) {
                Some(addressed) => answer_line(alloc, addressed, out, first, second),
                None => write_refusal(out, &Prefix::none(), WireRefusal::BadLine),
            },
        }
    }

    fn is_over(&self, _first: &Cell, second: &Recording<D>) -> bool {
        second.fault.is_some()
    }
}

/// Makes the step of a line, and writes its answer after the step is durable.
fn answer_line<D: Disk>(
    alloc: Global,
    line: Addressed<'_>,
    out: &mut Vec<u8>,
    cell: &mut Cell,
    recording: &mut Recording<D>,
) -> Result<(), AllocError>
    requires { is_some recording.old.fault ≡ false }
    ensures { (text : List ℕ)
        × RespondsTo D.Disk.seen D.Disk.may_leave (cell.old, recording.old) (addressed_seen line.entry) text (cell.new, recording.new)
        × OnOk result (out.new.items ≡ out.old.items ++ text)
        × OnErr result (out.new.items ≡ out.old.items) }
{
    match step(alloc, cell, recording, line) {
        Ok(given) => write_answer(out, &Prefix::new(line.tenant, line.session), &given),
        Err(error) => {
            recording.fault = Some(error);
            Ok(())
        }
    }
}
