//! A stream: the lines of an input, each answered when it is complete.
ghost use Rattle.std.specs.Prelude.{◌≡◌, ◌++◌, ◌∷◌, ◌≢◌, ◌<◌, List, ℕ, [], false, length, OnOk, OnErr, IfOk, IfErr};
ghost use Rattle.std.specs.Io.{ReadsAtMost};
ghost use Rattle.std.specs.Io.KnownBytes.{Appends, Keeps, ReadConsumes};
ghost use Rattle.sb_wire.specs.Lines.{last_piece};
ghost use Rattle.sb_wire.specs.Responses.{AnswersBytes, AnswersLines, AnswersStream, StopsBy};
ghost use Rattle.sb_wire.specs.Seen.{piece_seen};
ghost use Rattle.sb_wire.specs.Stream.{MayFail, OnWriteFault};

use crate::ends::{Sink, Source};
use crate::fault::StreamError;
use crate::input::{Lines, Piece};
use crate::responder::Responder;
use crate::tries::Tries;
use std::alloc::Global;

/// The most bytes that a read gives. So many bytes of replies are written at once.
const PIECE_SIZE: usize = 65_536;

/// The most reads of a stream.
const MOST_READS: u64 = 1 << 32;

/// What stands between two reads: the line that is open, and the replies that wait to be written.
struct Pending {
    lines: Lines,
    out: Vec<u8>,
}

impl Drop for Pending {
    fn drop(self) {
        let Self { lines: _, out: _ } = self;
    }
}

/// Answers each line of the input when it is complete, until the stream is over, and writes the replies before it reads
/// on. Error: a read or a write failed, or out of memory.
pub fn answer_stream<S, T, A: Responder<S, T>, R: Source, W: Sink>(
    alloc: Global,
    reader: &mut R,
    writer: &mut W,
    responder: &A,
    first: &mut S,
    second: &mut T,
) -> Result<(), StreamError>
    requires { A.over (first.old, second.old) ≡ false }
    ensures goes { (s : AnswersStream (A.responds responder.now) A.over (first.old, second.old)
        (R.remaining reader.old) (W.contents writer.old)
        (first.new, second.new) (R.remaining reader.new) (W.contents writer.new))
        × StopsBy R.fails R.remaining reader.new (A.over (first.new, second.new)) s.seen s.pieces s.left result }
    ensures refused { OnWriteFault result (MayFail W.refuses W.contents writer.new) }
{
    let Ok(mut buffer) = vec![in alloc; 0u8; PIECE_SIZE] else {
        return Err(StreamError::NoMemory);
    };
    let lines = Lines::new();
    let out = Vec::new(alloc);
    let mut pending = Pending { lines, out };
    for _read in 0..MOST_READS {
        let count = read_piece(reader, buffer.as_mut_slice())?;
        if count == 0 {
            return answer_last(&mut pending, responder, first, second, writer);
        }
        let bytes = &buffer.as_slice()[..count];
        answer_bytes(bytes, responder, first, second, &mut pending, writer)?;
        if responder.is_over(first, second) {
            return Ok(());
        }
    }
    Err(StreamError::ReadFault)
}

/// Reads as `read_some` does.
fn read_piece<R: Source>(reader: &mut R, buf: &mut [u8]) -> Result<usize, StreamError>
    ensures bound { ReadsAtMost result buf.new }
    ensures bytes { ReadConsumes (R.remaining reader.old) (R.remaining reader.new) result buf.new }
    ensures fails { OnErr result (MayFail R.fails R.remaining reader.new) }
    ensures fault { IfErr result (λ e. e ≡ StreamError.ReadFault) }
{
    let mut tries = Tries::new();
    loop {
        match reader.read_some(buf) {
            Ok(count) => return Ok(count),
            Err(error) if tries.again(&error) => {}
            Err(_) => return Err(StreamError::ReadFault),
        }
    }
}

/// Answers the line that stands open at the end.
fn answer_last<S, T, A: Responder<S, T>, W: Sink>(
    pending: &mut Pending,
    responder: &A,
    first: &mut S,
    second: &mut T,
    writer: &mut W,
) -> Result<(), StreamError>
    requires { A.over (first.old, second.old) ≡ false }
    ensures refused { OnWriteFault result (MayFail W.refuses W.contents writer.new) }
    ensures reads { IfErr result (λ e. e ≢ StreamError.ReadFault) }
    ensures replies { (left : List ℕ)
        × AnswersLines (A.responds responder.now) A.over (first.old, second.old) (W.contents writer.old)
        pending.old.out.items (last_piece pending.old.lines) (first.new, second.new) (W.contents writer.new) left
        × OnOk result (left ≡ []) }
{
    let Some(piece) = pending.lines.finish() else {
        return write_out(writer, &mut pending.out);
    };
    answer_next(piece, responder, first, second, &mut pending.out, writer)?;
    write_out(writer, &mut pending.out)
}

/// Answers the lines that these bytes complete, until the stream is over, and writes the replies.
fn answer_bytes<S, T, A: Responder<S, T>, W: Sink>(
    bytes: &[u8],
    responder: &A,
    first: &mut S,
    second: &mut T,
    pending: &mut Pending,
    writer: &mut W,
) -> Result<(), StreamError>
    requires { A.over (first.old, second.old) ≡ false }
    ensures takes { (left : List ℕ)
        × (t : AnswersBytes (A.responds responder.now) A.over (first.old, second.old) (W.contents writer.old)
        pending.old.out.items pending.old.lines bytes.now (first.new, second.new) (W.contents writer.new) left)
        × OnOk result ((left ≡ []) × (pending.new.out.items ≡ [])
        × (A.over (first.new, second.new) ≡ false → (t.ahead ≡ []) × (t.opened ≡ pending.new.lines))) }
    ensures refused { OnWriteFault result (MayFail W.refuses W.contents writer.new) }
    ensures reads { IfErr result (λ e. e ≢ StreamError.ReadFault) }
{
    let mut rest = bytes;
    while !rest.is_empty() {
        let behind = answer_first(rest, responder, first, second, pending, writer)?;
        if responder.is_over(first, second) {
            return write_out(writer, &mut pending.out);
        }
        rest = behind;
    }
    write_out(writer, &mut pending.out)
}

/// Answers the first line that these bytes complete, and gives those behind it. Without such a line all are kept.
fn answer_first<'a, S, T, A: Responder<S, T>, W: Sink>(
    bytes: &'a [u8],
    responder: &A,
    first: &mut S,
    second: &mut T,
    pending: &mut Pending,
    writer: &mut W,
) -> Result<&'a [u8], StreamError>
    requires { A.over (first.old, second.old) ≡ false }
    ensures takes { (left : List ℕ)
        × (t : AnswersBytes (A.responds responder.now) A.over (first.old, second.old) (W.contents writer.old)
        pending.old.out.items pending.old.lines bytes.now (first.new, second.new) (W.contents writer.new) left)
        × IfOk result (λ behind. (left ≡ pending.new.out.items) × (t.opened ≡ pending.new.lines)
        × (t.ahead ≡ behind.now) × (0 < length bytes.now → length behind.now < length bytes.now)) }
    ensures refused { OnWriteFault result (MayFail W.refuses W.contents writer.new) }
    ensures reads { IfErr result (λ e. e ≢ StreamError.ReadFault) }
{
    if let Some(whole) = pending.lines.whole(bytes) {
        answer_next(whole.0, responder, first, second, &mut pending.out, writer)?;
        return Ok(whole.1);
    }
    // the line may stand open already
    let Some(behind) = pending.lines.feed(bytes) else {
        return Ok(&[]);
    };
    let line = pending.lines.line();
    answer_next(line, responder, first, second, &mut pending.out, writer)?;
    pending.lines.clear();
    Ok(behind)
}

/// Answers a line, and writes the replies so far where they are many.
fn answer_next<S, T, A: Responder<S, T>, W: Sink>(
    piece: Piece<'_>,
    responder: &A,
    first: &mut S,
    second: &mut T,
    out: &mut Vec<u8>,
    writer: &mut W,
) -> Result<(), StreamError>
    requires { A.over (first.old, second.old) ≡ false }
    ensures replies { (left : List ℕ)
        × AnswersLines (A.responds responder.now) A.over (first.old, second.old) (W.contents writer.old) out.old.items
        (piece_seen piece.entry ∷ []) (first.new, second.new) (W.contents writer.new) left
        × OnOk result (left ≡ out.new.items) }
    ensures refused { OnWriteFault result (MayFail W.refuses W.contents writer.new) }
    ensures reads { IfErr result (λ e. e ≢ StreamError.ReadFault) }
{
    match responder.respond(*out.allocator(), piece, out, first, second) {
        Err(_) => {
            // the replies before are written all the same
            write_out(writer, out)?;
            Err(StreamError::NoMemory)
        }
        Ok(()) if out.len() < PIECE_SIZE => Ok(()),
        Ok(()) => write_out(writer, out),
    }
}

/// Writes the replies so far.
fn write_out<W: Sink>(writer: &mut W, out: &mut Vec<u8>) -> Result<(), StreamError>
    ensures writes { (written left : List ℕ) × (out.old.items ≡ written ++ left)
        × Appends (W.contents writer.old) (W.contents writer.new) written
        × OnOk result ((left ≡ []) × (out.new.items ≡ [])) }
    ensures refused { OnErr result (MayFail W.refuses W.contents writer.new) }
    ensures fault { IfErr result (λ e. e ≡ StreamError.WriteFault) }
{
    write_and_flush(writer, out.as_slice())?;
    out.clear();
    Ok(())
}

/// Writes these bytes, and flushes them. What is interrupted is tried again. Error: the writer takes no more.
pub fn write_and_flush<W: Sink>(writer: &mut W, bytes: &[u8]) -> Result<(), StreamError>
    ensures writes { (written left : List ℕ) × (bytes.now ≡ written ++ left)
        × Appends (W.contents writer.old) (W.contents writer.new) written
        × OnOk result (left ≡ []) }
    ensures all { OnOk result (Appends (W.contents writer.old) (W.contents writer.new) bytes.now) }
    ensures refused { OnErr result (MayFail W.refuses W.contents writer.new) }
    ensures fault { IfErr result (λ e. e ≡ StreamError.WriteFault) }
{
    write_bytes(writer, bytes)?;
    flush(writer)
}

/// Writes these bytes. Error: the writer takes no more.
pub fn write_bytes<W: Sink>(writer: &mut W, bytes: &[u8]) -> Result<(), StreamError>
    ensures writes { (written left : List ℕ) × (bytes.now ≡ written ++ left)
        × Appends (W.contents writer.old) (W.contents writer.new) written
        × OnOk result (left ≡ []) }
    ensures refused { OnErr result (MayFail W.refuses W.contents writer.new) }
    ensures fault { IfErr result (λ e. e ≡ StreamError.WriteFault) }
{
    let mut rest = bytes;
    let mut tries = Tries::new();
    while !rest.is_empty() {
        match writer.write_some(rest) {
            Ok(0) => return Err(StreamError::WriteFault),
            Ok(count) => rest = &rest[count..],
            Err(error) if tries.again(&error) => {}
            Err(_) => return Err(StreamError::WriteFault),
        }
    }
    Ok(())
}

fn flush<W: Sink>(writer: &mut W) -> Result<(), StreamError>
    ensures bytes { Keeps (W.contents writer.old) (W.contents writer.new) }
    ensures refused { OnErr result (MayFail W.refuses W.contents writer.new) }
    ensures fault { IfErr result (λ e. e ≡ StreamError.WriteFault) }
{
    let mut tries = Tries::new();
    loop {
        match writer.flush_all() {
            Ok(()) => return Ok(()),
            Err(error) if tries.again(&error) => {}
            Err(_) => return Err(StreamError::WriteFault),
        }
    }
}
