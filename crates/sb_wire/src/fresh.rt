//! A stream on a cell of its own.
ghost use Rattle.std.specs.Prelude.{◌≡◌, ◌≤◌, ◌⊎◌, List, ℕ, Err, OnOk, IfSome};
ghost use Rattle.std.specs.Io.KnownBytes.{Appends, Keeps};
ghost use Rattle.sb_cell.specs.Tenants.{IsNew, Cell as ItsCell};
ghost use Rattle.sb_wire.specs.Counts.{Counts};
ghost use Rattle.sb_wire.specs.Stream.{AnswersFresh, EndsBy, MayFail, OnWriteFault, Streams};

use crate::ends::{Sink, Source};
use crate::fault::StreamError;
use crate::run::run_stream;
use crate::summary::Summary;
use sb_cell::{Cell, ample_buckets};
use sb_tenant::Bound;
use std::alloc::{AllocError, Global};

/// Answers the lines of the input on a fresh cell of the tenants below the number `tenants`. Error: a read or a write
/// failed, or out of memory.
pub fn run_fresh<R: Source, W: Sink>(
    alloc: Global,
    tenants: u32,
    bound: Bound,
    reader: &mut R,
    writer: &mut W,
    summary: &mut Summary,
) -> Result<(), StreamError>
    requires tenants { tenants ≤ 256 }
    requires bound { bound.considerations ≤ 1000 }
    ensures ok { OnOk result (IfSome (R.remaining reader.old) (λ input. (text : List ℕ)
        × Appends (W.contents writer.old) (W.contents writer.new) text
        × AnswersFresh tenants bound input text)) }
    // there is no room for a cell, or the stream goes on one
    ensures goes { ((result ≡ Err StreamError.NoMemory)
        × Keeps (R.remaining reader.old) (R.remaining reader.new)
        × Keeps (W.contents writer.old) (W.contents writer.new))
        ⊎ ((old new : ItsCell) × IsNew 0 1 tenants bound old
        × (s : Streams old (R.remaining reader.old) (W.contents writer.old)
        new (R.remaining reader.new) (W.contents writer.new))
        × EndsBy R.fails R.remaining reader.new s.seen s.pieces s.left result) }
    ensures refused { OnWriteFault result (MayFail W.refuses W.contents writer.new) }
    // the summary counts nothing, or the replies to just these lines
    ensures counts { ((result ≡ Err StreamError.NoMemory)
        × Keeps (R.remaining reader.old) (R.remaining reader.new)
        × Keeps (W.contents writer.old) (W.contents writer.new) × (summary.new ≡ summary.old))
        ⊎ ((old new : ItsCell) × IsNew 0 1 tenants bound old
        × (s : Streams old (R.remaining reader.old) (W.contents writer.old)
        new (R.remaining reader.new) (W.contents writer.new))
        × EndsBy R.fails R.remaining reader.new s.seen s.pieces s.left result
        × Counts s.pieces s.replies.text summary.old summary.new) }
{
    let buckets = ample_buckets(tenants);
    let Ok(mut cell) = Cell::with_buckets(alloc, 0, 1, tenants, bound, buckets) else {
        return Err(StreamError::NoMemory);
    };
    run_stream(alloc, reader, writer, &mut cell, summary)
}
