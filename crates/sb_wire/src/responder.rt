//! What answers the lines of a stream.
ghost use Rattle.std.specs.Prelude.{◌≡◌, ◌++◌, List, ℕ, Bool, false, OnOk, OnErr};
ghost use Rattle.sb_wire.specs.Lines.{Piece as ItsPiece};
ghost use Rattle.sb_wire.specs.Seen.{piece_seen};

use crate::input::Piece;
use std::alloc::{AllocError, Global};

/// What answers lines, by two values that it is lent.
pub trait Responder<S, T> {
    // from the two values: the text that a line is answered with, and the values after it
    ghost responds: { Self → S × T → ItsPiece → List ℕ → S × T → Type 0 };

    // no line is answered any more
    ghost over: { S × T → Bool };

    /// Answers a line behind the text so far. Where memory runs out for the text, there is none of it.
    fn respond(
        &self,
        alloc: Global,
        piece: Piece<'_>,
        out: &mut Vec<u8>,
        first: &mut S,
        second: &mut T,
    ) -> Result<(), AllocError>
        requires { over (first.old, second.old) ≡ false }
        ensures { (text : List ℕ)
            × responds self.now (first.old, second.old) (piece_seen piece.entry) text (first.new, second.new)
            × OnOk result (out.new.items ≡ out.old.items ++ text)
            × OnErr result (out.new.items ≡ out.old.items) };

    /// True if the stream is over.
    fn is_over(&self, first: &S, second: &T) -> bool
        ensures { result ≡ over (first.now, second.now) };
}
