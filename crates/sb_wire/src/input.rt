//! The lines of a stream that comes in any pieces.
ghost use Rattle.std.specs.Prelude.{◌≡◌, ◌++◌, ◌<◌, List, ℕ, [], ◌∷◌, false, IfSome, MatchOption, length};
ghost use Rattle.sb_wire.specs.Lines.{Completes, last_piece, line, piece_more, piece_of};
ghost use Rattle.sb_wire.specs.Seen.{piece_seen, pieces_seen};

use arrayvec::ArrayVec;
use memchr::memchr;
use std::marker::Model;

/// The most bytes of a line.
pub const LINE_LIMIT: usize = 4096;

/// A line without its newline, or one that is too long.
#[derive(Clone, Copy)]
pub enum Piece<'a> {
    Line(&'a [u8]),
    TooLong,
}

/// The open line of a stream: what stands behind its last newline. Of a line that is too long no
/// more bytes are kept than a line may have.
pub struct Lines {
    kept: ArrayVec<u8, LINE_LIMIT>,
    is_long: bool,
}

impl Drop for Lines {
    fn drop(self) {
        let Self {
            kept: _,
            is_long: _,
        } = self;
    }
}

impl Model for Lines {
    ghost use Rattle.std.specs.Prelude.{if◌then◌else◌};
    ghost use Rattle.sb_wire.specs.Lines.{line, too_long, Piece as ItsPiece};

    ghost Value = { ItsPiece };

    ghost view = { λ l. if l.is_long then too_long else line l.kept.items };
}

impl Lines {
    /// Before the first byte.
    pub fn new() -> Lines
        ensures { result ≡ line [] }
    {
        Lines {
            kept: ArrayVec::new(),
            is_long: false,
        }
    }

    /// Takes bytes up to the first newline, and gives those behind it: then the line is complete,
    /// and is to be answered and cleared before more bytes come.
    pub fn feed<'a>(&mut self, bytes: &'a [u8]) -> Option<&'a [u8]>
        ensures { MatchOption result
            (Completes self.old bytes.now [] self.new)
            (λ rest. (taken : List ℕ) × (bytes.now ≡ taken ++ rest.now) × (0 < length taken)
            × Completes self.old taken (self.new ∷ []) (line [])) }
    {
        match memchr(b'\n', bytes) {
            Some(end) => {
                self.keep(&bytes[..end]);
                Some(&bytes[end + 1..])
            }
            None => {
                self.keep(bytes);
                None
            }
        }
    }

    /// The line that the bytes begin with, where none is open and its newline is among them, and the bytes behind it. It is
    /// lent as it stands there.
    pub fn whole<'a>(&self, bytes: &'a [u8]) -> Option<(Piece<'a>, &'a [u8])>
        ensures { IfSome result (λ w. (taken : List ℕ) × (bytes.now ≡ taken ++ w.1.now) × (0 < length taken)
            × Completes self.now taken (piece_seen w.0 ∷ []) (line []) × (self.now ≡ line [])) }
    {
        if self.is_open() {
            return None;
        }
        let end = memchr(b'\n', bytes)?;
        Some((whole_piece(&bytes[..end]), &bytes[end + 1..]))
    }

    /// True if a byte of a line is kept.
    fn is_open(&self) -> bool
        ensures { result ≡ false → self.now ≡ line [] }
    {
        self.is_long || !self.kept.is_empty()
    }

    fn keep(&mut self, part: &[u8])
        ensures { self.new ≡ piece_more self.old part.now }
    {
        if self.kept.try_extend_from_slice(part).is_err() {
            self.is_long = true;
        }
    }

    /// The open line, as it is if nothing more comes.
    pub fn line(&self) -> Piece<'_>
        ensures { piece_seen result ≡ self.now }
    {
        if self.is_long {
            Piece::TooLong
        } else {
            Piece::Line(self.kept.as_slice())
        }
    }

    /// Goes on behind the newline.
    pub fn clear(&mut self)
        ensures { self.new ≡ line [] }
    {
        self.kept.clear();
        self.is_long = false;
    }

    /// The line that stands open at the end of the stream, if it has a byte.
    pub fn finish(&self) -> Option<Piece<'_>>
        ensures { pieces_seen result ≡ last_piece self.now }
    {
        if self.kept.is_empty() && !self.is_long {
            return None;
        }
        Some(self.line())
    }
}

/// A line, if it isn't too long.
fn whole_piece(line: &[u8]) -> Piece<'_>
    ensures { piece_seen result ≡ piece_of line.now }
{
    if line.len() > LINE_LIMIT {
        Piece::TooLong
    } else {
        Piece::Line(line)
    }
}
