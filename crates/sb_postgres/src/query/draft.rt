//! A line that is put together.
ghost use Rattle.std.specs.Prelude.{◌≡◌, ◌+◌, ◌-◌, ◌<◌, ◌^◌, ◌==◌, length, map};
ghost use Rattle.sb_postgres.specs.Bytes.{all};
ghost use Rattle.sb_postgres.specs.Drafting.{Adds, Gets, Makes, drafted};
ghost use Rattle.sb_postgres.specs.Drafts as drafts;
ghost use Rattle.sb_postgres.specs.Lines as spec;

use crate::query::bytes::{folded, is_digit, is_printable, is_small};
use crate::query::error::{Fault, QueryError, Refusal};
use crate::query::piece::PieceKind;
use crate::query::statement::Statement;
use std::alloc::Global;

/// The most bytes of a statement's line.
pub const LINE_LIMIT: usize = 4_096;

/// The byte of the line for a byte of a piece.
fn shown(kind: PieceKind, b: u8) -> u8
    ensures { result ≡ spec.shown kind b }
{
    match kind {
        PieceKind::Constant => b,
        _ => folded(b),
    }
}

fn push_shown(out: &mut Vec<u8>, kind: PieceKind, bytes: &[u8]) -> Result<(), QueryError>
    ensures { Adds (map (spec.shown kind) bytes.now) out.old.items out.new.items result }
{
    for b in bytes {
        out.push(shown(kind, *b))?;
    }
    Ok(())
}

fn push_places(out: &mut Vec<usize>, at: usize, count: usize) -> Result<(), QueryError>
    requires { at + count < 2 ^ 64 }
    ensures { Adds (drafts.places at count) out.old.items out.new.items result }
{
    for place in at..at + count {
        out.push(place)?;
    }
    Ok(())
}

/// The place of the first byte outside printable ASCII.
fn unprintable(bytes: &[u8], at: usize) -> Option<usize>
    requires { at + length bytes.now < 2 ^ 64 }
    ensures { result ≡ spec.unprintable at bytes.now }
{
    let mut rest = bytes;
    let mut place = at;
    while let [b, more @ ..] = rest {
        if !is_printable(*b) {
            return Some(place);
        }
        place += 1;
        rest = more;
    }
    None
}

fn are_name_bytes(bytes: &[u8]) -> bool
    ensures { result ≡ all spec.is_name_byte bytes.now }
{
    let mut rest = bytes;
    while let [b, more @ ..] = rest {
        if !(is_small(*b) || is_digit(*b)) {
            return false;
        }
        rest = more;
    }
    true
}

fn is_name(bytes: &[u8]) -> bool
    ensures { result ≡ spec.is_name bytes.now }
{
    match bytes {
        [] => false,
        [b, rest @ ..] => is_small(*b) && are_name_bytes(rest),
    }
}

/// What is between the quotes.
fn inside(bytes: &[u8]) -> &[u8]
    ensures { result.now ≡ spec.inside bytes.now }
{
    match bytes {
        [_, inside @ .., _] => inside,
        _ => &[],
    }
}

/// A line as far as it has come.
#[derive(Debug, Drop)]
pub(crate) struct Draft {
    bytes: Vec<u8>,
    /// The place of each byte in the text.
    origins: Vec<usize>,
    /// Where the blanks behind the line begin.
    gap: Option<usize>,
}

impl Draft {
    pub(crate) fn new(alloc: Global) -> Draft
        ensures { drafted result ≡ drafts.nothing }
    {
        Draft {
            bytes: Vec::new(alloc),
            origins: Vec::new(alloc),
            gap: None,
        }
    }

    pub(crate) fn is_empty(&self) -> bool
        ensures { result ≡ (length self.now.bytes.items == 0) }
    {
        self.bytes.is_empty()
    }

    /// Starts over.
    pub(crate) fn clear(&mut self)
        ensures { drafted self.new ≡ drafts.nothing }
    {
        self.bytes.clear();
        self.origins.clear();
        self.gap = None;
    }

    fn add_gap(&mut self, at: usize)
        ensures { drafted self.new ≡ drafts.with_gap at (drafted self.old) }
    {
        if !self.bytes.is_empty() && self.gap.is_none() {
            self.gap = Some(at);
        }
    }

    /// Adds a space for the blanks, if there are any.
    fn add_space(&mut self) -> Result<(), QueryError>
        ensures { Gets (drafts.spaced (drafted self.old)) (drafted self.new) result }
    {
        if let Some(place) = self.gap {
            self.bytes.push(b' ')?;
            self.origins.push(place)?;
            self.gap = None;
        }
        Ok(())
    }

    /// Adds bytes of which the first stands at a place. The piece begins at `at`.
    fn add_bytes(
        &mut self,
        kind: PieceKind,
        at: usize,
        place: usize,
        bytes: &[u8],
    ) -> Result<(), QueryError>
        requires { place + length bytes.now < 2 ^ 64 }
        ensures { Makes (drafts.limited at (drafts.with_bytes place (map (spec.shown kind) bytes.now) (drafted self.old))) (drafted self.new) result }
    {
        self.add_space()?;
        if bytes.len() > LINE_LIMIT || self.bytes.len() > LINE_LIMIT - bytes.len() {
            return Err(QueryError::Refused(Refusal {
                fault: Fault::TooLong,
                at,
            }));
        }
        push_shown(&mut self.bytes, kind, bytes)?;
        push_places(&mut self.origins, place, bytes.len())
    }

    fn add_text(&mut self, kind: PieceKind, at: usize, bytes: &[u8]) -> Result<(), QueryError>
        requires { at + length bytes.now < 2 ^ 64 }
        ensures { Makes (drafts.with_text kind at bytes.now (drafted self.old) (spec.unprintable at bytes.now)) (drafted self.new) result }
    {
        if let Some(place) = unprintable(bytes, at) {
            return Err(QueryError::Refused(Refusal {
                fault: Fault::Unprintable,
                at: place,
            }));
        }
        self.add_bytes(kind, at, at, bytes)
    }

    fn add_name(&mut self, at: usize, bytes: &[u8]) -> Result<(), QueryError>
        requires { at + length bytes.now < 2 ^ 64 }
        ensures { Makes (drafts.with_name at bytes.now (drafted self.old)) (drafted self.new) result }
    {
        let name = inside(bytes);
        if !is_name(name) {
            return Err(QueryError::Refused(Refusal {
                fault: Fault::Name,
                at,
            }));
        }
        self.add_gap(at);
        self.add_bytes(PieceKind::QuotedName, at, at + 1, name)?;
        self.add_gap(at + bytes.len() - 1);
        Ok(())
    }

    /// Adds a piece that begins at a place.
    pub(crate) fn add(&mut self, kind: PieceKind, at: usize, bytes: &[u8]) -> Result<(), QueryError>
        requires { at + length bytes.now < 2 ^ 64 }
        ensures { Makes (drafts.with_piece kind at bytes.now (drafted self.old)) (drafted self.new) result }
    {
        match kind {
            PieceKind::Blank => {
                self.add_gap(at);
                Ok(())
            }
            PieceKind::QuotedName => self.add_name(at, bytes),
            _ => self.add_text(kind, at, bytes),
        }
    }

    /// The line and its places.
    pub(crate) fn into_statement(self) -> Statement
        ensures line { result.line.items ≡ (drafted self).bytes }
        ensures origins { result.origins.items ≡ (drafted self).origins }
    {
        Statement {
            line: self.bytes,
            origins: self.origins,
        }
    }
}
