//! The digest of a key, as a file of keys names it.
ghost use Rattle.std.specs.Prelude.{◌≡◌, ◌++◌, OnErr, OnOk};
ghost use Rattle.sb_keys.specs.KeyDigests.{TellsDigest, digest_text};

use crate::digest::{digest_line, is_key};
use sb_wire::{Piece, Responder, Sink, Source, StreamError, answer_stream};
use std::alloc::{AllocError, Global};

/// The result for a key.
#[derive(Clone, Copy, Debug)]
pub(crate) enum Digested {
    /// No line has come.
    Awaits,
    Told,
    /// The line is no key.
    NoKey,
}

/// Why no digest of a key is written.
#[derive(Clone, Copy, Debug)]
pub enum DigestError {
    /// A stream failed, or memory ran out.
    Stream(StreamError),
    /// The line of the input is no key.
    BadKey,
}

/// Writes the digest of the key in the first line of the input. Error: a read or a write failed, there is no memory, or
/// the line is no key (BadKey).
pub fn tell_digest<R: Source, W: Sink>(
    alloc: Global,
    reader: &mut R,
    writer: &mut W,
) -> Result<(), DigestError>
    ensures { OnOk result (TellsDigest (R.remaining reader.old) (R.remaining reader.new)
        (W.contents writer.old) (W.contents writer.new)) }
{
    let mut digested = Digested::Awaits;
    match answer_stream(alloc, reader, writer, &Digester, &mut (), &mut digested) {
        Ok(()) => match digested {
            Digested::Told => Ok(()),
            Digested::Awaits | Digested::NoKey => Err(DigestError::BadKey),
        },
        Err(error) => Err(DigestError::Stream(error)),
    }
}

/// A responder that writes the digest of the first line.
struct Digester;

impl Responder<(), Digested> for Digester {
    ghost use Rattle.sb_keys.specs.KeyDigests.{Digests, over};

    ghost responds = { λ _. Digests };

    ghost over = { over };

    fn respond(
        &self,
        alloc: Global,
        piece: Piece<'_>,
        out: &mut Vec<u8>,
        _first: &mut (),
        second: &mut Digested,
    ) -> Result<(), AllocError> {
        match piece {
            Piece::Line(line) if is_key(line) => {
                *second = Digested::Told;
                push_digest(alloc, line, out)
            }
            _ => {
                *second = Digested::NoKey;
                Ok(())
            }
        }
    }

    fn is_over(&self, _first: &(), second: &Digested) -> bool {
        !matches!(second, Digested::Awaits)
    }
}

/// Adds the digest of a key, and the end of the line.
fn push_digest(alloc: Global, key: &[u8], out: &mut Vec<u8>) -> Result<(), AllocError>
    ensures ok { OnOk result (out.new.items ≡ out.old.items ++ digest_text key.now) }
    ensures err { OnErr result (out.new.items ≡ out.old.items) }
{
    let mut line = digest_line(alloc, key)?;
    line.push('\n')?;
    out.extend_from_slice(line.as_str().as_bytes())
}
