//! Who asks: a user and a key, as HTTP Basic sends them.
ghost use Rattle.std.specs.Prelude.{◌≡◌, ◌+◌, List, ℕ, drop, take, IfOk, MatchOption, Some, vec_len, ◌<◌};
ghost use Rattle.memchr.specs.Find.{IsFirstByte, is_byte};
ghost use Rattle.sb_status.specs.Requests.{AreSent};

use base64::DecodeAllocError;
use base64::engine::general_purpose::STANDARD;
use memchr::memchr;
use std::alloc::{AllocError, Global};

const SCHEME: &[u8] = b"basic ";

/// A user's name, a colon, and a key.
pub struct Credentials {
    text: Vec<u8>,
    colon: usize,
    ghost within: { colon < vec_len text },
}

impl Drop for Credentials {
    fn drop(self) {
        let Self { text: _, colon: _ } = self;
    }
}

impl Credentials {
    /// Those of a header's value, if it has some. Error: out of memory.
    pub fn read(alloc: Global, value: &[u8]) -> Result<Option<Credentials>, AllocError>
        ensures { IfOk result (λ found. MatchOption found
            ((text : List ℕ) (colon : ℕ) → AreSent value.now text colon → ⊥)
            (λ c. AreSent value.now c.text.items c.colon)) }
    {
        let Some((scheme, code)) = value.split_at_checked(SCHEME.len()) else {
            return Ok(None);
        };
        if !scheme.eq_ignore_ascii_case(SCHEME) {
            return Ok(None);
        }
        match STANDARD.decode(alloc, code) {
            Ok(text) => Ok(cut(text)),
            Err(DecodeAllocError::OutOfMemory) => Err(AllocError),
            Err(_) => Ok(None),
        }
    }

    pub fn user(&self) -> &[u8]
        ensures { result.now ≡ take self.now.colon self.now.text.items }
    {
        &self.text.as_slice()[..self.colon]
    }

    pub fn key(&self) -> &[u8]
        ensures { result.now ≡ drop (self.now.colon + 1) self.now.text.items }
    {
        &self.text.as_slice()[self.colon + 1..]
    }
}

/// The name before the first colon, and the key behind it.
fn cut(text: Vec<u8>) -> Option<Credentials>
    ensures { MatchOption result
        ((colon : ℕ) → IsFirstByte (is_byte 58) text.items (Some colon) → ⊥)
        (λ c. (c.text ≡ text) × IsFirstByte (is_byte 58) text.items (Some c.colon)) }
{
    match memchr(b':', text.as_slice()) {
        Some(colon) => Some(Credentials { text, colon }),
        None => None,
    }
}
