//! A key and its digest.
ghost use Rattle.std.specs.Prelude.{◌≡◌, IfOk, string_bytes};
ghost use Rattle.std.specs.Char.{is_ascii_graphic};
ghost use Rattle.std.specs.List.{list_all};
ghost use Rattle.sha2.specs.Sha256.{sha256};
ghost use Rattle.sb_keys.specs.Keys.{hex_digest, is_key};

use sha2::{Digest as _, Sha256};
use std::alloc::{AllocError, Global};

/// What is kept of a key: its SHA-256.
pub type Digest = [u8; 32];

/// The most bytes of a key.
const LONGEST: usize = 128;

/// True if these bytes may be a key.
pub fn is_key(bytes: &[u8]) -> bool
    ensures { result ≡ is_key bytes.now }
{
    1 <= bytes.len() && bytes.len() <= LONGEST && are_printable(bytes)
}

/// True if all are printable, and none is a space.
fn are_printable(bytes: &[u8]) -> bool
    ensures { result ≡ list_all is_ascii_graphic bytes.now }
{
    for byte in bytes {
        if !byte.is_ascii_graphic() {
            return false;
        }
    }
    true
}

/// The digest of a key, in hex as a line names it. Error: out of memory.
pub fn digest_line(alloc: Global, key: &[u8]) -> Result<String, AllocError>
    ensures { IfOk result (λ text. string_bytes text ≡ hex_digest key.now) }
{
    hex::encode(alloc, digest_of(key).as_slice())
}

/// The digest of a key.
pub(crate) fn digest_of(key: &[u8]) -> Digest
    ensures { result ≡ sha256 key.now }
{
    Sha256::digest(key)
}
