//! What a line of a text of keys says.
ghost use Rattle.std.specs.Prelude.{◌≡◌, option_map};
ghost use Rattle.sb_keys.specs.Text.{digest_of, holder_of, key_of, number_of, said};

use crate::digest::Digest;
use crate::halves::Halves;
use hex::FromHex;
use std::str;

/// Who looks at the status pages, as the holder of keys: no tenant has so large a number.
pub const STATUS: u32 = 1_000_000_000;

/// The most digits of a tenant's number.
const DIGITS: usize = 9;

/// The holder of a key, and its digest.
#[derive(Clone, Copy)]
pub(crate) struct KeyEntry {
    pub(crate) holder: u32,
    pub(crate) digest: Digest,
}

impl KeyEntry {
    ghost use Rattle.sb_keys.specs.Seen.{key_seen};

    /// The key that a line names, if what it says is one.
    pub(crate) fn read(said: &[u8]) -> Option<KeyEntry>
        ensures { option_map key_seen result ≡ key_of said.now }
    {
        let cut = Halves::at(b' ', said);
        let holder = holder(cut.before)?;
        let digest = digest_in(cut.behind)?;
        Some(KeyEntry { holder, digest })
    }
}

/// What a line says, without a comment and blanks around.
pub(crate) fn said(line: &[u8]) -> &[u8]
    ensures { result.now ≡ said line.now }
{
    Halves::at(b'#', line).before.trim_ascii()
}

/// The digest that these bytes are in hex.
fn digest_in(bytes: &[u8]) -> Option<Digest>
    ensures { result ≡ digest_of bytes.now }
{
    <Digest as FromHex>::from_hex(bytes).ok()
}

/// A tenant by its number, or who looks at status pages by that word.
fn holder(word: &[u8]) -> Option<u32>
    ensures { result ≡ holder_of word.now }
{
    if word == b"status".as_slice() {
        return Some(STATUS);
    }
    number(word)
}

/// The number that these bytes are.
fn number(digits: &[u8]) -> Option<u32>
    ensures { result ≡ number_of digits.now }
{
    if digits.is_empty() || digits.len() > DIGITS {
        return None;
    }
    // for a number a plus may stand in front
    if digits[0] == b'+' {
        return None;
    }
    match str::from_utf8(digits) {
        Ok(text) => text.parse::<u32>().ok(),
        Err(_) => None,
    }
}
