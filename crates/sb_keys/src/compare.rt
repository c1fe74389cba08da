//! Digests are compared to the last byte, also where the first one differs.
ghost use Rattle.std.specs.Prelude.{◌≡◌, ◌↔◌, Contains, IsTrue};

use crate::digest::Digest;

/// True if a digest is among these, all of which are looked at.
pub(crate) fn has_digest(digests: &[Digest], digest: &Digest) -> bool
    ensures { IsTrue result ↔ Contains digests.now digest.now }
{
    let mut has = false;
    for own in digests {
        has |= is_same(own, digest);
    }
    has
}

/// True if two digests are the same, of which all bytes are looked at.
fn is_same(own: &Digest, digest: &Digest) -> bool
    ensures { IsTrue result ↔ (own.now ≡ digest.now) }
{
    let mut same = true;
    for i in 0..own.len() {
        same &= own[i] == digest[i];
    }
    same
}
