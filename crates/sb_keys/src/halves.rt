//! A text in two parts.
ghost use Rattle.std.specs.Prelude.{◌≡◌};
ghost use Rattle.std.specs.List.{after_first, before_first};
ghost use Rattle.memchr.specs.Find.{is_byte};

use memchr::memchr;

/// What stands before the first byte of a kind, and what stands behind it: all and nothing where there is none.
#[derive(Clone, Copy)]
pub(crate) struct Halves<'a> {
    pub(crate) before: &'a [u8],
    pub(crate) behind: &'a [u8],
}

impl<'a> Halves<'a> {
    pub(crate) fn at(byte: u8, text: &'a [u8]) -> Halves<'a>
        ensures before { result.before.now ≡ before_first (is_byte byte) text.now }
        ensures behind { result.behind.now ≡ after_first (is_byte byte) text.now }
    {
        match memchr(byte, text) {
            Some(place) => Halves {
                before: &text[..place],
                behind: &text[place + 1..],
            },
            None => Halves {
                before: text,
                behind: &[],
            },
        }
    }
}
