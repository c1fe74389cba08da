//! Calls that are interrupted are made again.
ghost use Rattle.std.specs.Prelude.{◌≡◌, ◌<◌, ◌+◌, ◌↔◌, IsTrue, IsFalse};
ghost use Rattle.std.specs.IoError.{error_kind};

use std::io::{Error, ErrorKind};

/// How often a call is made again.
const MOST_TRIES: u32 = 1_000_000;

#[derive(Drop)]
pub(crate) struct Tries {
    left: u32,
}

impl Tries {
    pub fn new() -> Tries
        ensures { result.left ≡ 1000000 }
    {
        Tries { left: MOST_TRIES }
    }

    /// True if a call that failed in this way is to be made again.
    pub fn again(&mut self, error: &Error) -> bool
        ensures interrupted { IsTrue result ↔ ((0 < self.old.left) × (error_kind error.now ≡ ErrorKind.Interrupted)) }
        ensures fewer { IsTrue result → self.new.left + 1 ≡ self.old.left }
        ensures same { IsFalse result → self.new ≡ self.old }
    {
        if self.left == 0 || error.kind() != ErrorKind::Interrupted {
            return false;
        }
        self.left -= 1;
        true
    }
}
