//! Short lines come again and again, so their bytes are kept once.
ghost use Rattle.std.specs.Prelude.{◌≡◌, true, IfOk};

use crate::reply::Line;
use std::alloc::{AllocError, Global};

/// The longest line that is kept.
const SHORT: usize = 12;

/// The number of lines that are kept.
const KEPT: usize = 4;

/// The first short lines that came: such as `begin` and `commit`, of at most 12 bytes.
pub struct KnownLines {
    lines: Vec<Line>,
}

impl Drop for KnownLines {
    fn drop(self) {
        let Self { lines: _ } = self;
    }
}

impl KnownLines {
    /// No line.
    pub fn new(alloc: Global) -> KnownLines {
        KnownLines {
            lines: Vec::new(alloc),
        }
    }

    /// A line with these bytes, which it shares with an earlier one where that was kept. Error: out of memory.
    pub fn line(&mut self, alloc: Global, bytes: &[u8]) -> Result<Line, AllocError>
        ensures { IfOk result (λ line. line ≡ bytes.now) }
    {
        if bytes.len() > SHORT {
            return Line::new(alloc, bytes);
        }
        for line in self.lines.as_slice() {
            if is_same(line.as_slice(), bytes) {
                return line.share();
            }
        }
        let line = Line::new(alloc, bytes)?;
        if self.lines.len() < KEPT {
            let kept = line.share()?;
            self.lines.push(kept)?;
        }
        Ok(line)
    }
}

/// True if two short lines have the same bytes: one by one, for they are few.
fn is_same(one: &[u8], other: &[u8]) -> bool
    ensures { result ≡ true → one.now ≡ other.now }
{
    if one.len() != other.len() {
        return false;
    }
    for place in 0..one.len() {
        if one[place] != other[place] {
            return false;
        }
    }
    true
}
