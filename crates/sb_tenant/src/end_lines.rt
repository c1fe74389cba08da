//! Lines `end` at hand: one for every session that could be open, so that its end needs no memory.
ghost use Rattle.std.specs.Prelude.{◌≡◌, ◌<◌, ◌≤◌, ◌+◌, OnOk, IfOk, codes};
ghost use Rattle.sb_tenant.specs.EndLines.{AreEnds};

use crate::reply::Line;
use crate::tenant::END;
use std::alloc::{AllocError, Global};
use std::marker::Model;

/// So many lines `end`, which share their bytes.
pub(crate) struct EndLines {
    lines: Vec<Line>,
}

impl Drop for EndLines {
    fn drop(self) {
        let Self { lines: _ } = self;
    }
}

impl Model for EndLines {
    ghost use Rattle.std.specs.Prelude.{ℕ, vec_len};
    ghost use Rattle.sb_tenant.specs.EndLines.{AreEnds};

    ghost Value = { ℕ };

    ghost view = { λ e. vec_len e.lines };

    ghost invariant = { λ e. AreEnds e.lines.items };
}

impl EndLines {
    /// None.
    pub(crate) fn new(alloc: Global) -> EndLines
        ensures { result ≡ 0 }
    {
        EndLines {
            lines: Vec::new(alloc),
        }
    }

    /// Has at least `n` lines.
    pub(crate) fn fill(&mut self, alloc: Global, n: usize) -> Result<(), AllocError>
        ensures filled { OnOk result (n ≤ self.new) }
        ensures kept { self.old ≤ self.new }
    {
        for _made in self.lines.len()..n {
            let line = another(alloc, &self.lines)?;
            self.lines.push(line)?;
        }
        Ok(())
    }

    /// Takes one of the lines.
    pub(crate) fn take(&mut self) -> Line
        requires { 0 < self.old }
        ensures line { result ≡ codes "end" }
        ensures left { self.new + 1 ≡ self.old }
    {
        let Some(line) = self.lines.pop() else {
            unreachable!()
        };
        line
    }
}

/// Another line, which shares its bytes with the first one.
fn another(alloc: Global, lines: &Vec<Line>) -> Result<Line, AllocError>
    requires { AreEnds lines.now.items }
    ensures { IfOk result (λ line. line ≡ codes "end") }
{
    match lines.first() {
        Some(line) => line.share(),
        None => Line::new(alloc, END),
    }
}
