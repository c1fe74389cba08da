//! The lines of a script.
ghost use Rattle.std.specs.Prelude.{◌≡◌};

use sb_tenant::Line;
use std::marker::Model;

/// Lines of commands, to be sent in one session: without the `open` in front and the `end` behind them, without numbers
/// and without newlines.
pub struct Script {
    pub(crate) lines: Vec<Line>,
}

impl Drop for Script {
    fn drop(self) {
        let Self { lines: _ } = self;
    }
}

impl Model for Script {
    ghost use Rattle.std.specs.Prelude.{List, ℕ};

    ghost Value = { List (List ℕ) };

    ghost view = { λ s. s.lines.items };
}

impl Script {
    /// The lines in order.
    pub fn lines(&self) -> &[Line]
        ensures { result.now ≡ self.now }
    {
        self.lines.as_slice()
    }
}
