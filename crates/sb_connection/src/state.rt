//! Where a connection stands.
ghost use Rattle.std.specs.Prelude.{◌≡◌};
ghost use Rattle.sb_connection.specs.Standing.{is_open};

/// Where a connection stands with its lines.
#[derive(Clone, Copy, Debug, PartialEq, Eq)]
pub enum State {
    /// Each is answered when it is complete.
    Open,
    /// All that the client sent are answered.
    Answered,
    /// The session has ended, or none was opened: no line is answered any more.
    Over,
    /// There was no memory for the text of the last reply.
    Failed,
}

impl State {
    /// True if lines are answered.
    pub fn is_open(self) -> bool
        ensures { result ≡ is_open self }
    {
        matches!(self, State::Open)
    }
}
