//! Each line of the log has a severity.
ghost use Rattle.std.specs.Prelude.{◌≡◌, ◌≤◌, ◌↔◌, IsTrue};
ghost use Rattle.sb_words.specs.Severities.{rank};

/// The severity of a line of the log.
#[derive(Clone, Copy, Debug)]
pub enum Severity {
    Error,
    Warning,
    Info,
}

impl Severity {
    /// True if what is so severe is told where the least that is told is as severe as this.
    pub fn is_told_at(self, least: Severity) -> bool
        ensures { IsTrue result ↔ (rank self ≤ rank least) }
    {
        match self {
            Severity::Error => true,
            Severity::Warning => !matches!(least, Severity::Error),
            Severity::Info => matches!(least, Severity::Info),
        }
    }
}
