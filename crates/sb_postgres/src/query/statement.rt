//! A statement of a query.
ghost use Rattle.std.specs.Prelude.{◌≡◌, slice_get};

/// A statement as a line of the command language, without the `;`.
#[derive(Debug, Drop)]
pub struct Statement {
    /// The line: words in small letters, blanks and comments as one space.
    pub line: Vec<u8>,
    /// For each byte of the line, where it stands in the client's text.
    pub origins: Vec<usize>,
}

impl Statement {
    /// Where a byte of the line stands in the client's text.
    pub fn origin(&self, offset: usize) -> Option<usize>
        ensures { result ≡ slice_get self.now.origins.items offset }
    {
        self.origins.get(offset).copied()
    }
}
