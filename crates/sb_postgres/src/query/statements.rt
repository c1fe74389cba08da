//! The statements of a query, one after the other.
ghost use Rattle.std.specs.Prelude.{◌≡◌, ℕ, ◌≤◌, ◌<◌, length, IfOk, IfSome};

use crate::query::error::QueryError;
use crate::query::reading::{check_from, statement_from};
use crate::query::statement::Statement;
use std::alloc::Global;

/// Reads the statements of a query's text.
#[derive(Debug, Drop)]
pub struct Statements<'a> {
    text: &'a [u8],
    /// Where the statements that are left begin.
    at: usize,
    ghost within: { at ≤ length text.now },
}

impl<'a> Statements<'a> {
    ghost use Rattle.sb_postgres.specs.Lines.{IsLine, Lines};
    ghost use Rattle.sb_postgres.specs.Origins.{AreOrigins};
    ghost use Rattle.sb_postgres.specs.Statements.{EndsAs, HasLines, IsNext, Leaves, Stays, bytes_left, place_of, text_of};

    /// The statements of a text.
    pub fn new(text: &'a [u8]) -> Statements<'a>
        // The text has pieces, and the statements are made of them.
        ensures found { (ls : Lines) × Leaves result ls }
        // From any place on it has no other pieces, so there are no other statements.
        ensures only { (at : ℕ) (ls ms : Lines) → HasLines at text.now ls → HasLines at text.now ms → ls ≡ ms }
        ensures place { place_of result ≡ 0 }
        ensures text { text_of result ≡ text.now }
    {
        Statements { text, at: 0 }
    }

    /// The next statement, or nothing behind the last one. An error changes nothing.
    pub fn next_statement(&mut self, alloc: Global) -> Result<Option<Statement>, QueryError>
        // The first of the lines that are left is given, or what ends them is told.
        ensures next { (ls : Lines) → Leaves self.old ls → IsNext ls self.new result }
        ensures stays { Stays self.old self.new result }
        // Each line is one that a command may have.
        ensures line { IfOk result (λ o. IfSome o (λ s. IsLine s.line.items)) }
        // Each byte of the line stands in the text at its place.
        ensures origins { IfOk result (λ o. IfSome o (λ s. AreOrigins (text_of self.old) s.line.items s.origins.items)) }
        // A statement takes bytes of those that are left, so a loop ends.
        ensures shorter { IfOk result (λ o. IfSome o (λ s. bytes_left self.new < bytes_left self.old)) }
        ensures text { text_of self.new ≡ text_of self.old }
    {
        let Some((statement, at)) = statement_from(alloc, self.text, self.at)? else {
            return Ok(None);
        };
        self.at = at;
        Ok(Some(statement))
    }

    /// True if all statements that are left can be read. PostgreSQL reads a whole text before it runs the first of them.
    pub fn check(&self, alloc: Global) -> Result<(), QueryError>
        ensures { (ls : Lines) → Leaves self.now ls → EndsAs ls result }
    {
        check_from(alloc, self.text, self.at)
    }
}
