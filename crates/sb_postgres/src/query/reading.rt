//! The statement at a place of a text.
ghost use Rattle.std.specs.Prelude.{◌≤◌, ◌<◌, length, IfOk, IfSome};
ghost use Rattle.sb_postgres.specs.Lines.{IsLine};
ghost use Rattle.sb_postgres.specs.Origins.{AreOrigins};
ghost use Rattle.sb_postgres.specs.Cutting.{IsFirst, lines_from};
ghost use Rattle.sb_postgres.specs.Statements.{EndsAs};

use crate::query::actions::Scope;
use crate::query::draft::Draft;
use crate::query::error::QueryError;
use crate::query::piece::{PieceKind, first_piece};
use crate::query::statement::Statement;
use std::alloc::Global;

/// The first statement from a place on, and where the others begin.
pub(crate) fn statement_from(
    alloc: Global,
    text: &[u8],
    from: usize,
) -> Result<Option<(Statement, usize)>, QueryError>
    requires { from ≤ length text.now }
    ensures first { IsFirst (lines_from from text.now) text.now result }
    ensures origins { IfOk result (λ o. IfSome o (λ s. AreOrigins text.now s.0.line.items s.0.origins.items)) }
    ensures line { IfOk result (λ o. IfSome o (λ s. IsLine s.0.line.items)) }
    ensures within { IfOk result (λ o. IfSome o (λ s. (from < s.1) × (s.1 ≤ length text.now))) }
{
    let mut draft = Draft::new(alloc);
    let mut scope = Scope::Outside;
    let mut at = from;
    while at < text.len() {
        let rest = &text[at..];
        let (found, len) = first_piece(rest, at)?;
        let bytes = &rest[..len];
        let kind = scope.kind_in(found, bytes);
        scope = scope.after(found, bytes);
        match kind {
            PieceKind::Semicolon => {
                if !draft.is_empty() {
                    return Ok(Some((draft.into_statement(), at + len)));
                }
                draft.clear();
            }
            _ => draft.add(kind, at, bytes)?,
        }
        at += len;
    }
    if draft.is_empty() {
        Ok(None)
    } else {
        Ok(Some((draft.into_statement(), at)))
    }
}

/// True if all statements from a place on can be read.
pub(crate) fn check_from(alloc: Global, text: &[u8], from: usize) -> Result<(), QueryError>
    requires { from ≤ length text.now }
    ensures { EndsAs (lines_from from text.now) result }
{
    let mut at = from;
    while at < text.len() {
        let Some((_statement, behind)) = statement_from(alloc, text, at)? else {
            return Ok(());
        };
        at = behind;
    }
    Ok(())
}
