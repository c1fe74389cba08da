//! Tables, columns and expressions.

ghost use Rattle.std.specs.Prelude.{◌≡◌, IfOk, option_map};
ghost use Rattle.sb_syntax.specs.Reading as spec;
ghost use Rattle.sb_syntax.specs.Reading.{Gives};
ghost use Rattle.sb_syntax.specs.Tree as tree;
ghost use Rattle.sb_syntax.specs.Views as view;

use crate::cursor::Cursor;
use crate::error::Fault;
use crate::kind::TokenKind;
use crate::literal::{literal_value, name};
use crate::tree::{Arithmetic, ColumnReference, Expression, TableReference};
use sb_value::Name;
use std::alloc::{AllocError, Global};

fn transition_of(kind: Option<TokenKind>) -> Option<TableReference>
    ensures { result ≡ spec.transition_of kind }
{
    match kind {
        Some(TokenKind::Inserted) => Some(TableReference::Inserted),
        Some(TokenKind::Deleted) => Some(TableReference::Deleted),
        Some(TokenKind::OldUpdated) => Some(TableReference::OldUpdated),
        Some(TokenKind::NewUpdated) => Some(TableReference::NewUpdated),
        _ => None,
    }
}

/// A table by its name, or a transition table. Error: the tokens aren't that (Refused), or out of memory.
#[tactic(auto, unfolding(crate::specs::Reading::table, crate::specs::Reading::table_by))]
pub fn table(tokens: &mut Cursor<'_>) -> Result<TableReference, Fault>
    ensures { Gives (λ t. t) (spec.table tokens.old) result tokens.old tokens.new }
{
    if let Some(table) = transition_of(tokens.peek()) {
        tokens.skip();
        return Ok(table);
    }
    Ok(TableReference::Named(name(tokens)?))
}

/// The column of this table.
#[inline(always)]
#[tactic(auto, unfolding(crate::specs::Reading::column_from))]
fn column_from(tokens: &mut Cursor<'_>, table: TableReference) -> Result<ColumnReference, Fault>
    ensures { Gives (λ c. c) (spec.column_from table tokens.old) result tokens.old tokens.new }
{
    tokens.expect(TokenKind::Dot)?;
    Ok(ColumnReference::Qualified(table, name(tokens)?))
}

/// The column that begins with this name.
#[inline(always)]
#[tactic(auto, unfolding(crate::specs::Reading::column_after))]
fn column_after(tokens: &mut Cursor<'_>, first: Name) -> Result<ColumnReference, Fault>
    ensures { Gives (λ c. c) (spec.column_after first tokens.old) result tokens.old tokens.new }
{
    if tokens.sees(TokenKind::Dot) {
        column_from(tokens, TableReference::Named(first))
    } else {
        Ok(ColumnReference::Plain(first))
    }
}

#[inline(always)]
#[tactic(auto, unfolding(crate::specs::Reading::column, crate::specs::Reading::column_by))]
fn column(tokens: &mut Cursor<'_>) -> Result<ColumnReference, Fault>
    ensures { Gives (λ c. c) (spec.column tokens.old) result tokens.old tokens.new }
{
    if let Some(table) = transition_of(tokens.peek()) {
        tokens.skip();
        return column_from(tokens, table);
    }
    let first = name(tokens)?;
    column_after(tokens, first)
}

fn is_literal(kind: Option<TokenKind>) -> bool
    ensures { result ≡ spec.is_literal kind }
{
    matches!(
        kind,
        Some(TokenKind::Integer | TokenKind::Minus | TokenKind::Text)
    )
}

#[inline(always)]
#[tactic(auto, unfolding(crate::specs::Reading::factor))]
fn factor(alloc: Global, tokens: &mut Cursor<'_>) -> Result<Expression, Fault>
    ensures { Gives view.expression (spec.factor tokens.old) result tokens.old tokens.new }
{
    if is_literal(tokens.peek()) {
        Ok(Expression::Literal(literal_value(alloc, tokens)?))
    } else {
        Ok(Expression::Column(column(tokens)?))
    }
}

fn multiplies(kind: Option<TokenKind>) -> Option<Arithmetic>
    ensures { spec.multiplies kind ≡ option_map (λ op a b. tree.binary a op b) result }
{
    match kind {
        Some(TokenKind::Star) => Some(Arithmetic::Multiply),
        _ => None,
    }
}

fn adds(kind: Option<TokenKind>) -> Option<Arithmetic>
    ensures { spec.adds kind ≡ option_map (λ op a b. tree.binary a op b) result }
{
    match kind {
        Some(TokenKind::Plus) => Some(Arithmetic::Add),
        Some(TokenKind::Minus) => Some(Arithmetic::Subtract),
        _ => None,
    }
}

fn binary(
    alloc: Global,
    a: Expression,
    op: Arithmetic,
    b: Expression,
) -> Result<Expression, AllocError>
    ensures { IfOk result (λ e. view.expression e
        ≡ tree.binary (view.expression a) op (view.expression b)) }
{
    Ok(Expression::Binary(Box::new(alloc, a)?, op, Box::new(alloc, b)?))
}

#[tactic(auto, unfolding(crate::specs::Reading::term))]
fn term(alloc: Global, tokens: &mut Cursor<'_>) -> Result<Expression, Fault>
    ensures { Gives view.expression (spec.term tokens.old) result tokens.old tokens.new }
{
    let mut left = factor(alloc, tokens)?;
    'more: while let Some(op) = multiplies(tokens.peek()) {
        tokens.skip();
        let right = factor(alloc, tokens)?;
        left = binary(alloc, left, op, right)?;
    }
    Ok(left)
}

/// An expression: terms with `+` and `-` between them. Error: the tokens aren't that (Refused), or out of memory.
#[tactic(auto, unfolding(crate::specs::Reading::expr))]
pub fn expr(alloc: Global, tokens: &mut Cursor<'_>) -> Result<Expression, Fault>
    ensures { Gives view.expression (spec.expr tokens.old) result tokens.old tokens.new }
{
    let mut left = term(alloc, tokens)?;
    'more: while let Some(op) = adds(tokens.peek()) {
        tokens.skip();
        let right = term(alloc, tokens)?;
        left = binary(alloc, left, op, right)?;
    }
    Ok(left)
}
