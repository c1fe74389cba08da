//! The items of a query, and its sources.

ghost use Rattle.std.specs.Prelude.{◌≡◌, map, length};
ghost use Rattle.sb_syntax.specs.Reading as spec;
ghost use Rattle.sb_syntax.specs.Reading.{Gives};
ghost use Rattle.sb_syntax.specs.Views as view;

use crate::cursor::Cursor;
use crate::error::Fault;
use crate::expression::{expr, table};
use crate::kind::TokenKind;
use crate::list::{Item, list};
use crate::literal::name;
use crate::tree::{Expression, Items, SourceReference, TableReference};
use sb_value::Name;
use std::alloc::Global;

/// A query lists at most so many expressions.
const MAX_ITEMS: usize = 16;

#[tactic(auto, unfolding(crate::specs::Reading::all_columns))]
fn all_columns(tokens: &mut Cursor<'_>) -> Result<Items, Fault>
    ensures { Gives view.items (spec.all_columns tokens.old) result tokens.old tokens.new }
{
    tokens.expect(TokenKind::Star)?;
    Ok(Items::All)
}

#[tactic(auto, unfolding(crate::specs::Reading::count_rows))]
fn count_rows(tokens: &mut Cursor<'_>) -> Result<Items, Fault>
    ensures { Gives view.items (spec.count_rows tokens.old) result tokens.old tokens.new }
{
    tokens.expect(TokenKind::Count)?;
    tokens.expect(TokenKind::LeftParen)?;
    tokens.expect(TokenKind::Star)?;
    tokens.expect(TokenKind::RightParen)?;
    Ok(Items::Count)
}

#[tactic(auto, unfolding(crate::specs::Reading::sum_rows))]
fn sum_rows(alloc: Global, tokens: &mut Cursor<'_>) -> Result<Items, Fault>
    ensures { Gives view.items (spec.sum_rows tokens.old) result tokens.old tokens.new }
{
    tokens.expect(TokenKind::Sum)?;
    tokens.expect(TokenKind::LeftParen)?;
    let summand = expr(alloc, tokens)?;
    tokens.expect(TokenKind::RightParen)?;
    Ok(Items::Sum(summand))
}

impl Item for Expression {
    ghost gives = { λ old r new. Gives view.expression (spec.expr old) r old new };

    fn read(alloc: Global, tokens: &mut Cursor<'_>) -> Result<Expression, Fault> {
        expr(alloc, tokens)
    }
}

fn expressions(alloc: Global, tokens: &mut Cursor<'_>) -> Result<Vec<Expression>, Fault>
    ensures { Gives (λ v. map view.expression v.items)
        (spec.expressions tokens.old) result tokens.old tokens.new }
{
    list(alloc, tokens, TokenKind::Comma, Some(MAX_ITEMS))
}

/// The items of a query. Error: the tokens aren't that (Refused), or out of memory.
#[tactic(auto, unfolding(crate::specs::Reading::items))]
pub fn items(alloc: Global, tokens: &mut Cursor<'_>) -> Result<Items, Fault>
    ensures { Gives view.items (spec.items tokens.old) result tokens.old tokens.new }
{
    match tokens.peek() {
        Some(TokenKind::Star) => all_columns(tokens),
        Some(TokenKind::Count) => count_rows(tokens),
        Some(TokenKind::Sum) => sum_rows(alloc, tokens),
        _ => Ok(Items::Each(expressions(alloc, tokens)?)),
    }
}

#[tactic(auto, unfolding(crate::specs::Reading::alias))]
fn alias(tokens: &mut Cursor<'_>) -> Result<Option<Name>, Fault>
    ensures { Gives (λ n. n) (spec.alias tokens.old) result tokens.old tokens.new }
{
    if tokens.sees(TokenKind::Name) {
        Ok(Some(name(tokens)?))
    } else {
        Ok(None)
    }
}

#[tactic(auto, unfolding(crate::specs::Reading::source))]
fn source(tokens: &mut Cursor<'_>) -> Result<SourceReference, Fault>
    ensures { Gives (λ s. s) (spec.source tokens.old) result tokens.old tokens.new }
{
    let table = table(tokens)?;
    let alias = alias(tokens)?;
    Ok(SourceReference { table, alias })
}

/// The tables behind `from`, with commas between them. Error: the tokens aren't that (Refused), or out of memory.
#[tactic(auto, unfolding(crate::specs::Reading::sources, crate::specs::Reading::sources_after))]
pub fn sources(alloc: Global, tokens: &mut Cursor<'_>) -> Result<Vec<SourceReference>, Fault>
    ensures { Gives (λ v. v.items) (spec.sources tokens.old) result tokens.old tokens.new }
{
    let mut all = Vec::new(alloc);
    let first = source(tokens)?;
    // The check of a list of these needs the types of both fields among the locals.
    let (_table, _alias): (TableReference, Option<Name>) = (first.table, first.alias);
    all.push(first)?;
    if tokens.sees(TokenKind::Comma) {
        tokens.expect(TokenKind::Comma)?;
        let second = source(tokens)?;
        all.push(second)?;
    }
    Ok(all)
}
