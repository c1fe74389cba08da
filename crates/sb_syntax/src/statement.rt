//! Changes of tables.

ghost use Rattle.std.specs.Prelude.{◌≡◌, [], map, length, option_map};
ghost use Rattle.sb_syntax.specs.Reading as spec;
ghost use Rattle.sb_syntax.specs.Reading.{Gives};
ghost use Rattle.sb_syntax.specs.Views as view;

use crate::cursor::Cursor;
use crate::error::Fault;
use crate::kind::TokenKind;
use crate::list::{Item, list};
use crate::literal::{literal_value, name};
use crate::query::{filter, operand, query};
use crate::tree::{Assignment, Condition, Query, Statement};
use sb_value::{Name, OpenTuples, Tuples};
use std::alloc::Global;

/// The greatest depth of subqueries in subqueries.
pub const MAX_DEPTH: usize = 4;

/// Literals, as a tuple that is begun.
#[inline(always)]
#[tactic(auto, unfolding(crate::specs::Reading::separated))]
fn literals(alloc: Global, tokens: &mut Cursor<'_>, all: &mut OpenTuples) -> Result<(), Fault>
    requires { all.old.begun ≡ [] }
    ensures read { Gives (λ _. all.new.begun)
        (spec.separated TokenKind.Comma spec.literal_value tokens.old) result tokens.old tokens.new }
    ensures closed { all.new.closed ≡ all.old.closed }
{
    let first = literal_value(alloc, tokens)?;
    all.push(first)?;
    'more: while tokens.sees(TokenKind::Comma) {
        tokens.skip();
        let item = literal_value(alloc, tokens)?;
        all.push(item)?;
    }
    Ok(())
}

#[tactic(auto, unfolding(crate::specs::Reading::tuple))]
fn tuple(alloc: Global, tokens: &mut Cursor<'_>, all: &mut OpenTuples) -> Result<(), Fault>
    requires { all.old.begun ≡ [] }
    ensures read { Gives (λ _. all.new.begun) (spec.tuple tokens.old) result tokens.old tokens.new }
    ensures closed { all.new.closed ≡ all.old.closed }
{
    tokens.expect(TokenKind::LeftParen)?;
    // A cursor of its own, which stays in registers.
    let mut here = tokens.copied();
    let read = literals(alloc, &mut here, all);
    *tokens = here;
    read?;
    tokens.expect(TokenKind::RightParen)?;
    Ok(())
}

#[tactic(auto, unfolding(crate::specs::Reading::separated))]
fn tuples(alloc: Global, tokens: &mut Cursor<'_>) -> Result<Tuples, Fault>
    ensures { Gives (λ v. v)
        (spec.separated TokenKind.Comma spec.tuple tokens.old) result tokens.old tokens.new }
{
    // A comma or a parenthesis follows each value.
    let mut all = OpenTuples::with_capacity(alloc, tokens.left() / 2)?;
    tuple(alloc, tokens, &mut all)?;
    all.close()?;
    'more: while tokens.sees(TokenKind::Comma) {
        tokens.skip();
        tuple(alloc, tokens, &mut all)?;
        all.close()?;
    }
    let tuples = all.finish(alloc)?;
    Ok(tuples)
}

#[tactic(auto, unfolding(crate::specs::Reading::inserts_rows))]
fn insert_rows(alloc: Global, tokens: &mut Cursor<'_>, table: Name) -> Result<Statement, Fault>
    ensures { Gives view.statement (spec.inserts_rows table tokens.old) result tokens.old tokens.new }
{
    tokens.expect(TokenKind::Values)?;
    let tuples = tuples(alloc, tokens)?;
    Ok(Statement::InsertRows(table, tuples))
}

/// A query that stands in no other. Error: the tokens aren't that (Refused), or out of memory.
pub fn whole_query(alloc: Global, tokens: &mut Cursor<'_>) -> Result<Box<Query>, Fault>
    ensures { Gives (λ q. view.query q.value)
        (spec.query_to MAX_DEPTH tokens.old) result tokens.old tokens.new }
{
    let query = query(alloc, tokens, MAX_DEPTH)?;
    Ok(Box::new(alloc, query)?)
}

#[inline(always)]
#[tactic(auto, unfolding(crate::specs::Reading::inserts, crate::specs::Reading::inserts_into))]
fn insert(alloc: Global, tokens: &mut Cursor<'_>) -> Result<Statement, Fault>
    ensures { Gives view.statement (spec.inserts tokens.old) result tokens.old tokens.new }
{
    tokens.expect(TokenKind::Insert)?;
    tokens.expect(TokenKind::Into)?;
    let table = name(tokens)?;
    if tokens.sees(TokenKind::Values) {
        insert_rows(alloc, tokens, table)
    } else {
        Ok(Statement::InsertQuery(table, whole_query(alloc, tokens)?))
    }
}

impl Item for Assignment {
    ghost gives = { λ old r new. Gives view.assignment (spec.assignment old) r old new };

    #[tactic(auto, unfolding(crate::specs::Reading::assignment))]
    fn read(alloc: Global, tokens: &mut Cursor<'_>) -> Result<Assignment, Fault> {
        let column = name(tokens)?;
        tokens.expect(TokenKind::Equal)?;
        let operand = operand(alloc, tokens, MAX_DEPTH)?;
        Ok(Assignment { column, operand })
    }
}

fn assignments(alloc: Global, tokens: &mut Cursor<'_>) -> Result<Vec<Assignment>, Fault>
    ensures { Gives (λ v. map view.assignment v.items)
        (spec.separated TokenKind.Comma spec.assignment tokens.old) result tokens.old tokens.new }
{
    list(alloc, tokens, TokenKind::Comma, None)
}

/// The condition of a statement, if one stands there.
fn statement_filter(alloc: Global, tokens: &mut Cursor<'_>) -> Result<Option<Box<Condition>>, Fault>
    ensures { Gives (λ f. view.filter (option_map (λ a. a.value) f))
        (spec.filter (spec.inner_query MAX_DEPTH) tokens.old) result tokens.old tokens.new }
{
    match filter(alloc, tokens, MAX_DEPTH)? {
        Some(condition) => Ok(Some(Box::new(alloc, condition)?)),
        None => Ok(None),
    }
}

#[tactic(auto, unfolding(crate::specs::Reading::updates))]
fn update(alloc: Global, tokens: &mut Cursor<'_>) -> Result<Statement, Fault>
    ensures { Gives view.statement (spec.updates tokens.old) result tokens.old tokens.new }
{
    tokens.expect(TokenKind::Update)?;
    let table = name(tokens)?;
    tokens.expect(TokenKind::Set)?;
    let assignments = assignments(alloc, tokens)?;
    let filter = statement_filter(alloc, tokens)?;
    Ok(Statement::Update(table, assignments, filter))
}

#[tactic(auto, unfolding(crate::specs::Reading::deletes))]
fn delete(alloc: Global, tokens: &mut Cursor<'_>) -> Result<Statement, Fault>
    ensures { Gives view.statement (spec.deletes tokens.old) result tokens.old tokens.new }
{
    tokens.expect(TokenKind::Delete)?;
    tokens.expect(TokenKind::From)?;
    let table = name(tokens)?;
    let filter = statement_filter(alloc, tokens)?;
    Ok(Statement::Delete(table, filter))
}

/// A statement that changes rows, from its first word on. Error: the tokens aren't that (Refused), or out of memory.
#[tactic(auto, unfolding(crate::specs::Reading::change))]
pub fn change(alloc: Global, tokens: &mut Cursor<'_>) -> Result<Statement, Fault>
    ensures { Gives view.statement (spec.change tokens.old) result tokens.old tokens.new }
{
    match tokens.peek() {
        Some(TokenKind::Insert) => insert(alloc, tokens),
        Some(TokenKind::Delete) => delete(alloc, tokens),
        Some(TokenKind::Update) => update(alloc, tokens),
        _ => Err(Fault::Refused),
    }
}
