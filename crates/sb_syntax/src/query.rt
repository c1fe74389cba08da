//! Conditions and queries.

ghost use Rattle.std.specs.Prelude.{◌≡◌, IfOk, option_map, true, false, Some, None};
ghost use Rattle.sb_syntax.specs.Reading as spec;
ghost use Rattle.sb_syntax.specs.Reading.{Gives};
ghost use Rattle.sb_syntax.specs.Tree as tree;
ghost use Rattle.sb_syntax.specs.Views as view;

use crate::cursor::Cursor;
use crate::error::Fault;
use crate::expression::expr;
use crate::kind::TokenKind;
use crate::select::{items, sources};
use crate::tree::{Comparison, Condition, Expression, Operand, Query};
use std::alloc::{AllocError, Global};

/// The greatest depth of `not` and parentheses in one condition.
const MAX_NESTING: usize = 32;

fn comparison_of(kind: Option<TokenKind>) -> Option<Comparison>
    ensures { result ≡ spec.comparison_of kind }
{
    match kind {
        Some(TokenKind::Equal) => Some(Comparison::Equal),
        Some(TokenKind::NotEqual) => Some(Comparison::NotEqual),
        Some(TokenKind::Less) => Some(Comparison::Less),
        Some(TokenKind::LessEqual) => Some(Comparison::LessEqual),
        Some(TokenKind::Greater) => Some(Comparison::Greater),
        Some(TokenKind::GreaterEqual) => Some(Comparison::GreaterEqual),
        _ => None,
    }
}

/// A condition where it stays.
type Boxed = Box<Condition>;

fn disjunction(alloc: Global, a: Boxed, b: Boxed) -> Result<Boxed, AllocError>
    ensures { IfOk result (λ c. view.condition c.value
        ≡ tree.disjunction (view.condition a.value) (view.condition b.value)) }
{
    Ok(Box::new(alloc, Condition::Disjunction(a, b))?)
}

fn conjunction(alloc: Global, a: Boxed, b: Boxed) -> Result<Boxed, AllocError>
    ensures { IfOk result (λ c. view.condition c.value
        ≡ tree.conjunction (view.condition a.value) (view.condition b.value)) }
{
    Ok(Box::new(alloc, Condition::Conjunction(a, b))?)
}

fn negation(alloc: Global, a: Boxed) -> Result<Boxed, AllocError>
    ensures { IfOk result (λ c. view.condition c.value ≡ tree.negation (view.condition a.value)) }
{
    Ok(Box::new(alloc, Condition::Negation(a))?)
}

fn exists(alloc: Global, query: Query) -> Result<Boxed, AllocError>
    ensures { IfOk result (λ c. view.condition c.value ≡ tree.exists (view.query query)) }
{
    let query = Box::new(alloc, query)?;
    Ok(Box::new(alloc, Condition::Exists(query))?)
}

fn within(alloc: Global, e: Expression, negated: bool, query: Query) -> Result<Boxed, AllocError>
    ensures { IfOk result (λ c. view.condition c.value
        ≡ tree.is_in (view.expression e) negated (view.query query)) }
{
    let query = Box::new(alloc, query)?;
    Ok(Box::new(alloc, Condition::In(e, negated, query))?)
}

fn answer(alloc: Global, query: Query) -> Result<Operand, AllocError>
    ensures { IfOk result (λ s. view.operand s ≡ tree.scalar_subquery (view.query query)) }
{
    Ok(Operand::ScalarSubquery(Box::new(alloc, query)?))
}

/// A query in parentheses, where one may still nest.
#[cycle(query)]
#[tactic(auto, using(crate::proofs::Depth::one_deeper_query, crate::proofs::Depth::no_deeper_query), unfolding(crate::specs::Reading::subquery))]
fn subquery(alloc: Global, tokens: &mut Cursor<'_>, depth: usize) -> Result<Query, Fault>
    ensures { Gives view.query
        (spec.subquery (spec.inner_query depth) tokens.old) result tokens.old tokens.new }
{
    if depth == 0 {
        return Err(Fault::Refused);
    }
    tokens.expect(TokenKind::LeftParen)?;
    let inner = query(alloc, tokens, depth - 1)?;
    tokens.expect(TokenKind::RightParen)?;
    Ok(inner)
}

/// The right side of a comparison or an assignment: an expression, or a query in parentheses. Error: the tokens aren't
/// that (Refused), or out of memory.
#[cycle(query)]
#[tactic(auto, unfolding(crate::specs::Reading::operand))]
pub fn operand(alloc: Global, tokens: &mut Cursor<'_>, depth: usize) -> Result<Operand, Fault>
    ensures { Gives view.operand
        (spec.operand (spec.inner_query depth) tokens.old) result tokens.old tokens.new }
{
    if tokens.sees(TokenKind::LeftParen) {
        let inner = subquery(alloc, tokens, depth)?;
        Ok(answer(alloc, inner)?)
    } else {
        Ok(Operand::Expression(expr(alloc, tokens)?))
    }
}

#[cycle(query)]
#[tactic(auto, unfolding(crate::specs::Reading::member))]
fn member(
    alloc: Global,
    tokens: &mut Cursor<'_>,
    depth: usize,
    left: Expression,
) -> Result<Boxed, Fault>
    ensures { Gives (λ c. view.condition c.value)
        (spec.member (spec.inner_query depth) (view.expression left) tokens.old)
        result tokens.old tokens.new }
{
    let is_negated = tokens.eat(TokenKind::Not);
    tokens.expect(TokenKind::In)?;
    let inner = subquery(alloc, tokens, depth)?;
    Ok(within(alloc, left, is_negated, inner)?)
}

#[cycle(query)]
#[tactic(auto, unfolding(crate::specs::Reading::predicate, crate::specs::Reading::compared_by))]
fn predicate(alloc: Global, tokens: &mut Cursor<'_>, depth: usize) -> Result<Boxed, Fault>
    ensures { Gives (λ c. view.condition c.value)
        (spec.predicate (spec.inner_query depth) tokens.old) result tokens.old tokens.new }
{
    if tokens.sees(TokenKind::Exists) {
        tokens.expect(TokenKind::Exists)?;
        let inner = subquery(alloc, tokens, depth)?;
        return Ok(exists(alloc, inner)?);
    }
    let left = expr(alloc, tokens)?;
    let Some(op) = comparison_of(tokens.peek()) else {
        return member(alloc, tokens, depth, left);
    };
    tokens.skip();
    let right = operand(alloc, tokens, depth)?;
    Ok(Box::new(alloc, Condition::Compare(left, op, right))?)
}

#[cycle(query)]
#[tactic(auto, using(crate::proofs::Depth::one_deeper_neg, crate::proofs::Depth::no_deeper_neg), unfolding(crate::specs::Reading::neg, crate::specs::Reading::neg_with))]
fn neg(alloc: Global, tokens: &mut Cursor<'_>, depth: usize, nesting: usize) -> Result<Boxed, Fault>
    ensures { Gives (λ c. view.condition c.value)
        (spec.neg (spec.inner_query depth) nesting tokens.old) result tokens.old tokens.new }
{
    if tokens.sees(TokenKind::Not) {
        if nesting == 0 {
            return Err(Fault::Refused);
        }
        tokens.expect(TokenKind::Not)?;
        let inner = neg(alloc, tokens, depth, nesting - 1)?;
        Ok(negation(alloc, inner)?)
    } else if tokens.sees(TokenKind::LeftParen) {
        group(alloc, tokens, depth, nesting)
    } else {
        predicate(alloc, tokens, depth)
    }
}

/// A condition in parentheses.
#[cycle(query)]
#[tactic(auto, using(crate::proofs::Depth::one_deeper_neg, crate::proofs::Depth::no_deeper_cond), unfolding(crate::specs::Reading::group))]
fn group(
    alloc: Global,
    tokens: &mut Cursor<'_>,
    depth: usize,
    nesting: usize,
) -> Result<Boxed, Fault>
    ensures { Gives (λ c. view.condition c.value)
        (spec.group (spec.inner_neg (spec.inner_query depth) nesting) tokens.old)
        result tokens.old tokens.new }
{
    if nesting == 0 {
        return Err(Fault::Refused);
    }
    tokens.expect(TokenKind::LeftParen)?;
    let inner = cond(alloc, tokens, depth, nesting - 1)?;
    tokens.expect(TokenKind::RightParen)?;
    Ok(inner)
}

fn ands(kind: Option<TokenKind>) -> bool
    ensures yes { result ≡ true → spec.ands kind ≡ Some tree.conjunction }
    ensures no { result ≡ false → spec.ands kind ≡ None }
{
    matches!(kind, Some(TokenKind::And))
}

fn ors(kind: Option<TokenKind>) -> bool
    ensures yes { result ≡ true → spec.ors kind ≡ Some tree.disjunction }
    ensures no { result ≡ false → spec.ors kind ≡ None }
{
    matches!(kind, Some(TokenKind::Or))
}

#[cycle(query)]
#[tactic(auto, unfolding(crate::specs::Reading::conj))]
fn conj(
    alloc: Global,
    tokens: &mut Cursor<'_>,
    depth: usize,
    nesting: usize,
) -> Result<Boxed, Fault>
    ensures { Gives (λ c. view.condition c.value)
        (spec.conj (spec.neg (spec.inner_query depth) nesting) tokens.old)
        result tokens.old tokens.new }
{
    let mut left = neg(alloc, tokens, depth, nesting)?;
    'more: while ands(tokens.peek()) {
        tokens.skip();
        let right = neg(alloc, tokens, depth, nesting)?;
        left = conjunction(alloc, left, right)?;
    }
    Ok(left)
}

#[cycle(query)]
#[tactic(auto, unfolding(crate::specs::Reading::cond))]
fn cond(
    alloc: Global,
    tokens: &mut Cursor<'_>,
    depth: usize,
    nesting: usize,
) -> Result<Boxed, Fault>
    ensures { Gives (λ c. view.condition c.value)
        (spec.cond (spec.neg (spec.inner_query depth) nesting) tokens.old)
        result tokens.old tokens.new }
{
    let mut left = conj(alloc, tokens, depth, nesting)?;
    'more: while ors(tokens.peek()) {
        tokens.skip();
        let right = conj(alloc, tokens, depth, nesting)?;
        left = disjunction(alloc, left, right)?;
    }
    Ok(left)
}

/// The condition behind `where`, if it is there. Error: the tokens aren't that (Refused), or out of memory.
#[cycle(query)]
#[tactic(auto, unfolding(crate::specs::Reading::filter))]
pub fn filter(
    alloc: Global,
    tokens: &mut Cursor<'_>,
    depth: usize,
) -> Result<Option<Condition>, Fault>
    ensures { Gives view.filter
        (spec.filter (spec.inner_query depth) tokens.old) result tokens.old tokens.new }
{
    if !tokens.sees(TokenKind::Where) {
        return Ok(None);
    }
    tokens.expect(TokenKind::Where)?;
    let condition = cond(alloc, tokens, depth, MAX_NESTING)?;
    Ok(Some(Box::into_inner(condition)))
}

/// A query in which subqueries nest at most `depth` deep. Error: the tokens aren't that (Refused), or out of memory.
#[cycle(query)]
#[tactic(auto, unfolding(crate::specs::Reading::query_to, crate::specs::Reading::query_with))]
pub fn query(alloc: Global, tokens: &mut Cursor<'_>, depth: usize) -> Result<Query, Fault>
    ensures { Gives view.query (spec.query_to depth tokens.old) result tokens.old tokens.new }
{
    tokens.expect(TokenKind::Select)?;
    let items = items(alloc, tokens)?;
    tokens.expect(TokenKind::From)?;
    let sources = sources(alloc, tokens)?;
    let filter = filter(alloc, tokens, depth)?;
    Ok(Query {
        items,
        sources,
        filter,
    })
}
