//! The text of a rule.

ghost use Rattle.std.specs.Prelude.{◌≡◌, map, option_map, length};
ghost use Rattle.sb_syntax.specs.Reading as spec;
ghost use Rattle.sb_syntax.specs.Reading.{Gives};
ghost use Rattle.sb_syntax.specs.Views as view;

use crate::cursor::Cursor;
use crate::error::Fault;
use crate::kind::TokenKind;
use crate::list::{Item, list};
use crate::literal::{name_after, names};
use crate::query::query;
use crate::statement::{MAX_DEPTH, change};
use crate::tree::{Action, AlterationText, Query, RuleText, Trigger};
use sb_value::Name;
use std::alloc::Global;

/// The most actions of a rule.
const MAX_ACTIONS: usize = 8;

/// The columns behind `updated`.
#[tactic(auto, unfolding(crate::specs::Reading::updated_of))]
fn updated_of(alloc: Global, tokens: &mut Cursor<'_>) -> Result<Trigger, Fault>
    ensures { Gives view.trigger (spec.updated_of tokens.old) result tokens.old tokens.new }
{
    if !tokens.sees(TokenKind::LeftParen) {
        return Ok(Trigger::Update);
    }
    tokens.expect(TokenKind::LeftParen)?;
    let columns = names(alloc, tokens)?;
    tokens.expect(TokenKind::RightParen)?;
    Ok(Trigger::UpdateOf(columns))
}

impl Item for Trigger {
    ghost gives = { λ old r new. Gives view.trigger (spec.trigger old) r old new };

    #[tactic(auto, unfolding(crate::specs::Reading::trigger, crate::specs::Reading::updated, crate::specs::Reading::word))]
    fn read(alloc: Global, tokens: &mut Cursor<'_>) -> Result<Trigger, Fault> {
        match tokens.peek() {
            Some(TokenKind::Inserted) => {
                tokens.expect(TokenKind::Inserted)?;
                Ok(Trigger::Insert)
            }
            Some(TokenKind::Deleted) => {
                tokens.expect(TokenKind::Deleted)?;
                Ok(Trigger::Delete)
            }
            _ => {
                tokens.expect(TokenKind::Updated)?;
                updated_of(alloc, tokens)
            }
        }
    }
}

fn triggers(alloc: Global, tokens: &mut Cursor<'_>) -> Result<Vec<Trigger>, Fault>
    ensures { Gives (λ v. map view.trigger v.items)
        (spec.separated TokenKind.Comma spec.trigger tokens.old) result tokens.old tokens.new }
{
    list(alloc, tokens, TokenKind::Comma, None)
}

#[tactic(auto, unfolding(crate::specs::Reading::condition_if))]
fn condition(alloc: Global, tokens: &mut Cursor<'_>) -> Result<Option<Query>, Fault>
    ensures { Gives (option_map view.query)
        (spec.condition_if tokens.old) result tokens.old tokens.new }
{
    if !tokens.sees(TokenKind::If) {
        return Ok(None);
    }
    tokens.expect(TokenKind::If)?;
    Ok(Some(query(alloc, tokens, MAX_DEPTH)?))
}

impl Item for Action {
    ghost gives = { λ old r new. Gives view.action (spec.action old) r old new };

    #[tactic(auto, unfolding(crate::specs::Reading::action, crate::specs::Reading::word))]
    fn read(alloc: Global, tokens: &mut Cursor<'_>) -> Result<Action, Fault> {
        if tokens.sees(TokenKind::Rollback) {
            tokens.expect(TokenKind::Rollback)?;
            Ok(Action::Rollback)
        } else {
            Ok(Action::Change(change(alloc, tokens)?))
        }
    }
}

fn actions(alloc: Global, tokens: &mut Cursor<'_>) -> Result<Vec<Action>, Fault>
    ensures { Gives (λ v. map view.action v.items)
        (spec.actions tokens.old) result tokens.old tokens.new }
{
    list(alloc, tokens, TokenKind::Semicolon, Some(MAX_ACTIONS))
}

/// The names behind this word, if it stands there.
#[tactic(auto, unfolding(crate::specs::Reading::listed))]
fn listed(alloc: Global, tokens: &mut Cursor<'_>, kind: TokenKind) -> Result<Vec<Name>, Fault>
    ensures { Gives (λ v. v.items) (spec.listed kind tokens.old) result tokens.old tokens.new }
{
    if !tokens.sees(kind) {
        return Ok(Vec::new(alloc));
    }
    tokens.expect(kind)?;
    names(alloc, tokens)
}

/// A rule up to its triggers.
#[derive(Drop)]
struct RuleHead {
    name: Name,
    table: Name,
    triggers: Vec<Trigger>,
}

#[tactic(auto, unfolding(crate::specs::Reading::rule_head))]
fn head(alloc: Global, tokens: &mut Cursor<'_>) -> Result<RuleHead, Fault>
    ensures { Gives (λ h. (h.name, h.table, map view.trigger h.triggers.items))
        (spec.rule_head tokens.old) result tokens.old tokens.new }
{
    let name = name_after(tokens, TokenKind::Rule)?;
    let table = name_after(tokens, TokenKind::On)?;
    tokens.expect(TokenKind::When)?;
    let triggers = triggers(alloc, tokens)?;
    Ok(RuleHead {
        name,
        table,
        triggers,
    })
}

#[tactic(auto, unfolding(crate::specs::Reading::rule_body))]
fn body(alloc: Global, tokens: &mut Cursor<'_>, head: RuleHead) -> Result<RuleText, Fault>
    ensures { Gives view.rule
        (spec.rule_body (head.name, head.table, map view.trigger head.triggers.items) tokens.old)
        result tokens.old tokens.new }
{
    let condition = condition(alloc, tokens)?;
    tokens.expect(TokenKind::Then)?;
    let actions = actions(alloc, tokens)?;
    let precedes = listed(alloc, tokens, TokenKind::Precedes)?;
    let follows = listed(alloc, tokens, TokenKind::Follows)?;
    Ok(RuleText {
        name: head.name,
        table: head.table,
        triggers: head.triggers,
        condition,
        actions,
        precedes,
        follows,
    })
}

/// A rule, behind `create rule`. Error: the tokens aren't that (Refused), or out of memory.
#[tactic(auto, unfolding(crate::specs::Reading::rule))]
pub fn rule(alloc: Global, tokens: &mut Cursor<'_>) -> Result<RuleText, Fault>
    ensures { Gives view.rule (spec.rule tokens.old) result tokens.old tokens.new }
{
    let head = head(alloc, tokens)?;
    body(alloc, tokens, head)
}

/// The actions behind `then`, if it stands there.
#[tactic(auto, unfolding(crate::specs::Reading::actions_then))]
fn actions_then(alloc: Global, tokens: &mut Cursor<'_>) -> Result<Option<Vec<Action>>, Fault>
    ensures { Gives (option_map (λ v. map view.action v.items))
        (spec.actions_then tokens.old) result tokens.old tokens.new }
{
    if !tokens.sees(TokenKind::Then) {
        return Ok(None);
    }
    tokens.expect(TokenKind::Then)?;
    Ok(Some(actions(alloc, tokens)?))
}

/// New parts of a rule, behind `alter`. Error: the tokens aren't that (Refused), or out of memory.
#[tactic(auto, unfolding(crate::specs::Reading::alteration))]
pub fn alteration(alloc: Global, tokens: &mut Cursor<'_>) -> Result<AlterationText, Fault>
    ensures { Gives view.alteration (spec.alteration tokens.old) result tokens.old tokens.new }
{
    let name = name_after(tokens, TokenKind::Rule)?;
    let condition = condition(alloc, tokens)?;
    let actions = actions_then(alloc, tokens)?;
    let precedes = listed(alloc, tokens, TokenKind::Precedes)?;
    let follows = listed(alloc, tokens, TokenKind::Follows)?;
    let nopriority = listed(alloc, tokens, TokenKind::NoPriority)?;
    Ok(AlterationText {
        name,
        condition,
        actions,
        precedes,
        follows,
        nopriority,
    })
}
