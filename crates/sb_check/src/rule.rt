//! The parts of a rule that name tables and columns.
ghost use Rattle.std.specs.Prelude.{map, option_map};
ghost use Rattle.sb_check.specs.Answer.{Gives, IsRefusedFirst};
ghost use Rattle.sb_check.specs.RulePartsView.{new_parts, parts_at, rule_parts, written_actions};
ghost use Rattle.sb_check.specs.RuleParts as spec;
ghost use Rattle.sb_check.specs.Triggers.{walk_triggers};
ghost use Rattle.sb_syntax.specs.Views as view;

use crate::action::actions;
use crate::fault::CheckFault;
use crate::query::query;
use crate::schema::{InRule, Schema, TableEntry};
use crate::scope::Scope;
use crate::source::table_named;
use crate::tree::{Actions, Query};
use crate::trigger::triggers;
use sb_syntax::{AlterationText, RuleText};
use sb_value::{TableId, Triggers};
use std::alloc::Global;

/// The table, the triggers, the condition and the actions of a rule.
#[derive(Drop)]
pub struct RuleParts {
    pub table: TableId,
    pub triggers: Triggers,
    pub condition: Option<Query>,
    pub actions: Actions,
}

#[tactic(auto, unfolding(crate::specs::RuleParts::rule_condition))]
fn condition<'s, S: Schema>(
    alloc: Global,
    text: &Option<sb_syntax::Query>,
    schema: &'s S,
) -> Result<Option<Query>, CheckFault>
    ensures { Gives (λ c. c) (spec.rule_condition (S.names schema.now) (option_map view.query text.now)) result }
{
    match text {
        None => Ok(None),
        Some(text) => {
            let outermost: Scope<'s, 's> = Scope::Outermost;
            match query(alloc, text, schema, &outermost) {
                Ok(walked) => Ok(Some(Box::into_inner(walked.tree))),
                Err(fault) => Err(fault),
            }
        }
    }
}

#[tactic(auto, unfolding(crate::specs::RuleParts::rule_actions))]
fn all_actions<'s, S: Schema>(
    alloc: Global,
    list: &[sb_syntax::Action],
    schema: &'s S,
) -> Result<Actions, CheckFault>
    ensures { Gives (λ a. a) (spec.rule_actions (S.names schema.now) (map view.action list.now)) result }
{
    actions(alloc, list, schema)
}

#[tactic(auto, unfolding(crate::specs::RuleParts::parts_on))]
fn parts_on<'s, S: Schema>(
    alloc: Global,
    table: &TableEntry<'s>,
    rule: &RuleText,
    schema: &'s S,
) -> Result<RuleParts, CheckFault>
    ensures value { Gives rule_parts (parts_at (S.names schema.now) table.now (view.rule rule.now)) result }
    ensures triggers { IsRefusedFirst (walk_triggers table.now.columns.now (view.rule rule.now).triggers) result }
{
    let walked = match triggers(table.columns, rule.triggers.as_slice()) {
        Ok(walked) => walked,
        Err(reason) => return Err(CheckFault::Refused(reason)),
    };
    let inside = InRule {
        outside: schema,
        columns: table.columns,
        triggers: walked,
    };
    let condition = match condition(alloc, &rule.condition, &inside) {
        Ok(resolved) => resolved,
        Err(fault) => return Err(fault),
    };
    let actions = match all_actions(alloc, rule.actions.as_slice(), &inside) {
        Ok(resolved) => resolved,
        Err(fault) => return Err(fault),
    };
    Ok(RuleParts {
        table: table.id,
        triggers: inside.triggers,
        condition,
        actions,
    })
}

pub(crate) fn rule<'s, S: Schema>(
    alloc: Global,
    text: &RuleText,
    schema: &'s S,
) -> Result<RuleParts, CheckFault>
    ensures value { Gives rule_parts (spec.parts (S.names schema.now) (view.rule text.now)) result }
    ensures head { IsRefusedFirst (spec.walk_head (S.names schema.now) (view.rule text.now)) result }
{
    match table_named(schema, &text.table) {
        Ok(table) => parts_on(alloc, &table, text, schema),
        Err(fault) => Err(fault),
    }
}

/// A rule's new condition and actions, as far as they are written.
#[derive(Drop)]
pub struct NewParts {
    pub condition: Option<Query>,
    pub actions: Option<Actions>,
}

#[tactic(auto, unfolding(crate::specs::RuleParts::written_actions))]
fn written_actions<'s, S: Schema>(
    alloc: Global,
    list: &Option<Vec<sb_syntax::Action>>,
    schema: &'s S,
) -> Result<Option<Actions>, CheckFault>
    ensures { Gives (λ a. a) (written_actions (S.names schema.now) list.now) result }
{
    match list {
        None => Ok(None),
        Some(list) => match all_actions(alloc, list.as_slice(), schema) {
            Ok(actions) => Ok(Some(actions)),
            Err(fault) => Err(fault),
        },
    }
}

#[tactic(auto, unfolding(crate::specs::RuleParts::new_parts))]
pub(crate) fn alteration<'s, S: Schema>(
    alloc: Global,
    text: &AlterationText,
    inside: &'s S,
) -> Result<NewParts, CheckFault>
    ensures { Gives new_parts (spec.new_parts (S.names inside.now) (view.alteration text.now)) result }
{
    let condition = match condition(alloc, &text.condition, inside) {
        Ok(resolved) => resolved,
        Err(fault) => return Err(fault),
    };
    let actions = match written_actions(alloc, &text.actions, inside) {
        Ok(resolved) => resolved,
        Err(fault) => return Err(fault),
    };
    Ok(NewParts { condition, actions })
}
