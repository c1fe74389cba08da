//! Queries, statements and the parts of rules with their names resolved, or the first refusal.
ghost use Rattle.std.specs.Prelude.{◌≡◌, Err};
ghost use Rattle.sb_check.specs.Answer.{Answers};
ghost use Rattle.sb_check.specs.RuleParts.{walk_head, walk_parts};
ghost use Rattle.sb_check.specs.RulePartsView.{new_parts, rule_parts, walk_altered};
ghost use Rattle.sb_check.specs.Walk as spec;
ghost use Rattle.sb_syntax.specs.Views as view;

use crate::query::query;
use crate::rule::{NewParts, RuleParts, alteration, rule};
use crate::schema::{InRule, RuleEntry, Schema};
use crate::scope::Scope;
use crate::statement::statement;
use crate::tree::{Query, Statement};
use sb_syntax::{AlterationText, RuleText};
use sb_value::Refusal;
use std::alloc::Global;

/// A query that stands alone. Error: the first refusal of names and types, or NoMemory.
pub fn resolve_query<'s, S: Schema>(
    alloc: Global,
    text: &sb_syntax::Query,
    schema: &'s S,
) -> Result<Query, Refusal>
    ensures { Answers (λ q. q) (spec.walk_alone (S.names schema.now) (view.query text.now)) result }
{
    let outermost: Scope<'s, 's> = Scope::Outermost;
    match query(alloc, text, schema, &outermost) {
        Ok(walked) => Ok(Box::into_inner(walked.tree)),
        Err(fault) => Err(fault.refusal()),
    }
}

/// A statement that changes a table. Error: the first refusal of names and types, or NoMemory.
pub fn resolve_statement<'s, S: Schema>(
    alloc: Global,
    text: &sb_syntax::Statement,
    schema: &'s S,
) -> Result<Statement, Refusal>
    ensures { Answers (λ s. s) (spec.walk_statement (S.names schema.now) (view.statement text.now)) result }
{
    match statement(alloc, text, schema) {
        Ok(statement) => Ok(statement),
        Err(fault) => Err(fault.refusal()),
    }
}

/// The names and types of a rule's text: its table, then its triggers, its condition, its actions. Error: the first
/// refusal of names and types in this order, or NoMemory.
pub fn resolve_rule<'s, S: Schema>(
    alloc: Global,
    text: &RuleText,
    schema: &'s S,
) -> Result<RuleParts, Refusal>
    ensures value { Answers rule_parts (walk_parts (S.names schema.now) (view.rule text.now)) result }

    // A look-up that takes no memory isn't answered as want of memory.
    ensures head { (e : Refusal) → walk_head (S.names schema.now) (view.rule text.now) ≡ Err e → result ≡ Err e }
{
    match rule(alloc, text, schema) {
        Ok(parts) => Ok(parts),
        Err(fault) => Err(fault.refusal()),
    }
}

/// The names and types of a rule's new parts, where the rule has these triggers on a table with these columns: its
/// condition, then its actions. Error: the first refusal of names and types, or NoMemory.
pub fn resolve_alteration<'s, S: Schema>(
    alloc: Global,
    text: &AlterationText,
    rule: &RuleEntry<'s>,
    schema: &'s S,
) -> Result<NewParts, Refusal>
    ensures { Answers new_parts (walk_altered (S.names schema.now) rule.now (view.alteration text.now)) result }
{
    let inside = InRule {
        outside: schema,
        columns: rule.columns,
        triggers: rule.triggers,
    };
    match alteration(alloc, text, &inside) {
        Ok(parts) => Ok(parts),
        Err(fault) => Err(fault.refusal()),
    }
}
