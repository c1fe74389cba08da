//! The rules of a tenant as lines.

use crate::draft::Draft;
use crate::stand_ins::{Beginnings, StandIns};
use sb_catalog::{Rule, RuleClauses};
use sb_tenant::Tenant;
use std::alloc::{AllocError, Global};

/// Writes the rules in order of creation, without their order of precedence, each active.
pub(crate) fn write_rules(
    alloc: Global,
    draft: &mut Draft,
    tenant: &Tenant,
) -> Result<(), AllocError> {
    let catalog = &tenant.definitions().rules;
    let rules = catalog.rules();
    // A rule is on a table, so that there is one for stand-ins, too.
    let Some((table, _)) = tenant.tables().at(0) else {
        return Ok(());
    };
    let body = stand_in_body(alloc, table.as_slice())?;
    let mut stand_ins = StandIns::new(b"rule", body.as_slice(), free_beginning(rules));
    for (rule, clauses) in rules.iter().zip(catalog.clauses().iter()) {
        stand_ins.make_way(draft, rule.id.number())?;
        write_rule(draft, rule, clauses)?;
    }
    stand_ins.leave(draft)
}

/// Writes which rules aren't active.
pub(crate) fn write_inactive(draft: &mut Draft, rules: &[Rule]) -> Result<(), AllocError> {
    for rule in rules {
        if !rule.active {
            draft.line(&[b"deactivate rule ", rule.name.as_slice()])?;
        }
    }
    Ok(())
}

/// What a rule says that only holds a number, on that table.
fn stand_in_body(alloc: Global, table: &[u8]) -> Result<Vec<u8>, AllocError> {
    let mut body = Vec::new(alloc);
    body.extend_from_slice(b" on ")?;
    body.extend_from_slice(table)?;
    body.extend_from_slice(b" when inserted then rollback")?;
    Ok(body)
}

/// Two letters that no rule's name begins with.
fn free_beginning(rules: &[Rule]) -> [u8; 2] {
    let mut beginnings = Beginnings::new();
    for rule in rules {
        beginnings.note(&rule.name);
    }
    beginnings.free()
}

/// Writes one rule: in a line, or if that is too long in one for each of its clauses.
fn write_rule(draft: &mut Draft, rule: &Rule, clauses: &RuleClauses) -> Result<(), AllocError> {
    let name = rule.name.as_slice();
    let actions = clauses.actions.as_slice();
    let condition = match &clauses.condition {
        Some(condition) => condition.as_slice(),
        None => &[],
    };
    draft.put(b"create rule ")?;
    draft.put(name)?;
    draft.put(b" on")?;
    draft.put(clauses.event.as_slice())?;
    if is_short(draft, condition, actions) {
        if !condition.is_empty() {
            draft.put(b" if")?;
            draft.put(condition)?;
        }
        draft.put(b" then")?;
        draft.put(actions)?;
        return draft.end();
    }
    draft.put(b" then rollback")?;
    draft.end()?;
    if !condition.is_empty() {
        draft.line(&[b"alter rule ", name, b" if", condition])?;
    }
    draft.line(&[b"alter rule ", name, b" then", actions])
}

/// True if a line is short enough with a condition and actions more.
fn is_short(draft: &Draft, condition: &[u8], actions: &[u8]) -> bool {
    let words = b" if then".len();
    let parts = condition.len().saturating_add(actions.len());
    draft.has_room(parts.saturating_add(words))
}
