//! A rule.
ghost use Rattle.std.specs.Prelude.{◌≡◌, unwrap_or};
ghost use Rattle.sb_check.specs.RulePartsView.{new_parts, rule_parts};
ghost use Rattle.sb_catalog.specs.Rules.{rule_of, set_parts, written_or};

use crate::clauses::{NewClauses, RuleClauses};
use sb_check::{Actions, NewParts, Query, RuleParts};
use sb_value::{Name, RuleId, TableId, Triggers};

/// A rule with its names resolved.
pub struct Rule {
    pub id: RuleId,
    pub name: Name,
    pub table: TableId,
    pub triggers: Triggers,
    pub condition: Option<Query>,
    pub actions: Actions,
    /// True if it is considered at all.
    pub active: bool,
}

impl Drop for Rule {
    fn drop(self) {
        let Self {
            id: _,
            name: _,
            table: _,
            triggers: _,
            condition: _,
            actions: _,
            active: _,
        } = self;
    }
}

/// A rule that is read and isn't made yet: what its names mean, and its clauses as texts.
#[derive(Drop)]
pub struct ReadRule {
    pub parts: RuleParts,
    pub clauses: RuleClauses,
}

/// New parts of a rule, as far as they are written, with their clauses.
#[derive(Drop)]
pub struct ReadAlteration {
    pub parts: NewParts,
    pub clauses: NewClauses,
}

/// The active rule of that number and name with these parts.
pub(crate) fn rule_of_parts(id: RuleId, name: Name, parts: RuleParts) -> Rule
    ensures { result ≡ rule_of id name (rule_parts parts) }
{
    Rule {
        id,
        name,
        table: parts.table,
        triggers: parts.triggers,
        condition: parts.condition,
        actions: parts.actions,
        active: true,
    }
}

impl Rule {
    /// Puts new parts in the place of the old ones, as far as they are written.
    pub(crate) fn alter(&mut self, parts: NewParts)
        ensures { self.new ≡ set_parts (new_parts parts) self.old }
    {
        self.put_condition(parts.condition);
        self.put_actions(parts.actions);
    }

    fn put_condition(&mut self, written: Option<Query>)
        ensures { self.new ≡ record self.old { condition = written_or written self.old.condition } }
    {
        let Some(condition) = written else {
            return;
        };
        self.condition = Some(condition);
    }

    fn put_actions(&mut self, written: Option<Actions>)
        ensures { self.new ≡ record self.old { actions = unwrap_or written self.old.actions } }
    {
        let Some(actions) = written else {
            return;
        };
        self.actions = actions;
    }
}
