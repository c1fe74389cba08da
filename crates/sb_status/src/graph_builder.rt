//! The graph of a tenant's rules: which may trigger which, and which precede which.
ghost use Rattle.std.specs.Prelude.{◌≡◌, ◌&&◌, ◌||◌};
ghost use Rattle.sb_value.specs.Flags.{share_place};

use crate::graph::Graph;
use crate::nodes::Nodes;
use sb_catalog::{Definitions, Rule};
use sb_check::{Action, Statement};
use sb_value::{Columns, RULE_LIMIT, TABLE_LIMIT, TableId, Triggers};
use std::alloc::{AllocError, Global};

/// What the actions of a rule may do to a table.
#[derive(Clone, Copy)]
struct Deeds {
    inserts: bool,
    deletes: bool,
    /// The columns that it sets.
    columns: Columns,
    updates: bool,
}

impl Deeds {
    fn none() -> Deeds {
        Deeds {
            inserts: false,
            deletes: false,
            columns: Columns::empty(),
            updates: false,
        }
    }

    /// True if a rule of these triggers may be triggered by them.
    fn may_trigger(&self, triggers: Triggers) -> bool
        ensures { result ≡ ((self.now.inserts && triggers.inserted) || (self.now.deletes && triggers.deleted)
            || (self.now.updates && (triggers.updated || share_place triggers.columns self.now.columns))) }
    {
        self.inserts && triggers.inserted
            || self.deletes && triggers.deleted
            || self.updates && (triggers.updated || triggers.columns.intersects(self.columns))
    }
}

/// The arrows between the rules by their places in the order of creation. A rule that isn't active triggers nothing and
/// isn't triggered.
pub(crate) fn graph_of(alloc: Global, definitions: &Definitions) -> Result<Graph, AllocError> {
    let rules = definitions.rules.rules();
    Ok(Graph {
        triggers: all_triggered(alloc, rules)?,
        precedes: all_preceded(alloc, definitions)?,
    })
}

fn all_triggered(alloc: Global, rules: &[Rule]) -> Result<Vec<Nodes>, AllocError> {
    let mut all = Vec::new(alloc);
    for rule in rules {
        let mut triggered = Nodes::none();
        if rule.active {
            let deeds = deeds_of(alloc, rule)?;
            note_triggered(&mut triggered, deeds.as_slice(), rules);
        }
        all.push(triggered)?;
    }
    Ok(all)
}

/// Notes the active rules that these deeds may trigger.
fn note_triggered(triggered: &mut Nodes, deeds: &[Deeds], rules: &[Rule]) {
    for (place, rule) in rules.iter().enumerate() {
        if let Some(done) = deeds.get(rule.table.index()) {
            if rule.active && done.may_trigger(rule.triggers) {
                triggered.add(place);
            }
        }
    }
}

/// What the actions of a rule may do, by the numbers of tables.
fn deeds_of(alloc: Global, rule: &Rule) -> Result<Vec<Deeds>, AllocError> {
    let mut deeds = vec![in alloc; Deeds::none(); TABLE_LIMIT]?;
    for action in rule.actions.as_slice() {
        if let Action::Change(statement) = action {
            if let Some(done) = deeds.get_mut(statement.target().index()) {
                note_deed(done, statement);
            }
        }
    }
    Ok(deeds)
}

fn note_deed(done: &mut Deeds, statement: &Statement) {
    match statement {
        Statement::InsertRows(_, _) | Statement::InsertQuery(_, _) => done.inserts = true,
        Statement::Delete(_, _) => done.deletes = true,
        Statement::Update(_, assignments, _) => {
            done.updates = true;
            for assignment in assignments.as_slice() {
                done.columns = done.columns.with_place(assignment.place);
            }
        }
    }
}

/// For each rule those that it precedes by a pair.
fn all_preceded(alloc: Global, definitions: &Definitions) -> Result<Vec<Nodes>, AllocError> {
    let rules = definitions.rules.rules();
    let mut all = vec![in alloc; Nodes::none(); rules.len()]?;
    for (place, rule) in rules.iter().enumerate() {
        let before = definitions.order.direct(rule.id);
        for (other, first) in rules.iter().enumerate() {
            if before.contains(first.id) {
                if let Some(behind) = all.get_mut(other) {
                    behind.add(place);
                }
            }
        }
    }
    Ok(all)
}
