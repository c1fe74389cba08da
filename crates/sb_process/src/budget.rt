//! The budget of a step.
ghost use Rattle.std.specs.Prelude.{◌≡◌, ℕ, ◌*◌, ◌-◌, ◌^◌, length, min, Some, IfOk, IfErr, Ok, Err};
ghost use Rattle.sb_eval.specs.Seen.{row_count};
ghost use Rattle.sb_eval.specs.Work as work;
ghost use Rattle.sb_process.specs.Budget as spec;
ghost use Rattle.sb_process.specs.Budget.{with_work};
ghost use Rattle.sb_process.specs.Represents.{who_in};
ghost use Rattle.sb_process.specs.View.{seen_by};

use crate::database::Database;
use crate::view::Viewer;
use sb_catalog::{Catalog, Rule};
use sb_check::{Query, Statement};
use sb_eval::{query_work, statement_work};
use sb_value::{Change, Refusal, TableId};

/// What is left after so much work. Error: TooBig if too little is left.
fn charge(left: u32, work: u64) -> Result<Option<u32>, Refusal>
    ensures { (meant : ℕ) → work ≡ min meant (2 ^ 64 - 1) → result ≡ with_work meant (Some left) Ok }
{
    if work > left as u64 {
        return Err(Refusal::TooBig);
    }
    Ok(Some(left - work as u32))
}

/// The number of rules of a table.
fn rules_on(rules: &[Rule], table: TableId) -> usize
    ensures { result ≡ length (spec.rules_on rules.now table) }
{
    let mut count = 0;
    for rule in rules {
        if rule.table == table {
            count += 1;
        }
    }
    count
}

/// The work of one change of a table. More than 64 bits hold counts as the most that they hold.
fn change_work(catalog: &Catalog, table: TableId) -> u64
    ensures { result ≡ min (spec.change_work catalog.now table) (2 ^ 64 - 1) }
{
    (rules_on(catalog.rules(), table) as u64).saturating_add(200)
}

/// The changes of a table, and what is left once they are made. Error: TooBig if too little is left.
pub(crate) fn priced(
    left: Option<u32>,
    catalog: &Catalog,
    table: TableId,
    changes: Vec<Change>,
) -> Result<(Vec<Change>, Option<u32>), Refusal>
    ensures ok { IfOk result (λ effect. (effect.0.items ≡ changes.items)
        × (spec.within_budget (spec.change_work catalog.now table) left (Ok changes.items) ≡ Ok (changes.items, effect.1))) }
    ensures err { IfErr result (λ refusal.
        spec.within_budget (spec.change_work catalog.now table) left (Ok changes.items) ≡ Err refusal) }
{
    match left_after_changes(left, catalog, table, changes.len()) {
        Ok(left) => Ok((changes, left)),
        Err(refusal) => Err(refusal),
    }
}

/// What is left once so many changes of a table are made. Error: TooBig if too little is left.
fn left_after_changes(
    left: Option<u32>,
    catalog: &Catalog,
    table: TableId,
    count: usize,
) -> Result<Option<u32>, Refusal>
    ensures { result ≡ with_work (count * spec.change_work catalog.now table) left Ok }
{
    match left {
        Some(left) => {
            let each = change_work(catalog, table);
            charge(left, (count as u64).saturating_mul(each))
        }
        None => Ok(None),
    }
}

impl Database {
    /// What is left once a statement is evaluated, before its changes. Error: TooBig if too little is left.
    pub(crate) fn left_after_statement(
        &self,
        viewer: &Viewer<'_>,
        statement: &Statement,
    ) -> Result<Option<u32>, Refusal>
        ensures { result ≡ with_work (work.statement_work
            (seen_by self.now.tables viewer.now.tables.now (who_in self.now viewer.now.session)) statement.now)
            self.now.left Ok }
    {
        match self.left {
            Some(left) => charge(left, statement_work(&self.view(viewer), statement)),
            None => Ok(None),
        }
    }

    /// What is left once a query is evaluated. Error: TooBig if too little is left.
    pub(crate) fn left_after_query(
        &self,
        viewer: &Viewer<'_>,
        query: &Query,
    ) -> Result<Option<u32>, Refusal>
        ensures { result ≡ with_work (work.query_work (row_count
            (seen_by self.now.tables viewer.now.tables.now (who_in self.now viewer.now.session))) query.now)
            self.now.left Ok }
    {
        match self.left {
            Some(left) => charge(left, query_work(&self.view(viewer), query)),
            None => Ok(None),
        }
    }
}
