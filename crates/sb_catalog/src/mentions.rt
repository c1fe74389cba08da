//! Tests whether statements and queries name a table.
ghost use Rattle.std.specs.Prelude.{◌≡◌, ◌||◌};
ghost use Rattle.std.specs.List.{list_any};
ghost use Rattle.sb_check.specs.Mentions.{mentioned, query_sources};
ghost use Rattle.sb_catalog.specs.Uses as spec;
ghost use Rattle.sb_catalog.specs.Uses.{has_source};

use crate::rule::Rule;
use sb_check::{Action, Query, Source, SourceVisitor, Statement, visit_query, visit_statement};
use sb_value::TableId;
use std::convert::Infallible;

/// A search for a table among the sources that are shown.
#[derive(Drop)]
struct Search {
    table: TableId,
    is_found: bool,
}

impl SourceVisitor for Search {
    type Stop = Infallible;

    ghost after = { λ s source. record s { is_found = s.is_found || spec.is_table s.table source } };

    fn visit(&mut self, source: Source) -> Result<(), Infallible> {
        self.is_found = self.is_found || is_table(self.table, source);
        Ok(())
    }
}

/// True if a rule is on the table or names it.
pub(crate) fn rule_names(table: TableId, rule: &Rule) -> bool
    ensures { result ≡ spec.rule_names table rule.now }
{
    rule.table == table
        || rule_condition_names(table, &rule.condition)
        || actions_name(table, rule.actions.as_slice())
}

fn rule_condition_names(table: TableId, condition: &Option<Query>) -> bool
    ensures { result ≡ spec.condition_names table condition.now }
{
    match condition {
        Some(query) => query_names(table, query),
        None => false,
    }
}

fn actions_name(table: TableId, actions: &[Action]) -> bool
    ensures { result ≡ list_any (spec.action_names table) actions.now }
{
    actions.iter().any(|action| action_names(table, action))
}

fn action_names(table: TableId, action: &Action) -> bool
    ensures { result ≡ spec.action_names table action.now }
{
    match action {
        Action::Change(statement) => statement_names(table, statement),
        Action::Rollback => false,
    }
}

#[tactic(auto, using(crate::proofs::Sought::named_by))]
fn statement_names(table: TableId, statement: &Statement) -> bool
    ensures { result ≡ spec.statement_names table statement.now }
{
    statement.target() == table || mentions(table, statement)
}

#[tactic(auto, using(crate::proofs::Sought::sought))]
fn mentions(table: TableId, statement: &Statement) -> bool
    ensures { result ≡ has_source table (mentioned statement.now) }
{
    let mut search = Search {
        table,
        is_found: false,
    };
    let Ok(()) = visit_statement(statement, &mut search);
    search.is_found
}

#[tactic(auto, using(crate::proofs::Sought::sought))]
fn query_names(table: TableId, query: &Query) -> bool
    ensures { result ≡ has_source table (query_sources query.now) }
{
    let mut search = Search {
        table,
        is_found: false,
    };
    let Ok(()) = visit_query(query, &mut search);
    search.is_found
}

fn is_table(table: TableId, source: Source) -> bool
    ensures { result ≡ spec.is_table table source }
{
    match source {
        Source::Table(id) => id == table,
        _ => false,
    }
}
