//! Statements that change a table.
ghost use Rattle.std.specs.Prelude.{◌≡◌, ◌==◌, true, map, length};
ghost use Rattle.std.specs.List.{list_any};
ghost use Rattle.sb_check.specs.Answer.{Gives};
ghost use Rattle.sb_check.specs.Statements as statements;
ghost use Rattle.sb_check.specs.Statements.{update_in, written_filter};
ghost use Rattle.sb_check.specs.Scopes.{scope_of};
ghost use Rattle.sb_check.specs.Walk as spec;
ghost use Rattle.sb_syntax.specs.Views as view;

use crate::expression::byte;
use crate::fault::{CheckFault, Reason};
use crate::query::{always, condition, operand, query};
use crate::schema::{Schema, TableEntry};
use crate::scope::{Scope, Visible, column_in};
use crate::source::table_named;
use crate::tree::{Assignment, Assignments, Condition, Statement};
use crate::types::same_type;
use sb_syntax::TableReference;
use sb_value::{ColumnDefinition, Tuples, Value};
use std::alloc::Global;

/// True if the values fit the columns, of which there are as many, in order.
fn row_types(values: &[Value], columns: &[ColumnDefinition]) -> Result<(), CheckFault>
    requires { length values.now ≡ length columns.now }
    ensures { Gives (λ _. true) (spec.of_types (map spec.type_of values.now) columns.now) result }
{
    for (place, value) in values.iter().enumerate() {
        if !same_type(value.column_type(), columns[place].of) {
            return Err(CheckFault::Refused(Reason::BadType));
        }
    }
    Ok(())
}

/// First the number of values, then their types.
fn row_fits(values: &[Value], columns: &[ColumnDefinition]) -> Result<(), CheckFault>
    ensures { Gives (λ _. true) (spec.fitting (map spec.type_of values.now) columns.now) result }
{
    if values.len() != columns.len() {
        return Err(CheckFault::Refused(Reason::WrongCount));
    }
    row_types(values, columns)
}

fn rows_fit(columns: &[ColumnDefinition], rows: &Tuples) -> Result<(), CheckFault>
    ensures { Gives (λ _. true) (statements.rows_fitting columns.now rows.now) result }
{
    let mut left = rows.iter();
    'more: while let Some(row) = left.next() {
        match row_fits(row, columns) {
            Ok(()) => {}
            Err(fault) => return Err(fault),
        }
    }
    Ok(())
}

#[tactic(auto, unfolding(crate::specs::Statements::rows_into))]
fn insert_rows(table: &TableEntry<'_>, rows: &Tuples) -> Result<Statement, CheckFault>
    ensures { Gives (λ s. s) (statements.rows_into table.now.id table.now.columns.now rows.now) result }
{
    rows_fit(table.columns, rows)?;
    Ok(Statement::InsertRows(table.id, rows.clone()?))
}

#[tactic(auto, unfolding(crate::specs::Statements::query_into))]
fn insert_query<'s, S: Schema>(
    alloc: Global,
    table: &TableEntry<'s>,
    q: &sb_syntax::Query,
    schema: &'s S,
) -> Result<Statement, CheckFault>
    ensures { Gives (λ s. s) (statements.insert_into (S.names schema.now) table.now (view.query q.now)) result }
{
    let outermost: Scope<'s, 's> = Scope::Outermost;
    let walked = query(alloc, q, schema, &outermost)?;
    walked.types.fit(table.columns)?;
    Ok(Statement::InsertQuery(table.id, Box::into_inner(walked.tree)))
}

/// The condition of a delete or an update, over the table alone.
#[tactic(auto, using(crate::proofs::Equations::filter_walks))]
fn table_filter<'s, S: Schema>(
    alloc: Global,
    table: &TableEntry<'s>,
    f: &Option<Box<sb_syntax::Condition>>,
    schema: &'s S,
) -> Result<Condition, CheckFault>
    ensures { Gives (λ c. c) (statements.filter_over (S.names schema.now) table.now (written_filter f.now)) result }
{
    let visible = [Visible {
        name: TableReference::Named(table.name),
        columns: table.columns,
    }];
    let outermost = Scope::Outermost;
    let scope = Scope::Within(&visible, &outermost);
    match f {
        Some(c) => Ok(Box::into_inner(condition(alloc, c, schema, &scope)?)),
        None => Ok(always()),
    }
}

#[tactic(auto, unfolding(crate::specs::Statements::delete_of))]
fn delete<'s, S: Schema>(
    alloc: Global,
    table: &TableEntry<'s>,
    f: &Option<Box<sb_syntax::Condition>>,
    schema: &'s S,
) -> Result<Statement, CheckFault>
    ensures { Gives (λ s. s) (statements.delete_from (S.names schema.now) table.now (written_filter f.now)) result }
{
    let condition = table_filter(alloc, table, f, schema)?;
    Ok(Statement::Delete(table.id, condition))
}

/// True if a column was assigned before.
fn is_assigned(done: &[Assignment], place: usize) -> bool
    ensures { result ≡ list_any (λ k. k == place) (map (λ a. a.place) done.now) }
{
    for assignment in done {
        if assignment.place as usize == place {
            return true;
        }
    }
    false
}

/// Each assignment in order, in the scope of the table alone.
#[inline(always)]
fn each_assignment<'s, S: Schema>(
    alloc: Global,
    table: &TableEntry<'s>,
    list: &[sb_syntax::Assignment],
    schema: &'s S,
    scope: &Scope<'_, 's>,
) -> Result<Assignments, CheckFault>
    requires { scope_of scope.now ≡ statements.table_scope table.now.name table.now.columns.now }
    ensures { Gives (λ a. a) (statements.assignments_of (S.names schema.now) table.now list.now) result }
{
    let mut done = Assignments::new(alloc);
    for assignment in list {
        let Some((place, of)) = column_in(table.columns, &assignment.column) else {
            return Err(CheckFault::Refused(Reason::NoColumn));
        };
        if is_assigned(done.as_slice(), place) {
            return Err(CheckFault::Refused(Reason::Ambiguous));
        }
        let at = byte(place)?;
        let value = match operand(alloc, &assignment.operand, schema, scope) {
            Ok(value) => value,
            Err(fault) => return Err(fault),
        };
        if !same_type(value.of, of) {
            return Err(CheckFault::Refused(Reason::BadType));
        }
        done.push(Assignment {
            place: at,
            operand: value.tree,
        })?;
    }
    Ok(done)
}

/// Each assignment in order, over the table alone.
fn assignments<'s, S: Schema>(
    alloc: Global,
    table: &TableEntry<'s>,
    list: &[sb_syntax::Assignment],
    schema: &'s S,
) -> Result<Assignments, CheckFault>
    ensures { Gives (λ a. a) (statements.assignments_of (S.names schema.now) table.now list.now) result }
{
    let visible = [Visible {
        name: TableReference::Named(table.name),
        columns: table.columns,
    }];
    let outermost = Scope::Outermost;
    let scope = Scope::Within(&visible, &outermost);
    each_assignment(alloc, table, list, schema, &scope)
}

#[tactic(auto, unfolding(crate::specs::Statements::update_of))]
fn update<'s, S: Schema>(
    alloc: Global,
    table: &TableEntry<'s>,
    list: &[sb_syntax::Assignment],
    f: &Option<Box<sb_syntax::Condition>>,
    schema: &'s S,
) -> Result<Statement, CheckFault>
    ensures { Gives (λ s. s) (update_in (S.names schema.now) table.now list.now (written_filter f.now)) result }
{
    let places = assignments(alloc, table, list, schema)?;
    let condition = table_filter(alloc, table, f, schema)?;
    Ok(Statement::Update(table.id, places, condition))
}

/// A statement: its table, and then its rows, its query, or its assignments and its condition.
pub(crate) fn statement<'s, S: Schema>(
    alloc: Global,
    text: &sb_syntax::Statement,
    schema: &'s S,
) -> Result<Statement, CheckFault>
    ensures { Gives (λ s. s) (spec.walk_statement (S.names schema.now) (view.statement text.now)) result }
{
    match text {
        sb_syntax::Statement::InsertRows(name, rows) => match table_named(schema, name) {
            Ok(table) => insert_rows(&table, rows),
            Err(fault) => Err(fault),
        },
        sb_syntax::Statement::InsertQuery(name, q) => match table_named(schema, name) {
            Ok(table) => insert_query(alloc, &table, q, schema),
            Err(fault) => Err(fault),
        },
        sb_syntax::Statement::Delete(name, f) => match table_named(schema, name) {
            Ok(table) => delete(alloc, &table, f, schema),
            Err(fault) => Err(fault),
        },
        sb_syntax::Statement::Update(name, list, f) => match table_named(schema, name) {
            Ok(table) => update(alloc, &table, list.as_slice(), f, schema),
            Err(fault) => Err(fault),
        },
    }
}
