//! Whole commands with their names resolved.
ghost use Rattle.std.specs.Prelude.{◌≡◌, IfOk};
ghost use Rattle.std.specs.List.{list_any};
ghost use Rattle.sb_value.specs.Name.{same_name};
ghost use Rattle.sb_check.specs.Answer.{Answers};
ghost use Rattle.sb_check.specs.Fits.{Fits, HasTypesInRules};
ghost use Rattle.sb_check.specs.Resolved.{named_twice, new_table, resolved, walk_names};
ghost use Rattle.sb_syntax.specs.Tree.{create_table, drop_table};
ghost use Rattle.sb_syntax.specs.Views as view;

use crate::parts::{resolve_query, resolve_rule, resolve_statement};
use crate::rule::RuleParts;
use crate::schema::Schema;
use crate::scope::is_named;
use crate::tree::{Query, Statement};
use sb_syntax::{Command, Definition, TransactionCommand};
use sb_value::{ColumnDefinition, Name, Refusal, TableId};
use std::alloc::Global;

/// A command by the tables. `Plain` names nothing that they know.
#[derive(Drop)]
pub enum Resolved {
    Plain,
    /// A table of that name and with these columns may be made.
    NewTable,
    Table(TableId),
    Rule(RuleParts),
    Query(Query),
    Change(Statement),
}

/// A command with its names and types. What it gives can be evaluated: no column lies out of range, and no text stands
/// where a number is asked for. Error: the first refusal of names and types in the order of the text, or NoMemory.
pub fn resolve<'s, S: Schema>(
    alloc: Global,
    text: &Command,
    schema: &'s S,
) -> Result<Resolved, Refusal>
    ensures walk { Answers resolved (walk_names (S.names schema.now) (view.command text.now)) result }
    ensures fits { IfOk result (λ r. Fits (S.names schema.now) (resolved r)) }

    // There are such types, whatever rule the command is part of.
    ensures types { HasTypesInRules (S.names schema.now) }
{
    // for the proof: a table's number tells its columns
    schema.tells_columns();
    command(alloc, text, schema)
}

fn command<'s, S: Schema>(alloc: Global, text: &Command, schema: &'s S) -> Result<Resolved, Refusal>
    ensures { Answers resolved (walk_names (S.names schema.now) (view.command text.now)) result }
{
    match text {
        Command::OpenSession | Command::EndSession | Command::Begin => Ok(Resolved::Plain),
        Command::Definition(text) => definition(alloc, text, schema),
        Command::InTransaction(text) => transaction_command(alloc, text, schema),
    }
}

fn definition<'s, S: Schema>(
    alloc: Global,
    text: &Definition,
    schema: &'s S,
) -> Result<Resolved, Refusal>
    ensures { Answers resolved (walk_names (S.names schema.now) (view.definition text.now)) result }
{
    match text {
        Definition::CreateTable(name, columns) => new_table(name, columns.as_slice(), schema),
        Definition::DropTable(name) => old_table(name, schema),
        Definition::CreateRule(rule) => match resolve_rule(alloc, rule, schema) {
            Ok(parts) => Ok(Resolved::Rule(parts)),
            Err(refusal) => Err(refusal),
        },
        Definition::AlterRule(_)
        | Definition::DropRule(_)
        | Definition::ActivateRule(_)
        | Definition::DeactivateRule(_)
        | Definition::CreateRuleset(_)
        | Definition::DropRuleset(_)
        | Definition::AddRules(_, _)
        | Definition::DelRules(_, _) => Ok(Resolved::Plain),
    }
}

fn transaction_command<'s, S: Schema>(
    alloc: Global,
    text: &TransactionCommand,
    schema: &'s S,
) -> Result<Resolved, Refusal>
    ensures { Answers resolved
        (walk_names (S.names schema.now) (view.transaction_command text.now)) result }
{
    match text {
        TransactionCommand::Query(query) => match resolve_query(alloc, query, schema) {
            Ok(query) => Ok(Resolved::Query(query)),
            Err(refusal) => Err(refusal),
        },
        TransactionCommand::Change(change) => match resolve_statement(alloc, change, schema) {
            Ok(statement) => Ok(Resolved::Change(statement)),
            Err(refusal) => Err(refusal),
        },
        TransactionCommand::Commit
        | TransactionCommand::Rollback
        | TransactionCommand::ProcessRules
        | TransactionCommand::ProcessRuleset(_)
        | TransactionCommand::ProcessRule(_) => Ok(Resolved::Plain),
    }
}

/// True if a table of that name and with these columns may be made. Error: TableExists, Ambiguous where two columns
/// have one name, TooManyTables or NoMemory.
pub fn resolve_new_table<S: Schema>(
    name: &Name,
    columns: &[ColumnDefinition],
    schema: &S,
) -> Result<(), Refusal>
    ensures { Answers (λ u. new_table) (walk_names (S.names schema.now) (create_table name.now columns.now)) result }
{
    if has_table(schema, name) {
        return Err(Refusal::TableExists);
    }
    if is_named_twice(columns) {
        return Err(Refusal::Ambiguous);
    }
    Ok(())
}

fn new_table<S: Schema>(
    name: &Name,
    columns: &[ColumnDefinition],
    schema: &S,
) -> Result<Resolved, Refusal>
    ensures { Answers resolved (walk_names (S.names schema.now) (create_table name.now columns.now)) result }
{
    match resolve_new_table(name, columns, schema) {
        Ok(()) => Ok(Resolved::NewTable),
        Err(refusal) => Err(refusal),
    }
}

/// True if there is a table of that name.
fn has_table<S: Schema>(schema: &S, name: &Name) -> bool
    ensures { result ≡ list_any (λ e. same_name e.name name.now) (S.names schema.now).tables }
{
    match schema.table(name) {
        Some(_) => true,
        None => false,
    }
}

fn old_table<S: Schema>(name: &Name, schema: &S) -> Result<Resolved, Refusal>
    ensures { Answers resolved (walk_names (S.names schema.now) (drop_table name.now)) result }
{
    match schema.table(name) {
        Some(table) => Ok(Resolved::Table(table.id)),
        None => Err(Refusal::NoTable),
    }
}

/// True if two columns have one name.
fn is_named_twice(columns: &[ColumnDefinition]) -> bool
    ensures { result ≡ named_twice columns.now }
{
    match columns {
        [] => false,
        [first, rest @ ..] => has_name(rest, &first.name) || is_named_twice(rest),
    }
}

fn has_name(columns: &[ColumnDefinition], name: &Name) -> bool
    ensures { result ≡ list_any (λ c. same_name name.now c.name) columns.now }
{
    columns.iter().any(|column| is_named(name, &column.name))
}
