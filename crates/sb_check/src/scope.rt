//! The sources around an expression, and the columns that names in it mean.
ghost use Rattle.std.specs.Prelude.{◌≡◌, ◌+◌, option_map, Ok};
ghost use Rattle.sb_check.specs.Answer.{Gives};
ghost use Rattle.sb_check.specs.Names as spec;
ghost use Rattle.sb_check.specs.Scopes.{scope_of, found, at_place};
ghost use Rattle.sb_value.specs.Name.{same_name};

use crate::fault::{CheckFault, Reason};
use sb_syntax::{ColumnReference, TableReference};
use sb_value::{ColumnDefinition, ColumnType, Name};
use std::marker::Model;

/// A source as a query sees it: its visible name and its columns.
#[derive(Drop)]
pub(crate) struct Visible<'a> {
    pub(crate) name: TableReference,
    pub(crate) columns: &'a [ColumnDefinition],
}

impl<'a> Model for Visible<'a> {
    ghost use Rattle.sb_check.specs.Names.{Visible as Seen};

    ghost Value = { Seen };

    ghost view = { λ v. record { name = v.name; columns = v.columns.now } };
}

/// `inserted` with no column. An unused place of a list holds it.
impl<'a> Default for Visible<'a> {
    fn default() -> Visible<'a> {
        Visible {
            name: TableReference::Inserted,
            columns: &[],
        }
    }
}

/// The sources of the queries around an expression, the innermost first.
#[derive(Drop)]
pub(crate) enum Scope<'a, 's> {
    Outermost,
    Within(&'a [Visible<'s>], &'a Scope<'a, 's>),
}

/// A column: how many queries outward, which of its sources, which place, and its type.
#[derive(Clone, Copy)]
pub(crate) struct FoundColumn {
    pub(crate) depth: usize,
    pub(crate) source: usize,
    pub(crate) place: usize,
    pub(crate) of: ColumnType,
}

/// True if the two names have the same bytes.
#[inline(always)]
#[tactic(auto, using(crate::proofs::SameName::names_tie))]
pub(crate) fn is_named(a: &Name, b: &Name) -> bool
    ensures { result ≡ same_name a.now b.now }
{
    a.as_slice() == b.as_slice()
}

/// The place and the type of a column.
#[inline(always)]
pub(crate) fn column_in(columns: &[ColumnDefinition], name: &Name) -> Option<(usize, ColumnType)>
    ensures { result ≡ spec.column_in columns.now name.now }
{
    for (place, column) in columns.iter().enumerate() {
        if is_named(&column.name, name) {
            return Some((place, column.of));
        }
    }
    None
}

/// The one column of that name in a query's sources.
#[inline(always)]
fn holder(
    depth: usize,
    sources: &[Visible<'_>],
    name: &Name,
) -> Result<Option<FoundColumn>, CheckFault>
    ensures { Gives (option_map found) (at_place (spec.holders depth 0 sources.now name.now)) result }
{
    let mut one: Option<FoundColumn> = None;
    for (source, visible) in sources.iter().enumerate() {
        if let Some((place, of)) = column_in(visible.columns, name) {
            if one.is_some() {
                return Err(CheckFault::Refused(Reason::Ambiguous));
            }
            one = Some(FoundColumn {
                depth,
                source,
                place,
                of,
            });
        }
    }
    Ok(one)
}

/// The column of that name at the innermost place that has it.
fn plain_column(depth: usize, scope: &Scope<'_, '_>, name: &Name) -> Result<FoundColumn, CheckFault>
    ensures { Gives found (spec.plain_column depth (scope_of scope.now) name.now) result }
{
    match scope {
        Scope::Outermost => Err(CheckFault::Refused(Reason::NoColumn)),
        Scope::Within(sources, outer) => {
            let one = holder(depth, sources, name)?;
            match one {
                Some(column) => Ok(column),
                None => Ok(plain_column(further(depth)?, outer, name)?),
            }
        }
    }
}

/// Finds an unqualified column, beginning at the innermost query.
#[inline(always)]
fn near_column(scope: &Scope<'_, '_>, name: &Name) -> Result<FoundColumn, CheckFault>
    ensures { Gives found (spec.plain_column 0 (scope_of scope.now) name.now) result }
{
    match scope {
        Scope::Outermost => Err(CheckFault::Refused(Reason::NoColumn)),
        Scope::Within(sources, outer) => {
            let one = holder(0, sources, name)?;
            match one {
                Some(near) => Ok(near),
                None => Ok(plain_column(1, outer, name)?),
            }
        }
    }
}

/// True if the two mean one table.
#[inline(always)]
pub(crate) fn same_table(a: &TableReference, b: &TableReference) -> bool
    ensures { result ≡ spec.same_table a.now b.now }
{
    match a {
        TableReference::Named(one) => match b {
            TableReference::Named(two) => is_named(one, two),
            _ => false,
        },
        TableReference::Inserted => matches!(b, TableReference::Inserted),
        TableReference::Deleted => matches!(b, TableReference::Deleted),
        TableReference::OldUpdated => matches!(b, TableReference::OldUpdated),
        TableReference::NewUpdated => matches!(b, TableReference::NewUpdated),
    }
}

/// The place and the columns of the source with that visible name.
#[inline(always)]
fn source_named<'a>(
    sources: &[Visible<'a>],
    table: &TableReference,
) -> Option<(usize, &'a [ColumnDefinition])>
    ensures { option_map (λ s. (s.0, s.1.now)) result ≡ spec.source_named 0 sources.now table.now }
{
    for (source, visible) in sources.iter().enumerate() {
        if same_table(&visible.name, table) {
            return Some((source, visible.columns));
        }
    }
    None
}

/// The column of that name in one source.
#[inline(always)]
fn column_of_source(
    depth: usize,
    source: usize,
    columns: &[ColumnDefinition],
    name: &Name,
) -> Result<FoundColumn, CheckFault>
    ensures { Gives found (spec.column_of_source depth (source, columns.now) name.now) result }
{
    match column_in(columns, name) {
        Some((place, of)) => Ok(FoundColumn {
            depth,
            source,
            place,
            of,
        }),
        None => Err(CheckFault::Refused(Reason::NoColumn)),
    }
}

/// The column of the innermost source with that visible name.
fn qualified_column(
    depth: usize,
    scope: &Scope<'_, '_>,
    table: &TableReference,
    name: &Name,
) -> Result<FoundColumn, CheckFault>
    ensures { Gives found (spec.qualified_column depth (scope_of scope.now) table.now name.now) result }
{
    match scope {
        Scope::Outermost => Err(CheckFault::Refused(Reason::NoColumn)),
        Scope::Within(sources, outer) => match source_named(sources, table) {
            Some((source, columns)) => column_of_source(depth, source, columns, name),
            None => Ok(qualified_column(further(depth)?, outer, table, name)?),
        },
    }
}

/// Finds a qualified column, beginning at the innermost query.
#[inline(always)]
fn near_qualified(
    scope: &Scope<'_, '_>,
    table: &TableReference,
    name: &Name,
) -> Result<FoundColumn, CheckFault>
    ensures { Gives found (spec.qualified_column 0 (scope_of scope.now) table.now name.now) result }
{
    match scope {
        Scope::Outermost => Err(CheckFault::Refused(Reason::NoColumn)),
        Scope::Within(sources, outer) => match source_named(sources, table) {
            Some((source, columns)) => Ok(column_of_source(0, source, columns, name)?),
            None => Ok(qualified_column(1, outer, table, name)?),
        },
    }
}

/// The column that a name with or without a qualifier means.
#[inline(always)]
pub(crate) fn column_named(
    scope: &Scope<'_, '_>,
    column: &ColumnReference,
) -> Result<FoundColumn, CheckFault>
    ensures { Gives found (spec.column_named (scope_of scope.now) column.now) result }
{
    match column {
        ColumnReference::Plain(name) => near_column(scope, name),
        ColumnReference::Qualified(table, name) => near_qualified(scope, table, name),
    }
}

/// One query further outward. No stack holds as many queries as a number counts.
fn further(depth: usize) -> Result<usize, CheckFault>
    ensures { Gives (λ n. n) (Ok (depth + 1)) result }
{
    match depth.checked_add(1) {
        Some(more) => Ok(more),
        None => Err(CheckFault::NoMemory),
    }
}
