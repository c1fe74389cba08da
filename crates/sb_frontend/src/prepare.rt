//! A statement is prepared.
ghost use Rattle.std.specs.Prelude.{◌≡◌, IfOk, List};
ghost use Rattle.sb_value.specs.declared.value.ColumnType.{ColumnType};
ghost use Rattle.sb_postgres.specs.Lines.{Lines};
ghost use Rattle.sb_postgres.specs.Statements.{HasLines};
ghost use Rattle.sb_frontend.specs.Denials.{Comes};
ghost use Rattle.sb_frontend.specs.Outcomes.{line_found};
ghost use Rattle.sb_frontend.specs.Portals as spec;

use crate::columns::client_type;
use crate::denial::{Denial, of_fill, of_query};
use crate::describe::Describe;
use crate::workbench::PreparedStatement;
use sb_postgres::query::{Statement, Statements, parameters_of};
use sb_value::ColumnType;
use std::alloc::{AllocError, Global};
use std::sync::Wait;

/// The one statement of a text, if it has one.
fn one_statement(alloc: Global, text: &[u8]) -> Result<Option<Statement>, Denial>
    ensures { (ls : Lines) × HasLines 0 text.now ls × Comes (spec.one_of ls) (line_found result) }
{
    let mut statements = Statements::new(text);
    let first = match statements.next_statement(alloc) {
        Ok(Some(statement)) => statement,
        Ok(None) => return Ok(None),
        Err(error) => return Err(of_query(error)),
    };
    match statements.next_statement(alloc) {
        Ok(None) => Ok(Some(first)),
        Ok(Some(_)) => Err(Denial::Several),
        Err(error) => Err(of_query(error)),
    }
}

fn type_at(known: &[ColumnType], k: usize) -> ColumnType
    ensures { result ≡ spec.type_at known.now k }
{
    if k < known.len() {
        known[k]
    } else {
        ColumnType::Text
    }
}

/// The type of a parameter: that which the client names, or else the one that is known.
fn chosen_at(given: &[u32], known: &[ColumnType], k: usize) -> u32
    ensures { result ≡ spec.chosen_at given.now known.now k }
{
    if k < given.len() && given[k] != 0 {
        given[k]
    } else {
        client_type(type_at(known, k)).id
    }
}

/// The types of so many parameters.
fn chosen(
    alloc: Global,
    count: u16,
    given: &[u32],
    known: &[ColumnType],
) -> Result<Vec<u32>, AllocError>
    ensures { IfOk result (λ types. types.items ≡ spec.chosen count given.now known.now) }
{
    let mut types = Vec::new(alloc);
    for k in 0..usize::from(count) {
        types.push(chosen_at(given, known, k))?;
    }
    Ok(types)
}

/// A statement with the types of its parameters, so many.
fn with_types<R: Wait, C: Describe>(
    rt: &R,
    alloc: Global,
    describe: &C,
    statement: Statement,
    given: &[u32],
    count: u16,
) -> Result<PreparedStatement, Denial>
    ensures { (known : List ColumnType) × Comes (spec.typed statement.line.items given.now known (Ok count)) result }
{
    let known = describe.parameter_types(rt, alloc, statement.line.as_slice())?;
    let types = chosen(alloc, count, given, &known)?;
    Ok(PreparedStatement {
        statement: Some(statement),
        types,
    })
}

/// A statement with the types of its parameters.
fn typed<R: Wait, C: Describe>(
    rt: &R,
    alloc: Global,
    describe: &C,
    statement: Statement,
    given: &[u32],
) -> Result<PreparedStatement, Denial>
    ensures { spec.PreparedBy given.now (Ok (Some statement.line.items)) result }
{
    match parameters_of(statement.line.as_slice()) {
        Ok(count) => with_types(rt, alloc, describe, statement, given, count),
        Err(error) => Err(of_fill(error)),
    }
}

/// Prepares the statement of a text. The client names types of its parameters, each by its object's number or 0.
pub(crate) fn prepared<R: Wait, C: Describe>(
    rt: &R,
    alloc: Global,
    describe: &C,
    text: &[u8],
    given: &[u32],
) -> Result<PreparedStatement, Denial>
    ensures { spec.IsPrepared text.now given.now result }
{
    match one_statement(alloc, text) {
        Ok(Some(statement)) => typed(rt, alloc, describe, statement, given),
        Ok(None) => Ok(PreparedStatement {
            statement: None,
            types: Vec::new(alloc),
        }),
        Err(denial) => Err(denial),
    }
}
