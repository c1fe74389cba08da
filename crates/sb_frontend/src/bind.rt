//! A portal is made of a prepared statement and values.
ghost use Rattle.std.specs.Prelude.{◌≡◌, Some, map, option_copied};
ghost use Rattle.sb_postgres.specs.declared.query.template.FillError.{FillError};
ghost use Rattle.sb_postgres.specs.Templates.{Fills};
ghost use Rattle.sb_value.specs.declared.value.Value.{Value};
ghost use Rattle.sb_frontend.specs.Arguments.{are_formats};
ghost use Rattle.sb_frontend.specs.Denials.{Comes};
ghost use Rattle.sb_frontend.specs.Outcomes.{line_of, listed};
ghost use Rattle.sb_frontend.specs.Portals as spec;

use crate::argument::arguments;
use crate::denial::{Denial, of_fill};
use crate::workbench::{BoundPortal, PreparedStatement};
use sb_postgres::query::{Statement, fill};
use sb_value::Value;
use std::alloc::{AllocError, Global};

fn are_formats(formats: usize, values: usize) -> bool
    ensures { result ≡ are_formats formats values }
{
    formats <= 1 || formats == values
}

/// True if all formats are that of text.
fn are_texts(formats: &[u16]) -> bool
    ensures { result ≡ spec.are_texts formats.now }
{
    let mut left = formats;
    while let [format, rest @ ..] = left {
        if *format != 0 {
            return false;
        }
        left = rest;
    }
    true
}

/// The values of a statement's parameters.
fn values_of(
    alloc: Global,
    prepared: &PreparedStatement,
    formats: &[u16],
    sent: &[Option<&[u8]>],
    results: &[u16],
) -> Result<Vec<Value>, Denial>
    ensures { Comes (spec.values_of prepared.now formats.now (map option_copied sent.now) results.now) (listed result) }
{
    if sent.len() != prepared.types.len() {
        return Err(Denial::WrongValues);
    }
    if !are_formats(formats.len(), sent.len()) {
        return Err(Denial::WrongFormats);
    }
    if !are_texts(results) {
        return Err(Denial::UnknownFormat);
    }
    arguments(alloc, &prepared.types, formats, sent)
}

/// The places of a statement's bytes in the client's text. With values in it they aren't known.
fn origins_of(
    alloc: Global,
    statement: &Statement,
    values: &[Value],
) -> Result<Vec<usize>, AllocError> {
    if values.is_empty() {
        statement.origins.to_vec(alloc)
    } else {
        Ok(Vec::new(alloc))
    }
}

/// The portal of a statement with these values.
fn filled(alloc: Global, statement: &Statement, values: &[Value]) -> Result<BoundPortal, Denial>
    ensures { spec.BoundBy (Some statement.now.line.items) (Ok values.now) result }
{
    match fill(alloc, statement.line.as_slice(), values) {
        Ok(line) => {
            let origins = origins_of(alloc, statement, values)?;
            Ok(BoundPortal::unplayed(Some(Statement { line, origins })))
        }
        Err(error) => Err(of_fill(error)),
    }
}

/// The portal of a statement, if it has a line, with these values.
fn filled_of(
    alloc: Global,
    statement: &Option<Statement>,
    values: &[Value],
) -> Result<BoundPortal, Denial>
    ensures { spec.BoundBy (line_of statement.now) (Ok values.now) result }
{
    match statement {
        Some(statement) => filled(alloc, statement, values),
        None => Ok(BoundPortal::unplayed(None)),
    }
}

/// The portal of a prepared statement with values.
pub(crate) fn bound(
    alloc: Global,
    prepared: Option<&PreparedStatement>,
    formats: &[u16],
    sent: &[Option<&[u8]>],
    results: &[u16],
) -> Result<BoundPortal, Denial>
    ensures { spec.IsBound (option_copied prepared.entry) formats.now (map option_copied sent.now) results.now result }
{
    let Some(prepared) = prepared else {
        return Err(Denial::NoStatement);
    };
    match values_of(alloc, prepared, formats, sent, results) {
        Ok(values) => filled_of(alloc, &prepared.statement, &values),
        Err(denial) => Err(denial),
    }
}
