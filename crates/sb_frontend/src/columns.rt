//! The columns of rows, as a client is told of them.
ghost use Rattle.std.specs.Prelude.{◌≡◌, ◌∷◌, [], IfOk, map};
ghost use Rattle.sb_postgres.specs.Answers.{RowDescription, column_seen};
ghost use Rattle.sb_frontend.specs.Outputs as output;
ghost use Rattle.sb_frontend.specs.Columns as spec;

use crate::describe::Heading;
use crate::form::Form;
use crate::output::Output;
use sb_postgres::{Column, ServerMessage};
use sb_value::ColumnType;
use std::alloc::{AllocError, Global};

/// A type as a client knows it: its number, and the bytes of its values, or 65,535 where they vary.
#[derive(Clone, Copy)]
pub(crate) struct ClientType {
    pub(crate) id: u32,
    len: u16,
}

pub(crate) fn client_type(of: ColumnType) -> ClientType
    ensures { (result.id, result.len) ≡ spec.client_type of }
{
    match of {
        ColumnType::Int => ClientType { id: 20, len: 8 },
        ColumnType::Text => ClientType {
            id: 25,
            len: u16::MAX,
        },
    }
}

/// The columns as a message has them, in text.
fn columns_of<'a>(alloc: Global, headings: &'a [Heading]) -> Result<Vec<Column<'a>>, AllocError>
    ensures { IfOk result (λ columns. map column_seen columns.items ≡ map spec.column_of headings.now) }
{
    let mut columns = Vec::new(alloc);
    for heading in headings {
        let of = client_type(heading.of);
        columns.push(Column {
            name: heading.name.as_slice(),
            type_id: of.id,
            type_len: of.len,
            format: 0,
        })?;
    }
    Ok(columns)
}

/// Tells the columns of rows, unless they were told before.
pub(crate) fn say_columns(alloc: Global, out: &mut Output, form: Form, headings: &[Heading])
    ensures { output.Says (spec.heads form (map spec.column_of headings.now)) out.old out.new }
{
    if form.described {
        say_description(alloc, out, headings);
    }
}

/// Tells the columns of rows.
pub(crate) fn say_description(alloc: Global, out: &mut Output, headings: &[Heading])
    ensures { output.Says (RowDescription (map spec.column_of headings.now) ∷ []) out.old out.new }
{
    match columns_of(alloc, headings) {
        Ok(columns) => out.say(&ServerMessage::RowDescription(&columns)),
        Err(_) => out.fail(),
    }
}

/// The column of this name. Error: out of memory.
fn heading(alloc: Global, name: &[u8], of: ColumnType) -> Result<Heading, AllocError>
    ensures { IfOk result (λ h. (h.name.items ≡ name.now) × (h.of ≡ of)) }
{
    Ok(Heading {
        name: name.to_vec(alloc)?,
        of,
    })
}

/// Tells the one column of a row.
pub(crate) fn say_heading(alloc: Global, out: &mut Output, form: Form, name: &[u8], of: ColumnType)
    ensures { output.Says (spec.heads form (spec.column name.now of ∷ [])) out.old out.new }
{
    match heading(alloc, name, of) {
        Ok(heading) => say_columns(alloc, out, form, &[heading]),
        Err(_) => out.fail(),
    }
}

/// Tells one row of one value.
pub(crate) fn say_value(
    alloc: Global,
    out: &mut Output,
    form: Form,
    name: &[u8],
    of: ColumnType,
    value: &[u8],
)
    ensures { output.Says (spec.one_value form name.now of value.now) out.old out.new }
{
    say_heading(alloc, out, form, name, of);
    out.say(&ServerMessage::DataRow(&[Some(value)]));
}
