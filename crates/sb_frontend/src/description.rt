//! A client is told of a prepared statement or a portal.
ghost use Rattle.std.specs.Prelude.{◌≡◌, ◌∷◌, []};
ghost use Rattle.sb_postgres.specs.Answers.{ParameterDescription};
ghost use Rattle.sb_frontend.specs.Extended as spec;
ghost use Rattle.sb_frontend.specs.Outputs as output;

use crate::columns::{say_description, say_heading};
use crate::describe::{Describe, Heading};
use crate::form::Form;
use crate::output::Output;
use crate::tell::Teller;
use crate::workbench::{BoundPortal, PreparedStatement};
use sb_postgres::ServerMessage;
use sb_postgres::query::{Statement, StatementKind, behind_first_word, fill, kind_of};
use sb_value::{ColumnType, Text, Value};
use std::alloc::{AllocError, Global};
use std::sync::Wait;

/// The one column of a line that makes no step.
fn heading_of(line: &[u8]) -> Option<(&[u8], ColumnType)> {
    match kind_of(line) {
        StatementKind::SelectOne => Some((b"?column?", ColumnType::Int)),
        StatementKind::SelectVersion => Some((b"version", ColumnType::Text)),
        StatementKind::SelectSchema => Some((b"current_schema", ColumnType::Text)),
        StatementKind::Show => Some((behind_first_word(line), ColumnType::Text)),
        _ => None,
    }
}

/// Tells columns, or that there are none.
fn say_headings(alloc: Global, out: &mut Output, headings: &[Heading])
    ensures { output.SaysSome spec.TellsColumns out.old out.new }
{
    if headings.is_empty() {
        out.say(&ServerMessage::NoData);
    } else {
        say_description(alloc, out, headings);
    }
}

/// Some value of a parameter's type.
fn sample_of(alloc: Global, id: u32) -> Result<Value, AllocError> {
    if id == 25 || id == 1_043 {
        Ok(Value::Text(Text::new(alloc, Vec::new(alloc))?))
    } else {
        Ok(Value::Int(0))
    }
}

/// Some values of these types.
fn samples_of(alloc: Global, types: &[u32]) -> Result<Vec<Value>, AllocError> {
    let mut samples = Vec::new(alloc);
    for id in types {
        samples.push(sample_of(alloc, *id)?)?;
    }
    Ok(samples)
}

/// A line with some values, if it can be read with them.
fn sampled(alloc: Global, line: &[u8], types: &[u32]) -> Result<Option<Vec<u8>>, AllocError> {
    let samples = samples_of(alloc, types)?;
    Ok(fill(alloc, line, &samples).ok())
}

impl<'a, R: Wait, C: Describe> Teller<'a, R, C> {
    /// Tells the columns of a query's rows, or that there are none.
    fn say_columns_of(&self, out: &mut Output, line: &[u8])
        ensures { output.SaysSome spec.TellsColumns out.old out.new }
    {
        match self.describe.columns_of(self.rt, self.alloc, line) {
            Ok(headings) => say_headings(self.alloc, out, &headings),
            Err(_) => out.fail(),
        }
    }

    /// Tells the columns of a line's rows, or that there are none.
    fn describe_line(&self, out: &mut Output, line: &[u8])
        ensures { output.SaysSome spec.TellsColumns out.old out.new }
    {
        match heading_of(line) {
            Some((name, of)) => {
                let form = Form { described: true };
                say_heading(self.alloc, out, form, name, of);
            }
            None => self.say_columns_of(out, line),
        }
    }

    /// Tells the columns of a statement's rows, whatever its values.
    fn describe_sampled(&self, out: &mut Output, line: &[u8], types: &[u32])
        ensures { output.SaysSome spec.TellsColumns out.old out.new }
    {
        match sampled(self.alloc, line, types) {
            Ok(Some(line)) => self.describe_line(out, &line),
            Ok(None) => out.say(&ServerMessage::NoData),
            Err(_) => out.fail(),
        }
    }

    fn describe_statement(&self, out: &mut Output, statement: &Option<Statement>, types: &[u32])
        ensures { output.SaysSome spec.TellsColumns out.old out.new }
    {
        match statement {
            Some(statement) => self.describe_sampled(out, statement.line.as_slice(), types),
            None => out.say(&ServerMessage::NoData),
        }
    }

    /// Tells the types of a prepared statement's parameters, and the columns of its rows.
    pub(crate) fn describe_prepared(&self, out: &mut Output, prepared: &PreparedStatement)
        ensures { output.SaysSome (spec.TellsPrepared prepared.now) out.old out.new }
    {
        out.say(&ServerMessage::ParameterDescription(&prepared.types));
        self.describe_statement(out, &prepared.statement, &prepared.types);
    }

    /// Tells the columns of a portal's rows.
    pub(crate) fn describe_portal(&self, out: &mut Output, portal: &BoundPortal)
        ensures { output.SaysSome spec.TellsColumns out.old out.new }
    {
        self.describe_statement(out, &portal.statement, &[]);
    }
}
