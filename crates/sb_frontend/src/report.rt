//! An error that a client is told, with what is known of it.
ghost use Rattle.std.specs.Prelude.{◌≡◌, ◌∷◌, ◌++◌, [], IfOk, MatchResult, OnOk, codes, map, true};
ghost use Rattle.sb_postgres.specs.Answers.{field_seen};
ghost use Rattle.sb_frontend.specs.Outputs as output;
ghost use Rattle.sb_frontend.specs.Reports as spec;

use crate::output::{Output, fields_of};
use itoa::Buffer;
use sb_postgres::told::SqlState;
use sb_postgres::{Field, ServerMessage};
use std::alloc::{AllocError, Global};

/// An error, put together.
#[derive(Drop)]
pub(crate) struct Report {
    pub(crate) state: SqlState,
    pub(crate) message: Vec<u8>,
    pub(crate) detail: Vec<u8>,
    /// The place from which it came, as a rule.
    pub(crate) context: Vec<u8>,
    /// The place in the client's text, in decimal.
    pub(crate) position: Vec<u8>,
}

impl Report {
    pub(crate) fn new(alloc: Global, state: SqlState) -> Report
        ensures state { result.state ≡ state }
        ensures message { result.message.items ≡ [] }
    {
        Report {
            state,
            message: Vec::new(alloc),
            detail: Vec::new(alloc),
            context: Vec::new(alloc),
            position: Vec::new(alloc),
        }
    }

    /// Its fields. What is empty isn't told.
    fn fields(&self, alloc: Global) -> Result<Vec<Field<'_>>, AllocError>
        ensures { IfOk result (λ fields. map field_seen fields.items ≡ output.fields_of (codes "ERROR") self.now.state self.now.message.items ++ spec.details self.now) }
    {
        let mut fields = Vec::from_array(alloc, fields_of("ERROR", self.state, &self.message))?;
        push_known(&mut fields, b'D', &self.detail)?;
        push_known(&mut fields, b'W', &self.context)?;
        push_known(&mut fields, b'P', &self.position)?;
        Ok(fields)
    }

    /// Tells it.
    pub(crate) fn say(&self, alloc: Global, out: &mut Output)
        ensures { output.Says (spec.reported self.now ∷ []) out.old out.new }
    {
        match self.fields(alloc) {
            Ok(fields) => out.say(&ServerMessage::ErrorResponse(&fields)),
            Err(_) => out.fail(),
        }
    }
}

/// Tells a report, if there was memory for it.
pub(crate) fn say_made(alloc: Global, out: &mut Output, made: Result<Report, AllocError>)
    ensures { MatchResult made (λ r. output.Says (spec.reported r ∷ []) out.old out.new) (λ _. out.new ≡ record out.old { failed = true }) }
{
    match made {
        Ok(report) => report.say(alloc, out),
        Err(_) => out.fail(),
    }
}

/// Adds a field, unless its text is empty.
fn push_known<'a>(fields: &mut Vec<Field<'a>>, letter: u8, text: &'a [u8]) -> Result<(), AllocError>
    ensures { OnOk result (map field_seen fields.new.items ≡ map field_seen fields.old.items ++ spec.known letter text.now) }
{
    if !text.is_empty() {
        fields.push(Field { letter, text })?;
    }
    Ok(())
}

/// Adds the place of a byte in a client's text, from 1.
pub(crate) fn push_position(out: &mut Vec<u8>, at: usize) -> Result<(), AllocError> {
    let mut buffer = Buffer::new();
    out.extend_from_slice(buffer.format(at.saturating_add(1) as u64).as_bytes())
}
