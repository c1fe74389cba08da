//! The line that is made of a rule's clauses.
ghost use Rattle.std.specs.Prelude.{◌≡◌, ◌++◌, IfOk, OnOk};
ghost use Rattle.sb_catalog.specs.ClauseTexts as spec;

use crate::clauses::RuleClauses;
use sb_value::Name;
use std::alloc::{AllocError, Global};

/// The line that creates the rule of that name. Error: out of memory.
pub fn create_line(alloc: Global, name: &Name, clauses: &RuleClauses) -> Result<Vec<u8>, AllocError>
    ensures { IfOk result (λ line. line.items ≡ spec.create_line name.now clauses.now) }
{
    let mut line = Vec::new(alloc);
    line.extend_from_slice(b"create rule ")?;
    line.extend_from_slice(name.as_slice())?;
    line.extend_from_slice(b" on")?;
    line.extend_from_slice(clauses.event.as_slice())?;
    put_condition(&mut line, &clauses.condition)?;
    line.extend_from_slice(b" then")?;
    line.extend_from_slice(clauses.actions.as_slice())?;
    Ok(line)
}

/// Puts the condition at the end of the line, if there is one.
fn put_condition(line: &mut Vec<u8>, condition: &Option<Vec<u8>>) -> Result<(), AllocError>
    ensures { OnOk result (line.new.items ≡ line.old.items ++ spec.if_text condition.now) }
{
    let Some(condition) = condition else {
        return Ok(());
    };
    line.extend_from_slice(b" if")?;
    line.extend_from_slice(condition.as_slice())
}
