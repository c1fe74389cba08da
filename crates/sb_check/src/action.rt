//! The actions of a rule.
ghost use Rattle.std.specs.Prelude.{map};
ghost use Rattle.sb_check.specs.Answer.{Gives};
ghost use Rattle.sb_check.specs.Names.{in_order};
ghost use Rattle.sb_check.specs.Walk as spec;
ghost use Rattle.sb_syntax.specs.Views as view;

use crate::fault::CheckFault;
use crate::schema::Schema;
use crate::statement::statement;
use crate::tree::{Action, Actions};
use std::alloc::Global;

pub(crate) fn action<'s, S: Schema>(
    alloc: Global,
    action: &sb_syntax::Action,
    schema: &'s S,
) -> Result<Action, CheckFault>
    ensures { Gives (λ a. a) (spec.walk_action (S.names schema.now) (view.action action.now)) result }
{
    match action {
        sb_syntax::Action::Change(text) => match statement(alloc, text, schema) {
            Ok(resolved) => Ok(Action::Change(resolved)),
            Err(fault) => Err(fault),
        },
        sb_syntax::Action::Rollback => Ok(Action::Rollback),
    }
}

/// Each action in order.
pub(crate) fn actions<'s, S: Schema>(
    alloc: Global,
    list: &[sb_syntax::Action],
    schema: &'s S,
) -> Result<Actions, CheckFault>
    ensures { Gives (λ a. a) (in_order (spec.walk_action (S.names schema.now)) (map view.action list.now)) result }
{
    let mut done = Actions::new(alloc);
    for one in list {
        match action(alloc, one, schema) {
            Ok(resolved) => done.push(resolved)?,
            Err(fault) => return Err(fault),
        }
    }
    Ok(done)
}
