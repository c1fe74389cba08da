//! The triggers of a rule.
ghost use Rattle.std.specs.Prelude.{map};
ghost use Rattle.sb_check.specs.Answer.{Walks};
ghost use Rattle.sb_check.specs.RuleParts.{rule_triggers};
ghost use Rattle.sb_check.specs.TriggerSteps as spec;
ghost use Rattle.sb_syntax.specs.Views as view;

use crate::fault::Reason;
use crate::scope::column_in;
use sb_syntax::Trigger;
use sb_value::{ColumnDefinition, Columns, Name, Triggers, sets_take_places};

/// The set with the places of these columns. It holds the first eight.
fn with_names(
    columns: &[ColumnDefinition],
    mut set: Columns,
    names: &[Name],
) -> Result<Columns, Reason>
    ensures { Walks (spec.with_names columns.now set names.now) result }
{
    for name in names {
        let Some((place, _)) = column_in(columns, name) else {
            return Err(Reason::NoColumn);
        };
        if place < 8 {
            set = set.with(place as u8);
        }
    }
    Ok(set)
}

fn with_trigger(
    columns: &[ColumnDefinition],
    mut triggers: Triggers,
    trigger: &Trigger,
) -> Result<Triggers, Reason>
    ensures { Walks (spec.with_trigger columns.now triggers (view.trigger trigger.now)) result }
{
    match trigger {
        Trigger::Insert => triggers.inserted = true,
        Trigger::Delete => triggers.deleted = true,
        Trigger::Update => triggers.updated = true,
        Trigger::UpdateOf(names) => {
            triggers.columns = with_names(columns, triggers.columns, names.as_slice())?;
        }
    }
    Ok(triggers)
}

/// Each trigger in order.
fn all_triggers(columns: &[ColumnDefinition], list: &[Trigger]) -> Result<Triggers, Reason>
    ensures { Walks (spec.with_triggers columns.now spec.no_trigger (map view.trigger list.now)) result }
{
    let mut all = Triggers {
        inserted: false,
        deleted: false,
        updated: false,
        columns: Columns::empty(),
    };
    for trigger in list {
        all = with_trigger(columns, all, trigger)?;
    }
    Ok(all)
}

/// The triggers of a rule.
pub(crate) fn triggers(columns: &[ColumnDefinition], list: &[Trigger]) -> Result<Triggers, Reason>
    ensures { Walks (rule_triggers columns.now (map view.trigger list.now)) result }
{
    // for the proof: the places so far are the set so far
    sets_take_places();
    match all_triggers(columns, list) {
        Ok(all) => Ok(all),
        Err(reason) => Err(reason),
    }
}
