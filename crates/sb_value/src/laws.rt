//! Laws of the definitions, each the contract of a function that does nothing.
ghost use Rattle.sb_value.specs.Laws.{LiteralsGiveValuesBack, NetEffectsCompose, UntouchedTuplesStay, ProperListsHaveLives, LastChangeTriggers, NewChangesTrigger, PrecedesIsClosure, SetsTakePlaces};

/// The text of a value is a literal, and gives the value back.
pub fn literals_give_values_back()
    ensures { LiteralsGiveValuesBack }
{}

/// The net effect of two lists of changes, one after the other, is their net effects composed.
pub fn net_effects_compose()
    ensures { NetEffectsCompose }
{}

/// The net effect on a tuple stays where later changes leave the tuple alone.
pub fn untouched_tuples_stay()
    ensures { UntouchedTuplesStay }
{}

/// In a list of changes that can be made, the changes of a tuple are its insert, updates and its delete.
pub fn proper_lists_have_lives()
    ensures { ProperListsHaveLives }
{}

/// A rule that a list of changes doesn't trigger, and the list with one more change does, names that change.
pub fn last_change_triggers()
    ensures { LastChangeTriggers }
{}

/// A rule that some changes don't trigger is triggered with those behind them only by a change that is one of its
/// operations, of a tuple whose net effect is one.
pub fn new_changes_trigger()
    ensures { NewChangesTrigger }
{}

/// The test for precedence is the transitive closure of the pairs.
pub fn precedes_is_closure()
    ensures { PrecedesIsClosure }
{}

/// A set of places with one place more is the set of the list with that place at its end.
pub fn sets_take_places()
    ensures { SetsTakePlaces }
{}
