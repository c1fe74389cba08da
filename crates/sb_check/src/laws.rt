//! Laws of the definitions, each the contract of a function that does nothing.
ghost use Rattle.sb_check.specs.Fits.{ResolvedCommandsFit};
ghost use Rattle.sb_check.specs.Sees.{QueriesWalkAlike, StatementsWalkAlike};
ghost use Rattle.sb_check.specs.There.{ResolvedAlterationsAreThere, ResolvedQueriesAreThere, ResolvedRulesAreThere, ResolvedStatementsAreThere};

/// Each tree that the walk resolves fits the tables.
pub fn resolved_commands_fit()
    ensures { ResolvedCommandsFit }
{}

/// The tables that the walk resolves are there, and a rule has as many actions as its text.
pub fn resolved_tables_are_there()
    ensures queries { ResolvedQueriesAreThere }
    ensures statements { ResolvedStatementsAreThere }
    ensures rules { ResolvedRulesAreThere }
    ensures alterations { ResolvedAlterationsAreThere }
{}

/// The walk looks at the tables' numbers, names and columns, and not at their rows.
pub fn walks_see_columns()
    ensures queries { QueriesWalkAlike }
    ensures statements { StatementsWalkAlike }
{}
