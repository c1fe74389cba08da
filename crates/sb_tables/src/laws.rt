//! Laws of stored tables, each the contract of a function that does nothing.
ghost use Rattle.sb_tables.specs.Laws.{ChangesKeepPlaces, TablesBeforeAreOne};

/// A change that can be made of a stored table leaves a stored one, in which its tuple has a place.
pub fn changes_keep_places()
    ensures { ChangesKeepPlaces }
{}

/// Only one table can have been there before a change.
pub fn tables_before_are_one()
    ensures { TablesBeforeAreOne }
{}
