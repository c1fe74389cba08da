//! Making one change of a table.
ghost use Rattle.std.specs.Prelude.{◌≡◌, List, [], ◌∷◌, ◌++◌, IsTrue};
ghost use Rattle.sb_value.specs.declared.change.Change.{Change as Definition};
ghost use Rattle.sb_value.specs.Table.{fits_kind};
ghost use Rattle.sb_tables.specs.Held.{Held, has_number, stored_at};
ghost use Rattle.sb_process.specs.Made.{AreMade};
ghost use Rattle.sb_process.specs.Make.{HasPlaceFor, Makes};

use sb_tables::{Tables, changes_keep_places};
use sb_value::{Change, ChangeKind, Row};

/// Makes a change of its table, with the new row's copy. It needs no memory.
pub(crate) fn make(tables: &mut Tables, change: &Change, copy: Option<Row>)
    requires there { IsTrue (has_number tables.old change.now.table) }
    requires fits { fits_kind change.now.kind change.now (stored_at tables.old change.now.table).table }
    requires copied { copy ≡ change.now.new }
    requires place { HasPlaceFor change.now.kind (stored_at tables.old change.now.table) }
    ensures one { Makes change.now tables.old tables.new }
    ensures more { (origin : List Held) (changes : List Definition) →
        AreMade origin changes tables.old → AreMade origin (changes ++ change.now ∷ []) tables.new }
{
    // for the proof: tables with changes made are sound
    changes_keep_places();
    write(tables, change, copy);
}

/// Writes what the change gives.
fn write(tables: &mut Tables, change: &Change, copy: Option<Row>)
    requires there { IsTrue (has_number tables.old change.now.table) }
    requires fits { fits_kind change.now.kind change.now (stored_at tables.old change.now.table).table }
    requires copied { copy ≡ change.now.new }
    requires place { HasPlaceFor change.now.kind (stored_at tables.old change.now.table) }
    ensures { Makes change.now tables.old tables.new }
{
    match change.kind {
        ChangeKind::Inserted => {
            // The place is there and the table isn't full, so the row finds its place.
            let _ = tables.insert(change.table, copy.unwrap());
        }
        ChangeKind::Deleted => {
            tables.mark_deleted(change.table, change.tuple);
        }
        ChangeKind::Updated => {
            let _old = tables.replace(change.table, change.tuple, copy.unwrap());
        }
    }
}
