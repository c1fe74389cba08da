//! Laws of tables that several transactions change, as the contract of a function that does nothing.
ghost use Rattle.sb_process.specs.Sharing.{TablesAreShared};

use sb_tables::changes_keep_places;

/// If each table is changed by one transaction at most, the transactions may be taken in any order.
pub fn transactions_share_tables()
    ensures { TablesAreShared }
{
    // for the proof: tables with changes made are sound
    changes_keep_places();
}
