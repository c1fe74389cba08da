//! One table with undo: rows in rising number, whose deletes are marks until the table is settled, specified by a list.
#![tactic(auto)]

mod laws;
mod rows;
mod slot;
mod slots;
mod table;
mod tables;

pub use laws::{changes_keep_places, tables_before_are_one};
pub use rows::Rows;
pub use table::{ROW_LIMIT, Table, TooManyRows};
pub use tables::Tables;
