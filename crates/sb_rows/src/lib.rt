//! The rows of a reply, kept as the text of their lines, specified by the list of rows; and conditions over the columns of
//! rows: what holds of a batch of them, as bits, specified by what holds of each row.
#![tactic(auto)]

mod batch;
mod codes;
mod compare;
mod condition;
mod evaluate;
mod laws;
mod lines;
mod print;
mod range;
mod row_text;
mod selection;
mod shared;
mod term;
mod values;

pub use batch::{BATCH_LIMIT, BatchColumn};
pub use codes::Codes;
pub use condition::{IntegerComparison, Test};
pub use evaluate::{filter, total};
pub use laws::{codes_keep_order, keys_keep_order, selected_rows_pass};
pub use range::{Range, never_overflows, range_of};
pub use row_text::RowText;
pub use selection::Selection;
pub use shared::SharedRows;
pub use term::Term;
