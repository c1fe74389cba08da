//! Columns of a batch of rows.

/// The most rows of a batch.
pub const BATCH_LIMIT: usize = 1_024;

/// A column in a batch: a number that each row has, as of a source that stands at one row, or a number for each row.
#[derive(Clone, Copy)]
pub enum BatchColumn<'r> {
    Same(i64),
    Each(&'r [i64]),
}
