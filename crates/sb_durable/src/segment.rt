//! A file of a journal whose blocks carry digests, each of which counts all before it.
mod begin;
mod beginning;
mod bytes;
mod error;
pub mod laws;
mod numbers;
mod opening;
mod place;
mod reader;
mod repair;
mod row;
mod segment;
mod walk;

pub use error::SegmentError;
pub(crate) use numbers::{PREFIX, check_row, number_in};
pub use place::Place;
pub use reader::{RowError, RowReader};
pub use row::RowFault;
pub use segment::Segment;
pub use sqlite_disk::Disk;
