//! A describer knows more of a tenant than the replies to its lines tell.

use sb_value::{ColumnType, Name, Refusal};
use std::alloc::{AllocError, Global};
use std::sync::Wait;

/// A column of a query's rows: its name and its type.
#[derive(Drop)]
pub struct Heading {
    pub name: Vec<u8>,
    pub of: ColumnType,
}

/// Knows the columns of queries, and what refusals are about.
pub trait Describe {
    /// The columns of the rows of a line's query. Error: out of memory.
    fn columns_of<R: Wait>(
        &self,
        rt: &R,
        alloc: Global,
        line: &[u8],
    ) -> Result<Vec<Heading>, AllocError>;

    /// The types of a line's parameters, as far as they are known: first that of `$1`. One that isn't known is a text.
    /// Error: out of memory.
    fn parameter_types<R: Wait>(
        &self,
        _rt: &R,
        alloc: Global,
        _line: &[u8],
    ) -> Result<Vec<ColumnType>, AllocError> {
        Ok(Vec::new(alloc))
    }

    /// The name that a refusal of a line is about, if it can be told. Error: out of memory.
    fn about<R: Wait>(
        &self,
        rt: &R,
        alloc: Global,
        line: &[u8],
        refusal: &Refusal,
    ) -> Result<Option<Name>, AllocError>;

    /// The byte at which a line stops being a command, or its length.
    fn syntax_place(&self, alloc: Global, line: &[u8]) -> usize;
}
