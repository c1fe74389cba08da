//! The modes of a lock on a table.

/// True if a statement reads a table or writes it.
#[derive(Clone, Copy, Debug, PartialEq, Eq)]
pub enum LockMode {
    Read,
    Write,
}
