//! How the rows of a statement are told.

/// How the rows of a statement are told.
#[derive(Clone, Copy)]
pub(crate) struct Form {
    /// The columns are told in front of them.
    pub(crate) described: bool,
}
