//! The heads of the lists of a log in places.

/// The head of each bucket's list: of changes by session, table and kind, of changes by tuple, and by session.
pub(crate) struct Heads {
    pub(crate) ops: Vec<Option<usize>>,
    pub(crate) tuples: Vec<Option<usize>>,
    pub(crate) sessions: Vec<Option<usize>>,
}

impl Drop for Heads {
    fn drop(self) {
        let Self {
            ops: _,
            tuples: _,
            sessions: _,
        } = self;
    }
}
