//! The words of `journal` ask for one of these actions, without a server.

/// An action on a journal, without a server.
#[derive(Clone, Copy, Debug)]
pub enum JournalAction {
    /// The journal is read from end to end, and its contents are told in a line.
    Check,
}
