//! The fate of a message's bytes.

/// The fate of a message's bytes.
#[derive(Clone, Copy, Debug, PartialEq, Eq)]
pub(crate) enum Taken {
    Answered,
    /// They are no message.
    Unreadable,
    /// There was no memory to read them.
    NoMemory,
}
