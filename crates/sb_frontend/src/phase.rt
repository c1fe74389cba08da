//! The phases of a conversation.

/// The phase of a conversation in messages.
#[derive(Clone, Copy, Debug, PartialEq, Eq)]
pub enum Phase {
    /// Before the packet that names a session.
    Starting,
    /// The key of this tenant was asked for. Without a number none was named.
    AskingKey(Option<u32>),
    Ready,
    /// Behind an error, up to the next `Sync`.
    Skipping,
    Over,
}
