//! A place in a segment.

/// The beginning of a block, with the digest before it. Only a segment makes one.
#[derive(Clone, Copy, Debug)]
pub struct Place {
    /// The number of bytes before it.
    pub(crate) at: usize,
    pub(crate) chain: u64,
}
