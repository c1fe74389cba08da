//! A journal's records are brought to the disk at one of these times.

/// The time at which a record of a journal is brought to the disk.
#[derive(Clone, Copy, Debug)]
pub enum Syncs {
    /// Before its line is answered.
    Always,
    /// A second behind that, at most.
    Second,
    /// As the system does so by itself.
    Never,
}
