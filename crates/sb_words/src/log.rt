//! A run tells in a log how it goes.

use crate::severity::Severity;
use std::fmt::Display;

/// The log of a run, for its operator. Whoever has something to tell writes a line of it.
pub trait Log {
    /// Writes a line, if it is severe enough to be told.
    fn write<D: Display>(&self, severity: Severity, text: &D);
}
