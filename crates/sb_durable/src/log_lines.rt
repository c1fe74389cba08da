//! The lines of the log that tell an operator of a journal.

use sb_words::{Log, Severity};
use std::fmt::Display;

/// Logs why a journal can't be opened, replayed or written.
pub fn tell_no_journal<O: Log, D: Display>(log: &O, path: &str, why: &D) {
    log.write(Severity::Error, &format_args!("journal {path}: {why}"));
}

/// Logs the progress of a replay.
pub(crate) fn tell_played<O: Log>(log: &O, records: u64, bytes: u64) {
    log.write(
        Severity::Info,
        &format_args!("journal: {records} lines, {bytes} bytes are played"),
    );
}

/// Logs why nothing is recorded any more, or why the journal is not durable.
pub fn tell_not_recorded<O: Log, D: Display>(log: &O, why: &D) {
    log.write(Severity::Error, &format_args!("journal: {why}"));
}

/// Logs that the disk has no room for records.
pub fn tell_no_room<O: Log, D: Display>(log: &O, why: &D) {
    log.write(
        Severity::Error,
        &format_args!("journal: no room: {why}: replies wait until there is some"),
    );
}

/// Logs that the disk has room for records again.
pub fn tell_room<O: Log>(log: &O) {
    log.write(
        Severity::Info,
        &format_args!("journal: there is room again"),
    );
}

/// Logs that records go to the segment with this number from then on.
pub(crate) fn tell_turned<O: Log>(log: &O, number: u64) {
    log.write(
        Severity::Info,
        &format_args!("journal: segment {number} is begun"),
    );
}

/// Logs why records don't go to a new segment with this number.
pub(crate) fn tell_unturned<O: Log, D: Display>(log: &O, number: u64, why: &D) {
    log.write(
        Severity::Warning,
        &format_args!("journal: segment {number} is not begun: {why}"),
    );
}
