//! Replies of a session to its lines.

use sb_rows::SharedRows;
use sb_value::{Name, Refusal, Verdict};

/// The reply of a session to a line.
#[derive(Clone, Copy)]
pub enum Reply<'a> {
    Done,
    /// So many rows were changed.
    Changed(u64),
    Found(&'a SharedRows),
    /// A commit or a process went well. These rules were considered.
    Processed(&'a [(Name, Verdict)]),
    /// A rule rolled the transaction back.
    ByRule {
        rule: &'a Name,
        rules: &'a [(Name, Verdict)],
    },
    /// An error in a rule did.
    ByError {
        rule: &'a Name,
        error: &'a Refusal,
        rules: &'a [(Name, Verdict)],
    },
    /// The limit of considerations did.
    ByLimit(&'a [(Name, Verdict)]),
    Refused(&'a Refusal),
    /// There was no memory to begin a step.
    NotBegun,
}
