//! The words with which statements begin.
use crate::query::kind::StatementKind;

/// How far the words of an opening go.
#[derive(Clone, Copy, Debug, PartialEq, Eq)]
pub enum Reach {
    /// They are the line.
    WholeLine,
    /// The line begins with them.
    FirstWords,
}

/// Words with which a statement of some kind begins.
pub type Opening = (&'static [u8], Reach, StatementKind);

/// The openings of statements; of those that fit a line, the first tells. A line that none fits is a statement.
pub const OPENINGS: [Opening; 51] = [
    (b"begin", Reach::WholeLine, StatementKind::Begin),
    (b"begin work", Reach::FirstWords, StatementKind::Begin),
    (
        b"begin transaction",
        Reach::FirstWords,
        StatementKind::Begin,
    ),
    (
        b"start transaction",
        Reach::FirstWords,
        StatementKind::Begin,
    ),
    (b"commit", Reach::WholeLine, StatementKind::Commit),
    (b"commit work", Reach::WholeLine, StatementKind::Commit),
    (
        b"commit transaction",
        Reach::WholeLine,
        StatementKind::Commit,
    ),
    (b"end", Reach::WholeLine, StatementKind::Commit),
    (b"end work", Reach::WholeLine, StatementKind::Commit),
    (b"end transaction", Reach::WholeLine, StatementKind::Commit),
    (b"rollback", Reach::WholeLine, StatementKind::Rollback),
    (b"rollback work", Reach::WholeLine, StatementKind::Rollback),
    (
        b"rollback transaction",
        Reach::WholeLine,
        StatementKind::Rollback,
    ),
    (b"abort", Reach::WholeLine, StatementKind::Rollback),
    (b"abort work", Reach::WholeLine, StatementKind::Rollback),
    (
        b"abort transaction",
        Reach::WholeLine,
        StatementKind::Rollback,
    ),
    (b"set", Reach::FirstWords, StatementKind::Setting),
    (b"reset", Reach::FirstWords, StatementKind::Setting),
    (b"discard all", Reach::WholeLine, StatementKind::Setting),
    (b"deallocate", Reach::FirstWords, StatementKind::Setting),
    (b"show", Reach::FirstWords, StatementKind::Show),
    (b"select 1", Reach::WholeLine, StatementKind::SelectOne),
    (
        b"select version()",
        Reach::WholeLine,
        StatementKind::SelectVersion,
    ),
    (
        b"select current_schema()",
        Reach::WholeLine,
        StatementKind::SelectSchema,
    ),
    (b"create", Reach::FirstWords, StatementKind::Definition),
    (b"drop", Reach::FirstWords, StatementKind::Definition),
    (b"alter", Reach::FirstWords, StatementKind::Definition),
    (b"activate", Reach::FirstWords, StatementKind::Definition),
    (b"deactivate", Reach::FirstWords, StatementKind::Definition),
    (b"process", Reach::FirstWords, StatementKind::Process),
    (b"savepoint", Reach::FirstWords, StatementKind::Unsupported),
    (b"release", Reach::FirstWords, StatementKind::Unsupported),
    (b"copy", Reach::FirstWords, StatementKind::Unsupported),
    (b"declare", Reach::FirstWords, StatementKind::Unsupported),
    (b"fetch", Reach::FirstWords, StatementKind::Unsupported),
    (b"move", Reach::FirstWords, StatementKind::Unsupported),
    (b"close", Reach::FirstWords, StatementKind::Unsupported),
    (b"listen", Reach::FirstWords, StatementKind::Unsupported),
    (b"notify", Reach::FirstWords, StatementKind::Unsupported),
    (b"unlisten", Reach::FirstWords, StatementKind::Unsupported),
    (b"lock", Reach::FirstWords, StatementKind::Unsupported),
    (b"explain", Reach::FirstWords, StatementKind::Unsupported),
    (b"prepare", Reach::FirstWords, StatementKind::Unsupported),
    (b"execute", Reach::FirstWords, StatementKind::Unsupported),
    (b"vacuum", Reach::FirstWords, StatementKind::Unsupported),
    (b"analyze", Reach::FirstWords, StatementKind::Unsupported),
    (b"truncate", Reach::FirstWords, StatementKind::Unsupported),
    (b"grant", Reach::FirstWords, StatementKind::Unsupported),
    (b"revoke", Reach::FirstWords, StatementKind::Unsupported),
    (b"do", Reach::FirstWords, StatementKind::Unsupported),
    (b"call", Reach::FirstWords, StatementKind::Unsupported),
];
