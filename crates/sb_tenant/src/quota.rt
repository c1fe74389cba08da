//! How much memory a tenant may take.
ghost use Rattle.std.specs.Prelude.{◌≡◌, Some, None};
ghost use Rattle.sb_tenant.specs.Quota.{refuses};

use crate::reply::{NamedTrace, Reply};
use sb_rows::SharedRows;

/// The line that gives a transaction's memory back.
const ROLLBACK: &[u8] = b"rollback";

/// An entry takes so many bytes, beside its line and its reply.
const ENTRY_BYTES: usize = 128;

/// A considered rule in a reply takes so many bytes.
const CONSIDERED_BYTES: usize = 40;

/// The name of the rule that ended a transaction takes so many bytes apart from its reply, and so does its refusal.
const APART_BYTES: usize = 48;

/// The bytes that a tenant's trail and the texts of its rules take, and the limit of these and of its rows and its open
/// transactions.
#[derive(Clone, Copy)]
pub(crate) struct Quota {
    limit: Option<u64>,
    taken: u64,
    changes: u64,
}

impl Quota {
    /// Without a limit, and with nothing taken.
    pub(crate) fn none() -> Quota
        ensures { result ≡ record { limit = None; taken = 0; changes = 0 } }
    {
        Quota {
            limit: None,
            taken: 0,
            changes: 0,
        }
    }

    /// So many bytes may be taken.
    pub(crate) fn set_limit(&mut self, bytes: u64)
        ensures { self.new ≡ record self.old { limit = Some bytes } }
    {
        self.limit = Some(bytes);
    }

    /// As much may be taken as by another one.
    pub(crate) fn limit_like(&mut self, other: &Quota)
        ensures { self.new ≡ record self.old { limit = other.now.limit } }
    {
        self.limit = other.limit;
    }

    /// The bytes that trail and texts take.
    pub(crate) fn taken(&self) -> u64
        ensures { result ≡ self.now.taken }
    {
        self.taken
    }

    /// The most bytes that rows and open transactions may take beside them, if there is a limit.
    pub(crate) fn room(&self) -> Option<u64> {
        match self.limit {
            Some(limit) => Some(limit.saturating_sub(self.taken)),
            None => None,
        }
    }

    /// The number of changes of the open transactions.
    pub(crate) fn changes(&self) -> u64
        ensures { result ≡ self.now.changes }
    {
        self.changes
    }

    /// True if a line isn't begun where rows and open transactions take so many bytes: all that may be taken is, and it isn't
    /// `rollback`, which gives back.
    pub(crate) fn refuses(&self, used: u64, line: &[u8]) -> bool
        ensures { result ≡ refuses self.now used line.now }
    {
        match self.limit {
            Some(limit) => self.taken.saturating_add(used) >= limit && line != ROLLBACK,
            None => false,
        }
    }

    /// Counts an entry with this line and this reply.
    pub(crate) fn count_entry(&mut self, line: &[u8], reply: &Reply)
        ensures { self.new.limit ≡ self.old.limit }
    {
        let bytes = reply_bytes(reply).saturating_add(line.len().saturating_add(ENTRY_BYTES));
        self.taken = self.taken.saturating_add(bytes as u64);
    }

    /// Counts changes: the open transactions had so many, and have so many now.
    pub(crate) fn count_changes(&mut self, before: usize, after: usize)
        ensures { self.new.limit ≡ self.old.limit }
    {
        let changes = self.changes.saturating_add(after as u64);
        self.changes = changes.saturating_sub(before as u64);
    }

    /// Counts the texts of rules: they took so many bytes, and take so many now.
    pub(crate) fn count_texts(&mut self, before: u64, after: u64)
        ensures { self.new.limit ≡ self.old.limit }
    {
        self.taken = self.taken.saturating_add(after).saturating_sub(before);
    }
}

/// The bytes that a reply takes beside its entry.
fn reply_bytes(reply: &Reply) -> usize {
    match reply {
        Reply::Rows(rows) => text_bytes(rows),
        Reply::Done(trace) | Reply::ByLimit(trace) => trace_bytes(trace),
        Reply::ByRule(_, trace) => trace_bytes(trace).saturating_add(APART_BYTES),
        Reply::ByError(_, _, trace) => trace_bytes(trace).saturating_add(2 * APART_BYTES),
        Reply::Ok | Reply::Count(_) | Reply::No(_) => 0,
    }
}

fn text_bytes(rows: &SharedRows) -> usize {
    rows.text().len()
}

fn trace_bytes(trace: &NamedTrace) -> usize {
    trace.as_slice().len().saturating_mul(CONSIDERED_BYTES)
}
