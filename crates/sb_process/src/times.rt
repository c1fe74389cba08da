//! The times of one rule.
ghost use Rattle.std.specs.Prelude.{◌≡◌, ℕ, ◌<◌, ◌≤◌, length, OnOk, OnErr};
ghost use Rattle.sb_value.specs.Limits.{rule_limit};
ghost use Rattle.sb_process.specs.Transactions.{mark_in, tested_in, SetsOwn};

use sb_value::{SESSION_LIMIT, SessionId};
use std::alloc::AllocError;

/// For each session the time of the rule's mark, and the time up to which its changes since then were found not to
/// trigger it.
#[derive(Clone, Copy)]
pub struct Times {
    pub marks: [u64; SESSION_LIMIT],
    pub tested: [u64; SESSION_LIMIT],
}

impl Times {
    /// These times with both of a session set.
    pub(crate) fn with(self, session: SessionId, mark: u64, tested: u64) -> Times
        ensures marks { SetsOwn session mark self.marks result.marks }
        ensures tested { SetsOwn session tested self.tested result.tested }
    {
        let mut times = self;
        times.marks[session.index()] = mark;
        times.tested[session.index()] = tested;
        times
    }
}

/// Lengthens the rows by such of no time.
pub(crate) fn grow(rows: &mut Vec<Times>, count: usize) -> Result<(), AllocError>
    requires count { count ≤ rule_limit }
    ensures room { OnOk result (count ≤ length rows.new.items) }
    ensures unchanged { OnErr result (rows.new.items ≡ rows.old.items) }
    ensures marks { (s r : ℕ) → mark_in rows.new.items s r ≡ mark_in rows.old.items s r }
    ensures tested { (s r : ℕ) → tested_in rows.new.items s r ≡ tested_in rows.old.items s r }
{
    let more = count.saturating_sub(rows.len());
    if rows.reserve(more).is_err() {
        return Err(AllocError);
    }
    while rows.len() < count {
        rows.push_reserved(Times {
            marks: [0; SESSION_LIMIT],
            tested: [0; SESSION_LIMIT],
        });
    }
    Ok(())
}
