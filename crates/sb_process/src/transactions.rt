//! The marks and the candidates of a tenant's sessions.
ghost use Rattle.std.specs.Prelude.{◌≡◌, ◌⊎◌, ℕ, ◌<◌, ◌≤◌, false, not, ◌&&◌, ◌||◌, ◌==◌, if◌then◌else◌, length, slice_index, MatchOption, OnOk, OnErr};
ghost use Rattle.sb_value.specs.Flags.{flag_at};
ghost use Rattle.sb_process.specs.Transactions.{mark_of, tested_of, is_candidate_of, SetsTime};

use crate::times::{Times, grow};
use sb_value::{RuleId, RuleSet, SESSION_LIMIT, SessionId};
use std::alloc::{AllocError, Global};
use std::marker::Model;

/// For each session the time of each rule's mark, the time up to which its changes since then were found not to trigger
/// the rule, and the rules that its changes may have triggered. The rules of which none was marked or tested take no
/// place.
#[derive(Drop)]
pub struct Transactions {
    rows: Vec<Times>,
    marked: [RuleSet; SESSION_LIMIT],
    candidates: [RuleSet; SESSION_LIMIT],
}

impl Model for Transactions {
    ghost use Rattle.sb_process.specs.Transactions.{Kept};

    ghost Value = { Kept };

    ghost view = { λ t. record { rows = t.rows.items; marked = t.marked; candidates = t.candidates } };
}

impl Transactions {
    /// All marks at 0, and no candidates.
    pub fn new(alloc: Global) -> Transactions
        ensures marks { (s r : ℕ) → mark_of result s r ≡ 0 }
        ensures tested { (s r : ℕ) → tested_of result s r ≡ 0 }
        ensures candidates { (s r : ℕ) → is_candidate_of result s r ≡ false }
    {
        Transactions {
            rows: Vec::new(alloc),
            marked: [RuleSet::empty(); SESSION_LIMIT],
            candidates: [RuleSet::empty(); SESSION_LIMIT],
        }
    }

    /// The marks of a session at 0, and no candidates.
    pub fn begin(&mut self, session: SessionId)
        ensures marks { (s r : ℕ) → mark_of self.new s r ≡ (if s == session then 0 else mark_of self.old s r) }
        ensures tested { (s r : ℕ) → tested_of self.new s r ≡ (if s == session then 0 else tested_of self.old s r) }
        ensures candidates { (s r : ℕ) →
            is_candidate_of self.new s r ≡ (not (s == session) && is_candidate_of self.old s r) }
    {
        self.marked[session.index()] = RuleSet::empty();
        self.candidates[session.index()] = RuleSet::empty();
    }

    /// The time of a rule's mark.
    pub fn mark(&self, session: SessionId, rule: RuleId) -> u64
        ensures { result ≡ mark_of self.now session rule }
    {
        match self.times(session, rule) {
            Some(times) => times.marks[session.index()],
            None => 0,
        }
    }

    /// The time up to which the changes since a rule's mark were found not to trigger it.
    pub fn tested(&self, session: SessionId, rule: RuleId) -> u64
        ensures { result ≡ tested_of self.now session rule }
    {
        match self.times(session, rule) {
            Some(times) => times.tested[session.index()],
            None => 0,
        }
    }

    /// Both times of a rule, where they count in the session's transaction.
    fn times(&self, session: SessionId, rule: RuleId) -> Option<&Times>
        ensures marks { MatchOption result (mark_of self.now session rule ≡ 0)
            (λ times. mark_of self.now session rule ≡ slice_index times.now.marks session) }
        ensures tested { MatchOption result (tested_of self.now session rule ≡ 0)
            (λ times. tested_of self.now session rule ≡ slice_index times.now.tested session) }
    {
        if !self.marked[session.index()].contains(rule) {
            return None;
        }
        self.rows.get(rule.index())
    }

    /// Sets a rule's mark. Nothing since then triggers the rule. Error: out of memory.
    pub fn set_mark(
        &mut self,
        session: SessionId,
        rule: RuleId,
        time: u64,
    ) -> Result<(), AllocError>
        ensures marks { OnOk result (SetsTime session rule time (mark_of self.old) (mark_of self.new)) }
        ensures tested { OnOk result (SetsTime session rule time (tested_of self.old) (tested_of self.new)) }
        ensures candidates { (s r : ℕ) → is_candidate_of self.new s r ≡ is_candidate_of self.old s r }
        ensures unchanged { OnErr result (self.new ≡ self.old) }
    {
        grow(&mut self.rows, rule.index() + 1)?;
        self.set(session, rule, time, time);
        Ok(())
    }

    /// The candidates of a session.
    pub fn candidates(&self, session: SessionId) -> RuleSet
        ensures { (r : ℕ) → flag_at result r ≡ is_candidate_of self.now session r }
    {
        self.candidates[session.index()]
    }

    /// Makes rules candidates of a session.
    pub fn join(&mut self, session: SessionId, rules: RuleSet)
        ensures marks { (s r : ℕ) → mark_of self.new s r ≡ mark_of self.old s r }
        ensures tested { (s r : ℕ) → tested_of self.new s r ≡ tested_of self.old s r }
        ensures candidates { (s r : ℕ) →
            is_candidate_of self.new s r ≡ (is_candidate_of self.old s r || ((s == session) && flag_at rules r)) }
    {
        self.candidates[session.index()] = self.candidates[session.index()].union(rules);
    }

    /// Takes a rule from the candidates of a session, where its changes up to the time were found not to trigger it.
    /// If there is no memory for that time, the rule is tested for these changes again.
    pub fn leave(&mut self, session: SessionId, rule: RuleId, time: u64)
        ensures marks { (s r : ℕ) → mark_of self.new s r ≡ mark_of self.old s r }
        ensures tested { (t : ℕ) × ((t ≡ time) ⊎ (t ≡ tested_of self.old session rule))
            × SetsTime session rule t (tested_of self.old) (tested_of self.new) }
        ensures candidates { (s r : ℕ) →
            is_candidate_of self.new s r ≡ (is_candidate_of self.old s r && not ((s == session) && (r == rule))) }
    {
        self.candidates[session.index()] = self.candidates[session.index()].without(rule);
        if grow(&mut self.rows, rule.index() + 1).is_ok() {
            let mark = self.mark(session, rule);
            self.set(session, rule, mark, time);
        }
    }

    /// Sets both times of a rule that has its row.
    fn set(&mut self, session: SessionId, rule: RuleId, mark: u64, tested: u64)
        requires row { rule < length self.old.rows }
        ensures marks { SetsTime session rule mark (mark_of self.old) (mark_of self.new) }
        ensures tested { SetsTime session rule tested (tested_of self.old) (tested_of self.new) }
        ensures candidates { (s r : ℕ) → is_candidate_of self.new s r ≡ is_candidate_of self.old s r }
    {
        self.rows[rule.index()] = self.rows[rule.index()].with(session, mark, tested);
        self.marked[session.index()] = self.marked[session.index()].with(rule);
    }
}
