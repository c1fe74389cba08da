//! Pairs of rules as they are kept.
ghost use Rattle.std.specs.Prelude.{◌≡◌, ℕ, ◌<◌, ◌≤◌, true, List, [], length, OnOk, OnErr};
ghost use Rattle.sb_value.specs.Flags.{flag_at};
ghost use Rattle.sb_value.specs.Limits.{rule_limit};
ghost use Rattle.sb_value.specs.Order.{precedes};
ghost use Rattle.sb_priority.specs.Closed.{relates, ArePredecessors, HasPairs};
ghost use Rattle.sb_priority.specs.Rows.{row_at, direct_of, before_of, AreKept, IsRowOf};

use crate::closure::Closure;
use crate::pairs::Pairs;
use sb_value::{RULE_LIMIT, RuleId, RuleSet, precedes_is_closure};
use std::alloc::{AllocError, Global};
use std::marker::Model;

/// The rules that precede one rule, by a pair and by any way of pairs.
#[derive(Clone, Copy)]
pub struct PrecedenceRow {
    pub direct: RuleSet,
    pub before: RuleSet,
}

/// A row for each number up to the highest that a rule ever had.
pub struct PrecedenceRows {
    rows: Vec<PrecedenceRow>,
}

impl Drop for PrecedenceRows {
    fn drop(self) {
        let Self { rows: _ } = self;
    }
}

impl Model for PrecedenceRows {
    ghost use Rattle.std.specs.Prelude.{List, Bool};
    ghost use Rattle.sb_priority.specs.Rows.{direct_of, AreKept};

    ghost Value = { List (List Bool) };

    ghost view = { λ r. direct_of r.rows.items };

    ghost invariant = { λ r. AreKept r.rows.items };
}

impl PrecedenceRows {
    /// No rows.
    pub fn new(alloc: Global) -> PrecedenceRows
        ensures { result ≡ [] }
    {
        PrecedenceRows {
            rows: Vec::new(alloc),
        }
    }

    /// Makes a row for the rule. Error: out of memory.
    pub fn reserve(&mut self, rule: RuleId) -> Result<(), AllocError>
        ensures room { OnOk result (rule < length self.new) }
        ensures longer { length self.old ≤ length self.new }
        ensures same { (a b : ℕ) → relates self.new a b ≡ relates self.old a b }
        ensures unchanged { OnErr result (self.new ≡ self.old) }
    {
        grow(&mut self.rows, rule.index() + 1)
    }

    /// The pairs.
    pub fn load(&self) -> Pairs
        ensures { (a b : ℕ) → relates result a b ≡ relates self.now a b }
    {
        spread(self.rows.as_slice())
    }

    /// The rules that precede the rule.
    pub fn predecessors(&self, rule: RuleId) -> RuleSet
        ensures { ArePredecessors result self.now rule }
    {
        // for the proof: the test of precedence is the closure of the pairs
        precedes_is_closure();
        before_in(self.rows.as_slice(), rule)
    }

    /// The rules that a pair puts before the rule.
    pub fn direct(&self, rule: RuleId) -> RuleSet
        ensures rules { (a : ℕ) → flag_at result a ≡ relates self.now a rule }
        ensures few { length self.now ≤ rule_limit }
    {
        direct_in(self.rows.as_slice(), rule)
    }

    /// Takes other pairs over. Each rule that another one precedes has its row.
    pub fn store(&mut self, pairs: &Pairs)
        requires { (a b : ℕ) → relates pairs.now a b ≡ true → b < length self.old }
        ensures rows { length self.new ≡ length self.old }
        ensures pairs { (a b : ℕ) → relates self.new a b ≡ relates pairs.now a b }
    {
        // for the proof: the pairs are those of some list, and nothing precedes a rule that is second in none of them
        pairs.are_listed();
        precedes_is_closure();
        fill(&mut self.rows, pairs);
    }
}

/// The pairs of the rows.
fn spread(rows: &[PrecedenceRow]) -> Pairs
    requires { AreKept rows.now }
    ensures { (a b : ℕ) → relates result a b ≡ relates (direct_of rows.now) a b }
{
    let mut direct = [RuleSet::empty(); RULE_LIMIT];
    let mut before = [RuleSet::empty(); RULE_LIMIT];
    for number in 0..rows.len() {
        let row = rows[number];
        direct[number] = row.direct;
        before[number] = row.before;
    }
    Pairs::of(direct, Closure::of(before))
}

/// The rules that precede the rule by any way of pairs.
fn before_in(rows: &[PrecedenceRow], rule: RuleId) -> RuleSet
    ensures { (a : ℕ) → flag_at result a ≡ relates (before_of rows.now) a rule }
{
    match rows.get(rule.index()) {
        Some(row) => row.before,
        None => RuleSet::empty(),
    }
}

/// The rules that a pair puts before the rule.
fn direct_in(rows: &[PrecedenceRow], rule: RuleId) -> RuleSet
    ensures { (a : ℕ) → flag_at result a ≡ relates (direct_of rows.now) a rule }
{
    match rows.get(rule.index()) {
        Some(row) => row.direct,
        None => RuleSet::empty(),
    }
}

/// Lengthens the rows by empty ones.
fn grow(rows: &mut Vec<PrecedenceRow>, count: usize) -> Result<(), AllocError>
    requires count { count ≤ rule_limit }
    requires few { length rows.old.items ≤ rule_limit }
    ensures room { OnOk result (count ≤ length rows.new.items) }
    ensures longer { length rows.old.items ≤ length rows.new.items }
    ensures few { length rows.new.items ≤ rule_limit }
    ensures direct { (a b : ℕ) → relates (direct_of rows.new.items) a b ≡ relates (direct_of rows.old.items) a b }
    ensures before { (a b : ℕ) → relates (before_of rows.new.items) a b ≡ relates (before_of rows.old.items) a b }
    ensures unchanged { OnErr result (rows.new.items ≡ rows.old.items) }
{
    let more = count.saturating_sub(rows.len());
    if rows.reserve(more).is_err() {
        return Err(AllocError);
    }
    while rows.len() < count {
        rows.push_reserved(PrecedenceRow {
            direct: RuleSet::empty(),
            before: RuleSet::empty(),
        });
    }
    Ok(())
}

/// Puts the rows of the pairs in the place of these.
fn fill(rows: &mut Vec<PrecedenceRow>, pairs: &Pairs)
    requires { length rows.old.items ≤ rule_limit }
    ensures count { length rows.new.items ≡ length rows.old.items }
    ensures rows { (b : ℕ) → b < length rows.old.items → IsRowOf pairs.now b (row_at rows.new.items b) }
{
    for number in 0..rows.len() {
        rows[number] = pairs.row(RuleId::new(number as u8));
    }
}
