//! Which rule precedes which, also through others.
ghost use Rattle.std.specs.Prelude.{◌≡◌, ℕ, Bool, List, [], ◌++◌, ◌&&◌, ◌||◌, ◌==◌, slice_index_or, length};
ghost use Rattle.sb_value.specs.Flags.{flag_at};
ghost use Rattle.sb_value.specs.Limits.{rule_limit};
ghost use Rattle.sb_priority.specs.Closed.{relates, relates_through, row_pairs, row_through, is_led, with_led, ClosesMore, IsClosure};

use sb_value::{RULE_LIMIT, RuleId, RuleSet};
use std::marker::Model;

/// The transitive closure of pairs of rules: for each rule those that precede it.
#[derive(Clone, Copy)]
pub struct Closure {
    before: [RuleSet; RULE_LIMIT],
}

impl Model for Closure {
    ghost use Rattle.std.specs.Prelude.{List, Bool};

    ghost Value = { List (List Bool) };

    ghost view = { λ c. c.before };

    ghost inverse = { λ rows. record { before = rows } };
}

impl Closure {
    /// The closure that has these rows.
    pub fn of(before: [RuleSet; RULE_LIMIT]) -> Closure
        ensures { result ≡ before }
    {
        Closure { before }
    }

    /// The closure of no pairs.
    pub fn new() -> Closure
        ensures { IsClosure result [] }
    {
        Closure {
            before: [RuleSet::empty(); RULE_LIMIT],
        }
    }

    /// The rules that precede the rule.
    pub fn predecessors(&self, rule: RuleId) -> RuleSet
        ensures { (a : ℕ) → flag_at result a ≡ relates self.now a rule }
    {
        self.before[rule.index()]
    }

    /// Closes the pairs with those that put the rules of the row before one rule: what reaches one of the row precedes what that
    /// rule reaches.
    pub fn link_row(&mut self, row: RuleSet, second: RuleId)
        ensures { ClosesMore self.old self.new (row_pairs (flag_at row) second rule_limit) }
    {
        let through = self.through(row);
        link_rows(&mut self.before, through, second);
    }

    /// The rules of the row and those that precede one of them.
    fn through(&self, row: RuleSet) -> RuleSet
        ensures { (a : ℕ) → flag_at result a ≡ is_led (flag_at row) (relates self.now a) a rule_limit }
    {
        let mut through = RuleSet::empty();
        for number in 0..RULE_LIMIT {
            through = led_too(through, row, RuleId::new(number as u8), self.before[number]);
        }
        through
    }
}

/// The rules with one more, and what precedes it, if the row has it.
fn led_too(through: RuleSet, row: RuleSet, rule: RuleId, before: RuleSet) -> RuleSet
    ensures { (a : ℕ) → flag_at result a ≡ with_led through row rule before a }
{
    if row.contains(rule) {
        through.union(before).with(rule)
    } else {
        through
    }
}

/// Adds the rules to each row that has the second rule or is its own.
fn link_rows(rows: &mut [RuleSet], through: RuleSet, second: RuleId)
    requires { length rows.old ≡ rule_limit }
    ensures { (a b : ℕ) → relates rows.new a b ≡ relates_through rows.old through second a b }
{
    let _in_range = second.number();
    for number in 0..RULE_LIMIT {
        rows[number] = linked(rows[number], number, through, second);
    }
}

/// The row of that number, with the rules if it has the second rule or is its own.
fn linked(row: RuleSet, number: usize, through: RuleSet, second: RuleId) -> RuleSet
    ensures { (a : ℕ) → flag_at result a ≡ row_through row number through second a }
{
    if reaches(row, number, second) {
        row.union(through)
    } else {
        row
    }
}

/// True if the row of that number is the second rule's own or has it.
fn reaches(row: RuleSet, number: usize, second: RuleId) -> bool
    ensures { result ≡ ((second == number) || flag_at row second) }
{
    number == second.index() || row.contains(second)
}
