//! Sets of rules, with the rules of a list or without them.
ghost use Rattle.std.specs.Prelude.{◌≡◌};
ghost use Rattle.sb_catalog.specs.Members.{changed_members, with_rules, without_rules};

use sb_value::{RuleId, RuleSet};

/// Adds the rules of a list to a ruleset, or takes them out of it.
#[derive(Clone, Copy)]
pub enum MemberChange {
    Added,
    Taken,
}

/// The set behind such a change.
pub fn changed(set: RuleSet, change: MemberChange, rules: &[RuleId]) -> RuleSet
    ensures { result ≡ changed_members change set rules.now }
{
    match change {
        MemberChange::Added => with_all(set, rules),
        MemberChange::Taken => without_all(set, rules),
    }
}

/// The set with all these rules, too.
fn with_all(set: RuleSet, rules: &[RuleId]) -> RuleSet
    ensures { result ≡ with_rules set rules.now }
{
    let mut all = set;
    for rule in rules {
        all = all.with(*rule);
    }
    all
}

/// The set without any of these rules.
fn without_all(set: RuleSet, rules: &[RuleId]) -> RuleSet
    ensures { result ≡ without_rules set rules.now }
{
    let mut others = set;
    for rule in rules {
        others = others.without(*rule);
    }
    others
}
