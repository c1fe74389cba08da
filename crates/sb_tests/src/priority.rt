//! The order of rules: which precede which.
ghost use Rattle.std.specs.Prelude.{◌≡◌, ◌∷◌, [], true};
ghost use Rattle.sb_catalog.specs.Ranks.{AreRanked, is_ranked};

use crate::mark::mark;
use sb_catalog::Priorities;
use sb_value::{RuleId, RuleSet};
use std::process::Abort;

/// The older rule comes to precede the newer one, and goes.
fn turn(rt: &impl Abort, order: &mut Priorities, older: RuleId, newer: RuleId)
    requires known { is_ranked order.old newer ≡ true }
    requires others { AreRanked order.old (older ∷ []) }
{
    mark();
    let others = [older];
    assert!(rt; order.alter(newer, &[], &others, &others).is_ok());
    assert!(rt; order.precedes(older, newer));
    let both = RuleSet::empty().with(newer).with(older);
    assert!(rt; order.choose(both) == Some(older));
    order.drop_rule(older);
    assert!(rt; !order.precedes(older, newer));
    mark();
}

#[test]
fn precedence(rt: HostRuntime) {
    let [older, newer] = [RuleId::new(63), RuleId::new(7)];
    let mut order = Priorities::new(rt.alloc());
    order.reserve(older).expect(&rt, "room");
    mark();
    assert!(rt; order.has_room());
    assert!(rt; order.add(older, &[], &[]).is_ok());
    mark();
    order.reserve(newer).expect(&rt, "room");
    mark();
    assert!(rt; order.has_room());
    assert!(rt; order.add(newer, &[older], &[]).is_ok());
    assert!(rt; order.precedes(newer, older));
    mark();
    turn(&rt, &mut order, older, newer);
}
