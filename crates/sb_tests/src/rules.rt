//! Rules, their sets, their index and locks: what is taken out, looked up or asked for takes no memory.

use crate::changes::insert;
use crate::mark::mark;
use crate::schema::read_rule;
use sb_catalog::{Catalog, RuleIndex, Rulesets};
use sb_locks::Locks;
use sb_value::{Change, Columns, LockMode, Name, RuleId, SessionId, TableId, TenantId, Triggers};
use std::process::Abort;

/// A rule on table 0 is looked up, made inactive and dropped.
fn look_up(rt: &impl Abort, catalog: &mut Catalog, name: &Name) {
    mark();
    assert!(rt; catalog.find(name).is_some());
    assert!(rt; catalog.uses(TableId::new(0)) && !catalog.uses(TableId::new(1)));
    assert!(rt; catalog.deactivate(name).is_ok() && catalog.active().is_empty());
    assert!(rt; catalog.drop_rule(name).is_ok());
    assert!(rt; catalog.find(name).is_none() && catalog.drop_rule(name).is_err());
    mark();
}

#[test]
fn rules_are_looked_up_and_dropped_without_memory(rt: HostRuntime) {
    let mut catalog = Catalog::new(rt.alloc());
    let name = Name::new(b"r");
    let rule = read_rule(&rt, rt.alloc());
    assert!(rt; catalog.create(name, rule).is_ok());
    look_up(&rt, &mut catalog, &name);
}

/// True if the ruleset has the rule.
fn has_rule(sets: &Rulesets, name: &Name, rule: RuleId) -> bool {
    match sets.members(name) {
        Some(rules) => rules.contains(rule),
        None => false,
    }
}

/// Rules come into a set, and go.
fn change_set(rt: &impl Abort, sets: &mut Rulesets, name: &Name, first: RuleId, second: RuleId) {
    mark();
    let rules = [first, second];
    assert!(rt; sets.add_rules(name, &rules).is_ok());
    sets.drop_rule(first);
    assert!(rt; has_rule(sets, name, second) && !has_rule(sets, name, first));
    assert!(rt; sets.del_rules(name, &rules).is_ok());
    assert!(rt; !has_rule(sets, name, second));
    assert!(rt; sets.drop_set(name).is_ok() && !sets.has(name));
    assert!(rt; sets.add_rules(name, &rules).is_err());
    assert!(rt; sets.del_rules(name, &rules).is_err());
    mark();
}

#[test]
fn rulesets_are_changed_without_memory(rt: HostRuntime) {
    let mut sets = Rulesets::new(rt.alloc());
    let name = Name::new(b"s");
    assert!(rt; sets.create(name).is_ok());
    change_set(&rt, &mut sets, &name, RuleId::new(0), RuleId::new(63));
}

fn on_insert() -> Triggers {
    Triggers {
        inserted: true,
        deleted: false,
        updated: false,
        columns: Columns::empty(),
    }
}

/// The rule of one tenant goes, and another tenant's stays.
fn look_up_changes(rt: &impl Abort, index: &mut RuleIndex, own: &Change, others: &Change) {
    let rule = RuleId::new(5);
    mark();
    assert!(rt; index.candidates(own).contains(rule));
    index.drop_rule(own.tenant, rule);
    assert!(rt; index.candidates(own).is_empty());
    assert!(rt; index.candidates(others).contains(rule));
    mark();
}

fn add_rule(rt: &impl Abort, index: &mut RuleIndex, tenant: u8) {
    let tenant = TenantId::new(tenant);
    let added = index.add_rule(tenant, RuleId::new(5), TableId::new(0), on_insert());
    assert!(rt; added.is_ok());
}

#[test]
fn an_index_is_read_and_left_without_memory(rt: HostRuntime) {
    let mut index = RuleIndex::new(rt.alloc());
    add_rule(&rt, &mut index, 0);
    add_rule(&rt, &mut index, 8);
    let own = insert(&rt, rt.alloc(), 0, 5);
    let others = insert(&rt, rt.alloc(), 8, 5);
    look_up_changes(&rt, &mut index, &own, &others);
}

#[test]
fn locks_take_no_memory(rt: HostRuntime) {
    let [first, second] = [SessionId::new(0), SessionId::new(1)];
    let [read, written] = [TableId::new(0), TableId::new(15)];
    let mut locks = Locks::new();
    mark();
    let both = [(written, LockMode::Write), (read, LockMode::Read)];
    assert!(rt; locks.request(first, &both).is_ok());
    assert!(rt; locks.request(second, &both).is_err());
    assert!(rt; !locks.is_held(second, read, LockMode::Read));
    locks.release(first);
    assert!(rt; locks.request(second, &both).is_ok());
    mark();
}
