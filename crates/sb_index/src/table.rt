//! The rules of one table.
ghost use Rattle.std.specs.Prelude.{◌≡◌, ℕ, Bool, List, [], false, not, ◌&&◌, ◌||◌, ◌==◌, nat_lt, length, map, slice_index_or};
ghost use Rattle.sb_value.specs.Flags.{flag_at, share_place};
ghost use Rattle.sb_value.specs.Laws.{kind_triggers};
ghost use Rattle.sb_value.specs.NetEffect.{is_operation, update_between};
ghost use Rattle.sb_index.specs.Operation.{Operation, places};
ghost use Rattle.sb_index.specs.Stands.{in_column, in_table, triggers_in, column_flags, with_columns, with_table_rule};

use sb_value::{
    COLUMN_LIMIT, Change, ChangeKind, Columns, RuleId, RuleSet, Triggers, Value, differing,
    same_row,
};
use std::marker::Model;

/// The rules that each operation on one table triggers.
#[derive(Drop)]
pub struct TableRules {
    inserted: RuleSet,
    deleted: RuleSet,
    /// Those that an update of any column triggers.
    updated: RuleSet,
    /// Those that an update of the column triggers.
    columns: [RuleSet; COLUMN_LIMIT],
}

impl Model for TableRules {
    ghost use Rattle.sb_index.specs.TableSets.{TableSets};

    ghost Value = { TableSets };

    ghost view = { λ t. record { inserted = t.inserted; deleted = t.deleted; updated = t.updated; columns = t.columns } };
}

impl TableRules {
    /// No rules.
    pub fn none() -> TableRules
        ensures { (o : Operation) (r : ℕ) → in_table result o r ≡ false }
    {
        TableRules {
            inserted: RuleSet::empty(),
            deleted: RuleSet::empty(),
            updated: RuleSet::empty(),
            columns: [RuleSet::empty(); COLUMN_LIMIT],
        }
    }

    /// Adds the rule under each of its operations.
    pub fn add(&mut self, rule: RuleId, triggers: Triggers)
        ensures { (o : Operation) (r : ℕ) → in_table self.new o r ≡ with_table_rule self.old rule triggers o r }
    {
        self.inserted = with_if(self.inserted, rule, triggers.inserted);
        self.deleted = with_if(self.deleted, rule, triggers.deleted);
        self.updated = with_if(self.updated, rule, triggers.updated);
        add_columns(&mut self.columns, rule, triggers.columns);
    }

    /// Takes the rule away.
    pub fn drop_rule(&mut self, rule: RuleId)
        ensures { (o : Operation) (r : ℕ) → in_table self.new o r ≡ (in_table self.old o r && not (r == rule)) }
    {
        self.inserted = self.inserted.without(rule);
        self.deleted = self.deleted.without(rule);
        self.updated = self.updated.without(rule);
        drop_from(&mut self.columns, rule);
    }

    /// The rules that the change may trigger.
    pub fn candidates(&self, change: &Change) -> RuleSet
        ensures { (r : ℕ) → flag_at result r ≡ kind_triggers change.now.kind (triggers_in self.now r) change.now }
    {
        match change.kind {
            ChangeKind::Inserted => self.inserted,
            ChangeKind::Deleted => self.deleted,
            ChangeKind::Updated => self.updating(change.old_row(), change.new_row()),
        }
    }

    /// The rules that an update from one row to another may trigger.
    fn updating(&self, old: &[Value], new: &[Value]) -> RuleSet
        ensures { (r : ℕ) → flag_at result r ≡ is_operation (triggers_in self.now r) (update_between old.now new.now) }
    {
        if same_row(old, new) {
            return RuleSet::empty();
        }
        self.updated
            .union(named(&self.columns, differing(old, new)))
    }
}

/// The set with the rule, too, if it is named.
fn with_if(rules: RuleSet, rule: RuleId, named: bool) -> RuleSet
    ensures { (k : ℕ) → flag_at result k ≡ (flag_at rules k || ((k == rule) && named)) }
{
    if named { rules.with(rule) } else { rules }
}

/// The rules of the set, and those of the other if it is wanted.
fn union_if(rules: RuleSet, others: RuleSet, wanted: bool) -> RuleSet
    ensures { (k : ℕ) → flag_at result k ≡ (flag_at rules k || (flag_at others k && wanted)) }
{
    if wanted { rules.union(others) } else { rules }
}

/// Adds the rule at the named columns.
fn add_columns(columns: &mut [RuleSet], rule: RuleId, named: Columns)
    requires { length columns.old ≡ 8 }
    ensures { (k r : ℕ) → in_column columns.new k r ≡ with_columns columns.old rule named k r }
{
    for place in 0..COLUMN_LIMIT {
        columns[place] = with_if(columns[place], rule, named.contains(place as u8));
    }
}

/// Takes the rule from all columns.
fn drop_from(columns: &mut [RuleSet], rule: RuleId)
    requires { length columns.old ≡ 8 }
    ensures { (k r : ℕ) → in_column columns.new k r ≡ (in_column columns.old k r && not (r == rule)) }
{
    for place in 0..COLUMN_LIMIT {
        columns[place] = columns[place].without(rule);
    }
}

/// The rules of the named columns.
fn named(columns: &[RuleSet], named: Columns) -> RuleSet
    requires { length columns.now ≡ 8 }
    ensures { (r : ℕ) → flag_at result r ≡ share_place (column_flags columns.now r) named }
{
    let mut rules = RuleSet::empty();
    for place in 0..COLUMN_LIMIT {
        rules = union_if(rules, columns[place], named.contains(place as u8));
    }
    rules
}
