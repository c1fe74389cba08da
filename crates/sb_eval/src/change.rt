//! The changes of single rows.
ghost use Rattle.std.specs.Prelude.{◌≡◌, map, slice_set, IfOk, OnOk};
ghost use Rattle.sb_eval.specs.Answer.{Gives, Leaves};
ghost use Rattle.sb_eval.specs.Around.{assigned_around, rows_around};
ghost use Rattle.sb_eval.specs.Effect.{AssignmentsRight, with_change};
ghost use Rattle.sb_eval.specs.Statement as spec;
ghost use Rattle.sb_eval.specs.TableWalk.{AreOperandsRight, IsTableWalkRight, change_of_row, changed};
ghost use Rattle.sb_plan.specs.Scopes.{scope_of, value_seen};

use crate::around::Around;
use crate::condition::{condition, operand};
use crate::hoist::hoist_effect;
use crate::stop::Stop;
use sb_check::{Assignment, Condition};
use sb_plan::{LOOKED_UP, LentRow, Memo, Scope, Sources, ValueRef};
use sb_value::{Change, ChangeKind, Columns, Row, TableId, Value, sets_take_places};
use smallvec::SmallVec;
use std::alloc::{AllocError, Global};
use std::marker::Model;

/// The effect of a statement on each row for which its condition is true.
#[derive(Drop)]
pub(crate) enum RowEffect<'a> {
    Delete,
    Update(&'a [Assignment], Columns),
}

/// The change of a row of the table by the session that the statement is of.
fn change_by<S: Sources>(
    sources: &S,
    table: TableId,
    tuple: u64,
    kind: ChangeKind,
    old: Option<Row>,
    new: Option<Row>,
    columns: Columns,
) -> Change
    ensures { result ≡ record { tenant = (S.seen sources.now).who.tenant; session = (S.seen sources.now).who.session; table = table; tuple = tuple; kind = kind; old = old; new = new; columns = columns } }
{
    let who = sources.who();
    Change {
        tenant: who.tenant,
        session: who.session,
        table,
        tuple,
        kind,
        old,
        new,
        columns,
    }
}

/// The insert of a row under a number.
pub(crate) fn insert_change<S: Sources>(
    sources: &S,
    table: TableId,
    number: u64,
    row: Row,
) -> Change
    ensures { result ≡ spec.insert_change (S.seen sources.now) table number row }
{
    let columns = Columns::empty();
    change_by(
        sources,
        table,
        number,
        ChangeKind::Inserted,
        None,
        Some(row),
        columns,
    )
}

/// The delete of a numbered row.
fn delete_change<S: Sources>(sources: &S, table: TableId, number: u64, row: Row) -> Change
    ensures { result ≡ spec.delete_change (S.seen sources.now) table (number, row) }
{
    let columns = Columns::empty();
    change_by(
        sources,
        table,
        number,
        ChangeKind::Deleted,
        Some(row),
        None,
        columns,
    )
}

/// The update of a numbered row to another row.
fn update_change<S: Sources>(
    sources: &S,
    table: TableId,
    columns: Columns,
    number: u64,
    old: Row,
    new: Row,
) -> Change
    ensures { result ≡ spec.update_change (S.seen sources.now) table columns (number, old) new }
{
    change_by(
        sources,
        table,
        number,
        ChangeKind::Updated,
        Some(old),
        Some(new),
        columns,
    )
}

/// The columns that assignments name.
pub(crate) fn places(assignments: &[Assignment]) -> Columns
    ensures { result ≡ spec.places_of assignments.now }
{
    // for the proof: the places so far are the set so far
    sets_take_places();
    let mut columns = Columns::empty();
    for assignment in assignments {
        columns = columns.with_place(assignment.place);
    }
    columns
}

/// A row while its columns are assigned.
struct AssignedRow<'r> {
    values: SmallVec<ValueRef<'r>, 8>,
}

impl<'r> Drop for AssignedRow<'r> {
    fn drop(self) {
        let Self { values: _ } = self;
    }
}

impl<'r> Model for AssignedRow<'r> {
    ghost use Rattle.std.specs.Prelude.{List, map};
    ghost use Rattle.sb_value.specs.declared.value.Value.{Value as Item};
    ghost use Rattle.sb_plan.specs.Scopes.{value_seen};

    ghost Value = { List Item };

    ghost view = { λ row. map value_seen row.values.items };
}

impl<'r> AssignedRow<'r> {
    /// The row of these values.
    fn new(alloc: Global, values: &'r [Value]) -> Result<AssignedRow<'r>, AllocError>
        ensures { IfOk result (λ row. row ≡ values.now) }
    {
        let mut list = SmallVec::new(alloc);
        for value in values {
            list.push(ValueRef::of(value))?;
        }
        Ok(AssignedRow { values: list })
    }

    /// Puts a value at a place.
    fn set(&mut self, place: u8, value: ValueRef<'r>)
        ensures { self.new ≡ slice_set self.old place (value_seen value.entry) }
    {
        put(self.values.as_mut_slice(), place, value);
    }

    /// The row by itself.
    fn to_row(&self, alloc: Global) -> Result<Row, AllocError>
        ensures { IfOk result (λ row. row ≡ self.now) }
    {
        let mut row = Row::new(alloc);
        for value in self.values.as_slice() {
            row.push(value.to_value()?)?;
        }
        Ok(row)
    }
}

/// Puts a value at a place, if it is there.
fn put<'r>(values: &mut [ValueRef<'r>], place: u8, value: ValueRef<'r>)
    ensures { values.new ≡ slice_set values.old place value.entry }
{
    if (place as usize) < values.len() {
        values[place as usize] = value;
    }
}

/// Assigns the operands' values, all of them evaluated on the row as it was.
fn assign<'r, S: Sources>(
    alloc: Global,
    assignments: &'r [Assignment],
    memo: &Memo<'r>,
    around: &Around<'_, 'r, S>,
    row: &mut AssignedRow<'r>,
) -> Result<(), Stop>
    requires { AssignmentsRight (rows_around S.seen around.now) assignments.now memo.now }
    ensures { Leaves row.new (assigned_around S.seen around.now assignments.now row.old) result }
{
    let Some((first, rest)) = assignments.split_first() else {
        return Ok(());
    };
    assign(alloc, rest, memo.right(), around, row)?;
    let value = operand(alloc, &first.operand, memo.left(), around)?;
    row.set(first.place, value);
    Ok(())
}

/// The row that the assignments make of another.
fn assigned_row<'r, S: Sources>(
    alloc: Global,
    assignments: &'r [Assignment],
    values: &'r [Value],
    memo: &Memo<'r>,
    around: &Around<'_, 'r, S>,
) -> Result<Row, Stop>
    requires { AssignmentsRight (rows_around S.seen around.now) assignments.now memo.now }
    ensures { Gives (λ row. row) (assigned_around S.seen around.now assignments.now values.now) result }
{
    let mut row = AssignedRow::new(alloc, values)?;
    assign(alloc, assignments, memo, around, &mut row)?;
    Ok(row.to_row(alloc)?)
}

/// The parts of a walk that stay the same while it goes through the rows of a statement's table.
#[derive(Drop)]
pub(crate) struct TableWalk<'w, 'r, S: Sources> {
    pub(crate) effect: &'w RowEffect<'r>,
    pub(crate) filter: &'r Condition,
    pub(crate) memo: &'w Memo<'r>,
    pub(crate) table: TableId,
    pub(crate) sources: &'r S,
}

/// The change of one row.
fn change<'r, S: Sources>(
    alloc: Global,
    walk: &TableWalk<'_, 'r, S>,
    number: u64,
    values: &'r [Value],
    operands: &Memo<'r>,
    scope: &Scope<'_, 'r>,
) -> Result<Change, Stop>
    requires operands { AreOperandsRight S.seen walk.now operands.now }
    requires scope { scope_of scope.now ≡ spec.scope_of (number, values.now) }
    ensures { Gives (λ c. c) (change_of_row S.seen walk.now (number, values.now)) result }
{
    let old = Row::from_values(alloc, values)?;
    match walk.effect {
        RowEffect::Delete => Ok(delete_change(walk.sources, walk.table, number, old)),
        RowEffect::Update(assignments, columns) => {
            let around = Around {
                sources: walk.sources,
                scope: &*scope,
            };
            let new = assigned_row(alloc, assignments, values, operands, &around)?;
            Ok(update_change(walk.sources, walk.table, *columns, number, old, new))
        }
    }
}

/// Adds the change of one row, where it passes. What can be known of the operands is found at the first such row, and
/// again where so many were found that their sources are worth looking up.
pub(crate) fn add_change<'r, S: Sources>(
    alloc: Global,
    walk: &TableWalk<'_, 'r, S>,
    passes: bool,
    number: u64,
    values: &'r [Value],
    operands: &mut Memo<'r>,
    changes: &mut Vec<Change>,
) -> Result<(), Stop>
    requires { AreOperandsRight S.seen walk.now operands.old }
    ensures operands { OnOk result (AreOperandsRight S.seen walk.now operands.new) }
    ensures changes { Leaves changes.new.items (with_change changes.old.items (change_of_row S.seen walk.now (number, values.now)) passes) result }
{
    if !passes {
        return Ok(());
    }
    let combination = [LentRow { values }];
    let outermost = Scope::Outermost;
    let scope = Scope::Within(&combination, &outermost);
    let found = changes.len();
    if found == 0 || found == LOOKED_UP {
        *operands = hoist_effect(alloc, walk.effect, found as u64, walk.table, walk.sources)?;
    }
    let change = change(alloc, walk, number, values, operands, &scope)?;
    changes.push(change)?;
    Ok(())
}

/// Makes the change of a row for which the condition is true.
pub(crate) fn change_row<'r, S: Sources>(
    alloc: Global,
    walk: &TableWalk<'_, 'r, S>,
    number: u64,
    values: &'r [Value],
    operands: &mut Memo<'r>,
    changes: &mut Vec<Change>,
) -> Result<(), Stop>
    requires memo { IsTableWalkRight S.seen walk.now }
    requires operands { AreOperandsRight S.seen walk.now operands.old }
    ensures operands { OnOk result (AreOperandsRight S.seen walk.now operands.new) }
    ensures changes { Leaves changes.new.items (changed S.seen walk.now changes.old.items (number, values.now)) result }
{
    let combination = [LentRow { values }];
    let outermost = Scope::Outermost;
    let scope = Scope::Within(&combination, &outermost);
    let around = Around {
        sources: walk.sources,
        scope: &scope,
    };
    let passes = condition(alloc, walk.filter, walk.memo, &around)?;
    add_change(alloc, walk, passes, number, values, operands, changes)
}
