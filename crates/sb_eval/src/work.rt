//! The work of a statement, before anything of it is evaluated.
ghost use Rattle.std.specs.Prelude.{◌≡◌, ◌-◌, ◌^◌, min};
ghost use Rattle.sb_eval.specs.Work as spec;

use sb_check::{Assignment, Source, Statement};
use sb_plan::{
    Sources, query_work, repeated_operand_work, repeated_work, single_operand_work, single_work,
};
use sb_value::TableId;

/// The work of the assignments' operands for each row.
fn repeated_assignments_work<S: Sources>(sources: &S, assignments: &[Assignment]) -> u64
    ensures { result ≡ min (spec.repeated_assignments_work (S.seen sources.now) assignments.now) (2 ^ 64 - 1) }
{
    match assignments.split_first() {
        Some((first, rest)) => {
            let own = repeated_operand_work(sources, &first.operand);
            own.saturating_add(repeated_assignments_work(sources, rest))
        }
        None => 0,
    }
}

/// The work that is done once for the assignments' operands.
fn single_assignments_work<S: Sources>(sources: &S, assignments: &[Assignment]) -> u64
    ensures { result ≡ min (spec.single_assignments_work (S.seen sources.now) assignments.now) (2 ^ 64 - 1) }
{
    match assignments.split_first() {
        Some((first, rest)) => {
            let own = single_operand_work(sources, &first.operand);
            own.saturating_add(single_assignments_work(sources, rest))
        }
        None => 0,
    }
}

/// So much for each row of the table, and so much once.
fn target_work<S: Sources>(sources: &S, table: TableId, repeated: u64, single: u64) -> u64
    ensures { result ≡ min (spec.target_work (S.seen sources.now) table repeated single) (2 ^ 64 - 1) }
{
    let rows = sources.row_count(Source::Table(table)) as u64;
    rows.saturating_mul(repeated).saturating_add(single)
}

/// The work of a statement, but for that of its changes. More than 64 bits hold counts as the most that they hold.
pub fn statement_work<S: Sources>(sources: &S, statement: &Statement) -> u64
    ensures { result ≡ min (spec.statement_work (S.seen sources.now) statement.now) (2 ^ 64 - 1) }
{
    match statement {
        Statement::InsertRows(_, _) => 0,
        Statement::InsertQuery(_, query) => query_work(sources, query),
        Statement::Delete(table, filter) => {
            let repeated = repeated_work(sources, filter);
            target_work(sources, *table, repeated, single_work(sources, filter))
        }
        Statement::Update(table, assignments, filter) => {
            let list = assignments.as_slice();
            let repeated = repeated_assignments_work(sources, list).saturating_add(repeated_work(
                sources, filter,
            ));
            let single = single_assignments_work(sources, list).saturating_add(single_work(
                sources, filter,
            ));
            target_work(sources, *table, repeated, single)
        }
    }
}
