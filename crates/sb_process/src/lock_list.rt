//! The locks that queries and statements ask for.
ghost use Rattle.std.specs.Prelude.{◌≡◌, [], ◌∷◌, ◌++◌, map, filter_map, IfOk};
ghost use Rattle.sb_check.specs.Mentions.{mentioned, target};
ghost use Rattle.sb_eval.specs.Statement as spec;
ghost use Rattle.sb_value.specs.declared.lock.LockMode.TheVariants as mode;
ghost use Rattle.sb_eval.specs.Statement.{read_of, write_of as locked};

use sb_check::{Query, Source, SourceVisitor, Statement, visit_query, visit_statement};
use sb_value::{LockMode, TableId};
use std::alloc::{AllocError, Global};
use std::marker::Model;

/// A read of each table that is shown, in order.
#[derive(Drop)]
struct Reads {
    list: Vec<(TableId, LockMode)>,
}

impl Model for Reads {
    ghost use Rattle.std.specs.Prelude.{ℕ, List};
    ghost use Rattle.sb_value.specs.declared.lock.LockMode.{LockMode as OfLock};

    ghost Value = { List (ℕ × OfLock) };

    ghost view = { λ r. r.list.items };
}

impl SourceVisitor for Reads {
    type Stop = AllocError;

    ghost after = { λ reads source. reads ++ filter_map read_of (source ∷ []) };

    fn visit(&mut self, source: Source) -> Result<(), AllocError> {
        if let Source::Table(table) = source {
            self.list.push((table, LockMode::Read))?;
        }
        Ok(())
    }
}

/// The locks of a query, in order of mention.
#[tactic(auto, using(crate::proofs::LockLists::shown))]
pub(crate) fn query_locks(
    alloc: Global,
    query: &Query,
) -> Result<Vec<(TableId, LockMode)>, AllocError>
    ensures { IfOk result (λ locks. locks.items ≡ spec.query_locks query.now) }
{
    let mut reads = Reads {
        list: Vec::new(alloc),
    };
    visit_query(query, &mut reads)?;
    Ok(reads.list)
}

/// The locks of a statement, in order of mention.
#[inline(never)]
#[tactic(auto, using(crate::proofs::LockLists::locks_of))]
pub(crate) fn statement_locks(
    alloc: Global,
    statement: &Statement,
) -> Result<Vec<(TableId, LockMode)>, AllocError>
    ensures { IfOk result (λ locks. locks.items ≡ spec.statement_locks statement.now) }
{
    let reads = statement_reads(alloc, statement)?;
    with_target(alloc, reads.as_slice(), statement.target())
}

#[tactic(auto, using(crate::proofs::LockLists::shown))]
fn statement_reads(
    alloc: Global,
    statement: &Statement,
) -> Result<Vec<(TableId, LockMode)>, AllocError>
    ensures { IfOk result (λ reads. reads.items ≡ filter_map read_of (mentioned statement.now)) }
{
    let mut reads = Reads {
        list: Vec::new(alloc),
    };
    visit_statement(statement, &mut reads)?;
    Ok(reads.list)
}

/// The write of the target before the locks of the sources, which are writes where they are of the target.
fn with_target(
    alloc: Global,
    reads: &[(TableId, LockMode)],
    target: TableId,
) -> Result<Vec<(TableId, LockMode)>, AllocError>
    ensures { IfOk result (λ locks. locks.items ≡ (target, mode.Write) ∷ map (locked target) reads.now) }
{
    let mut locks = Vec::with_capacity(alloc, reads.len() + 1)?;
    locks.push((target, LockMode::Write))?;
    for read in reads {
        locks.push(write_of(target, *read))?;
    }
    Ok(locks)
}

/// A lock of the target is a write.
fn write_of(target: TableId, lock: (TableId, LockMode)) -> (TableId, LockMode)
    ensures { result ≡ locked target lock }
{
    if lock.0 == target {
        (target, LockMode::Write)
    } else {
        lock
    }
}
