//! A cell: calls that take no memory, however much a transaction has changed.

use crate::mark::mark;
use sb_cell::{Cell, StepError};
use sb_rawlog::ChangeLog as _;
use sb_tenant::{Answer, Bound, Reply};
use sb_value::{Name, Refusal, SessionId};
use std::alloc::Global;
use std::process::Abort;
use std::test::Fail;

/// True if a step was begun and isn't refused.
fn is_served(answer: &Result<Answer, StepError>) -> bool {
    match answer {
        Ok(answer) => !matches!(&answer.reply, Reply::No(_)),
        Err(_) => false,
    }
}

/// Makes steps of the first tenant's first session, which aren't refused.
fn play(rt: &impl Abort, alloc: Global, cell: &mut Cell, lines: &[&[u8]]) {
    for line in lines {
        assert!(rt; is_served(&cell.step(alloc, 0, 0, line)));
    }
}

/// True if a table of the first tenant has so many rows.
fn has_rows(cell: &Cell, name: &Name, count: usize) -> bool {
    match cell.table(0, name) {
        Some(table) => table.len() == count,
        None => false,
    }
}

/// True if the first tenant's trail has so many entries.
fn has_entries(cell: &Cell, count: usize) -> bool {
    cell.trail(0).is_some_and(|trail| trail.len() == count)
}

/// An update and a delete of the second table's only row, and then 4,096 inserts into each of two tables.
fn fill(rt: &impl Abort, alloc: Global, cell: &mut Cell) {
    let first: &[u8] = b"insert into t values (1)";
    let twice: &[u8] = b"insert into t select a from t";
    play(rt, alloc, cell, &[b"open", b"create table t (a int)"]);
    play(rt, alloc, cell, &[b"create table u (a int)", b"begin"]);
    play(rt, alloc, cell, &[b"insert into u values (0)", b"commit"]);
    play(rt, alloc, cell, &[b"begin", b"update u set a = 7"]);
    play(rt, alloc, cell, &[b"delete from u where a = 7", first]);
    play(rt, alloc, cell, &[twice; 12]);
    play(rt, alloc, cell, &[b"insert into u select a from t"]);
}

/// Ends the session, with all that its transaction has changed.
fn end_of_all(rt: &impl Abort, cell: &mut Cell, first: &Name, second: &Name) {
    let session = SessionId::new(0);
    mark();
    assert!(rt; cell.hosts(0) && cell.is_open(0, session));
    assert!(rt; cell.log_len() == 8194 && has_rows(cell, first, 4096));
    let _rules = cell.index();
    assert!(rt; matches!(&cell.end(0, session).reply, Reply::Ok));
    assert!(rt; !cell.is_open(0, session) && cell.log_len() == 0 && cell.log().len() == 0);
    assert!(rt; has_rows(cell, first, 0) && has_rows(cell, second, 1));
    mark();
}

/// Lines of no tenant and of no session.
fn step_elsewhere(rt: &impl Abort, alloc: Global, cell: &mut Cell) {
    mark();
    assert!(rt; matches!(&cell.step(alloc, 16, 0, b"begin"), Err(StepError::NoTenant)));
    assert!(rt; matches!(&cell.step(alloc, 0, 8, b"begin"), Err(StepError::NoSession)));
    mark();
}

#[test]
fn an_end_takes_no_memory(rt: HostRuntime) -> Result<(), Fail> {
    let mut cell = Cell::new(rt.alloc(), 0, 1, 16, Bound::without_budget(1000))?;
    let first = Name::new(b"t");
    let second = Name::new(b"u");
    fill(&rt, rt.alloc(), &mut cell);
    end_of_all(&rt, &mut cell, &first, &second);
    step_elsewhere(&rt, rt.alloc(), &mut cell);
    Ok(())
}

/// True if the trail is full, and the answer has no number.
fn is_full(answer: &Result<Answer, StepError>) -> bool {
    match answer {
        Ok(answer) => {
            answer.number.is_none() && matches!(&answer.reply, Reply::No(Refusal::TrailFull))
        }
        Err(_) => false,
    }
}

/// Fills the trail, and ends the session.
fn fill_trail(rt: &impl Abort, alloc: Global, cell: &mut Cell) {
    play(rt, alloc, cell, &[b"open", b"begin"]);
    for _ in 0..1_048_574u32 {
        let _ = cell.step(alloc, 0, 0, b"begin");
    }
    mark();
    assert!(rt; cell.hosts(0) && cell.is_full(0));
    assert!(rt; is_full(&cell.step(alloc, 0, 0, b"begin")));
    assert!(rt; is_served(&cell.step(alloc, 0, 0, b"end")));
    assert!(rt; has_entries(cell, 1_048_577));
    mark();
}

#[test]
fn a_full_trail_takes_no_memory(rt: HostRuntime) -> Result<(), Fail> {
    let mut cell = Cell::new(rt.alloc(), 0, 1, 1, Bound::without_budget(1000))?;
    fill_trail(&rt, rt.alloc(), &mut cell);
    Ok(())
}

/// The one call here that takes memory: where it is refused, nothing has changed.
fn begin(rt: &impl Abort, alloc: Global, cell: &mut Cell) {
    play(rt, alloc, cell, &[b"open"]);
    mark();
    let is_begun = is_served(&cell.step(alloc, 0, 0, b"begin"));
    mark();
    assert!(rt; has_entries(cell, if is_begun { 2 } else { 1 }));
    assert!(rt; is_served(&cell.step(alloc, 0, 0, b"rollback")) == is_begun);
}

#[test]
fn a_step_without_memory_is_not_begun(rt: HostRuntime) -> Result<(), Fail> {
    let mut cell = Cell::new(rt.alloc(), 0, 1, 1, Bound::without_budget(1000))?;
    begin(&rt, rt.alloc(), &mut cell);
    Ok(())
}
