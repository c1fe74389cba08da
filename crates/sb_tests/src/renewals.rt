//! The renewal of a cell's tenant: what is refused, what goes on, and the share of memory, which no clause sees.
ghost use Rattle.std.specs.Prelude.{◌<◌, ◌≤◌};

use sb_cell::{Cell, RenewalError};
use sb_tenant::{Bound, Reply, Tenant};
use std::alloc::{AllocError, Global};
use std::process::Abort;
use std::test::Fail;

/// A table with a row, and a rule that copies what is inserted.
const LINES: &[&[u8]] = &[
    b"create table t (a int)",
    b"create table u (a int)",
    b"create rule copy on t when inserted then insert into u select a from inserted",
    b"begin",
    b"insert into t values (1)",
    b"commit",
];

/// Makes steps of a tenant's first session, which aren't refused.
fn play(rt: &impl Abort, alloc: Global, cell: &mut Cell, tenant: u32, lines: &[&[u8]]) {
    for line in lines {
        let is_served = match &cell.step(alloc, tenant, 0, line) {
            Ok(answer) => !matches!(&answer.reply, Reply::No(_)),
            Err(_) => false,
        };
        assert!(rt; is_served);
    }
}

/// A tenant that got these lines in a session of its own.
fn made(
    rt: &impl Abort,
    alloc: Global,
    tenant: u32,
    bound: u32,
    lines: &[&[u8]],
) -> Result<Tenant, AllocError>
    requires { (tenant < 256) × (bound ≤ 1000) }
{
    let mut cell = Cell::new(alloc, tenant, 256, tenant + 1, Bound::without_budget(bound))?;
    play(rt, alloc, &mut cell, tenant, &[b"open"]);
    play(rt, alloc, &mut cell, tenant, lines);
    play(rt, alloc, &mut cell, tenant, &[b"end"]);
    match cell.into_tenants().pop() {
        Some(made) => Ok(made),
        None => Err(AllocError),
    }
}

/// True if the renewal is refused for this reason, and the fresh tenant is given back.
fn is_refused(cell: &mut Cell, alloc: Global, fresh: Tenant, error: RenewalError) -> bool {
    let entries = fresh.trail().len();
    match cell.renew(alloc, fresh) {
        Ok(_) => false,
        Err(unrenewed) => unrenewed.error == error && unrenewed.fresh.trail().len() == entries,
    }
}

/// A cell of two tenants, of which the second one is in use.
fn in_use(rt: &impl Abort, alloc: Global) -> Result<Cell, AllocError> {
    let mut cell = Cell::new(alloc, 0, 1, 2, Bound::without_budget(1000))?;
    play(rt, alloc, &mut cell, 0, &[b"open"]);
    play(rt, alloc, &mut cell, 1, &[b"open"]);
    play(rt, alloc, &mut cell, 1, LINES);
    Ok(cell)
}

#[test]
fn each_refusal_of_a_renewal(rt: HostRuntime) -> Result<(), Fail> {
    let alloc = rt.alloc();
    let mut cell = in_use(&rt, alloc)?;
    let fresh = made(&rt, alloc, 1, 1000, LINES)?;
    assert!(rt; is_refused(&mut cell, alloc, fresh, RenewalError::Open));
    play(&rt, alloc, &mut cell, 1, &[b"end"]);
    let fresh = made(&rt, alloc, 2, 1000, LINES)?;
    assert!(rt; is_refused(&mut cell, alloc, fresh, RenewalError::NoTenant));
    let fresh = made(&rt, alloc, 1, 999, LINES)?;
    assert!(rt; is_refused(&mut cell, alloc, fresh, RenewalError::OtherBound));
    let fresh = made(&rt, alloc, 1, 1000, &LINES[..5])?;
    assert!(rt; is_refused(&mut cell, alloc, fresh, RenewalError::NotAlike));
    let fresh = made(&rt, alloc, 1, 1000, LINES)?;
    assert!(rt; cell.renew(alloc, fresh).is_ok());
    Ok(())
}

#[test]
fn a_renewed_tenant_goes_on(rt: HostRuntime) -> Result<(), Fail> {
    let alloc = rt.alloc();
    let mut cell = in_use(&rt, alloc)?;
    play(&rt, alloc, &mut cell, 1, &[b"begin", b"rollback", b"end"]);
    let fresh = made(&rt, alloc, 1, 1000, LINES)?;
    match cell.renew(alloc, fresh) {
        Ok(old) => assert!(rt; old.trail().len() == 10 && old.volume().number == 0),
        Err(_) => assert!(rt; false),
    }
    let volume = cell.tenant(1).map(|own| own.volume());
    assert!(rt; volume.is_some_and(|own| own.number == 1 && own.before == 10 && own.opening == 8));
    play(
        &rt,
        alloc,
        &mut cell,
        1,
        &[b"open", b"begin", b"insert into t values (2)", b"commit"],
    );
    let copies = cell
        .table(1, &sb_value::Name::new(b"u"))
        .map(|table| table.len());
    assert!(rt; copies == Some(2) && cell.trail(1).map(|trail| trail.len()) == Some(12));
    assert!(rt; cell.trail(0).map(|trail| trail.len()) == Some(1));
    Ok(())
}

#[test]
fn a_share_of_memory_is_taken_over(rt: HostRuntime) -> Result<(), Fail> {
    let alloc = rt.alloc();
    let mut cell = in_use(&rt, alloc)?;
    play(&rt, alloc, &mut cell, 1, &[b"end"]);
    cell.limit_memory(1);
    let fresh = made(&rt, alloc, 1, 1000, LINES)?;
    assert!(rt; cell.renew(alloc, fresh).is_ok());
    assert!(rt; cell.step(alloc, 1, 0, b"open").is_err());
    Ok(())
}
