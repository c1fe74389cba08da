//! The renewal of a host's tenant: what is refused can be tried again, and the closing check passes behind it.
ghost use Rattle.sb_host.specs.Opening.{AreNames};

use crate::hosts::finish;
use sb_cell::Cell;
use sb_host::{Host, Naming, NotRenewed, Opened, RenewError, Renewal, RenewalError, Stub};
use sb_tenant::{Bound, Tenant};
use std::alloc::{AllocError, Global};
use std::marker::Brand;
use std::process::Abort;
use std::sync::Wait;
use std::test::Fail;

/// A table with a row.
const LINES: &[&[u8]] = &[
    b"create table t (a int)",
    b"begin",
    b"insert into t values (1)",
    b"commit",
];

/// The receipts that a session of the first tenant leaves that got these lines.
fn left<N: Naming, R: Wait + Abort>(
    rt: &R,
    alloc: Global,
    host: &Host<N>,
    number: u32,
    lines: &[&[u8]],
) -> Stub {
    let mut session = host.attach(rt, alloc, 0, number).expect(rt, "a session");
    for line in lines {
        assert!(rt; session.call(rt, alloc, line).is_ok());
    }
    session.close(rt)
}

/// The first tenant, made by these lines in a session of its own.
fn made(rt: &impl Abort, alloc: Global, lines: &[&[u8]]) -> Result<Tenant, AllocError> {
    let mut cell = Cell::new(alloc, 0, 1, 1, Bound::without_budget(1000))?;
    assert!(rt; cell.step(alloc, 0, 0, b"open").is_ok());
    for line in lines {
        assert!(rt; cell.step(alloc, 0, 0, line).is_ok());
    }
    assert!(rt; cell.step(alloc, 0, 0, b"end").is_ok());
    match cell.into_tenants().pop() {
        Some(made) => Ok(made),
        None => Err(AllocError),
    }
}

/// Why a renewal is refused, with what it gives back.
fn refused<N: Naming, R: Wait + Abort>(
    rt: &R,
    alloc: Global,
    host: &Host<N>,
    fresh: Tenant,
    stubs: Vec<Stub>,
) -> NotRenewed {
    match host.renew(rt, alloc, fresh, stubs) {
        Ok(_) => panic!(rt; "a refusal"),
        Err(kept) => kept,
    }
}

/// A renewal that is refused three times: a session's receipts lack, one is open, and the two aren't alike.
fn renewed<N: Naming, R: Wait + Abort>(
    rt: &R,
    alloc: Global,
    host: &Host<N>,
) -> Result<Vec<Stub>, AllocError> {
    let mut stubs = Vec::new(alloc);
    stubs.push(left(rt, alloc, host, 0, LINES))?;
    let second = left(rt, alloc, host, 1, &[]);
    let NotRenewed {
        error,
        fresh,
        mut stubs,
    } = refused(rt, alloc, host, made(rt, alloc, LINES)?, stubs);
    assert!(rt; matches!(error, RenewError::NotClosed));
    stubs.push(second)?;
    let open = host.attach(rt, alloc, 0, 2).expect(rt, "a session");
    let NotRenewed {
        error,
        fresh,
        mut stubs,
    } = refused(rt, alloc, host, fresh, stubs);
    assert!(rt; matches!(error, RenewError::Refused(RenewalError::Open)));
    stubs.push(open.close(rt))?;
    let other = made(rt, alloc, &LINES[..3])?;
    let NotRenewed { error, stubs, .. } = refused(rt, alloc, host, other, stubs);
    assert!(rt; matches!(error, RenewError::Refused(RenewalError::NotAlike)));
    match host.renew(rt, alloc, fresh, stubs) {
        Ok(renewal) => {
            let Renewal { old, opening } = renewal;
            assert!(rt; old.trail().len() == 10);
            Ok(opening)
        }
        Err(_) => panic!(rt; "a renewal"),
    }
}

fn serve<N: Naming, R: Wait + Abort>(rt: &R, alloc: Global, opened: Opened) -> Result<(), Fail>
    requires named { AreNames N.table N.tenants N.cells N.bound N.name N.parts opened }
{
    let host = Host::<N>::new(alloc, opened).expect(rt, "a host");
    let mut stubs = renewed(rt, alloc, &host)?;
    stubs.push(left(rt, alloc, &host, 0, &[b"select * from t"]))?;
    let report = finish(rt, alloc, host, stubs, false);
    assert!(rt;
        report.is_some_and(|report| report.steps() == Some(9) && report.steps_made() == Some(13))
    );
    Ok(())
}

#[test]
fn a_hosts_tenant_is_renewed(rt: HostRuntime) -> Result<(), Fail> {
    let opened = Opened::new(rt.alloc(), 1, 1, Bound::without_budget(1000))?;
    serve::<Brand, _>(&rt, rt.alloc(), opened)
}
