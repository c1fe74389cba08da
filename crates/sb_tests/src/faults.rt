//! Faults that no words of the program bring about: a replay on a host that had its session before.
ghost use Rattle.sb_host.specs.Opening.{AreNames};

use sb_host::{Calling, FinishError, Host, Hosting, Naming, Opened};
use sb_replay::{ReplayError, replay};
use sb_tenant::Bound;
use std::alloc::Global;
use std::marker::Brand;
use std::process::Abort;
use std::rt::Clock;
use std::sync::Wait;
use std::test::Fail;
use std::thread::Threads;

/// True if a replay of the first tenant's session ended so: its receipts are gone where it is closed, and else it is open.
fn is_expected(error: &ReplayError, is_closed: bool) -> bool {
    match error {
        ReplayError::Attach { tenant, session } => {
            !is_closed && *tenant == 0 && session.number() == 0
        }
        ReplayError::Finish(FinishError::Missing { tenant, session }) => {
            is_closed && *tenant == 0 && session.number() == 0
        }
        _ => false,
    }
}

/// Replays a line of the first session on this host, which fails, and no reply is written.
fn fail<N: Naming + Send + Sync, R: Threads + Wait + Abort + Clock + Sync>(
    rt: &R,
    alloc: Global,
    host: Host<N>,
    is_closed: bool,
) {
    let mut reader = b"0 0 begin\n".as_slice();
    let mut text = Vec::new(alloc);
    match replay(rt, alloc, &mut reader, &mut text, host, 1) {
        Ok(()) => assert!(rt; false),
        Err(error) => assert!(rt; text.as_slice().is_empty() && is_expected(&error, is_closed)),
    }
}

/// Opens the first session, and closes it or leaves it open.
fn open_once<H: Hosting, R: Wait + Abort>(rt: &R, alloc: Global, host: H, is_closed: bool) {
    match host.attach(rt, alloc, 0, 0) {
        Ok(session) if is_closed => drop(session.close(rt)),
        Ok(session) => drop(session),
        Err(_) => assert!(rt; false),
    }
}

/// The first session is opened before, and left open or closed.
fn fail_behind<N: Naming + Send + Sync, R: Threads + Wait + Abort + Clock + Sync>(
    rt: &R,
    alloc: Global,
    opened: Opened,
    is_closed: bool,
)
    requires named { AreNames N.table N.tenants N.cells N.bound N.name N.parts opened }
{
    let Ok(host) = Host::<N>::new(alloc, opened) else {
        assert!(rt; false);
        return;
    };
    open_once(rt, alloc, &host, is_closed);
    fail(rt, alloc, host, is_closed);
}

#[test]
fn an_open_session_is_not_attached(rt: HostRuntime) -> Result<(), Fail> {
    let opened = Opened::new(rt.alloc(), 2, 2, Bound::without_budget(1000))?;
    fail_behind::<Brand, _>(&rt, rt.alloc(), opened, false);
    Ok(())
}

#[test]
fn lost_receipts_are_missing(rt: HostRuntime) -> Result<(), Fail> {
    let opened = Opened::new(rt.alloc(), 2, 2, Bound::without_budget(1000))?;
    fail_behind::<Brand, _>(&rt, rt.alloc(), opened, true);
    Ok(())
}
