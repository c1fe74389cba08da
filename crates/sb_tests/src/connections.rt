//! Connections over memory.
ghost use Rattle.sb_host.specs.Opening.{AreNames};

use sb_connection::{Served, serve_one};
use sb_host::{Host, Hosting, Naming, Opened};
use sb_tenant::Bound;
use std::alloc::Global;
use std::marker::Brand;
use std::process::Abort;
use std::sync::Wait;
use std::test::Fail;

/// Serves these lines on a host: how many receipts the session leaves, and what is written.
fn serve<H: Hosting, R: Wait + Abort>(rt: &R, alloc: Global, host: H) {
    let mut reader = b"0 0\nbegin\nins".as_slice();
    let mut text = Vec::new(alloc);
    let Served { stub, ended } = serve_one(rt, alloc, &mut reader, &mut text, host);
    assert!(rt; ended.is_ok());
    assert!(rt; text.as_slice() == b"ok\nok\nno 10 Syntax\n".as_slice());
    assert!(rt; stub.is_some_and(|stub| stub.list().len() == 4));
}

fn serve_alone<N: Naming, R: Wait + Abort>(rt: &R, alloc: Global, opened: Opened)
    requires named { AreNames N.table N.tenants N.cells N.bound N.name N.parts opened }
{
    match Host::<N>::new(alloc, opened) {
        Ok(host) => serve(rt, alloc, &host),
        Err(_) => assert!(rt; false),
    }
}

#[test]
fn a_session_is_closed(rt: HostRuntime) -> Result<(), Fail> {
    let opened = Opened::new(rt.alloc(), 2, 2, Bound::without_budget(1000))?;
    serve_alone::<Brand, _>(&rt, rt.alloc(), opened);
    Ok(())
}
