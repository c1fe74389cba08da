//! Hosts on which any request for memory may be refused: what each call may answer then, and nothing else.
ghost use Rattle.sb_host.specs.Opening.{AreNames};

use crate::hosts::lose_receipts;
use crate::jobs::run_alone;
use sb_host::{Host, Naming, NoGate, Opened};
use sb_tenant::Bound;
use std::alloc::Global;
use std::marker::Brand;
use std::process::Abort;
use std::sync::Wait;
use std::thread::Threads;

fn lose_receipts_of_new<N: Naming, R: Wait + Abort>(rt: &R, alloc: Global, opened: Opened)
    requires named { AreNames N.table N.tenants N.cells N.bound N.name N.parts opened }
{
    if let Ok(host) = Host::<N>::new(alloc, opened) {
        lose_receipts(rt, alloc, host, true);
    }
}

fn run_new<N: Naming + Send + Sync, R: Threads + Wait + Sync + Abort>(
    rt: &R,
    alloc: Global,
    opened: Opened,
)
    requires named { AreNames N.table N.tenants N.cells N.bound N.name N.parts opened }
{
    if let Ok(host) = Host::<N>::new(alloc, opened) {
        run_alone(rt, alloc, host, &NoGate, true);
    }
}

#[test]
fn sessions_lack_memory(rt: HostRuntime) {
    if let Ok(opened) = Opened::new(rt.alloc(), 2, 2, Bound::without_budget(1000)) {
        lose_receipts_of_new::<Brand, _>(&rt, rt.alloc(), opened);
    }
}

#[test]
fn jobs_lack_memory(rt: HostRuntime) {
    if let Ok(opened) = Opened::new(rt.alloc(), 2, 2, Bound::without_budget(1000)) {
        run_new::<Brand, _>(&rt, rt.alloc(), opened);
    }
}
