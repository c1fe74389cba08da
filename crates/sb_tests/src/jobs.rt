//! Two jobs of two tenants in two cells, by two workers.
ghost use Rattle.sb_host.specs.Opening.{AreNames};

use crate::hosts::{attach, finish, is_ok};
use sb_host::{CallError, Calling, Gate, Host, Hosting, Naming, Opened, Stub};
use sb_replay::{Done, Job, Pool, PoolError};
use sb_tenant::Bound;
use sb_value::SessionId;
use std::alloc::Global;
use std::marker::Brand;
use std::process::Abort;
use std::sync::Wait;
use std::sync::atomic::{AtomicBool, Ordering};
use std::test::Fail;
use std::thread;
use std::thread::Threads;

/// The tenants meet: each raises its flag and looks for the other's.
#[derive(Drop)]
struct Meeting {
    first: AtomicBool,
    second: AtomicBool,
    missed: AtomicBool,
}

impl Gate for Meeting {
    fn inside(&self, tenant: u32, _session: SessionId) {
        let met = if tenant == 0 {
            meets(&self.first, &self.second)
        } else {
            meets(&self.second, &self.first)
        };
        if !met {
            self.missed.store(true, Ordering::SeqCst);
        }
    }
}

fn meets(own: &AtomicBool, other: &AtomicBool) -> bool {
    own.store(true, Ordering::SeqCst);
    for _look in 0..1_000_000 {
        if is_up(other) {
            return true;
        }
        thread::yield_now();
    }
    false
}

fn is_up(flag: &AtomicBool) -> bool {
    for _read in 0..100 {
        if flag.load(Ordering::SeqCst) {
            return true;
        }
    }
    false
}

/// A session's job, with the line `begin`.
fn job<H: Hosting, R: Wait + Abort>(
    rt: &R,
    alloc: Global,
    host: H,
    tenant: u32,
    may_lack: bool,
) -> Option<Job<H::Session>> {
    let Ok(line) = Vec::from_slice(alloc, b"begin") else {
        assert!(rt; may_lack);
        return None;
    };
    let session = attach(rt, alloc, host, tenant, may_lack)?;
    Some(Job { session, line })
}

/// The jobs of both tenants; fewer where memory runs out.
fn jobs<H: Hosting, R: Wait + Abort>(
    rt: &R,
    alloc: Global,
    host: H,
    may_lack: bool,
) -> Vec<Job<H::Session>> {
    let Ok(mut jobs) = Vec::with_capacity(alloc, 2) else {
        assert!(rt; may_lack);
        return Vec::new(alloc);
    };
    for tenant in 0..2u32 {
        if let Some(job) = job(rt, alloc, host, tenant, may_lack) {
            jobs.push(job).expect(rt, "a place");
        }
    }
    jobs
}

/// Closes the sessions of jobs that were done, each answered.
fn close_done<S: Calling, R: Wait + Abort>(
    rt: &R,
    done: Vec<Done<S>>,
    stubs: &mut Vec<Stub>,
    may_lack: bool,
) {
    for job in done {
        let Done {
            session,
            result: called,
            ..
        } = job;
        match called {
            Ok(()) => assert!(rt; is_ok(session.last(), may_lack)),
            Err(error) => assert!(rt; may_lack && error == CallError::NotBegun),
        }
        stubs.push(session.close(rt)).expect(rt, "a stub");
    }
}

/// Closes the sessions of jobs that came back, of which none was called.
fn close_back<S: Calling, R: Wait + Abort>(rt: &R, jobs: Vec<Job<S>>, stubs: &mut Vec<Stub>) {
    for job in jobs {
        let Job { session, line } = job;
        assert!(rt; line.as_slice() == b"begin".as_slice() && session.list().len() == 1);
        stubs.push(session.close(rt)).expect(rt, "a stub");
    }
}

/// All jobs are done, or all come back.
fn run<N: Naming + Send + Sync, G: Gate + Sync, R: Threads + Wait + Sync + Abort>(
    rt: &R,
    alloc: Global,
    host: &Host<N>,
    gate: &G,
    stubs: &mut Vec<Stub>,
    may_lack: bool,
) {
    let jobs = jobs(rt, alloc, host, may_lack);
    match Pool::run(rt, alloc, jobs, 2, gate) {
        Ok(done) => close_done(rt, done, stubs, may_lack),
        Err(PoolError { jobs }) => {
            assert!(rt; may_lack);
            close_back(rt, jobs, stubs);
        }
    }
}

/// Runs all jobs on a host, and finishes it.
pub fn run_alone<N: Naming + Send + Sync, G: Gate + Sync, R: Threads + Wait + Sync + Abort>(
    rt: &R,
    alloc: Global,
    host: Host<N>,
    gate: &G,
    may_lack: bool,
) {
    let Ok(mut stubs) = Vec::with_capacity(alloc, 2) else {
        assert!(rt; may_lack);
        return;
    };
    run(rt, alloc, &host, gate, &mut stubs, may_lack);
    let Some(report) = finish(rt, alloc, host, stubs, may_lack) else {
        return;
    };
    assert!(rt; report.trails.len() == 2);
    assert!(rt; report.steps() == Some(6) || may_lack);
}

fn overlap<N: Naming + Send + Sync, R: Threads + Wait + Sync + Abort>(
    rt: &R,
    alloc: Global,
    opened: Opened,
)
    requires named { AreNames N.table N.tenants N.cells N.bound N.name N.parts opened }
{
    let host = Host::<N>::new(alloc, opened).expect(rt, "a host");
    let gate = Meeting {
        first: AtomicBool::new(false),
        second: AtomicBool::new(false),
        missed: AtomicBool::new(false),
    };
    run_alone(rt, alloc, host, &gate, false);
    assert!(rt; !gate.missed.load(Ordering::SeqCst));
}

#[test]
fn calls_in_two_cells_overlap(rt: HostRuntime) -> Result<(), Fail> {
    let opened = Opened::new(rt.alloc(), 2, 2, Bound::without_budget(1000))?;
    overlap::<Brand, _>(&rt, rt.alloc(), opened);
    Ok(())
}
