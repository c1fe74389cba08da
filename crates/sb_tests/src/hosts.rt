//! Hosts from their opening to their closing check, on one thread. What `may_lack` memory is answered so, or as it is
//! to be.
ghost use Rattle.sb_host.specs.Opening.{AreNames};

use crate::mark::mark;
use sb_host::{
    AttachError, CallError, Calling, FinishError, Host, Hosting, Naming, NoGate, Opened, Report,
    Session, Stub,
};
use sb_tenant::{Answer, Bound, Reply};
use sb_value::Refusal;
use sb_wire::write_bare_reply;
use std::alloc::Global;
use std::marker::Brand;
use std::process::Abort;
use std::sync::Wait;
use std::test::Fail;

/// True if the answer is `ok`, or tells that memory ran out.
pub fn is_ok(answer: Option<&Answer>, may_lack: bool) -> bool {
    match answer {
        Some(answer) => match &answer.reply {
            Reply::Ok => true,
            Reply::No(Refusal::NoMemory) => may_lack,
            _ => false,
        },
        None => false,
    }
}

/// Opens the first session of a tenant.
pub fn attach<H: Hosting, R: Wait + Abort>(
    rt: &R,
    alloc: Global,
    host: H,
    tenant: u32,
    may_lack: bool,
) -> Option<H::Session> {
    match host.attach(rt, alloc, tenant, 0) {
        Ok(session) => Some(session),
        Err(error) => {
            assert!(rt; may_lack && error == AttachError::NotBegun);
            None
        }
    }
}

/// Calls the session with a line that is answered `ok`, once more where it wasn't begun.
fn call<S: Calling, R: Wait + Abort>(
    rt: &R,
    alloc: Global,
    session: &mut S,
    line: &[u8],
    may_lack: bool,
) {
    if let Err(error) = session.step(rt, alloc, line, &NoGate) {
        assert!(rt; may_lack && error == CallError::NotBegun);
        let _ = session.step(rt, alloc, line, &NoGate);
    }
    assert!(rt; is_ok(session.last(), may_lack));
}

/// The host's closing check, with these stubs.
pub fn finish<N: Naming, R: Abort>(
    rt: &R,
    alloc: Global,
    host: Host<N>,
    stubs: Vec<Stub>,
    may_lack: bool,
) -> Option<Report> {
    match host.finish(alloc, stubs) {
        Ok(report) => Some(report),
        Err(error) => {
            assert!(rt; may_lack && matches!(error, FinishError::NoMemory));
            None
        }
    }
}

/// A transaction whose rows the next one reads.
const LINES: &[u8] =
    b"create table t (a int, b text)\nbegin\ninsert into t values (1, 'x''y'), (-2, '')
select * from t\ncommit\nbegin\nselect * from t\nend";

const REPLIES: &[u8] =
    b"ok\nok\nok 2\nrows 2\n1,'x''y'\n-2,''\ndone 0\nok\nrows 2\n1,'x''y'\n-2,''\nok\n";

/// Calls a session with these lines, one by one.
fn play<N: Naming, R: Wait + Abort>(rt: &R, alloc: Global, session: &mut Session<'_, N>) {
    let mut text = Vec::new(alloc);
    for line in LINES.split(|byte| *byte == b'\n') {
        if let Ok(answer) = session.call(rt, alloc, line) {
            write_bare_reply(&mut text, &answer.reply).expect(rt, "a reply");
        }
    }
    assert!(rt; text.as_slice() == REPLIES);
    assert!(rt; session.ended());
    let behind = session.call(rt, alloc, b"begin").err();
    assert!(rt; behind == Some(CallError::Ended));
}

/// A session of that host, which leaves 9 receipts.
fn play_alone<N: Naming, R: Wait + Abort>(rt: &R, alloc: Global, host: &Host<N>) -> Stub {
    let mut session = host.attach(rt, alloc, 0, 0).expect(rt, "a session");
    play(rt, alloc, &mut session);
    session.close(rt)
}

/// One more, whose only call goes by a gate. It leaves 3 receipts.
fn play_gated<N: Naming, R: Wait + Abort>(rt: &R, alloc: Global, host: &Host<N>) -> Stub {
    let mut session = host.attach(rt, alloc, 0, 1).expect(rt, "a session");
    let begun = session.call_with(rt, alloc, b"begin", &NoGate);
    assert!(rt; is_ok(begun.ok(), false));
    session.close(rt)
}

fn serve<N: Naming, R: Wait + Abort>(rt: &R, alloc: Global, opened: Opened)
    requires named { AreNames N.table N.tenants N.cells N.bound N.name N.parts opened }
{
    let host = Host::<N>::new(alloc, opened).expect(rt, "a host");
    let mut stubs = Vec::new(alloc);
    stubs
        .push(play_alone(rt, alloc, &host))
        .expect(rt, "a stub");
    stubs
        .push(play_gated(rt, alloc, &host))
        .expect(rt, "a stub");
    let report = finish(rt, alloc, host, stubs, false);
    assert!(rt;
        report.is_some_and(|report| report.trails.len() == 1 && report.steps() == Some(12))
    );
}

#[test]
fn a_session_is_served(rt: HostRuntime) -> Result<(), Fail> {
    let opened = Opened::new(rt.alloc(), 1, 1, Bound::without_budget(1000))?;
    serve::<Brand, _>(&rt, rt.alloc(), opened);
    Ok(())
}

/// What isn't opened takes no memory.
fn turn_away<H: Hosting, R: Wait + Abort>(rt: &R, alloc: Global, host: H) {
    mark();
    let outside = host.attach(rt, alloc, 2, 0).err();
    assert!(rt; outside == Some(AttachError::NoTenant));
    let ninth = host.attach(rt, alloc, 0, 8).err();
    assert!(rt; ninth == Some(AttachError::NoSession));
    mark();
}

/// A session that has ended is called once more, and closed, without memory.
fn leave<S: Calling, R: Wait + Abort>(rt: &R, alloc: Global, mut session: S) -> Stub {
    mark();
    assert!(rt; session.ended() && session.last().is_some());
    let called = session.step(rt, alloc, b"begin", &NoGate).err();
    assert!(rt; called == Some(CallError::Ended));
    let stub = session.close(rt);
    assert!(rt; stub.list().len() == 3);
    mark();
    stub
}

/// A session with a transaction that its end takes back.
fn live<H: Hosting, R: Wait + Abort>(
    rt: &R,
    alloc: Global,
    host: H,
    may_lack: bool,
) -> Option<Stub> {
    let mut session = attach(rt, alloc, host, 0, may_lack)?;
    mark();
    let again = host.attach(rt, alloc, 0, 0).err();
    assert!(rt; again == Some(AttachError::AlreadyOpen) && host.tenants() == 2);
    mark();
    call(rt, alloc, &mut session, b"begin", may_lack);
    call(rt, alloc, &mut session, b"end", may_lack);
    Some(leave(rt, alloc, session))
}

/// True if the session was open once more. Its receipts are lost.
fn lose<H: Hosting, R: Wait + Abort>(rt: &R, alloc: Global, host: H, may_lack: bool) -> bool {
    let Some(mut session) = attach(rt, alloc, host, 0, may_lack) else {
        return false;
    };
    call(rt, alloc, &mut session, b"begin", may_lack);
    mark();
    drop(session.close(rt));
    mark();
    true
}

/// True if the first session of the first tenant has fewer receipts than entries, or memory ran out.
fn is_missing(error: Option<&FinishError>, may_lack: bool) -> bool {
    match error {
        Some(FinishError::Missing { tenant, session }) => *tenant == 0 && session.number() == 0,
        Some(FinishError::NoMemory) => may_lack,
        _ => false,
    }
}

/// Where receipts are lost, the check tells of their session.
fn miss<N: Naming, R: Abort>(
    rt: &R,
    alloc: Global,
    host: Host<N>,
    stubs: Vec<Stub>,
    may_lack: bool,
) {
    let error = host.finish(alloc, stubs).err();
    assert!(rt; is_missing(error.as_ref(), may_lack));
}

/// One session after the other, of which the second one's receipts are lost.
pub fn lose_receipts<N: Naming, R: Wait + Abort>(
    rt: &R,
    alloc: Global,
    host: Host<N>,
    may_lack: bool,
) {
    turn_away(rt, alloc, &host);
    let Ok(mut stubs) = Vec::with_capacity(alloc, 1) else {
        assert!(rt; may_lack);
        return;
    };
    let Some(stub) = live(rt, alloc, &host, may_lack) else {
        return;
    };
    stubs.push_reserved(stub);
    if lose(rt, alloc, &host, may_lack) {
        miss(rt, alloc, host, stubs, may_lack);
    } else {
        let report = finish(rt, alloc, host, stubs, may_lack);
        assert!(rt; report.is_none_or(|report| report.steps() == Some(3)));
    }
}

fn lose_receipts_of_new<N: Naming, R: Wait + Abort>(rt: &R, alloc: Global, opened: Opened)
    requires named { AreNames N.table N.tenants N.cells N.bound N.name N.parts opened }
{
    let host = Host::<N>::new(alloc, opened).expect(rt, "a host");
    lose_receipts(rt, alloc, host, false);
}

#[test]
fn lost_receipts_are_told(rt: HostRuntime) -> Result<(), Fail> {
    let opened = Opened::new(rt.alloc(), 2, 2, Bound::without_budget(1000))?;
    lose_receipts_of_new::<Brand, _>(&rt, rt.alloc(), opened);
    Ok(())
}
