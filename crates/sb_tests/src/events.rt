//! A list of events of two tenants, answered by one call of a cell.

use sb_cell::{Cell, Event, StepError};
use sb_tenant::{Answer, Bound, Line};
use sb_wire::write_bare_reply;
use std::alloc::Global;
use std::process::Abort;
use std::test::Fail;

/// A department that goes takes its employees with it.
const FIRST: [&[u8]; 13] = [
    b"open",
    b"create table dept (dno int)",
    b"create table emp (ename text, dno int)",
    b"create rule cascade on dept when deleted then delete from emp where dno in (select dno from deleted)",
    b"begin",
    b"insert into dept values (1), (2)",
    b"insert into emp values ('ann', 1), ('bob', 2), ('cy', 1)",
    b"commit",
    b"begin",
    b"delete from dept where dno = 1",
    b"commit",
    b"begin",
    b"select ename from emp",
];

/// A rule of the same name on a table of the same name counts up to three, and once meets the bound.
const OTHER: [&[u8]; 13] = [
    b"open",
    b"create table dept (a int)",
    b"create table h (a int)",
    b"create rule cascade on dept when inserted, updated if select * from dept where a < 3 \
then update dept set a = a + 1 where a < 3",
    b"begin",
    b"insert into dept values (1)",
    b"commit",
    b"begin",
    b"insert into dept values (0)",
    b"commit",
    b"begin",
    b"select * from dept",
    b"end",
];

const FIRST_REPLIES: &[u8] =
    b"ok\nok\nok\nok\nok\nok 2\nok 3\ndone 0\nok\nok 1\ndone 1\ncascade true\nok\nrows 1\n'bob'\nok\n";

const OTHER_REPLIES: &[u8] =
    b"ok\nok\nok\nok\nok\nok 1\ndone 3\ncascade true\ncascade true\ncascade false\nok\nok 1\n\
rolledback limit 3\ncascade true\ncascade true\ncascade true\nok\nrows 1\n3\nok\n";

/// The lines of both tenants by turns, and a last `end`.
fn events(rt: &impl Abort, alloc: Global) -> Vec<Event> {
    let mut list = Vec::new(alloc);
    for (first, other) in FIRST.iter().zip(OTHER.iter()) {
        push(rt, alloc, &mut list, 0, first);
        push(rt, alloc, &mut list, 8, other);
    }
    push(rt, alloc, &mut list, 0, b"end");
    list
}

fn push(rt: &impl Abort, alloc: Global, list: &mut Vec<Event>, tenant: u32, line: &[u8]) {
    let line = Line::new(alloc, line).expect(rt, "a line");
    let event = Event {
        tenant,
        session: 0,
        line,
    };
    list.push(event).expect(rt, "an event");
}

fn push_reply(rt: &impl Abort, text: &mut Vec<u8>, answer: &Result<Answer, StepError>) {
    match answer {
        Ok(answer) => write_bare_reply(text, &answer.reply).expect(rt, "a reply"),
        Err(_) => assert!(rt; false),
    }
}

/// True if the replies to a tenant's events are this text.
fn are_replies(
    rt: &impl Abort,
    alloc: Global,
    events: &[Event],
    answers: &[Result<Answer, StepError>],
    tenant: u32,
    replies: &[u8],
) -> bool {
    let mut text = Vec::new(alloc);
    for (event, answer) in events.iter().zip(answers.iter()) {
        if event.tenant == tenant {
            push_reply(rt, &mut text, answer);
        }
    }
    text.as_slice() == replies
}

/// Both tenants' replies are those of each alone, and the log is empty at the end.
fn check(rt: &impl Abort, alloc: Global, cell: &mut Cell, events: &[Event]) {
    let answers = cell.run(alloc, events).expect(rt, "answers");
    let told = answers.as_slice();
    assert!(rt; are_replies(rt, alloc, events, told, 0, FIRST_REPLIES));
    assert!(rt; are_replies(rt, alloc, events, told, 8, OTHER_REPLIES));
    assert!(rt; cell.log_len() == 0);
}

#[test]
fn events_are_answered(rt: HostRuntime) -> Result<(), Fail> {
    let mut cell = Cell::new(rt.alloc(), 0, 1, 16, Bound::without_budget(3))?;
    let events = events(&rt, rt.alloc());
    check(&rt, rt.alloc(), &mut cell, events.as_slice());
    Ok(())
}
