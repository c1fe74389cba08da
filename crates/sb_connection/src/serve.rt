//! A connection from its first line to the end of its session.
ghost use Rattle.std.specs.Prelude.{IfSome};
ghost use Rattle.sb_connection.specs.Conversation.{ServesOne};
ghost use Rattle.sb_connection.specs.Exchanges.{IsClosed};
ghost use Rattle.sb_connection.specs.Responses.{LeavesSome};
ghost use Rattle.sb_wire.specs.Stream.{MayFail, OnWriteFault};

use crate::admission::Open;
use crate::caller::SessionCaller;
use crate::connection_end::ConnectionEnd;
use crate::conversation::Talk;
use crate::entrance::Entrance;
use crate::first_line::{SessionName, number_of};
use crate::trail_room::steps_left;
use crate::watch::{ConnectionEvent, NoWatch, Watch};
use sb_desk::{Calling, Hosting, Stub};
use sb_wire::{Sink, Source, StreamError, answer_stream};
use std::alloc::Global;
use std::sync::Wait;

/// The result of a connection: its session's receipts, if it had one, and how it ended.
#[derive(Drop)]
pub struct Served {
    pub stub: Option<Stub>,
    pub ended: Result<(), StreamError>,
}

/// Serves one connection over a reader and a writer: the first line opens a session, each further line is a call of it,
/// and the session is closed however the connection ends.
pub fn serve_one<T: Wait, H: Hosting, R: Source, W: Sink>(
    rt: &T,
    alloc: Global,
    reader: &mut R,
    writer: &mut W,
    host: H,
) -> Served
    ensures goes { ServesOne (H.tenants host) R.fails R.remaining reader.old reader.new (W.contents writer.old) (W.contents writer.new) result }
    ensures refused { OnWriteFault result.ended (MayFail W.refuses W.contents writer.new) }
    ensures closed { IfSome result.stub (λ stub. IsClosed stub.receipts.items) }
{
    serve_one_with(rt, alloc, reader, writer, host, &NoWatch)
}

/// Serves one connection as `serve_one` does, and reports its session and a fault to `watch`.
pub fn serve_one_with<T: Wait, H: Hosting, R: Source, W: Sink, V: Watch>(
    rt: &T,
    alloc: Global,
    reader: &mut R,
    writer: &mut W,
    host: H,
    watch: &V,
) -> Served
    ensures goes { ServesOne (H.tenants host) R.fails R.remaining reader.old reader.new (W.contents writer.old) (W.contents writer.new) result }
    ensures refused { OnWriteFault result.ended (MayFail W.refuses W.contents writer.new) }
    ensures closed { IfSome result.stub (λ stub. IsClosed stub.receipts.items) }
{
    let entrance = Entrance::new(host);
    let talk = Talk {
        rt,
        entrance: &entrance,
        watch,
        first: 0,
        keyed: false,
        doorkeeper: &Open,
    };
    let mut session = None;
    let mut away = false;
    let ended = answer_stream(alloc, reader, writer, &talk, &mut session, &mut away);
    let stub = close(rt, session);
    tell_end(watch, 0, &stub, ConnectionEnd::of(&ended));
    Served { stub, ended }
}

/// Closes the session, if one was opened.
pub(crate) fn close<T: Wait, S: Calling>(rt: &T, session: Option<SessionCaller<S>>) -> Option<Stub>
    ensures { LeavesSome session result }
{
    match session {
        Some(session) => session.close(rt),
        None => None,
    }
}

/// Reports how a connection ended.
pub(crate) fn tell_end<V: Watch>(watch: &V, first: u32, stub: &Option<Stub>, ended: ConnectionEnd) {
    let named = match stub {
        Some(stub) => Some(session_of(first, stub)),
        None => None,
    };
    match (ended, named) {
        (ConnectionEnd::Well, _) | (ConnectionEnd::ByOperator, None) => {}
        (ConnectionEnd::Fault { why, reason }, _) => watch.on_event(ConnectionEvent::Failed {
            named,
            why,
            reason,
        }),
        (ConnectionEnd::IdleTransaction, Some(named)) => watch.on_event(
            ConnectionEvent::IdleTransaction(named),
        ),
        (ConnectionEnd::ByOperator, Some(named)) => watch.on_event(ConnectionEvent::Ended(named)),
        (ConnectionEnd::Idle | ConnectionEnd::IdleTransaction, _) => watch.on_event(
            ConnectionEvent::Idle(named),
        ),
    }
    match stub {
        Some(stub) => watch.on_event(closed(first, stub)),
        None => watch.on_event(ConnectionEvent::Left),
    }
}

/// The event of a session that is closed.
fn closed(first: u32, stub: &Stub) -> ConnectionEvent {
    let receipts = stub.list();
    let newest = match receipts.last() {
        Some(receipt) => receipt.answer.number,
        None => None,
    };
    ConnectionEvent::Closed {
        named: session_of(first, stub),
        steps: receipts.len(),
        left: steps_left(newest),
    }
}

/// The session of these receipts.
fn session_of(first: u32, stub: &Stub) -> SessionName {
    SessionName {
        tenant: number_of(first, stub.tenant),
        session: u32::from(stub.session.number()),
    }
}
