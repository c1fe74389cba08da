//! What is told of the answers of a session, and of the room of its tenant's trail.

use crate::caller::SessionCaller;
use crate::first_line::SessionName;
use crate::watch::{Answered, ConnectionEvent, Said, Watch};
use sb_desk::Calling;
use sb_tenant::TRAIL_LIMIT;
use sb_wire::{Piece, WireRefusal};
use std::sync::Wait;

/// The most steps of a trail.
const MOST_STEPS: u32 = TRAIL_LIMIT as u32;

/// It is reported when a trail has room for no more than so many steps.
const FEW_STEPS: u32 = MOST_STEPS / 10;

/// The step number of a session's newest answer, if it was a step.
pub(crate) fn newest_step<S: Calling>(session: &Option<SessionCaller<S>>) -> Option<u32> {
    let Some(session) = session else {
        return None;
    };
    match session.last() {
        Some(answer) => answer.number,
        None => None,
    }
}

/// True if the newest line wasn't begun, where it was no step and this is the newest one: an answer that is no step says
/// that the trail is full.
pub(crate) fn was_unbegun<S: Calling>(
    session: &Option<SessionCaller<S>>,
    newest: Option<u32>,
) -> bool {
    let Some(session) = session else {
        return false;
    };
    session.last().is_none() || newest.is_some()
}

/// How many steps a trail has room for behind this one.
pub(crate) fn steps_left(step: Option<u32>) -> u32 {
    match step {
        Some(step) => MOST_STEPS.saturating_sub(step),
        None => 0,
    }
}

/// Reports a trail that fills up with this step. The `end` of a session may follow the last step of a full trail.
pub(crate) fn tell_room<V: Watch>(watch: &V, tenant: u32, step: u32) {
    let left = steps_left(Some(step));
    if step == MOST_STEPS || left == FEW_STEPS {
        watch.on_event(ConnectionEvent::Fills { tenant, left });
    }
}

/// Reports the newest answer of a session. The line may be the first one.
pub(crate) fn tell_reply<T: Wait, V: Watch, S: Calling>(
    rt: &T,
    watch: &V,
    session: &Option<SessionCaller<S>>,
    named: SessionName,
    piece: Piece<'_>,
    is_first: bool,
    transacted: bool,
) {
    let Some(session) = session else {
        return;
    };
    let Some(answer) = session.last() else {
        return;
    };
    watch.on_reply(
        rt,
        Answered::new(
            named,
            piece,
            is_first,
            Said::Reply(&answer.reply),
            transacted,
            session.has_transaction(),
        ),
    );
}

/// Reports a line that was no step.
pub(crate) fn tell_refusal<T: Wait, V: Watch>(
    rt: &T,
    watch: &V,
    named: SessionName,
    piece: Piece<'_>,
    why: WireRefusal,
    transacted: bool,
) {
    watch.on_reply(
        rt,
        Answered::new(
            named,
            piece,
            false,
            Said::Refusal(why),
            transacted,
            transacted,
        ),
    );
}
