//! The demands of messages on a conversation.
ghost use Rattle.std.specs.Prelude.{◌≡◌};
ghost use Rattle.sb_postgres.specs.Messages.{said};
ghost use Rattle.sb_frontend.specs.Demands as spec;

use crate::phase::Phase;
use sb_postgres::ClientMessage;

/// The demand of a message on a conversation.
#[derive(Clone, Copy)]
pub(crate) enum Demand<'a> {
    End,
    /// Whom this key lets in is to have a session of the tenant.
    Enter { tenant: Option<u32>, key: &'a [u8] },
    /// Statements are to be played.
    Play { text: &'a [u8] },
    /// A transaction that was begun unasked is to be committed.
    Synchronize,
    Nothing,
    /// A message of the extended query.
    Extend { message: &'a ClientMessage<'a> },
    /// It has no place here.
    Misplaced,
}

fn asking<'a>(tenant: Option<u32>, message: &'a ClientMessage<'a>) -> Demand<'a>
    ensures { spec.demanded result ≡ spec.asking tenant (said message.now) }
{
    match message {
        ClientMessage::Password { key } => Demand::Enter { tenant, key },
        ClientMessage::Terminate => Demand::End,
        _ => Demand::Misplaced,
    }
}

fn ready<'a>(message: &'a ClientMessage<'a>) -> Demand<'a>
    ensures { spec.demanded result ≡ spec.ready (said message.now) }
{
    match message {
        ClientMessage::Query { text } => Demand::Play { text },
        ClientMessage::Sync => Demand::Synchronize,
        ClientMessage::Flush => Demand::Nothing,
        ClientMessage::Terminate => Demand::End,
        ClientMessage::Password { .. } => Demand::Misplaced,
        _ => Demand::Extend { message },
    }
}

fn skipping<'a>(message: &'a ClientMessage<'a>) -> Demand<'a>
    ensures { spec.demanded result ≡ spec.skipping (said message.now) }
{
    match message {
        ClientMessage::Sync => Demand::Synchronize,
        ClientMessage::Terminate => Demand::End,
        _ => Demand::Nothing,
    }
}

/// The demand of a message on a conversation in this phase.
pub(crate) fn demand_of<'a>(phase: Phase, message: &'a ClientMessage<'a>) -> Demand<'a>
    ensures { spec.demanded result ≡ spec.demand_of phase (said message.now) }
{
    match phase {
        Phase::Starting => Demand::Misplaced,
        Phase::AskingKey(tenant) => asking(tenant, message),
        Phase::Ready => ready(message),
        Phase::Skipping => skipping(message),
        Phase::Over => Demand::Nothing,
    }
}
