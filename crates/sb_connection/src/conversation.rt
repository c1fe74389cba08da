//! The lines of a connection, one at a time.
ghost use Rattle.std.specs.Prelude.{◌≡◌, ◌++◌, false, IfSome, IsSome, OnOk, OnErr};
ghost use Rattle.sb_wire.specs.Output.{ended_lines};
ghost use Rattle.sb_wire.specs.ReplyText.{reply_lines};
ghost use Rattle.sb_wire.specs.Seen.{piece_seen};
ghost use Rattle.sb_connection.specs.Exchanges.{Exchange, line_in, said_text};
ghost use Rattle.sb_connection.specs.Responses.{Exchanges};

use crate::admission::Doorkeeper;
use crate::caller::SessionCaller;
use crate::entrance::Entrance;
use crate::first_line::greet;
use crate::watch::Watch;
use sb_desk::{CallError, Calling, Hosting};
use sb_wire::{Piece, Responder, WireRefusal, write_bare_refusal, write_bare_reply};
use std::alloc::{AllocError, Global};
use std::sync::Wait;

/// Answers the lines of a connection: the first one opens a session of the host, the others are calls of it.
#[derive(Drop)]
pub(crate) struct Talk<'r, T, H: Hosting, V, D: Doorkeeper> {
    pub(crate) rt: &'r T,
    pub(crate) entrance: &'r Entrance<H>,
    pub(crate) watch: &'r V,
    /// The number of the host's first tenant.
    pub(crate) first: u32,
    /// The first line brings a key.
    pub(crate) keyed: bool,
    pub(crate) doorkeeper: &'r D,
    ghost asks: { keyed ≡ D.policy.keyed },
}

impl<'r, T: Wait, H: Hosting, V: Watch, D: Doorkeeper> Responder<
    Option<SessionCaller<H::Session>>,
    bool,
> for Talk<'r, T, H, V, D> {
    ghost use Rattle.sb_connection.specs.Conversation.{hosting_by};
    ghost use Rattle.sb_connection.specs.Responses.{RespondsIn, is_over_in};

    ghost responds = { λ talk. RespondsIn D.policy.admits (hosting_by talk.keyed talk.first (H.tenants talk.entrance.now)) };

    ghost over = { is_over_in };

    fn respond(
        &self,
        alloc: Global,
        piece: Piece<'_>,
        out: &mut Vec<u8>,
        first: &mut Option<SessionCaller<H::Session>>,
        second: &mut bool,
    ) -> Result<(), AllocError> {
        match first {
            Some(session) => exchange(self.rt, alloc, piece, out, session),
            None => greet(self, alloc, piece, out, first, second),
        }
    }

    fn is_over(&self, first: &Option<SessionCaller<H::Session>>, second: &bool) -> bool {
        match first {
            Some(session) => session.ended(),
            None => *second,
        }
    }
}

/// Calls the session with a line, and writes its answer.
fn exchange<T: Wait, S: Calling>(
    rt: &T,
    alloc: Global,
    piece: Piece<'_>,
    out: &mut Vec<u8>,
    session: &mut SessionCaller<S>,
) -> Result<(), AllocError>
    requires { session.old.life.ended ≡ false }
    ensures { (e : Exchange) × (piece_seen piece.entry ≡ line_in e) × Exchanges session.old.life e session.new.life
        × (session.new.stays ≡ session.old.stays) × (session.new.waits ≡ session.old.waits)
        × OnOk result (out.new.items ≡ out.old.items ++ said_text e)
        × OnErr result (out.new.items ≡ out.old.items) }
{
    match piece {
        Piece::TooLong => write_bare_refusal(out, WireRefusal::TooLong),
        Piece::Line(line) => match session.step(rt, alloc, line) {
            Ok(()) => write_last(out, session),
            Err(CallError::NotBegun) => write_bare_refusal(out, WireRefusal::NotBegun),
            Err(CallError::Ended) => unreachable!(),
        },
    }
}

/// Writes the newest answer of a session.
fn write_last<S: Calling>(out: &mut Vec<u8>, session: &SessionCaller<S>) -> Result<(), AllocError>
    requires { IsSome session.now.last }
    ensures ok { IfSome session.now.last (λ answer. OnOk result (out.new.items ≡
        out.old.items ++ ended_lines (reply_lines answer.reply))) }
    ensures err { OnErr result (out.new.items ≡ out.old.items) }
{
    match session.last() {
        Some(answer) => write_bare_reply(out, &answer.reply),
        None => unreachable!(),
    }
}
