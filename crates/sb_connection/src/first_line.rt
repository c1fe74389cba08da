//! The first line of a connection.
ghost use Rattle.std.specs.Prelude.{◌≡◌, ◌++◌, ◌∷◌, [], None, OnOk, OnErr, false, true};
ghost use Rattle.sb_wire.specs.Output.{ended_lines};
ghost use Rattle.sb_wire.specs.Seen.{piece_seen, refusal_line};
ghost use Rattle.sb_connection.specs.Conversation.{attach_lines, hosting, hosting_by, named_by, named_of, tenant_at, visitor_of};
ghost use Rattle.sb_connection.specs.Responses.{Greets, GreetsNamed, GreetsVisitor, WritesText, life_in, stays_in, waits_in};

use crate::admission::Doorkeeper;
use crate::caller::SessionCaller;
use crate::conversation::Talk;
use crate::entrance::Pass;
use crate::watch::{ConnectionEvent, Watch};
use sb_desk::{AttachError, Hosting};
use sb_tenant::Reply;
use sb_value::Refusal;
use sb_wire::{
    Addressed, Piece, WireRefusal, number, number_before_space, write_bare_refusal,
    write_bare_reply,
};
use std::alloc::{AllocError, Global};
use std::sync::Wait;

/// A tenant and one of its sessions, as a first line names them.
#[derive(Clone, Copy)]
pub struct SessionName {
    pub tenant: u32,
    pub session: u32,
}

impl SessionName {
    /// Reads a line of two numbers.
    pub(crate) fn split(line: &[u8]) -> Option<SessionName>
        ensures { result ≡ named_of line.now }
    {
        let (tenant, rest) = number_before_space(line)?;
        let session = number(rest)?;
        Some(SessionName { tenant, session })
    }
}

/// A first line with a key: a tenant, a session and the key.
#[derive(Clone, Copy)]
pub(crate) struct KeyHandshake<'a> {
    pub(crate) named: SessionName,
    pub(crate) key: &'a [u8],
}

impl<'a> KeyHandshake<'a> {
    ghost use Rattle.std.specs.Prelude.{option_map};
    ghost use Rattle.sb_connection.specs.Seen.{visitor_seen};

    /// Reads a line of two numbers and a key.
    fn split(line: &'a [u8]) -> Option<KeyHandshake<'a>>
        ensures { option_map visitor_seen result ≡ visitor_of line.now }
    {
        let Addressed {
            tenant,
            session,
            command,
        } = Addressed::split(line)?;
        Some(KeyHandshake {
            named: SessionName { tenant, session },
            key: command,
        })
    }
}

/// The session that a first line names. With `keyed` the line has a key, too.
pub(crate) fn named_in(piece: Piece<'_>, keyed: bool) -> Option<SessionName>
    ensures { result ≡ named_by keyed (piece_seen piece.entry) }
{
    match piece {
        Piece::Line(line) if keyed => match KeyHandshake::split(line) {
            Some(handshake) => Some(handshake.named),
            None => None,
        },
        Piece::Line(line) => SessionName::split(line),
        Piece::TooLong => None,
    }
}

/// The place of the tenant with this number, if the host's tenants have numbers from `first` on.
pub(crate) fn tenant_at(first: u32, tenants: u32, number: u32) -> u32
    ensures { result ≡ tenant_at (hosting first tenants) number }
{
    if number < first {
        return tenants;
    }
    number - first
}

/// The number of the tenant at this place.
pub(crate) fn number_of(first: u32, tenant: u32) -> u32 {
    first.saturating_add(tenant)
}

/// Opens the session that a first line names, or turns the connection away.
pub(crate) fn greet<T: Wait, H: Hosting, V: Watch, D: Doorkeeper>(
    talk: &Talk<'_, T, H, V, D>,
    alloc: Global,
    piece: Piece<'_>,
    out: &mut Vec<u8>,
    session: &mut Option<SessionCaller<H::Session>>,
    away: &mut bool,
) -> Result<(), AllocError>
    requires { session.old ≡ None }
    ensures writes { WritesText (λ text. Greets D.policy.admits (hosting_by talk.now.keyed talk.now.first (H.tenants talk.now.entrance.now))
        (piece_seen piece.entry) text (life_in session.new) away.new) out.old.items result out.new.items }
    ensures fresh { (stays_in session.new ≡ []) × (waits_in session.new ≡ false) }
{
    match piece {
        Piece::TooLong => turn_away(talk.watch, out, away, WireRefusal::TooLong),
        Piece::Line(line) if talk.keyed => greet_visitor(talk, alloc, line, out, session, away),
        Piece::Line(line) => match SessionName::split(line) {
            Some(named) => open(talk, alloc, Pass::of_anybody(named), out, session, away),
            None => turn_away(talk.watch, out, away, WireRefusal::BadLine),
        },
    }
}

/// Opens the session that a first line with a key names, if it is a key of the tenant.
fn greet_visitor<T: Wait, H: Hosting, V: Watch, D: Doorkeeper>(
    talk: &Talk<'_, T, H, V, D>,
    alloc: Global,
    line: &[u8],
    out: &mut Vec<u8>,
    session: &mut Option<SessionCaller<H::Session>>,
    away: &mut bool,
) -> Result<(), AllocError>
    requires { session.old ≡ None }
    ensures writes { WritesText (λ text. GreetsVisitor D.policy.admits
        (hosting_by talk.now.keyed talk.now.first (H.tenants talk.now.entrance.now)) (visitor_of line.now) text (life_in session.new) away.new)
        out.old.items result out.new.items }
    ensures fresh { (stays_in session.new ≡ []) × (waits_in session.new ≡ false) }
{
    let Some(handshake) = KeyHandshake::split(line) else {
        return turn_away(talk.watch, out, away, WireRefusal::BadKey);
    };
    let KeyHandshake { named, key } = handshake;
    if !talk.doorkeeper.lets_in(talk.rt, named.tenant, key) {
        talk.watch.on_event(ConnectionEvent::Barred(named));
        *away = true;
        return write_bare_refusal(out, WireRefusal::BadKey);
    }
    open(talk, alloc, Pass::by_key(named, key), out, session, away)
}

/// Turns a connection away whose first line names no session.
fn turn_away<V: Watch>(
    watch: &V,
    out: &mut Vec<u8>,
    away: &mut bool,
    why: WireRefusal,
) -> Result<(), AllocError>
    ensures away { away.new ≡ true }
    ensures ok { OnOk result (out.new.items ≡ out.old.items ++ ended_lines (refusal_line why ∷ [])) }
    ensures err { OnErr result (out.new.items ≡ out.old.items) }
{
    *away = true;
    watch.on_event(ConnectionEvent::Unnamed(why));
    write_bare_refusal(out, why)
}

/// Opens the session of a pass, or turns the connection away.
fn open<T: Wait, H: Hosting, V: Watch, D: Doorkeeper>(
    talk: &Talk<'_, T, H, V, D>,
    alloc: Global,
    pass: Pass<D>,
    out: &mut Vec<u8>,
    session: &mut Option<SessionCaller<H::Session>>,
    away: &mut bool,
) -> Result<(), AllocError>
    requires { session.old ≡ None }
    ensures writes { WritesText (λ text. GreetsNamed (hosting_by talk.now.keyed talk.now.first (H.tenants talk.now.entrance.now)) pass text
        (life_in session.new) away.new) out.old.items result out.new.items }
    ensures fresh { (stays_in session.new ≡ []) × (waits_in session.new ≡ false) }
{
    let named = pass.named();
    match talk.entrance.open(talk.rt, alloc, talk.first, pass) {
        Ok(opened) => {
            talk.watch.on_event(ConnectionEvent::Attached(named));
            *session = Some(SessionCaller::new(opened));
            write_bare_reply(out, &Reply::Ok)
        }
        Err(error) => {
            talk.watch
                .on_event(ConnectionEvent::TurnedAway { named, why: error });
            *away = true;
            refuse(out, error)
        }
    }
}

/// Writes why no session was opened.
fn refuse(out: &mut Vec<u8>, error: AttachError) -> Result<(), AllocError>
    ensures ok { OnOk result (out.new.items ≡ out.old.items ++ ended_lines (attach_lines error)) }
    ensures err { OnErr result (out.new.items ≡ out.old.items) }
{
    match error {
        AttachError::NoTenant => write_bare_refusal(out, WireRefusal::NoTenant),
        AttachError::NoSession => write_bare_refusal(out, WireRefusal::NoSession),
        AttachError::AlreadyOpen => write_bare_reply(out, &Reply::No(Refusal::AlreadyOpen)),
        AttachError::TrailFull => write_bare_reply(out, &Reply::No(Refusal::TrailFull)),
        AttachError::NotBegun => write_bare_refusal(out, WireRefusal::NotBegun),
    }
}
