//! Messages from their bytes.
ghost use Rattle.std.specs.Prelude.{◌≡◌, IfOk, Ok};
ghost use Rattle.sb_postgres.specs.Messages.{IsSaid, Said, body_of, kind_of, said};
ghost use Rattle.sb_postgres.specs.Reading.{Gives, bind_at, close_at, describe_at, ended, execute_at, message_at, parse_at, password_at, query_at};

use crate::client_message::ClientMessage;
use crate::error::{Fault, ReadError};
use crate::fields::{target_at, text_at, word_at};
use crate::lists::{halves_at, values_at, words_at};
use std::alloc::Global;

/// The message, where nothing stands behind it.
fn ended<'a>(message: ClientMessage<'a>, rest: &[u8]) -> Result<ClientMessage<'a>, ReadError>
    ensures { Gives said result (ended (said message.entry) rest.now) }
{
    if rest.is_empty() {
        Ok(message)
    } else {
        Err(ReadError::Fault(Fault::Trailing))
    }
}

#[tactic(auto, unfolding(crate::specs::Reading::query_at))]
fn query_of(body: &[u8]) -> Result<ClientMessage<'_>, ReadError>
    ensures { Gives said result (query_at body.now) }
{
    let (text, rest) = text_at(body)?;
    ended(ClientMessage::Query { text }, rest)
}

#[tactic(auto, unfolding(crate::specs::Reading::parse_at))]
fn parse_of(alloc: Global, body: &[u8]) -> Result<ClientMessage<'_>, ReadError>
    ensures { Gives said result (parse_at body.now) }
{
    let (name, rest) = text_at(body)?;
    let (text, rest) = text_at(rest)?;
    let (types, rest) = words_at(alloc, rest)?;
    ended(ClientMessage::Parse { name, text, types }, rest)
}

#[tactic(auto, unfolding(crate::specs::Reading::bind_at))]
fn bind_of(alloc: Global, body: &[u8]) -> Result<ClientMessage<'_>, ReadError>
    ensures { Gives said result (bind_at body.now) }
{
    let (portal, rest) = text_at(body)?;
    let (statement, rest) = text_at(rest)?;
    let (formats, rest) = halves_at(alloc, rest)?;
    let (values, rest) = values_at(alloc, rest)?;
    let (results, rest) = halves_at(alloc, rest)?;
    ended(
        ClientMessage::Bind {
            portal,
            statement,
            formats,
            values,
            results,
        },
        rest,
    )
}

#[tactic(auto, unfolding(crate::specs::Reading::describe_at))]
fn describe_of(body: &[u8]) -> Result<ClientMessage<'_>, ReadError>
    ensures { Gives said result (describe_at body.now) }
{
    let (target, rest) = target_at(body)?;
    let (name, rest) = text_at(rest)?;
    ended(ClientMessage::Describe { target, name }, rest)
}

#[tactic(auto, unfolding(crate::specs::Reading::close_at))]
fn close_of(body: &[u8]) -> Result<ClientMessage<'_>, ReadError>
    ensures { Gives said result (close_at body.now) }
{
    let (target, rest) = target_at(body)?;
    let (name, rest) = text_at(rest)?;
    ended(ClientMessage::Close { target, name }, rest)
}

#[tactic(auto, unfolding(crate::specs::Reading::execute_at))]
fn execute_of(body: &[u8]) -> Result<ClientMessage<'_>, ReadError>
    ensures { Gives said result (execute_at body.now) }
{
    let (portal, rest) = text_at(body)?;
    let (rows, rest) = word_at(rest)?;
    ended(ClientMessage::Execute { portal, rows }, rest)
}

#[tactic(auto, unfolding(crate::specs::Reading::password_at))]
fn password_of(body: &[u8]) -> Result<ClientMessage<'_>, ReadError>
    ensures { Gives said result (password_at body.now) }
{
    let (key, rest) = text_at(body)?;
    ended(ClientMessage::Password { key }, rest)
}

#[tactic(auto, unfolding(crate::specs::Reading::message_at))]
fn message_of(alloc: Global, kind: u8, body: &[u8]) -> Result<ClientMessage<'_>, ReadError>
    ensures { Gives said result (message_at kind body.now) }
{
    match kind {
        b'Q' => query_of(body),
        b'P' => parse_of(alloc, body),
        b'B' => bind_of(alloc, body),
        b'D' => describe_of(body),
        b'E' => execute_of(body),
        b'C' => close_of(body),
        b'H' => ended(ClientMessage::Flush, body),
        b'S' => ended(ClientMessage::Sync, body),
        b'X' => ended(ClientMessage::Terminate, body),
        b'p' => password_of(body),
        _ => Err(ReadError::Fault(Fault::Kind)),
    }
}

/// The message with this first byte and these bytes behind its length. Error: what is wrong in it, or out of memory.
pub fn read_message(alloc: Global, kind: u8, body: &[u8]) -> Result<ClientMessage<'_>, ReadError>
    // What is read has these bytes.
    ensures found { IfOk result (λ m. IsSaid (said m) × (kind_of (said m) ≡ kind) × (body_of (said m) ≡ body.now)) }
    // What has these bytes is read, unless memory runs out.
    ensures only { (m : Said) → IsSaid m → kind_of m ≡ kind → body_of m ≡ body.now → Gives said result (Ok m) }
    // Which fault it is.
    ensures exact { Gives said result (message_at kind body.now) }
{
    message_of(alloc, kind, body)
}
