//! Messages of a server as bytes.
ghost use Rattle.std.specs.Prelude.{◌≡◌, ◌≤◌, ◌++◌, ◌∷◌, [], ⊤, length, map, option_copied};
ghost use Rattle.std.specs.List.{AllByRecursion, flat_map};
ghost use Rattle.sb_postgres.specs.Answers.{CanBeSent, IsAnswered, IsColumn, IsField, NegotiateProtocolVersion, answered, body_of, column, column_seen, field, field_seen, fields_body, kind_of, sent, status_letter};
ghost use Rattle.sb_postgres.specs.Fields.{AreCounted, IsText, IsValue, IsWord, counted, text, value, word};
ghost use Rattle.sb_postgres.specs.Frames.{body_limit, frame};
ghost use Rattle.sb_postgres.specs.Writing.{Adds, Pushes};

use crate::error::WriteError;
use crate::frame::MESSAGE_LIMIT;
use crate::item::{push_all, push_counted, push_text, push_word};
use crate::server_message::{Column, Field, ServerMessage, TransactionStatus};
use std::alloc::Global;

fn letter_of(status: TransactionStatus) -> u8
    ensures { result ≡ status_letter status }
{
    match status {
        TransactionStatus::Idle => b'I',
        TransactionStatus::Open => b'T',
    }
}

/// The first byte of a message.
fn kind_of(message: &ServerMessage<'_>) -> u8
    ensures { result ≡ kind_of (answered message.now) }
{
    match message {
        ServerMessage::AuthenticationOk | ServerMessage::AuthenticationCleartextPassword => b'R',
        ServerMessage::ParameterStatus { .. } => b'S',
        ServerMessage::BackendKeyData { .. } => b'K',
        ServerMessage::NegotiateProtocolVersion { .. } => b'v',
        ServerMessage::ReadyForQuery(_) => b'Z',
        ServerMessage::RowDescription(_) => b'T',
        ServerMessage::DataRow(_) => b'D',
        ServerMessage::CommandComplete(_) => b'C',
        ServerMessage::EmptyQueryResponse => b'I',
        ServerMessage::ErrorResponse(_) => b'E',
        ServerMessage::NoticeResponse(_) => b'N',
        ServerMessage::ParseComplete => b'1',
        ServerMessage::BindComplete => b'2',
        ServerMessage::CloseComplete => b'3',
        ServerMessage::NoData => b'n',
        ServerMessage::PortalSuspended => b's',
        ServerMessage::ParameterDescription(_) => b't',
    }
}

fn push_columns(out: &mut Vec<u8>, columns: &[Column<'_>]) -> Result<(), WriteError>
    ensures { Pushes (AreCounted IsColumn (map column_seen columns.now)) (counted column (map column_seen columns.now)) out.old.items out.new.items result }
{
    push_counted(out, columns)
}

fn push_values(out: &mut Vec<u8>, values: &[Option<&[u8]>]) -> Result<(), WriteError>
    ensures { Pushes (AreCounted IsValue (map option_copied values.now)) (counted value (map option_copied values.now)) out.old.items out.new.items result }
{
    push_counted(out, values)
}

fn push_each_field(out: &mut Vec<u8>, fields: &[Field<'_>]) -> Result<(), WriteError>
    ensures { Pushes (AllByRecursion IsField (map field_seen fields.now)) (flat_map field (map field_seen fields.now)) out.old.items out.new.items result }
{
    push_all(out, fields)
}

fn push_texts(out: &mut Vec<u8>, texts: &[&[u8]]) -> Result<(), WriteError>
    ensures { Pushes (AllByRecursion IsText (map (λ t. t.now) texts.now)) (flat_map text (map (λ t. t.now) texts.now)) out.old.items out.new.items result }
{
    push_all(out, texts)
}

/// Adds fields, and the zero byte that ends them.
fn push_fields(out: &mut Vec<u8>, fields: &[Field<'_>]) -> Result<(), WriteError>
    ensures { Pushes (AllByRecursion IsField (map field_seen fields.now)) (fields_body (map field_seen fields.now)) out.old.items out.new.items result }
{
    push_each_field(out, fields)?;
    out.push(0)?;
    Ok(())
}

#[tactic(auto, using(crate::proofs::Pushing::as_many))]
fn push_options(out: &mut Vec<u8>, minor: u32, options: &[&[u8]]) -> Result<(), WriteError>
    ensures { Pushes (IsAnswered (NegotiateProtocolVersion minor (map (λ o. o.now) options.now)))
        (body_of (NegotiateProtocolVersion minor (map (λ o. o.now) options.now))) out.old.items out.new.items result }
{
    if options.len() > u32::MAX as usize {
        return Err(WriteError::Unsayable);
    }
    push_word(out, minor)?;
    push_word(out, options.len() as u32)?;
    push_texts(out, options)
}

fn push_two_texts(out: &mut Vec<u8>, first: &[u8], second: &[u8]) -> Result<(), WriteError>
    ensures { Pushes (IsText first.now × IsText second.now) (text first.now ++ text second.now) out.old.items out.new.items result }
{
    push_text(out, first)?;
    push_text(out, second)
}

fn push_two_words(out: &mut Vec<u8>, first: u32, second: u32) -> Result<(), WriteError>
    ensures { Pushes (IsWord first × IsWord second) (word first ++ word second) out.old.items out.new.items result }
{
    push_word(out, first)?;
    push_word(out, second)
}

fn push_head(out: &mut Vec<u8>, kind: u8, len: u32) -> Result<(), WriteError>
    ensures { Adds ⊤ (kind ∷ word len) out.old.items out.new.items result }
{
    let [l0, l1, l2, l3] = len.to_be_bytes();
    out.extend_from_slice(&[kind, l0, l1, l2, l3])?;
    Ok(())
}

fn push_letter(out: &mut Vec<u8>, letter: u8) -> Result<(), WriteError>
    ensures { Pushes ⊤ (letter ∷ []) out.old.items out.new.items result }
{
    out.push(letter)?;
    Ok(())
}

/// Adds what is behind the length of a message.
fn push_body(out: &mut Vec<u8>, message: &ServerMessage<'_>) -> Result<(), WriteError>
    ensures { Pushes (IsAnswered (answered message.now)) (body_of (answered message.now)) out.old.items out.new.items result }
{
    match message {
        ServerMessage::AuthenticationOk => push_word(out, 0),
        ServerMessage::AuthenticationCleartextPassword => push_word(out, 3),
        ServerMessage::ParameterStatus { name, value } => push_two_texts(out, name, value),
        ServerMessage::BackendKeyData { process, key } => push_two_words(out, *process, *key),
        ServerMessage::NegotiateProtocolVersion { minor, options } => {
            push_options(out, *minor, options)
        }
        ServerMessage::ReadyForQuery(status) => push_letter(out, letter_of(*status)),
        ServerMessage::RowDescription(columns) => push_columns(out, columns),
        ServerMessage::DataRow(values) => push_values(out, values),
        ServerMessage::CommandComplete(tag) => push_text(out, tag),
        ServerMessage::ErrorResponse(fields) | ServerMessage::NoticeResponse(fields) => {
            push_fields(out, fields)
        }
        ServerMessage::ParameterDescription(types) => push_counted(out, types),
        ServerMessage::EmptyQueryResponse
        | ServerMessage::ParseComplete
        | ServerMessage::BindComplete
        | ServerMessage::CloseComplete
        | ServerMessage::NoData
        | ServerMessage::PortalSuspended => Ok(()),
    }
}

/// Adds a first byte, the length, and a body that is within the limit, or nothing.
fn push_frame(out: &mut Vec<u8>, kind: u8, body: &[u8]) -> Result<(), WriteError>
    ensures { Adds (length body.now ≤ body_limit) (frame kind body.now) out.old.items out.new.items result }
{
    if body.len() > MESSAGE_LIMIT {
        return Err(WriteError::Unsayable);
    }
    let before = out.len();
    push_head(out, kind, body.len() as u32 + 4)?;
    let written = out.extend_from_slice(body);
    if written.is_err() {
        out.truncate(before);
    }
    Ok(written?)
}

/// Writes messages.
#[derive(Debug, Drop)]
pub struct MessageWriter {
    /// Where the body of a message is put together.
    body: Vec<u8>,
}

impl MessageWriter {
    pub fn new(alloc: Global) -> MessageWriter {
        MessageWriter {
            body: Vec::new(alloc),
        }
    }

    /// Adds the bytes of a message, or nothing. Error: Unsayable where no message says this, or out of memory.
    pub fn write(
        &mut self,
        out: &mut Vec<u8>,
        message: &ServerMessage<'_>,
    ) -> Result<(), WriteError>
        ensures { Adds (CanBeSent (answered message.now)) (sent (answered message.now)) out.old.items out.new.items result }
    {
        self.body.clear();
        push_body(&mut self.body, message)?;
        push_frame(out, kind_of(message), &self.body)
    }
}
