//! Messages that are to be sent.
ghost use Rattle.std.specs.Prelude.{◌≡◌, ◌≤◌, ◌∷◌, ◌++◌, [], List, Some, None, length, drop, false, map, true};
ghost use Rattle.sb_postgres.specs.Answers.{SeenField, answered, field_seen};
ghost use Rattle.sb_postgres.specs.Tags.{tag_of};
ghost use Rattle.sb_frontend.specs.Rows.{RowsTold};
ghost use Rattle.sb_frontend.specs.Outputs as spec;

use crate::rows::write_rows;
use sb_postgres::query::StatementKind;
use sb_postgres::told::{Effect, SqlState, push_tag};
use sb_postgres::{Field, MessageWriter, ServerMessage};
use sb_rows::SharedRows;
use std::alloc::Global;
use std::marker::Model;

/// Messages one behind the other. If memory has run out for one, no more are added.
#[derive(Drop)]
pub(crate) struct Output {
    alloc: Global,
    writer: MessageWriter,
    bytes: Vec<u8>,
    sent: usize,
    /// The tag of a statement whose transaction isn't committed yet.
    held: Option<Vec<u8>>,
    failed: bool,
}

impl Model for Output {
    ghost use Rattle.std.specs.Prelude.{◌≤◌, drop, option_map, vec_len};
    ghost use Rattle.sb_frontend.specs.Outputs.{Outgoing};

    ghost Value = { Outgoing };

    ghost view = { λ o. record { bytes = drop o.sent o.bytes.items; held = option_map (λ t. t.items) o.held; failed = o.failed } };

    ghost invariant = { λ o. o.sent ≤ vec_len o.bytes };
}

impl Output {
    /// No message.
    pub(crate) fn new(alloc: Global) -> Output
        ensures { result ≡ spec.nothing }
    {
        Output {
            alloc,
            writer: MessageWriter::new(alloc),
            bytes: Vec::new(alloc),
            sent: 0,
            held: None,
            failed: false,
        }
    }

    /// Adds a message.
    #[tactic(auto, unfolding(crate::specs::Outputs::written))]
    pub(crate) fn say(&mut self, message: &ServerMessage<'_>)
        ensures { spec.Says (answered message.now ∷ []) self.old self.new }
    {
        if self.failed {
            return;
        }
        if self.writer.write(&mut self.bytes, message).is_err() {
            self.failed = true;
        }
    }

    /// Adds a byte, as the answer to a request for encryption is.
    pub(crate) fn say_byte(&mut self, byte: u8)
        ensures { spec.Adds (byte ∷ []) self.old self.new }
    {
        if self.failed {
            return;
        }
        if self.bytes.push(byte).is_err() {
            self.failed = true;
        }
    }

    /// Adds an error with this message.
    pub(crate) fn say_error(&mut self, state: SqlState, message: &[u8])
        ensures { spec.Says (spec.error_of state message.now ∷ []) self.old self.new }
    {
        self.say(&ServerMessage::ErrorResponse(&fields_of("ERROR", state, message)));
    }

    /// Adds a notice with this message.
    pub(crate) fn say_notice(&mut self, severity: &'static str, state: SqlState, message: &[u8])
        ensures { spec.Says (spec.notice_of severity.now state message.now ∷ []) self.old self.new }
    {
        self.say(&ServerMessage::NoticeResponse(&fields_of(severity, state, message)));
    }

    /// Adds a message for each row.
    pub(crate) fn say_rows(&mut self, rows: &SharedRows)
        ensures { spec.SaysSome (RowsTold rows.now) self.old self.new }
    {
        if self.failed {
            return;
        }
        match write_rows(self.alloc, &mut self.writer, &mut self.bytes, rows) {
            Ok(()) => {}
            Err(_) => self.failed = true,
        }
    }

    /// Holds a tag back.
    pub(crate) fn hold(&mut self, tag: Vec<u8>)
        ensures { self.new ≡ record self.old { held = Some tag.items } }
    {
        self.held = Some(tag);
    }

    /// Holds the tag of a statement back.
    pub(crate) fn hold_tag(&mut self, kind: StatementKind, line: &[u8], effect: Effect)
        ensures { spec.Tells [] (Some (tag_of kind line.now effect)) self.old self.new }
    {
        let mut tag = Vec::new(self.alloc);
        match push_tag(&mut tag, kind, line, effect) {
            Ok(()) => self.hold(tag),
            Err(_) => self.fail(),
        }
    }

    /// Tells the tag that is held back, if there is one.
    #[tactic(auto, unfolding(crate::specs::Outputs::written))]
    pub(crate) fn complete(&mut self)
        ensures told { spec.Tells (spec.completed self.old.held) None self.old self.new }
        ensures none { self.new.held ≡ None }
    {
        let Some(tag) = self.held.take() else {
            return;
        };
        self.say(&ServerMessage::CommandComplete(&tag));
    }

    /// Lets go of the tag that is held back.
    pub(crate) fn forget(&mut self)
        ensures { self.new ≡ record self.old { held = None } }
    {
        self.held = None;
    }

    /// Memory has run out.
    pub(crate) fn fail(&mut self)
        ensures { self.new ≡ record self.old { failed = true } }
    {
        self.failed = true;
    }

    /// True if memory has run out for a message.
    pub(crate) fn has_failed(&self) -> bool
        ensures { result ≡ self.now.failed }
    {
        self.failed
    }

    /// The bytes that are to be sent.
    pub(crate) fn pending(&self) -> &[u8]
        ensures { result.now ≡ self.now.bytes }
    {
        &self.bytes.as_slice()[self.sent..]
    }

    /// So many bytes were sent.
    pub(crate) fn note_sent(&mut self, count: usize)
        requires { count ≤ length self.old.bytes }
        ensures { self.new ≡ record self.old { bytes = drop count self.old.bytes } }
    {
        self.sent += count;
        if self.sent == self.bytes.len() {
            self.bytes = Vec::new(self.alloc);
            self.sent = 0;
        }
    }
}

/// The fields that each error and each notice has.
pub(crate) fn fields_of<'a>(
    severity: &'static str,
    state: SqlState,
    message: &'a [u8],
) -> [Field<'a>; 4]
    ensures { map field_seen result ≡ spec.fields_of severity.now state message.now }
{
    [
        Field {
            letter: b'S',
            text: severity.as_bytes(),
        },
        Field {
            letter: b'V',
            text: severity.as_bytes(),
        },
        Field {
            letter: b'C',
            text: state.code().as_bytes(),
        },
        Field {
            letter: b'M',
            text: message,
        },
    ]
}
