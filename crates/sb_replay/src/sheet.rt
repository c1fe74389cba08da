//! What a session is called with, and what it was answered.
ghost use Rattle.std.specs.Prelude.{◌≡◌, ◌||◌, IfOk, OnOk};
ghost use Rattle.sb_replay.specs.Sheets.{Gives, Tells, TellsGiven, TellsText, fresh, lines_of};

use sb_host::{CallError, FinishError, Naming, Session};
use sb_tenant::{Answer, Reply};
use sb_value::{Refusal, SessionId};
use sb_wire::{Prefix, WireRefusal, write_refusal, write_reply};
use std::alloc::{AllocError, Global};
use std::marker::Model;
use std::vec::IntoIter;

/// What a session still has to be called with, and what its calls were answered.
pub(crate) struct Sheet {
    tenant: u32,
    number: SessionId,
    commands: IntoIter<Vec<u8>>,
    text: Vec<u8>,
    is_full: bool,
}

impl Drop for Sheet {
    fn drop(self) {
        let Self {
            tenant: _,
            number: _,
            commands: _,
            text: _,
            is_full: _,
        } = self;
    }
}

impl Model for Sheet {
    ghost use Rattle.sb_replay.specs.Fields.{seen};
    ghost use Rattle.sb_replay.specs.Sheets.{Sheet};

    ghost Value = { Sheet };

    ghost view = { seen };
}

impl Sheet {
    /// Before the first of these commands.
    pub(crate) fn new(
        alloc: Global,
        tenant: u32,
        number: SessionId,
        commands: Vec<Vec<u8>>,
    ) -> Sheet
        ensures { result ≡ fresh tenant number (lines_of commands.items) }
    {
        Sheet {
            tenant,
            number,
            commands: commands.into_iter(),
            text: Vec::new(alloc),
            is_full: false,
        }
    }

    /// Whose it is.
    pub(crate) fn tenant(&self) -> u32
        ensures { result ≡ self.now.tenant }
    {
        self.tenant
    }

    /// The next command.
    pub(crate) fn next_command(&mut self) -> Option<Vec<u8>>
        ensures { Gives self.old result self.new }
    {
        self.commands.next()
    }

    /// Adds what the newest call of its session was answered. One without a number is no entry, since the trail is
    /// full.
    pub(crate) fn tell<N: Naming>(
        &mut self,
        session: &Session<'_, N>,
        given: Result<(), CallError>,
    ) -> Result<(), AllocError>
        ensures { OnOk result (Tells self.old given session.now.last self.new) }
    {
        let prefix = Prefix::new(self.tenant, self.number.number() as u32);
        let is_full = write_given(&mut self.text, &prefix, session, given)?;
        self.is_full = self.is_full || is_full;
        Ok(())
    }

    /// That its session doesn't agree with the trail.
    pub(crate) fn mismatch(&self) -> FinishError
        ensures { result ≡ FinishError.Mismatch self.now.tenant self.now.number }
    {
        FinishError::Mismatch {
            tenant: self.tenant,
            session: self.number,
        }
    }

    /// True if it was answered that the trail is full.
    pub(crate) fn is_full(&self) -> bool
        ensures { result ≡ self.now.is_full }
    {
        self.is_full
    }

    /// What its calls were answered.
    pub(crate) fn into_text(self) -> Vec<u8>
        ensures { result.items ≡ self.text }
    {
        let Self {
            tenant: _,
            number: _,
            commands: _,
            text,
            is_full: _,
        } = self;
        text
    }
}

/// Writes what the newest call of a session was answered. Answers whether that has no number.
fn write_given<N: Naming>(
    text: &mut Vec<u8>,
    prefix: &Prefix,
    session: &Session<'_, N>,
    given: Result<(), CallError>,
) -> Result<bool, AllocError>
    ensures { IfOk result (TellsText prefix.now text.old.items given session.now.last text.new.items) }
{
    match given {
        Ok(()) => match session.last() {
            Some(answer) => write_answer(text, prefix, answer),
            None => Ok(false),
        },
        Err(CallError::Ended) => {
            write_reply(text, prefix, &Reply::No(Refusal::NotOpen))?;
            Ok(false)
        }
        Err(CallError::NotBegun) => {
            write_refusal(text, prefix, WireRefusal::NotBegun)?;
            Ok(false)
        }
    }
}

/// Writes an answer. Answers whether it has no number.
fn write_answer(text: &mut Vec<u8>, prefix: &Prefix, answer: &Answer) -> Result<bool, AllocError>
    ensures { IfOk result (TellsGiven prefix.now text.old.items (Ok answer.now) text.new.items) }
{
    write_reply(text, prefix, &answer.reply)?;
    Ok(answer.number.is_none())
}
