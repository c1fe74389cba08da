//! A session's receipts: a line and its answer for each of its entries.
ghost use Rattle.std.specs.Prelude.{ℕ, List, length, ◌≡◌, ◌+◌, ◌<◌, false, Some, None, IsSome, MatchOption, IfOk, OnErr, OnOk};
ghost use Rattle.sb_tenant.specs.declared.reply.Reply.TheVariants as told;
ghost use Rattle.sb_desk.specs.Fields.{IsRoom, answered, noted, unseated};
ghost use Rattle.sb_desk.specs.Receipts.{after_end, last_of, newcomer, numbered, prepared};
ghost use Rattle.sb_desk.specs.Seats.{IsSeat, number_of};

use crate::naming::Naming;
use crate::seats::SessionSeat;
use sb_tenant::{Answer, END, KnownLines, Line, OPEN, Reply, reserve_here};
use sb_value::SessionId;
use std::alloc::{AllocError, Global};
use std::marker::Model;
use std::sync::ledger::Share;

/// The line that a call had, and its answer.
pub struct Receipt {
    pub line: Line,
    pub answer: Answer,
}

impl Drop for Receipt {
    fn drop(self) {
        let Self { line: _, answer: _ } = self;
    }
}

/// The place of the newest call's answer.
#[derive(Drop)]
pub(crate) enum Newest {
    Nothing,
    Listed,
    Beside(Answer),
}

/// An open session holds its seat and the line of its end.
#[derive(Drop)]
pub(crate) struct Opening {
    pub(crate) seat: SessionSeat,
    pub(crate) end: Line,
}

/// One session's receipts, and while it is open its seat.
pub struct Receipts<N: Naming> {
    tenant: u32,
    session: SessionId,
    list: Vec<Receipt>,
    share: Share<N>,
    opening: Option<Opening>,
    /// True if it has a transaction behind its newest step.
    has_transaction: bool,
    known: KnownLines,
    ready: Option<Line>,
    newest: Newest,
}

impl<N: Naming> Drop for Receipts<N> {
    fn drop(self) {
        let Self {
            tenant: _,
            session: _,
            list: _,
            share: _,
            opening: _,
            has_transaction: _,
            known: _,
            ready: _,
            newest: _,
        } = self;
    }
}

impl<N: Naming> Model for Receipts<N> {
    ghost use Rattle.sb_desk.specs.Receipts.{Receipts};
    ghost use Rattle.sb_desk.specs.Fields.{seen, AreKept};

    ghost Value = { Receipts };

    ghost view = { seen };

    ghost invariant = { AreKept N.table N.tenants N.cells };
}

impl<N: Naming> Receipts<N> {
    /// The number of its tenant.
    pub fn tenant(&self) -> u32
        ensures is { result ≡ self.now.tenant }
        ensures below { result < N.tenants }
    {
        self.tenant
    }

    /// The session.
    pub fn session(&self) -> SessionId
        ensures is { result ≡ self.now.session }
        ensures below { result < 8 }
    {
        self.session
    }

    /// True if the session has ended.
    pub fn ended(&self) -> bool
        ensures { result ≡ self.now.ended }
    {
        self.opening.is_none()
    }

    /// True if the session has a transaction behind its newest step.
    pub fn has_transaction(&self) -> bool
        ensures { result ≡ self.now.has_transaction }
    {
        self.has_transaction
    }

    /// The receipts so far.
    pub fn list(&self) -> &[Receipt]
        ensures { result.now ≡ self.now.list }
    {
        self.list.as_slice()
    }

    /// The answer of the newest call that gave one.
    pub fn last(&self) -> Option<&Answer>
        ensures { MatchOption result (self.now.last ≡ None) (λ answer. self.now.last ≡ Some answer.now) }
    {
        match &self.newest {
            Newest::Nothing => None,
            Newest::Listed => last_answer(self.list.as_slice()),
            Newest::Beside(answer) => Some(answer),
        }
    }

    /// The receipts alone.
    pub fn into_list(self) -> Vec<Receipt>
        ensures { result.items ≡ self.list }
    {
        let Self {
            tenant: _,
            session: _,
            list,
            share: _,
            opening: _,
            has_transaction: _,
            known: _,
            ready: _,
            newest: _,
        } = self;
        list
    }

    /// The receipts with their parts.
    pub fn into_parts(self) -> (Vec<Receipt>, Share<N>)
        ensures list { result.0.items ≡ self.list }
        ensures parts { result.1.parts ≡ length self.list }
    {
        let Self {
            tenant: _,
            session: _,
            list,
            share,
            opening: _,
            has_transaction: _,
            known: _,
            ready: _,
            newest: _,
        } = self;
        (list, share)
    }

    /// Makes a line ready, with the place of its receipt. Error: out of memory.
    pub fn prepare(&mut self, alloc: Global, line: &[u8]) -> Result<(), AllocError>
        ensures ok { OnOk result (self.new ≡ prepared self.old line.now) }
        ensures err { OnErr result (self.new ≡ self.old) }
    {
        let line = self.known.line(alloc, line)?;
        reserve_here(alloc, &mut self.list, 2)?;
        self.ready = Some(line);
        Ok(())
    }

    /// The line that is ready.
    pub(crate) fn ready(&self) -> Option<&Line>
        ensures { MatchOption result (self.now.ready ≡ None) (λ line. self.now.ready ≡ Some line.now) }
    {
        self.ready.as_ref()
    }

    /// Takes the receipt of the line that was ready, with its part.
    pub(crate) fn note(&mut self, from: &mut Share<N>, answer: Answer, has_transaction: bool)
        requires parts { 1 < from.old.parts }
        requires ready { IsSome self.old.ready }
        ensures part { from.new.parts + 1 ≡ from.old.parts }
        ensures note { (line : List ℕ) × (self.old.ready ≡ Some line) × (self.new ≡ noted self.old line answer has_transaction) }
    {
        let Some(line) = self.ready.take() else {
            unreachable!()
        };
        let part = from.split_off(1, 0);
        self.share.merge(part);
        self.list.push_reserved(Receipt { line, answer });
        self.newest = Newest::Listed;
        self.has_transaction = has_transaction;
    }

    /// Takes the receipt of the `end`, with its part, and gives the seat.
    pub(crate) fn note_end(&mut self, from: &mut Share<N>, number: u32) -> SessionSeat
        requires parts { 1 < from.old.parts }
        requires not_ended { self.old.ended ≡ false }
        ensures part { from.new.parts + 1 ≡ from.old.parts }
        ensures note { self.new ≡ after_end self.old number }
        ensures seat { IsSeat N.table (number_of N.cells self.old.tenant self.old.session) result }
    {
        let Some(opening) = self.opening.take() else {
            unreachable!()
        };
        let Opening { seat, end } = opening;
        let part = from.split_off(1, 0);
        self.share.merge(part);
        self.ready = None;
        self.has_transaction = false;
        self.list.push_reserved(Receipt {
            line: end,
            answer: ok(number),
        });
        self.newest = Newest::Listed;
        seat
    }

    /// Takes the answer to the line that was ready, which is no receipt.
    pub(crate) fn tell(&mut self, answer: Answer, has_transaction: bool)
        ensures { self.new ≡ answered self.old answer has_transaction }
    {
        self.ready = None;
        self.has_transaction = has_transaction;
        self.newest = Newest::Beside(answer);
    }

    /// Gives the seat of a session that has ended.
    pub(crate) fn give_up_seat(&mut self) -> SessionSeat
        requires { self.old.ended ≡ false }
        ensures ended { self.new ≡ unseated self.old }
        ensures seat { IsSeat N.table (number_of N.cells self.old.tenant self.old.session) result }
    {
        match self.opening.take() {
            Some(opening) => opening.seat,
            None => unreachable!(),
        }
    }
}

/// The answer of the last receipt.
fn last_answer(list: &[Receipt]) -> Option<&Answer>
    ensures { MatchOption result (last_of list.now ≡ None) (λ answer. last_of list.now ≡ Some answer.now) }
{
    if list.len() == 0 {
        None
    } else {
        Some(&list[list.len() - 1].answer)
    }
}

/// `ok`, with the number of its step.
fn ok(number: u32) -> Answer
    ensures { result ≡ numbered number told.Ok }
{
    Answer {
        number: Some(number),
        reply: Reply::Ok,
    }
}

/// The places, the lines and the part that a session needs to be opened.
#[derive(Drop)]
pub(crate) struct Room {
    pub(crate) list: Vec<Receipt>,
    pub(crate) first: Line,
    pub(crate) end: Line,
    pub(crate) known: KnownLines,
}

impl Room {
    /// The room, before the session is opened.
    pub(crate) fn new(alloc: Global) -> Result<Room, AllocError>
        ensures { IfOk result IsRoom }
    {
        let mut list = Vec::new(alloc);
        list.reserve(2)?;
        Ok(Room {
            list,
            first: Line::new(alloc, OPEN)?,
            end: Line::new(alloc, END)?,
            known: KnownLines::new(alloc),
        })
    }

    /// The receipts of a session that was just opened.
    pub(crate) fn opened<N: Naming>(
        self,
        tenant: u32,
        session: SessionId,
        share: Share<N>,
        seat: SessionSeat,
        number: u32,
    ) -> Receipts<N>
        requires of { (tenant < N.tenants) × (session < 8) }
        requires room { IsRoom self }
        requires part { share.parts ≡ 1 }
        requires seat { IsSeat N.table (number_of N.cells tenant session) seat }
        ensures { result ≡ newcomer tenant session number }
    {
        let Room {
            mut list,
            first,
            end,
            known,
        } = self;
        list.push_reserved(Receipt {
            line: first,
            answer: ok(number),
        });
        Receipts {
            tenant,
            session,
            list,
            share,
            opening: Some(Opening { seat, end }),
            has_transaction: false,
            known,
            ready: None,
            newest: Newest::Nothing,
        }
    }
}
