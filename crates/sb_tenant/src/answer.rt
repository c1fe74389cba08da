//! The answer to a line.
ghost use Rattle.std.specs.Prelude.{◌≡◌, ◌<◌, ◌≤◌, ◌^◌, List, None, Some, length};
ghost use Rattle.sb_catalog.specs.Definitions.{OtherTenantsStay};
ghost use Rattle.sb_index.specs.TableSets.{TableSets};
ghost use Rattle.sb_process.specs.Made.{NumbersBelow};
ghost use Rattle.sb_syntax.specs.Text.{command_of, text_limit};
ghost use Rattle.sb_syntax.specs.Views.{command as tree_of};
ghost use Rattle.sb_tenant.specs.declared.phase.Phase.TheVariants as phase;
ghost use Rattle.sb_tenant.specs.declared.reply.Reply.TheVariants as told;
ghost use Rattle.sb_tenant.specs.Defining.{HasFewActions, told as reply_of};
ghost use Rattle.sb_tenant.specs.Represents.{EachState, StandForSome, Leaves, Performs, Refuses, StandAside, StandFor};
ghost use Rattle.sb_tenant.specs.State.{State};
ghost use Rattle.sb_tenant.specs.Step.{reply_to, reply_to_command};
ghost use Rattle.sb_tenant.specs.Trail.{aborted};

use crate::asker::Asker;
use crate::class::class_of;
use crate::reply::Reply;
use crate::store::{Replies, Store};
use sb_index::RuleIndex;
use sb_rawlog::ChangeLog;
use sb_syntax::{Command, ParseError, parse};
use sb_value::{Refusal, SessionId};
use std::alloc::Global;

/// `ok`, for the trail and for the answer.
pub(crate) fn done() -> Replies
    ensures { result ≡ (told.Ok, told.Ok) }
{
    (Reply::Ok, Reply::Ok)
}

/// A refusal, for the trail and for the answer.
#[inline(never)]
pub(crate) fn refused(refusal: Refusal) -> Replies
    ensures { result ≡ (told.No refusal, told.No refusal) }
{
    (no(&refusal), no(&refusal))
}

/// The reply of a definition, done or refused, for the trail and for the answer.
fn replied(outcome: Result<(), Refusal>) -> Replies
    ensures { result ≡ (reply_of outcome, reply_of outcome) }
{
    match outcome {
        Ok(()) => done(),
        Err(refusal) => refused(refusal),
    }
}

/// The reply of a refusal.
fn no(refusal: &Refusal) -> Reply
    ensures { result ≡ told.No refusal.now }
{
    Reply::No(*refusal)
}

impl Store {
    /// Answers a line of a session. Where memory runs out, its transaction is taken back.
    pub(crate) fn answer<L: ChangeLog>(
        &mut self,
        alloc: Global,
        log: &mut L,
        index: &mut RuleIndex,
        asker: &Asker<'_, '_>,
    ) -> Replies
        requires stand { (state : State) × StandFor self.old (L.records log.old) (L.clock log.old) index.old state }
        requires bound { asker.now.bound.considerations ≤ 1000 }
        requires short { length asker.now.line.now ≤ text_limit }
        requires times { L.clock log.old < 2 ^ 63 }
        requires numbers { NumbersBelow (2 ^ 63) self.old.database.tables }
        ensures answered { EachState self.old (L.records log.old) (L.clock log.old) index.old
            (λ state. Performs self.new (L.records log.new) (L.clock log.new) index.new state asker.now.session
            (reply_to self.old.database.id asker.now.bound state asker.now.session asker.now.line.now) result.0) }
        ensures twice { result.1 ≡ result.0 }
        ensures leaves { Leaves 32768000 self.old self.new asker.now.session
            (L.records log.old) (L.records log.new) (L.clock log.old) (L.clock log.new) }
        ensures others { OtherTenantsStay self.old.database.id index.old index.new }
    {
        match parse(alloc, asker.line) {
            Ok(command) => self.respond(alloc, log, index, asker, command),
            Err(ParseError::NoMemory) => self.run_out(log, asker.session),
            Err(ParseError::Syntax { place: _ }) => refused(Refusal::Syntax),
        }
    }

    /// Gives a line up for want of memory: the session's transaction is taken back.
    #[inline(never)]
    pub(crate) fn run_out<L: ChangeLog>(&mut self, log: &mut L, session: SessionId) -> Replies
        requires { StandForSome self.old (L.records log.old) (L.clock log.old) }
        ensures aborted { (index : List (List TableSets)) →
            EachState self.old (L.records log.old) (L.clock log.old) index
            (λ state. StandFor self.new (L.records log.new) (L.clock log.new) index (aborted state session)) }
        ensures replies { result ≡ (told.No Refusal.NoMemory, told.No Refusal.NoMemory) }
        ensures performed { (index : List (List TableSets)) (before : State) (meant : State × Reply) →
            StandAside self.old (L.records log.old) (L.clock log.old) index before session →
            Performs self.new (L.records log.new) (L.clock log.new) index before session meant result.0 }
        ensures twice { result.1 ≡ result.0 }
        ensures leaves { Leaves 0 self.old self.new session
            (L.records log.old) (L.records log.new) (L.clock log.old) (L.clock log.new) }
    {
        self.abort(log, session);
        refused(Refusal::NoMemory)
    }

    /// Answers with a refusal. For want of memory the session's transaction is taken back.
    #[inline(never)]
    pub(crate) fn refuse<L: ChangeLog>(
        &mut self,
        log: &mut L,
        session: SessionId,
        refusal: Refusal,
    ) -> Replies
        requires { StandForSome self.old (L.records log.old) (L.clock log.old) }
        ensures refused { (index : List (List TableSets)) (before : State) (meant : State × Reply) →
            StandAside self.old (L.records log.old) (L.clock log.old) index before session →
            Refuses (StandFor self.old (L.records log.old) (L.clock log.old) index) meant refusal →
            Performs self.new (L.records log.new) (L.clock log.new) index before session meant result.0 }
        ensures twice { result.1 ≡ result.0 }
        ensures leaves { Leaves 0 self.old self.new session
            (L.records log.old) (L.records log.new) (L.clock log.old) (L.clock log.new) }
    {
        match refusal {
            Refusal::NoMemory => self.run_out(log, session),
            other => refused(other),
        }
    }

    /// Does a command, unless its session refuses it.
    fn respond<L: ChangeLog>(
        &mut self,
        alloc: Global,
        log: &mut L,
        index: &mut RuleIndex,
        asker: &Asker<'_, '_>,
        command: Command,
    ) -> Replies
        requires stand { (state : State) × StandFor self.old (L.records log.old) (L.clock log.old) index.old state }
        requires bound { asker.now.bound.considerations ≤ 1000 }
        requires times { L.clock log.old < 2 ^ 63 }
        requires numbers { NumbersBelow (2 ^ 63) self.old.database.tables }
        requires few { HasFewActions (tree_of command) }
        requires spelled { command_of asker.now.line.now ≡ Some (tree_of command) }
        ensures answered { EachState self.old (L.records log.old) (L.clock log.old) index.old
            (λ state. Performs self.new (L.records log.new) (L.clock log.new) index.new state asker.now.session
            (reply_to_command self.old.database.id asker.now.bound state asker.now.session (tree_of command))
            result.0) }
        ensures twice { result.1 ≡ result.0 }
        ensures leaves { Leaves 32768000 self.old self.new asker.now.session
            (L.records log.old) (L.records log.new) (L.clock log.old) (L.clock log.new) }
        ensures others { OtherTenantsStay self.old.database.id index.old index.new }
    {
        // for the proof: the session is one of the eight
        let _ = asker.session.index();
        let class = class_of(&command);
        match self.phases.refusal(class, asker.session) {
            Some(refusal) => return refused(refusal),
            None => {}
        }
        match command {
            Command::OpenSession => {
                self.open(asker.session);
                done()
            }
            Command::EndSession => {
                self.end(log, asker.session);
                done()
            }
            Command::Begin => {
                self.begin(asker.session);
                done()
            }
            Command::Definition(definition) => replied(self.define(
                alloc, index, definition, asker.line,
            )),
            Command::InTransaction(command) => self.work(alloc, log, index, asker, command),
        }
    }
}
