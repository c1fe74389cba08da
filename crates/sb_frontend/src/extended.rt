//! The messages of the extended query.
ghost use Rattle.std.specs.Prelude.{◌≡◌, ◌∷◌, [], List, MatchResult, map, option_copied};
ghost use Rattle.sb_postgres.specs.Answers.{Answered, answered};
ghost use Rattle.sb_postgres.specs.Messages.{said};
ghost use Rattle.sb_frontend.specs.Conversations.{ExtendsBy};
ghost use Rattle.sb_frontend.specs.Extended as spec;
ghost use Rattle.sb_frontend.specs.Names.{named};
ghost use Rattle.sb_frontend.specs.Outputs as output;
ghost use Rattle.sb_frontend.specs.Portals.{IsBound};
ghost use Rattle.sb_frontend.specs.Talking as talking;

use crate::bind::bound;
use crate::conversation::Conversation;
use crate::denial::{Denial, tell_denial};
use crate::describe::Describe;
use crate::form::Form;
use crate::phase::Phase;
use crate::prepare::prepared;
use crate::session::LineSession;
use crate::tell::Teller;
use crate::workbench::BoundPortal;
use sb_postgres::query::Statement;
use sb_postgres::told::SqlState;
use sb_postgres::{ClientMessage, ServerMessage, Target};
use std::sync::Wait;

impl<S: LineSession> Conversation<S> {
    /// Rolls a transaction back that was begun unasked.
    fn give_up<R: Wait>(&mut self, rt: &R)
        ensures given { spec.GivesUpIn self.old.at.spot self.new.at.spot }
        ensures same { self.new ≡ record self.old { at = record self.old.at { spot = self.new.at.spot } } }
    {
        let Some(speaker) = &mut self.speaker else {
            return;
        };
        speaker.give_up(rt, self.alloc);
    }

    /// Tells why a message fails. Messages are skipped up to the next `Sync`.
    fn deny<R: Wait>(&mut self, rt: &R, denial: Denial)
        ensures { talking.Tells (spec.Fails denial) self.old self.new }
    {
        tell_denial(self.alloc, &mut self.out, denial);
        self.phase = Phase::Skipping;
        self.give_up(rt);
    }

    /// Tells how a message ended.
    fn end_with<R: Wait>(&mut self, rt: &R, message: &ServerMessage<'_>, done: Result<(), Denial>)
        ensures { MatchResult done
            (λ _. (self.new.at ≡ self.old.at) × output.Says (answered message.now ∷ []) self.old.out self.new.out)
            (λ why. talking.Tells (spec.Fails why) self.old self.new) }
    {
        match done {
            Ok(()) => self.out.say(message),
            Err(denial) => self.deny(rt, denial),
        }
    }

    /// Prepares the statement of a text.
    fn parse<R: Wait, C: Describe>(
        &mut self,
        rt: &R,
        describe: &C,
        name: &[u8],
        text: &[u8],
        types: &[u32],
    )
        ensures { talking.Tells (spec.Parses name.now text.now types.now) self.old self.new }
    {
        let made = prepared(rt, self.alloc, describe, text, types);
        let done = self.work.prepare(name, made);
        self.end_with(rt, &ServerMessage::ParseComplete, done);
    }

    /// The portal of a prepared statement with values.
    fn bound(
        &self,
        statement: &[u8],
        formats: &[u16],
        values: &[Option<&[u8]>],
        results: &[u16],
    ) -> Result<BoundPortal, Denial>
        ensures { IsBound (named statement.now self.now.at.work.statements) formats.now (map option_copied values.now) results.now result }
    {
        bound(
            self.alloc,
            self.work.statement(statement),
            formats,
            values,
            results,
        )
    }

    /// Puts a portal under a name.
    fn bind<R: Wait>(&mut self, rt: &R, name: &[u8], made: Result<BoundPortal, Denial>)
        ensures { talking.Tells (spec.BindsMade name.now made) self.old self.new }
    {
        let done = self.work.bind(name, made);
        self.end_with(rt, &ServerMessage::BindComplete, done);
    }

    /// Closes a prepared statement or a portal.
    fn close(&mut self, target: Target, name: &[u8])
        ensures { talking.Tells (spec.Closes target name.now) self.old self.new }
    {
        self.work.close(target, name);
        self.out.say(&ServerMessage::CloseComplete);
    }

    /// Tells what is known of a prepared statement.
    fn describe_statement<R: Wait, C: Describe>(&mut self, rt: &R, describe: &C, name: &[u8])
        ensures { talking.Tells (spec.Describes Target.Statement name.now) self.old self.new }
    {
        let teller = Teller {
            rt,
            alloc: self.alloc,
            describe,
            form: Form { described: true },
        };
        match self.work.statement(name) {
            Some(prepared) => teller.describe_prepared(&mut self.out, prepared),
            None => self.deny(rt, Denial::NoStatement),
        }
    }

    /// Tells what is known of a portal.
    fn describe_portal<R: Wait, C: Describe>(&mut self, rt: &R, describe: &C, name: &[u8])
        ensures { talking.Tells (spec.Describes Target.Portal name.now) self.old self.new }
    {
        let teller = Teller {
            rt,
            alloc: self.alloc,
            describe,
            form: Form { described: true },
        };
        match self.work.portal(name) {
            Some(portal) => teller.describe_portal(&mut self.out, portal),
            None => self.deny(rt, Denial::NoPortal),
        }
    }

    /// Plays the statement of a portal.
    fn run<R: Wait, C: Describe>(&mut self, rt: &R, describe: &C, statement: &Statement)
        ensures { talking.Tells (spec.PlaysPortal statement.now.line.items self.old.at.spot) self.old self.new }
    {
        let Some(speaker) = &mut self.speaker else {
            return;
        };
        let teller = Teller {
            rt,
            alloc: self.alloc,
            describe,
            form: Form { described: false },
        };
        self.out.forget();
        if speaker.play_one(&teller, &mut self.out, statement) {
            self.out.complete();
        } else {
            self.phase = Phase::Skipping;
        }
    }

    /// Plays a portal.
    fn execute<R: Wait, C: Describe>(&mut self, rt: &R, describe: &C, name: &[u8], rows: u32)
        ensures { talking.Tells (spec.Executes name.now rows) self.old self.new }
    {
        match self.work.start(name, rows) {
            Ok(Some(statement)) => self.run(rt, describe, &statement),
            Ok(None) => self.out.say(&ServerMessage::EmptyQueryResponse),
            Err(denial) => self.deny(rt, denial),
        }
    }

    /// Commits a transaction that was begun unasked.
    fn commit<R: Wait>(&mut self, rt: &R)
        ensures told { (ms : List Answered) × spec.CommitsIn self.old.at.spot ms self.new.at.spot × output.Says ms self.old.out self.new.out }
        ensures same { self.new.at ≡ record self.old.at { spot = self.new.at.spot } }
    {
        let Some(speaker) = &mut self.speaker else {
            return;
        };
        speaker.commit_own(rt, self.alloc, &mut self.out);
    }

    /// Drops the portals where there is no transaction.
    fn leave_portals(&mut self)
        ensures { self.new ≡ record self.old { at = record self.old.at { work = spec.left_of self.old.at.spot self.old.at.work } } }
    {
        if !self.has_transaction() {
            self.work.close_portals();
        }
    }

    /// Commits a transaction that was begun unasked, and tells that the next query may come, also behind an error.
    pub(crate) fn synchronize<R: Wait>(&mut self, rt: &R)
        ensures { talking.Tells spec.Synchronizes self.old self.new }
    {
        self.phase = Phase::Ready;
        self.commit(rt);
        self.leave_portals();
        self.say_ready();
    }

    /// Answers a message of the extended query.
    pub(crate) fn extend<R: Wait, C: Describe>(
        &mut self,
        rt: &R,
        describe: &C,
        message: &ClientMessage<'_>,
    )
        ensures { talking.Tells (ExtendsBy (said message.now)) self.old self.new }
    {
        match message {
            ClientMessage::Parse { name, text, types } => {
                self.parse(rt, describe, name, text, types);
            }
            ClientMessage::Bind {
                portal,
                statement,
                formats,
                values,
                results,
            } => {
                let made = self.bound(statement, formats, values, results);
                self.bind(rt, portal, made);
            }
            ClientMessage::Describe {
                target: Target::Statement,
                name,
            } => self.describe_statement(rt, describe, name),
            ClientMessage::Describe {
                target: Target::Portal,
                name,
            } => self.describe_portal(rt, describe, name),
            ClientMessage::Execute { portal, rows } => self.execute(rt, describe, portal, *rows),
            ClientMessage::Close { target, name } => self.close(*target, name),
            _ => self.turn_away(
                SqlState::ProtocolViolation,
                b"this message is not expected here",
            ),
        }
    }
}
