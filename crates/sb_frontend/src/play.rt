//! The statements of a query, played on a session.
ghost use Rattle.std.specs.Prelude.{ℕ, ◌≡◌, ◌<◌, ◌&&◌, IsTrue, List, None, Option, false, is_some, not, option_copied};
ghost use Rattle.sb_postgres.specs.Answers.{Answered};
ghost use Rattle.sb_postgres.specs.Kinds.{kind_of};
ghost use Rattle.sb_postgres.specs.Lines.{Lines, end};
ghost use Rattle.sb_postgres.specs.Statements.{HasLines, Leaves, bytes_left};
ghost use Rattle.sb_frontend.specs.Columns.{with_columns};
ghost use Rattle.sb_frontend.specs.Outputs as output;
ghost use Rattle.sb_frontend.specs.Plays as spec;
ghost use Rattle.sb_frontend.specs.Replies.{Replied, goes_well};
ghost use Rattle.sb_frontend.specs.Stepless.{TellsWithout, without_tag};
ghost use Rattle.sb_frontend.specs.Tellings as tellings;

use crate::describe::Describe;
use crate::form::Form;
use crate::output::Output;
use crate::script::tell_unread;
use crate::session::LineSession;
use crate::tell::{Teller, tell_own};
use crate::without::{TransactionState, tell_without};
use sb_postgres::ServerMessage;
use sb_postgres::query::{QueryError, Statement, StatementKind, Statements, kind_of};
use std::alloc::Global;
use std::marker::Model;
use std::sync::Wait;

/// A session, and whether its transaction was begun without being asked for.
#[derive(Drop)]
pub(crate) struct Speaker<S: LineSession> {
    pub(crate) session: S,
    own: bool,
}

impl<S: LineSession> Model for Speaker<S> {
    ghost use Rattle.sb_frontend.specs.Plays.{Spot};

    ghost Value = { Spot };

    ghost view = { λ s. record {
      tenant = S.tenant s.session;
      number = S.number s.session;
      exchanges = S.exchanges s.session;
      has = S.has s.session;
      own = s.own;
    } };
}

fn needs_transaction(kind: StatementKind) -> bool
    ensures { result ≡ spec.needs_transaction kind }
{
    matches!(kind, StatementKind::Process | StatementKind::Statement)
}

/// The line of a statement, by whether there is a transaction.
fn line_for(kind: StatementKind, has: bool, line: &[u8]) -> Option<&[u8]>
    ensures { option_copied result ≡ spec.line_for kind has line.now }
{
    match kind {
        StatementKind::Begin if !has => Some(b"begin"),
        StatementKind::Commit if has => Some(b"commit"),
        StatementKind::Rollback if has => Some(b"rollback"),
        StatementKind::Definition | StatementKind::Process | StatementKind::Statement => Some(line),
        _ => None,
    }
}

/// The line of a statement, if it makes a step.
fn line_of(statement: &Statement, has: bool) -> Option<&[u8]>
    ensures { option_copied result ≡ spec.line_for (kind_of statement.now.line.items) has statement.now.line.items }
{
    let line = statement.line.as_slice();
    line_for(kind_of(line), has, line)
}

/// True if a transaction is to be begun for a statement.
fn needs_begin(statement: &Statement, has: bool) -> bool
    ensures { result ≡ (spec.needs_transaction (kind_of statement.now.line.items) && not has) }
{
    needs_transaction(kind_of(statement.line.as_slice())) && !has
}

/// Tells what a statement does that makes no step, and holds its tag back. True if it went well.
fn tell_stepless(
    alloc: Global,
    out: &mut Output,
    form: Form,
    statement: &Statement,
    has: bool,
    own: bool,
) -> bool
    requires { out.old.held ≡ None }
    ensures well { result ≡ is_some (without_tag (kind_of statement.now.line.items) statement.now.line.items) }
    ensures told { output.TellsSome (TellsWithout form (kind_of statement.now.line.items) statement.now.line.items has own)
        (without_tag (kind_of statement.now.line.items) statement.now.line.items) out.old out.new }
{
    let line = statement.line.as_slice();
    let transaction = TransactionState {
        is_open: has,
        is_own: own,
    };
    tell_without(alloc, out, form, kind_of(line), line, transaction)
}

fn own_after(kind: StatementKind, own: bool) -> bool
    ensures { result ≡ spec.own_after kind own }
{
    match kind {
        StatementKind::Begin | StatementKind::Commit | StatementKind::Rollback => false,
        _ => own,
    }
}

impl<S: LineSession> Speaker<S> {
    /// A session that was just opened.
    pub(crate) fn new(session: S) -> Speaker<S>
        ensures { result ≡ record { tenant = S.tenant session; number = S.number session; exchanges = S.exchanges session; has = S.has session; own = false } }
    {
        Speaker {
            session,
            own: false,
        }
    }

    /// The session.
    pub(crate) fn into_session(self) -> S
        ensures { (self.exchanges ≡ S.exchanges result) × (self.has ≡ S.has result) }
    {
        let Speaker { session, own: _ } = self;
        session
    }

    /// True if the session has a transaction.
    pub(crate) fn has_transaction(&self) -> bool
        ensures { result ≡ self.now.has }
    {
        self.session.has_transaction()
    }

    /// True if a transaction that it may have was begun without being asked for.
    fn is_own(&self) -> bool
        ensures { result ≡ self.now.own }
    {
        self.own
    }

    /// True if its transaction was begun without being asked for.
    fn has_own(&self) -> bool
        ensures { result ≡ (self.now.own && self.now.has) }
    {
        self.own && self.session.has_transaction()
    }

    /// Calls the session with a line that the client didn't write, and tells what is to be told of the reply. True if it
    /// went well.
    fn call_own<R: Wait>(&mut self, rt: &R, alloc: Global, out: &mut Output, line: &[u8]) -> bool
        ensures { (reply : Replied) × spec.Calls line.now reply self.old self.new
            × output.SaysSome (tellings.TellsOwn reply) out.old out.new × (result ≡ goes_well reply) }
    {
        self.session.call(rt, alloc, line);
        tell_own(alloc, out, self.session.reply())
    }

    /// Begins a transaction, if one is needed. True if it went well.
    fn begin_for<R: Wait>(&mut self, rt: &R, alloc: Global, out: &mut Output, needed: bool) -> bool
        ensures { (ms : List Answered) × spec.Begins needed self.old ms result self.new × output.Says ms out.old out.new }
    {
        if !needed {
            return true;
        }
        self.own = true;
        self.call_own(rt, alloc, out, b"begin")
    }

    /// Commits a transaction that was begun unasked. True if it went well.
    pub(crate) fn commit_own<R: Wait>(&mut self, rt: &R, alloc: Global, out: &mut Output) -> bool
        ensures { (ms : List Answered) × spec.Commits self.old ms result self.new × output.Says ms out.old out.new }
    {
        let has_own = self.has_own();
        self.own = false;
        if !has_own {
            return true;
        }
        self.call_own(rt, alloc, out, b"commit")
    }

    /// Rolls a transaction back that was begun unasked.
    pub(crate) fn give_up<R: Wait>(&mut self, rt: &R, alloc: Global)
        ensures { spec.GivesUp self.old self.new }
    {
        let has_own = self.has_own();
        self.own = false;
        if has_own {
            self.session.call(rt, alloc, b"rollback");
        }
    }

    /// Calls the session with this line of a statement, and tells its reply. True if it went well.
    fn send_line<R: Wait, C: Describe>(
        &mut self,
        teller: &Teller<'_, R, C>,
        out: &mut Output,
        statement: &Statement,
        sent: &[u8],
    ) -> bool
        requires { out.old.held ≡ None }
        ensures { (reply : Replied) × spec.Calls sent.now reply self.old self.new
            × output.TellsSome (tellings.TellsReply teller.now.form (kind_of statement.now.line.items) reply) (tellings.reply_tag (kind_of statement.now.line.items) statement.now.line.items reply) out.old out.new
            × (result ≡ is_some (tellings.reply_tag (kind_of statement.now.line.items) statement.now.line.items reply)) }
    {
        self.session.call(teller.rt, teller.alloc, sent);
        teller.tell_reply(out, statement, self.session.reply())
    }

    /// Calls the session with the line of a statement, if it has one, and tells what came of it. True if it went well.
    fn send<R: Wait, C: Describe>(
        &mut self,
        teller: &Teller<'_, R, C>,
        out: &mut Output,
        statement: &Statement,
    ) -> bool
        requires { out.old.held ≡ None }
        ensures { (ms : List Answered) × (tag : Option (List ℕ))
            × spec.Sends teller.now.form (kind_of statement.now.line.items) statement.now.line.items (spec.line_for (kind_of statement.now.line.items) self.old.has statement.now.line.items) self.old ms tag self.new
            × (result ≡ is_some tag) × output.Tells ms tag out.old out.new }
    {
        let has = self.has_transaction();
        match line_of(statement, has) {
            Some(sent) => self.send_line(teller, out, statement, sent),
            None => tell_stepless(
                teller.alloc,
                out,
                teller.form,
                statement,
                has,
                self.is_own(),
            ),
        }
    }

    /// Sends the line of a statement. A transaction of its own ends where it goes wrong. True if it went well.
    fn run<R: Wait, C: Describe>(
        &mut self,
        teller: &Teller<'_, R, C>,
        out: &mut Output,
        statement: &Statement,
    ) -> bool
        requires { out.old.held ≡ None }
        ensures { (ms : List Answered) × (tag : Option (List ℕ)) × spec.Runs teller.now.form statement.now.line.items self.old ms tag self.new
            × (result ≡ is_some tag) × output.Tells ms tag out.old out.new }
    {
        if self.send(teller, out, statement) {
            self.own = own_after(kind_of(statement.line.as_slice()), self.own);
            return true;
        }
        self.give_up(teller.rt, teller.alloc);
        false
    }

    /// Plays a statement. True if it went well.
    pub(crate) fn play_one<R: Wait, C: Describe>(
        &mut self,
        teller: &Teller<'_, R, C>,
        out: &mut Output,
        statement: &Statement,
    ) -> bool
        requires { out.old.held ≡ None }
        ensures { (ms : List Answered) × (tag : Option (List ℕ)) × spec.PlaysOne teller.now.form statement.now.line.items self.old ms tag self.new
            × (result ≡ is_some tag) × output.Tells ms tag out.old out.new }
    {
        let needed = needs_begin(statement, self.has_transaction());
        if self.begin_for(teller.rt, teller.alloc, out, needed) {
            return self.run(teller, out, statement);
        }
        self.give_up(teller.rt, teller.alloc);
        false
    }

    /// Ends a query whose next statement can't be read.
    fn break_off<R: Wait>(&mut self, rt: &R, alloc: Global, out: &mut Output, error: QueryError)
        ensures { (tag : Option (List ℕ)) → output.Holds tag out.old → (ls : Lines) → spec.IsEndedBy error ls
            → (ms : List Answered) × spec.PlaysAll tag ls self.old ms self.new × output.Extends ms out.old out.new }
    {
        out.complete();
        tell_unread(alloc, out, error);
        self.give_up(rt, alloc);
    }

    /// Ends a query behind its last statement.
    fn finish<R: Wait>(&mut self, rt: &R, alloc: Global, out: &mut Output)
        ensures { (tag : Option (List ℕ)) → output.Holds tag out.old
            → (ms : List Answered) × spec.PlaysAll tag end self.old ms self.new × output.Extends ms out.old out.new }
    {
        if self.commit_own(rt, alloc, out) {
            out.complete();
        } else {
            out.forget();
        }
    }

    /// Plays the next statement of a query. True if the query goes on behind it.
    fn play_next<R: Wait, C: Describe>(
        &mut self,
        teller: &Teller<'_, R, C>,
        out: &mut Output,
        statements: &mut Statements<'_>,
    ) -> bool
        requires { teller.now.form ≡ with_columns }
        ensures played { (tag : Option (List ℕ)) → output.Holds tag out.old → (ls : Lines) → Leaves statements.old ls
            → (ms : List Answered) × output.Extends ms out.old out.new
            × spec.GoesOn tag ls self.old ms result (λ next more. output.Holds next out.new × Leaves statements.new more) self.new }
        ensures shorter { IsTrue result → bytes_left statements.new < bytes_left statements.old }
    {
        let statement = match statements.next_statement(teller.alloc) {
            Ok(Some(statement)) => statement,
            Ok(None) => {
                self.finish(teller.rt, teller.alloc, out);
                return false;
            }
            Err(error) => {
                self.break_off(teller.rt, teller.alloc, out, error);
                return false;
            }
        };
        out.complete();
        self.play_one(teller, out, &statement)
    }

    /// Plays the statements that are left of a query's text, and tells the tag of each behind it.
    fn play_all<R: Wait, C: Describe>(
        &mut self,
        teller: &Teller<'_, R, C>,
        out: &mut Output,
        statements: &mut Statements<'_>,
    )
        requires { teller.now.form ≡ with_columns }
        ensures { (tag : Option (List ℕ)) → output.Holds tag out.old → (ls : Lines) → Leaves statements.old ls
            → (ms : List Answered) × spec.PlaysAll tag ls self.old ms self.new × output.Extends ms out.old out.new }
    {
        'statements: while self.play_next(teller, out, statements) {}
    }

    /// Plays the statements of a query's text.
    pub(crate) fn play_query<R: Wait, C: Describe>(
        &mut self,
        teller: &Teller<'_, R, C>,
        out: &mut Output,
        text: &[u8],
    )
        requires { teller.now.form ≡ with_columns }
        ensures { (ls : Lines) × HasLines 0 text.now ls
            × (ms : List Answered) × spec.Queries ls self.old ms self.new × output.Extends ms out.old out.new }
    {
        out.forget();
        match has_statement(teller.alloc, text) {
            Ok(true) => self.play_all(teller, out, &mut Statements::new(text)),
            Ok(false) => out.say(&ServerMessage::EmptyQueryResponse),
            Err(error) => tell_unread(teller.alloc, out, error),
        }
    }
}

/// True if a text has a statement. Error: its first fault, or out of memory.
fn has_statement(alloc: Global, text: &[u8]) -> Result<bool, QueryError>
    ensures { (ls : Lines) × HasLines 0 text.now ls × spec.IsLookedAt ls result }
{
    let mut statements = Statements::new(text);
    statements.check(alloc)?;
    let first = statements.next_statement(alloc)?;
    Ok(first.is_some())
}
