//! A client is told the replies to its statements.
ghost use Rattle.std.specs.Prelude.{◌≡◌, ◌++◌, [], IfOk, None, OnOk, Some, codes, false, is_some, true};
ghost use Rattle.sb_postgres.specs.Kinds.{kind_of};
ghost use Rattle.sb_postgres.specs.SqlStates.{state_of};
ghost use Rattle.sb_postgres.specs.Tags.{tag_of};
ghost use Rattle.sb_frontend.specs.Outputs as output;
ghost use Rattle.sb_frontend.specs.Replies.{goes_well, replied};
ghost use Rattle.sb_frontend.specs.Tellings as spec;

use crate::columns::say_columns;
use crate::considered::{note, push_considered};
use crate::describe::Describe;
use crate::form::Form;
use crate::output::Output;
use crate::reply::Reply;
use crate::report::{Report, push_position, say_made};
use sb_postgres::query::{Statement, StatementKind, first_word, kind_of};
use sb_postgres::told::{Effect, SqlState, push_message};
use sb_rows::SharedRows;
use sb_value::{Name, Refusal, Verdict};
use std::alloc::{AllocError, Global};
use std::sync::Wait;

/// Tells a client what its statements were replied.
pub(crate) struct Teller<'a, R, C> {
    pub(crate) rt: &'a R,
    pub(crate) alloc: Global,
    pub(crate) describe: &'a C,
    pub(crate) form: Form,
}

impl<'a, R, C> Drop for Teller<'a, R, C> {
    fn drop(self) {
        let Teller {
            rt: _,
            alloc: _,
            describe: _,
            form: _,
        } = self;
    }
}

/// Adds `rule "r"`.
fn push_rule(out: &mut Vec<u8>, rule: &Name) -> Result<(), AllocError>
    ensures { OnOk result (out.new.items ≡ out.old.items ++ codes "rule \"" ++ rule.now ++ codes "\"") }
{
    out.extend_from_slice(b"rule \"")?;
    out.extend_from_slice(rule.as_slice())?;
    out.extend_from_slice(b"\"")
}

/// The report of a rule's `rollback`.
fn report_by_rule(
    alloc: Global,
    rule: &Name,
    rules: &[(Name, Verdict)],
) -> Result<Report, AllocError>
    ensures { IfOk result (λ r. (r.state ≡ SqlState.RaiseException) × (r.message.items ≡ spec.by_rule_text rule.now)) }
{
    let mut report = Report::new(alloc, SqlState::RaiseException);
    push_rule(&mut report.message, rule)?;
    report
        .message
        .extend_from_slice(b" rolled the transaction back")?;
    push_considered(&mut report.detail, rules)?;
    Ok(report)
}

/// The report of an error in a rule.
fn report_by_error(
    alloc: Global,
    rule: &Name,
    error: &Refusal,
    rules: &[(Name, Verdict)],
) -> Result<Report, AllocError>
    ensures { IfOk result (λ r. (r.state ≡ state_of false error.now) × spec.IsMessageOf error.now r.message.items) }
{
    let mut report = report_plain(alloc, error)?;
    push_rule(&mut report.context, rule)?;
    push_considered(&mut report.detail, rules)?;
    Ok(report)
}

/// The report of a limit that was reached.
fn report_by_limit(alloc: Global, rules: &[(Name, Verdict)]) -> Result<Report, AllocError>
    ensures { IfOk result (λ r. (r.state ≡ SqlState.StatementTooComplex) × (r.message.items ≡ spec.by_limit_text)) }
{
    let mut report = Report::new(alloc, SqlState::StatementTooComplex);
    report.message.extend_from_slice(
        b"a rule is still triggered behind the last consideration that is allowed",
    )?;
    push_considered(&mut report.detail, rules)?;
    Ok(report)
}

/// Adds the message of a refusal without a statement. A lock tells its table.
fn push_plain(out: &mut Vec<u8>, refusal: &Refusal) -> Result<(), AllocError>
    requires { out.old.items ≡ [] }
    ensures { OnOk result (spec.IsMessageOf refusal.now out.new.items) }
{
    match refusal {
        Refusal::Locked(table) => push_message(out, refusal, Some(table.as_slice())),
        _ => push_message(out, refusal, None),
    }
}

/// The report of a refusal without a statement.
fn report_plain(alloc: Global, refusal: &Refusal) -> Result<Report, AllocError>
    ensures { IfOk result (λ r. (r.state ≡ state_of false refusal.now) × spec.IsMessageOf refusal.now r.message.items) }
{
    let mut report = Report::new(alloc, SqlState::of_refusal(refusal, false));
    push_plain(&mut report.message, refusal)?;
    Ok(report)
}

/// Tells a rule's `rollback`.
fn tell_by_rule(alloc: Global, out: &mut Output, rule: &Name, rules: &[(Name, Verdict)])
    ensures { output.SaysSome (output.FailsBy SqlState.RaiseException (spec.by_rule_text rule.now)) out.old out.new }
{
    let made = report_by_rule(alloc, rule, rules);
    say_made(alloc, out, made);
}

/// Tells an error in a rule.
fn tell_by_error(
    alloc: Global,
    out: &mut Output,
    rule: &Name,
    error: &Refusal,
    rules: &[(Name, Verdict)],
)
    ensures { output.SaysSome (spec.Refuses false error.now) out.old out.new }
{
    let made = report_by_error(alloc, rule, error, rules);
    say_made(alloc, out, made);
}

/// Tells a limit that was reached.
fn tell_by_limit(alloc: Global, out: &mut Output, rules: &[(Name, Verdict)])
    ensures { output.SaysSome (output.FailsBy SqlState.StatementTooComplex spec.by_limit_text) out.old out.new }
{
    let made = report_by_limit(alloc, rules);
    say_made(alloc, out, made);
}

/// Tells a refusal without a statement.
fn tell_plain(alloc: Global, out: &mut Output, refusal: &Refusal)
    ensures { output.SaysSome (spec.Refuses false refusal.now) out.old out.new }
{
    let made = report_plain(alloc, refusal);
    say_made(alloc, out, made);
}

/// Tells that a step was not begun.
fn tell_unbegun(out: &mut Output)
    ensures { output.SaysSome (output.FailsBy SqlState.OutOfMemory spec.unbegun_text) out.old out.new }
{
    out.say_error(
        SqlState::OutOfMemory,
        b"out of memory: the step was not begun",
    );
}

/// Tells what a `begin` or a `commit` was replied that no client wrote. True if it went well.
pub(crate) fn tell_own(alloc: Global, out: &mut Output, reply: Reply<'_>) -> bool
    ensures well { result ≡ goes_well (replied reply.entry) }
    ensures told { output.SaysSome (spec.TellsOwn (replied reply.entry)) out.old out.new }
{
    match reply {
        Reply::Done => true,
        Reply::Changed(_) => true,
        Reply::Found(_) => true,
        Reply::Processed(rules) => {
            note(alloc, out, rules);
            true
        }
        Reply::ByRule { rule, rules } => {
            tell_by_rule(alloc, out, rule, rules);
            false
        }
        Reply::ByError { rule, error, rules } => {
            tell_by_error(alloc, out, rule, error, rules);
            false
        }
        Reply::ByLimit(rules) => {
            tell_by_limit(alloc, out, rules);
            false
        }
        Reply::Refused(refusal) => {
            tell_plain(alloc, out, refusal);
            false
        }
        Reply::NotBegun => {
            tell_unbegun(out);
            false
        }
    }
}

/// The part of a line around the place of a syntax error: the word there, or the byte, or nothing at its end.
fn near(line: &[u8], place: usize) -> Option<&[u8]> {
    let rest = line.get(place..)?;
    match first_word(rest) {
        [] => rest.get(..1),
        word => Some(word),
    }
}

/// The place of a statement's byte in the client's text, or of the statement's end, if it is known.
fn place_in_text(statement: &Statement, place: usize) -> Option<usize> {
    match statement.origin(place) {
        Some(at) => Some(at),
        None => match statement.origins.last() {
            Some(last) => Some(last.saturating_add(1)),
            None => None,
        },
    }
}

/// Adds a place in the client's text, if it is known.
fn push_place(out: &mut Vec<u8>, place: Option<usize>) -> Result<(), AllocError> {
    match place {
        Some(at) => push_position(out, at),
        None => Ok(()),
    }
}

/// Adds the message of a syntax error at this place of a line.
fn push_syntax(out: &mut Vec<u8>, line: &[u8], place: usize) -> Result<(), AllocError>
    requires { out.old.items ≡ [] }
    ensures { OnOk result (spec.IsMessageOf Refusal.Syntax out.new.items) }
{
    match near(line, place) {
        Some(word) => push_message(out, &Refusal::Syntax, Some(word)),
        None => out.extend_from_slice(b"syntax error at end of input"),
    }
}

fn defines(kind: StatementKind) -> bool
    ensures { result ≡ spec.defines kind }
{
    matches!(kind, StatementKind::Definition)
}

/// Holds the tag of a statement back, which went well.
fn hold(out: &mut Output, line: &[u8], effect: Effect) -> bool
    ensures well { result ≡ true }
    ensures told { output.Tells [] (Some (tag_of (kind_of line.now) line.now effect)) out.old out.new }
{
    out.hold_tag(kind_of(line), line, effect);
    true
}

impl<'a, R: Wait, C: Describe> Teller<'a, R, C> {
    /// The report of a statement that is no command, with the place in the client's text.
    fn report_syntax(&self, statement: &Statement) -> Result<Report, AllocError>
        ensures { IfOk result (λ r. (r.state ≡ SqlState.SyntaxError) × spec.IsMessageOf Refusal.Syntax r.message.items) }
    {
        let line = statement.line.as_slice();
        let place = self.describe.syntax_place(self.alloc, line);
        let mut report = Report::new(self.alloc, SqlState::SyntaxError);
        push_syntax(&mut report.message, line, place)?;
        push_place(&mut report.position, place_in_text(statement, place))?;
        Ok(report)
    }

    /// Adds the message of a refusal, with the name of what it is about, if that is known.
    fn push_about(
        &self,
        out: &mut Vec<u8>,
        line: &[u8],
        refusal: &Refusal,
    ) -> Result<(), AllocError>
        requires { out.old.items ≡ [] }
        ensures { OnOk result (spec.IsMessageOf refusal.now out.new.items) }
    {
        match refusal {
            Refusal::InTransaction | Refusal::NoTransaction | Refusal::Busy => {
                push_message(out, refusal, Some(first_word(line)))
            }
            _ => match self.describe.about(self.rt, self.alloc, line, refusal)? {
                Some(name) => push_message(out, refusal, Some(name.as_slice())),
                None => push_message(out, refusal, None),
            },
        }
    }

    /// The report of a refused statement.
    fn report_refusal(&self, statement: &Statement, refusal: &Refusal) -> Result<Report, AllocError>
        ensures { IfOk result (λ r. (r.state ≡ state_of (spec.defines (kind_of statement.now.line.items)) refusal.now) × spec.IsMessageOf refusal.now r.message.items) }
    {
        if let Refusal::Syntax = refusal {
            return self.report_syntax(statement);
        }
        let line = statement.line.as_slice();
        let state = SqlState::of_refusal(refusal, defines(kind_of(line)));
        let mut report = Report::new(self.alloc, state);
        self.push_about(&mut report.message, line, refusal)?;
        Ok(report)
    }

    /// Tells a refusal of a statement.
    fn tell_refusal(&self, out: &mut Output, statement: &Statement, refusal: &Refusal)
        ensures { output.SaysSome (spec.Refuses (spec.defines (kind_of statement.now.line.items)) refusal.now) out.old out.new }
    {
        let made = self.report_refusal(statement, refusal);
        say_made(self.alloc, out, made);
    }

    /// Tells the columns of a query's rows, unless they were told before.
    fn tell_columns(&self, out: &mut Output, line: &[u8])
        ensures { output.SaysSome (spec.AreColumns self.now.form) out.old out.new }
    {
        match self.describe.columns_of(self.rt, self.alloc, line) {
            Ok(headings) => say_columns(self.alloc, out, self.form, &headings),
            Err(_) => out.fail(),
        }
    }

    /// Tells the columns of a query's rows, and the rows.
    fn tell_rows(&self, out: &mut Output, line: &[u8], rows: &SharedRows)
        ensures { output.SaysSome (spec.TellsRows self.now.form rows.now) out.old out.new }
    {
        self.tell_columns(out, line);
        out.say_rows(rows);
    }

    /// Tells the reply to a statement, and holds its tag back. True if it went well.
    pub(crate) fn tell_reply(
        &self,
        out: &mut Output,
        statement: &Statement,
        reply: Reply<'_>,
    ) -> bool
        requires { out.old.held ≡ None }
        ensures well { result ≡ is_some (spec.reply_tag (kind_of statement.now.line.items) statement.now.line.items (replied reply.entry)) }
        ensures told { output.TellsSome (spec.TellsReply self.now.form (kind_of statement.now.line.items) (replied reply.entry))
            (spec.reply_tag (kind_of statement.now.line.items) statement.now.line.items (replied reply.entry)) out.old out.new }
    {
        let line = statement.line.as_slice();
        match reply {
            Reply::Done => hold(out, line, Effect::Done),
            Reply::Changed(count) => hold(out, line, Effect::Changed(count)),
            Reply::Found(rows) => {
                self.tell_rows(out, line, rows);
                hold(out, line, Effect::Found(rows.len() as u64))
            }
            Reply::Processed(rules) => {
                note(self.alloc, out, rules);
                hold(out, line, Effect::Done)
            }
            Reply::ByRule { rule, rules } => {
                tell_by_rule(self.alloc, out, rule, rules);
                false
            }
            Reply::ByError { rule, error, rules } => {
                tell_by_error(self.alloc, out, rule, error, rules);
                false
            }
            Reply::ByLimit(rules) => {
                tell_by_limit(self.alloc, out, rules);
                false
            }
            Reply::Refused(refusal) => {
                self.tell_refusal(out, statement, refusal);
                false
            }
            Reply::NotBegun => {
                tell_unbegun(out);
                false
            }
        }
    }
}
