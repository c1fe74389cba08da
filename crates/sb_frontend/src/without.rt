//! A client is told of statements that make no step.
ghost use Rattle.std.specs.Prelude.{◌≡◌, [], IfOk, None, Some, false, is_some, not, true};
ghost use Rattle.sb_postgres.specs.Settings.{setting_of};
ghost use Rattle.sb_postgres.specs.Tags.{tag_of};
ghost use Rattle.sb_frontend.specs.Columns.{one_value};
ghost use Rattle.sb_frontend.specs.Outputs as output;
ghost use Rattle.sb_frontend.specs.Stepless as spec;

use crate::columns::say_value;
use crate::form::Form;
use crate::output::Output;
use crate::report::{Report, say_made};
use sb_postgres::query::{StatementKind, behind_first_word, first_word};
use sb_postgres::told::{Effect, SqlState, VERSION, setting_of};
use sb_value::ColumnType;
use std::alloc::{AllocError, Global};

/// Tells a warning, if it is due.
fn warn(out: &mut Output, is_due: bool, state: SqlState, message: &[u8])
    ensures { output.Says (spec.warning is_due state message.now) out.old out.new }
{
    if is_due {
        out.say_notice("WARNING", state, message);
    }
}

/// Holds the tag of one row back.
fn hold_found(alloc: Global, out: &mut Output)
    ensures { output.Tells [] (Some spec.one_found) out.old out.new }
{
    let mut tag = Vec::new(alloc);
    match tag.extend_from_slice(b"SELECT 1") {
        Ok(()) => out.hold(tag),
        Err(_) => out.fail(),
    }
}

/// Tells one row of one value, and holds its tag back. It goes well.
fn tell_value(
    alloc: Global,
    out: &mut Output,
    form: Form,
    name: &[u8],
    of: ColumnType,
    value: &[u8],
) -> bool
    ensures well { result ≡ true }
    ensures told { output.Tells (one_value form name.now of value.now) (Some spec.one_found) out.old out.new }
{
    say_value(alloc, out, form, name, of, value);
    hold_found(alloc, out);
    true
}

/// Tells the value of a setting. True if there is such a setting.
fn tell_setting(alloc: Global, out: &mut Output, form: Form, name: &[u8]) -> bool
    requires { out.old.held ≡ None }
    ensures well { result ≡ is_some (spec.shown_tag (setting_of name.now)) }
    ensures told { output.TellsSome (spec.TellsSetting form name.now (setting_of name.now)) (spec.shown_tag (setting_of name.now)) out.old out.new }
{
    match setting_of(name) {
        Some(value) => tell_value(alloc, out, form, name, ColumnType::Text, value),
        None => {
            out.say_error(
                SqlState::UndefinedObject,
                b"unrecognized configuration parameter",
            );
            false
        }
    }
}

/// The report of a command that isn't there.
fn report_unsupported(alloc: Global, line: &[u8]) -> Result<Report, AllocError>
    ensures { IfOk result (λ r. (r.state ≡ SqlState.FeatureNotSupported) × (r.message.items ≡ spec.unsupported_text line.now)) }
{
    let mut report = Report::new(alloc, SqlState::FeatureNotSupported);
    report.message.extend_from_slice(first_word(line))?;
    report.message.extend_from_slice(b" is not supported")?;
    Ok(report)
}

/// Tells that a command isn't there. It doesn't go well.
fn tell_unsupported(alloc: Global, out: &mut Output, line: &[u8]) -> bool
    ensures well { result ≡ false }
    ensures told { output.SaysSome (output.FailsBy SqlState.FeatureNotSupported (spec.unsupported_text line.now)) out.old out.new }
{
    let made = report_unsupported(alloc, line);
    say_made(alloc, out, made);
    false
}

/// Warns where there is no transaction.
fn warn_of_none(out: &mut Output, has: bool)
    ensures { output.Says (spec.no_transaction has) out.old out.new }
{
    warn(
        out,
        !has,
        SqlState::NoActiveSqlTransaction,
        b"there is no transaction in progress",
    );
}

/// Warns where a transaction begins or ends that is there already, or isn't there.
fn warn_of(out: &mut Output, kind: StatementKind, has: bool, own: bool)
    ensures { output.Says (spec.warnings kind has own) out.old out.new }
{
    match kind {
        StatementKind::Begin => warn(
            out,
            !own,
            SqlState::ActiveSqlTransaction,
            b"there is already a transaction in progress",
        ),
        StatementKind::Commit => warn_of_none(out, has),
        StatementKind::Rollback => warn_of_none(out, has),
        _ => {}
    }
}

/// Tells what a statement about transactions or settings does, and holds its tag back. It goes well.
fn acknowledge(out: &mut Output, kind: StatementKind, line: &[u8], has: bool, own: bool) -> bool
    ensures well { result ≡ true }
    ensures told { output.Tells (spec.warnings kind has own) (Some (tag_of kind line.now Effect.Done)) out.old out.new }
{
    warn_of(out, kind, has, own);
    out.hold_tag(kind, line, Effect::Done);
    true
}

/// The transaction of a session, as a statement finds it.
#[derive(Clone, Copy)]
pub(crate) struct TransactionState {
    pub(crate) is_open: bool,
    /// It was begun without being asked for.
    pub(crate) is_own: bool,
}

/// Tells what a statement does that makes no step, and holds its tag back. True if it went well.
pub(crate) fn tell_without(
    alloc: Global,
    out: &mut Output,
    form: Form,
    kind: StatementKind,
    line: &[u8],
    transaction: TransactionState,
) -> bool
    requires { out.old.held ≡ None }
    ensures well { result ≡ is_some (spec.without_tag kind line.now) }
    ensures told { output.TellsSome (spec.TellsWithout form kind line.now transaction.is_open transaction.is_own) (spec.without_tag kind line.now) out.old out.new }
{
    match kind {
        StatementKind::Begin => acknowledge(
            out,
            kind,
            line,
            transaction.is_open,
            transaction.is_own,
        ),
        StatementKind::Commit => acknowledge(
            out,
            kind,
            line,
            transaction.is_open,
            transaction.is_own,
        ),
        StatementKind::Rollback => acknowledge(
            out,
            kind,
            line,
            transaction.is_open,
            transaction.is_own,
        ),
        StatementKind::Setting => acknowledge(
            out,
            kind,
            line,
            transaction.is_open,
            transaction.is_own,
        ),
        StatementKind::SelectOne => tell_value(
            alloc,
            out,
            form,
            b"?column?",
            ColumnType::Int,
            b"1",
        ),
        StatementKind::SelectVersion => tell_value(
            alloc,
            out,
            form,
            b"version",
            ColumnType::Text,
            VERSION,
        ),
        StatementKind::SelectSchema => tell_value(
            alloc,
            out,
            form,
            b"current_schema",
            ColumnType::Text,
            b"public",
        ),
        StatementKind::Show => tell_setting(alloc, out, form, behind_first_word(line)),
        StatementKind::Unsupported => tell_unsupported(alloc, out, line),
        StatementKind::Definition => tell_unsupported(alloc, out, line),
        StatementKind::Process => tell_unsupported(alloc, out, line),
        StatementKind::Statement => tell_unsupported(alloc, out, line),
    }
}
