//! The messages of refusals.
ghost use Rattle.std.specs.Prelude.{◌≡◌, ◌++◌, OnOk, option_copied};
ghost use Rattle.sb_postgres.specs.Wordings as spec;

use sb_value::Refusal;
use std::alloc::AllocError;

/// The words of a message: before and behind the name of what it is about, and those without a name.
#[derive(Clone, Copy)]
pub(crate) struct Words {
    before: &'static str,
    behind: &'static str,
    alone: &'static str,
}

const fn make_words(before: &'static str, behind: &'static str, alone: &'static str) -> Words
    ensures before { result.before.now ≡ before.now }
    ensures behind { result.behind.now ≡ behind.now }
    ensures alone { result.alone.now ≡ alone.now }
{
    Words {
        before,
        behind,
        alone,
    }
}

fn words_of(refusal: &Refusal) -> Words
    ensures { spec.seen result ≡ spec.words_of refusal.now }
{
    match refusal {
        Refusal::Syntax => make_words("syntax error at or near \"", "\"", "syntax error"),
        Refusal::NoTable => make_words(
            "relation \"",
            "\" does not exist",
            "the relation does not exist",
        ),
        Refusal::TableExists => make_words(
            "relation \"",
            "\" already exists",
            "the relation already exists",
        ),
        Refusal::NoColumn => make_words(
            "column \"",
            "\" does not exist",
            "the column does not exist",
        ),
        Refusal::BadType => make_words(
            "values of \"",
            "\" are of another type",
            "the values are of another type",
        ),
        Refusal::Ambiguous => make_words(
            "name \"",
            "\" is specified more than once",
            "the name is specified more than once",
        ),
        Refusal::WrongCount => make_words(
            "INSERT into \"",
            "\" has another number of expressions than target columns",
            "INSERT has another number of expressions than target columns",
        ),
        Refusal::BadTransition => make_words(
            "transition table \"",
            "\" does not exist here",
            "the transition table does not exist here",
        ),
        Refusal::Overflow => make_words("bigint out of range in \"", "\"", "bigint out of range"),
        Refusal::TooBig => make_words(
            "statement on \"",
            "\" would look at too many combinations of rows",
            "the statement would look at too many combinations of rows",
        ),
        Refusal::TooManyRows => make_words(
            "statement on \"",
            "\" has too many rows",
            "the statement has too many rows",
        ),
        Refusal::Locked(_) => make_words(
            "could not obtain lock on relation \"",
            "\"",
            "could not obtain lock on the relation",
        ),
        Refusal::InTransaction => make_words(
            "\"",
            "\" cannot run inside a transaction block",
            "this cannot run inside a transaction block",
        ),
        Refusal::NoTransaction => make_words(
            "\"",
            "\" can only be used in transaction blocks",
            "there is no transaction in progress",
        ),
        Refusal::Busy => make_words(
            "\"",
            "\" cannot run while another session has a transaction",
            "another session has a transaction",
        ),
        Refusal::NotOpen => make_words("session \"", "\" is not open", "the session is not open"),
        Refusal::AlreadyOpen => make_words("session \"", "\" is in use", "the session is in use"),
        Refusal::NoRule => make_words("rule \"", "\" does not exist", "the rule does not exist"),
        Refusal::RuleExists => make_words(
            "rule \"",
            "\" already exists",
            "the rule already exists",
        ),
        Refusal::Cycle => make_words(
            "rule \"",
            "\" would precede itself",
            "a rule would precede itself",
        ),
        Refusal::TooManyRules => make_words(
            "no place for rule \"",
            "\": there are too many",
            "there are too many rules",
        ),
        Refusal::NoRuleset => make_words(
            "ruleset \"",
            "\" does not exist",
            "the ruleset does not exist",
        ),
        Refusal::RulesetExists => make_words(
            "ruleset \"",
            "\" already exists",
            "the ruleset already exists",
        ),
        Refusal::TooManyRulesets => make_words(
            "no place for ruleset \"",
            "\": there are too many",
            "there are too many rulesets",
        ),
        Refusal::TableInUse => make_words(
            "cannot drop table \"",
            "\" because rules depend on it",
            "cannot drop the table because rules depend on it",
        ),
        Refusal::TooManyTables => make_words(
            "no place for relation \"",
            "\": there are too many",
            "there are too many tables",
        ),
        Refusal::TrailFull => make_words(
            "the trail of database \"",
            "\" is full",
            "the trail of the database is full",
        ),
        Refusal::NoMemory => make_words(
            "out of memory at \"",
            "\"; the transaction is rolled back",
            "out of memory; the transaction is rolled back",
        ),
    }
}

/// Adds the message of a refusal, with the name of what it is about, if that is known.
pub fn push_message(
    out: &mut Vec<u8>,
    refusal: &Refusal,
    about: Option<&[u8]>,
) -> Result<(), AllocError>
    ensures { OnOk result (out.new.items ≡ out.old.items ++ spec.message_of refusal.now (option_copied about.entry)) }
{
    let words = words_of(refusal);
    match about {
        Some(name) => {
            out.extend_from_slice(words.before.as_bytes())?;
            out.extend_from_slice(name)?;
            out.extend_from_slice(words.behind.as_bytes())
        }
        None => out.extend_from_slice(words.alone.as_bytes()),
    }
}
