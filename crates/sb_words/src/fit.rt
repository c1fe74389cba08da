//! The first part of a command line that isn't allowed.
ghost use Rattle.std.specs.Prelude.{◌≡◌, ◌↔◌, IsTrue, MatchOption, None, Some};
ghost use Rattle.clap.specs.Words.{rows_of, found_of};
ghost use Rattle.sb_words.specs.Asking as spec;
ghost use Rattle.sb_words.specs.Asking.{AllFit, AreAllowed, Fits, IsFirstGiven, IsFirstOf, IsFirstUnfit, IsUnfit, IsWrong, LacksNumber, LacksWord, NoneGiven};
ghost use Rattle.sb_words.specs.Arguments.{range_of};

use crate::argument::{Argument, PARTS, Unfit};
use crate::given::text_at;
use crate::meaning::{JOURNAL_ACTIONS, RENEW_POLICIES, SEVERITIES, SYNCS, meaning_of};
use crate::number::number;
use clap::ArgMatches;

/// The first part of a command that isn't allowed. None: all are allowed.
pub(crate) fn first_unfit<'a>(matches: &ArgMatches<'a>) -> Option<Unfit<'a>>
    ensures { MatchOption result (AreAllowed (rows_of (found_of matches.now))) (IsFirstUnfit (rows_of (found_of matches.now))) }
{
    first_among(matches, &PARTS)
}

/// The first of these parts that is given.
pub(crate) fn first_given<'a>(matches: &ArgMatches<'a>, parts: &[Argument]) -> Option<Unfit<'a>>
    ensures { MatchOption result (NoneGiven (rows_of (found_of matches.now)) parts.now)
        (λ u. IsFirstGiven (rows_of (found_of matches.now)) u parts.now) }
{
    for part in parts {
        match given_at(matches, *part) {
            Some(given) => return Some(given),
            None => {}
        }
    }
    None
}

/// The part, if it is given.
fn given_at<'a>(matches: &ArgMatches<'a>, part: Argument) -> Option<Unfit<'a>>
    ensures { MatchOption result (spec.text_at (rows_of (found_of matches.now)) part ≡ None)
        (λ u. (spec.text_at (rows_of (found_of matches.now)) part ≡ Some u.text.now) × (u.part ≡ part)) }
{
    match text_at(matches, part) {
        Some(text) => Some(Unfit { part, text }),
        None => None,
    }
}

/// The first of these parts that isn't allowed.
fn first_among<'a>(matches: &ArgMatches<'a>, parts: &[Argument]) -> Option<Unfit<'a>>
    ensures { MatchOption result (AllFit (rows_of (found_of matches.now)) parts.now)
        (λ u. IsFirstOf (rows_of (found_of matches.now)) u parts.now) }
{
    for part in parts {
        match unfit_at(matches, *part) {
            Some(unfit) => return Some(unfit),
            None => {}
        }
    }
    None
}

/// The part, if it isn't allowed.
fn unfit_at<'a>(matches: &ArgMatches<'a>, part: Argument) -> Option<Unfit<'a>>
    ensures { MatchOption result (Fits (rows_of (found_of matches.now)) part)
        (λ u. IsUnfit (rows_of (found_of matches.now)) part u.text.now × (u.part ≡ part)) }
{
    let Some(text) = text_at(matches, part) else {
        return None;
    };
    if is_wrong(matches, part, text) {
        Some(Unfit { part, text })
    } else {
        None
    }
}

/// True if a text isn't what the part has to be.
fn is_wrong(matches: &ArgMatches<'_>, part: Argument, text: &str) -> bool
    ensures { IsTrue result ↔ IsWrong (rows_of (found_of matches.now)) part text.now }
{
    lacks_number(part, text) || lacks_word(matches, part, text)
}

/// True if it is no number of the part's range, if there is one.
fn lacks_number(part: Argument, text: &str) -> bool
    ensures { IsTrue result ↔ LacksNumber (range_of part) text.now }
{
    match part.range() {
        Some(range) => number(text, range).is_none(),
        None => false,
    }
}

/// True if it is no word that the part may be, or doesn't go with what else is given.
fn lacks_word(matches: &ArgMatches<'_>, part: Argument, text: &str) -> bool
    ensures { IsTrue result ↔ LacksWord (rows_of (found_of matches.now)) part text.now }
{
    match part {
        Argument::Log => meaning_of(text, &SEVERITIES).is_none(),
        Argument::Action => meaning_of(text, &JOURNAL_ACTIONS).is_none(),
        Argument::Renew => meaning_of(text, &RENEW_POLICIES).is_none(),
        Argument::Into => text_at(matches, Argument::Tenant).is_some(),
        Argument::Journal => text_at(matches, Argument::Load).is_some(),
        Argument::Sync => meaning_of(text, &SYNCS).is_none()
            || text_at(matches, Argument::Journal).is_none(),
        Argument::Segment => text_at(matches, Argument::Journal).is_none(),
        _ => false,
    }
}
