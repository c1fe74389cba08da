//! The values that are given for the parts of a command line.
ghost use Rattle.std.specs.Prelude.{◌≡◌, ◌≤◌, IfSome};
ghost use Rattle.clap.specs.Words.{rows_of, found_of};
ghost use Rattle.sb_words.specs.Asking as spec;
ghost use Rattle.sb_words.specs.Asking.{Fits, given_flag};
ghost use Rattle.sb_words.specs.Requests.{text_of};
ghost use Rattle.sb_words.specs.Arguments.{range_of};

use crate::argument::Argument;
use crate::number::number;
use clap::ArgMatches;

/// The text of a part, if it is given.
pub(crate) fn text_at<'a>(matches: &ArgMatches<'a>, part: Argument) -> Option<&'a str>
    ensures { text_of result ≡ spec.text_at (rows_of (found_of matches.now)) part }
{
    text_by(part, matches.get_str(part.name()))
}

/// The text of a part, by what clap gives.
fn text_by<'a>(part: Argument, text: Option<&'a str>) -> Option<&'a str>
    ensures { text_of result ≡ spec.text_by part (text_of text.entry) }
{
    match part {
        Argument::UntilInputEnds => flag(text),
        _ => text,
    }
}

/// An option without a value is `false` where it isn't given.
fn flag<'a>(text: Option<&'a str>) -> Option<&'a str>
    ensures { text_of result ≡ given_flag (text_of text.entry) }
{
    match text {
        Some(text) if text == "true" => Some(text),
        _ => None,
    }
}

/// The number of an option, which is the usual one where the option isn't given.
pub(crate) fn number_at(matches: &ArgMatches<'_>, part: Argument) -> u32
    requires { Fits (rows_of (found_of matches.now)) part }
    ensures is { result ≡ spec.number_in (rows_of (found_of matches.now)) part }
    ensures within { IfSome (range_of part) (λ r. (r.least ≤ result) × (result ≤ r.most)) }
{
    let Some(range) = part.range() else {
        return 0;
    };
    let Some(text) = text_at(matches, part) else {
        return range.usual;
    };
    match number(text, range) {
        Some(n) => n,
        None => unreachable!(),
    }
}
