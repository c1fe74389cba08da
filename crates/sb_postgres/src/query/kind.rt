//! What a statement is, by its first words.
ghost use Rattle.std.specs.Prelude.{◌≡◌, drop, map, take};
ghost use Rattle.std.specs.List.{prefix_len};
ghost use Rattle.sb_postgres.specs.Bytes.{begins, is_word};
ghost use Rattle.sb_postgres.specs.Kinds as spec;

use crate::query::openings::{OPENINGS, Opening, Reach};
use crate::query::piece::begins_with_word;
use crate::query::scan::word_len;

/// What a statement is.
#[derive(Clone, Copy, Debug, PartialEq, Eq)]
pub enum StatementKind {
    /// A transaction begins.
    Begin,
    Commit,
    Rollback,
    /// A setting of the session.
    Setting,
    /// A setting is asked for. Its name is behind the first word.
    Show,
    /// `select 1`
    SelectOne,
    /// `select version()`
    SelectVersion,
    /// `select current_schema()`
    SelectSchema,
    /// A command of PostgreSQL that has no counterpart here. Its name is the first word.
    Unsupported,
    /// A table, a ruleset or a rule is created, changed or dropped.
    Definition,
    /// The rules are processed.
    Process,
    /// Any other line.
    Statement,
}

/// True if a line is made of these words, or begins with them.
fn fits(reach: Reach, words: &[u8], line: &[u8]) -> bool
    ensures { result ≡ spec.fits reach words.now line.now }
{
    match reach {
        Reach::WholeLine => line == words,
        Reach::FirstWords => { line.starts_with(words) && !begins_with_word(&line[words.len()..]) }
    }
}

fn first_fitting(openings: &[Opening], line: &[u8]) -> StatementKind
    ensures { result ≡ spec.first_fitting (map (λ o. (o.0.now, o.1, o.2)) openings.now) line.now }
{
    let mut left = openings;
    while let [opening, rest @ ..] = left {
        if fits(opening.1, opening.0, line) {
            return opening.2;
        }
        left = rest;
    }
    StatementKind::Statement
}

/// What the statement of a line is.
#[tactic(auto, unfolding(crate::specs::Kinds::kind_of))]
pub fn kind_of(line: &[u8]) -> StatementKind
    ensures { result ≡ spec.kind_of line.now }
{
    first_fitting(&OPENINGS, line)
}

/// The first word of a line, as the name of a command.
pub fn first_word(line: &[u8]) -> &[u8]
    ensures { result.now ≡ take (prefix_len is_word line.now) line.now }
{
    line.split_at(word_len(line)).0
}

/// What is behind the first word and the space there.
pub fn behind_first_word(line: &[u8]) -> &[u8]
    ensures { result.now ≡ spec.behind_space (drop (prefix_len is_word line.now) line.now) }
{
    let rest = line.split_at(word_len(line)).1;
    match rest {
        [b' ', behind @ ..] => behind,
        _ => rest,
    }
}
