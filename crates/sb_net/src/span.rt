//! The first and the last of a session's changes of one tuple.
ghost use Rattle.std.specs.Prelude.{◌≡◌, [], Some, reverse, MatchOption};
ghost use Rattle.sb_value.specs.NetEffect.{history};
ghost use Rattle.sb_rawlog.specs.Sessions.{changes, changes_since};
ghost use Rattle.sb_rawlog.specs.Steps.{tuple_todo};
ghost use Rattle.sb_net.specs.Spans.{IsSpan, IsOldest, GoesBack};

use sb_rawlog::{ChangeLog, Spot};
use sb_value::{Change, TableId, Who};

/// The first and the last of the changes of a tuple.
#[derive(Drop)]
pub(crate) struct Span<'a> {
    pub(crate) first: &'a Change,
    pub(crate) last: &'a Change,
}

/// The span of the session's changes of the tuple that are no older than `since`.
pub(crate) fn span_of<L: ChangeLog>(
    log: &L,
    who: Who,
    table: TableId,
    tuple: u64,
    since: u64,
) -> Option<Span<'_>>
    ensures { let changes = history (changes_since who since (L.records log.now)) table tuple in
        MatchOption result (changes ≡ []) (λ s. IsSpan s.first.now s.last.now changes) }
{
    match log.tuple_first(who, table, tuple, since) {
        Some(newest) => Some(span_from(log, newest)),
        None => None,
    }
}

/// The changes that the walk of the spot has left.
pub(crate) fn span_from<L: ChangeLog>(log: &L, newest: Spot) -> Span<'_>
    requires { L.stands log.now newest }
    ensures { let todo = tuple_todo (L.records log.now) (Some newest) in
        IsSpan result.first.now result.last.now (changes (reverse todo)) }
{
    let from = newest;
    let oldest = oldest(log, from);
    let (_, last) = log.get(newest);
    let (_, first) = log.get(oldest);
    Span { first, last }
}

/// The oldest change of the walk that the spot is on.
fn oldest<L: ChangeLog>(log: &L, spot: Spot) -> Spot
    requires { L.stands log.now spot }
    ensures { IsOldest (L.stands log.now) (L.records log.now) spot result }
{
    let mut at = spot;
    'steps: loop {
        let from = at;
        let Some(next) = older(log, from) else {
            return at;
        };
        at = next;
    }
}

/// An older change of the walk that the spot is on, as far back as one step leads.
fn older<L: ChangeLog>(log: &L, spot: Spot) -> Option<Spot>
    requires { L.stands log.now spot }
    ensures { GoesBack (L.stands log.now) (L.records log.now) spot result }
{
    // for the proof: the spot's change is there
    let here = spot;
    let (_, _change) = log.get(here);
    let from = spot;
    match log.tuple_back(from) {
        Some(older) => Some(older),
        None => log.tuple_next(spot),
    }
}
