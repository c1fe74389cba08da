//! The words of a command line that each stand for a thing.
ghost use Rattle.std.specs.Prelude.{◌≡◌};
ghost use Rattle.sb_words.specs.Meanings as spec;

use crate::argument::Verb;
use crate::journal_action::JournalAction;
use crate::renew_policy::RenewPolicy;
use crate::severity::Severity;
use crate::syncs::Syncs;

/// The commands, in the order in which help lists them.
pub(crate) const VERBS: [(&str, Verb); 8] = [
    ("run", Verb::Run),
    ("serve", Verb::Serve),
    ("replay", Verb::Replay),
    ("parse", Verb::Parse),
    ("dump", Verb::Dump),
    ("compact", Verb::Compact),
    ("journal", Verb::Journal),
    ("key", Verb::Key),
];

/// The words for a line's severity.
pub(crate) const SEVERITIES: [(&str, Severity); 3] = [
    ("error", Severity::Error),
    ("warning", Severity::Warning),
    ("info", Severity::Info),
];

/// The words for the time at which a record is brought to the disk.
pub(crate) const SYNCS: [(&str, Syncs); 3] = [
    ("always", Syncs::Always),
    ("second", Syncs::Second),
    ("never", Syncs::Never),
];

/// Which tenants a server renews by itself.
pub(crate) const RENEW_POLICIES: [(&str, RenewPolicy); 2] = [
    ("auto", RenewPolicy::Auto),
    ("never", RenewPolicy::Never),
];

/// The words for an action on a journal.
pub(crate) const JOURNAL_ACTIONS: [(&str, JournalAction); 1] = [("check", JournalAction::Check)];

/// The meaning of a word, if it is one of the table.
pub(crate) fn meaning_of<T: Copy>(word: &str, table: &[(&str, T)]) -> Option<T>
    ensures { result ≡ spec.meaning_of word.now (spec.entries_of table.now) }
{
    for (own, meant) in table {
        if word == *own {
            return Some(*meant);
        }
    }
    None
}
