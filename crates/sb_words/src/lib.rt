//! A run is told by the words of its command line: they ask for something, or are refused with a reason. It tells by a log
//! how it goes, and how severe that is.
#![tactic(auto)]

mod argument;
mod fit;
mod given;
mod help;
mod invocation;
mod journal_action;
mod laws;
mod log;
mod meaning;
mod number;
mod refusal;
mod renew_policy;
mod severity;
mod syncs;
mod words;

pub use argument::{Argument, NumberRange, Unfit, Verb};
pub use clap::Error;
pub use help::VERSION;
pub use invocation::{
    CompactWords, DumpWords, Dumping, HostOptions, Invocation, JournalWords, Origin, Run, RunWords,
    ServeWords, ServerOptions,
};
pub use journal_action::JournalAction;
pub use laws::words_ask_once;
pub use log::Log;
pub use refusal::{misplaced_line, refusal_line};
pub use renew_policy::RenewPolicy;
pub use severity::Severity;
pub use syncs::Syncs;
pub use words::{Asked, read_words};
