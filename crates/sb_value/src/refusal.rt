//! Why a command is refused, and what a consideration of a rule came to.
ghost use Rattle.std.specs.Prelude.{◌≡◌};

use crate::name::Name;

/// Why a command was refused. `Locked` has the table's name.
#[derive(Clone, Copy)]
pub enum Refusal {
    Syntax,
    NoTable,
    TableExists,
    NoColumn,
    BadType,
    Ambiguous,
    WrongCount,
    BadTransition,
    Overflow,
    TooBig,
    TooManyRows,
    Locked(Name),
    InTransaction,
    NoTransaction,
    Busy,
    NotOpen,
    AlreadyOpen,
    NoRule,
    RuleExists,
    Cycle,
    TooManyRules,
    NoRuleset,
    RulesetExists,
    TooManyRulesets,
    TableInUse,
    TooManyTables,
    TrailFull,
    NoMemory,
}

impl Refusal {
    ghost use Rattle.sb_value.specs.Refusal.{refusal_number, refusal_name};

    /// Its number and its name in a reply.
    pub fn number_and_name(&self) -> (u8, &'static str)
        ensures number { result.0 ≡ refusal_number self.now }
        ensures name { result.1.now ≡ refusal_name self.now }
    {
        match self {
            Refusal::Syntax => (10, "Syntax"),
            Refusal::NoTable => (20, "NoTable"),
            Refusal::TableExists => (21, "TableExists"),
            Refusal::NoColumn => (22, "NoColumn"),
            Refusal::BadType => (23, "BadType"),
            Refusal::Ambiguous => (24, "Ambiguous"),
            Refusal::WrongCount => (25, "WrongCount"),
            Refusal::BadTransition => (26, "BadTransition"),
            Refusal::Overflow => (30, "Overflow"),
            Refusal::TooBig => (31, "TooBig"),
            Refusal::TooManyRows => (32, "TooManyRows"),
            Refusal::Locked(_) => (40, "Locked"),
            Refusal::InTransaction => (41, "InTransaction"),
            Refusal::NoTransaction => (42, "NoTransaction"),
            Refusal::Busy => (43, "Busy"),
            Refusal::NotOpen => (44, "NotOpen"),
            Refusal::AlreadyOpen => (45, "AlreadyOpen"),
            Refusal::NoRule => (50, "NoRule"),
            Refusal::RuleExists => (51, "RuleExists"),
            Refusal::Cycle => (52, "Cycle"),
            Refusal::TooManyRules => (53, "TooManyRules"),
            Refusal::NoRuleset => (54, "NoRuleset"),
            Refusal::RulesetExists => (55, "RulesetExists"),
            Refusal::TooManyRulesets => (56, "TooManyRulesets"),
            Refusal::TableInUse => (57, "TableInUse"),
            Refusal::TooManyTables => (58, "TooManyTables"),
            Refusal::TrailFull => (90, "TrailFull"),
            Refusal::NoMemory => (91, "NoMemory"),
        }
    }

    /// Its number in a reply.
    pub fn number(&self) -> u8
        ensures { result ≡ refusal_number self.now }
    {
        self.number_and_name().0
    }

    /// Its name in a reply.
    pub fn name(&self) -> &'static str
        ensures { result.now ≡ refusal_name self.now }
    {
        self.number_and_name().1
    }
}

/// The outcome of a rule's consideration.
#[derive(Clone, Copy, Debug, PartialEq, Eq)]
pub enum Verdict {
    True,
    False,
    Error,
}
