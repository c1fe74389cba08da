//! The commands of a command line, and their parts.
ghost use Rattle.std.specs.Prelude.{◌≡◌, ◌≤◌, IfSome};
ghost use Rattle.sb_words.specs.Arguments as spec;

/// The commands.
#[derive(Clone, Copy, Debug)]
pub enum Verb {
    Run,
    Serve,
    Replay,
    Parse,
    Dump,
    Compact,
    Journal,
    Key,
}

/// A part of a command: a word behind it, or an option.
#[derive(Clone, Copy, Debug)]
pub enum Argument {
    Old,
    New,
    Action,
    Folder,
    Tenant,
    Load,
    DumpTo,
    Into,
    Journal,
    Sync,
    Keys,
    Status,
    Tenants,
    Bound,
    StepWork,
    Cells,
    Workers,
    Port,
    Connections,
    Idle,
    IdleTransaction,
    FirstTenant,
    TenantMemory,
    Segment,
    Log,
    Slow,
    Renew,
    UntilInputEnds,
}

/// The commands, in the order in which help lists them.
pub(crate) const COMMANDS: [Verb; 8] = [
    Verb::Run,
    Verb::Serve,
    Verb::Replay,
    Verb::Parse,
    Verb::Dump,
    Verb::Compact,
    Verb::Journal,
    Verb::Key,
];

/// All parts, in the order in which they are looked at.
pub(crate) const PARTS: [Argument; 28] = [
    Argument::Old,
    Argument::New,
    Argument::Action,
    Argument::Folder,
    Argument::Tenants,
    Argument::Bound,
    Argument::StepWork,
    Argument::Tenant,
    Argument::Into,
    Argument::Cells,
    Argument::Workers,
    Argument::Port,
    Argument::Connections,
    Argument::Idle,
    Argument::IdleTransaction,
    Argument::FirstTenant,
    Argument::TenantMemory,
    Argument::Load,
    Argument::DumpTo,
    Argument::Journal,
    Argument::Sync,
    Argument::Segment,
    Argument::Renew,
    Argument::Keys,
    Argument::Status,
    Argument::Log,
    Argument::Slow,
    Argument::UntilInputEnds,
];

/// The parts of `run`, which needn't be named.
pub(crate) const RUN_PARTS: [Argument; 6] = [
    Argument::Tenants,
    Argument::Bound,
    Argument::StepWork,
    Argument::Load,
    Argument::Journal,
    Argument::Sync,
];

/// The parts of `serve`.
pub(crate) const SERVE_PARTS: [Argument; 22] = [
    Argument::Tenants,
    Argument::Bound,
    Argument::StepWork,
    Argument::Cells,
    Argument::Workers,
    Argument::Port,
    Argument::Connections,
    Argument::Idle,
    Argument::IdleTransaction,
    Argument::FirstTenant,
    Argument::TenantMemory,
    Argument::Load,
    Argument::DumpTo,
    Argument::Journal,
    Argument::Sync,
    Argument::Segment,
    Argument::Renew,
    Argument::Keys,
    Argument::Status,
    Argument::Log,
    Argument::Slow,
    Argument::UntilInputEnds,
];

/// The parts of `replay`.
pub(crate) const REPLAY_PARTS: [Argument; 5] = [
    Argument::Tenants,
    Argument::Bound,
    Argument::StepWork,
    Argument::Cells,
    Argument::Workers,
];

/// The parts of `dump`.
pub(crate) const DUMP_PARTS: [Argument; 5] = [
    Argument::Tenants,
    Argument::Bound,
    Argument::StepWork,
    Argument::Tenant,
    Argument::Into,
];

/// The parts of `compact`.
pub(crate) const COMPACT_PARTS: [Argument; 5] = [
    Argument::Old,
    Argument::New,
    Argument::Tenants,
    Argument::Bound,
    Argument::StepWork,
];

/// The parts of `journal`.
pub(crate) const JOURNAL_PARTS: [Argument; 2] = [Argument::Action, Argument::Folder];

/// The numbers that an option may have, and the one that it has where it isn't given.
#[derive(Clone, Copy, Debug)]
pub struct NumberRange {
    pub least: u32,
    pub most: u32,
    pub usual: u32,
}

impl Verb {
    /// Its word.
    pub(crate) fn word<'a>(self) -> &'a str
        ensures { result.now ≡ spec.word_of self }
    {
        match self {
            Verb::Run => "run",
            Verb::Serve => "serve",
            Verb::Replay => "replay",
            Verb::Parse => "parse",
            Verb::Dump => "dump",
            Verb::Compact => "compact",
            Verb::Journal => "journal",
            Verb::Key => "key",
        }
    }
}

impl Argument {
    /// Its name, as clap knows it.
    pub(crate) fn name<'a>(self) -> &'a str
        ensures { result.now ≡ spec.name_of self }
    {
        match self {
            Argument::Old => "old",
            Argument::New => "new",
            Argument::Action => "action",
            Argument::Folder => "folder",
            Argument::Tenant => "tenant",
            Argument::Load => "load",
            Argument::DumpTo => "dump-to",
            Argument::Into => "into",
            Argument::Journal => "journal",
            Argument::Sync => "sync",
            Argument::Keys => "keys",
            Argument::Status => "status",
            Argument::Tenants => "tenants",
            Argument::Bound => "bound",
            Argument::StepWork => "step-work",
            Argument::Cells => "cells",
            Argument::Workers => "workers",
            Argument::Port => "port",
            Argument::Connections => "connections",
            Argument::Idle => "idle",
            Argument::IdleTransaction => "idle-transaction",
            Argument::FirstTenant => "first-tenant",
            Argument::TenantMemory => "tenant-memory",
            Argument::Segment => "segment",
            Argument::Log => "log",
            Argument::Slow => "slow",
            Argument::Renew => "renew",
            Argument::UntilInputEnds => "until-input-ends",
        }
    }

    /// The range of its number, if it has one.
    pub(crate) fn range(self) -> Option<NumberRange>
        ensures is { result ≡ spec.range_of self }
        ensures usual { IfSome result (λ r. (r.least ≤ r.usual) × (r.usual ≤ r.most)) }
    {
        match self {
            Argument::Tenant => numbers(0, 255, 0),
            Argument::Tenants => numbers(1, 256, 16),
            Argument::Bound => numbers(1, 1000, 1000),
            Argument::StepWork => numbers(1, 4_294_967_295, 67_108_864),
            Argument::Cells => numbers(1, 16, 4),
            Argument::Workers => numbers(1, 16, 4),
            Argument::Port => numbers(0, 65_535, 0),
            Argument::Status => numbers(0, 65_535, 0),
            Argument::Connections => numbers(0, 1_000_000, 0),
            Argument::Idle => numbers(0, 86_400, 0),
            Argument::IdleTransaction => numbers(0, 86_400, 0),
            Argument::FirstTenant => numbers(0, 999_999_000, 0),
            Argument::TenantMemory => numbers(0, 1_048_576, 0),
            Argument::Segment => numbers(1, 65_536, 64),
            Argument::Slow => numbers(0, 86_400_000, 1_000),
            _ => None,
        }
    }
}

fn numbers(least: u32, most: u32, usual: u32) -> Option<NumberRange>
    requires { (least ≤ usual) × (usual ≤ most) }
    ensures { result ≡ spec.range least most usual }
{
    Some(NumberRange { least, most, usual })
}

/// A part that isn't allowed, and the text that stands for it.
#[derive(Clone, Copy, Debug)]
pub struct Unfit<'a> {
    pub part: Argument,
    pub text: &'a str,
}
