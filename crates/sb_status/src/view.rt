//! What pages are made of: numbers, names and texts, copied from wherever they are kept.

use crate::graph::Graph;
use sb_host::RunningConsideration;

/// The numbers of a server.
#[derive(Clone, Copy)]
pub struct HostNumbers<'a> {
    pub version: &'a str,
    pub tenants: u64,
    pub cells: u64,
    /// The most rules that are considered at one assertion point.
    pub bound: u64,
    /// Seconds since it began to listen.
    pub uptime: u64,
    /// The bytes of memory that the process has, if the system tells.
    pub memory: Option<u64>,
    /// The most bytes that a tenant may take, if there is a limit.
    pub tenant_memory: Option<u64>,
}

/// The numbers of a tenant.
#[derive(Clone, Copy)]
pub struct TenantNumbers {
    pub tenant: u64,
    pub steps: u64,
    /// How many steps its sessions made in all volumes of its life.
    pub steps_made: u64,
    /// How many steps more its trail has room for.
    pub room: u64,
    /// What its trail, its open transactions and the texts of its rules take, as its share of memory is counted.
    pub bytes: u64,
    pub tables: u64,
    pub rules: u64,
    pub rows: u64,
    /// Sessions that are open.
    pub open: u64,
    /// Sessions that have a transaction.
    pub active: u64,
    /// The changes of their transactions.
    pub changes: u64,
    /// How many volumes of its life ended before its trail.
    pub volume: u64,
    /// A renewal began its trail so many seconds ago, if one did since the server began.
    pub volume_age: Option<u64>,
    /// So many connections got no session of it since the server began.
    pub turned_away: u64,
    /// The numbers are so many seconds old, since the tenant was busy.
    pub age: Option<u64>,
}

/// What a worker has done.
#[derive(Clone, Copy)]
pub struct WorkerNumbers {
    /// Connections.
    pub taken: u64,
    /// Those of them that have ended.
    pub closed: u64,
    /// Lines that it answered.
    pub lines: u64,
    /// Microseconds in which it didn't wait.
    pub busy: u64,
}

/// How often a refusal was given.
#[derive(Clone, Copy)]
pub struct Refused {
    pub number: u64,
    /// Its name in a reply.
    pub name: &'static str,
    pub count: u64,
}

/// How many transactions were rolled back, by what did it.
#[derive(Clone, Copy)]
pub struct Rollbacks {
    pub command: u64,
    /// The action of a rule.
    pub rule: u64,
    /// An error in the action of a rule.
    pub error: u64,
    /// Too many considerations.
    pub limit: u64,
    /// The end of a session.
    pub end: u64,
}

/// How many lines took no longer than this, and longer than the limit before.
#[derive(Clone, Copy)]
pub struct Bucket {
    pub micros: u64,
    pub count: u64,
}

/// How long lines took.
#[derive(Clone, Copy)]
pub struct Histogram<'a> {
    pub buckets: &'a [Bucket],
    /// How many took longer than all limits.
    pub others: u64,
    /// All of them together.
    pub micros: u64,
}

/// A line that took long, by its first bytes.
#[derive(Clone, Copy)]
pub struct SlowView<'a> {
    pub tenant: u64,
    pub session: u64,
    pub micros: u64,
    pub line: &'a [u8],
}

/// A step that has run for more than a second, and runs.
#[derive(Clone, Copy)]
pub struct RunningStepView {
    pub tenant: u64,
    pub session: u64,
    pub seconds: u64,
    /// How many rules it has considered.
    pub considered: u64,
    /// None where it has considered no rule.
    pub newest: Option<RunningConsideration>,
}

/// The commits of a server's journal.
#[derive(Clone, Copy)]
pub struct JournalNumbers {
    pub commits: u64,
    /// How long workers waited for them, all together.
    pub micros: u64,
    /// Seconds since one ended last, or since the server began.
    pub age: u64,
    /// The newest commit found no room on the disk, and is tried again.
    pub lacks_room: bool,
}

/// How many tenants were renewed, and how often one couldn't be.
#[derive(Clone, Copy)]
pub struct RenewalNumbers {
    pub done: u64,
    pub failed: u64,
}

/// What a server has counted since it began.
#[derive(Clone, Copy)]
pub struct Activity<'a> {
    /// By their places. The last one is the door.
    pub workers: &'a [WorkerNumbers],
    pub considerations: u64,
    pub rollbacks: Rollbacks,
    pub refusals: &'a [Refused],
    pub renewals: RenewalNumbers,
    pub times: Histogram<'a>,
    /// The lines that took longest, the slowest first.
    pub slowest: &'a [SlowView<'a>],
    /// The steps that have run for more than a second, by their cells.
    pub running: &'a [RunningStepView],
    /// None where the server has no journal.
    pub journal: Option<JournalNumbers>,
}

/// What is shown of a server: its numbers, what it has counted, and a row for each of these tenants.
#[derive(Clone, Copy)]
pub struct HostView<'a> {
    pub host: HostNumbers<'a>,
    pub activity: Activity<'a>,
    pub tenants: &'a [TenantNumbers],
}

/// What a tenant is.
pub struct TenantView {
    pub numbers: TenantNumbers,
    pub tables: Vec<TableView>,
    /// In order of creation.
    pub rules: Vec<RuleView>,
    pub rulesets: Vec<RulesetView>,
    /// By their numbers.
    pub sessions: Vec<SessionView>,
    /// The graph of its rules, by their places.
    pub graph: Graph,
}

impl Drop for TenantView {
    fn drop(self) {
        let Self {
            numbers: _,
            tables: _,
            rules: _,
            rulesets: _,
            sessions: _,
            graph: _,
        } = self;
    }
}

pub struct TableView {
    pub name: Vec<u8>,
    pub columns: Vec<ColumnView>,
    pub rows: u64,
}

impl Drop for TableView {
    fn drop(self) {
        let Self {
            name: _,
            columns: _,
            rows: _,
        } = self;
    }
}

#[derive(Drop)]
pub struct ColumnView {
    pub name: Vec<u8>,
    /// Its values are texts, and otherwise integers.
    pub is_text: bool,
}

pub struct RuleView {
    pub name: Vec<u8>,
    pub table: Vec<u8>,
    pub triggers: TriggersView,
    pub is_active: bool,
    /// The line that creates it.
    pub line: Vec<u8>,
}

impl Drop for RuleView {
    fn drop(self) {
        let Self {
            name: _,
            table: _,
            triggers: _,
            is_active: _,
            line: _,
        } = self;
    }
}

/// The operations that trigger a rule.
#[derive(Drop)]
pub struct TriggersView {
    pub inserted: bool,
    pub deleted: bool,
    /// An update of any column.
    pub updated: bool,
    /// Columns of which an update triggers.
    pub columns: Vec<Vec<u8>>,
}

pub struct RulesetView {
    pub name: Vec<u8>,
    pub rules: Vec<Vec<u8>>,
}

impl Drop for RulesetView {
    fn drop(self) {
        let Self { name: _, rules: _ } = self;
    }
}

#[derive(Clone, Copy)]
pub struct SessionView {
    pub state: SessionState,
    /// Its last line was answered so many seconds ago, if that is known.
    pub age: Option<u64>,
}

#[derive(Clone, Copy)]
pub enum SessionState {
    Closed,
    Idle,
    /// It has a transaction.
    Active,
}
