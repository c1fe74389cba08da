//! Tenants that are served one step at a time, over one log and one index.
ghost use Rattle.std.specs.List.{Contains};
ghost use Rattle.std.specs.Prelude.{◌≡◌, ◌≤◌, ◌<◌, ◌+◌, ◌*◌, ◌==◌, ◌%◌, ◌&&◌, ℕ, true, false, nat_le, Ok, Some, IfOk, IfSome, OnErr, MatchOption, All, codes, length, option_copied, option_map, if◌then◌else◌};
ghost use Rattle.sb_tenant.specs.declared.reply.Reply.TheVariants as told;
ghost use Rattle.sb_tenant.specs.Limits.{entry_limit, trail_limit};
ghost use Rattle.sb_tenant.specs.Tenant.{Tenant as ItsTenant};
ghost use Rattle.sb_tenant.specs.State.{session_at, is_open as session_is_open, has_transaction as session_has_transaction, table_seen};
ghost use Rattle.sb_cell.specs.Headline.{IsRun, RunsInTurn, RunsAlone};
ghost use Rattle.sb_cell.specs.Hosting.{AreFresh, ArePlacesBelow, entry_count};
ghost use Rattle.sb_cell.specs.Memory.{HoldsTransactions, HoldsRules, AreInStep};
ghost use Rattle.sb_cell.specs.Renewing.{MayStand, Puts};
ghost use Rattle.sb_cell.specs.Tenants.{AnswersEvent, HasLegalTrails, HasTrail, IsNew, IsSame, IsTenantOf, hosts, states, run_of, tenant_at};

use crate::laws::{events_run_in_turn, turns_run_alone};
use crate::renewal::number_of;
use crate::{Answers, Event, StepError};
use sb_index::RuleIndex;
use sb_process::StepWatch;
use sb_rawlog::{ChangeLog, RawLog};
use sb_tables::Table;
use sb_tenant::laws::trails_are_bounded;
use sb_tenant::{Answer, Bound, Entry, Line, Sent, Tenant};
use sb_value::{Name, SESSION_LIMIT, SessionId, TenantId};
use std::alloc::{AllocError, Global};
use std::marker::Model;
use std::mem::replace;

/// The log of a cell.
pub type Log = RawLog;

/// The usual number of buckets.
const BUCKETS: usize = 1_024;

/// The number of buckets that keeps the log's chains short where so many tenants are all at work: 64
/// a tenant, and at least the usual number.
pub fn ample_buckets(tenants: u32) -> usize
    requires { tenants ≤ 256 }
    ensures ample { result ≡ (if nat_le 16 tenants then 64 * tenants else 1024) }
    ensures limits { (0 < result) × (result ≤ 65536) }
{
    if tenants >= 16 {
        tenants as usize * 64
    } else {
        BUCKETS
    }
}

/// The tenants whose numbers are `first`, `first + stride`, .. with what their transactions share.
pub struct Cell {
    first: u32,
    stride: u32,
    bound: Bound,
    tenants: Vec<Tenant>,
    log: Log,
    index: RuleIndex,
    watch: StepWatch,
}

impl Drop for Cell {
    fn drop(self) {
        let Self {
            first: _,
            stride: _,
            bound: _,
            tenants: _,
            log: _,
            index: _,
            watch: _,
        } = self;
    }
}

impl Model for Cell {
    ghost use Rattle.sb_cell.specs.Tenants.{Cell};
    ghost use Rattle.sb_cell.specs.Fields.{seen, IsInOrder};

    ghost Value = { Cell };

    ghost view = { seen };

    ghost invariant = { IsInOrder };
}

impl Cell {
    /// The tenants below the number `tenants`, without tables and rules, and with `bound` as their consideration limit.
    /// Error: out of memory.
    pub fn new(
        alloc: Global,
        first: u32,
        stride: u32,
        tenants: u32,
        bound: Bound,
    ) -> Result<Cell, AllocError>
        requires first { first < stride }
        requires tenants { tenants ≤ 256 }
        requires bound { bound.considerations ≤ 1000 }
        ensures { IfOk result (IsNew first stride tenants bound) }
    {
        Cell::with_buckets(alloc, first, stride, tenants, bound, BUCKETS)
    }

    /// Makes a new cell whose log has this number of hash buckets. The number changes speed alone. Error: out of
    /// memory.
    pub fn with_buckets(
        alloc: Global,
        first: u32,
        stride: u32,
        tenants: u32,
        bound: Bound,
        buckets: usize,
    ) -> Result<Cell, AllocError>
        requires first { first < stride }
        requires tenants { tenants ≤ 256 }
        requires bound { bound.considerations ≤ 1000 }
        requires buckets { (0 < buckets) × (buckets ≤ 65536) }
        ensures { IfOk result (IsNew first stride tenants bound) }
    {
        Ok(Cell {
            first,
            stride,
            bound,
            tenants: opened(alloc, first, stride, tenants, bound)?,
            log: Log::new(alloc, buckets)?,
            index: RuleIndex::new(alloc),
            watch: StepWatch::new(alloc)?,
        })
    }

    /// Lets each tenant's trail and open transactions take so many bytes (`Tenant::limit_memory`).
    pub fn limit_memory(&mut self, bytes: u64)
        ensures { self.new ≡ self.old }
    {
        limit_each(&mut self.tenants, bytes);
    }

    /// Who is told of its steps while they run.
    pub fn watch(&self) -> &StepWatch {
        &self.watch
    }

    /// At any time its trails are legal, and together they have few entries.
    pub fn keeps_trails(&self)
        ensures legal { HasLegalTrails self.now }
        ensures few { entry_count self.now.tenants ≤ 256 * entry_limit }
        ensures first { self.now.first < self.now.stride }
    {
        // for the proof: a legal trail has few entries, and the trails are legal
        trails_are_bounded();
        let _tenants = &self.tenants;
    }

    /// Its tenants alone, each of which it hosts under its own number.
    pub fn into_tenants(self) -> Vec<Tenant>
        ensures tenants { result.items ≡ self.tenants }
        ensures hosted { All (IsTenantOf self) result.items }
        ensures whole { (t : ℕ) → hosts self t ≡ true → (own : ItsTenant) × Contains result.items own × (own.id ≡ t) }
    {
        let Self {
            first: _,
            stride: _,
            bound: _,
            tenants,
            log: _,
            index: _,
            watch: _,
        } = self;
        tenants
    }

    /// The consideration limit of its tenants.
    pub fn bound(&self) -> Bound
        ensures { result ≡ self.now.bound }
    {
        self.bound
    }

    /// Puts a tenant in the place of the one of its number.
    pub(crate) fn put(&mut self, next: Tenant) -> Tenant
        requires { MayStand self.old next }
        ensures { Puts self.old next result self.new }
    {
        let number = number_of(&next);
        let place = (number / self.stride) as usize;
        replace(&mut self.tenants[place], next)
    }

    /// True if it has the tenant of that number.
    pub fn hosts(&self, tenant: u32) -> bool
        ensures { result ≡ hosts self.now tenant }
    {
        tenant % self.stride == self.first && ((tenant / self.stride) as usize) < self.tenants.len()
    }

    /// Makes a step of a line of a tenant's session. Error: NoTenant, NoSession, or NotBegun where there is no memory
    /// for the step; nothing changes.
    pub fn step(
        &mut self,
        alloc: Global,
        tenant: u32,
        session: u32,
        line: &[u8],
    ) -> Result<Answer, StepError>
        ensures step { AnswersEvent self.old tenant session line.now result self.new }
        ensures same { IsSame self.old self.new }
        ensures err { OnErr result (self.new ≡ self.old) }
    {
        self.step_with(alloc, tenant, session, line, None)
    }

    /// Makes the step of a line that is in memory already. The trail's entry shares its bytes.
    pub fn step_line(
        &mut self,
        alloc: Global,
        tenant: u32,
        session: u32,
        line: &Line,
    ) -> Result<Answer, StepError>
        ensures step { AnswersEvent self.old tenant session line.now result self.new }
        ensures same { IsSame self.old self.new }
        ensures err { OnErr result (self.new ≡ self.old) }
    {
        self.step_with(alloc, tenant, session, line.as_slice(), Some(line))
    }

    /// Makes a step of a line, whose entry shares the bytes of `own`, if there is one.
    fn step_with(
        &mut self,
        alloc: Global,
        tenant: u32,
        session: u32,
        line: &[u8],
        own: Option<&Line>,
    ) -> Result<Answer, StepError>
        requires own { IfSome own (λ l. l.now ≡ line.now) }
        ensures step { AnswersEvent self.old tenant session line.now result self.new }
        ensures same { IsSame self.old self.new }
        ensures err { OnErr result (self.new ≡ self.old) }
    {
        if !self.hosts(tenant) {
            return Err(StepError::NoTenant);
        }
        if session >= SESSION_LIMIT as u32 {
            return Err(StepError::NoSession);
        }
        let place = (tenant / self.stride) as usize;
        let session = SessionId::new(session as u8);
        let sent = Sent {
            line,
            own,
            watch: Some(&self.watch),
        };
        self.watch.begin(tenant, session);
        let made = self.tenants[place].step(alloc, &mut self.log, &mut self.index, session, &sent);
        self.watch.finish();
        match made {
            Ok(answer) => Ok(answer),
            Err(_) => Err(StepError::NotBegun),
        }
    }

    /// Makes the step `open` of a tenant's session. Error: NotBegun where there is no memory; nothing changes.
    pub fn open(
        &mut self,
        alloc: Global,
        tenant: u32,
        session: SessionId,
    ) -> Result<Answer, StepError>
        requires hosted { hosts self.old tenant ≡ true }
        requires closed { session_is_open (session_at (states self.old tenant) session) ≡ false }
        requires room { nat_le trail_limit (states self.old tenant).steps ≡ false }
        ensures step { AnswersEvent self.old tenant session (codes "open") result self.new }
        ensures same { IsSame self.old self.new }
        ensures ok { IfOk result (λ answer. answer.reply ≡ told.Ok) }
        ensures err { OnErr result (self.new ≡ self.old) }
    {
        // for the proof: it is one of the tenant's sessions
        let _number = session.number();
        let place = (tenant / self.stride) as usize;
        match self.tenants[place].open(alloc, session) {
            Ok(answer) => Ok(answer),
            Err(_) => Err(StepError::NotBegun),
        }
    }

    /// Makes the step `end` of a tenant's session. It needs no memory.
    pub fn end(&mut self, tenant: u32, session: SessionId) -> Answer
        requires hosted { hosts self.old tenant ≡ true }
        requires open { session_is_open (session_at (states self.old tenant) session) ≡ true }
        ensures step { AnswersEvent self.old tenant session (codes "end") (Ok result) self.new }
        ensures same { IsSame self.old self.new }
        ensures ok { result.reply ≡ told.Ok }
    {
        let place = (tenant / self.stride) as usize;
        self.tenants[place].end(&mut self.log, session)
    }

    /// True if a tenant's session is open.
    pub fn is_open(&self, tenant: u32, session: SessionId) -> bool
        requires { hosts self.now tenant ≡ true }
        ensures { result ≡ session_is_open (session_at (states self.now tenant) session) }
    {
        self.tenants[(tenant / self.stride) as usize].is_open(session)
    }

    /// True if a tenant's session has a transaction.
    pub fn has_transaction(&self, tenant: u32, session: SessionId) -> bool
        requires { hosts self.now tenant ≡ true }
        ensures { result ≡ session_has_transaction (session_at (states self.now tenant) session) }
    {
        self.tenants[(tenant / self.stride) as usize].has_transaction(session)
    }

    /// True if a tenant's trail has no place but for the ends of open sessions.
    pub fn is_full(&self, tenant: u32) -> bool
        requires { hosts self.now tenant ≡ true }
        ensures { result ≡ nat_le trail_limit (states self.now tenant).steps }
    {
        self.tenants[(tenant / self.stride) as usize].is_full()
    }

    /// The steps of a tenant so far.
    pub fn trail(&self, tenant: u32) -> Option<&[Entry]>
        ensures { MatchOption result (hosts self.now tenant ≡ false) (λ trail. HasTrail self.now tenant trail.now) }
    {
        if self.hosts(tenant) {
            Some(self.tenants[(tenant / self.stride) as usize].trail())
        } else {
            None
        }
    }

    /// One of its tenants, to be read.
    pub fn tenant(&self, tenant: u32) -> Option<&Tenant>
        ensures found { option_copied result ≡ tenant_at self.now tenant }
        ensures hosted { IfSome result (λ own. IsTenantOf self.now own.now) }
        ensures number { IfSome result (λ own. own.now.id ≡ tenant) }
    {
        if self.hosts(tenant) {
            Some(&self.tenants[(tenant / self.stride) as usize])
        } else {
            None
        }
    }

    /// A tenant's table of that name, with the changes of all sessions.
    pub fn table(&self, tenant: u32, name: &Name) -> Option<&Table>
        ensures { option_map (λ t. t.table) (option_copied result) ≡ table_seen (states self.now tenant) name.now }
    {
        if self.hosts(tenant) {
            self.tenants[(tenant / self.stride) as usize].table(name)
        } else {
            None
        }
    }

    /// The number of changes of its tenants' open transactions.
    pub fn log_len(&self) -> usize
        ensures { result ≡ length self.now.records }
    {
        self.log.len()
    }

    /// The log of all its tenants.
    pub fn log(&self) -> &Log
        ensures records { ⟦<Log as ChangeLog>⟧.records result.now ≡ self.now.records }
        ensures clock { ⟦<Log as ChangeLog>⟧.clock result.now ≡ self.now.clock }
        ensures transactions { HoldsTransactions self.now }
        ensures in_step { AreInStep self.now }
    {
        &self.log
    }

    /// The index of all its tenants' rules.
    pub fn index(&self) -> &RuleIndex
        ensures index { result.now ≡ self.now.index }
        ensures rules { HoldsRules self.now }
    {
        &self.index
    }

    /// The answers to events, one after another. All room for them is had before the first one runs. Error: out of
    /// memory; no event was answered.
    pub fn run(&mut self, alloc: Global, events: &[Event]) -> Result<Answers, AllocError>
        ensures events { IfOk result (λ given. IsRun self.old.bound (run_of self.old events.now given self.new)) }
        ensures in_turn { IfOk result (λ given. RunsInTurn self.old.bound (run_of self.old events.now given self.new)) }
        ensures alone { IfOk result (λ given. RunsAlone self.old.bound (run_of self.old events.now given self.new)) }
        ensures same { IsSame self.old self.new }
        ensures err { OnErr result (self.new ≡ self.old) }
    {
        // for the proof: the trails are legal; events one after another run every tenant in turn, and so as if it
        // were alone
        let _ = &self.tenants;
        events_run_in_turn();
        turns_run_alone();
        let mut list = Vec::with_capacity(alloc, events.len())?;
        for event in events {
            let answer = self.step(alloc, event.tenant, event.session, event.line.as_slice());
            list.push_reserved(answer);
        }
        Ok(Answers { list })
    }
}

/// Limits the memory of each tenant.
fn limit_each(tenants: &mut Vec<Tenant>, bytes: u64)
    ensures { tenants.new.items ≡ tenants.old.items }
{
    for place in 0..tenants.len() {
        tenants[place].limit_memory(bytes);
    }
}

/// New tenants at their places.
fn opened(
    alloc: Global,
    first: u32,
    stride: u32,
    tenants: u32,
    bound: Bound,
) -> Result<Vec<Tenant>, AllocError>
    requires first { first < stride }
    requires tenants { tenants ≤ 256 }
    requires bound { bound.considerations ≤ 1000 }
    ensures fresh { IfOk result (λ made. AreFresh first stride bound made.items) }
    ensures all { IfOk result (λ made. ArePlacesBelow first stride tenants (length made.items)) }
{
    let places = place_count(first, stride, tenants);
    let mut made = Vec::with_capacity(alloc, places as usize)?;
    for place in 0..places {
        let number = first + stride * place;
        made.push(Tenant::new(alloc, TenantId::new(number as u8), bound))?;
    }
    Ok(made)
}

/// The number of tenants below `tenants` that are `first` and a multiple of `stride`.
fn place_count(first: u32, stride: u32, tenants: u32) -> u32
    requires { first < stride }
    ensures count { ArePlacesBelow first stride tenants result }
{
    if first < tenants {
        (tenants - first - 1) / stride + 1
    } else {
        0
    }
}
