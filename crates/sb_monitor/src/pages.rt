//! What the status port answers.
ghost use Rattle.std.specs.Prelude.{◌≡◌, ◌⊎◌, ◌+◌, ◌%◌, ◌<◌, ◌≤◌, IfOk, MatchOption, ℕ, false, true};
ghost use Rattle.sb_monitor.specs.Senders.{stranger_of};
ghost use Rattle.sb_status.specs.StatisticsCache.{IsCacheOf};
ghost use Rattle.sb_status.specs.TenantPages.{IsPageOf};
ghost use Rattle.sb_status.specs.TenantViews.{IsFoundView, OnlyAges};
ghost use Rattle.sb_status.specs.TenantCounts.{AreNumbersOf};
ghost use Rattle.sb_tenant.specs.Tenant.{Tenant as ItsTenant};
ghost use Rattle.sb_monitor.specs.PageAnswers.{Answers, ComesFrom, ComesTo, outcome_text};
ghost use Rattle.sb_monitor.specs.Pages.{AreSamples, IsEndOutcome, IsHostOutcome, IsInTime, IsPageOutcome, IsReadyOutcome, IsRenewalOutcome, IsScriptOutcome, IsStopOutcome, LacksSession, Replies, Shows};

use crate::activity::{Counted, Overview};
use crate::http_outcome::{HttpRefusal, Outcome, Shown, has_body};
use crate::journal_board::JournalBoard;
use crate::memory::resident;
use crate::page_access::is_let_in;
use crate::renewal_board::RenewalBoard;
use crate::running_steps::long_steps;
use crate::sender::Sender;
use crate::server_control::{ServerControl, ServerControls};
use crate::session_board::SessionBoard;
use crate::target::{Target, target_of};
use crate::tenant_script::noted_in;
use sb_backup::{DumpError, NotedScript, ScriptNotes, text_of};
use sb_host::{Lending, SESSION_LIMIT, SessionId, Tried};
use sb_server::{Admission, ServerMetrics, SessionName};
use sb_status::{
    ContentType, Counting, Ended, HostNumbers, Incoming, LockBudget, Request, Route,
    SessionReading, SessionView, StatisticsCache, Status, TenantNumbers, TenantView, read_request,
    tenant_page, view_at,
};
use sb_tenant::Bound;
use std::alloc::{AllocError, Global};
use std::fs::File;
use std::rt::Clock;
use std::sync::Wait;
use std::time::Instant;

/// The version of the program.
const VERSION: &str = "0.1";

/// The status pages of a server.
#[derive(Drop)]
pub struct Pages<'k, H, A, T, E = ServerControls> {
    /// The system.
    pub rt: &'k T,
    pub alloc: Global,
    pub host: H,
    /// Whose key opens which page.
    pub admission: &'k A,
    /// The number of the first tenant.
    pub first_tenant: u32,
    /// The bound of each step.
    pub bound: Bound,
    /// When the server began.
    pub began: Option<Instant>,
    /// Where the system tells how much memory the process has.
    pub memory: Option<File>,
    /// What the workers have counted.
    pub server_metrics: &'k ServerMetrics,
    /// When its tenants were renewed.
    pub renewal_board: &'k RenewalBoard,
    /// How many connections got no session of them.
    pub session_board: &'k SessionBoard,
    /// The commits of its journal.
    pub journal_board: &'k JournalBoard,
    /// The most bytes that a tenant may take, if there is a limit.
    pub tenant_memory: Option<u64>,
    /// What tells them that sessions are to end, and the server that it is to stop.
    pub control: &'k E,
    ghost few: { bound.considerations ≤ 1000 },
}

impl<'k, H: Lending, A: Admission, T: Wait + Clock, E: ServerControl> Pages<'k, H, A, T, E> {
    /// For what pages showed last.
    pub(crate) fn cache(&self) -> Result<StatisticsCache, AllocError>
        ensures { IfOk result (IsCacheOf self.now.first_tenant) }
    {
        StatisticsCache::new(self.alloc, self.host.tenants())
    }

    /// The answer to the bytes of a request.
    pub(crate) fn answer(
        &self,
        bytes: &[u8],
        cache: &mut StatisticsCache,
    ) -> Result<Vec<u8>, AllocError>
        requires { IsCacheOf self.now.first_tenant cache.old }
        ensures answers { IfOk result (λ answer. Answers (A.wants self.now.admission.now) (A.admits self.now.admission.now)
            self.now.first_tenant (H.tenants self.now.host) H.cells self.now.bound (E.told self.now.control.now) (E.asked self.now.control.now)
            (E.stopped self.now.control.now) (E.lets_in self.now.control.now) bytes.now answer.items) }
        ensures cache { IsCacheOf self.now.first_tenant cache.new }
    {
        match read_request(bytes) {
            Incoming::Whole(request) => match Sender::read(bytes) {
                Some(sender) => {
                    let outcome = self.outcome_from(&sender, &request, cache)?;
                    outcome.answer(self.alloc, has_body(&request))
                }
                None => refuse(self.alloc, HttpRefusal::BadRequest),
            },
            Incoming::TooLong => refuse(self.alloc, HttpRefusal::TooLong),
            Incoming::Malformed | Incoming::Partial => refuse(self.alloc, HttpRefusal::BadRequest),
        }
    }

    /// The outcome of a request of this sender.
    fn outcome_from(
        &self,
        sender: &Sender<'_>,
        request: &Request<'_>,
        cache: &mut StatisticsCache,
    ) -> Result<Outcome, AllocError>
        requires { IsCacheOf self.now.first_tenant cache.old }
        ensures comes { IfOk result (ComesFrom (A.wants self.now.admission.now) (A.admits self.now.admission.now)
            self.now.first_tenant (H.tenants self.now.host) H.cells self.now.bound (E.told self.now.control.now) (E.asked self.now.control.now)
            (E.stopped self.now.control.now) (E.lets_in self.now.control.now) (stranger_of sender.now) request.now) }
        ensures cache { IsCacheOf self.now.first_tenant cache.new }
    {
        match sender.refusal() {
            Some(why) => Ok(Outcome::Refused(why)),
            None => self.outcome(target_of(request.target), request, cache),
        }
    }

    /// The outcome of a request for this target.
    fn outcome(
        &self,
        target: Target,
        request: &Request<'_>,
        cache: &mut StatisticsCache,
    ) -> Result<Outcome, AllocError>
        requires { IsCacheOf self.now.first_tenant cache.old }
        ensures comes { IfOk result (ComesTo (A.wants self.now.admission.now) (A.admits self.now.admission.now)
            self.now.first_tenant (H.tenants self.now.host) H.cells self.now.bound (E.told self.now.control.now) (E.asked self.now.control.now)
            (E.stopped self.now.control.now) (E.lets_in self.now.control.now) request.now target) }
        ensures cache { IsCacheOf self.now.first_tenant cache.new }
    {
        if let Some(misfit) = HttpRefusal::of_misfit(target, request) {
            return Ok(Outcome::Refused(misfit));
        }
        if !is_let_in(self.rt, self.alloc, self.admission, target, request)? {
            return Ok(Outcome::Refused(HttpRefusal::KeyWanted));
        }
        self.reply(target, cache)
    }

    /// What a client gets that may have it.
    fn reply(&self, target: Target, cache: &mut StatisticsCache) -> Result<Outcome, AllocError>
        requires { IsCacheOf self.now.first_tenant cache.old }
        ensures replies { IfOk result (Replies self.now.first_tenant (H.tenants self.now.host) H.cells self.now.bound
            (E.told self.now.control.now) (E.asked self.now.control.now) (E.stopped self.now.control.now) (E.lets_in self.now.control.now) target) }
        ensures cache { IsCacheOf self.now.first_tenant cache.new }
    {
        match target {
            Target::Stop => self.stop(),
            Target::Ready => self.readiness(),
            Target::Page(route) => self.page_in_time(route, cache),
        }
    }

    /// Tells the server to stop.
    fn stop(&self) -> Result<Outcome, AllocError>
        ensures { IfOk result (IsStopOutcome (E.stopped self.now.control.now)) }
    {
        if !self.control.stop() {
            return Ok(Outcome::Refused(HttpRefusal::NoStop));
        }
        Ok(accepted(b"told\n".to_vec(self.alloc)?))
    }

    /// Tells whether clients are let in.
    fn readiness(&self) -> Result<Outcome, AllocError>
        ensures { IfOk result (IsInTime (E.lets_in self.now.control.now) IsReadyOutcome) }
    {
        if !self.control.is_ready() {
            return Ok(Outcome::NotReady);
        }
        Ok(found(ContentType::Text, b"ready\n".to_vec(self.alloc)?))
    }

    /// The page at a route, once clients are let in.
    fn page_in_time(&self, route: Route, cache: &mut StatisticsCache) -> Result<Outcome, AllocError>
        requires { IsCacheOf self.now.first_tenant cache.old }
        ensures shows { IfOk result (IsInTime (E.lets_in self.now.control.now)
            (Shows self.now.first_tenant (H.tenants self.now.host) H.cells self.now.bound
            (E.told self.now.control.now) (E.asked self.now.control.now) route)) }
        ensures cache { IsCacheOf self.now.first_tenant cache.new }
    {
        if !self.control.is_ready() {
            return Ok(Outcome::NotReady);
        }
        self.page(route, cache)
    }

    /// The page at a route, for a client that may see it.
    fn page(&self, route: Route, cache: &mut StatisticsCache) -> Result<Outcome, AllocError>
        requires { IsCacheOf self.now.first_tenant cache.old }
        ensures shows { IfOk result (Shows self.now.first_tenant (H.tenants self.now.host) H.cells self.now.bound
            (E.told self.now.control.now) (E.asked self.now.control.now) route) }
        ensures cache { IsCacheOf self.now.first_tenant cache.new }
    {
        match route {
            Route::Host => self.host_page(cache),
            Route::Metrics => self.metrics(cache),
            Route::Tenant(tenant) => self.tenant_page(tenant, cache),
            Route::Dump(tenant) => self.script(tenant),
            Route::End(ended) => self.end(ended),
            Route::Renew(tenant) => self.renew(tenant),
            Route::Unknown => Ok(Outcome::Refused(HttpRefusal::NoPage)),
        }
    }

    fn host_page(&self, cache: &mut StatisticsCache) -> Result<Outcome, AllocError>
        ensures page { IfOk result IsHostOutcome }
        ensures cache { (first : ℕ) → IsCacheOf first cache.old → IsCacheOf first cache.new }
    {
        let overview = self.overview(cache)?;
        Ok(found(ContentType::Page, overview.page(self.alloc)?))
    }

    fn metrics(&self, cache: &mut StatisticsCache) -> Result<Outcome, AllocError>
        ensures samples { IfOk result AreSamples }
        ensures cache { (first : ℕ) → IsCacheOf first cache.old → IsCacheOf first cache.new }
    {
        let overview = self.overview(cache)?;
        Ok(found(ContentType::Samples, overview.samples(self.alloc)?))
    }

    /// The host with its tenants, and what the workers have counted.
    fn overview(&self, cache: &mut StatisticsCache) -> Result<Overview, AllocError>
        ensures { (first : ℕ) → IsCacheOf first cache.old → IsCacheOf first cache.new }
    {
        Ok(Overview {
            tenants: self.all_numbers(cache)?,
            host: self.host_numbers(),
            counted: Counted::read(self.rt, self.alloc, self.server_metrics, self.renewal_board)?,
            running: long_steps(self.alloc, self.host, self.first_tenant)?,
            journal: self.journal_board.numbers(self.rt),
        })
    }

    /// The numbers of each tenant of which a session was ever opened, one lock after the other. Those of a tenant that is
    /// busy are older.
    fn all_numbers(&self, cache: &mut StatisticsCache) -> Result<Vec<TenantNumbers>, AllocError>
        ensures { (first : ℕ) → IsCacheOf first cache.old → IsCacheOf first cache.new }
    {
        let mut all = Vec::new(self.alloc);
        let mut patience = LockBudget::new(self.rt);
        let now = self.uptime();
        for place in 0..self.host.tenants() {
            if let Some(numbers) = self.numbers_of(place, &mut patience, cache, now) {
                all.push(numbers)?;
            }
        }
        Ok(all)
    }

    /// The numbers of a tenant: current, or cached if its cell is busy.
    fn numbers_of(
        &self,
        place: u32,
        patience: &mut LockBudget<'_, T>,
        cache: &mut StatisticsCache,
        now: u64,
    ) -> Option<TenantNumbers>
        ensures { (first : ℕ) → IsCacheOf first cache.old → IsCacheOf first cache.new }
    {
        let mut counting = Counting::new(self.first_tenant);
        if let Tried::Held = patience.read(self.host, place, &mut counting) {
            return cache.numbers(place, now);
        }
        let mut numbers = counting.numbers?;
        self.add_board_numbers(place, &mut numbers);
        cache.keep(place, numbers, now);
        Some(numbers)
    }

    fn host_numbers(&self) -> HostNumbers<'static> {
        HostNumbers {
            version: VERSION,
            tenants: u64::from(self.host.tenants()),
            cells: u64::from(self.host.cells()),
            bound: u64::from(self.bound.considerations),
            uptime: self.uptime(),
            memory: resident_of(&self.memory),
            tenant_memory: self.tenant_memory,
        }
    }

    /// The seconds since the server began.
    fn uptime(&self) -> u64 {
        match (self.began, Instant::now(self.rt)) {
            (Some(began), Ok(now)) => now.duration_since(began).as_secs(),
            _ => 0,
        }
    }

    /// The place of a tenant in the host, if it hosts it.
    fn place_of(&self, tenant: u32) -> Option<u32>
        ensures { MatchOption result ((tenant < self.now.first_tenant) ⊎ (self.now.first_tenant + H.tenants self.now.host ≤ tenant))
            (λ place. (place < H.tenants self.now.host) × (tenant ≡ self.now.first_tenant + place)) }
    {
        match tenant.checked_sub(self.first_tenant) {
            Some(place) if place < self.host.tenants() => Some(place),
            _ => None,
        }
    }

    /// The cell of the tenant at this place.
    fn cell_of(&self, place: u32) -> usize
        ensures { result ≡ place % H.cells }
    {
        (place % self.host.cells()) as usize
    }

    fn tenant_page(&self, tenant: u32, cache: &mut StatisticsCache) -> Result<Outcome, AllocError>
        requires { IsCacheOf self.now.first_tenant cache.old }
        ensures page { IfOk result (IsPageOutcome self.now.first_tenant (H.tenants self.now.host) tenant) }
        ensures cache { IsCacheOf self.now.first_tenant cache.new }
    {
        let Some(place) = self.place_of(tenant) else {
            return Ok(Outcome::Refused(HttpRefusal::NoTenant));
        };
        let now = self.uptime();
        let found = self.view(tenant, place)?;
        match found {
            Some(view) => {
                let shown = view_shown(self.alloc, &view)?;
                cache.keep_view(place, view, now);
                Ok(Outcome::Shown(shown))
            }
            None => self.old_page(place, cache, now),
        }
    }

    /// The view of the tenant at this place, unless its cell is busy.
    fn view(&self, tenant: u32, place: u32) -> Result<Option<TenantView>, AllocError>
        ensures { IfOk result (IsFoundView self.now.first_tenant place) }
    {
        let mut patience = LockBudget::new(self.rt);
        let found = view_at(
            &mut patience,
            self.alloc,
            self.host,
            self.first_tenant,
            place,
        )?;
        let Some(mut view) = found else {
            return Ok(None);
        };
        self.tell_ages(tenant, &mut view.sessions);
        self.add_board_numbers(place, &mut view.numbers);
        Ok(Some(view))
    }

    /// Adds how long ago a renewal began the volume of the tenant at this place, if one did, and how many connections got
    /// no session of it.
    fn add_board_numbers(&self, place: u32, numbers: &mut TenantNumbers)
        ensures { (first : ℕ) (own : ItsTenant) → AreNumbersOf first own numbers.old → AreNumbersOf first own numbers.new }
    {
        numbers.volume_age = self.renewal_board.age(self.rt, place);
        numbers.turned_away = self.session_board.turned_away(place);
    }

    /// Adds to each session how long ago its last line was answered.
    fn tell_ages(&self, tenant: u32, sessions: &mut Vec<SessionView>)
        ensures { OnlyAges sessions.old.items sessions.new.items }
    {
        let Ok(now) = Instant::now(self.rt) else {
            return;
        };
        for number in 0..SESSION_LIMIT {
            if let Some(session) = sessions.get_mut(number) {
                let named = SessionName {
                    tenant,
                    session: number as u32,
                };
                session.age = self.server_metrics.age(named, now);
            }
        }
    }

    /// The page of the cached view, if it belongs to the tenant at this place. Its cell is busy.
    fn old_page(
        &self,
        place: u32,
        cache: &mut StatisticsCache,
        now: u64,
    ) -> Result<Outcome, AllocError>
        requires hosted { place < H.tenants self.now.host }
        requires cache { IsCacheOf self.now.first_tenant cache.old }
        ensures page { IfOk result (IsPageOutcome self.now.first_tenant (H.tenants self.now.host)
            (self.now.first_tenant + place)) }
        ensures cache { IsCacheOf self.now.first_tenant cache.new }
    {
        cache.tell_age(now);
        match cache.view(place) {
            Some(view) => Ok(Outcome::Shown(view_shown(self.alloc, view)?)),
            None => Ok(Outcome::Refused(HttpRefusal::TenantBusy)),
        }
    }

    /// Asks a worker to end a session.
    fn end(&self, ended: Ended) -> Result<Outcome, AllocError>
        ensures { IfOk result (IsEndOutcome self.now.first_tenant (H.tenants self.now.host) H.cells
            (E.told self.now.control.now) ended) }
    {
        let Some(place) = self.place_of(ended.tenant) else {
            return Ok(Outcome::Refused(HttpRefusal::NoTenant));
        };
        if !self.may_be_open(place, ended.session) {
            return Ok(Outcome::Refused(HttpRefusal::NoSession));
        }
        self.end_step(place, ended.session);
        let named = SessionName {
            tenant: ended.tenant,
            session: ended.session,
        };
        if !self.control.end(self.rt, self.cell_of(place), named) {
            return Ok(Outcome::Refused(HttpRefusal::WorkerBusy));
        }
        Ok(accepted(b"told\n".to_vec(self.alloc)?))
    }

    /// Has the step of a session of the tenant at this place end at its next consideration, if it runs.
    fn end_step(&self, place: u32, session: u32) {
        let Some(watch) = self.host.watch(self.cell_of(place)) else {
            return;
        };
        if let Some(step) = watch.running() {
            if step.tenant == place && step.session == session {
                watch.end(&step);
            }
        }
    }

    /// Asks a worker to renew a tenant.
    fn renew(&self, tenant: u32) -> Result<Outcome, AllocError>
        ensures { IfOk result (IsRenewalOutcome self.now.first_tenant (H.tenants self.now.host) H.cells
            (E.asked self.now.control.now) tenant) }
    {
        let Some(place) = self.place_of(tenant) else {
            return Ok(Outcome::Refused(HttpRefusal::NoTenant));
        };
        if !self.control.renew(self.rt, self.cell_of(place), place) {
            return Ok(Outcome::Refused(HttpRefusal::WorkerBusy));
        }
        Ok(accepted(b"told\n".to_vec(self.alloc)?))
    }

    /// True if a session of the tenant at this place is open, as far as that can be seen in time.
    fn may_be_open(&self, place: u32, session: u32) -> bool
        requires { place < H.tenants self.now.host }
        ensures { result ≡ false → LacksSession place session }
    {
        if session >= SESSION_LIMIT as u32 {
            return false;
        }
        let mut opening = SessionReading::new(SessionId::new(session as u8));
        let mut patience = LockBudget::new(self.rt);
        match patience.read(self.host, place, &mut opening) {
            Tried::Held => true,
            _ => opening.is_open,
        }
    }

    /// The lines that make the tenant again.
    fn script(&self, tenant: u32) -> Result<Outcome, AllocError>
        ensures { IfOk result (IsScriptOutcome self.now.first_tenant (H.tenants self.now.host) self.now.bound tenant) }
    {
        let Some(place) = self.place_of(tenant) else {
            return Ok(Outcome::Refused(HttpRefusal::NoTenant));
        };
        let mut patience = LockBudget::new(self.rt);
        let notes = ScriptNotes::new(self.alloc, self.bound);
        match noted_in(&mut patience, self.host, place, notes) {
            NotedScript::Unused => Ok(found(ContentType::Text, Vec::new(self.alloc))),
            NotedScript::Script(script) => {
                let text = text_of(self.alloc, &script)?;
                Ok(found(ContentType::Text, text))
            }
            NotedScript::Lacking(DumpError::Busy) => Ok(Outcome::Refused(HttpRefusal::TenantBusy)),
            NotedScript::Lacking(DumpError::NotAlike) => {
                Ok(Outcome::Refused(HttpRefusal::NoScript))
            }
            NotedScript::Lacking(DumpError::NoMemory) => Err(AllocError),
        }
    }
}

/// The bytes of memory that the process has, if the system tells.
fn resident_of(memory: &Option<File>) -> Option<u64> {
    match memory {
        Some(file) => resident(file),
        None => None,
    }
}

/// The answer to bytes that are no request.
fn refuse(alloc: Global, why: HttpRefusal) -> Result<Vec<u8>, AllocError>
    ensures { IfOk result (λ answer. answer.items ≡ outcome_text (Outcome.Refused why) true) }
{
    Outcome::Refused(why).answer(alloc, true)
}

fn view_shown(alloc: Global, view: &TenantView) -> Result<Shown, AllocError>
    ensures { IfOk result (λ shown. (shown.status ≡ Status.Found) × (shown.kind ≡ ContentType.Page)
        × IsPageOf view.now shown.body.items) }
{
    Ok(Shown {
        status: Status::Found,
        kind: ContentType::Page,
        body: tenant_page(alloc, view)?,
    })
}

/// The outcome of a page that was found.
fn found(kind: ContentType, body: Vec<u8>) -> Outcome
    ensures { result ≡ Outcome.Shown (record { status = Status.Found; kind = kind; body = body }) }
{
    Outcome::Shown(Shown {
        status: Status::Found,
        kind,
        body,
    })
}

/// The outcome of what is done as soon as it can be.
fn accepted(body: Vec<u8>) -> Outcome
    ensures { result ≡ Outcome.Shown (record { status = Status.Accepted; kind = ContentType.Text; body = body }) }
{
    Outcome::Shown(Shown {
        status: Status::Accepted,
        kind: ContentType::Text,
        body,
    })
}
