//! Plays records: each is a call of a host, or the renewal of a tenant.
ghost use Rattle.std.specs.Prelude.{◌≡◌, ◌<◌, ◌≤◌, ◌*◌, ◌+◌, ◌++◌, ◌^◌, ℕ, List, [], length, map, flat_map, replicate, false, option_map, option_to_list, slice_get, slice_set, IfErr, IfOk, SomeIff, IsFalse, IsTrue, None, OnOk, Some};
ghost use Rattle.sb_backup.specs.Renewals.{Renewed};
ghost use Rattle.sb_durable.specs.Replays.{AreClosed, Becomes, Begins, IsClosed, MakesStep, PlaysLine, IsUnrenewed, PlaysRenewal, RefusesRenewal, Stays, changed, none_open, playing_of, receipts_in};
ghost use Rattle.sb_durable.specs.Recording.{HasRenewed, first_reach, renewed};
ghost use Rattle.sb_durable.specs.declared.recorded_reach.RecordedReach.{RecordedReach as ItsReach};
ghost use Rattle.sb_durable.specs.Records.{entry_of};
ghost use Rattle.sb_desk.specs.Calls.{Session as ItsSession, shown};
ghost use Rattle.sb_desk.specs.Receipts.{newcomer};
ghost use Rattle.sb_desk.specs.declared.stub.Stub.{Stub as ItsStub};
ghost use Rattle.sb_tenant.specs.Trail.{is_no_memory};

use crate::entry_reader::ROLLBACK;
use crate::record::is_renewal;
use crate::replay::{PlayFault, Plays};
use crate::{Record, RecordedReach};
use sb_backup::{Unrenewed, renew_tenant};
use sb_desk::{CallError, Calling, NoGate, Stub};
use sb_host::Renewing;
use sb_tenant::{Answer, Bound, OPEN, Reply};
use sb_value::{Refusal, SESSION_LIMIT};
use std::alloc::{AllocError, Global};
use std::mem;
use std::sync::Wait;

/// The sessions that records have opened.
#[derive(Drop)]
pub(crate) struct Player<H: Renewing> {
    alloc: Global,
    host: H,
    /// The bound of each step.
    bound: Bound,
    /// Eight for each tenant.
    sessions: Vec<Option<H::Session>>,
    /// The receipts of each tenant's closed sessions, of its newest trail.
    stubs: Vec<Vec<Stub>>,
    /// The reach of each tenant: it is played so far.
    reaches: Vec<RecordedReach>,
    ghost few: { bound.considerations ≤ 1000 },
    ghost eight: { length sessions.items ≡ 8 * length reaches.items },
    ghost each: { length stubs.items ≡ length reaches.items },
}

/// A session after a call.
#[derive(Drop)]
struct Called<S> {
    /// The session, if it is still open.
    session: Option<S>,
    /// Its receipts, if it has ended.
    stub: Option<Stub>,
    /// The number of the step that was made.
    number: u32,
}

impl<H: Renewing> Player<H> {
    pub(crate) fn new(alloc: Global, host: H, bound: Bound) -> Result<Player<H>, AllocError>
        requires { bound.considerations ≤ 1000 }
        ensures { IfOk result (λ player. playing_of H.Session.seen player.sessions.items player.stubs.items player.reaches.items
            ≡ none_open (H.tenants host)) }
    {
        let tenants = host.tenants() as usize;
        let mut sessions = Vec::new(alloc);
        for _place in 0..SESSION_LIMIT * tenants {
            sessions.push(None)?;
        }
        let stubs = no_stubs(alloc, tenants)?;
        let reaches = first_reaches(alloc, tenants)?;
        Ok(Player {
            alloc,
            host,
            bound,
            sessions,
            stubs,
            reaches,
        })
    }

    /// Calls the session of a record with its line, or renews its tenant.
    fn play_record<T: Wait>(&mut self, rt: &T, line: Record) -> Result<(), PlayFault>
        ensures { OnOk result (PlaysLine
            (playing_of H.Session.seen self.old.sessions.items self.old.stubs.items self.old.reaches.items) (entry_of line.entry)
            (playing_of H.Session.seen self.new.sessions.items self.new.stubs.items self.new.reaches.items)) }
    {
        let tenant = line.tenant as usize;
        if tenant >= self.reaches.len() {
            return Err(PlayFault::NoTenant);
        }
        if line.session as usize >= SESSION_LIMIT {
            return self.renew(rt, line);
        }
        let place = SESSION_LIMIT * tenant + line.session as usize;
        match take_at(&mut self.sessions, place) {
            Some(session) => match call(rt, self.alloc, session, line.text) {
                Ok(called) => self.settle(line, place, called),
                Err(fault) => Err(fault),
            },
            None => self.begin(rt, line, place),
        }
    }

    /// Renews the tenant of a record: no session of it may be open.
    fn renew<T: Wait>(&mut self, rt: &T, line: Record) -> Result<(), PlayFault>
        requires { line.tenant < length self.old.reaches.items }
        ensures renews { OnOk result (PlaysRenewal
            (playing_of H.Session.seen self.old.sessions.items self.old.stubs.items self.old.reaches.items) (entry_of line.entry)
            (playing_of H.Session.seen self.new.sessions.items self.new.stubs.items self.new.reaches.items)) }
        ensures refused { IfErr result (RefusesRenewal
            (playing_of H.Session.seen self.old.sessions.items self.old.stubs.items self.old.reaches.items) (entry_of line.entry)) }
    {
        let tenant = line.tenant as usize;
        if !is_renewal(line) {
            return Err(PlayFault::NoSession);
        }
        if is_any_open(&self.sessions, tenant) {
            return Err(PlayFault::NotClosed);
        }
        let stubs = &mut self.stubs[tenant];
        match renew_by(rt, self.alloc, self.host, line.tenant, self.bound, stubs) {
            Ok(opening) => match pass_opening(&mut self.reaches, tenant, opening) {
                true => Ok(()),
                false => Err(PlayFault::TrailFull),
            },
            Err(why) => Err(why),
        }
    }

    /// Opens a session: the line has to be `open`. An abort of a session that is not open does nothing.
    fn begin<T: Wait>(&mut self, rt: &T, line: Record, place: usize) -> Result<(), PlayFault>
        requires within { (line.tenant < length self.old.reaches.items) × (place < length self.old.sessions.items) }
        requires place { place ≡ 8 * line.tenant + line.session }
        ensures { OnOk result (Begins
            (playing_of H.Session.seen self.old.sessions.items self.old.stubs.items self.old.reaches.items) (entry_of line.entry)
            (playing_of H.Session.seen self.new.sessions.items self.new.stubs.items self.new.reaches.items)) }
    {
        if line.text == ROLLBACK {
            return Ok(());
        }
        if line.text == OPEN {
            return self.open(rt, line, place);
        }
        Err(PlayFault::NotOpen)
    }

    /// Opens the session of a record.
    fn open<T: Wait>(&mut self, rt: &T, line: Record, place: usize) -> Result<(), PlayFault>
        requires within { (line.tenant < length self.old.reaches.items) × (place < length self.old.sessions.items) }
        requires place { place ≡ 8 * line.tenant + line.session }
        ensures { OnOk result ((number : ℕ) × Becomes
            (playing_of H.Session.seen self.old.sessions.items self.old.stubs.items self.old.reaches.items) (entry_of line.entry)
            (playing_of H.Session.seen self.new.sessions.items self.new.stubs.items self.new.reaches.items)
            (Some (shown (newcomer line.entry.tenant line.entry.session number))) number None) }
    {
        match self
            .host
            .attach(rt, self.alloc, line.tenant, u32::from(line.session))
        {
            Ok(session) => {
                count_step(&mut self.reaches, line.tenant as usize, opened_by(&session));
                self.sessions[place] = Some(session);
                Ok(())
            }
            Err(error) => Err(PlayFault::Refused(error)),
        }
    }

    /// Puts the session back after a call, or keeps its receipts if it has ended.
    fn settle(
        &mut self,
        line: Record,
        place: usize,
        called: Called<H::Session>,
    ) -> Result<(), PlayFault>
        requires within { (line.tenant < length self.old.reaches.items) × (place < length self.old.sessions.items) }
        requires place { place ≡ 8 * line.tenant + line.session }
        ensures { OnOk result (Becomes
            (playing_of H.Session.seen self.old.sessions.items self.old.stubs.items self.old.reaches.items) (entry_of line.entry)
            (playing_of H.Session.seen self.new.sessions.items self.new.stubs.items self.new.reaches.items)
            (option_map H.Session.seen called.session) called.number called.stub) }
    {
        let Called {
            session,
            stub,
            number,
        } = called;
        count_step(&mut self.reaches, line.tenant as usize, number);
        self.sessions[place] = session;
        match add(&mut self.stubs[line.tenant as usize], stub) {
            Ok(()) => Ok(()),
            Err(_) => Err(PlayFault::NoMemory),
        }
    }

    /// Ends the open sessions. Returns the receipts of all sessions, and how far each tenant was played before.
    pub(crate) fn end_all<T: Wait>(
        self,
        rt: &T,
    ) -> Result<(Vec<Stub>, Vec<RecordedReach>), AllocError>
        ensures { IfOk result (λ left. (closed : List ItsStub)
            × AreClosed (map (option_map H.Session.seen) self.sessions.items) closed
            × (left.0.items ≡ flat_map (λ own. own.items) self.stubs.items ++ closed) × (left.1.items ≡ self.reaches.items)) }
    {
        let Player {
            alloc,
            sessions,
            stubs,
            reaches,
            ..
        } = self;
        let mut all = gather(alloc, stubs)?;
        for session in sessions {
            add(&mut all, closed(rt, session))?;
        }
        Ok((all, reaches))
    }
}

impl<H: Renewing> Plays for Player<H> {
    ghost use Rattle.sb_durable.specs.Replays.{PlaysLine, playing_of};

    ghost plays = { λ old r new. PlaysLine
        (playing_of H.Session.seen old.sessions.items old.stubs.items old.reaches.items) r
        (playing_of H.Session.seen new.sessions.items new.stubs.items new.reaches.items) };

    fn play<T: Wait>(&mut self, rt: &T, _alloc: Global, line: Record) -> Result<(), PlayFault> {
        self.play_record(rt, line)
    }
}

/// For each tenant no stubs.
fn no_stubs(alloc: Global, tenants: usize) -> Result<Vec<Vec<Stub>>, AllocError>
    ensures { IfOk result (λ lists. map (λ own. own.items) lists.items ≡ replicate tenants []) }
{
    let mut lists = Vec::new(alloc);
    for _tenant in 0..tenants {
        lists.push(Vec::new(alloc))?;
    }
    Ok(lists)
}

/// For each tenant the beginning.
fn first_reaches(alloc: Global, tenants: usize) -> Result<Vec<RecordedReach>, AllocError>
    ensures { IfOk result (λ reaches. reaches.items ≡ replicate tenants first_reach) }
{
    let mut reaches = Vec::new(alloc);
    for _tenant in 0..tenants {
        reaches.push(RecordedReach::first())?;
    }
    Ok(reaches)
}

/// Counts the newest step of a tenant.
fn count_step(reaches: &mut Vec<RecordedReach>, tenant: usize, number: u32)
    requires { tenant < length reaches.old.items }
    ensures counted { reaches.new.items ≡ changed (λ reach. record { volume = reach.volume; entries = number }) tenant reaches.old.items }
    ensures len { length reaches.new.items ≡ length reaches.old.items }
{
    let before = reaches[tenant];
    reaches[tenant] = RecordedReach {
        volume: before.volume,
        entries: number,
    };
}

/// Passes over the opening of a tenant's next volume, which has so many entries. False where a count has no room.
fn pass_opening(reaches: &mut Vec<RecordedReach>, tenant: usize, opening: u64) -> bool
    requires { tenant < length reaches.old.items }
    ensures passed { IsTrue result → reaches.new.items ≡ changed (λ reach. renewed reach opening) tenant reaches.old.items }
    ensures refused { IsFalse result → (reach : ItsReach) → slice_get reaches.old.items tenant ≡ Some reach → HasRenewed reach opening → ⊥ }
    ensures len { length reaches.new.items ≡ length reaches.old.items }
{
    match reaches[tenant].renewed(opening) {
        Some(reach) => {
            reaches[tenant] = reach;
            true
        }
        None => false,
    }
}

/// The number of receipts that these stubs have. None where a count has no room.
fn count_receipts(stubs: &[Stub]) -> Option<u64>
    ensures { SomeIff result (receipts_in stubs.now < 2 ^ 64) (receipts_in stubs.now) }
{
    let mut count: u64 = 0;
    for stub in stubs {
        count = count.checked_add(stub.list().len() as u64)?;
    }
    Some(count)
}

/// True if a session of this tenant is open.
fn is_any_open<S>(sessions: &[Option<S>], tenant: usize) -> bool
    requires { 8 * tenant + 8 ≤ length sessions.now }
    ensures none { IsFalse result → (s : ℕ) → s < 8 → slice_get sessions.now (8 * tenant + s) ≡ Some None }
    ensures one { IsTrue result → (s : ℕ) × (s < 8) × ((own : S) × (slice_get sessions.now (8 * tenant + s) ≡ Some (Some own))) }
{
    for session in 0..SESSION_LIMIT {
        if sessions[SESSION_LIMIT * tenant + session].is_some() {
            return true;
        }
    }
    false
}

/// Renews a tenant. What its opening left takes the place of what its sessions have left. Returns how many receipts that
/// has. Error: why it isn't renewed, or TrailFull where the count has no room.
fn renew_by<H: Renewing, T: Wait>(
    rt: &T,
    alloc: Global,
    host: H,
    tenant: u32,
    bound: Bound,
    stubs: &mut Vec<Stub>,
) -> Result<u64, PlayFault>
    requires { bound.considerations ≤ 1000 }
    ensures renews { IfOk result (λ count. Renewed tenant stubs.old.items stubs.new.items × (count ≡ receipts_in stubs.new.items)) }
    ensures refused { IfErr result IsUnrenewed }
{
    let left = mem::replace(stubs, Vec::new(alloc));
    match renew_tenant(rt, alloc, host, tenant, bound, left) {
        Ok(opening) => {
            let count = count_receipts(&opening);
            *stubs = opening;
            count.ok_or(PlayFault::TrailFull)
        }
        Err(unrenewed) => {
            let Unrenewed { why, stubs: back } = unrenewed;
            *stubs = back;
            Err(PlayFault::NotRenewed(why))
        }
    }
}

/// All receipts in one list.
fn gather(alloc: Global, lists: Vec<Vec<Stub>>) -> Result<Vec<Stub>, AllocError>
    ensures { IfOk result (λ stubs. stubs.items ≡ flat_map (λ own. own.items) lists.items) }
{
    let mut stubs = Vec::new(alloc);
    for mut own in lists {
        stubs.append(&mut own)?;
    }
    Ok(stubs)
}

/// Takes the session at this place, if it is open.
fn take_at<S>(sessions: &mut Vec<Option<S>>, place: usize) -> Option<S>
    requires { place < length sessions.old.items }
    ensures taken { slice_get sessions.old.items place ≡ Some result }
    ensures left { sessions.new.items ≡ slice_set sessions.old.items place None }
    ensures len { length sessions.new.items ≡ length sessions.old.items }
{
    sessions[place].take()
}

/// Adds receipts to the list, if there are some.
fn add(stubs: &mut Vec<Stub>, own: Option<Stub>) -> Result<(), AllocError>
    ensures { OnOk result (stubs.new.items ≡ stubs.old.items ++ option_to_list own) }
{
    match own {
        Some(stub) => match stubs.push(stub) {
            Ok(()) => Ok(()),
            Err(_) => Err(AllocError),
        },
        None => Ok(()),
    }
}

/// Closes a session, if it is open.
fn closed<S: Calling, T: Wait>(rt: &T, session: Option<S>) -> Option<Stub>
    ensures { IsClosed (option_map S.seen session) result }
{
    match session {
        Some(session) => Some(session.close(rt)),
        None => None,
    }
}

/// The number of the step that opened a session.
fn opened_by<S: Calling>(session: &S) -> u32
    ensures { (tenant place number : ℕ) → S.seen session.now ≡ shown (newcomer tenant place number) → result ≡ number }
{
    match session.list().first() {
        Some(receipt) => receipt.answer.number.unwrap_or(0),
        None => 0,
    }
}

/// Calls a session with a line.
fn call<S: Calling, T: Wait>(
    rt: &T,
    alloc: Global,
    mut session: S,
    line: &[u8],
) -> Result<Called<S>, PlayFault>
    ensures { IfOk result (λ called. (own : ItsSession) × MakesStep (S.seen session) line.now called.number own
        × Stays own (option_map S.seen called.session) called.stub) }
{
    let number = match step(rt, alloc, &mut session, line) {
        Ok(number) => number,
        Err(fault) => return Err(fault),
    };
    if session.ended() {
        return Ok(Called {
            session: None,
            stub: Some(session.close(rt)),
            number,
        });
    }
    Ok(Called {
        session: Some(session),
        stub: None,
        number,
    })
}

/// Makes the step of a line. Returns its number.
fn step<S: Calling, T: Wait>(
    rt: &T,
    alloc: Global,
    session: &mut S,
    line: &[u8],
) -> Result<u32, PlayFault>
    ensures { IfOk result (λ number. MakesStep (S.seen session.old) line.now number (S.seen session.new)) }
{
    match session.step(rt, alloc, line, &NoGate) {
        Ok(()) => match session.last() {
            Some(answer) => number_of(answer),
            None => Err(PlayFault::TrailFull),
        },
        Err(CallError::NotBegun) => Err(PlayFault::NoMemory),
        Err(CallError::Ended) => Err(PlayFault::NotOpen),
    }
}

/// The number of a step that was made in full.
pub(crate) fn number_of(answer: &Answer) -> Result<u32, PlayFault>
    ensures { IfOk result (λ number. (answer.now.number ≡ Some number) × (is_no_memory answer.now.reply ≡ false)) }
{
    match &answer.reply {
        Reply::No(Refusal::NoMemory) => Err(PlayFault::NoMemory),
        _ => answer.number.ok_or(PlayFault::TrailFull),
    }
}
