//! A tenant: its steps, each with its answer and its entry in the trail.
ghost use Rattle.std.specs.Prelude.{◌≡◌, ◌↔◌, ◌≤◌, ◌<◌, ◌^◌, ◌++◌, ◌∷◌, [], ◌+◌, ℕ, List, true, false, IsTrue, IsFalse, IfOk, IfSome, OnErr, OnOk, Some, nat_le, codes, length, vec_len, vec_capacity, option_copied, option_map};
ghost use Rattle.sb_index.specs.TableSets.{TableSets};
ghost use Rattle.sb_rawlog.specs.Records.{Record};
ghost use Rattle.sb_syntax.specs.Text.{text_limit};
ghost use Rattle.sb_tenant.specs.declared.reply.Reply.TheVariants as told;
ghost use Rattle.sb_value.specs.Name.{same_name};
ghost use Rattle.sb_tenant.specs.Limits.{entry_limit, is_session, trail_limit};
ghost use Rattle.sb_catalog.specs.Definitions.{AreOrdered};
ghost use Rattle.sb_tables.specs.Held.{entries};
ghost use Rattle.sb_tenant.specs.State.{session_at, is_open as session_is_open, has_transaction as session_has_transaction, table_seen, tables_seen};
ghost use Rattle.sb_tenant.specs.Step.{is_full_for, is_end_of_open};
ghost use Rattle.sb_tenant.specs.Tenant.{state, IsLegal, IsNew, AnswersLine, MakesStep, LeavesLine};
ghost use Rattle.sb_tenant.specs.Lending.{InStep, HoldNothing, HoldRules, StaysInStep, rise_of};
ghost use Rattle.sb_tenant.specs.Volumes.{AreClosed, HasFollowing, following};

use crate::asker::Asker;
use crate::bound::Bound;
use crate::end_lines::EndLines;
use crate::lines::KnownLines;
use crate::phase::Phase;
use crate::places::reserve_here;
use crate::quota::Quota;
use crate::reply::{Answer, Entry, Line, Reply};
use crate::store::Store;
use crate::volume::Volume;
use sb_catalog::Definitions;
use sb_index::RuleIndex;
use sb_process::{StepWatch, Transactions};
use sb_rawlog::ChangeLog;
use sb_syntax::COMMAND_LIMIT;
use sb_tables::{Table, Tables};
use sb_value::{Name, Refusal, SESSION_LIMIT, SessionId, TenantId};
use std::alloc::Global;
use std::marker::Model;

/// The most entries of a tenant's trail, without those of the ends of open sessions.
pub const TRAIL_LIMIT: usize = 1_048_576;

/// From this time of a log's clock on no step is begun: what one step may add has room behind it.
const CLOCK_LIMIT: u64 = 1 << 63;

/// The line that opens a session.
pub const OPEN: &[u8] = b"open";

/// The line that ends a session.
pub const END: &[u8] = b"end";

/// A step wasn't begun: memory ran out, or what the tenant may take of it is taken, or the log's clock is at 2^63, or the
/// line is longer than a command may be.
#[derive(Clone, Copy, Debug, PartialEq, Eq)]
pub struct NotBegun;

/// A line that was sent, the same where it is in memory already, and who watches its step.
#[derive(Drop)]
pub struct Sent<'a, 'w> {
    pub line: &'a [u8],
    pub own: Option<&'a Line>,
    pub watch: Option<&'w StepWatch>,
}

/// A database of its own, with the trail of its steps.
pub struct Tenant {
    bound: Bound,
    store: Store,
    trail: Vec<Entry>,
    end_lines: EndLines,
    known_lines: KnownLines,
    quota: Quota,
    volume: Volume,
}

impl Drop for Tenant {
    fn drop(self) {
        let Self {
            bound: _,
            store: _,
            trail: _,
            end_lines: _,
            known_lines: _,
            quota: _,
            volume: _,
        } = self;
    }
}

impl Model for Tenant {
    ghost use Rattle.sb_tenant.specs.Tenant.{Tenant};

    ghost Value = { Tenant };

    ghost use Rattle.sb_tenant.specs.Remembered.{seen, IsRemembered};

    ghost view = { seen };

    ghost invariant = { IsRemembered };
}

impl Tenant {
    /// A tenant without tables and rules, its sessions closed. `bound` is its consideration limit: the most rules that
    /// are considered at an assertion point.
    pub fn new(alloc: Global, id: TenantId, bound: Bound) -> Tenant
        requires { bound.considerations ≤ 1000 }
        ensures is_new { IsNew id bound result }
        ensures in_step { (records : List Record) (clock : ℕ) (index : List (List TableSets)) →
            HoldNothing id records index → InStep result records clock index }
    {
        Tenant {
            bound,
            store: Store::new(alloc, id),
            trail: Vec::new(alloc),
            end_lines: EndLines::new(alloc),
            known_lines: KnownLines::new(alloc),
            quota: Quota::none(),
            volume: Volume::first(),
        }
    }

    /// Lets its trail, its rows, its open transactions and the texts of its rules take so many bytes. Where they are taken
    /// no line is begun any more but `end` and `rollback`, which give back. Changes that would take more are refused for
    /// want of memory.
    pub fn limit_memory(&mut self, bytes: u64)
        ensures { self.new ≡ self.old }
    {
        self.quota.set_limit(bytes);
    }

    /// The bytes that its trail, its rows, its open transactions and the texts of its rules take, as its limit counts them:
    /// an estimate that nothing rests on but the limit.
    pub fn bytes_taken(&self) -> u64 {
        let rows = self.store.database.memory.taken();
        self.quota.taken().saturating_add(rows)
    }

    /// Those of them that its trail and the texts of its rules take. A renewal gives back those of the trail.
    pub fn trail_bytes(&self) -> u64 {
        self.quota.taken()
    }

    /// The number of changes that its open transactions have in the log: a count for people, that nothing rests on.
    pub fn changes_kept(&self) -> u64 {
        self.quota.changes()
    }

    /// Its number.
    pub fn id(&self) -> TenantId
        ensures { result ≡ self.now.id }
    {
        self.store.database.id
    }

    /// Its consideration limit.
    pub fn bound(&self) -> Bound
        ensures { result ≡ self.now.bound }
    {
        self.bound
    }

    /// The volume of its life that its trail is.
    pub fn volume(&self) -> Volume
        ensures { result ≡ self.now.volume }
    {
        self.volume
    }

    /// Makes its trail the volume behind another tenant's, and takes that one's share of memory: whether there is one
    /// behind it.
    pub fn follow(&mut self, old: &Tenant) -> bool
        ensures follows { IsTrue result → self.new
            ≡ record self.old { volume = following old.now.volume (length old.now.trail) (length self.old.trail) } }
        ensures stays { IsFalse result → self.new ≡ self.old }
        ensures there { IsTrue result ↔ HasFollowing old.now.volume (length old.now.trail) }
    {
        let entries = old.trail.as_slice().len() as u64;
        let opening = self.trail.as_slice().len() as u64;
        match old.volume.following(entries, opening) {
            Some(volume) => {
                self.volume = volume;
                self.quota.limit_like(&old.quota);
                true
            }
            None => false,
        }
    }

    /// Forgets the times of marks and tests, which count in a transaction alone. With whatever log holds nothing of it,
    /// at whatever time, it is in step then.
    pub fn settle(&mut self, alloc: Global)
        requires closed { AreClosed (state self.old) }
        ensures kept { self.new ≡ record self.old { transactions = (self.new).transactions } }
        ensures in_step { (records : List Record) (clock : ℕ) (index : List (List TableSets)) →
            HoldRules self.old.id (state self.old).catalog.rules records index → InStep self.new records clock index }
    {
        self.store.database.transactions = Transactions::new(alloc);
    }

    /// Its steps alone.
    pub fn into_trail(self) -> Vec<Entry>
        ensures value { result.items ≡ self.trail }
        ensures legal { IsLegal self }
    {
        let Self {
            bound: _,
            store: _,
            trail,
            end_lines: _,
            known_lines: _,
            quota: _,
            volume: _,
        } = self;
        trail
    }

    /// Its steps so far.
    pub fn trail(&self) -> &[Entry]
        ensures value { result.now ≡ self.now.trail }
        ensures legal { IsLegal self.now }
    {
        self.trail.as_slice()
    }

    /// True if the session is open.
    pub fn is_open(&self, session: SessionId) -> bool
        ensures { result ≡ session_is_open (session_at (state self.now) session) }
    {
        in_range(session);
        match self.store.phases.get(session) {
            Phase::Closed => false,
            Phase::Idle => true,
            Phase::Active => true,
        }
    }

    /// True if one of its sessions is open.
    pub fn is_any_open(&self) -> bool
        ensures open { IsTrue result → (s : ℕ) × IsTrue (is_session s)
            × IsTrue (session_is_open (session_at (state self.now) s)) }
        ensures closed { IsFalse result → AreClosed (state self.now) }
    {
        for number in 0..SESSION_LIMIT {
            if self.is_open(SessionId::new(number as u8)) {
                return true;
            }
        }
        false
    }

    /// True if the trail has no place but for the ends of open sessions.
    pub fn is_full(&self) -> bool
        ensures { result ≡ nat_le trail_limit (state self.now).steps }
    {
        self.trail.as_slice().len() >= TRAIL_LIMIT
    }

    /// The table of that name, with the changes of all sessions.
    pub fn table(&self, name: &Name) -> Option<&Table>
        ensures { option_map (λ t. t.table) (option_copied result) ≡ table_seen (state self.now) name.now }
    {
        self.store.database.tables.by_name(name)
    }

    /// True if the session has a transaction.
    pub fn has_transaction(&self, session: SessionId) -> bool
        ensures { result ≡ session_has_transaction (session_at (state self.now) session) }
    {
        in_range(session);
        match self.store.phases.get(session) {
            Phase::Closed => false,
            Phase::Idle => false,
            Phase::Active => true,
        }
    }

    /// All tables, with the changes of all sessions.
    pub fn tables(&self) -> &Tables
        ensures { entries result.now ≡ tables_seen (state self.now) }
    {
        &self.store.database.tables
    }

    /// The rules with their order, and the rulesets.
    pub fn definitions(&self) -> &Definitions
        ensures rules { result.now.rules ≡ (state self.now).catalog.rules }
        ensures order { AreOrdered result.now.order (state self.now).catalog.rules (state self.now).catalog.pairs }
        ensures rulesets { result.now.rulesets ≡ (state self.now).catalog.rulesets }
    {
        &self.store.definitions
    }

    /// Makes a step of the line, or is refused by the full trail. Where memory runs out before the step has begun, or all
    /// is taken that the tenant may take, where the log's clock has no room for the step, and for a line of more than 4,096
    /// bytes, nothing changes. The entry shares the bytes of a line that is in memory already.
    pub fn step<L: ChangeLog>(
        &mut self,
        alloc: Global,
        log: &mut L,
        index: &mut RuleIndex,
        session: SessionId,
        sent: &Sent<'_, '_>,
    ) -> Result<Answer, NotBegun>
        requires own { IfSome sent.now.own (λ l. l.now ≡ sent.now.line.now) }
        requires in_step { InStep self.old (L.records log.old) (L.clock log.old) index.old }
        ensures ok { IfOk result (λ answer. AnswersLine self.old session sent.now.line.now answer self.new) }
        ensures err { OnErr result (LeavesLine self.old session sent.now.line.now self.new) }
        ensures legal { IsLegal self.new }
        ensures in_step { StaysInStep (rise_of result) self.old self.new session
            (L.records log.old) (L.records log.new) (L.clock log.old) (L.clock log.new) index.old index.new }
        ensures unused { OnErr result ((log.new ≡ log.old) × (index.new ≡ index.old)) }
    {
        // for the proof: the trail is legal
        let _ = &self.trail;
        if self.ends(session, sent.line) {
            return Ok(self.end(log, session));
        }
        if self.is_full() {
            return Ok(Answer {
                number: None,
                reply: Reply::No(Refusal::TrailFull),
            });
        }
        let used = self.store.database.memory.taken();
        if self.quota.refuses(used, sent.line) {
            return Err(NotBegun);
        }
        if log.now() >= CLOCK_LIMIT {
            return Err(NotBegun);
        }
        self.enter(alloc, log, index, session, sent)
    }

    /// Makes the step `open`. Error: there is no memory for the step; nothing changes.
    #[inline(never)]
    pub fn open(&mut self, alloc: Global, session: SessionId) -> Result<Answer, NotBegun>
        requires closed { session_is_open (session_at (state self.old) session) ≡ false }
        requires room { nat_le trail_limit (state self.old).steps ≡ false }
        ensures ok { IfOk result (λ answer.
            MakesStep self.old session (codes "open") answer self.new × (answer.reply ≡ told.Ok)) }
        ensures err { OnErr result (self.new ≡ self.old) }
        ensures legal { IsLegal self.new }
        ensures in_step { (records : List Record) (clock : ℕ) (index : List (List TableSets)) →
            InStep self.old records clock index → InStep self.new records clock index }
    {
        in_range(session);
        let used = self.store.database.memory.taken();
        if self.quota.refuses(used, OPEN) {
            return Err(NotBegun);
        }
        let line = make_ready(
            alloc,
            &mut self.trail,
            &mut self.end_lines,
            &mut self.known_lines,
            OPEN,
            None,
        )?;
        self.store.open(session);
        self.quota.count_entry(OPEN, &Reply::Ok);
        let entry = Entry {
            session,
            line,
            reply: Reply::Ok,
        };
        Ok(Answer {
            number: Some(put(&mut self.trail, entry)),
            reply: Reply::Ok,
        })
    }

    /// Makes the step `end`. It needs no memory.
    #[inline(never)]
    pub fn end<L: ChangeLog>(&mut self, log: &mut L, session: SessionId) -> Answer
        requires in_step { (index : List (List TableSets))
            × InStep self.old (L.records log.old) (L.clock log.old) index }
        requires open { session_is_open (session_at (state self.old) session) ≡ true }
        ensures made { MakesStep self.old session (codes "end") result self.new }
        ensures done { result.reply ≡ told.Ok }
        ensures legal { IsLegal self.new }
        ensures in_step { (index : List (List TableSets)) →
            InStep self.old (L.records log.old) (L.clock log.old) index →
            StaysInStep 0 self.old self.new session
            (L.records log.old) (L.records log.new) (L.clock log.old) (L.clock log.new) index index }
    {
        in_range(session);
        let line = self.end_lines.take();
        let changes = log.len();
        self.store.end(log, session);
        self.quota.count_changes(changes, log.len());
        self.quota.count_entry(END, &Reply::Ok);
        let entry = Entry {
            session,
            line,
            reply: Reply::Ok,
        };
        Answer {
            number: Some(put(&mut self.trail, entry)),
            reply: Reply::Ok,
        }
    }

    /// True if the line is the end of the open session.
    fn ends(&self, session: SessionId, line: &[u8]) -> bool
        ensures { result ≡ is_end_of_open (state self.now) session line.now }
    {
        self.is_open(session) && is_end(line)
    }

    /// Makes a step of the line in a trail with a place for it.
    fn enter<L: ChangeLog>(
        &mut self,
        alloc: Global,
        log: &mut L,
        index: &mut RuleIndex,
        session: SessionId,
        sent: &Sent<'_, '_>,
    ) -> Result<Answer, NotBegun>
        requires own { IfSome sent.now.own (λ l. l.now ≡ sent.now.line.now) }
        requires in_step { InStep self.old (L.records log.old) (L.clock log.old) index.old }
        requires times { L.clock log.old < 2 ^ 63 }
        requires room { is_full_for (state self.old) session sent.now.line.now ≡ false }
        requires goes_on { is_end_of_open (state self.old) session sent.now.line.now ≡ false }
        ensures ok { IfOk result (λ answer. MakesStep self.old session sent.now.line.now answer self.new) }
        ensures err { OnErr result (LeavesLine self.old session sent.now.line.now self.new) }
        ensures legal { IsLegal self.new }
        ensures in_step { StaysInStep (rise_of result) self.old self.new session
            (L.records log.old) (L.records log.new) (L.clock log.old) (L.clock log.new) index.old index.new }
        ensures unused { OnErr result ((log.new ≡ log.old) × (index.new ≡ index.old)) }
    {
        in_range(session);
        let kept = make_ready(
            alloc,
            &mut self.trail,
            &mut self.end_lines,
            &mut self.known_lines,
            sent.line,
            sent.own,
        )?;
        let asker = Asker {
            session,
            bound: self.bound,
            line: sent.line,
            watch: sent.watch,
        };
        let changes = log.len();
        let texts = self.store.definitions.rules.clause_bytes();
        self.store.limit_memory(self.quota.room());
        let (reply, copy) = self.store.answer(alloc, log, index, &asker);
        self.quota.count_changes(changes, log.len());
        let texts_now = self.store.definitions.rules.clause_bytes();
        self.quota.count_texts(texts, texts_now);
        self.quota.count_entry(sent.line, &reply);
        let entry = Entry {
            session,
            line: kept,
            reply,
        };
        Ok(Answer {
            number: Some(put(&mut self.trail, entry)),
            reply: copy,
        })
    }
}

/// True if the line is the one that ends a session.
fn is_end(line: &[u8]) -> bool
    ensures { result ≡ same_name line.now (codes "end") }
{
    match line {
        [b'e', b'n', b'd'] => true,
        _ => false,
    }
}

/// For the proofs: a session's number is below 8.
fn in_range(session: SessionId)
    ensures { is_session session ≡ true }
{
    let _number = session.number();
}

/// Has what a step needs before it begins: a place for its entry, a place and a line for the end of
/// each session, and the line, which is no longer than a command may be.
fn make_ready(
    alloc: Global,
    trail: &mut Vec<Entry>,
    end_lines: &mut EndLines,
    known_lines: &mut KnownLines,
    line: &[u8],
    own: Option<&Line>,
) -> Result<Line, NotBegun>
    requires own { IfSome own (λ l. l.now ≡ line.now) }
    ensures items { trail.new.items ≡ trail.old.items }
    ensures len { vec_len trail.new ≡ vec_len trail.old }
    ensures capacity { vec_capacity trail.old ≤ vec_capacity trail.new }
    ensures ends { end_lines.old ≤ end_lines.new }
    ensures line { IfOk result (λ kept. kept ≡ line.now) }
    ensures places { OnOk result (vec_len trail.new + 9 ≤ vec_capacity trail.new) }
    ensures filled { OnOk result (8 ≤ end_lines.new) }
    ensures short { OnOk result (length line.now ≤ text_limit) }
{
    if line.len() > COMMAND_LIMIT
        || reserve_here(alloc, trail, 1 + SESSION_LIMIT).is_err()
        || end_lines.fill(alloc, SESSION_LIMIT).is_err()
    {
        return Err(NotBegun);
    }
    let kept = match own {
        Some(line) => line.share(),
        None => known_lines.line(alloc, line),
    };
    kept.map_err(|_| NotBegun)
}

/// Puts an entry behind the others, where there is a place for it, and gives its number.
fn put(trail: &mut Vec<Entry>, entry: Entry) -> u32
    requires place { vec_len trail.old < vec_capacity trail.old }
    requires few { length trail.old.items ≤ entry_limit }
    ensures items { trail.new.items ≡ trail.old.items ++ entry ∷ [] }
    ensures len { vec_len trail.new ≡ vec_len trail.old + 1 }
    ensures capacity { vec_capacity trail.new ≡ vec_capacity trail.old }
    ensures number { result ≡ length trail.new.items }
{
    trail.push_reserved(entry);
    trail.as_slice().len() as u32
}
