//! What a tenant keeps in memory beside its trail, and how its sessions begin and end.
ghost use Rattle.std.specs.Prelude.{◌≡◌, ◌≢◌, ℕ, List, [], true};
ghost use Rattle.sb_index.specs.TableSets.{TableSets};
ghost use Rattle.sb_rawlog.specs.Records.{Record};
ghost use Rattle.sb_value.specs.Locks.{released};
ghost use Rattle.sb_tables.specs.Held.{Held};
ghost use Rattle.sb_process.specs.Sharing.{TablesAreShared};
ghost use Rattle.sb_process.specs.Transactions.{mark_of, tested_of};
ghost use Rattle.sb_rawlog.specs.Sessions.{OthersStay};
ghost use Rattle.sb_process.specs.Made.{NumbersBelow};
ghost use Rattle.sb_process.specs.Represents.{EachTransaction, IsTransaction, who_in};
ghost use Rattle.sb_tenant.specs.Ending.{concluded, IsConcluded};
ghost use Rattle.sb_tenant.specs.Limits.{is_session};
ghost use Rattle.sb_tenant.specs.Represents.{EachState, StandForSome, Holds, Leaves, StandFor, phase_at};
ghost use Rattle.sb_tenant.specs.State.{State, opening, closed, idle, active, with_session, rolled_back};
ghost use Rattle.sb_tenant.specs.Trail.{aborted};

use crate::phase::{Phase, Phases};
use crate::reply::Reply;
use sb_catalog::Definitions;
use sb_process::{Database, transactions_share_tables};
use sb_rawlog::ChangeLog;
use sb_value::{SessionId, TenantId};
use std::alloc::Global;

/// The tables with their locks and transactions, the rules, and how far the sessions are.
pub(crate) struct Store {
    pub(crate) database: Database,
    pub(crate) definitions: Definitions,
    pub(crate) phases: Phases,
}

impl Drop for Store {
    fn drop(self) {
        let Self {
            database: _,
            definitions: _,
            phases: _,
        } = self;
    }
}

/// The end of a session's transaction.
#[derive(Clone, Copy)]
pub(crate) enum Ending {
    /// Its changes are kept.
    Keep,
    /// All of it is taken back.
    TakeBack,
}

/// Two copies of a reply: one for the trail, one for the answer.
pub(crate) type Replies = (Reply, Reply);

impl Store {
    /// Nothing is defined, and all sessions are closed.
    pub(crate) fn new(alloc: Global, id: TenantId) -> Store
        ensures id { result.database.id ≡ id }
        ensures holds { (origin : List Held) × Holds origin result opening }
        ensures marks { (s r : ℕ) → mark_of result.database.transactions s r ≡ 0 }
        ensures tested { (s r : ℕ) → tested_of result.database.transactions s r ≡ 0 }
        ensures tables { result.database.tables ≡ [] }
    {
        Store {
            database: Database::new(alloc, id),
            definitions: Definitions::new(alloc),
            phases: Phases::new(),
        }
    }

    /// Sets the most bytes that rows and open transactions may take, if there is a limit.
    pub(crate) fn limit_memory(&mut self, room: Option<u64>)
        ensures { self.new ≡ record self.old { database = record self.old.database { memory = self.new.database.memory } } }
    {
        self.database.memory.set_room(room);
    }

    /// Opens a session.
    #[inline(never)]
    pub(crate) fn open(&mut self, session: SessionId)
        requires { phase_at self.old.phases session ≡ Phase.Closed }
        ensures opened { (records : List Record) (clock : ℕ) (index : List (List TableSets)) →
            EachState self.old records clock index
            (λ state. StandFor self.new records clock index (with_session state session idle)) }
        ensures holds { (origin : List Held) (state : State) →
            Holds origin self.old state → Holds origin self.new (with_session state session idle) }
        ensures database { self.new.database ≡ self.old.database }
    {
        tables_are_shared(session);
        self.phases.set(session, Phase::Idle);
    }

    /// Ends a session, and takes its transaction back.
    #[inline(never)]
    pub(crate) fn end<L: ChangeLog>(&mut self, log: &mut L, session: SessionId)
        requires { StandForSome self.old (L.records log.old) (L.clock log.old) }
        ensures ended { (index : List (List TableSets)) → EachState self.old (L.records log.old) (L.clock log.old) index
            (λ state. StandFor self.new (L.records log.new) (L.clock log.new) index
            (with_session (rolled_back state session) session closed)) }
        ensures leaves { Leaves 0 self.old self.new session
            (L.records log.old) (L.records log.new) (L.clock log.old) (L.clock log.new) }
    {
        self.abort(log, session);
        self.close(session);
    }

    /// Closes a session that has no transaction. It has no locks any more.
    fn close(&mut self, session: SessionId)
        requires { phase_at self.old.phases session ≢ Phase.Active }
        ensures closed { (records : List Record) (clock : ℕ) (index : List (List TableSets)) →
            EachState self.old records clock index
            (λ state. StandFor self.new records clock index (record
            (with_session state session closed) { locks = released state.locks session })) }
        ensures id { self.new.database.id ≡ self.old.database.id }
        ensures tables { self.new.database.tables ≡ self.old.database.tables }
    {
        tables_are_shared(session);
        self.database.locks.release(session);
        self.phases.set(session, Phase::Closed);
    }

    /// Begins a transaction.
    pub(crate) fn begin(&mut self, session: SessionId)
        requires { phase_at self.old.phases session ≡ Phase.Idle }
        ensures begun { (records : List Record) (clock : ℕ) (index : List (List TableSets)) →
            EachState self.old records clock index
            (λ state. StandFor self.new records clock index (with_session state session (active [] (λ id. 0)))) }
        ensures tables { self.new.database.tables ≡ self.old.database.tables }
        ensures id { self.new.database.id ≡ self.old.database.id }
    {
        tables_are_shared(session);
        self.database.begin(session);
        self.phases.set(session, Phase::Active);
    }

    /// Ends a session's transaction: it is kept, or taken back.
    pub(crate) fn conclude<L: ChangeLog>(&mut self, log: &mut L, session: SessionId, ending: Ending)
        requires stand { StandForSome self.old (L.records log.old) (L.clock log.old) }
        requires active { phase_at self.old.phases session ≡ Phase.Active }
        ensures concluded { (index : List (List TableSets)) →
            EachState self.old (L.records log.old) (L.clock log.old) index
            (λ state. StandFor self.new (L.records log.new) (L.clock log.new) index (concluded ending state session)) }
        ensures leaves { Leaves 0 self.old self.new session
            (L.records log.old) (L.records log.new) (L.clock log.old) (L.clock log.new) }
        ensures idle { phase_at self.new.phases session ≡ Phase.Idle }
    {
        tables_are_shared(session);
        end_in(&mut self.database, log, session, ending);
        self.phases.set(session, Phase::Idle);
    }

    /// Takes a session's transaction back, if it has one.
    pub(crate) fn abort<L: ChangeLog>(&mut self, log: &mut L, session: SessionId)
        requires { StandForSome self.old (L.records log.old) (L.clock log.old) }
        ensures aborted { (index : List (List TableSets)) →
            EachState self.old (L.records log.old) (L.clock log.old) index
            (λ state. StandFor self.new (L.records log.new) (L.clock log.new) index (aborted state session)) }
        ensures leaves { Leaves 0 self.old self.new session
            (L.records log.old) (L.records log.new) (L.clock log.old) (L.clock log.new) }
        ensures none { phase_at self.new.phases session ≢ Phase.Active }
    {
        // for the proof: a session's number is below 8
        let _number = session.number();
        match self.phases.get(session) {
            Phase::Active => self.conclude(log, session, Ending::TakeBack),
            Phase::Idle => {}
            Phase::Closed => {}
        }
    }
}

/// Ends the transaction in the database.
fn end_in<L: ChangeLog>(database: &mut Database, log: &mut L, session: SessionId, ending: Ending)
    requires { IsTransaction database.old session (L.records log.old) (L.clock log.old) }
    ensures concluded { EachTransaction database.old session (L.records log.old) (L.clock log.old)
        (λ origin setting progress.
        IsConcluded ending origin database.old database.new session (L.records log.new) setting progress) }
    ensures others { OthersStay (who_in database.old session) (L.records log.old) (L.records log.new) }
    ensures clock { L.clock log.new ≡ L.clock log.old }
    ensures transactions { database.new.transactions ≡ database.old.transactions }
    ensures numbers { (n : ℕ) → NumbersBelow n database.old.tables → NumbersBelow n database.new.tables }
{
    match ending {
        Ending::Keep => database.commit(log, session),
        Ending::TakeBack => database.rollback(log, session),
    }
}

/// For the proofs: the transactions may be taken in any order, and a session's number is below 8.
pub(crate) fn tables_are_shared(session: SessionId)
    ensures laws { TablesAreShared }
    ensures in_range { is_session session ≡ true }
{
    transactions_share_tables();
    let _number = session.number();
}
