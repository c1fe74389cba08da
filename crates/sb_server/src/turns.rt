//! A round of turns: lines are answered, answers are committed, and replies are sent.
ghost use Rattle.std.specs.Prelude.{◌≡◌, ◌⊎◌, ◌+◌, ◌≤◌, [], false, true, length, Contains, IfSome, IsFalse, IsTrue, None, Some, Option, vec_len, vec_capacity};
ghost use Rattle.slab.specs.Slab.{get};
ghost use Rattle.sb_server.specs.Closed.{GainsClosed};
ghost use Rattle.sb_server.specs.Keeping.{IsNoted};
ghost use Rattle.sb_server.specs.Sessions.{KeepsSessions};

use crate::client_connection::{ClientConnection, Next};
use crate::commit_hook::CommitHook;
use crate::renewals::Renewals;
use crate::reply_metrics::MetricsContext;
use crate::socket::Socket;
use crate::worker::Worker;
use sb_connection::{ConnectionEnd, Doorkeeper, Watch};
use sb_desk::Hosting;
use std::mem;
use std::rt::Clock;
use std::sync::Wait;
use std::time::Instant;

impl<'s, H: Hosting, V: Watch, D: Doorkeeper, K: CommitHook, E: Renewals, C: Clock> Worker<
    's,
    H,
    V,
    D,
    K,
    E,
    C,
> {
    /// Gives the queued connections their turns, as far as the time of a round goes. With a commit hook a round has three
    /// parts: all lines are answered, all answers that bind are committed at once, and then their replies are sent.
    pub(crate) fn serve_due<T: Wait>(&mut self, rt: &T)
        ensures gains { GainsClosed D.policy self.old.stubs.items self.new.stubs.items }
        ensures sessions { KeepsSessions self.old.client_connections self.new.client_connections (λ v. v.value.connection.attached) self.old.stubs.items self.new.stubs.items }
    {
        if !self.keep(rt) {
            return;
        }
        let mut due = mem::replace(&mut self.due, Vec::new(self.serving.alloc));
        let all_due = mem::replace(&mut self.all_due, false);
        if self.is_behind {
            due.sort_unstable_by_key(|key| self.time_of(*key));
        }
        self.give_turns(rt, &due, all_due);
    }

    /// The time that the tenant of a connection has had lately, in nanoseconds.
    fn time_of(&self, key: usize) -> u64 {
        self.time_shares.of(self.tenant_of(key))
    }

    /// The tenant that the first line of a connection names, if there is one.
    fn tenant_of(&self, key: usize) -> Option<u32> {
        match self.client_connections.get(key) {
            Some(client_connection) => client_connection.tenant,
            None => None,
        }
    }

    /// Gives one connection a turn of its own.
    pub(crate) fn serve_apart<T: Wait>(&mut self, rt: &T, key: usize)
        ensures gains { GainsClosed D.policy self.old.stubs.items self.new.stubs.items }
        ensures sessions { KeepsSessions self.old.client_connections self.new.client_connections (λ v. v.value.connection.attached) self.old.stubs.items self.new.stubs.items }
    {
        if self.keep(rt) {
            self.give_turns(rt, &[key], false);
        }
    }

    /// Gives these connections a turn, until the round has had its time; or all.
    fn give_turns<T: Wait>(&mut self, rt: &T, keys: &[usize], all: bool)
        requires { self.old.answered.items ≡ [] }
        ensures gains { GainsClosed D.policy self.old.stubs.items self.new.stubs.items }
        ensures sessions { KeepsSessions self.old.client_connections self.new.client_connections (λ v. v.value.connection.attached) self.old.stubs.items self.new.stubs.items }
    {
        let served = self.begin_turns(rt, keys);
        self.put_off(&keys[served..]);
        self.begin_all_turns(rt, all);
        self.finish(rt, &keys[..served], all);
    }

    /// Puts connections off to the next round.
    fn put_off(&mut self, keys: &[usize])
        ensures { (self.new.stubs ≡ self.old.stubs) × (self.new.client_connections ≡ self.old.client_connections)
            × (self.new.answered ≡ self.old.answered) }
    {
        self.is_behind = !keys.is_empty();
        if self.due.extend_from_slice(keys).is_err() {
            self.all_due = true;
        }
    }

    /// Commits the answers of a round, and sends the replies.
    fn finish<T: Wait>(&mut self, rt: &T, keys: &[usize], all: bool)
        ensures gains { GainsClosed D.policy self.old.stubs.items self.new.stubs.items }
        ensures sessions { KeepsSessions self.old.client_connections self.new.client_connections (λ v. v.value.connection.attached) self.old.stubs.items self.new.stubs.items }
    {
        if !self.serving.commit_hook.is_set() {
            return;
        }
        if self.keep(rt) {
            self.end_turns(rt, keys, all);
        } else {
            self.all_due = true;
        }
    }

    /// Begins the turns of these connections, one after another, until the round has had its time. Returns how many began.
    fn begin_turns<T: Wait>(&mut self, rt: &T, keys: &[usize]) -> usize
        ensures count { result ≤ length keys.now }
        ensures gains { GainsClosed D.policy self.old.stubs.items self.new.stubs.items }
        ensures sessions { KeepsSessions self.old.client_connections self.new.client_connections (λ v. v.value.connection.attached) self.old.stubs.items self.new.stubs.items }
    {
        let now = self.clock();
        self.time_shares.begin_round(now);
        for place in 0..keys.len() {
            if self.time_shares.is_round_over() {
                return place;
            }
            let tenant = self.tenant_of(keys[place]);
            self.begin_turn(rt, keys[place]);
            let now = self.clock();
            self.time_shares.charge(tenant, now);
        }
        keys.len()
    }

    /// The time, if the system tells it.
    fn clock(&self) -> Option<Instant> {
        Instant::now(self.serving.clock).ok()
    }

    /// Begins the turns of all connections, if all are due.
    fn begin_all_turns<T: Wait>(&mut self, rt: &T, all: bool)
        ensures gains { GainsClosed D.policy self.old.stubs.items self.new.stubs.items }
        ensures sessions { KeepsSessions self.old.client_connections self.new.client_connections (λ v. v.value.connection.attached) self.old.stubs.items self.new.stubs.items }
    {
        if !all {
            return;
        }
        for key in 0..self.client_connections.capacity() {
            self.begin_turn(rt, key);
        }
    }

    /// Sends the replies of these connections, or of all.
    fn end_turns<T: Wait>(&mut self, rt: &T, keys: &[usize], all: bool)
        requires { self.old.answered.items ≡ [] }
        ensures gains { GainsClosed D.policy self.old.stubs.items self.new.stubs.items }
        ensures sessions { KeepsSessions self.old.client_connections self.new.client_connections (λ v. v.value.connection.attached) self.old.stubs.items self.new.stubs.items }
    {
        for key in keys {
            self.give_out(rt, *key);
        }
        if all {
            self.end_all_turns(rt);
        }
    }

    /// Sends the replies of all connections.
    fn end_all_turns<T: Wait>(&mut self, rt: &T)
        requires { self.old.answered.items ≡ [] }
        ensures gains { GainsClosed D.policy self.old.stubs.items self.new.stubs.items }
        ensures sessions { KeepsSessions self.old.client_connections self.new.client_connections (λ v. v.value.connection.attached) self.old.stubs.items self.new.stubs.items }
    {
        for key in 0..self.client_connections.capacity() {
            self.give_out(rt, key);
        }
    }

    /// The first part of a connection's turn. It is the whole turn where nothing has to be kept before it is sent.
    fn begin_turn<T: Wait>(&mut self, rt: &T, key: usize)
        ensures gains { GainsClosed D.policy self.old.stubs.items self.new.stubs.items }
        ensures sessions { KeepsSessions self.old.client_connections self.new.client_connections (λ v. v.value.connection.attached) self.old.stubs.items self.new.stubs.items }
    {
        self.take_in(rt, key);
        if self.must_keep(key) {
            return;
        }
        self.give_out(rt, key);
    }

    /// True if answers are kept before replies of this connection are sent.
    fn must_keep(&self, key: usize) -> bool
        ensures { IsFalse result → (self.now.answered.items ≡ [])
            ⊎ IfSome (get self.now.client_connections key) (λ v. v.value.connection.binding ≡ 0) }
    {
        if !self.serving.commit_hook.is_set() {
            return false;
        }
        match self.client_connections.get(key) {
            Some(client_connection) => client_connection.binds(),
            None => false,
        }
    }

    /// Reads and answers what a connection has received. If its tenant is to be renewed, it is paused behind that.
    #[tactic(auto, using(crate::proofs::Counting::keeps_bit))]
    fn take_in<T: Wait>(&mut self, rt: &T, key: usize)
        ensures noted { IfSome (get self.new.client_connections key) (λ v. (get self.old.client_connections key ≡ Some v)
            ⊎ IsNoted (K.is_set self.new.serving.now.commit_hook.now) self.new.answered.items v.value.tenant v.value.connection) }
        ensures unsent { IfSome (get self.new.client_connections key) (λ v. IfSome (get self.old.client_connections key)
            (λ w. v.value.connection.handed ≡ w.value.connection.handed)) }
        ensures gains { GainsClosed D.policy self.old.stubs.items self.new.stubs.items }
        ensures sessions { KeepsSessions self.old.client_connections self.new.client_connections (λ v. v.value.connection.attached) self.old.stubs.items self.new.stubs.items }
    {
        // where there is no memory to note what is answered, nothing is
        if self.answered.reserve(1).is_err() {
            self.all_due = true;
            return;
        }
        let Some(mut client_connection) = self.take_out(key) else {
            return;
        };
        client_connection.is_due = false;
        match self.listen(rt, &mut client_connection) {
            Some(fault) => self.settle(rt, Box::into_inner(client_connection), fault),
            None => {
                let answered = client_connection.answered();
                let is_paused = self.pauses(&client_connection);
                client_connection.is_paused = is_paused;
                self.put_back(client_connection);
                self.note_answered(answered);
            }
        }
    }

    /// The first part of the turn of a connection that is taken out. Returns the fault, if there is one.
    fn listen<T: Wait>(
        &mut self,
        rt: &T,
        client_connection: &mut ClientConnection<H, Socket, D>,
    ) -> Option<ConnectionEnd>
        ensures stays { client_connection.old.connection.attached ≡ true → client_connection.new.connection.attached ≡ true }
        ensures unsent { client_connection.new.connection.handed ≡ client_connection.old.connection.handed }
        ensures tenant { client_connection.new.tenant ≡ client_connection.old.tenant }
        ensures others { (self.new.stubs ≡ self.old.stubs) × (self.new.client_connections ≡ self.old.client_connections)
            × (self.new.answered ≡ self.old.answered) }
    {
        let serving = self.serving;
        let metrics_context = self.metrics_context();
        client_connection.take_in(rt, &metrics_context, serving.doorkeeper, &mut self.buffer)
    }

    /// Where lines are counted, and who is told of slow ones.
    fn metrics_context(&self) -> MetricsContext<'s, V, C> {
        let serving = self.serving;
        MetricsContext {
            watch: serving.watch,
            clock: serving.clock,
            server_metrics: serving.server_metrics,
            place: self.place,
            slow: serving.slow(),
            woke: self.woke,
        }
    }

    /// Sends the replies of a connection. All that bind are committed.
    fn give_out<T: Wait>(&mut self, rt: &T, key: usize)
        requires { (self.old.answered.items ≡ [])
            ⊎ IfSome (get self.old.client_connections key) (λ v. v.value.connection.binding ≡ 0) }
        ensures answered { self.new.answered.items ≡ self.old.answered.items }
        ensures gains { GainsClosed D.policy self.old.stubs.items self.new.stubs.items }
        ensures sessions { KeepsSessions self.old.client_connections self.new.client_connections (λ v. v.value.connection.attached) self.old.stubs.items self.new.stubs.items }
    {
        let Some(mut client_connection) = self.take_out(key) else {
            return;
        };
        let next = client_connection.give_out();
        client_connection.note_turn(self.now());
        match next {
            Next::Waits => {
                self.put_back(client_connection);
            }
            Next::GoesOn => self.put_due(client_connection),
            Next::Ends(ending) => self.settle(rt, Box::into_inner(client_connection), ending),
        }
    }

    /// Marks a tenant to be committed at the end of the turn.
    fn note_answered(&mut self, tenant: Option<u32>)
        requires { vec_len self.old.answered + 1 ≤ vec_capacity self.old.answered }
        ensures noted { K.is_set self.new.serving.now.commit_hook.now ≡ true → IfSome tenant (Contains self.new.answered.items) }
        ensures others { (self.new.stubs ≡ self.old.stubs) × (self.new.client_connections ≡ self.old.client_connections) }
    {
        let Some(tenant) = tenant else {
            return;
        };
        if !self.serving.commit_hook.is_set() {
            return;
        }
        self.note_tenant(tenant);
    }

    /// Marks a tenant to be committed, once.
    fn note_tenant(&mut self, tenant: u32)
        requires set { K.is_set self.old.serving.now.commit_hook.now ≡ true }
        requires room { vec_len self.old.answered + 1 ≤ vec_capacity self.old.answered }
        ensures noted { Contains self.new.answered.items tenant }
        ensures others { (self.new.stubs ≡ self.old.stubs) × (self.new.client_connections ≡ self.old.client_connections) }
    {
        if self.answered.contains(&tenant) {
            return;
        }
        self.answered.push_reserved(tenant);
    }

    /// Commits what tenants were answered. True if all is durable and replies may be sent.
    fn keep<T: Wait>(&mut self, rt: &T) -> bool
        ensures all { IsTrue result → self.new.answered.items ≡ [] }
        ensures kept { IsTrue result → (self.old.answered.items ≡ [])
            ⊎ K.keeps self.old.serving.now.commit_hook.now self.old.answered.items }
        ensures not_yet { IsFalse result → self.new.answered.items ≡ self.old.answered.items }
        ensures others { (self.new.stubs.items ≡ self.old.stubs.items) × (self.new.client_connections ≡ self.old.client_connections) }
    {
        if self.answered.is_empty() {
            return !self.serving.has_lost();
        }
        if !self.serving.keep(rt, &self.answered) {
            return false;
        }
        self.answered.clear();
        true
    }
}
