//! How a worker renews its tenants: their connections stay open.
ghost use Rattle.std.specs.Prelude.{◌≡◌, ◌+◌, ◌-◌, ◌<◌, ◌≤◌, ◌++◌, [], false, true, cond, length, All, Contains, IfSome, IsTrue, IsPermutation, Option, option_to_list, vec_len, vec_capacity};
ghost use Rattle.sb_desk.specs.declared.stub.Stub.{Stub as ItsStub};
ghost use Rattle.slab.specs.Slab.{slab_len};
ghost use Rattle.sb_connection.specs.History.{Transacts};
ghost use Rattle.sb_server.specs.Renewals.{IsLeft, KeepsOrRenews, SameConnections};
ghost use Rattle.sb_server.specs.Sessions.{session_count};

use crate::client_connection::ClientConnection;
use crate::commit_hook::CommitHook;
use crate::renewals::Renewals;
use crate::socket::Socket;
use crate::worker::Worker;
use sb_connection::{Doorkeeper, Watch};
use sb_desk::{Hosting, Stub};
use std::mem;
use std::rt::Clock;
use std::sync::Wait;

impl<'s, H: Hosting, V: Watch, D: Doorkeeper, K: CommitHook, E: Renewals, C: Clock> Worker<
    's,
    H,
    V,
    D,
    K,
    E,
    C,
> {
    /// True if a connection is not read any more until its tenant is renewed: that is due, and it has no transaction. The
    /// tenant is noted then. It is false without memory for the note.
    pub(crate) fn pauses(&mut self, client_connection: &ClientConnection<H, Socket, D>) -> bool
        ensures rests { IsTrue result → client_connection.now.connection.attached ≡ true → Transacts client_connection.now.connection false }
        ensures may { IsTrue result → E.may_renew ≡ true }
        ensures noted { IsTrue result → IfSome client_connection.now.tenant (Contains self.new.renewing.items) }
        ensures others { (self.new.stubs ≡ self.old.stubs) × (self.new.client_connections ≡ self.old.client_connections)
            × (self.new.answered ≡ self.old.answered) }
    {
        let Some(tenant) = client_connection.tenant else {
            return false;
        };
        if client_connection.has_transaction() {
            return false;
        }
        if !self.serving.renewals.is_due(tenant) {
            return false;
        }
        self.note_renewal(tenant)
    }

    /// Notes a tenant that is renewed next, if it can be. False without memory.
    pub(crate) fn note_renewal(&mut self, tenant: u32) -> bool
        ensures noted { IsTrue result → Contains self.new.renewing.items tenant }
        ensures others { (self.new.stubs ≡ self.old.stubs) × (self.new.client_connections ≡ self.old.client_connections)
            × (self.new.answered ≡ self.old.answered) }
    {
        if self.renewing.contains(&tenant) {
            return true;
        }
        match self.renewing.push(tenant) {
            Ok(()) => true,
            Err(_) => false,
        }
    }

    /// Notes the tenant of a connection that awaits a renewal.
    pub(crate) fn note_awaiting(&mut self, key: usize)
        ensures { (self.new.stubs ≡ self.old.stubs) × (self.new.client_connections ≡ self.old.client_connections)
            × (self.new.answered ≡ self.old.answered) }
    {
        let Some(tenant) = self.awaited(key) else {
            return;
        };
        self.has_paused = true;
        let _or_at_the_next_sweep = self.note_renewal(tenant);
    }

    /// The tenant of a connection that awaits a renewal.
    fn awaited(&self, key: usize) -> Option<u32> {
        match self.client_connections.get(key) {
            Some(client_connection) if client_connection.awaits_renewal() => {
                client_connection.tenant
            }
            _ => None,
        }
    }

    /// Renews the tenants that are noted, as far as that can be done now. What was answered is committed first.
    pub(crate) fn renew_noted<T: Wait>(&mut self, rt: &T)
        ensures keeps { KeepsOrRenews D.policy E.may_renew E.takes self.old.client_connections self.new.client_connections
            (λ v. v.value.connection.attached) self.old.stubs.items self.new.stubs.items }
        ensures same { SameConnections self.old.client_connections self.new.client_connections }
    {
        if !self.answered.is_empty() {
            return;
        }
        let noted = mem::replace(&mut self.renewing, Vec::new(self.serving.alloc));
        for tenant in &noted {
            self.renew(rt, *tenant);
        }
    }

    /// Renews a tenant, if that is due and none of its connections has a transaction. They go on behind it, and where it
    /// can't be done, too.
    fn renew<T: Wait>(&mut self, rt: &T, tenant: u32)
        ensures keeps { KeepsOrRenews D.policy E.may_renew E.takes self.old.client_connections self.new.client_connections
            (λ v. v.value.connection.attached) self.old.stubs.items self.new.stubs.items }
        ensures same { SameConnections self.old.client_connections self.new.client_connections }
    {
        if !self.serving.renewals.is_due(tenant) {
            self.resume_all(rt, tenant);
        } else if self.is_at_rest(tenant) {
            self.renew_at_rest(rt, tenant);
        } else {
            self.serving.renewals.put_off(tenant);
            self.has_paused = true;
        }
    }

    /// True if no connection of a tenant has a transaction.
    fn is_at_rest(&self, tenant: u32) -> bool {
        for key in 0..self.client_connections.capacity() {
            if self.is_busy(key, tenant) {
                return false;
            }
        }
        true
    }

    /// True if a connection is one of the tenant's and has a transaction.
    fn is_busy(&self, key: usize, tenant: u32) -> bool {
        match self.client_connections.get(key) {
            Some(client_connection) => {
                client_connection.is_of(tenant) && client_connection.has_transaction()
            }
            None => false,
        }
    }

    /// Renews a tenant none of whose connections has a transaction.
    fn renew_at_rest<T: Wait>(&mut self, rt: &T, tenant: u32)
        requires { E.may_renew ≡ true }
        ensures keeps { KeepsOrRenews D.policy E.may_renew E.takes self.old.client_connections self.new.client_connections
            (λ v. v.value.connection.attached) self.old.stubs.items self.new.stubs.items }
        ensures same { SameConnections self.old.client_connections self.new.client_connections }
    {
        self.end_volume(rt, tenant);
        self.resume_all(rt, tenant);
    }

    /// The sessions of a tenant leave the volume of its trail, and their receipts go to its renewal.
    fn end_volume<T: Wait>(&mut self, rt: &T, tenant: u32)
        requires { E.may_renew ≡ true }
        ensures keeps { KeepsOrRenews D.policy E.may_renew E.takes self.old.client_connections self.new.client_connections
            (λ v. v.value.connection.attached) self.old.stubs.items self.new.stubs.items }
        ensures same { SameConnections self.old.client_connections self.new.client_connections }
    {
        if !self.suspend_all(rt, tenant) {
            return;
        }
        self.give_receipts(rt, tenant);
    }

    /// The sessions of a tenant leave the volume of its trail. False if there was no memory for the receipts of one.
    fn suspend_all<T: Wait>(&mut self, rt: &T, tenant: u32) -> bool
        requires { E.may_renew ≡ true }
        ensures keeps { KeepsOrRenews D.policy E.may_renew E.takes self.old.client_connections self.new.client_connections
            (λ v. v.value.connection.attached) self.old.stubs.items self.new.stubs.items }
        ensures same { SameConnections self.old.client_connections self.new.client_connections }
    {
        for key in 0..self.client_connections.capacity() {
            if !self.suspend(rt, key, tenant) {
                return false;
            }
        }
        true
    }

    /// The session of a connection leaves the volume, if it is one of the tenant's. False without memory for its
    /// receipts.
    fn suspend<T: Wait>(&mut self, rt: &T, key: usize, tenant: u32) -> bool
        requires { E.may_renew ≡ true }
        ensures keeps { KeepsOrRenews D.policy E.may_renew E.takes self.old.client_connections self.new.client_connections
            (λ v. v.value.connection.attached) self.old.stubs.items self.new.stubs.items }
        ensures same { SameConnections self.old.client_connections self.new.client_connections }
    {
        let Some(mut client_connection) = self.take_out(key) else {
            return true;
        };
        if !client_connection.is_of(tenant) {
            self.put_back(client_connection);
            return true;
        }
        let has_left = self.detach(rt, &mut client_connection);
        self.put_back(client_connection);
        has_left
    }

    /// The session of a connection that is taken out leaves the volume, and its receipts are kept. False without memory
    /// for them.
    fn detach<T: Wait>(
        &mut self,
        rt: &T,
        client_connection: &mut ClientConnection<H, Socket, D>,
    ) -> bool
        requires may { E.may_renew ≡ true }
        requires stub { vec_len self.old.stubs + (slab_len self.old.client_connections + 1) ≤ vec_capacity self.old.stubs }
        ensures left { (stub : Option ItsStub) × (self.new.stubs.items ≡ self.old.stubs.items ++ option_to_list stub)
            × IfSome stub (IsLeft D.policy E.may_renew)
            × (cond client_connection.old.connection.attached 1 0 ≤ cond client_connection.new.connection.attached 1 0 + length (option_to_list stub)) }
        ensures stub { vec_len self.new.stubs + (slab_len self.new.client_connections + 1) ≤ vec_capacity self.new.stubs }
        ensures others { self.new.client_connections ≡ self.old.client_connections }
    {
        if self
            .stubs
            .reserve(self.client_connections.len() + 2)
            .is_err()
        {
            return false;
        }
        if let Some(stub) = client_connection.suspend(rt) {
            self.stubs.push_reserved(stub);
        }
        true
    }

    /// Gives the receipts of a tenant's sessions to its renewal. Without memory the worker keeps them.
    fn give_receipts<T: Wait>(&mut self, rt: &T, tenant: u32)
        requires { E.may_renew ≡ true }
        ensures keeps { KeepsOrRenews D.policy E.may_renew E.takes self.old.client_connections self.new.client_connections
            (λ v. v.value.connection.attached) self.old.stubs.items self.new.stubs.items }
        ensures others { self.new.client_connections ≡ self.old.client_connections }
    {
        let mut own = Vec::new(self.serving.alloc);
        if take_receipts(&mut self.stubs, tenant, &mut own) {
            self.serving.renewals.renew(rt, tenant, own);
        } else {
            self.keep_receipts(own);
        }
    }

    /// Keeps receipts for which there is room.
    fn keep_receipts(&mut self, mut own: Vec<Stub>)
        requires { vec_len self.old.stubs + vec_len own + slab_len self.old.client_connections ≤ vec_capacity self.old.stubs }
        ensures { (self.new.stubs.items ≡ self.old.stubs.items ++ own.items) × (self.new.client_connections ≡ self.old.client_connections) }
    {
        let _there_is_room = self.stubs.append(&mut own);
    }

    /// The connections of a tenant go on, and are served next.
    fn resume_all<T: Wait>(&mut self, rt: &T, tenant: u32)
        ensures stubs { self.new.stubs.items ≡ self.old.stubs.items }
        ensures sessions { session_count self.old.client_connections (λ v. v.value.connection.attached) ≤ session_count self.new.client_connections (λ v. v.value.connection.attached) }
        ensures same { SameConnections self.old.client_connections self.new.client_connections }
    {
        for key in 0..self.client_connections.capacity() {
            self.resume(rt, key, tenant);
        }
    }

    /// A connection goes on, if it is one of the tenant's and awaits a renewal.
    #[tactic(auto, using(crate::proofs::Counting::keeps_bit))]
    fn resume<T: Wait>(&mut self, rt: &T, key: usize, tenant: u32)
        ensures stubs { self.new.stubs.items ≡ self.old.stubs.items }
        ensures sessions { session_count self.old.client_connections (λ v. v.value.connection.attached) ≤ session_count self.new.client_connections (λ v. v.value.connection.attached) }
        ensures same { SameConnections self.old.client_connections self.new.client_connections }
    {
        let Some(mut client_connection) = self.take_out(key) else {
            return;
        };
        if !client_connection.awaits_renewal_of(tenant) {
            self.put_back(client_connection);
            return;
        }
        client_connection.resume(rt);
        // its session can't be opened yet
        self.has_paused |= client_connection.awaits_renewal();
        self.put_due(client_connection);
    }
}

/// Moves the receipts of a tenant's sessions to its own ones. False if there was no memory for all.
fn take_receipts(stubs: &mut Vec<Stub>, tenant: u32, own: &mut Vec<Stub>) -> bool
    requires { own.old.items ≡ [] }
    ensures moved { IsPermutation stubs.old.items (stubs.new.items ++ own.new.items) }
    ensures own { All (λ (stub : ItsStub). stub.tenant ≡ tenant) own.new.items }
    ensures count { vec_len stubs.new + vec_len own.new ≡ vec_len stubs.old }
    ensures capacity { vec_capacity stubs.new ≡ vec_capacity stubs.old }
{
    let mut place = 0;
    while place < stubs.len() {
        match pass_or_take(stubs, place, tenant, own) {
            Some(next) => place = next,
            None => return false,
        }
    }
    true
}

/// Passes the receipts at a place, or moves them if they are the tenant's. Returns the next place. None without memory.
fn pass_or_take(
    stubs: &mut Vec<Stub>,
    place: usize,
    tenant: u32,
    own: &mut Vec<Stub>,
) -> Option<usize>
    requires { place < vec_len stubs.old }
    ensures moved { IsPermutation (stubs.old.items ++ own.old.items) (stubs.new.items ++ own.new.items) }
    ensures own { All (λ (stub : ItsStub). stub.tenant ≡ tenant) own.old.items → All (λ (stub : ItsStub). stub.tenant ≡ tenant) own.new.items }
    ensures count { vec_len stubs.new + vec_len own.new ≡ vec_len stubs.old + vec_len own.old }
    ensures capacity { vec_capacity stubs.new ≡ vec_capacity stubs.old }
    ensures closer { IfSome result (λ next. vec_len stubs.new - next < vec_len stubs.old - place) }
{
    let here = stubs[place].tenant;
    if here != tenant {
        return Some(place + 1);
    }
    if own.reserve(1).is_err() {
        return None;
    }
    let stub = stubs.swap_remove(place);
    own.push_reserved(stub);
    Some(place)
}
