//! Renewals of a host's tenants: when one is due, what it takes, and what is logged of it.
ghost use Rattle.std.specs.Prelude.{◌≡◌, ◌≤◌, ◌++◌, OnErr, OnOk};
ghost use Rattle.sb_backup.specs.Renewals.{Renewed};
ghost use Rattle.sb_host.specs.Renewal.{GivesBack};
ghost use Rattle.sb_monitor.specs.TenantRenewals.{AreTaken, Takes};

use crate::event_log::EventLog;
use crate::renewal_board::RenewalBoard;
use crate::renewal_notes::RenewalNotes;
use crate::room_reading::{Room, RoomReading};
use sb_backup::{RenewalFault, Unrenewed, renew_tenant};
use sb_host::{Renewing, Stub, Tried};
use sb_server::{CommitHook, CommitStatus, Renewals};
use sb_tenant::Bound;
use sb_words::{Log, Severity};
use std::alloc::{AllocError, Global};
use std::rt::Clock;
use std::sync::Wait;
use std::time::Duration;
use std::{mem, str, thread};

/// No renewal of a tenant is tried for so long behind one that gained no room, in milliseconds.
const REST: u64 = 1_000;

/// Nor for so long behind one that failed.
const LONG_REST: u64 = 10_000;

/// The pause before memory is asked for again, in milliseconds.
const NAP: u64 = 10;

/// When tenants are renewed, and by what.
#[derive(Clone, Copy)]
pub struct RenewalLimits {
    /// The bound of each step.
    pub bound: Bound,
    /// They are renewed where their room gets short, and not only where that is asked for.
    pub is_auto: bool,
    /// The bytes that a tenant may take, if they have a limit.
    pub tenant_memory: Option<u64>,
}

/// Renews the tenants of a host, and holds the receipts that their next renewals take.
#[derive(Drop)]
pub struct TenantRenewals<'k, H, K, T> {
    alloc: Global,
    host: H,
    commit_hook: &'k K,
    log: &'k EventLog<'k, T>,
    board: &'k RenewalBoard,
    limits: RenewalLimits,
    /// By the places of the tenants.
    tenants: Vec<RenewalNotes>,
    /// Of tenants that the host hasn't.
    others: RenewalNotes,
    ghost few: { limits.bound.considerations ≤ 1000 },
}

/// Why a tenant isn't renewed.
#[derive(Clone, Copy)]
enum Hindrance {
    /// Its trail isn't recorded to its end.
    NotRecorded,
    Fault(RenewalFault),
}

impl Hindrance {
    fn words(&self) -> &'static str {
        match self {
            Hindrance::NotRecorded => "its trail isn't recorded to its end",
            Hindrance::Fault(why) => str::from_utf8(why.reason()).unwrap_or(""),
        }
    }
}

impl<'k, H: Renewing, K: CommitHook, T: Eprint + Clock> TenantRenewals<'k, H, K, T> {
    /// Renewals of this host's tenants, which are noted on this board. Error: out of memory.
    pub fn new(
        alloc: Global,
        host: H,
        commit_hook: &'k K,
        log: &'k EventLog<'k, T>,
        board: &'k RenewalBoard,
        limits: RenewalLimits,
    ) -> Result<TenantRenewals<'k, H, K, T>, AllocError>
        requires { limits.bound.considerations ≤ 1000 }
    {
        let mut tenants = Vec::new(alloc);
        for _tenant in 0..host.tenants() {
            tenants.push(RenewalNotes::new(alloc))?;
        }
        Ok(TenantRenewals {
            alloc,
            host,
            commit_hook,
            log,
            board,
            limits,
            tenants,
            others: RenewalNotes::new(alloc),
        })
    }

    /// Holds the receipts of sessions that were closed before. The next renewals of their tenants take them. Error: out
    /// of memory.
    pub fn hold<R: Wait>(&self, rt: &R, stubs: Vec<Stub>) -> Result<(), AllocError> {
        for stub in stubs {
            let notes = self.notes_of(stub.tenant);
            notes.held.lock(rt).push(stub)?;
        }
        Ok(())
    }

    /// The receipts that are held. Error: out of memory.
    pub fn into_stubs(self) -> Result<Vec<Stub>, AllocError> {
        let TenantRenewals {
            tenants,
            others,
            ..
        } = self;
        let mut all = others.into_held();
        for notes in tenants {
            all.append(&mut notes.into_held())?;
        }
        Ok(all)
    }

    fn notes_of(&self, tenant: u32) -> &RenewalNotes {
        match self.tenants.get(tenant as usize) {
            Some(notes) => notes,
            None => &self.others,
        }
    }

    /// The time of the board.
    fn now(&self) -> u64 {
        self.board.now(self.log.rt())
    }

    /// Renews a tenant by the receipts that are held of it and these. Error: why it isn't done.
    fn renew_by<R: Wait>(&self, rt: &R, tenant: u32, stubs: Vec<Stub>) -> Result<(), Hindrance>
        ensures { AreTaken tenant stubs.items }
    {
        let mut held = self.notes_of(tenant).held.lock(rt);
        self.renew_with(rt, tenant, &mut *held, stubs)
    }

    /// Renews a tenant by the held receipts and these. Those of the opening are held then. Error: why it isn't done;
    /// all receipts are held.
    fn renew_with<R: Wait>(
        &self,
        rt: &R,
        tenant: u32,
        held: &mut Vec<Stub>,
        stubs: Vec<Stub>,
    ) -> Result<(), Hindrance>
        ensures taken { Takes tenant held.old.items stubs.items held.new.items }
        ensures ok { OnOk result (Renewed tenant (held.old.items ++ stubs.items) held.new.items) }
        ensures err { OnErr result (GivesBack tenant (held.old.items ++ stubs.items) held.new.items) }
    {
        self.take_in(rt, held, stubs);
        if !self.is_recorded(rt, tenant) {
            return Err(Hindrance::NotRecorded);
        }
        let all = mem::replace(held, Vec::new(self.alloc));
        match renew_tenant(rt, self.alloc, self.host, tenant, self.limits.bound, all) {
            Ok(opening) => {
                *held = opening;
                Ok(())
            }
            Err(Unrenewed { why, stubs }) => {
                *held = stubs;
                Err(Hindrance::Fault(why))
            }
        }
    }

    /// Adds receipts to those that are held. It waits for memory where there is none.
    fn take_in<R: Wait>(&self, rt: &R, held: &mut Vec<Stub>, mut stubs: Vec<Stub>)
        ensures { held.new.items ≡ held.old.items ++ stubs.items }
    {
        for _trial in rt.forever() {
            if held.append(&mut stubs).is_ok() {
                return;
            }
            thread::sleep(self.log.rt(), Duration::from_millis(NAP));
        }
        unreachable!()
    }

    /// True if all that the tenant was answered is recorded, where anything is.
    fn is_recorded<R: Wait>(&self, rt: &R, tenant: u32) -> bool {
        if !self.commit_hook.is_set() {
            return true;
        }
        matches!(self.commit_hook.keep(rt, &[tenant]), CommitStatus::All)
    }

    /// True if the tenant's room is short, as far as that can be seen now.
    fn is_short(&self, tenant: u32) -> bool {
        let mut reading = RoomReading::new(self.limits.tenant_memory);
        match self.host.try_read(tenant, &mut reading) {
            Tried::Read => reading.is_short(),
            _ => false,
        }
    }

    /// The place of the tenant's trail in its life, and its length.
    fn room_of<R: Wait>(&self, rt: &R, tenant: u32) -> Option<Room> {
        let mut reading = RoomReading::new(self.limits.tenant_memory);
        let _is_there = self.host.read(rt, tenant, &mut reading);
        reading.room
    }

    /// Notes a renewal that ended this volume and began at this time.
    fn note_done(&self, tenant: u32, ended: Option<Room>, began: u64) {
        let now = self.now();
        let millis = now.saturating_sub(began);
        // where it has gained no room, the next one doesn't either
        let rest = if self.is_short(tenant) { REST } else { 0 };
        self.notes_of(tenant).note_done(now.saturating_add(rest));
        self.board.note_done(tenant, now);
        let number = self.board.number_of(tenant);
        if let Some(Room { volume, steps, .. }) = ended {
            self.log.write(
                Severity::Info,
                &format_args!(
                    "renewed: tenant {number}: volume {volume} ends with {steps} steps, in {millis} ms"
                ),
            );
        }
    }

    /// Notes that a tenant couldn't be renewed. It is logged once until it is.
    fn note_failed(&self, tenant: u32, why: Hindrance) {
        self.board.note_failed();
        let until = self.now().saturating_add(LONG_REST);
        if self.notes_of(tenant).note_failed(until) {
            let number = self.board.number_of(tenant);
            let words = why.words();
            self.log.write(
                Severity::Warning,
                &format_args!("not renewed: tenant {number}: {words}"),
            );
        }
    }
}

impl<'k, H: Renewing, K: CommitHook, T: Eprint + Clock> Renewals for TenantRenewals<'k, H, K, T> {
    ghost use Rattle.std.specs.Prelude.{true};
    ghost use Rattle.sb_monitor.specs.TenantRenewals.{AreTaken};

    ghost may_renew = { true };

    ghost takes = { AreTaken };

    fn is_due(&self, tenant: u32) -> bool {
        let notes = self.notes_of(tenant);
        let is_wanted = notes.is_asked() || self.limits.is_auto && self.is_short(tenant);
        is_wanted && !notes.rests(self.now())
    }

    fn ask(&self, tenant: u32) {
        self.notes_of(tenant).ask();
    }

    /// It is logged once until the tenant is renewed.
    fn put_off(&self, tenant: u32) {
        if self.notes_of(tenant).put_off() {
            let number = self.board.number_of(tenant);
            self.log.write(
                Severity::Warning,
                &format_args!("not renewed yet: tenant {number}: a session has a transaction"),
            );
        }
    }

    fn renew<R: Wait>(&self, rt: &R, tenant: u32, stubs: Vec<Stub>) {
        let ended = self.room_of(rt, tenant);
        let began = self.now();
        match self.renew_by(rt, tenant, stubs) {
            Ok(()) => self.note_done(tenant, ended, began),
            Err(why) => self.note_failed(tenant, why),
        }
    }
}
