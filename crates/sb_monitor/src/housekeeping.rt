//! The background task of a server: its keys are read again, tenants without a connection are renewed, steps that run for
//! long are logged, and a long stop writes its tenants.

use crate::listener::is_closed;
use crate::running_steps::RunningSteps;
use crate::server_control::{ServerControl, ServerControls};
use sb_backup::TenantSaver;
use sb_host::{Hosting, Lending};
use sb_keys::{KeyFiles, KeySource, KeyWatch, Look};
use sb_server::{BackgroundTask, Renewals, ShutdownSignal};
use sb_words::Log;
use std::net::TcpListener;
use std::rt::Files;
use std::sync::Wait;
use std::sync::atomic::{AtomicBool, Ordering};

/// Something that is looked at about once a second while others serve.
pub trait Chore {
    /// What was seen of it.
    type Seen: Drop;

    /// True if there is nothing to look at.
    fn is_idle(&self) -> bool;

    /// What was seen before the first look.
    fn first(&self) -> Self::Seen;

    /// Looks at it, behind what was seen last.
    fn look<R: Wait>(&self, rt: &R, last: Self::Seen) -> Self::Seen;
}

/// Nothing is looked at.
pub struct NoChore;

impl Chore for NoChore {
    type Seen = ();

    fn is_idle(&self) -> bool {
        true
    }

    fn first(&self) {}

    fn look<R: Wait>(&self, _rt: &R, _last: ()) {}
}

impl<'p, 'l, 'k, L: KeyFiles, S: KeySource<L>, O: Log> Chore for KeyWatch<'p, 'l, 'k, L, S, O> {
    type Seen = Look;

    fn is_idle(&self) -> bool {
        false
    }

    fn first(&self) -> Look {
        self.first()
    }

    fn look<R: Wait>(&self, rt: &R, last: Look) -> Look {
        self.look(rt, last)
    }
}

/// Writes the tenants that are at rest where a stop takes long, so that none waits for the rules of another one.
#[derive(Drop)]
pub struct LongStop<'s, 'r, 'j, H, T, O> {
    saver: &'s TenantSaver<'r, 'j, T, O>,
    host: H,
    /// The server's port, which is closed from the beginning of its stop.
    listener: &'s TcpListener,
    /// The stop had begun at the last look.
    has_begun: AtomicBool,
    /// A file can't be written.
    has_failed: AtomicBool,
}

impl<'s, 'r, 'j, H: Lending, T: Files, O: Log> LongStop<'s, 'r, 'j, H, T, O> {
    /// The long stop of a server whose port is closed by its stop alone.
    pub fn new(
        saver: &'s TenantSaver<'r, 'j, T, O>,
        host: H,
        listener: &'s TcpListener,
    ) -> LongStop<'s, 'r, 'j, H, T, O> {
        LongStop {
            saver,
            host,
            listener,
            has_begun: AtomicBool::new(false),
            has_failed: AtomicBool::new(false),
        }
    }

    /// Writes tenants if the stop had begun at the last look.
    fn look(&self) {
        if !is_closed(self.listener) {
            return;
        }
        let is_first = !self.has_begun.swap(true, Ordering::SeqCst);
        if is_first || self.has_failed.load(Ordering::SeqCst) {
            return;
        }
        if self.saver.save_resting(self.host).is_err() {
            self.has_failed.store(true, Ordering::SeqCst);
        }
    }
}

/// Renews tenants that have no connection: their workers look at those alone that have one.
#[derive(Drop)]
pub struct IdleRenewals<'i, H, E> {
    pub host: H,
    pub renewals: &'i E,
    pub controls: &'i ServerControls,
}

impl<'i, H: Hosting, E: Renewals> IdleRenewals<'i, H, E> {
    /// Asks the workers of those that are due. A worker that can't be asked now is asked at the next look.
    fn look<R: Wait>(&self, rt: &R) {
        let cells = self.host.cells();
        for tenant in 0..self.host.tenants() {
            if self.controls.session_board.is_idle(tenant) && self.renewals.is_due(tenant) {
                let _is_asked = self.controls.renew(rt, (tenant % cells) as usize, tenant);
            }
        }
    }
}

/// Looks at a chore, at tenants that are to be renewed, at the steps that run, and at a long stop where tenants are written
/// behind the server's end.
#[derive(Drop)]
pub struct Housekeeping<'c, 'i, 's, 'r, 'j, C, E, H, T, O> {
    pub chore: &'c C,
    /// None where no tenant is renewed by itself.
    pub idle_renewals: Option<IdleRenewals<'i, H, E>>,
    pub running_steps: RunningSteps<'c, H, O>,
    /// None where no tenants are written.
    pub long_stop: Option<LongStop<'s, 'r, 'j, H, T, O>>,
}

impl<'c, 'i, 's, 'r, 'j, C: Chore, E: Renewals, H: Lending, T: Files, O: Log> BackgroundTask
    for Housekeeping<'c, 'i, 's, 'r, 'j, C, E, H, T, O> {
    fn run<R: Wait>(&self, rt: &R, over: &ShutdownSignal) {
        let mut seen = self.chore.first();
        for _ in rt.forever() {
            if !over.lasts(rt) {
                return;
            }
            seen = self.chore.look(rt, seen);
            if let Some(idle_renewals) = &self.idle_renewals {
                idle_renewals.look(rt);
            }
            self.running_steps.look();
            if let Some(long_stop) = &self.long_stop {
                long_stop.look();
            }
        }
    }
}
