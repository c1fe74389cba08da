//! What an operator may tell a server, and whether it lets clients in.
ghost use Rattle.std.specs.Prelude.{Bool, IsTrue, ℕ};
ghost use Rattle.sb_connection.specs.declared.first_line.SessionName.{SessionName as ItsSessionName};

use crate::journal_board::JournalBoard;
use crate::renewal_board::RenewalBoard;
use crate::session_board::SessionBoard;
use crate::stop_switch::StopSwitch;
use sb_server::{ServerMetrics, SessionName};
use std::alloc::{AllocError, Global};
use std::rt::Clock;
use std::sync::Wait;
use std::sync::atomic::{AtomicBool, Ordering};
use std::time::Instant;

/// Tells a server what an operator wants, and tells of it whether it lets clients in.
pub trait ServerControl {
    // the worker that has this cell was told it of this session
    ghost told: { Self → ℕ → ItsSessionName → Type 0 };

    // the worker that has this cell was told that this tenant is to be renewed
    ghost asked: { Self → ℕ → ℕ → Type 0 };

    // the server was told to stop
    ghost stopped: { Self → Type 0 };

    // it answered that it lets clients in, or that it doesn't
    ghost lets_in: { Self → Bool → Type 0 };

    /// Asks the worker of this cell to end a session. False if it can't be asked.
    fn end<T: Wait>(&self, rt: &T, cell: usize, named: SessionName) -> bool
        ensures { IsTrue result → told self.now cell named };

    /// Asks the worker of this cell to renew the tenant at this place. False if it can't be asked.
    fn renew<T: Wait>(&self, rt: &T, cell: usize, tenant: u32) -> bool
        ensures { IsTrue result → asked self.now cell tenant };

    /// Tells the server to stop. False if it can't be told.
    fn stop(&self) -> bool
        ensures { IsTrue result → stopped self.now };

    /// True if clients are let in.
    fn is_ready(&self) -> bool
        ensures { lets_in self.now result };

    /// The descriptor whose end stops the server, or a negative number.
    fn watched(&self) -> i32;

    /// Drops what has come at that descriptor. If it has ended, the server is told to stop.
    fn look(&self);
}

/// The workers of a server, its renewals, its stop, and whether it lets clients in.
#[derive(Drop)]
pub struct ServerControls {
    pub server_metrics: ServerMetrics,
    /// When its tenants were renewed.
    pub renewal_board: RenewalBoard,
    /// How many of their sessions have a connection.
    pub session_board: SessionBoard,
    /// The commits of its journal.
    pub journal_board: JournalBoard,
    /// None: it can't be told to stop.
    stop_switch: Option<StopSwitch>,
    is_ready: AtomicBool,
}

/// The size of a server.
#[derive(Clone, Copy)]
pub struct ServerSize {
    pub workers: usize,
    /// The number of the first tenant, as clients name it.
    pub first_tenant: u32,
    pub tenants: u32,
    /// What its workers do is counted.
    pub is_counted: bool,
}

impl ServerControls {
    /// The controls of a server of this size that begins now. Clients aren't let in yet. Error: out of memory.
    pub fn new<T: Clock>(
        rt: &T,
        alloc: Global,
        size: ServerSize,
        stop_switch: Option<StopSwitch>,
    ) -> Result<ServerControls, AllocError> {
        let server_metrics = server_metrics_of(rt, alloc, size)?;
        let renewal_board = RenewalBoard::new(rt, alloc, size.first_tenant, size.tenants)?;
        let session_board = SessionBoard::new(alloc, size.first_tenant, size.tenants)?;
        Ok(ServerControls {
            server_metrics,
            renewal_board,
            session_board,
            journal_board: JournalBoard::new(rt),
            stop_switch,
            is_ready: AtomicBool::new(false),
        })
    }

    /// Notes that clients are let in from now on.
    pub fn let_in(&self) {
        self.is_ready.store(true, Ordering::SeqCst);
    }
}

/// The metrics of the workers.
fn server_metrics_of<T: Clock>(
    rt: &T,
    alloc: Global,
    size: ServerSize,
) -> Result<ServerMetrics, AllocError> {
    if !size.is_counted {
        return ServerMetrics::uncounted(alloc, size.workers);
    }
    ServerMetrics::new(
        alloc,
        size.workers,
        Instant::now(rt).ok(),
        size.first_tenant,
        size.tenants,
    )
}

impl ServerControl for ServerControls {
    ghost use Rattle.std.specs.Prelude.{⊤};

    ghost told = { λ _ _ _. ⊤ };

    ghost asked = { λ _ _ _. ⊤ };

    ghost stopped = { λ _. ⊤ };

    ghost lets_in = { λ _ _. ⊤ };

    fn end<T: Wait>(&self, rt: &T, cell: usize, named: SessionName) -> bool {
        self.server_metrics.end_session(rt, cell, named)
    }

    fn renew<T: Wait>(&self, rt: &T, cell: usize, tenant: u32) -> bool {
        self.server_metrics.renew_tenant(rt, cell, tenant)
    }

    fn stop(&self) -> bool {
        match &self.stop_switch {
            Some(stop_switch) => stop_switch.stop(),
            None => false,
        }
    }

    fn is_ready(&self) -> bool {
        self.is_ready.load(Ordering::SeqCst)
    }

    fn watched(&self) -> i32 {
        match &self.stop_switch {
            Some(stop_switch) => stop_switch.watched(),
            None => -1,
        }
    }

    fn look(&self) {
        if let Some(stop_switch) = &self.stop_switch {
            stop_switch.look();
        }
    }
}
