//! What the door hands to a worker.
ghost use Rattle.std.specs.Prelude.{◌≡◌};

use crate::pending_connection::PendingConnection;
use mio::Waker;
use std::alloc::Global;
use std::mem;
use std::sync::{Mutex, Wait};

/// A connection that is handed to a worker. Its first line names a session of this tenant.
#[derive(Drop)]
pub(crate) struct Handoff {
    pub(crate) tenant: u32,
    pub(crate) pending_connection: Box<PendingConnection>,
}

/// The connections that a worker has not taken over yet, and the waker of the worker.
#[derive(Drop)]
pub(crate) struct Mailbox {
    /// The worker's place.
    pub(crate) place: usize,
    waker: Waker,
    handoffs: Mutex<Vec<Handoff>>,
}

impl Mailbox {
    pub(crate) fn new(alloc: Global, place: usize, waker: Waker) -> Mailbox
        ensures { result.place ≡ place }
    {
        Mailbox {
            place,
            waker,
            handoffs: Mutex::new(Vec::new(alloc)),
        }
    }

    /// Adds a connection and wakes the worker. False without memory; then the connection is dropped.
    pub(crate) fn put<T: Wait>(&self, rt: &T, handoff: Handoff) -> bool {
        let is_put = self.handoffs.lock(rt).push(handoff).is_ok();
        self.wake();
        is_put
    }

    /// Removes all connections.
    pub(crate) fn take<T: Wait>(&self, rt: &T, alloc: Global) -> Vec<Handoff> {
        mem::replace(&mut *self.handoffs.lock(rt), Vec::new(alloc))
    }

    pub(crate) fn wake(&self) {
        let _told = self.waker.wake();
    }
}
