//! Where a thread waits for events.

use crate::server::ServeError;
use mio::{Events, Poll, Token, Waker};
use std::alloc::Global;
use std::net::Net;

/// How many events a worker is told of at once.
const EVENTS: usize = 256;

/// The most bytes that a read gives.
const PIECE: usize = 65_536;

pub(crate) const WAKER: Token = Token(usize::MAX);

/// Where a worker waits, and what it reads into.
#[derive(Drop)]
pub(crate) struct Poller {
    pub(crate) poll: Poll,
    pub(crate) buffer: Vec<u8>,
}

impl Poller {
    /// A seat, the events that are told there, and what wakes whoever waits for them.
    pub(crate) fn take<R: Net>(
        rt: &R,
        alloc: Global,
    ) -> Result<(Poller, Events, Waker), ServeError> {
        let Ok(poll) = Poll::new(rt) else {
            return Err(ServeError::NoPlace);
        };
        let Ok(waker) = Waker::new(poll.registry(), WAKER) else {
            return Err(ServeError::NoPlace);
        };
        let events = Events::with_capacity(alloc, EVENTS)?;
        let buffer = vec![in alloc; 0u8; PIECE]?;
        let seat = Poller { poll, buffer };
        Ok((seat, events, waker))
    }
}
