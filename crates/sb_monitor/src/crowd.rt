//! The connections of the status port.
use crate::http_connection::{HttpConnection, Next};
use libc::net as system;
use libc::types::pollfd;
use std::alloc::{AllocError, Global};
use std::net::TcpStream;
use std::time::Instant;

/// The most connections at once.
pub(crate) const PLACES: usize = 64;

/// The most answers that may wait for their clients.
const ANSWERS: usize = 4;

/// The most bytes of one read.
const PIECE: usize = 4096;

/// How often late connections are looked for, in milliseconds.
const SWEEP: i32 = 100;

/// No limit.
const ANY_TIME: i32 = -1;

/// Connections in the order in which they came.
#[derive(Drop)]
pub(crate) struct Crowd {
    alloc: Global,
    connections: Vec<HttpConnection>,
    piece: Vec<u8>,
}

impl Crowd {
    pub(crate) fn new(alloc: Global) -> Result<Crowd, AllocError> {
        Ok(Crowd {
            alloc,
            connections: Vec::new(alloc),
            piece: vec![in alloc; 0u8; PIECE]?,
        })
    }

    pub(crate) fn len(&self) -> usize {
        self.connections.len()
    }

    /// How many milliseconds may pass until it is looked at again.
    pub(crate) fn patience(&self) -> i32 {
        if self.connections.is_empty() {
            ANY_TIME
        } else {
            SWEEP
        }
    }

    /// Notes what the connections wait for.
    pub(crate) fn note_waits(&self, waits: &mut [pollfd]) {
        for (place, connection) in self.connections.iter().enumerate() {
            if let Some(wait) = waits.get_mut(place) {
                *wait = wait_of(connection);
            }
        }
    }

    /// Takes in a connection. Where all places are taken, the oldest one gives up its own, if there is one before those
    /// that have asked. Without memory it is closed.
    pub(crate) fn take_in(&mut self, stream: TcpStream, now: Option<Instant>) {
        if self.connections.len() >= PLACES {
            let oldest = self.oldest_asking();
            self.remove(oldest);
        }
        if let Ok(connection) = HttpConnection::new(self.alloc, stream, now) {
            let _where_there_is_memory = self.connections.push(connection);
        }
    }

    /// The place of the oldest connection that hasn't asked, or of the oldest one.
    fn oldest_asking(&self) -> usize {
        for (place, connection) in self.connections.iter().enumerate() {
            if connection.is_asking() {
                return place;
            }
        }
        0
    }

    /// Closes the connection at this place, if there is one.
    pub(crate) fn remove(&mut self, place: usize) {
        if place < self.connections.len() {
            let _closed = self.connections.remove(place);
        }
    }

    /// Goes on with the connection at this place.
    pub(crate) fn go_on(&mut self, place: usize, now: Option<Instant>) -> Next {
        let Some(connection) = self.connections.get_mut(place) else {
            return Next::Ends;
        };
        let next = connection.go_on(self.piece.as_mut_slice());
        match (next, now) {
            (Next::Waits, Some(now)) if connection.is_late(now) => Next::Ends,
            _ => next,
        }
    }

    /// What has come of the request at this place.
    pub(crate) fn request(&self, place: usize) -> &[u8] {
        match self.connections.get(place) {
            Some(connection) => connection.request(),
            None => &[],
        }
    }

    /// Answers the request at this place.
    pub(crate) fn answer(
        &mut self,
        place: usize,
        answer: Result<Vec<u8>, AllocError>,
        now: Option<Instant>,
    ) -> Next {
        match self.connections.get_mut(place) {
            Some(connection) => connection.answer(answer, now),
            None => Next::Ends,
        }
    }

    /// Where so many answers wait that there may be no more, drops the oldest one. Its connection ends.
    pub(crate) fn make_room_for_answer(&mut self) {
        if self.answers() < ANSWERS {
            return;
        }
        let oldest = self.oldest_answering();
        if let Some(connection) = self.connections.get_mut(oldest) {
            connection.drop_answer();
        }
    }

    /// The place of the oldest connection whose answer waits for it, or 0.
    fn oldest_answering(&self) -> usize {
        for (place, connection) in self.connections.iter().enumerate() {
            if connection.is_answering() {
                return place;
            }
        }
        0
    }

    /// How many answers wait for their clients.
    fn answers(&self) -> usize {
        let mut count: usize = 0;
        for connection in self.connections.as_slice() {
            if connection.is_answering() {
                count = count.saturating_add(1);
            }
        }
        count
    }
}

/// What a connection waits for: its client takes more, or sends more.
fn wait_of(connection: &HttpConnection) -> pollfd {
    let events = if connection.is_answering() {
        system::POLLOUT
    } else {
        system::POLLIN
    };
    pollfd {
        fd: connection.descriptor(),
        events,
        revents: 0,
    }
}
