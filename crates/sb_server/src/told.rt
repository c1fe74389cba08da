//! What is told of one client.

use sb_connection::{Answered, ConnectionEvent, Slow, Watch};
use std::sync::Wait;

/// An observer of the connection of the client at this port.
#[derive(Drop)]
pub(crate) struct Told<'w, V> {
    pub(crate) watch: &'w V,
    pub(crate) port: u16,
}

impl<'w, V: Watch> Watch for Told<'w, V> {
    fn on_event(&self, event: ConnectionEvent) {
        self.watch.on_client_event(self.port, event);
    }

    fn on_client_event(&self, port: u16, event: ConnectionEvent) {
        self.watch.on_client_event(port, event);
    }

    fn on_reply<T: Wait>(&self, rt: &T, answered: Answered<'_>) {
        self.watch.on_reply(rt, answered);
    }

    fn on_slow_line(&self, port: u16, slow: Slow<'_>) {
        self.watch.on_slow_line(port, slow);
    }

    fn is_turn_over(&self) -> bool {
        self.watch.is_turn_over()
    }
}
