//! A connection to a host: its first line names a session, each further line is a call of it, and it is closed at the
//! end.
#![tactic(auto)]

mod admission;
mod caller;
mod connection;
mod connection_end;
mod conversation;
mod entrance;
mod first_line;
mod protocol_state;
mod route;
mod serve;
mod state;
mod stream;
mod trail_room;
mod watch;

pub use admission::{Admission, Doorkeeper, Open};
pub use caller::SessionCaller;
pub use connection::Connection;
pub use connection_end::ConnectionEnd;
pub use first_line::SessionName;
pub use route::{Destination, route_of};
pub use serve::{Served, serve_one, serve_one_with};
pub use state::State;
pub use stream::Stream;
pub use watch::{Answered, ConnectionEvent, NoWatch, Said, Slow, Watch};
