//! PostgreSQL's protocol, version 3: the messages of a client, and those that answer it.
#![tactic(auto)]

mod client_message;
mod error;
mod fields;
mod frame;
mod item;
mod lists;
pub mod query;
mod reading;
mod server_message;
mod startup;
pub mod told;
mod writing;

pub use client_message::{ClientMessage, Target};
pub use error::{Fault, ReadError, WriteError};
pub use frame::{
    Framed, FramedStartup, MESSAGE_LIMIT, STARTUP_LIMIT, read_frame, read_startup_frame,
};
pub use reading::read_message;
pub use server_message::{Column, Field, ServerMessage, TransactionStatus};
pub use startup::{Parameter, StartupPacket, read_startup};
pub use writing::MessageWriter;
