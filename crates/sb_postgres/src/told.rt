//! What a client is told of a statement, in place of a reply of the command language.
mod message;
mod settings;
mod sqlstate;
mod tag;

pub use message::push_message;
pub use settings::{REPORTED, SHOWN, Setting, VERSION, setting_of};
pub use sqlstate::SqlState;
pub use tag::{Effect, push_tag};
