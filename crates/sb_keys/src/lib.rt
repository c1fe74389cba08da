//! The keys of tenants: a key and its digest, the lines of a file of keys and whom they admit, and the file, read again where
//! it changes.
#![tactic(auto)]

mod compare;
mod digest;
mod halves;
mod key_digest;
mod key_file;
mod key_list;
mod key_source;
mod key_watch;
mod keys;
mod line;

pub use digest::{Digest, digest_line, is_key};
pub use key_digest::{DigestError, tell_digest};
pub use key_file::{AnyFiles, KeyFile};
pub use key_list::KeyList;
pub use key_source::{KeyFiles, KeySource, Stamp, Unread, keys_at};
pub use key_watch::{KeyWatch, Look, tell_no_keys};
pub use keys::{Keys, KeysError};
pub use line::STATUS;
