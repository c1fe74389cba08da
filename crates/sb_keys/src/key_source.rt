//! Where lists of keys are read.
ghost use Rattle.std.specs.Prelude.{◌≡◌, ◌<◌, ℕ, Bool, IfErr, IfOk, List, Option, length, true};
ghost use Rattle.sb_keys.specs.KeyTexts.{AreReadKeys, IsBadLine, IsTextOf};
ghost use Rattle.sb_keys.specs.Seen.{table_of};

use crate::keys::{Keys, KeysError};
use std::alloc::Global;
use std::fmt::{self, Display, Formatter};
use std::io::{self, Read};
use std::time::SystemTime;

/// The most bytes of a file of keys, which are more than 800,000 lines.
const MOST_BYTES: u64 = 1 << 26;

/// Why keys aren't read.
#[derive(Drop)]
pub enum Unread {
    /// The system gives no file.
    File(io::Error),
    /// What is there is a folder, a FIFO or a device.
    NotAFile,
    /// The file has 64 MiB or more.
    TooLong,
    /// The text of the file gives no list.
    Keys(KeysError),
}

impl Display for Unread {
    fn fmt<W: fmt::Write>(&self, f: &mut Formatter<W>) -> fmt::Result {
        match self {
            Unread::File(error) => write!(f, "{error}"),
            Unread::NotAFile => f.write_str("it isn't a regular file"),
            Unread::TooLong => f.write_str("too long"),
            Unread::Keys(KeysError::BadLine { line }) => write!(f, "bad line {line}"),
            Unread::Keys(KeysError::NoMemory) => f.write_str("out of memory"),
        }
    }
}

impl Unread {
    /// True if the same file may be read later.
    pub(crate) fn may_pass(&self) -> bool {
        matches!(self, Unread::File(_) | Unread::Keys(KeysError::NoMemory))
    }
}

/// What is known of the files of keys that are opened.
pub trait KeyFiles {
    // a file was opened that has these bytes, if they are known: nothing but `KeySource::open` says so
    ghost is_opened: { Option (List ℕ) → Bool };
}

/// What tells a file from another one, and from itself as it was, without its bytes.
#[derive(Clone, Copy, PartialEq, Eq)]
pub struct Stamp {
    /// When its bytes were changed last.
    pub changed: SystemTime,
    /// How many bytes it has.
    pub len: u64,
    /// Its number in its file system.
    pub inode: u64,
    /// When anything of it was changed last, its name, too: seconds, and nanoseconds of these.
    pub touched: (i64, i64),
}

/// Where lists of keys are read.
pub trait KeySource<L: KeyFiles> {
    /// What is opened.
    type File: Read + Drop;

    /// The stamp of the current file, if there is one.
    fn stamp(&self) -> Option<Stamp>;

    /// True if a regular file is there. Error: the system's.
    fn is_file(&self) -> io::Result<bool>;

    /// Opens the file that it stands in. Error: the system's.
    fn open(&self) -> io::Result<Self::File>
        ensures { IfOk result (λ file. L.is_opened (Self.File.remaining file) ≡ true) };
}

/// Reads the list that is there now. Error: why it isn't read. Only a regular file is opened: a FIFO would keep whoever
/// opens it waiting for ever.
pub fn keys_at<L: KeyFiles, S: KeySource<L>>(alloc: Global, source: &S) -> Result<Keys, Unread>
    ensures keys { IfOk result (λ keys. AreReadKeys L.is_opened (table_of keys)) }
    ensures bad { (line : ℕ) → result ≡ Err (Unread.Keys (KeysError.BadLine line)) → IsBadLine L.is_opened line }
{
    match source.is_file() {
        Ok(true) => {}
        Ok(false) => return Err(Unread::NotAFile),
        Err(error) => return Err(Unread::File(error)),
    }
    let file = match source.open() {
        Ok(file) => file,
        Err(error) => return Err(Unread::File(error)),
    };
    let text = match text_of(alloc, file) {
        Ok(text) => text,
        Err(why) => return Err(why),
    };
    match Keys::read(alloc, text.as_slice()) {
        Ok(keys) => Ok(keys),
        Err(why) => Err(Unread::Keys(why)),
    }
}

/// All that a file gives.
fn text_of<F: Read + Drop>(alloc: Global, file: F) -> Result<Vec<u8>, Unread>
    ensures text { IfOk result (λ text. IsTextOf (F.remaining file) text.items) }
    ensures none { (why : _) → result ≡ Err (Unread.Keys why) → ⊥ }
{
    let mut text = Vec::new(alloc);
    let mut front = file.take(MOST_BYTES);
    match front.read_to_end(&mut text) {
        Ok(_) => whole(text),
        Err(error) => Err(Unread::File(error)),
    }
}

/// A text that is shorter than what was asked for.
fn whole(text: Vec<u8>) -> Result<Vec<u8>, Unread>
    ensures whole { IfOk result (λ whole. (whole.items ≡ text.items) × (length text.items < 67108864)) }
    ensures none { (why : _) → result ≡ Err (Unread.Keys why) → ⊥ }
{
    if text.len() as u64 >= MOST_BYTES {
        return Err(Unread::TooLong);
    }
    Ok(text)
}
