//! The memory that the process has.

use std::fs::{self, File};
use std::os::unix::fs::FileExt;
use std::rt::Files;
use std::str;

/// Where the system tells it, in pages.
const PATH: &str = "/proc/self/statm";

/// The bytes of a page.
const PAGE: u64 = 4096;

/// The most bytes that are read of it.
const MOST_BYTES: usize = 1024;

/// The system's file with the memory of the process, if there is one.
pub fn memory_file<T: Files<File = File>>(rt: &T) -> Option<File> {
    fs::open(rt, PATH).ok()
}

/// The bytes of memory that the process has, if the system tells.
pub(crate) fn resident(file: &File) -> Option<u64> {
    let mut text = [0u8; MOST_BYTES];
    match file.read_at(&mut text, 0) {
        Ok(count) if count <= MOST_BYTES => pages_in(&text[..count]),
        _ => None,
    }
}

/// The second number of the text, in bytes.
fn pages_in(text: &[u8]) -> Option<u64> {
    let Ok(text) = str::from_utf8(text) else {
        return None;
    };
    let mut words = text.split_ascii_whitespace();
    let _size = words.next()?;
    match words.next()?.parse::<u64>() {
        Ok(pages) => Some(pages.saturating_mul(PAGE)),
        Err(_) => None,
    }
}
