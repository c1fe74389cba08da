//! A list of keys that is read again where its file changes.

use crate::key_list::KeyList;
use crate::key_source::{KeyFiles, KeySource, Stamp, Unread, keys_at};
use sb_words::{Log, Severity};
use std::alloc::Global;
use std::sync::Wait;

/// What was seen of a file.
#[derive(Clone, Copy)]
pub struct Look {
    stamp: Option<Stamp>,
    /// The file needn't be read again while its stamp stays.
    is_done: bool,
}

/// Reads the list of keys again when its file changes.
#[derive(Drop)]
pub struct KeyWatch<'p, 'l, 'k, L: KeyFiles, S, O> {
    alloc: Global,
    source: S,
    path: &'p str,
    /// What was seen before the first read.
    first: Look,
    list: &'l KeyList<L>,
    log: &'k O,
}

impl<'p, 'l, 'k, L: KeyFiles, S: KeySource<L>, O: Log> KeyWatch<'p, 'l, 'k, L, S, O> {
    /// A watch of a list that was read when its file had this stamp.
    pub fn new(
        alloc: Global,
        source: S,
        path: &'p str,
        stamp: Option<Stamp>,
        list: &'l KeyList<L>,
        log: &'k O,
    ) -> KeyWatch<'p, 'l, 'k, L, S, O> {
        KeyWatch {
            alloc,
            source,
            path,
            first: Look {
                stamp,
                is_done: true,
            },
            list,
            log,
        }
    }

    /// What was seen of the file before the list was read that it has.
    pub fn first(&self) -> Look {
        self.first
    }

    /// Reads the file if it has changed since this look. If it can't be read, the keys stay, and the reason is logged
    /// once.
    pub fn look<R: Wait>(&self, rt: &R, last: Look) -> Look {
        let stamp = self.source.stamp();
        let is_new = stamp != last.stamp;
        if last.is_done && !is_new {
            return last;
        }
        match keys_at::<L, S>(self.alloc, &self.source) {
            Ok(keys) => {
                self.list.renew(rt, keys);
                tell_keys(self.log, self.path);
                Look {
                    stamp,
                    is_done: true,
                }
            }
            Err(why) => {
                if is_new {
                    tell_no_keys(self.log, self.path, &why);
                }
                Look {
                    stamp,
                    is_done: !why.may_pass(),
                }
            }
        }
    }
}

/// Logs that the file of keys was read again.
fn tell_keys<O: Log>(log: &O, path: &str) {
    log.write(Severity::Info, &format_args!("keys {path}: read again"));
}

/// Logs why the file of keys can't be read.
pub fn tell_no_keys<O: Log>(log: &O, path: &str, why: &Unread) {
    log.write(Severity::Error, &format_args!("keys {path}: {why}"));
}
