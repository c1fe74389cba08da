//! A file that is synced now and then.

use crate::log_lines::tell_not_recorded;
use sb_words::Log;
use std::fmt::Display;
use std::fs::{self, File};
use std::io;
use std::rt::Files;
use std::sync::atomic::{AtomicBool, Ordering};
use std::sync::{Mutex, Wait};

/// Syncs a file where something was written since the last sync.
#[derive(Drop)]
pub struct Flusher<'k, O> {
    file: Mutex<Option<File>>,
    log: &'k O,
    /// Something was written since the last sync.
    is_behind: AtomicBool,
    has_failed: AtomicBool,
}

impl<'k, O: Log> Flusher<'k, O> {
    /// A flusher of no file yet.
    pub fn new(log: &'k O) -> Flusher<'k, O> {
        Flusher {
            file: Mutex::new(None),
            log,
            is_behind: AtomicBool::new(false),
            has_failed: AtomicBool::new(false),
        }
    }

    /// A flusher of the file at this path. Error: the system doesn't open it.
    pub fn open<R: Files<File = File>>(
        rt: &R,
        path: &str,
        log: &'k O,
    ) -> io::Result<Flusher<'k, O>> {
        Ok(Flusher {
            file: Mutex::new(Some(fs::open(rt, path)?)),
            log,
            is_behind: AtomicBool::new(true),
            has_failed: AtomicBool::new(false),
        })
    }

    /// Syncs this file from then on. The one before it is to be synced already.
    pub(crate) fn follow<T: Wait>(&self, rt: &T, file: File) {
        let mut held = self.file.lock(rt);
        *held = Some(file);
        self.note();
    }

    /// Notes that something was written.
    pub fn note(&self) {
        self.is_behind.store(true, Ordering::SeqCst);
    }

    /// True if a sync has failed.
    pub fn has_failed(&self) -> bool {
        self.has_failed.load(Ordering::SeqCst)
    }

    /// Logs why a file can't be synced.
    pub(crate) fn fail<D: Display>(&self, why: &D) {
        tell_not_recorded(self.log, why);
        self.has_failed.store(true, Ordering::SeqCst);
    }

    /// Syncs the file if it is behind. False if this or an earlier sync has failed, which is logged.
    pub fn flush<T: Wait>(&self, rt: &T) -> bool {
        let held = self.file.lock(rt);
        if self.has_failed() {
            return false;
        }
        let Some(file) = &*held else {
            return true;
        };
        if !self.is_behind.swap(false, Ordering::SeqCst) {
            return true;
        }
        match file.sync_data() {
            Ok(()) => true,
            Err(error) => {
                self.fail(&error);
                false
            }
        }
    }
}
