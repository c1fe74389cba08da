//! Where the scripts of tenants stand.
ghost use Rattle.std.specs.Prelude.{List, ℕ, Option, option_map, IfOk};
ghost use Rattle.sb_backup.specs.LoadedCells.{IsFound};

use crate::cell_loader::Unplayed;
use crate::folder::Folder;
use sb_words::{Log, Severity};
use std::alloc::Global;
use std::fmt::Display;
use std::io::{self, ErrorKind, Read};
use std::rt::Files;
use std::{fs, str};

/// Why the file of a tenant isn't opened.
#[derive(Clone, Copy)]
pub(crate) enum Unopened {
    /// The system doesn't open it, though it is there.
    CannotRead,
    NoMemory,
}

/// A source of scripts, one for each tenant.
pub(crate) trait ScriptSource<F: Read> {
    // by the number of a tenant: what is known of its file
    ghost files: { Self → ℕ → Option (Option (List ℕ)) };

    /// The file of a tenant, if there is one.
    fn open(&self, alloc: Global, tenant: u32) -> Result<Option<F>, Unopened>
        ensures { IfOk result (λ found. IsFound (files self.now tenant) (option_map F.remaining found)) };

    /// Notes why a script was not run to its end.
    fn note(&self, tenant: u32, why: &Unplayed);
}

/// The files of a folder, and who is told why one isn't read.
#[derive(Drop)]
pub struct FolderScripts<'r, 'j, T, O> {
    /// The system that has them.
    pub rt: &'r T,
    pub folder: Folder<'r>,
    pub log: &'j O,
}

impl<'r, 'j, T: Files, O: Log> FolderScripts<'r, 'j, T, O> {
    /// True if the folder is there. If not, the reason is logged.
    pub(crate) fn are_found(&self) -> bool {
        self.folder.is_found(self.rt, self.log)
    }

    /// Logs why the file of the tenant with this number isn't read.
    fn tell_unread<D: Display>(&self, number: u64, why: &D) {
        self.log.write(
            Severity::Error,
            &format_args!("can't read {number}.lines: {why}"),
        );
    }
}

impl<'r, 'j, T: Files, O: Log> ScriptSource<T::File> for FolderScripts<'r, 'j, T, O> {
    ghost use Rattle.std.specs.Prelude.{None};

    ghost files = { λ _ _. None };

    fn open(&self, alloc: Global, tenant: u32) -> Result<Option<T::File>, Unopened> {
        let number = self.folder.number_of(tenant);
        let Ok(path) = self.folder.file_of(alloc, number) else {
            return Err(Unopened::NoMemory);
        };
        if let Ok(found) = fs::metadata(self.rt, path.as_str()) {
            // whoever opens a FIFO waits for ever
            if !found.is_file() {
                self.tell_unread(number, &"it isn't a regular file");
                return Err(Unopened::CannotRead);
            }
        }
        match fs::open(self.rt, path.as_str()) {
            Ok(file) => Ok(Some(file)),
            Err(error) => match is_missing(&error) {
                true => Ok(None),
                false => {
                    self.tell_unread(number, &error);
                    Err(Unopened::CannotRead)
                }
            },
        }
    }

    fn note(&self, tenant: u32, why: &Unplayed) {
        tell_unplayed(self.log, self.folder.number_of(tenant), why);
    }
}

fn is_missing(error: &io::Error) -> bool {
    error.kind() == ErrorKind::NotFound
}

/// Logs why a script was not run to its end.
fn tell_unplayed<O: Log>(log: &O, number: u64, why: &Unplayed) {
    match why {
        Unplayed::NoSession => log.write(
            Severity::Error,
            &format_args!("{number}.lines: there is no session"),
        ),
        Unplayed::Stream(error) => {
            log.write(Severity::Error, &format_args!("{number}.lines: {error}"));
        }
        Unplayed::InTransaction => log.write(
            Severity::Error,
            &format_args!("{number}.lines: it stops inside a transaction"),
        ),
        Unplayed::Ended => log.write(
            Severity::Error,
            &format_args!("{number}.lines: it ends its session"),
        ),
        Unplayed::Line { line, told } => {
            let reply = first_line(told.as_slice());
            log.write(
                Severity::Error,
                &format_args!("{number}.lines: line {line} is answered {reply}"),
            );
        }
    }
}

/// The first line of a reply.
fn first_line(reply: &[u8]) -> &str {
    match str::from_utf8(reply) {
        Ok(text) => text.lines().next().unwrap_or("nothing"),
        Err(_) => "nothing",
    }
}
