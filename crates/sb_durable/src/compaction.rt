//! A journal, written anew: its lines are the scripts of the tenants that the old one leaves. Where the old one or the
//! name of the new one is a folder, the new one is a folder of segments.
ghost use Rattle.std.specs.Prelude.{◌≡◌, ◌≤◌};
ghost use Rattle.sb_host.specs.Opening.{AreNames};
ghost use Rattle.sb_words.specs.Within.{AreRun};

use crate::folder::{Folder, FolderError};
use crate::journal_fault::JournalFault;
use crate::log_lines::{tell_no_journal, tell_not_recorded};
use crate::playing::{Playing, played_journal};
use crate::row_journal::FIRST_NUMBER;
use crate::row_playing::replay_row;
use crate::segmented_journal::OneSegment;
use crate::{
    BatchJournal, File as JournalFile, Head, JournalError, Record, RowJournal, SegmentedJournal,
    Syncing, Wary, open_path, sync_folder,
};
use sb_backup::{NotedScript, Script, ScriptNotes, noted_of, undumped};
use sb_host::{Host, Naming, Opened, Renewing};
use sb_tenant::Bound;
use sb_wire::{LINE_LIMIT, StreamError};
use sb_words::{CompactWords, Log};
use std::alloc::Global;
use std::fmt::Display;
use std::fs::{self, File};
use std::io;
use std::marker::Brand;
use std::rt::{Clock, Files};
use std::sync::Wait;

const OUT_OF_MEMORY: JournalFault = JournalFault::Stream(StreamError::NoMemory);

/// Writes the tenants of the old journal as a new one. The name must be free; it appears when the whole
/// file is durable. Error: the old one can't be opened, a tenant has no script, or the new one can't be written.
pub fn compact<T: Wait + Clock + Alloc + Clone + Drop + Files<File = File>, O: Log>(
    rt: &T,
    alloc: Global,
    log: &O,
    words: CompactWords<'_>,
) -> Result<(), JournalFault>
    requires { AreRun words.run }
{
    let bound = Bound {
        considerations: words.run.bound,
        work: words.run.work,
    };
    match Opened::new(alloc, words.run.tenants, 1, bound) {
        Ok(opened) => compact_host::<Brand, T, O>(rt, alloc, log, opened, words),
        Err(_) => Err(OUT_OF_MEMORY),
    }
}

/// Replays the old journal on a host of these parts, and writes the new one.
fn compact_host<N: Naming, T: Wait + Clock + Alloc + Clone + Drop + Files<File = File>, O: Log>(
    rt: &T,
    alloc: Global,
    log: &O,
    opened: Opened,
    words: CompactWords<'_>,
) -> Result<(), JournalFault>
    requires named { AreNames N.table N.tenants N.cells N.bound N.name N.parts opened }
    requires bound { words.run.bound ≤ 1000 }
{
    let Ok(host) = Host::<N>::new(alloc, opened) else {
        return Err(OUT_OF_MEMORY);
    };
    let bound = Bound {
        considerations: words.run.bound,
        work: words.run.work,
    };
    let compaction = Compaction {
        rt,
        alloc,
        host: &host,
        bound,
        head: Head::new(words.run.tenants, bound),
        log,
    };
    match compaction.play(words.old) {
        Ok(()) => compaction.write_new(words),
        Err(why) => Err(why),
    }
}

/// A compaction at work.
#[derive(Drop)]
struct Compaction<'c, H, T, O> {
    rt: &'c T,
    alloc: Global,
    host: H,
    bound: Bound,
    head: Head,
    log: &'c O,
    ghost few: { bound.considerations ≤ 1000 },
}

impl<
    'c,
    H: Renewing,
    T: Wait + Clock + Alloc + Clone + Drop + Files<File = File>,
    O: Log,
> Compaction<'c, H, T, O> {
    /// Replays the journal at this path, a file or a folder of segments.
    fn play(&self, path: &str) -> Result<(), JournalFault> {
        match fs::metadata(self.rt, path) {
            Ok(found) if found.is_dir() => self.play_folder(path),
            Ok(_) => self.play_file(path),
            Err(error) => {
                tell_no_journal(self.log, path, &error);
                Err(JournalFault::CannotOpen)
            }
        }
    }

    fn play_file(&self, path: &str) -> Result<(), JournalFault> {
        match played_journal(
            self.rt,
            self.alloc,
            self.host,
            path,
            Syncing::Always,
            self.head,
            self.log,
        ) {
            Ok(_) => Ok(()),
            Err(why) => Err(why),
        }
    }

    fn play_folder(&self, path: &str) -> Result<(), JournalFault> {
        let mut playing = Playing::new(self.rt, self.log);
        let played = match Folder::open(self.rt, path, Syncing::Always) {
            Ok(folder) => replay_row(
                self.rt,
                self.alloc,
                self.host,
                &folder,
                self.head,
                &mut playing,
            ),
            Err(error) => Err(error),
        };
        match played {
            Ok(()) => Ok(()),
            Err(error) => {
                tell_no_journal(self.log, path, &error);
                Err(JournalFault::CannotOpen)
            }
        }
    }

    /// True if this path is a folder.
    fn is_folder(&self, path: &str) -> bool {
        match fs::metadata(self.rt, path) {
            Ok(found) => found.is_dir(),
            Err(_) => false,
        }
    }

    /// Writes the journal in the form of the old one, or as a folder where the name is one.
    fn write_new(&self, words: CompactWords<'_>) -> Result<(), JournalFault> {
        match self.is_folder(words.old) || self.is_folder(words.new) {
            true => self.write_folder(words.new.trim_end_matches('/')),
            false => self.write(words.new),
        }
    }

    /// Writes a folder with one segment to a temporary name, and renames it. An empty folder of the name is replaced.
    fn write_folder(&self, path: &str) -> Result<(), JournalFault> {
        let Ok(beside) = format!(in self.alloc; "{path}.new") else {
            return Err(OUT_OF_MEMORY);
        };
        let written = match Folder::open(self.rt, beside.as_str(), Syncing::Always) {
            Ok(folder) => {
                let written = self.fill(&folder, beside.as_str(), path);
                if written.is_err() {
                    // half a journal is of no use
                    let _cleared = folder.clear(self.rt, self.alloc);
                }
                written
            }
            Err(error) => Err(self.unwritten_at(beside.as_str(), &error)),
        };
        if written.is_err() {
            let _removed = fs::remove_dir(self.rt, beside.as_str());
        }
        written
    }

    /// Writes the segment of a folder, and renames the folder.
    fn fill(&self, folder: &Folder, beside: &str, path: &str) -> Result<(), JournalFault> {
        let row = match self.begun(folder) {
            Ok(row) => row,
            Err(error) => return Err(self.unwritten_at(beside, &error)),
        };
        let mut journal = SegmentedJournal {
            row,
            maker: OneSegment,
            limit: usize::MAX,
        };
        match self.write_all(&mut journal) {
            Ok(()) => {}
            Err(why) => return Err(why),
        }
        match fs::rename(self.rt, beside, path) {
            Ok(()) => {}
            Err(error) => return Err(self.unwritten_at(path, &error)),
        }
        match sync_folder(self.rt, path) {
            Ok(()) => Ok(()),
            Err(error) => Err(self.unwritten_at(path, &error)),
        }
    }

    /// The first segment of a folder, in which nothing of an earlier try is left.
    fn begun(&self, folder: &Folder) -> Result<RowJournal<JournalFile<Wary>>, FolderError> {
        folder.clear(self.rt, self.alloc)?;
        let file = folder.make_segment(self.rt, self.alloc, FIRST_NUMBER, Wary)?;
        match RowJournal::begin(self.alloc, file, self.head) {
            Ok(row) => Ok(row),
            Err((error, _file)) => Err(FolderError::of_segment(FIRST_NUMBER, error)),
        }
    }

    fn unwritten_at<D: Display>(&self, path: &str, why: &D) -> JournalFault {
        tell_no_journal(self.log, path, why);
        JournalFault::CannotWrite
    }

    /// Writes a journal to a temporary name, and renames it.
    fn write(&self, path: &str) -> Result<(), JournalFault> {
        if fs::metadata(self.rt, path).is_ok() {
            tell_no_journal(self.log, path, &"it is there already");
            return Err(JournalFault::CannotWrite);
        }
        let Ok(beside) = format!(in self.alloc; "{path}.new") else {
            return Err(OUT_OF_MEMORY);
        };
        let written = self.write_beside(beside.as_str(), path);
        if written.is_err() {
            // half a journal is of no use
            let _removed = fs::remove_file(self.rt, beside.as_str());
        }
        written
    }

    /// Writes a journal as `beside`, and renames it.
    fn write_beside(&self, beside: &str, path: &str) -> Result<(), JournalFault> {
        // nor is what an earlier try left
        let _removed = fs::remove_file(self.rt, beside);
        let mut journal = match open_path(self.rt, self.alloc, beside, Syncing::Always, self.head) {
            Ok(journal) => journal,
            Err(error) => {
                tell_no_journal(self.log, beside, &error);
                return Err(JournalFault::CannotWrite);
            }
        };
        match self.write_all(&mut journal) {
            Ok(()) => {}
            Err(why) => return Err(why),
        }
        match self.give_name(beside, path) {
            Ok(()) => Ok(()),
            Err(error) => {
                tell_no_journal(self.log, path, &error);
                Err(JournalFault::CannotWrite)
            }
        }
    }

    /// Renames a file unless the new name is taken, and syncs the folder.
    fn give_name(&self, from: &str, to: &str) -> io::Result<()> {
        fs::hard_link(self.rt, from, to)?;
        let _removed = fs::remove_file(self.rt, from);
        sync_folder(self.rt, to)
    }

    /// Writes the tenants that were ever opened.
    fn write_all<B: BatchJournal>(&self, journal: &mut B) -> Result<(), JournalFault> {
        for tenant in 0..self.host.tenants() {
            let notes = ScriptNotes::new(self.alloc, self.bound);
            match noted_of(self.rt, self.host, tenant, notes) {
                NotedScript::Unused => {}
                NotedScript::Lacking(error) => return Err(JournalFault::Undumped(undumped(
                    u64::from(tenant),
                    error,
                ))),
                NotedScript::Script(script) => {
                    if let Err(error) = write_script(journal, tenant, &script) {
                        return Err(self.unwritten(error));
                    }
                }
            }
        }
        match journal.commit() {
            Ok(()) => Ok(()),
            Err(error) => Err(self.unwritten(error)),
        }
    }

    fn unwritten(&self, error: JournalError) -> JournalFault {
        tell_not_recorded(self.log, &error);
        JournalFault::CannotWrite
    }
}

/// Writes a script, in a session of its own.
fn write_script<B: BatchJournal>(
    journal: &mut B,
    tenant: u32,
    script: &Script,
) -> Result<(), JournalError> {
    write_line(journal, tenant, b"open")?;
    for line in script.lines() {
        write_line(journal, tenant, line.as_slice())?;
    }
    write_line(journal, tenant, b"end")
}

/// Stages a line. If the buffer is full, it is committed first.
fn write_line<B: BatchJournal>(
    journal: &mut B,
    tenant: u32,
    text: &[u8],
) -> Result<(), JournalError> {
    if text.len() > LINE_LIMIT {
        return Err(JournalError::Full);
    }
    let record = Record {
        tenant,
        session: 0,
        text,
    };
    match journal.stage(record) {
        Err(JournalError::Full) => {
            journal.commit()?;
            journal.stage(record)
        }
        staged => staged,
    }
}
