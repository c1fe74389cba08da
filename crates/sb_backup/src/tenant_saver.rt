//! The tenants of a host, written to the files of a folder.
ghost use Rattle.std.specs.Prelude.{◌≡◌, ◌+◌, IfErr};
ghost use Rattle.sb_backup.specs.HostDumps.{IsUnsaved};

use crate::dump::undumped;
use crate::error::BackupError;
use crate::host_dump::{NotedScript, ScriptNotes};
use crate::script_files::ScriptFiles;
use sb_host::{Lending, Reading, Tried};
use sb_tenant::Tenant;
use sb_words::Log;
use std::alloc::AllocError;
use std::rt::Files;
use std::sync::Wait;
use std::sync::atomic::{AtomicU64, Ordering};

/// Makes the script of a tenant that has had further steps, under the lock of its cell.
#[derive(Drop)]
pub(crate) struct NewerNotes {
    notes: ScriptNotes,
    /// How many steps it had before.
    known: u64,
    /// How many it has.
    steps: u64,
}

impl Reading for NewerNotes {
    ghost use Rattle.sb_backup.specs.NewerNotes.{IsNoted};

    ghost reads = { λ old own new. IsNoted old.known old.notes own new.steps new.notes };

    fn read(&mut self, tenant: &Tenant) {
        self.steps = tenant.trail().len() as u64;
        if self.steps != self.known {
            self.notes.read(tenant);
        }
    }
}

/// Writes the tenants of a host to the files of a folder, each one anew only if it has had steps since.
#[derive(Drop)]
pub struct TenantSaver<'r, 'j, T, O> {
    files: ScriptFiles<'r, 'j, T, O>,
    /// How many steps each tenant had when its file was written; 0: it isn't.
    written: Vec<AtomicU64>,
}

impl<'r, 'j, T: Files, O: Log> TenantSaver<'r, 'j, T, O> {
    /// For so many tenants, of which none is written. Error: out of memory.
    pub fn new(
        files: ScriptFiles<'r, 'j, T, O>,
        tenants: u32,
    ) -> Result<TenantSaver<'r, 'j, T, O>, AllocError> {
        let mut written = Vec::new(files.alloc);
        for _tenant in 0..tenants {
            written.push(AtomicU64::new(0))?;
        }
        Ok(TenantSaver { files, written })
    }

    /// Writes the file of each tenant that has no transaction and whose cell nobody holds, and waits for none. Error: the
    /// first fault of a file that can't be written, which is logged.
    pub fn save_resting<H: Lending>(&self, host: H) -> Result<(), BackupError> {
        for tenant in 0..host.tenants() {
            let mut notes = self.notes_for(tenant);
            if let Tried::Read = host.try_read(tenant, &mut notes) {
                if !matches!(notes.notes.noted, NotedScript::Lacking(_)) {
                    self.write(tenant, notes)?;
                }
            }
        }
        Ok(())
    }

    /// Writes the file of each tenant that was ever opened. After a fault the others are still written, and the first
    /// fault is returned. Error: the first fault.
    pub fn save_all<R: Wait, H: Lending>(&self, rt: &R, host: H) -> Result<(), BackupError> {
        let mut ended = Ok(());
        for tenant in 0..host.tenants() {
            if let Err(why) = self.save(rt, host, tenant) {
                self.files.tell_unsaved(tenant);
                if ended.is_ok() {
                    ended = Err(why);
                }
            }
        }
        ended
    }

    /// Writes the file of a tenant, if it has had steps since.
    fn save<R: Wait, H: Lending>(&self, rt: &R, host: H, tenant: u32) -> Result<(), BackupError>
        ensures { IfErr result (IsUnsaved (self.now.files.folder.first + tenant)) }
    {
        let mut notes = self.notes_for(tenant);
        let _is_there = host.read(rt, tenant, &mut notes);
        self.write(tenant, notes)
    }

    /// Nothing is noted of a tenant yet, but how many steps its file has.
    fn notes_for(&self, tenant: u32) -> NewerNotes
        ensures { (result.notes.noted ≡ NotedScript.Unused) × (result.notes.bound ≡ self.now.files.bound) }
    {
        let known = match self.written.get(tenant as usize) {
            Some(steps) => steps.load(Ordering::SeqCst),
            None => 0,
        };
        NewerNotes {
            notes: ScriptNotes::new(self.files.alloc, self.files.bound),
            known,
            steps: known,
        }
    }

    /// Writes the script that was noted of a tenant, if one was.
    fn write(&self, tenant: u32, notes: NewerNotes) -> Result<(), BackupError>
        ensures { IfErr result (IsUnsaved (self.now.files.folder.first + tenant)) }
    {
        let number = self.files.folder.number_of(tenant);
        let NewerNotes { notes, steps, .. } = notes;
        let ScriptNotes { noted, .. } = notes;
        match noted {
            NotedScript::Unused => Ok(()),
            NotedScript::Lacking(error) => Err(undumped(number, error)),
            NotedScript::Script(script) => match self.files.write(number, &script) {
                Ok(()) => {
                    self.note_written(tenant, steps);
                    Ok(())
                }
                Err(why) => Err(why),
            },
        }
    }

    /// Notes that a tenant's file has so many steps.
    fn note_written(&self, tenant: u32, steps: u64) {
        if let Some(written) = self.written.get(tenant as usize) {
            written.store(steps, Ordering::SeqCst);
        }
    }
}
