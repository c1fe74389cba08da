//! The files that the scripts of tenants are written to.
ghost use Rattle.std.specs.Prelude.{◌≡◌, ◌⊎◌, ◌≤◌, IfErr};
ghost use Rattle.sb_backup.specs.declared.error.BackupError.TheVariants as fault;
ghost use Rattle.sb_wire.specs.declared.fault.StreamError.TheVariants as stream;

use crate::dump::text_of;
use crate::error::BackupError;
use crate::folder::Folder;
use sb_dump::Script;
use sb_tenant::Bound;
use sb_wire::StreamError;
use sb_words::{Log, Severity};
use std::alloc::Global;
use std::rt::Files;

/// The files of a folder, for scripts of tenants with this bound, and who is told why one isn't written.
#[derive(Drop)]
pub struct ScriptFiles<'r, 'j, T, O> {
    /// The system that has them.
    pub rt: &'r T,
    pub alloc: Global,
    pub bound: Bound,
    pub folder: Folder<'r>,
    pub log: &'j O,
    ghost few: { bound.considerations ≤ 1000 },
}

impl<'r, 'j, T: Files, O: Log> ScriptFiles<'r, 'j, T, O> {
    /// Writes a script to the file of the tenant with this number.
    pub(crate) fn write(&self, number: u64, script: &Script) -> Result<(), BackupError>
        ensures { IfErr result (λ why. (why ≡ fault.Stream stream.NoMemory) ⊎ (why ≡ fault.CannotWrite number)) }
    {
        let Ok(text) = text_of(self.alloc, script) else {
            return Err(BackupError::Stream(StreamError::NoMemory));
        };
        match self
            .folder
            .write(self.rt, self.alloc, number, text.as_slice())
        {
            Ok(Ok(())) => Ok(()),
            Ok(Err(error)) => {
                self.log.write(
                    Severity::Error,
                    &format_args!("can't write {number}.lines: {error}"),
                );
                Err(BackupError::CannotWrite { tenant: number })
            }
            Err(_) => Err(BackupError::Stream(StreamError::NoMemory)),
        }
    }

    /// Logs that the script of a tenant is not written.
    pub(crate) fn tell_unsaved(&self, tenant: u32) {
        let number = self.folder.number_of(tenant);
        self.log.write(
            Severity::Error,
            &format_args!("tenant {number} isn't written"),
        );
    }
}
