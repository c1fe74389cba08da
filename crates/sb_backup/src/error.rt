//! Why tenants aren't dumped, or aren't made again.
ghost use Rattle.std.specs.Prelude.{◌≡◌, ◌++◌, OnOk};
ghost use Rattle.sb_backup.specs.Errors.{error_text, one_number_text};

use sb_wire::{StreamError, push_labelled};
use std::alloc::AllocError;

/// Why tenants aren't dumped, or aren't made again from their scripts.
#[derive(Clone, Copy, Debug)]
pub enum BackupError {
    /// A stream failed, or memory ran out.
    Stream(StreamError),
    /// The cell doesn't have the tenant.
    NoTenant { tenant: u64 },
    /// A session of the tenant has a transaction.
    TenantBusy { tenant: u64 },
    /// The script of the tenant does not make an equal tenant.
    CannotDump { tenant: u64 },
    /// A folder that is asked for isn't there.
    NoFolder,
    /// The tenant's file can't be read, or a line of it isn't answered as a line of a script.
    CannotLoad { tenant: u64 },
    /// The tenant's file can't be written.
    CannotWrite { tenant: u64 },
}

impl BackupError {
    /// Adds its line. Error: memory runs out.
    pub fn push_line(self, line: &mut Vec<u8>) -> Result<(), AllocError>
        ensures { OnOk result (line.new.items ≡ line.old.items ++ error_text self) }
    {
        match self {
            BackupError::Stream(error) => line.extend_from_slice(error.line()),
            BackupError::NoTenant { tenant } => push_number(line, b"fault: no tenant ", tenant),
            BackupError::TenantBusy { tenant } => push_number(line, b"fault: busy tenant ", tenant),
            BackupError::CannotDump { tenant } => push_number(line, b"fault: cannot dump ", tenant),
            BackupError::NoFolder => line.extend_from_slice(b"fault: no folder\n"),
            BackupError::CannotLoad { tenant } => push_number(line, b"fault: cannot load ", tenant),
            BackupError::CannotWrite { tenant } => {
                push_number(line, b"fault: cannot write ", tenant)
            }
        }
    }
}

/// Adds some text, a number, and the end of the line. Error: memory runs out.
pub fn push_number(out: &mut Vec<u8>, label: &[u8], number: u64) -> Result<(), AllocError>
    ensures { OnOk result (out.new.items ≡ out.old.items ++ one_number_text label.now number) }
{
    push_labelled(out, label, number)?;
    out.push(b'\n')?;
    Ok(())
}
