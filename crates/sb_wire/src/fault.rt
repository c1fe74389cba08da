//! Why a stream ends early.
ghost use Rattle.std.specs.Prelude.{◌≡◌};
ghost use Rattle.sb_wire.specs.Faults.{fault_line};

use thiserror::Error;

/// Why a stream ended before its input did.
#[derive(Clone, Copy, Debug, Drop, PartialEq, Eq, Error)]
pub enum StreamError {
    /// The input's reader failed.
    #[error("read failed")]
    ReadFault,
    /// The output's writer failed.
    #[error("write failed")]
    WriteFault,
    /// The stream's own buffers found no memory.
    #[error("out of memory")]
    NoMemory,
}

impl StreamError {
    /// The line that tells it.
    pub fn line(self) -> &'static [u8]
        ensures { result.now ≡ fault_line self }
    {
        match self {
            StreamError::ReadFault => b"fault: read failed\n",
            StreamError::WriteFault => b"fault: write failed\n",
            StreamError::NoMemory => b"fault: out of memory\n",
        }
    }
}
