//! Why an input gives no commands, and why it isn't replayed.
ghost use Rattle.std.specs.Prelude.{◌≡◌};
ghost use Rattle.sb_replay.specs.Replay.{unattached_as, unread_by};

use sb_host::{AttachError, FinishError};
use sb_value::SessionId;
use sb_wire::WireRefusal;

/// Why an input gives no commands.
#[derive(Clone, Copy, Debug, PartialEq, Eq)]
pub enum ScriptError {
    /// The reader failed.
    ReadFault,
    /// This line, counted from 1, is no command for a session of the host: a stream would refuse it by this word.
    BadLine { line: u64, why: WireRefusal },
    NoMemory,
}

/// Why a replay ended without its output.
#[derive(Clone, Copy)]
pub enum ReplayError {
    /// The input's reader failed.
    ReadFault,
    /// The output's writer failed.
    WriteFault,
    /// This line, counted from 1, is no command for a session of the host: a stream would refuse it by this word.
    BadLine { line: u64, why: WireRefusal },
    /// The session is open already, or its tenant's trail is full.
    Attach { tenant: u32, session: SessionId },
    /// The receipts of the sessions don't agree with the trails, or those of a session don't stand in its order.
    Finish(FinishError),
    NoMemory,
}

/// Why no commands were read.
pub(crate) fn unread(error: ScriptError) -> ReplayError
    ensures { result ≡ unread_by error }
{
    match error {
        ScriptError::ReadFault => ReplayError::ReadFault,
        ScriptError::BadLine { line, why } => ReplayError::BadLine { line, why },
        ScriptError::NoMemory => ReplayError::NoMemory,
    }
}

/// What a session that isn't attached is told as.
pub(crate) fn unattached(error: AttachError, tenant: u32, session: SessionId) -> ReplayError
    ensures { result ≡ unattached_as tenant session error }
{
    match error {
        AttachError::NotBegun => ReplayError::NoMemory,
        _ => ReplayError::Attach { tenant, session },
    }
}
