//! How a connection ends.

use sb_wire::StreamError;
use std::io::ErrorKind;

/// How a connection ended.
#[derive(Clone, Copy)]
pub enum ConnectionEnd {
    /// It is over, or the server ends.
    Well,
    /// By a fault, for which the system may have a reason.
    Fault {
        why: StreamError,
        reason: Option<ErrorKind>,
    },
    /// No line came for too long.
    Idle,
    /// No line came for too long in a transaction.
    IdleTransaction,
    /// An operator ended its session.
    ByOperator,
}

impl ConnectionEnd {
    /// The end of a connection over a stream that ended so.
    pub(crate) fn of(ended: &Result<(), StreamError>) -> ConnectionEnd {
        match ended {
            Ok(()) => ConnectionEnd::Well,
            Err(why) => ConnectionEnd::Fault {
                why: *why,
                reason: None,
            },
        }
    }
}
