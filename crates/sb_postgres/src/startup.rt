//! The first packet of a connection.
ghost use Rattle.std.specs.Prelude.{◌≡◌, IfOk, Ok, length, map};
ghost use Rattle.sb_postgres.specs.Startup.{IsStarted, Started, body_of, pair_seen, started};
ghost use Rattle.sb_postgres.specs.StartupReading.{cancel_at, parameters_at, session_at, startup_at};
ghost use Rattle.sb_postgres.specs.Reading.{Gives, ended};

use crate::error::{Fault, ReadError};
use crate::fields::{SHORT, text_at, word_at};
use std::alloc::Global;

const CANCEL_REQUEST: u32 = 80_877_102;

const SSL_REQUEST: u32 = 80_877_103;

const GSS_ENC_REQUEST: u32 = 80_877_104;

/// A parameter of a session, as `database`.
#[derive(Clone, Copy, Debug)]
pub struct Parameter<'a> {
    pub name: &'a [u8],
    pub value: &'a [u8],
}

/// What a client sends before anything else. It has a length, but no first byte.
#[derive(Debug, Drop)]
pub enum StartupPacket<'a> {
    /// Encryption is asked for.
    SslRequest,
    GssEncRequest,
    /// The statement of another session is to be cancelled.
    CancelRequest {
        process: u32,
        key: u32,
    },
    /// Version 3 with this minor version is spoken.
    Startup {
        minor: u32,
        parameters: Vec<Parameter<'a>>,
    },
}

/// Parameters up to an empty name. Each has a byte at least.
fn parameters_at<'a>(
    alloc: Global,
    bytes: &'a [u8],
) -> Result<(Vec<Parameter<'a>>, &'a [u8]), ReadError>
    ensures { Gives (λ x. (map pair_seen x.0.items, x.1.now)) result (parameters_at (length bytes.now) bytes.now) }
{
    let mut found = Vec::new(alloc);
    let mut rest = bytes;
    for _ in 0..bytes.len() {
        let (name, behind) = text_at(rest)?;
        if name.is_empty() {
            return Ok((found, behind));
        }
        let (value, behind) = text_at(behind)?;
        found.push(Parameter { name, value })?;
        rest = behind;
    }
    Err(SHORT)
}

/// The packet, where nothing stands behind it.
fn ended<'a>(packet: StartupPacket<'a>, rest: &[u8]) -> Result<StartupPacket<'a>, ReadError>
    ensures { Gives started result (ended (started packet.entry) rest.now) }
{
    if rest.is_empty() {
        Ok(packet)
    } else {
        Err(ReadError::Fault(Fault::Trailing))
    }
}

#[tactic(auto, unfolding(crate::specs::StartupReading::cancel_at))]
fn cancel_of(bytes: &[u8]) -> Result<StartupPacket<'_>, ReadError>
    ensures { Gives started result (cancel_at bytes.now) }
{
    let (process, rest) = word_at(bytes)?;
    let (key, rest) = word_at(rest)?;
    ended(StartupPacket::CancelRequest { process, key }, rest)
}

#[tactic(auto, unfolding(crate::specs::StartupReading::session_at))]
fn session_of(alloc: Global, version: u32, bytes: &[u8]) -> Result<StartupPacket<'_>, ReadError>
    ensures { Gives started result (session_at version bytes.now) }
{
    if version / 65_536 != 3 {
        return Err(ReadError::Fault(Fault::Version));
    }
    let (parameters, rest) = parameters_at(alloc, bytes)?;
    let minor = version % 65_536;
    ended(StartupPacket::Startup { minor, parameters }, rest)
}

#[tactic(auto, unfolding(crate::specs::StartupReading::startup_at))]
fn startup_of(alloc: Global, body: &[u8]) -> Result<StartupPacket<'_>, ReadError>
    ensures { Gives started result (startup_at body.now) }
{
    let (code, rest) = word_at(body)?;
    match code {
        CANCEL_REQUEST => cancel_of(rest),
        SSL_REQUEST => ended(StartupPacket::SslRequest, rest),
        GSS_ENC_REQUEST => ended(StartupPacket::GssEncRequest, rest),
        version => session_of(alloc, version, rest),
    }
}

/// The packet with these bytes behind its length. Error: what is wrong in it, or out of memory.
pub fn read_startup(alloc: Global, body: &[u8]) -> Result<StartupPacket<'_>, ReadError>
    // What is read has these bytes.
    ensures found { IfOk result (λ p. IsStarted (started p) × (body_of (started p) ≡ body.now)) }
    // What has these bytes is read, unless memory runs out.
    ensures only { (p : Started) → IsStarted p → body_of p ≡ body.now → Gives started result (Ok p) }
    // Which fault it is.
    ensures exact { Gives started result (startup_at body.now) }
{
    startup_of(alloc, body)
}
