//! How a connection starts.
ghost use Rattle.std.specs.Prelude.{◌≡◌, ◌<◌, ℕ, Bool, List, [], IfErr, IfOk, IsTrue, false, map, option_copied};
ghost use Rattle.sb_postgres.specs.Startup.{pair_seen};
ghost use Rattle.sb_frontend.specs.Starts as spec;
ghost use Rattle.sb_frontend.specs.Starts.{Source};

use crate::session::LineSession;
use sb_postgres::Parameter;
use sb_postgres::told::SqlState;
use std::alloc::{AllocError, Global};
use std::sync::Wait;

/// How many sessions a tenant has.
pub const SESSIONS: u32 = 8;

/// Why no session was opened.
#[derive(Clone, Copy, Debug, PartialEq, Eq)]
pub enum OpenError {
    /// No tenant has this number.
    NoTenant,
    /// It is open already.
    InUse,
    /// The tenant's trail is full.
    TrailFull,
    NotBegun,
}

/// Opens sessions of tenants, by the numbers that clients name, to whom it lets in.
pub trait SessionSource {
    type Session: LineSession;

    // keys are asked for, which key opens which tenant, and why a session isn't opened
    ghost source: { Source };

    /// True if it asks for a key.
    fn asks_for_key(&self) -> bool
        ensures { result ≡ source.keyed };

    /// True if it lets in who brings this key of a tenant.
    fn lets_in<R: Wait>(&self, rt: &R, tenant: u32, key: &[u8]) -> bool
        ensures { IsTrue result → source.admits tenant key.now };

    /// Opens the session of this number of a tenant. It has made no call yet.
    fn open<R: Wait>(
        &self,
        rt: &R,
        alloc: Global,
        tenant: u32,
        number: u32,
    ) -> Result<Self::Session, OpenError>
        ensures tenant { IfOk result (λ s. Self.Session.tenant s ≡ tenant) }
        ensures number { IfOk result (λ s. Self.Session.number s ≡ number) }
        ensures fresh { IfOk result (λ s. (Self.Session.exchanges s ≡ []) × (Self.Session.has s ≡ false)) }
        ensures refused { IfErr result (λ e. source.refuses tenant number e) };
}

/// Opens the least free session of a tenant.
pub(crate) fn open_least<R: Wait, O: SessionSource>(
    rt: &R,
    alloc: Global,
    source: &O,
    tenant: u32,
) -> Result<O::Session, OpenError>
    ensures tenant { IfOk result (λ s. O.Session.tenant s ≡ tenant) }
    ensures number { IfOk result (λ s. O.Session.number s < spec.session_count) }
    ensures fresh { IfOk result (λ s. (O.Session.exchanges s ≡ []) × (O.Session.has s ≡ false)) }
    // Those of lower numbers are in use.
    ensures least { IfOk result (λ s. spec.AreInUse O.source tenant (O.Session.number s)) }
    ensures refused { IfErr result (λ e. spec.RefusesAll O.source tenant e) }
{
    for number in 0..SESSIONS {
        match source.open(rt, alloc, tenant, number) {
            Ok(session) => return Ok(session),
            Err(OpenError::InUse) => {}
            Err(error) => return Err(error),
        }
    }
    Err(OpenError::InUse)
}

/// The SQLSTATE of a session that wasn't opened.
pub(crate) fn state_of(error: OpenError) -> SqlState
    ensures { result ≡ spec.state_of error }
{
    match error {
        OpenError::NoTenant => SqlState::InvalidCatalogName,
        OpenError::InUse => SqlState::TooManyConnections,
        OpenError::TrailFull => SqlState::ConfigurationLimitExceeded,
        OpenError::NotBegun => SqlState::OutOfMemory,
    }
}

/// The message of a session that wasn't opened.
pub(crate) fn text_of(error: OpenError) -> &'static str
    ensures { result.now ≡ spec.text_of error }
{
    match error {
        OpenError::NoTenant => "the database does not exist",
        OpenError::InUse => "too many clients already: all sessions of the database are in use",
        OpenError::TrailFull => "the trail of the database is full",
        OpenError::NotBegun => "out of memory: the session was not opened",
    }
}

/// The value of the first parameter of this name.
fn parameter_of<'a>(parameters: &[Parameter<'a>], name: &[u8]) -> Option<&'a [u8]>
    ensures { option_copied result ≡ spec.parameter_of name.now (map pair_seen parameters.now) }
{
    let mut left = parameters;
    while let [parameter, rest @ ..] = left {
        if parameter.name == name {
            return Some(parameter.value);
        }
        left = rest;
    }
    None
}

/// The name of the tenant: that of the database, if one is named, or else the user's.
fn tenant_name<'a>(parameters: &[Parameter<'a>]) -> Option<&'a [u8]>
    ensures { option_copied result ≡ spec.tenant_name (map pair_seen parameters.now) }
{
    match parameter_of(parameters, b"database") {
        Some([]) => parameter_of(parameters, b"user"),
        Some(database) => Some(database),
        None => parameter_of(parameters, b"user"),
    }
}

/// A number with one more digit, if it has 32 bits.
fn with_digit(before: u32, digit: u8) -> Option<u32>
    ensures { result ≡ spec.with_digit before digit }
{
    if digit < b'0' || b'9' < digit {
        return None;
    }
    let number = u64::from(before) * 10 + u64::from(digit - b'0');
    if number < 4_294_967_296 {
        Some(number as u32)
    } else {
        None
    }
}

/// The number that these digits give.
fn number_in(digits: &[u8]) -> Option<u32>
    ensures { result ≡ spec.number_behind 0 digits.now }
{
    let mut before: u32 = 0;
    let mut left = digits;
    while let [digit, rest @ ..] = left {
        match with_digit(before, *digit) {
            Some(number) => before = number,
            None => return None,
        }
        left = rest;
    }
    Some(before)
}

/// A number of one digit at least.
fn number_of(digits: &[u8]) -> Option<u32>
    ensures { result ≡ spec.number_of digits.now }
{
    if digits.is_empty() {
        None
    } else {
        number_in(digits)
    }
}

/// The number of the tenant that is named.
pub(crate) fn tenant_of(parameters: &[Parameter<'_>]) -> Option<u32>
    ensures { result ≡ spec.tenant_of (map pair_seen parameters.now) }
{
    match tenant_name(parameters) {
        Some(name) => number_of(name),
        None => None,
    }
}

/// The names of the options of the protocol that a client asks for.
pub(crate) fn options_of<'a>(
    alloc: Global,
    parameters: &[Parameter<'a>],
) -> Result<Vec<&'a [u8]>, AllocError>
    ensures { IfOk result (λ options. map (λ o. o.now) options.items ≡ spec.options_of (map pair_seen parameters.now)) }
{
    let mut options = Vec::new(alloc);
    for parameter in parameters {
        if parameter.name.starts_with(b"_pq_.") {
            options.push(parameter.name)?;
        }
    }
    Ok(options)
}
