//! What a request asks for.
ghost use Rattle.std.specs.Prelude.{ℕ, MatchOption};
ghost use Rattle.sb_status.specs.Routes.{IsNumber, Names, NamesAlone, NamesBehind, NamesSession, NamesWithout};
ghost use Rattle.sb_status.specs.declared.route.Ended.{Ended as ItsEnded};

use std::str;

const TENANTS: &[u8] = b"/tenants/";

const DUMP: &[u8] = b"/dump";

const SESSIONS: &[u8] = b"/sessions/";

const END: &[u8] = b"/end";

const RENEW: &[u8] = b"/renew";

/// A session that is to end.
#[derive(Clone, Copy)]
pub struct Ended {
    pub tenant: u32,
    pub session: u32,
}

/// A page, or what is asked for.
#[derive(Clone, Copy)]
pub enum Route {
    Host,
    Metrics,
    /// The page of the tenant with this number.
    Tenant(u32),
    /// Its script.
    Dump(u32),
    /// The end of a session.
    End(Ended),
    /// The renewal of the tenant with this number.
    Renew(u32),
    Unknown,
}

/// The page at a target.
pub fn route_of(target: &[u8]) -> Route
    ensures { Names target.now result }
{
    if target == b"/".as_slice() {
        return Route::Host;
    }
    if target == b"/metrics".as_slice() {
        return Route::Metrics;
    }
    match target.strip_prefix(TENANTS) {
        Some(rest) => route_behind(rest),
        None => Route::Unknown,
    }
}

/// The page of a tenant, by what stands behind the first part of the target.
fn route_behind(rest: &[u8]) -> Route
    ensures { NamesBehind rest.now result }
{
    match rest.strip_suffix(DUMP) {
        None => route_without(rest),
        Some(digits) => match number(digits) {
            Some(tenant) => Route::Dump(tenant),
            None => Route::Unknown,
        },
    }
}

/// The page of a tenant, its renewal, or the end of one of its sessions.
fn route_without(rest: &[u8]) -> Route
    ensures { NamesWithout rest.now result }
{
    match rest.strip_suffix(END) {
        None => route_alone(rest),
        Some(front) => match session_in(front) {
            Some(ended) => Route::End(ended),
            None => Route::Unknown,
        },
    }
}

/// The page of a tenant, or its renewal.
fn route_alone(rest: &[u8]) -> Route
    ensures { NamesAlone rest.now result }
{
    match rest.strip_suffix(RENEW) {
        Some(digits) => match number(digits) {
            Some(tenant) => Route::Renew(tenant),
            None => Route::Unknown,
        },
        None => match number(rest) {
            Some(tenant) => Route::Tenant(tenant),
            None => Route::Unknown,
        },
    }
}

/// A tenant and the digit of one of its sessions.
fn session_in(text: &[u8]) -> Option<Ended>
    ensures { MatchOption result ((e : ItsEnded) → NamesSession text.now e → ⊥) (NamesSession text.now) }
{
    let (digit, front) = text.split_last()?;
    let tenant = number(front.strip_suffix(SESSIONS)?)?;
    if !digit.is_ascii_digit() {
        return None;
    }
    Some(Ended {
        tenant,
        session: u32::from(*digit - b'0'),
    })
}

/// The number that these bytes are.
pub fn number(digits: &[u8]) -> Option<u32>
    ensures { MatchOption result ((n : ℕ) → IsNumber digits.now n → ⊥) (IsNumber digits.now) }
{
    let Ok(text) = str::from_utf8(digits) else {
        return None;
    };
    match text.parse::<u32>() {
        Ok(number) => Some(number),
        Err(_) => None,
    }
}
