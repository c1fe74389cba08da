//! What a server's words say of it, as the server takes it.
ghost use Rattle.std.specs.Prelude.{◌≡◌, ◌≤◌, ◌*◌};
ghost use Rattle.starhost.specs.Terms.{AreMegabytes, AreMillis, AreTermsOf, IsHere, IsPlanOf, IsSeconds, IsStatusOf};
ghost use Rattle.sb_words.specs.Within.{AreServer};

use sb_server::Terms;
use sb_tenant::Bound;
use sb_words::{RenewPolicy, ServerOptions, Severity};
use std::net::{IpAddr, Ipv4Addr, SocketAddr};
use std::time::Duration;

const MEGABYTE: u64 = 1_048_576;

/// A server's settings: where it listens, the numbers of its host, its terms, and what it logs.
#[derive(Clone, Copy)]
pub(crate) struct Plan {
    pub(crate) address: SocketAddr,
    pub(crate) tenants: u32,
    pub(crate) cells: u32,
    pub(crate) bound: Bound,
    /// How many bytes each tenant may take, if that is limited.
    pub(crate) tenant_memory: Option<u64>,
    pub(crate) terms: Terms,
    pub(crate) log: Severity,
    /// Where the status pages are, if there are some.
    pub(crate) status: Option<SocketAddr>,
    /// Which tenants are renewed without being asked for.
    pub(crate) renew: RenewPolicy,
    /// A segment of its journal with so many bytes is full.
    pub(crate) segment: usize,
}

/// The settings that the words ask for.
pub(crate) fn plan_of(serving: ServerOptions) -> Plan
    requires { AreServer serving }
    ensures { IsPlanOf serving result }
{
    Plan {
        address: here(serving.port as u16),
        tenants: serving.hosting.run.tenants,
        cells: serving.hosting.cells,
        bound: Bound {
            considerations: serving.hosting.run.bound,
            work: serving.hosting.run.work,
        },
        tenant_memory: megabytes(serving.tenant_memory),
        terms: terms_of(serving),
        log: serving.log,
        status: status_of(serving),
        renew: serving.renew,
        segment: bytes_of(serving.segment),
    }
}

/// Where the status pages are to be, if there are to be some.
fn status_of(serving: ServerOptions) -> Option<SocketAddr>
    requires { AreServer serving }
    ensures { IsStatusOf serving.status result }
{
    match serving.status {
        Some(port) => Some(here(port as u16)),
        None => None,
    }
}

fn terms_of(serving: ServerOptions) -> Terms
    ensures { AreTermsOf serving result }
{
    Terms {
        workers: serving.hosting.workers as usize,
        first_tenant: serving.first_tenant,
        connections: u64::from(serving.connections),
        idle: seconds(serving.idle),
        idle_transaction: seconds(serving.idle_transaction),
        until_input_ends: serving.until_input_ends,
        slow: milliseconds(serving.slow),
    }
}

/// This port of this machine, which others don't reach.
fn here(port: u16) -> SocketAddr
    ensures { IsHere port result }
{
    SocketAddr::new(IpAddr::V4(Ipv4Addr::new(127, 0, 0, 1)), port)
}

/// Megabytes in bytes.
fn bytes_of(megabytes: u32) -> usize
    ensures { result ≡ megabytes * 1_048_576 }
{
    megabytes as usize * 1_048_576
}

/// Megabytes in bytes. 0: no limit.
fn megabytes(count: u32) -> Option<u64>
    ensures { AreMegabytes count result }
{
    if count == 0 {
        return None;
    }
    Some(u64::from(count) * MEGABYTE)
}

/// A number of seconds. 0: no limit.
fn seconds(count: u32) -> Option<Duration>
    ensures { IsSeconds count result }
{
    if count == 0 {
        return None;
    }
    Some(Duration::from_secs(u64::from(count)))
}

/// A number of milliseconds. 0: none.
fn milliseconds(count: u32) -> Option<Duration>
    ensures { AreMillis count result }
{
    if count == 0 {
        return None;
    }
    Some(Duration::from_millis(u64::from(count)))
}
