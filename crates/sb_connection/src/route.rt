//! Where a connection goes, before its first line is answered.
ghost use Rattle.std.specs.Prelude.{◌≡◌};
ghost use Rattle.sb_connection.specs.Conversation.{hosting, hosting_by};
ghost use Rattle.sb_connection.specs.Routes.{Routes, RoutesBy};

use crate::first_line::{SessionName, named_in, tenant_at};
use sb_value::SESSION_LIMIT;
use sb_wire::{Lines, Piece};

/// Where a connection goes.
#[derive(Clone, Copy, Debug, PartialEq, Eq)]
pub enum Destination {
    /// Its first line isn't complete.
    Unknown,
    /// To this tenant of the host.
    To(u32),
    /// Its first line opens no session.
    Away,
}

/// Where a connection goes by the bytes that have come of it; and whether no more come.
pub fn route_of(bytes: &[u8], has_ended: bool, first: u32, tenants: u32, keyed: bool) -> Destination
    ensures { Routes (hosting_by keyed first tenants) bytes.now has_ended result }
{
    let mut lines = Lines::new();
    match lines.feed(bytes) {
        Some(_) => route_by(named_in(lines.line(), keyed), first, tenants),
        None if has_ended => route_by(named_in(lines.line(), keyed), first, tenants),
        None => match lines.line() {
            Piece::TooLong => Destination::Away,
            Piece::Line(_) => Destination::Unknown,
        },
    }
}

/// Where a connection goes whose first line names this.
fn route_by(named: Option<SessionName>, first: u32, tenants: u32) -> Destination
    ensures { RoutesBy (hosting first tenants) named result }
{
    let Some(named) = named else {
        return Destination::Away;
    };
    let tenant = tenant_at(first, tenants, named.tenant);
    if tenant < tenants && named.session < SESSION_LIMIT as u32 {
        Destination::To(tenant)
    } else {
        Destination::Away
    }
}
