//! Two tenants at rest, compared.
ghost use Rattle.std.specs.Prelude.{◌≡◌, map, IsTrue};
ghost use Rattle.sb_tenant.specs.AlikeTenants as spec;
ghost use Rattle.sb_tenant.specs.Alike.{AreAlikeAtRest, HaveSamePairs, IsAtRest, shown};
ghost use Rattle.sb_tenant.specs.State.{tables_seen};
ghost use Rattle.sb_tenant.specs.Tenant.{state};

pub(crate) mod laws;
mod same;
mod same_definitions;
mod same_tables;
mod trees;

use crate::Tenant;
use crate::alike::same_definitions::same_definitions;
use crate::alike::same_tables::{are_settled, same_tables};
use sb_value::{SESSION_LIMIT, SessionId};

/// True if a session of the tenant has a transaction.
pub fn is_busy(tenant: &Tenant) -> bool
    ensures { result ≡ spec.is_busy (state tenant.now) }
{
    for number in 0..SESSION_LIMIT {
        if tenant.has_transaction(SessionId::new(number as u8)) {
            return true;
        }
    }
    false
}

/// True if the tenants are at rest, and alike.
pub fn are_alike(one: &Tenant, other: &Tenant) -> bool
    ensures { IsTrue result → AreAlikeAtRest (state one.now) (state other.now) }
{
    if !is_at_rest(one) {
        return false;
    }
    if !is_at_rest(other) {
        return false;
    }
    same_catalogs(one, other)
}

fn is_at_rest(tenant: &Tenant) -> bool
    ensures { IsTrue result → IsAtRest (state tenant.now) }
{
    if is_busy(tenant) {
        return false;
    }
    are_settled(tenant.tables())
}

/// True if the tables that are seen are shown alike, and all else that has a name is the same.
fn same_catalogs(one: &Tenant, other: &Tenant) -> bool
    ensures tables { IsTrue result → map shown (tables_seen (state one.now)) ≡ map shown (tables_seen (state other.now)) }
    ensures rules { IsTrue result → (state one.now).catalog.rules ≡ (state other.now).catalog.rules }
    ensures rulesets { IsTrue result → (state one.now).catalog.rulesets ≡ (state other.now).catalog.rulesets }
    ensures pairs { IsTrue result → HaveSamePairs (state one.now).catalog.pairs (state other.now).catalog.pairs }
{
    if !same_tables(one.tables(), other.tables()) {
        return false;
    }
    same_definitions(one.definitions(), other.definitions())
}
