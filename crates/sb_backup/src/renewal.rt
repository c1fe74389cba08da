//! A tenant is renewed by a copy of itself.
ghost use Rattle.std.specs.Prelude.{◌≡◌, ◌≤◌, IfErr, IfOk};
ghost use Rattle.sb_backup.specs.Renewals.{IsDraftOf, Renewed};
ghost use Rattle.sb_host.specs.Renewal.{GivesBack};

use sb_dump::{DumpError, Script, draft_of, made_by};
use sb_host::{NotRenewed, Reading, RenewError, Renewal, Renewing, Stub, TenantId};
use sb_tenant::{Bound, Tenant};
use std::alloc::Global;
use std::sync::Wait;

/// Why a tenant isn't renewed.
#[derive(Clone, Copy)]
pub enum RenewalFault {
    NoTenant,
    /// It has no copy.
    NotCopied(DumpError),
    /// The host refuses the copy.
    Refused(RenewError),
}

impl RenewalFault {
    /// The reason as a part of a sentence, for people.
    pub fn reason(&self) -> &'static [u8] {
        match self {
            RenewalFault::NoTenant => b"there is no such tenant",
            RenewalFault::NotCopied(DumpError::Busy) => b"a session has a transaction",
            RenewalFault::NotCopied(DumpError::NotAlike) => b"its script makes another tenant",
            RenewalFault::NotCopied(DumpError::NoMemory) => b"there is no memory for a copy",
            RenewalFault::Refused(RenewError::NoMemory) => b"there is no memory for a copy",
            RenewalFault::Refused(RenewError::NotClosed) => b"a session is being closed",
            RenewalFault::Refused(RenewError::Refused(_)) =>
                b"a session is open, or the copy differs",
            RenewalFault::Refused(_) => b"receipts of its sessions aren't its trail",
        }
    }
}

/// The reason for which a tenant isn't renewed, and the stubs of its sessions.
#[derive(Drop)]
pub struct Unrenewed {
    pub why: RenewalFault,
    pub stubs: Vec<Stub>,
}

/// Writes the script of a tenant under the lock of its cell.
#[derive(Drop)]
struct DraftNotes {
    alloc: Global,
    draft: Option<Draft>,
}

/// The number of a tenant, and the script that is meant to make it.
#[derive(Drop)]
struct Draft {
    id: TenantId,
    script: Result<Script, DumpError>,
}

impl Reading for DraftNotes {
    ghost reads = { λ _ own new. IsDraftOf own new.draft };

    fn read(&mut self, tenant: &Tenant) {
        self.draft = Some(Draft {
            id: tenant.id(),
            script: draft_of(self.alloc, tenant),
        });
    }
}

/// Renews a tenant whose sessions have left these stubs in its volume. Its cell serves others while the copy is made. The
/// old trail is let go before this returns. Error: the tenant stays as it is, and the receipts are given back.
pub fn renew_tenant<T: Wait, H: Renewing>(
    rt: &T,
    alloc: Global,
    host: H,
    tenant: u32,
    bound: Bound,
    stubs: Vec<Stub>,
) -> Result<Vec<Stub>, Unrenewed>
    requires { bound.considerations ≤ 1000 }
    ensures ok { IfOk result (λ opening. Renewed tenant stubs.items opening.items) }
    ensures back { IfErr result (λ e. GivesBack tenant stubs.items e.stubs.items) }
{
    let fresh = match copy_of(rt, alloc, host, tenant, bound) {
        Ok(fresh) => fresh,
        Err(why) => return Err(Unrenewed { why, stubs }),
    };
    match host.renew(rt, alloc, fresh, stubs) {
        Ok(renewal) => {
            let Renewal { old: _, opening } = renewal;
            Ok(opening)
        }
        Err(kept) => {
            let NotRenewed {
                error,
                fresh: _,
                stubs,
            } = kept;
            Err(Unrenewed {
                why: RenewalFault::Refused(error),
                stubs,
            })
        }
    }
}

/// A copy of a tenant: its script is written under the lock of its cell, and played outside.
fn copy_of<T: Wait, H: Renewing>(
    rt: &T,
    alloc: Global,
    host: H,
    tenant: u32,
    bound: Bound,
) -> Result<Tenant, RenewalFault>
    requires { bound.considerations ≤ 1000 }
    ensures { IfOk result (λ own. own.id ≡ tenant) }
{
    let mut notes = DraftNotes { alloc, draft: None };
    let _is_there = host.read(rt, tenant, &mut notes);
    let Some(draft) = notes.draft else {
        return Err(RenewalFault::NoTenant);
    };
    let Draft { id, script } = draft;
    let made = match script {
        Ok(script) => made_by(alloc, id, bound, &script),
        Err(error) => Err(error),
    };
    match made {
        Ok(copy) => Ok(copy),
        Err(error) => Err(RenewalFault::NotCopied(error)),
    }
}
