//! The closing check: every session's receipts against the entries of its tenant's trail.
ghost use Rattle.std.specs.Prelude.{ℕ, ◌≡◌, ◌<◌, ◌≤◌, ◌+◌, ◌^◌, All, length, IfSome, IsSome, SomeIff};
ghost use Rattle.sb_tenant.specs.Trail.{IsTrail};
ghost use Rattle.sb_host.specs.Comparing.{AreTrailsOf, Audits, trail_by, volume_by};
ghost use Rattle.sb_host.specs.Finish.{Finishes, row_at, steps_in, volume_at};
ghost use Rattle.sb_host.specs.Lives.{life_steps, steps_made_in};
ghost use Rattle.sb_tenant.specs.declared.bound.Bound.{Bound};

use crate::comparing::check_all;
use crate::gathering::{first_stray, rows_of};
use crate::host::Host;
use crate::locks::Lock;
use sb_desk::{Naming, Stub};
use sb_tenant::{Entry, Tenant, Volume};
use sb_value::SessionId;
use std::alloc::Global;

/// The trails of all tenants, by number, and which volumes of their lives they are.
pub struct Report {
    pub trails: Vec<Vec<Entry>>,
    pub volumes: Vec<Volume>,
}

impl Drop for Report {
    fn drop(self) {
        let Self {
            trails: _,
            volumes: _,
        } = self;
    }
}

impl Report {
    /// The number of entries of all trails, if that is a number.
    pub fn steps(&self) -> Option<u64>
        ensures { IfSome result (λ steps. steps ≡ steps_in self.now.trails.items) }
    {
        steps_of(self.trails.as_slice())
    }

    /// The number of steps that sessions made in all volumes of the tenants' lives, if that is a number.
    pub fn steps_made(&self) -> Option<u64>
        ensures { let steps = steps_made_in self.now.trails.items self.now.volumes.items in
            SomeIff result (steps < 2 ^ 64) steps }
    {
        steps_made_of(self.trails.as_slice(), self.volumes.as_slice())
    }
}

/// The number of entries of these trails.
fn steps_of(trails: &[Vec<Entry>]) -> Option<u64>
    ensures { IfSome result (λ steps. steps ≡ steps_in trails.now) }
{
    let Some((first, others)) = trails.split_first() else {
        return Some(0);
    };
    let steps = steps_of(others)?;
    steps.checked_add(first.len() as u64)
}

/// The number of steps that sessions made in the lives with these last trails, which are these volumes.
fn steps_made_of(trails: &[Vec<Entry>], volumes: &[Volume]) -> Option<u64>
    ensures { let steps = steps_made_in trails.now volumes.now in SomeIff result (steps < 2 ^ 64) steps }
{
    let Some((trail, other_trails)) = trails.split_first() else {
        return Some(0);
    };
    let Some((volume, other_volumes)) = volumes.split_first() else {
        return Some(0);
    };
    let others = steps_made_of(other_trails, other_volumes)?;
    others.checked_add(life_steps(volume, trail.len() as u64)?)
}

/// The number of steps of a life whose last volume has so many entries, if that is a number.
fn life_steps(volume: &Volume, entries: u64) -> Option<u64>
    ensures { let steps = life_steps volume.now entries in SomeIff result (steps < 2 ^ 64) steps }
{
    volume
        .before
        .checked_add(entries.saturating_sub(volume.opening))
}

/// Why a host isn't reported. Of the sessions that don't agree with their entries the first is told.
#[derive(Clone, Copy)]
pub enum FinishError {
    /// It has fewer receipts than entries.
    Missing { tenant: u32, session: SessionId },
    /// Its receipts are others.
    Mismatch { tenant: u32, session: SessionId },
    NoMemory,
}

impl<N: Naming> Host<N> {
    /// The trails and volumes of all tenants, where the receipts of every session are exactly its entries. Error: a receipt of a
    /// session is missing (Missing), or isn't its entry (Mismatch); or out of memory.
    pub fn finish(self, alloc: Global, stubs: Vec<Stub>) -> Result<Report, FinishError>
        ensures { Finishes N.bound self stubs.items result }
    {
        match self.into_trails(alloc) {
            Ok((trails, volumes)) => audit(alloc, trails, volumes, stubs),
            Err(_) => Err(FinishError::NoMemory),
        }
    }
}

/// The report of these trails, where the receipts of every session are exactly its entries.
fn audit(
    alloc: Global,
    trails: Vec<Vec<Entry>>,
    volumes: Vec<Volume>,
    stubs: Vec<Stub>,
) -> Result<Report, FinishError>
    requires { length trails.items ≤ 256 }
    ensures { Audits trails.items volumes.items stubs.items result }
{
    let tenants = trails.len() as u32;
    let stray = first_stray(stubs.as_slice(), tenants);
    let Ok(mut rows) = rows_of(alloc, stubs, tenants) else {
        return Err(FinishError::NoMemory);
    };
    if let Err(refusal) = check_all(trails.as_slice(), &mut rows) {
        return Err(refusal);
    }
    match stray {
        Some(place) => Err(FinishError::Mismatch {
            tenant: place.tenant,
            session: place.session,
        }),
        None => Ok(Report { trails, volumes }),
    }
}

/// Puts the trails of a lock's cell, and their volumes, at the places of their tenants.
pub(crate) fn put<N: Naming, const F: u32>(
    trails: &mut Vec<Vec<Entry>>,
    volumes: &mut Vec<Volume>,
    lock: Lock<N, F>,
)
    requires trails { AreTrailsOf N.cells N.bound N.tenants F trails.old.items volumes.old.items }
    requires cells { 0 < N.cells }
    requires there { F < N.cells → IsSome lock }
    ensures { AreTrailsOf N.cells N.bound N.tenants (F + 1) trails.new.items volumes.new.items }
{
    if let Some(lock) = lock {
        let desk = lock.into_inner().into_inner();
        put_all(trails, volumes, desk.into_cell().into_tenants());
    }
}

/// Puts the trails of these tenants, and their volumes, at their places.
fn put_all(trails: &mut Vec<Vec<Entry>>, volumes: &mut Vec<Volume>, tenants: Vec<Tenant>)
    ghost bound: { Bound }
    requires legal { (n : ℕ) → IsTrail n bound (row_at trails.old.items n) }
    requires tenants { All (λ t. (t.id < length trails.old.items) × (t.bound ≡ bound)) tenants.items }
    requires volumes { length volumes.old.items ≡ length trails.old.items }
    ensures length { (length trails.new.items ≡ length trails.old.items) × (length volumes.new.items ≡ length volumes.old.items) }
    ensures legal { (n : ℕ) → IsTrail n bound (row_at trails.new.items n) }
    ensures put { (n : ℕ) → row_at trails.new.items n ≡ trail_by n (row_at trails.old.items n) tenants.items }
    ensures beside { (n : ℕ) → volume_at volumes.new.items n ≡ volume_by n (volume_at volumes.old.items n) tenants.items }
{
    for tenant in tenants {
        let at = tenant.id().index();
        volumes[at] = tenant.volume();
        trails[at] = tenant.into_trail();
    }
}
