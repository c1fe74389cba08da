//! The receipts of a tenant's closed sessions in one volume of its life, with their parts of the ledger.
ghost use Rattle.std.specs.Prelude.{ℕ, ◌≡◌, ◌+◌, ◌<◌, ◌≤◌, ◌++◌, length, vec_capacity, vec_len, IfErr, IfOk, IfSome, OnOk};
ghost use Rattle.sb_tenant.specs.Limits.{entry_limit, session_count};
ghost use Rattle.sb_host.specs.Comparing.{wanted_of};
ghost use Rattle.sb_host.specs.Finish.{gathered, row_at};
ghost use Rattle.sb_host.specs.Renewal.{AreOf, GivesBack};
ghost use Rattle.sb_host.specs.Renewing.{AreHeld, IsOpening, IsSpare, held_by, left_to, receipt_count};

use crate::gathering::blank;
use sb_desk::{Naming, Receipt, Stub};
use sb_tenant::laws::trails_are_bounded;
use sb_tenant::{Answer, Entry, Tenant};
use sb_value::{SESSION_LIMIT, SessionId};
use std::alloc::{AllocError, Global};
use std::marker::Model;
use std::sync::ledger::Share;

/// The receipts of a tenant's eight sessions, since its volume began.
pub(crate) struct VolumeStubs<N: Naming> {
    tenant: u32,
    rows: Vec<Vec<Receipt>>,
    share: Share<N>,
}

impl<N: Naming> Drop for VolumeStubs<N> {
    fn drop(self) {
        let Self {
            tenant: _,
            rows: _,
            share: _,
        } = self;
    }
}

impl<N: Naming> Model for VolumeStubs<N> {
    ghost use Rattle.sb_host.specs.Renewing.{VolumeStubs, seen, AreKept};

    ghost Value = { VolumeStubs };

    ghost view = { seen };

    ghost invariant = { AreKept N.tenants };
}

impl<N: Naming> VolumeStubs<N> {
    /// Those of these rows, with a part for each receipt.
    pub(crate) fn of(tenant: u32, rows: Vec<Vec<Receipt>>, share: Share<N>) -> VolumeStubs<N>
        requires tenant { tenant < N.tenants }
        requires rows { length rows.items ≡ session_count }
        requires parts { share.parts ≡ receipt_count rows.items }
        ensures tenant { result.tenant ≡ tenant }
        ensures held { (s : ℕ) → held_by result s ≡ row_at rows.items s }
    {
        VolumeStubs {
            tenant,
            rows,
            share,
        }
    }

    /// The tenant's number, the rows and the parts.
    pub(crate) fn into_rows(self) -> (u32, Vec<Vec<Receipt>>, Share<N>)
        ensures tenant { (result.0 ≡ self.tenant) × (self.tenant < N.tenants) }
        ensures rows { length result.1.items ≡ session_count }
        ensures parts { result.2.parts ≡ receipt_count result.1.items }
        ensures held { (s : ℕ) → held_by self s ≡ row_at result.1.items s }
    {
        let Self {
            tenant,
            rows,
            share,
        } = self;
        (tenant, rows, share)
    }

    /// The number of its tenant.
    pub(crate) fn tenant(&self) -> u32
        ensures is { result ≡ self.now.tenant }
        ensures below { result < N.tenants }
    {
        self.tenant
    }
}

/// The receipts of these stubs of a tenant, a row for each session, and room for as many stubs as there are rows. Error:
/// out of memory; they are given back.
pub(crate) fn rows_of_volume(
    alloc: Global,
    tenant: u32,
    stubs: Vec<Stub>,
) -> Result<(Vec<Vec<Receipt>>, Vec<Stub>), Vec<Stub>>
    requires { AreOf tenant stubs.items }
    ensures ok { IfOk result (λ r. (length r.0.items ≡ session_count) × AreHeld tenant stubs.items (row_at r.0.items) × IsSpare r.1) }
    ensures err { IfErr result (λ back. GivesBack tenant stubs.items back.items) }
{
    let Ok(mut rows) = blank(alloc, SESSION_LIMIT) else {
        return Err(stubs);
    };
    let mut left = Vec::new(alloc);
    if left.reserve(stubs.len() + SESSION_LIMIT).is_err() {
        return Err(stubs);
    }
    for stub in stubs {
        if let Err(stub) = add_to(&mut rows, stub) {
            left.push_reserved(stub);
        }
    }
    if left.is_empty() {
        return Ok((rows, left));
    }
    put_stubs(&mut left, tenant, rows);
    Err(left)
}

/// Adds the receipts of a stub to the row of its session. Error: out of memory; it is given back.
fn add_to(rows: &mut Vec<Vec<Receipt>>, stub: Stub) -> Result<(), Stub>
    requires { length rows.old.items ≡ session_count }
    ensures count { length rows.new.items ≡ session_count }
    ensures rows { OnOk result ((s : ℕ) → row_at rows.new.items s ≡ row_at rows.old.items s ++ left_to s stub) }
    ensures err { IfErr result (λ same. (same ≡ stub) × ((s : ℕ) → row_at rows.new.items s ≡ row_at rows.old.items s)) }
{
    let row = &mut rows[stub.session.index()];
    if row.reserve(stub.receipts.len()).is_err() {
        return Err(stub);
    }
    let Stub {
        tenant: _,
        session: _,
        mut receipts,
    } = stub;
    let Ok(()) = row.append(&mut receipts) else {
        unreachable!()
    };
    Ok(())
}

/// The number of receipts of all rows, if that is a number.
pub(crate) fn count_of(rows: &[Vec<Receipt>]) -> Option<u64>
    ensures { IfSome result (λ count. count ≡ receipt_count rows.now) }
{
    match rows {
        [] => Some(0),
        [first, others @ ..] => count_of(others)?.checked_add(first.len() as u64),
    }
}

/// Adds a stub for each row, by the row's place.
pub(crate) fn put_stubs(stubs: &mut Vec<Stub>, tenant: u32, rows: Vec<Vec<Receipt>>)
    requires places { vec_len stubs.old + session_count ≤ vec_capacity stubs.old }
    requires rows { length rows.items ≡ session_count }
    ensures own { (s : ℕ) → s < session_count → gathered tenant s stubs.new.items ≡ gathered tenant s stubs.old.items ++ row_at rows.items s }
    ensures of { AreOf tenant stubs.old.items → AreOf tenant stubs.new.items }
{
    let mut number = 0;
    for receipts in rows {
        stubs.push_reserved(Stub {
            tenant,
            session: SessionId::new(number),
            receipts,
        });
        number += 1;
    }
}

/// The receipts that the entries of a fresh tenant want, a row for each session. Error: out of memory.
pub(crate) fn opening_rows(alloc: Global, fresh: &Tenant) -> Result<Vec<Vec<Receipt>>, AllocError>
    ensures { IfOk result (λ rows. IsOpening fresh.now.trail rows.items) }
{
    // for the proof: a legal trail has few entries
    trails_are_bounded();
    wanted_rows(alloc, fresh.trail())
}

/// The receipts that the entries of a trail want, a row for each session. Error: out of memory.
fn wanted_rows(alloc: Global, trail: &[Entry]) -> Result<Vec<Vec<Receipt>>, AllocError>
    requires few { length trail.now ≤ entry_limit }
    ensures { IfOk result (λ rows. IsOpening trail.now rows.items) }
{
    let mut rows = blank(alloc, SESSION_LIMIT)?;
    for place in 0..trail.len() {
        add_wanted(alloc, &mut rows, &trail[place], place as u32 + 1)?;
    }
    Ok(rows)
}

/// Adds the receipt that the entry of this number wants. Error: out of memory.
fn add_wanted(
    alloc: Global,
    rows: &mut Vec<Vec<Receipt>>,
    entry: &Entry,
    number: u32,
) -> Result<(), AllocError>
    requires { length rows.old.items ≡ session_count }
    ensures count { OnOk result (length rows.new.items ≡ session_count) }
    ensures rows { OnOk result ((s : ℕ) → row_at rows.new.items s ≡ row_at rows.old.items s ++ wanted_of s number entry.now) }
    ensures parts { OnOk result (receipt_count rows.new.items ≡ receipt_count rows.old.items + 1) }
{
    let receipt = Receipt {
        line: entry.line.share()?,
        answer: Answer {
            number: Some(number),
            reply: entry.reply.share(alloc)?,
        },
    };
    let row = &mut rows[entry.session.index()];
    row.push(receipt)?;
    Ok(())
}
