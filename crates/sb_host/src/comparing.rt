//! The receipts of a session against its entries.
ghost use Rattle.std.specs.Prelude.{ℕ, ◌≡◌, ◌*◌, ◌<◌, ◌≤◌, length, IfErr, OnOk};
ghost use Rattle.std.specs.List.Sorted.{IsPermutation};
ghost use Rattle.sb_desk.specs.Receipts.{receipts_of};
ghost use Rattle.sb_host.specs.Comparing.{Compares, Lists, RowAgrees, RowFails, SeesMore, Tells, TellsAt, due_at, due_of, wanted_of};
ghost use Rattle.sb_host.specs.Finish.{row_at, step_of};
ghost use Rattle.sb_host.specs.Renewal.{AllAreEntries};
ghost use Rattle.sb_host.specs.Renewing.{DiffersFirst};

use crate::equal::{same_bytes, same_reply};
use crate::finish::FinishError;
use crate::renewal::RenewError;
use sb_desk::Receipt;
use sb_tenant::Entry;
use sb_value::{SESSION_LIMIT, SessionId};

/// The result of comparing receipts with entries.
#[derive(Clone, Copy)]
pub(crate) enum ReceiptComparison {
    Equal,
    Fewer,
    Different,
}

/// The number of entries of a session that were seen, and whether the receipts are the same so far.
#[derive(Clone, Copy)]
pub(crate) struct SeenEntries {
    pub(crate) count: usize,
    pub(crate) same: bool,
}

/// Checks the rows of receipts, by rank, against the trails.
pub(crate) fn check_all(
    trails: &[Vec<Entry>],
    rows: &mut Vec<Vec<Receipt>>,
) -> Result<(), FinishError>
    requires rows { length rows.old.items ≡ 8 * length trails.now }
    requires few { length trails.now ≤ 256 }
    ensures ok { OnOk result ((k : ℕ) → k < length rows.old.items → RowAgrees rows.old.items trails.now k) }
    ensures err { IfErr result (λ e. RowFails rows.old.items trails.now e) }
{
    for at in 0..rows.len() {
        let tenant = (at / SESSION_LIMIT) as u32;
        let session = SessionId::new((at % SESSION_LIMIT) as u8);
        match check_row(trails, rows, at) {
            ReceiptComparison::Equal => {}
            ReceiptComparison::Fewer => return Err(FinishError::Missing { tenant, session }),
            ReceiptComparison::Different => return Err(FinishError::Mismatch { tenant, session }),
        }
    }
    Ok(())
}

/// Compares the row of that rank with the entries of its session.
fn check_row(trails: &[Vec<Entry>], rows: &mut Vec<Vec<Receipt>>, at: usize) -> ReceiptComparison
    requires there { at < length rows.old.items }
    requires rows { length rows.old.items ≡ 8 * length trails.now }
    ensures found { Compares (row_at rows.old.items at) (due_at trails.now at) result }
    ensures count { length rows.new.items ≡ length rows.old.items }
    ensures others { (k : ℕ) → (k ≡ at → ⊥) → row_at rows.new.items k ≡ row_at rows.old.items k }
{
    let trail = trails[at / SESSION_LIMIT].as_slice();
    let session = SessionId::new((at % SESSION_LIMIT) as u8);
    check_at(trail, session, rows, at)
}

/// Checks the rows of a tenant's sessions against its trail. Each is sorted then.
pub(crate) fn check_rows(trail: &[Entry], rows: &mut Vec<Vec<Receipt>>) -> Result<(), RenewError>
    requires { length rows.old.items ≡ 8 }
    ensures ok { OnOk result (AllAreEntries trail.now (row_at rows.old.items)) }
    ensures err { IfErr result (λ e. DiffersFirst trail.now (row_at rows.old.items) e) }
    ensures count { length rows.new.items ≡ length rows.old.items }
    ensures same { (k : ℕ) → IsPermutation (row_at rows.old.items k) (row_at rows.new.items k) }
{
    for at in 0..SESSION_LIMIT {
        let session = SessionId::new(at as u8);
        match check_at(trail, session, rows, at) {
            ReceiptComparison::Equal => {}
            ReceiptComparison::Fewer => return Err(RenewError::Missing(session)),
            ReceiptComparison::Different => return Err(RenewError::Mismatch(session)),
        }
    }
    Ok(())
}

/// Compares the row at that place with the entries of a session. It is sorted.
fn check_at(
    trail: &[Entry],
    session: SessionId,
    rows: &mut Vec<Vec<Receipt>>,
    at: usize,
) -> ReceiptComparison
    requires { at < length rows.old.items }
    ensures found { Compares (row_at rows.old.items at) (receipts_of session 1 trail.now) result }
    ensures count { length rows.new.items ≡ length rows.old.items }
    ensures others { (k : ℕ) → (k ≡ at → ⊥) → row_at rows.new.items k ≡ row_at rows.old.items k }
    ensures same { (k : ℕ) → IsPermutation (row_at rows.old.items k) (row_at rows.new.items k) }
{
    let row = &mut rows[at];
    check(trail, session, row)
}

/// Compares the receipts, in whatever order, with the entries of their session. They are sorted.
fn check(trail: &[Entry], session: SessionId, receipts: &mut Vec<Receipt>) -> ReceiptComparison
    ensures found { Compares receipts.old.items (receipts_of session 1 trail.now) result }
    ensures same { IsPermutation receipts.old.items receipts.new.items }
{
    receipts.sort_unstable_by_key(|receipt| step_number(receipt));
    compare(trail, session, receipts.as_slice())
}

/// The number of the step that a receipt is of.
pub fn step_number(receipt: &Receipt) -> u32
    ensures { result ≡ step_of receipt.now }
{
    match receipt.answer.number {
        Some(number) => number,
        None => 0,
    }
}

/// Compares the receipts, in this order, with the entries of their session.
fn compare(trail: &[Entry], session: SessionId, receipts: &[Receipt]) -> ReceiptComparison
    ensures { Lists receipts.now (receipts_of session 1 trail.now) result }
{
    let mut seen = SeenEntries {
        count: 0,
        same: true,
    };
    for place in 0..trail.len() {
        seen = look(seen, receipts, &trail[place], place + 1, session);
    }
    if receipts.len() < seen.count {
        return ReceiptComparison::Fewer;
    }
    if seen.same {
        if seen.count == receipts.len() {
            return ReceiptComparison::Equal;
        }
    }
    ReceiptComparison::Different
}

/// One entry more is seen.
fn look(
    seen: SeenEntries,
    receipts: &[Receipt],
    entry: &Entry,
    number: usize,
    session: SessionId,
) -> SeenEntries
    requires { seen.count < number }
    ensures seen { SeesMore receipts.now (wanted_of session number entry.now) seen result }
    ensures count { result.count ≤ number }
{
    if entry.session != session {
        return seen;
    }
    SeenEntries {
        count: seen.count + 1,
        same: seen.same & is_next(receipts, seen.count, entry, number),
    }
}

/// True if that receipt is there, and is the one that the entry wants.
fn is_next(receipts: &[Receipt], at: usize, entry: &Entry, number: usize) -> bool
    ensures { TellsAt result receipts.now at (due_of number entry.now) }
{
    at < receipts.len() && is_receipt(&receipts[at], entry, number)
}

/// True if it is the receipt that the entry of this number wants.
fn is_receipt(held: &Receipt, entry: &Entry, number: usize) -> bool
    ensures { Tells result held.now (due_of number entry.now) }
{
    let Some(own) = held.answer.number else {
        return false;
    };
    own as usize == number
        && same_bytes(held.line.as_slice(), entry.line.as_slice())
        && same_reply(&held.answer.reply, &entry.reply)
}
