//! The host is finished, and the text of the replay made.
ghost use Rattle.std.specs.Prelude.{◌≡◌, ◌++◌, nat_le, MatchBool, IfErr, IfOk, OnOk, length};
ghost use Rattle.std.specs.List.{All};
ghost use Rattle.sb_tenant.specs.Limits.{trail_limit};
ghost use Rattle.sb_host.specs.Finish.{row_at};
ghost use Rattle.sb_replay.specs.Replay.{DeniesOne, IsDenied, IsFullBy, IsUnfinished, Reports, replay_text};
ghost use Rattle.sb_replay.specs.Sheets.{texts_of};

use crate::closing::Closed;
use crate::error::ReplayError;
use crate::sheet::Sheet;
use sb_host::{FinishError, Host, Naming, Report};
use sb_tenant::{Entry, TRAIL_LIMIT};
use sb_wire::write_totals;
use std::alloc::{AllocError, Global};

/// True if a tenant's trail is full.
fn has_full_trail(trails: &[Vec<Entry>], tenant: u32) -> bool
    ensures { result ≡ nat_le trail_limit (length (row_at trails.now tenant)) }
{
    let at = tenant as usize;
    if at >= trails.len() {
        return false;
    }
    TRAIL_LIMIT <= trails[at].len()
}

/// True if a session was told of a full trail where the trail isn't.
fn denies(trails: &[Vec<Entry>], sheet: &Sheet) -> bool
    ensures { MatchBool result (IsDenied trails.now sheet.now) (IsFullBy trails.now sheet.now) }
{
    if !sheet.is_full() {
        return false;
    }
    !has_full_trail(trails, sheet.tenant())
}

/// Finds the first session that was told of a full trail where the trail isn't.
fn check_full(sheets: &[Sheet], trails: &[Vec<Entry>]) -> Result<(), FinishError>
    ensures ok { OnOk result (All (IsFullBy trails.now) sheets.now) }
    ensures err { IfErr result (DeniesOne trails.now sheets.now) }
{
    for sheet in sheets {
        if denies(trails, sheet) {
            return Err(sheet.mismatch());
        }
    }
    Ok(())
}

/// Adds the text of a session.
fn add_text(text: &mut Vec<u8>, sheet: Sheet) -> Result<(), AllocError>
    ensures { OnOk result (text.new.items ≡ text.old.items ++ sheet.text) }
{
    text.append(&mut sheet.into_text())?;
    Ok(())
}

/// The text of all sessions, and the line that tells of the trails.
fn text_of(alloc: Global, sheets: Vec<Sheet>, report: &Report) -> Result<Vec<u8>, AllocError>
    ensures { IfOk result (λ text. text.items ≡ replay_text (texts_of sheets.items) report.now.trails.items) }
{
    let Some(steps) = report.steps() else {
        return Err(AllocError);
    };
    let mut text = Vec::new(alloc);
    for sheet in sheets {
        add_text(&mut text, sheet)?;
    }
    write_totals(&mut text, report.trails.len() as u64, steps)?;
    Ok(text)
}

/// Finishes the host with what its sessions left, and makes the text of the replay.
pub(crate) fn finish<N: Naming>(
    alloc: Global,
    host: Host<N>,
    closed: Closed,
) -> Result<Vec<u8>, ReplayError>
    ensures ok { IfOk result (λ text. Reports host N.bound closed.stubs.items closed.sheets.items text.items) }
    ensures err { IfErr result (IsUnfinished host N.bound closed.stubs.items closed.sheets.items) }
{
    let Closed { stubs, sheets } = closed;
    let report = match host.finish(alloc, stubs) {
        Ok(report) => report,
        Err(error) => return Err(ReplayError::Finish(error)),
    };
    if let Err(error) = check_full(sheets.as_slice(), report.trails.as_slice()) {
        return Err(ReplayError::Finish(error));
    }
    match text_of(alloc, sheets, &report) {
        Ok(text) => Ok(text),
        Err(_) => Err(ReplayError::NoMemory),
    }
}
