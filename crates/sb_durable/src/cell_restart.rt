//! The tenants of a cell, as the records of a journal make them.
ghost use Rattle.std.specs.Prelude.{◌≡◌, ◌∷◌, ◌<◌, ℕ, List, [], codes, filter, nat_lt, true, IfOk, OnOk, IsTrue};
ghost use Rattle.sb_cell.specs.Tenants.{IsSame, hosts, states, trails};
ghost use Rattle.sb_durable.specs.Journal.{Has, disk_of};
ghost use Rattle.sb_durable.specs.Records.{Entry};
ghost use Rattle.sb_durable.specs.declared.journal_header.Head.{Head};
ghost use Rattle.sb_tenant.specs.State.{is_open, session_at};
ghost use Rattle.sb_value.specs.Locks.{sessions};
ghost use Rattle.sb_durable.specs.ReplayedRecords.{EndsSessions, KeepsUp, PlaysStep};
ghost use Rattle.sb_durable.specs.Records.{entry_of};
ghost use Rattle.sb_durable.specs.Restart.{AreRecords, IsRestarted, Tells};

use crate::record::is_renewal;
use crate::record_player::number_of;
use crate::replay::{PlayError, PlayFault, Plays, Progress, play_all};
use crate::run::{Recording, step};
use crate::{Disk, Record};
use sb_cell::{Cell, StepError};
use sb_tenant::END;
use sb_value::{SESSION_LIMIT, SessionId};
use sb_wire::Addressed;
use std::alloc::{AllocError, Global};
use std::sync::Wait;

/// Replays the records of a journal on a new cell, and ends and records the sessions that are open then. Returns the
/// number of records. Error: why a record can't be read or played.
pub fn restart<T: Wait, D: Disk, P: Progress>(
    rt: &T,
    alloc: Global,
    tenants: u32,
    cell: &mut Cell,
    recording: &mut Recording<D>,
    progress: &mut P,
) -> Result<u64, PlayError>
    requires hosted { (t : ℕ) → hosts cell.old t ≡ nat_lt t tenants }
    requires new { (t : ℕ) → trails cell.old t ≡ [] }
    ensures restarts { OnOk result ((records : List Entry) × IsRestarted cell.new records
        × (IsTrue (D.Disk.is_clean (disk_of recording.new.journal)) → (head : Head) (there : List Entry)
        → Has D.Disk.seen D.Disk.may_leave recording.old.journal head there [] → AreRecords there
        → (records ≡ there) × Tells D.Disk.seen D.Disk.may_leave recording.new.journal head cell.new)) }
    ensures same { OnOk result (IsSame cell.old cell.new) }
    ensures fault { recording.new.fault ≡ recording.old.fault }
{
    let records = play_all(rt, alloc, cell, &mut recording.journal, progress)?;
    for tenant in 0..tenants {
        if let Err(why) = end_sessions(alloc, cell, recording, tenant) {
            return Err(PlayError {
                record: records,
                why,
            });
        }
    }
    Ok(records)
}

impl Plays for Cell {
    ghost use Rattle.sb_durable.specs.ReplayedRecords.{PlaysRecord};

    ghost plays = { PlaysRecord };

    fn play<T: Wait>(&mut self, _rt: &T, alloc: Global, line: Record) -> Result<(), PlayFault> {
        if !is_renewal(line) {
            return play_step(self, alloc, line);
        }
        // the trail goes on: a cell of a run renews no tenant
        match self.tenant(line.tenant) {
            Some(_) => Ok(()),
            None => Err(PlayFault::NoTenant),
        }
    }
}

/// Makes the step of a record.
fn play_step(cell: &mut Cell, alloc: Global, line: Record) -> Result<(), PlayFault>
    ensures { OnOk result (PlaysStep cell.old (entry_of line.entry) cell.new) }
{
    match cell.step(alloc, line.tenant, u32::from(line.session), line.text) {
        Ok(answer) => match number_of(&answer) {
            Ok(_) => Ok(()),
            Err(why) => Err(why),
        },
        Err(StepError::NoTenant) => Err(PlayFault::NoTenant),
        Err(StepError::NoSession) => Err(PlayFault::NoSession),
        Err(StepError::NotBegun) => Err(PlayFault::NoMemory),
    }
}

/// Ends the sessions of a tenant that are open.
fn end_sessions<D: Disk>(
    alloc: Global,
    cell: &mut Cell,
    recording: &mut Recording<D>,
    tenant: u32,
) -> Result<(), PlayFault>
    requires { hosts cell.old tenant ≡ true }
    ensures ends { OnOk result (EndsSessions tenant cell.old cell.new) }
    ensures keeps { OnOk result (KeepsUp D.Disk.seen D.Disk.may_leave (cell.old, recording.old) (cell.new, recording.new)) }
    ensures fault { recording.new.fault ≡ recording.old.fault }
    ensures clean { IsTrue (D.Disk.is_clean (disk_of recording.new.journal)) → IsTrue (D.Disk.is_clean (disk_of recording.old.journal)) }
{
    let Ok(listed) = open_sessions(alloc, cell, tenant) else {
        return Err(PlayFault::NoMemory);
    };
    for session in listed.as_slice() {
        end_session(alloc, cell, recording, tenant, *session)?;
    }
    Ok(())
}

/// The sessions of a tenant that are open.
fn open_sessions(alloc: Global, cell: &Cell, tenant: u32) -> Result<Vec<u32>, AllocError>
    requires { hosts cell.now tenant ≡ true }
    ensures { IfOk result (λ listed. listed.items ≡ filter (λ s. is_open (session_at (states cell.now tenant) s)) sessions) }
{
    let mut listed = Vec::new(alloc);
    for session in 0..SESSION_LIMIT {
        if cell.is_open(tenant, SessionId::new(session as u8)) {
            listed.push(session as u32)?;
        }
    }
    Ok(listed)
}

/// Ends a session.
fn end_session<D: Disk>(
    alloc: Global,
    cell: &mut Cell,
    recording: &mut Recording<D>,
    tenant: u32,
    session: u32,
) -> Result<(), PlayFault>
    ensures ends { OnOk result (PlaysStep cell.old (record { tenant = tenant; session = session; line = codes "end" }) cell.new) }
    ensures keeps { OnOk result (KeepsUp D.Disk.seen D.Disk.may_leave (cell.old, recording.old) (cell.new, recording.new)) }
    ensures fault { recording.new.fault ≡ recording.old.fault }
    ensures clean { IsTrue (D.Disk.is_clean (disk_of recording.new.journal)) → IsTrue (D.Disk.is_clean (disk_of recording.old.journal)) }
{
    let line = Addressed {
        tenant,
        session,
        command: END,
    };
    match step(alloc, cell, recording, line) {
        Ok(Ok(answer)) => match number_of(&answer) {
            Ok(_) => Ok(()),
            Err(why) => Err(why),
        },
        Ok(Err(_)) => Err(PlayFault::NoMemory),
        Err(error) => Err(PlayFault::Journal(error)),
    }
}
