//! The commands of the lines so far, by session.
ghost use Rattle.std.specs.Prelude.{◌≡◌, ◌<◌, IfErr, IfOk, None, OnOk, Some};
ghost use Rattle.sb_wire.specs.Seen.{addressed_seen, piece_seen};
ghost use Rattle.sb_replay.specs.Input.{IsBadAs, IsBadBy, asked, asked_by};
ghost use Rattle.sb_replay.specs.Scripts.{AddsCommand, Gives, IsFresh, ReadsBy, Takes};

use crate::error::ScriptError;
use sb_value::SESSION_LIMIT;
use sb_wire::{Addressed, Piece, WireRefusal};
use std::alloc::{AllocError, Global};
use std::marker::Model;

/// How far the lines of an input were understood.
#[derive(Clone, Copy, Debug)]
pub(crate) enum ScriptState {
    /// All so far, which are so many.
    Going { lines: u64 },
    /// Those before this one, which is no command for a session of the host.
    BadLine { line: u64, why: WireRefusal },
    /// Those before one that found no memory.
    NoMemory,
}

/// The commands so far, by the ranks of their sessions.
pub(crate) struct RankedCommands {
    tenants: u32,
    rows: Vec<Vec<Vec<u8>>>,
}

impl Drop for RankedCommands {
    fn drop(self) {
        let Self {
            tenants: _,
            rows: _,
        } = self;
    }
}

impl Model for RankedCommands {
    ghost use Rattle.std.specs.Prelude.{◌≡◌, ◌*◌, length};
    ghost use Rattle.sb_replay.specs.Scripts.{RankedCommands, rows_of};

    ghost Value = { RankedCommands };

    ghost view = { λ s. record { tenants = s.tenants; rows = rows_of s.rows.items } };

    ghost invariant = { λ s. length s.rows.items ≡ 8 * s.tenants };
}

impl RankedCommands {
    /// Before the first line.
    pub(crate) fn new(alloc: Global, tenants: u32) -> Result<RankedCommands, AllocError>
        ensures { IfOk result (IsFresh tenants) }
    {
        let count = SESSION_LIMIT * tenants as usize;
        let mut rows = Vec::with_capacity(alloc, count)?;
        for _row in 0..count {
            rows.push(Vec::new(alloc))?;
        }
        Ok(RankedCommands { tenants, rows })
    }

    /// Reads one line more, and says how far the lines are understood.
    pub(crate) fn read(
        &mut self,
        alloc: Global,
        piece: Piece<'_>,
        progress: ScriptState,
    ) -> ScriptState
        ensures { ReadsBy progress self.old (piece_seen piece.entry) (self.new, result) }
    {
        match progress {
            ScriptState::Going { lines } => self.take(alloc, piece, lines),
            ScriptState::BadLine { .. } | ScriptState::NoMemory => progress,
        }
    }

    /// Takes a line behind so many others.
    fn take(&mut self, alloc: Global, piece: Piece<'_>, lines: u64) -> ScriptState
        ensures { Takes self.old lines (piece_seen piece.entry) result self.new }
    {
        let Some(line) = lines.checked_add(1) else {
            return ScriptState::NoMemory;
        };
        let addressed = match self.command(piece) {
            Ok(addressed) => addressed,
            Err(why) => return ScriptState::BadLine { line, why },
        };
        match self.add(alloc, addressed) {
            Ok(()) => ScriptState::Going { lines: line },
            Err(_) => ScriptState::NoMemory,
        }
    }

    /// The command of a line, if it is one for a session of the host.
    fn command<'a>(&self, piece: Piece<'a>) -> Result<Addressed<'a>, WireRefusal>
        ensures ok { IfOk result (λ a. asked self.now.tenants (piece_seen piece.entry) ≡ Some (addressed_seen a)) }
        ensures within { IfOk result (λ a. (a.tenant < self.now.tenants) × (a.session < 8)) }
        ensures err { IfErr result (λ why. (asked self.now.tenants (piece_seen piece.entry) ≡ None)
            × IsBadAs self.now.tenants (piece_seen piece.entry) why) }
    {
        let Piece::Line(line) = piece else {
            return Err(WireRefusal::TooLong);
        };
        match Addressed::split(line) {
            Some(addressed) => self.hosted(addressed),
            None => Err(WireRefusal::BadLine),
        }
    }

    /// A command, if the host has its session.
    fn hosted<'a>(&self, addressed: Addressed<'a>) -> Result<Addressed<'a>, WireRefusal>
        ensures ok { let named = Some (addressed_seen addressed.entry) in
            IfOk result (λ a. asked_by self.now.tenants named ≡ Some (addressed_seen a)) }
        ensures within { IfOk result (λ a. (a.tenant < self.now.tenants) × (a.session < 8)) }
        ensures err { IfErr result (λ why. (asked_by self.now.tenants (Some (addressed_seen addressed.entry)) ≡ None)
            × IsBadBy self.now.tenants (Some (addressed_seen addressed.entry)) why) }
    {
        if addressed.tenant >= self.tenants {
            return Err(WireRefusal::NoTenant);
        }
        if addressed.session >= SESSION_LIMIT as u32 {
            return Err(WireRefusal::NoSession);
        }
        Ok(addressed)
    }

    /// Adds a command to those of its session.
    fn add(&mut self, alloc: Global, addressed: Addressed<'_>) -> Result<(), AllocError>
        requires { (addressed.tenant < self.old.tenants) × (addressed.session < 8) }
        ensures same { self.new.tenants ≡ self.old.tenants }
        ensures ok { OnOk result (AddsCommand self.old.rows (addressed_seen addressed.entry) self.new.rows) }
    {
        let command = Vec::from_slice(alloc, addressed.command)?;
        let rank = SESSION_LIMIT * addressed.tenant as usize + addressed.session as usize;
        self.rows[rank].push(command)?;
        Ok(())
    }

    /// The rows, where all lines were understood.
    pub(crate) fn understood(self, progress: ScriptState) -> Result<Vec<Vec<Vec<u8>>>, ScriptError>
        ensures { Gives progress self result }
    {
        let Self { tenants: _, rows } = self;
        match progress {
            ScriptState::Going { .. } => Ok(rows),
            ScriptState::BadLine { line, why } => Err(ScriptError::BadLine { line, why }),
            ScriptState::NoMemory => Err(ScriptError::NoMemory),
        }
    }
}
