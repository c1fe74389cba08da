//! The lines of a file, sent one after another until one isn't taken.
ghost use Rattle.std.specs.Prelude.{◌≡◌, List, ℕ, false, OnErr, OnOk};
ghost use Rattle.sb_backup.specs.LoadedCells.{HasLines, PlaysBy, TakesEach};
ghost use Rattle.sb_wire.specs.Seen.{piece_seen};

use crate::cell_loader::Unplayed;
use crate::dump::Nowhere;
use sb_wire::{Fallible, Piece, Responder, answer_stream};
use std::alloc::{AllocError, Global};
use std::io::Read;

/// Sends lines to a session.
pub(crate) trait Sender<S> {
    // what a line leaves that is taken
    ghost takes: { Self → S → List ℕ → S → Type 0 };

    // and one that isn't
    ghost refuses: { Self → S → List ℕ → S → Type 0 };

    /// Sends a line. Error: the reply that refuses it.
    fn send(&self, alloc: Global, line: &[u8], to: &mut S) -> Result<(), Vec<u8>>
        ensures ok { OnOk result (takes self.now to.old line.now to.new) }
        ensures err { OnErr result (refuses self.now to.old line.now to.new) };
}

/// The progress of a script.
#[derive(Drop)]
pub(crate) struct LoadProgress {
    /// The newest line, counted from 1.
    pub(crate) line: u64,
    /// The line was refused.
    pub(crate) is_bad: bool,
    /// The reply that refused it.
    pub(crate) told: Vec<u8>,
}

impl LoadProgress {
    fn new(alloc: Global) -> LoadProgress
        ensures { result.is_bad ≡ false }
    {
        LoadProgress {
            line: 0,
            is_bad: false,
            told: Vec::new(alloc),
        }
    }
}

/// Sends the lines of a file.
pub(crate) fn play_lines<S, P: Sender<S> + Drop, F: Read + Drop>(
    alloc: Global,
    sender: P,
    to: &mut S,
    file: F,
) -> Result<(), Unplayed>
    ensures { OnOk result ((lines : List (List ℕ)) × HasLines (F.remaining file) lines
        × TakesEach (P.takes sender) lines to.old to.new) }
{
    let mut reader = Fallible { inner: file };
    let mut progress = LoadProgress::new(alloc);
    let player = LinePlayer { sender };
    let ended = answer_stream(alloc, &mut reader, &mut Nowhere, &player, to, &mut progress);
    let LoadProgress { line, is_bad, told } = progress;
    if is_bad {
        return Err(Unplayed::Line { line, told });
    }
    match ended {
        Ok(()) => Ok(()),
        Err(error) => Err(Unplayed::Stream(error)),
    }
}

/// A responder that sends each line until one is refused.
#[derive(Drop)]
struct LinePlayer<P> {
    sender: P,
}

impl<S, P: Sender<S>> Responder<S, LoadProgress> for LinePlayer<P> {
    ghost use Rattle.sb_backup.specs.LoadedCells.{Plays};

    ghost responds = { λ p. Plays (P.takes p.sender) (P.refuses p.sender) };

    ghost over = { λ s. s.1.is_bad };

    fn respond(
        &self,
        alloc: Global,
        piece: Piece<'_>,
        _out: &mut Vec<u8>,
        first: &mut S,
        second: &mut LoadProgress,
    ) -> Result<(), AllocError> {
        play_line(alloc, piece, &self.sender, first, second);
        Ok(())
    }

    fn is_over(&self, _first: &S, second: &LoadProgress) -> bool {
        second.is_bad
    }
}

/// Sends a line.
fn play_line<S, P: Sender<S>>(
    alloc: Global,
    piece: Piece<'_>,
    sender: &P,
    to: &mut S,
    progress: &mut LoadProgress,
)
    ensures { PlaysBy (P.takes sender.now) (P.refuses sender.now) progress.new.is_bad to.old (piece_seen piece.entry) to.new }
{
    progress.line = progress.line.saturating_add(1);
    progress.is_bad = true;
    let Piece::Line(line) = piece else {
        return;
    };
    match sender.send(alloc, line, to) {
        Ok(()) => progress.is_bad = false,
        Err(told) => progress.told = told,
    }
}
