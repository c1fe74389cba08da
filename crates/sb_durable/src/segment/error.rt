//! Why a segment doesn't go on.
ghost use Rattle.std.specs.Prelude.{◌≡◌};
ghost use Rattle.sb_durable.specs.declared.segment.error.SegmentError.TheVariants as reason;

use std::alloc::{AllocError, AllocFailed};
use std::io;
use thiserror::Error;

#[derive(Clone, Copy, Debug, Error)]
pub enum SegmentError {
    /// A call on the file failed.
    #[error("{0}")]
    Device(io::Error),
    #[error("there is no memory")]
    Memory,
    /// The file is of another program: it has no mark of a segment.
    #[error("it is no segment")]
    NotASegment,
    /// The file is empty, or holds what a crash leaves of a head that wasn't whole.
    #[error("it has not begun")]
    NotBegun,
    /// The file ends within its head, as part of a copy does. No crash leaves that.
    #[error("it ends within its head")]
    CutShort,
    /// A segment stands in the file already.
    #[error("it has begun already")]
    Begun,
    /// A digest or a length isn't what it was.
    #[error("it is damaged")]
    Damaged,
    /// What a crash may have left behind the last block wasn't cut off yet.
    #[error("its end is not settled")]
    Unsettled,
    /// An earlier write or sync has failed in this run.
    #[error("a write of it has failed before")]
    Spent,
    /// No file gets so long.
    #[error("there is no room in it")]
    Full,
    /// The disk has no room for a write. What was written of it was taken back, and the next one may have room.
    #[error("{0}")]
    NoRoom(io::Error),
}

impl SegmentError {
    ghost use Rattle.std.specs.Prelude.{◌↔◌, IsTrue};
    ghost use Rattle.sb_durable.specs.Segment.{IsNoRoom};

    /// True if the disk has no room.
    pub(crate) fn is_no_room(&self) -> bool
        ensures { IsTrue result ↔ IsNoRoom self.now }
    {
        matches!(self, SegmentError::NoRoom(_))
    }
}

impl From<io::Error> for SegmentError {
    ghost from_gives = { λ error e. e ≡ reason.Device error };

    fn from(error: io::Error) -> Self {
        SegmentError::Device(error)
    }
}

impl From<AllocError> for SegmentError {
    ghost from_gives = { λ _ e. e ≡ reason.Memory };

    fn from(_: AllocError) -> Self {
        SegmentError::Memory
    }
}

impl<T: Drop> From<AllocFailed<T>> for SegmentError {
    ghost from_gives = { λ _ e. e ≡ reason.Memory };

    fn from(_: AllocFailed<T>) -> Self {
        SegmentError::Memory
    }
}
