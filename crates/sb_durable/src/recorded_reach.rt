//! A reach says how far the volumes of a tenant's life are recorded.
ghost use Rattle.std.specs.Prelude.{◌≡◌, ◌^◌, ◌<◌, ◌↔◌, Bool, IfNone, IfSome, IsTrue, SomeIff};
ghost use Rattle.sb_durable.specs.Recording.{GoesOn, HasRenewed, first_reach, renewed};
ghost use Rattle.sb_durable.specs.declared.recorded_reach.RecordedReach.{RecordedReach as ItsReach};

use sb_tenant::Volume;

/// A tenant is recorded so far: all volumes before this one, and the first entries of this one.
#[derive(Clone, Copy, Debug)]
pub struct RecordedReach {
    pub volume: Volume,
    /// Their number, with those of its opening, which are no records.
    pub entries: u32,
}

impl RecordedReach {
    /// The place before a tenant's first step.
    pub(crate) fn first() -> RecordedReach
        ensures { result ≡ first_reach }
    {
        RecordedReach {
            volume: Volume {
                number: 0,
                before: 0,
                opening: 0,
            },
            entries: 0,
        }
    }

    /// True if both are one place.
    pub(crate) fn equals(self, other: RecordedReach) -> bool
        ensures { IsTrue result ↔ self ≡ other }
    {
        self.volume == other.volume && self.entries == other.entries
    }

    /// The place behind the opening of the next volume, if this one ends here. None where a count has no room.
    pub(crate) fn renewed(self, opening: u64) -> Option<RecordedReach>
        ensures { SomeIff result (HasRenewed self opening) (renewed self opening) }
    {
        let entries = u32::try_from(opening).ok()?;
        let made = u64::from(self.entries).saturating_sub(self.volume.opening);
        let volume = Volume {
            number: self.volume.number.checked_add(1)?,
            before: self.volume.before.checked_add(made)?,
            opening,
        };
        Some(RecordedReach { volume, entries })
    }
}

/// The place at which recording goes on.
#[derive(Clone, Copy, Debug)]
pub(crate) struct RecordingStart {
    pub(crate) reach: RecordedReach,
    /// A renewal is recorded first.
    pub(crate) is_renewed: bool,
}

/// The place at which the recording of a tenant goes on in this volume of its life. None if the volume doesn't follow one
/// that ends at `recorded`: then the tenant was renewed before all of its steps were recorded.
pub(crate) fn start_in(recorded: RecordedReach, volume: Volume) -> Option<RecordingStart>
    ensures found { IfSome result (λ start. GoesOn recorded start.reach start.is_renewed × (start.reach.volume ≡ volume)) }
    ensures none { IfNone result ((at : ItsReach) (is_renewed : Bool) → at.entries < 2 ^ 32 → at.volume ≡ volume → GoesOn recorded at is_renewed → ⊥) }
{
    if volume == recorded.volume {
        return Some(RecordingStart {
            reach: recorded,
            is_renewed: false,
        });
    }
    let reach = recorded.renewed(volume.opening)?;
    if reach.volume != volume {
        return None;
    }
    Some(RecordingStart {
        reach,
        is_renewed: true,
    })
}
