//! The volumes of a tenant's life.
ghost use Rattle.std.specs.Prelude.{◌≡◌, SomeIff};
ghost use Rattle.sb_tenant.specs.Volumes.{HasFollowing, first_volume, following};

/// The place of a trail in its tenant's life.
#[derive(Clone, Copy, Debug, PartialEq, Eq)]
pub struct Volume {
    /// The number of volumes that ended before it.
    pub number: u64,
    /// The number of entries that the tenant's sessions made in those.
    pub before: u64,
    /// With how many entries its own trail began, which none of the tenant's sessions made.
    pub opening: u64,
}

impl Volume {
    /// The first one.
    pub(crate) fn first() -> Volume
        ensures { result ≡ first_volume }
    {
        Volume {
            number: 0,
            before: 0,
            opening: 0,
        }
    }

    /// The one behind it, where it ends with so many entries and the other begins with so many.
    pub(crate) fn following(self, entries: u64, opening: u64) -> Option<Volume>
        ensures { SomeIff result (HasFollowing self entries) (following self entries opening) }
    {
        let number = self.number.checked_add(1)?;
        let made = entries.saturating_sub(self.opening);
        let before = self.before.checked_add(made)?;
        Some(Volume {
            number,
            before,
            opening,
        })
    }
}
