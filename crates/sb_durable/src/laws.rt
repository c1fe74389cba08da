//! What holds of the definitions alone: each law is the contract of a function that does nothing.
ghost use Rattle.std.specs.Prelude.{ℕ};
ghost use Rattle.sb_tenant.specs.declared.bound.Bound.{Bound};
ghost use Rattle.sb_durable.specs.RecordedLives.{RecordsAreTheSteps};
ghost use Rattle.sb_durable.specs.Recording.{RecordsMakeTheState};
ghost use Rattle.sb_durable.specs.RowJournal.{FoldersCanLoseTheirOldest, RestartsAreTheSame};
ghost use Rattle.sb_durable.specs.VolumeLives.{LivesAreMade};
ghost use Rattle.sb_durable.specs.VolumeRecords.{DraftsAreNothing, OldSegmentsCanGo, OlderAreOfNoUse, RenewalsAreVolumes, RenewalsStand, SessionsAlone, VolumesStand};

/// The lines that a legal trail is recorded as make its state again, from the opening state on.
pub fn records_make_the_state()
    ensures { (tenant : ℕ) (bound : Bound) → RecordsMakeTheState tenant bound }
{}

/// What is recorded of a tenant are the steps that its sessions made in all volumes of its life, in order, with a renewal
/// between two volumes.
pub fn records_are_the_steps()
    ensures { (t : ℕ) → RecordsAreTheSteps t }
{}

/// Where a volume is whole in the newer records, a tenant's older ones are of no use.
pub fn older_are_of_no_use()
    ensures { (bound : Bound) (t : ℕ) → OlderAreOfNoUse bound t }
{}

/// A volume that is begun and not turned to makes nothing.
pub fn drafts_are_nothing()
    ensures { (bound : Bound) (t : ℕ) → DraftsAreNothing bound t }
{}

/// Behind a whole volume a tenant is what its script makes.
pub fn volumes_stand()
    ensures { (bound : Bound) (t : ℕ) → VolumesStand bound t }
{}

/// Records of sessions alone make what they make where there are no volumes.
pub fn sessions_alone()
    ensures { (bound : Bound) (t : ℕ) → SessionsAlone bound t }
{}

/// Segments can go whose records no tenant needs.
pub fn old_segments_can_go()
    ensures { OldSegmentsCanGo }
{}

/// What a renewal is recorded as makes the very tenant that took the place of the old one.
pub fn renewals_stand()
    ensures { RenewalsStand }
{}

/// With a renewal among its records, a tenant needs none before it.
pub fn renewals_are_volumes()
    ensures { RenewalsAreVolumes }
{}

/// A folder that loses its oldest file keeps the newer records.
pub fn folders_can_lose_their_oldest()
    ensures { FoldersCanLoseTheirOldest }
{}

/// Where no tenant needs the older records, a restart makes the same tenants of the newer ones.
pub fn restarts_are_the_same()
    ensures { RestartsAreTheSame }
{}

/// What is to be recorded of a tenant's life makes it as its last volume leaves it.
pub fn lives_are_made()
    ensures { (bound : Bound) (t : ℕ) → LivesAreMade bound t }
{}
