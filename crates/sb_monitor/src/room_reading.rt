//! How much room a tenant has, read within the lock of its cell.
ghost use Rattle.std.specs.Prelude.{◌≡◌, None, Some, ℕ, Option};
ghost use Rattle.sb_monitor.specs.Rooms.{is_short};

use sb_host::Reading;
use sb_tenant::{TRAIL_LIMIT, Tenant};

/// A tenant is short of room where less than one part of so many is left.
const PART: u64 = 10;

/// A renewal gives back what is worth it where the trail takes one part of so many of a tenant's share.
const TRAIL_PART: u64 = 32;

/// Reads how far a tenant's trail is, and whether its room gets short.
#[derive(Drop)]
pub(crate) struct RoomReading {
    /// The bytes that a tenant may take, if they have a limit.
    memory: Option<u64>,
    pub(crate) room: Option<Room>,
}

/// The place of a tenant's trail in its life, and its length.
#[derive(Clone, Copy)]
pub(crate) struct Room {
    /// The number of volumes of its life that ended before its trail.
    pub(crate) volume: u64,
    pub(crate) steps: u64,
    /// Less than a tenth is left of the trail, or of the memory.
    pub(crate) is_short: bool,
}

impl RoomReading {
    /// Of tenants that may take so many bytes.
    pub(crate) fn new(memory: Option<u64>) -> RoomReading
        ensures { (result.memory ≡ memory) × (result.room ≡ None) }
    {
        RoomReading { memory, room: None }
    }

    /// True if a tenant was read whose room is short.
    pub(crate) fn is_short(&self) -> bool {
        match self.room {
            Some(room) => room.is_short,
            None => false,
        }
    }

    /// True if a tenant has less than a tenth of its share left, and its trail takes enough of it to be renewed.
    fn lacks_memory(&self, tenant: &Tenant) -> bool {
        match self.memory {
            Some(share) => {
                is_short(share.saturating_sub(tenant.bytes_taken()), share)
                    && tenant.trail_bytes() >= share / TRAIL_PART
            }
            None => false,
        }
    }
}

impl Reading for RoomReading {
    ghost use Rattle.sb_monitor.specs.Rooms.{IsRead};

    ghost reads = { λ old own new. IsRead own new.room };

    fn read(&mut self, tenant: &Tenant) {
        let steps = tenant.trail().len() as u64;
        let is_short = is_short(
            (TRAIL_LIMIT as u64).saturating_sub(steps),
            TRAIL_LIMIT as u64,
        );
        self.room = Some(Room {
            volume: tenant.volume().number,
            steps,
            is_short: is_short || self.lacks_memory(tenant),
        });
    }
}

/// True if less than a tenth of all is left.
fn is_short(left: u64, all: u64) -> bool
    ensures { result ≡ is_short left all }
{
    left < all / PART
}
