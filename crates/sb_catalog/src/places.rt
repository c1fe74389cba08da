//! The places of the rules in the order of creation, by their numbers.
ghost use Rattle.std.specs.Prelude.{◌≡◌, ◌<◌, length, map, slice_set};
ghost use Rattle.sb_catalog.specs.Places.{place_at, closed};

use sb_value::{RULE_LIMIT, RuleId};
use std::marker::Model;

/// A place for each number. Of a number that no rule has it says nothing.
pub struct Places {
    places: [u8; RULE_LIMIT],
}

impl Drop for Places {
    fn drop(self) {
        let Self { places: _ } = self;
    }
}

impl Model for Places {
    ghost use Rattle.std.specs.Prelude.{List, ℕ};

    ghost Value = { List ℕ };

    ghost view = { λ p. p.places };
}

impl Places {
    /// Before the first rule.
    pub fn new() -> Places {
        Places {
            places: [0; RULE_LIMIT],
        }
    }

    /// The place that is noted for the number.
    pub fn get(&self, id: RuleId) -> usize
        ensures { result ≡ place_at self.now id }
    {
        self.places[id.index()] as usize
    }

    /// Notes the place of a rule.
    pub fn note(&mut self, id: RuleId, place: usize)
        requires { place < 256 }
        ensures noted { self.new ≡ slice_set self.old id place }
        ensures in_range { id < length self.old }
    {
        self.places[id.index()] = place as u8;
    }

    /// The rules behind the gap move up by one place.
    pub fn close(&mut self, gap: usize)
        ensures { self.new ≡ map (closed gap) self.old }
    {
        for place in self.places.iter_mut() {
            *place = moved_up(*place, gap);
        }
    }
}

/// The place before it, if it is behind the gap.
fn moved_up(place: u8, gap: usize) -> u8
    ensures { result ≡ closed gap place }
{
    if place as usize > gap {
        place - 1
    } else {
        place
    }
}
