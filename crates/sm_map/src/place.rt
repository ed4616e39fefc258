ghost use Rattle.std.specs.Prelude.{◌≡◌};
ghost use Rattle.sm_map.specs.Places.{precedes};

use crate::block::MOST_ENTRIES;

// The place of an entry: its block, and how many entries come before it there.
#[derive(Clone, Copy)]
pub(crate) struct Place {
    pub(crate) block: usize,
    pub(crate) offset: usize,
}

impl Place {
    // The place of the first entry.
    pub(crate) const FIRST: Place = Place {
        block: 0,
        offset: 0,
    };

    // Returns whether this place comes before another.
    pub(crate) fn precedes(self, other: Place) -> bool
        ensures { result ≡ precedes self other }
    {
        self.block < other.block || (self.block == other.block && self.offset < other.offset)
    }

    // Returns a number that is at least the number of entries from this place on and before another.
    pub(crate) fn most_before(self, other: Place) -> usize {
        if self.block == other.block {
            return other.offset.saturating_sub(self.offset);
        }
        other
            .block
            .saturating_sub(self.block)
            .saturating_add(1)
            .saturating_mul(MOST_ENTRIES)
    }
}
