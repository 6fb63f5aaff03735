//! What is chosen of the sources of a board: in each role a version and its slot.

ghost use Rattle.std.specs.Prelude.{◌≡◌, ◌+◌, ◌<◌, None, option_map, Some};
ghost use Rattle.semver.specs.Identifiers.{parts_of};
ghost use Rattle.nextest_config.specs.Board.RolePair.{later_asked, later_pair, no_pair, pairs_join, slot_version};
ghost use Rattle.nextest_config.specs.NextestVersion.{plain};

use crate::choice::Choose;
use semver::Version;
use std::cmp::Ordering;

/// A version by its numbers, and the slot of the source that asks for it.
#[derive(Clone, Copy, Debug)]
pub(super) struct SlotVersion {
    pub numbers: (u64, u64, u64),
    pub slot: usize,
}

impl SlotVersion {
    /// The version, if one is asked, from this slot. Only its three numbers are kept.
    pub fn of(slot: usize, asked: &Option<Version>) -> Option<Self>
        ensures { result ≡ option_map (slot_version slot) asked.now }
    {
        match asked {
            Some(version) => Some(SlotVersion {
                numbers: (version.major, version.minor, version.patch),
                slot,
            }),
            None => None,
        }
    }

    pub fn version(self) -> Version
        ensures { parts_of result ≡ plain self.numbers }
    {
        Version::new(self.numbers.0, self.numbers.1, self.numbers.2)
    }
}

// The later one, unless its version is below the earlier one's.
fn later_of(earlier: Option<SlotVersion>, later: Option<SlotVersion>) -> Option<SlotVersion>
    ensures { result ≡ later_asked earlier later }
{
    match (earlier, later) {
        (Some(earlier), Some(later)) => {
            if later.version().cmp_precedence(&earlier.version()) == Ordering::Less {
                Some(earlier)
            } else {
                Some(later)
            }
        }
        (asked, None) | (None, asked) => asked,
    }
}

/// What is chosen in each role.
#[derive(Clone, Copy, Debug)]
pub(super) struct RolePair {
    pub required: Option<SlotVersion>,
    pub recommended: Option<SlotVersion>,
}

/// Number of choices that were made.
#[derive(Debug, Drop)]
pub(super) struct Tally {
    pub choices: usize,
}

impl Choose for RolePair {
    type Count = Tally;

    ghost number = { λ tally. tally.choices };

    ghost choice = { later_pair };

    ghost nothing = { no_pair };

    fn none() -> RolePair {
        RolePair {
            required: None,
            recommended: None,
        }
    }

    fn choose(left: RolePair, right: RolePair, count: &mut Tally) -> RolePair {
        count.choices += 1;
        RolePair {
            required: later_of(left.required, right.required),
            recommended: later_of(left.recommended, right.recommended),
        }
    }

    ghost laws = { pairs_join };
}
