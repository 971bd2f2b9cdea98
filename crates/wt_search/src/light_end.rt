//! Why a chain isn't lightened.
ghost use Rattle.std.specs.Prelude.{◌≡◌};
ghost use Rattle.wt_search.specs.declared.light_end.LightenEnd.TheVariants as spec;

use std::alloc::AllocError;
use wt_tile::Axis;

/// Why a chain isn't lightened: the first end that is met. Pairs go by step, then by radius, axis, first and second
/// tile; at one pair the window comes before the tree, and the tree's budget before the count of nodes. Want of
/// memory may come before each.
#[derive(Clone, Copy, Debug, PartialEq, Eq)]
pub enum LightenEnd {
    /// The window of these two tiles at this radius has more trials than the budget, or their standard tree there has
    /// more nodes.
    Spent {
        /// The step's number, from 0.
        step: usize,
        /// The radius that was asked: 1 to that of the step.
        radius: u8,
        /// The axis along which b follows a.
        axis: Axis,
        /// The number of the first tile.
        a: u16,
        /// The number of the second tile.
        b: u16,
    },
    /// With a tree of this step, or with the lost tiles of this step, the trees so far have more than 1,048,576 nodes.
    TooManyNodes {
        /// The step's number, from 0.
        step: usize,
    },
    /// No memory was left.
    OutOfMemory,
}

impl From<AllocError> for LightenEnd {
    ghost from_gives = { λ _ e. e ≡ spec.OutOfMemory };

    fn from(_: AllocError) -> Self {
        LightenEnd::OutOfMemory
    }
}
