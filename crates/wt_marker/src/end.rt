//! Why no step is derived.
ghost use Rattle.std.specs.Prelude.{◌≡◌};
ghost use Rattle.wt_marker.specs.declared.end.DeriveEnd.TheVariants as spec;

use std::alloc::AllocError;
use wt_tile::Axis;

/// Why no step is derived. The first that holds, in this order; memory may run out before each.
#[derive(Clone, Copy, Debug, PartialEq, Eq)]
pub enum DeriveEnd {
    /// No image is demanded.
    EmptySet,
    /// More than 256 images are demanded.
    TooManyTiles,
    /// Two images fuse to one tile: the least second of such, and the least first for it.
    Repeated { first: usize, second: usize },
    /// The first standard tree that has more nodes than the budget.
    Spent { axis: Axis, a: u16, b: u16 },
    /// The trees have more than 1,048,576 nodes in all.
    TooManyNodes,
    /// No memory was left.
    OutOfMemory,
}

impl From<AllocError> for DeriveEnd {
    ghost from_gives = { λ _ e. e ≡ spec.OutOfMemory };

    fn from(_: AllocError) -> Self {
        DeriveEnd::OutOfMemory
    }
}
