//! Why a search finds no chain.
use wt_tile::Axis;

/// Why a search finds no chain: the refusal at the first level where one holds. At one level they come in this
/// order: a spent window, `NoMarker`, `EmptySet`, `TooManyTiles`, `Repeated`, a spent tree, `TooManyNodes`,
/// `NotGrowing`, `Levels`. Memory may run out before each.
#[derive(Clone, Copy, Debug, PartialEq, Eq)]
pub enum SearchEnd {
    /// At this level the window of these two tiles has more trials than the budget; or, where each window of the
    /// level is known, this is the first pair whose standard tree has more nodes than the budget.
    Spent {
        level: usize,
        axis: Axis,
        a: u16,
        b: u16,
    },
    /// No class of markers is kept.
    NoMarker {
        level: usize,
    },
    /// No image is demanded.
    EmptySet {
        level: usize,
    },
    /// More than 256 images are demanded.
    TooManyTiles {
        level: usize,
    },
    /// Two images fuse to one tile.
    Repeated {
        level: usize,
    },
    /// The trees of all steps so far have more than 1,048,576 nodes.
    TooManyNodes {
        level: usize,
    },
    /// The last set is equivalent to that of this level first, and for the least renaming images grow after no
    /// number of turns.
    NotGrowing {
        start: usize,
    },
    /// All steps were made, and no set is equivalent to an earlier one.
    Levels,
    /// No memory was left.
    OutOfMemory,
}
