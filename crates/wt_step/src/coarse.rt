// What desubstitution answers.
use wt_pattern::{Fault, Pattern};

/// The coarse pattern whose image is the cut core, and whether the first and the last line of the core are cut.
#[derive(Drop)]
pub struct Coarse {
    /// A pattern over the coarse set.
    pub pattern: Pattern,
    /// Whether the core's first line along the axis is cut: the first column or the lowest row.
    pub low_cut: bool,
    /// Whether its last line is cut.
    pub high_cut: bool,
}

/// Why a pattern isn't taken apart: its first fault, then a core that is too small.
#[derive(Clone, Copy, Debug, PartialEq, Eq)]
pub enum DesubFault {
    /// The first two neighbours that don't match.
    NotValid(Fault),
    /// The core has fewer than three lines along the axis or no cell across; for a restrict step, no cell.
    TooSmall,
    /// Out of memory.
    OutOfMemory,
}
