// What may be wrong with a pattern, or with the place of a part.
ghost use Rattle.std.specs.Prelude.{◌≡◌};

use std::alloc::AllocError;
use wt_tile::Axis;

/// Two neighbours that don't match: the cell at (x, y) and the next one along the axis, to the right or above.
#[derive(Clone, Copy, Debug, PartialEq, Eq)]
pub struct Fault {
    /// The axis along which they are neighbours.
    pub axis: Axis,
    /// The column of the first of them, counted from 0.
    pub x: usize,
    /// Its row, counted from 0 at the bottom.
    pub y: usize,
}

/// Why a width, a height and cells make no pattern. The first that holds is the fault.
#[derive(Clone, Copy, Debug, PartialEq, Eq)]
pub enum ShapeFault {
    /// The width or the height is 0.
    Zero,
    /// The width or the height is over 4096.
    TooLarge,
    /// There are not width times height cells.
    Count,
}

/// Why a pattern has no such part.
#[derive(Clone, Copy, Debug, PartialEq, Eq)]
pub enum PartFault {
    /// The part has no cell, or leaves the pattern.
    Outside,
    /// There was no memory for the part.
    OutOfMemory,
}

impl From<AllocError> for PartFault {
    ghost use Rattle.std.specs.Prelude.{◌≡◌};
    ghost use Rattle.std.specs.declared.alloc.AllocError.{AllocError};
    ghost use Rattle.wt_pattern.specs.declared.fault.PartFault.{PartFault};
    ghost use Rattle.wt_pattern.specs.declared.fault.PartFault.TheVariants.{OutOfMemory};

    ghost from_gives = { λ e f. f ≡ OutOfMemory };

    fn from(_: AllocError) -> PartFault {
        PartFault::OutOfMemory
    }
}
