//! Why a partition has no induced one within the limits.
ghost use Rattle.std.specs.Prelude.{◌≡◌};
ghost use Rattle.wt_induce.specs.declared.fault.InduceFault.TheVariants as spec;

use std::alloc::AllocError;

/// Why `induce` gives no partition.
#[derive(Clone, Copy, Debug, PartialEq, Eq)]
pub enum InduceFault {
    /// Twice the move is the length.
    Half,
    /// A number of the window, of a zone, or of a half-plane moved back is out of limit.
    TooLarge,
    /// An induced region has over 64 half-planes that count.
    TooManyPlanes,
    /// Over 1024 regions are left.
    TooManyRegions,
    /// There are over 256 new labels.
    TooManyLabels,
    /// No memory was left.
    OutOfMemory,
}

impl From<AllocError> for InduceFault {
    ghost from_gives = { λ _ e. e ≡ spec.OutOfMemory };

    fn from(_: AllocError) -> Self {
        InduceFault::OutOfMemory
    }
}
