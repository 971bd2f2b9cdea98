//! Coordinates after many turns, over one denominator.
ghost use Rattle.std.specs.Prelude.{◌≡◌, ◌^◌, ◌≤◌, ◌+◌, ℕ, map, IfOk};
ghost use Rattle.wt_grid.specs.Grid.{listed};
ghost use Rattle.wt_golden.specs.Wide.{number};
ghost use Rattle.wt_golden.specs.Sizes.{IsBelow};
ghost use Rattle.wt_torus.specs.Rotation as spec;

use crate::sign::is_positive;
use std::alloc::{AllocError, Global};
use wt_golden::Wide;
use wt_grid::MAX_SIDE;

// The coordinate after one turn.
fn advanced(length: Wide, step: Wide, at: Wide) -> Wide
    requires length { IsBelow (number length) (2 ^ 92) }
    requires step { IsBelow (number step) (2 ^ 92) }
    requires at { IsBelow (number at) (2 ^ 110) }
    ensures value { number result ≡ spec.step (number length) (number step) (number at) }
    ensures small { (m : ℕ) → IsBelow (number at) m → IsBelow (number result) (m + 2 ^ 93) }
{
    let moved = at.plus(step);
    let left = length.minus(moved);
    if is_positive(left) {
        moved
    } else {
        moved.minus(length)
    }
}

/// The coordinates after 0, 1, .. turns, count of them.
pub(crate) fn coordinates(
    alloc: Global,
    length: Wide,
    step: Wide,
    start: Wide,
    count: usize,
) -> Result<Vec<Wide>, AllocError>
    requires length { IsBelow (number length) (2 ^ 92) }
    requires step { IsBelow (number step) (2 ^ 92) }
    requires start { IsBelow (number start) (2 ^ 92) }
    requires few { count ≤ MAX_SIDE }
    ensures { IfOk result (λ all. map number all.items ≡ listed count (spec.orbit (number length) (number step) (number start))) }
{
    let mut all = Vec::with_capacity(alloc, count)?;
    let mut at = start;
    for i in 0..count {
        all.push(at)?;
        at = advanced(length, step, at);
    }
    Ok(all)
}
