//! Coordinates after many turns in lowest terms, as far as they are within the limit.
ghost use Rattle.std.specs.Prelude.{◌≡◌, ◌^◌, ◌≤◌, ◌<ℤ◌, ◌*ℤ◌, pos, unsigned_abs, IfOk};
ghost use Rattle.wt_grid.specs.Grid.{listed};
ghost use Rattle.wt_golden.specs.Whole.{whole};
ghost use Rattle.wt_golden.specs.Wide.{number};
ghost use Rattle.wt_golden.specs.Fractions.{over, lowest};
ghost use Rattle.wt_golden.specs.Sizes.{IsBelow};
ghost use Rattle.wt_torus.specs.Codes.{within, coordinate_within};
ghost use Rattle.wt_torus.specs.Codes as codes;

use crate::orbit::coordinates;
use std::alloc::{AllocError, Global};
use wt_golden::{Golden, Parts, Wide};
use wt_grid::MAX_SIDE;

// The product of two denominators.
fn both_bottoms(f: Golden, g: Golden) -> Wide
    ensures value { number result ≡ whole (f.d *ℤ g.d) }
    ensures small { IsBelow (number result) (2 ^ 60) }
    ensures above { pos 0 <ℤ (f.d *ℤ g.d) }
{
    f.bottom().times(g.bottom())
}

// f's numerator over the product of all three denominators.
fn spread(f: Golden, g: Golden, h: Golden) -> Wide
    ensures value { number result ≡ codes.spread f (g.d *ℤ h.d) }
    ensures small { IsBelow (number result) (2 ^ 92) }
{
    f.top().times(both_bottoms(g, h))
}

// That product.
fn all_bottoms(f: Golden, g: Golden, h: Golden) -> Wide
    ensures value { number result ≡ whole (f.d *ℤ (g.d *ℤ h.d)) }
    ensures small { unsigned_abs result.a ≤ 2 ^ 126 }
    ensures above { pos 0 <ℤ result.a }
{
    f.bottom().times(both_bottoms(g, h))
}

// x / d in lowest terms, where it is within the limit then.
fn lowered(x: Wide, d: Wide) -> Option<Golden>
    requires above { pos 0 <ℤ d.a }
    requires small { unsigned_abs d.a ≤ 2 ^ 126 }
    ensures { result ≡ within (lowest (over (number x) d.a)) }
{
    match Golden::over(Parts {
        a: x.a,
        b: x.b,
        d: d.a,
    }) {
        Ok(g) => Some(g),
        Err(_) => None,
    }
}

/// The coordinates after 0, 1, .. turns, count of them, each where it is within the limit.
pub(crate) fn turned_coordinates(
    alloc: Global,
    length: Golden,
    step: Golden,
    start: Golden,
    count: usize,
) -> Result<Vec<Option<Golden>>, AllocError>
    requires few { count ≤ MAX_SIDE }
    ensures { IfOk result (λ all. all.items ≡ listed count (coordinate_within length step start)) }
{
    let d = all_bottoms(length, step, start);
    let wide_length = spread(length, step, start);
    let wide_step = spread(step, length, start);
    let wide_start = spread(start, length, step);
    let turns = coordinates(alloc, wide_length, wide_step, wide_start, count)?;
    let mut all = Vec::with_capacity(alloc, count)?;
    for at in &turns {
        all.push(lowered(*at, d))?;
    }
    Ok(all)
}
