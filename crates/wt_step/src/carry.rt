// What a good step makes of a period.
ghost use Rattle.std.specs.Prelude.{◌≡◌, ◌+◌, ◌≤◌, ◌↔◌, pos, true, nat_le};
ghost use Rattle.wt_grid.specs.Grid.{Grid, IsGrid, along};
ghost use Rattle.wt_grid.specs.Parts.{core};
ghost use Rattle.wt_pattern.specs.Patterns.{IsPattern};
ghost use Rattle.wt_pattern.specs.Periods.{IsPeriod};
ghost use Rattle.wt_pattern.specs.Shape.{IsShape};
ghost use Rattle.wt_step.specs.Links.{fine_of};
ghost use Rattle.wt_step.specs.Views.{link_of};
ghost use Rattle.wt_step.specs.Coarse.{IsDesubstitution};
ghost use Rattle.wt_step.specs.Carried.{magnitude, IsCountedBy};
ghost use Rattle.wt_step.specs.Carried as spec;

use crate::apart::{core_across, core_lines, ends_at, one_if};
use crate::blocks::{count_blocks, count_lines};
use crate::{LinkRef, RawStep};
use wt_grid::MAX_SIDE;
use wt_pattern::Pattern;
use wt_tile::Axis;

/// Whether a side is longer than a component by n cells.
fn fits(d: i64, more: u64, side: usize) -> bool
    ensures { result ≡ nat_le (magnitude d + more) side }
{
    let side = side as u64;
    side >= more && d.unsigned_abs() <= side - more
}

fn marker_room(raw: &RawStep, p: &Pattern, dx: i64, dy: i64) -> bool
    ensures shape { IsShape p.now }
    ensures value { result ≡ spec.has_room_along raw.now.axis (core raw.now.radius p.now) dx dy }
{
    let width = core_lines(p, Axis::One, raw.radius);
    let height = core_across(p, Axis::One, raw.radius);
    match raw.axis {
        Axis::One => fits(dx, 3, width) && fits(dy, 1, height),
        Axis::Two => fits(dx, 1, width) && fits(dy, 3, height),
    }
}

/// Whether a core is as large as `carry_period` asks for the vector (dx, dy): for a marker step three lines
/// longer than the vector along the axis, and one cell wider across it; for a restrict step wider and higher
/// than the vector. Takes no memory.
pub fn has_room(link: LinkRef<'_>, p: &Pattern, dx: i64, dy: i64) -> bool
    ensures shape { IsShape p.now }
    ensures value { result ≡ spec.has_room (link_of link.entry) p.now dx dy }
{
    match link {
        LinkRef::Marker(step) => marker_room(step.raw, p, dx, dy),
        LinkRef::Restrict(step) => {
            fits(dx, 1, core_lines(p, Axis::One, step.raw.radius))
                && fits(dy, 1, core_across(p, Axis::One, step.raw.radius))
        }
    }
}

/// The length of a component as a number of lines of a pattern, which has no fewer.
fn lines_of(p: &Pattern, axis: Axis, d: i64) -> u16
    requires { magnitude d ≤ along axis p.now }
    ensures value { result ≡ magnitude d }
    ensures few { result ≤ MAX_SIDE }
{
    d.unsigned_abs().min(count_lines(p, axis) as u64) as u16
}

/// How many blocks begin in the first lines of the cut core.
fn blocks_begun(raw: &RawStep, p: &Pattern, lines: u16) -> u16
    requires { lines ≤ MAX_SIDE }
    ensures { result ≡ spec.blocks_begun raw.now p.now lines }
{
    let from = one_if(ends_at(raw, p, 0));
    count_blocks(raw, p, from, from + lines)
}

/// A component along the step's axis, counted in blocks.
fn in_blocks(raw: &RawStep, p: &Pattern, d: i64) -> i64
    requires { magnitude d ≤ along raw.now.axis p.now }
    ensures { result ≡ spec.in_blocks raw.now p.now d }
{
    let blocks = i64::from(blocks_begun(raw, p, lines_of(p, raw.axis, d)));
    if d < 0 { -blocks } else { blocks }
}

/// A vector whose component along the step's axis is counted in blocks.
fn vector_along(raw: &RawStep, p: &Pattern, dx: i64, dy: i64) -> (i64, i64)
    requires { spec.has_room_along raw.now.axis (core raw.now.radius p.now) dx dy ≡ true }
    ensures { result ≡ spec.vector_along raw.now.axis raw.now p.now dx dy }
{
    match raw.axis {
        Axis::One => (in_blocks(raw, p, dx), dy),
        Axis::Two => (dx, in_blocks(raw, p, dy)),
    }
}

/// The same by a step of either kind.
fn carried_vector(link: LinkRef<'_>, p: &Pattern, dx: i64, dy: i64) -> (i64, i64)
    requires { spec.has_room (link_of link) p.now dx dy ≡ true }
    ensures { result ≡ spec.carried_vector (link_of link.entry) p.now dx dy }
{
    match link {
        LinkRef::Marker(step) => vector_along(step.raw, p, dx, dy),
        LinkRef::Restrict(_) => (dx, dy),
    }
}

/// The period of the coarse pattern that a good step makes of a valid pattern with the period (dx, dy). For a
/// marker step the component along the step's axis is counted in blocks, with its sign: the number of coarse
/// lines, from the first on, that stand for n lines of the cut core. The other component stays, and for
/// a restrict step both do. The core has to be as large as `has_room` says. Takes no memory.
pub fn carry_period(link: LinkRef<'_>, p: &Pattern, dx: i64, dy: i64) -> (i64, i64)
    requires pattern { IsPattern (fine_of (link_of link)).tiles p.now }
    requires period { IsPeriod p.now dx dy }
    requires room { spec.has_room (link_of link) p.now dx dy ≡ true }
    ensures value { (q : Grid) → IsGrid q → IsDesubstitution (link_of link.entry) p.now q → IsCountedBy (link_of link.entry) q dx dy result }
    ensures period { (q : Grid) → IsGrid q → IsDesubstitution (link_of link.entry) p.now q → IsPeriod q result.0 result.1 }
    ensures shorter { (magnitude result.0 ≤ magnitude dx) × (magnitude result.1 ≤ magnitude dy) }
    ensures zero { ((result.0 ≡ pos 0) ↔ (dx ≡ pos 0)) × ((result.1 ≡ pos 0) ↔ (dy ≡ pos 0)) }
{
    carried_vector(link, p, dx, dy)
}
