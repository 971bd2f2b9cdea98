//! Where a node of a standard tree stands, and what it cites.
ghost use Rattle.std.specs.Prelude.{◌≡◌, ◌+◌, ◌^◌, ◌<◌, ◌≤◌, List, length, nat_lt, None, true};
ghost use Rattle.std.specs.List.{list_any};
ghost use Rattle.wt_tile.specs.declared.tile.Tile.{Tile};
ghost use Rattle.wt_refute.specs.Placed.{placed};
ghost use Rattle.wt_refute.specs.Fitted.{AreCounted};
ghost use Rattle.wt_refute.specs.Entries.{ascends};
ghost use Rattle.wt_refute.specs.Standard as spec;

use crate::Refuted;
use crate::check::is_cited;
use crate::fitting::Counts;
use crate::window::is_free;
use wt_pattern::MAX_CELLS;
use wt_tile::Axis;

/// What may be cited at a cell, axis 1 before axis 2.
fn citation_at(
    radius: u8,
    known: &[Refuted],
    shape: (usize, usize),
    cells: &[Option<u16>],
    cell: u16,
) -> Option<(u16, Axis)>
    requires wide { 0 < shape.0 }
    requires small { shape.0 < 2 ^ 32 }
    requires radius { radius ≤ 4 }
    requires in_order { ascends known.now ≡ true }
    ensures { result ≡ spec.citation_at radius known.now (placed shape cells.now) cell }
{
    let at = usize::from(cell);
    if is_cited(radius, known, shape, cells, at, Axis::One) {
        return Some((cell, Axis::One));
    }
    if is_cited(radius, known, shape, cells, at, Axis::Two) {
        return Some((cell, Axis::Two));
    }
    None
}

/// Whether an entry is of a lower radius. As the entries ascend, the first tells.
fn has_lower(radius: u8, known: &[Refuted]) -> bool
    requires { ascends known.now ≡ true }
    ensures { result ≡ list_any (λ entry. nat_lt entry.radius radius) known.now }
{
    match known {
        [] => false,
        [first, ..] => first.radius < radius,
    }
}

/// The right citation with the least cell number.
#[tactic(auto, using(wt_grid::proofs::First::first_more))]
pub fn first_citation(
    radius: u8,
    known: &[Refuted],
    shape: (usize, usize),
    cells: &[Option<u16>],
) -> Option<(u16, Axis)>
    requires wide { 0 < shape.0 }
    requires small { shape.0 < 2 ^ 32 }
    requires few_cells { length cells.now ≤ MAX_CELLS }
    requires radius { radius ≤ 4 }
    requires in_order { ascends known.now ≡ true }
    ensures { result ≡ spec.first_citation radius known.now (placed shape cells.now) }
{
    if !has_lower(radius, known) {
        return None;
    }
    for cell in 0..cells.len() {
        if let Some(at) = citation_at(radius, known, shape, cells, cell as u16) {
            return Some(at);
        }
    }
    None
}

/// The cell with the lower count, else the one held.
fn tighter(new: (u16, usize), held: Option<(u16, usize)>) -> (u16, usize)
    ensures { result ≡ spec.tighter new held }
{
    match held {
        None => new,
        Some(held) => { if new.1 < held.1 { new } else { held } }
    }
}

/// The free cell with the fewest fitting tiles, the least cell number first.
pub fn tightest(shape: (usize, usize), cells: &[Option<u16>], counts: &Counts) -> Option<u16>
    requires few_cells { length cells.now ≤ MAX_CELLS }
    ensures { (ts : List Tile) → AreCounted ts (placed shape cells.now) counts.now → result ≡ spec.tightest ts (placed shape cells.now) }
{
    let mut held = None;
    for cell in 0..cells.len() {
        if is_free(shape, cells, cell) {
            held = Some(tighter((cell as u16, counts[cell] as usize), held));
        }
    }
    match held {
        None => None,
        Some(held) => Some(held.0),
    }
}
