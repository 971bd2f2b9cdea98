//! The first cell of a rectangle that doesn't match its neighbours, where it wraps round.
ghost use Rattle.std.specs.Prelude.{◌≡◌, ◌<◌, ◌≤◌};
ghost use Rattle.wt_periodic.specs.Wraps as spec;

use wt_pattern::{Fault, Pattern};
use wt_tile::{Axis, SetRef, Tile, is_match};

/// The first cell in reading order with a neighbour, round the border or inside, that doesn't match, and the axis:
/// at one cell axis 1 before axis 2. None exactly where the rectangle wraps round. Takes no memory.
#[tactic(auto, using(wt_grid::proofs::First::first_more))]
pub fn wraps(set: SetRef, p: &Pattern) -> Option<Fault>
    ensures { result ≡ spec.first_wrap_fault set.entry.list.now.tiles p.now }
{
    let tiles = set.tiles();
    for y in 0..p.height() {
        if let Some(fault) = fault_in(tiles, p, y) {
            return Some(fault);
        }
    }
    None
}

/// The first fault of row y.
#[tactic(auto, using(wt_grid::proofs::First::first_more))]
fn fault_in(tiles: &[Tile], p: &Pattern, y: usize) -> Option<Fault>
    requires { y < p.now.height }
    ensures { result ≡ spec.wrap_fault_in tiles.now p.now y }
{
    for x in 0..p.width() {
        if let Some(fault) = fault_at(tiles, p, x, y) {
            return Some(fault);
        }
    }
    None
}

/// The fault at cell (x, y).
fn fault_at(tiles: &[Tile], p: &Pattern, x: usize, y: usize) -> Option<Fault>
    requires inside_x { x < p.now.width }
    requires inside_y { y < p.now.height }
    ensures { result ≡ spec.wrap_fault_at tiles.now p.now y x }
{
    let here = p.cell(x, y);
    let right = p.cell(following(p.width(), x), y);
    let above = p.cell(x, following(p.height(), y));
    if !is_match(tiles, Axis::One, here, right) {
        return Some(Fault {
            axis: Axis::One,
            x,
            y,
        });
    }
    if !is_match(tiles, Axis::Two, here, above) {
        return Some(Fault {
            axis: Axis::Two,
            x,
            y,
        });
    }
    None
}

/// The place that follows place x of n in a round.
fn following(n: usize, x: usize) -> usize
    requires { x < n }
    ensures next { result ≡ spec.following n x }
    ensures inside { result < n }
{
    if x + 1 < n { x + 1 } else { 0 }
}
