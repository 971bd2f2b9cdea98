// The first cell that is no tile, and the first neighbours that don't match.
ghost use Rattle.std.specs.Prelude.{◌≡◌, ◌-◌, ◌<◌, ℕ, None, length, slice_index};
ghost use Rattle.std.specs.Bool.{OnTrue};
ghost use Rattle.wt_grid.specs.First.{first_from};
ghost use Rattle.wt_pattern.specs.Validity.{first_stranger, first_fault};
ghost use Rattle.wt_pattern.specs.Validity as spec;

use crate::neighbours::Colours;
use crate::{Fault, Pattern};
use wt_lane::all_below;
use wt_tile::{Axis, SetRef, Tile, is_match};

/// The first cell in reading order whose number is no tile of the set, or None. Takes no memory.
#[tactic(auto, using(wt_grid::proofs::First::first_more))]
pub fn tiles_fault(set: SetRef, p: &Pattern) -> Option<(usize, usize)>
    ensures { result ≡ first_stranger (length set.entry.list.now.tiles) p.now }
{
    let count = set.len();
    for y in 0..p.height() {
        if let Some(place) = stranger_in(count, p, y) {
            return Some(place);
        }
    }
    None
}

/// The first cell of row y whose number is none of n tiles.
fn stranger_in(count: usize, p: &Pattern, y: usize) -> Option<(usize, usize)>
    requires { y < p.now.height }
    ensures { result ≡ spec.stranger_in count p.now y }
{
    if count < 65536 && all_below(p.row(y), count as u16) {
        return None;
    }
    first_stranger_in(count, p, y)
}

/// The same, cell by cell.
#[tactic(auto, using(wt_grid::proofs::First::first_more))]
fn first_stranger_in(count: usize, p: &Pattern, y: usize) -> Option<(usize, usize)>
    requires { y < p.now.height }
    ensures { result ≡ spec.stranger_in count p.now y }
{
    for x in 0..p.width() {
        if usize::from(p.cell(x, y)) >= count {
            return Some((x, y));
        }
    }
    None
}

/// The first fault in reading order of a pattern whose cells are tiles, or None where all neighbours match:
/// at one cell the domino to the right comes before the domino upwards. Takes no memory.
#[tactic(auto, using(wt_grid::proofs::First::first_more))]
pub fn valid(set: SetRef, p: &Pattern) -> Option<Fault>
    ensures { result ≡ first_fault set.entry.list.now.tiles p.now }
{
    let colours = Colours::new(set.tiles());
    let small = p.is_below(256);
    for y in 0..p.height() {
        if let Some(fault) = fault_in(&colours, p, small, y) {
            return Some(fault);
        }
    }
    None
}

/// The first fault of row y.
fn fault_in(colours: &Colours<'_>, p: &Pattern, small: bool, y: usize) -> Option<Fault>
    requires row { y < p.now.height }
    requires small { OnTrue small ((k : ℕ) → slice_index p.now.cells k < 256) }
    ensures { result ≡ spec.fault_in colours.now.tiles.now p.now y }
{
    let start = count_quiet(colours, p, small, y);
    fault_from(colours.tiles, p, start, y)
}

/// How many of the first cells of row y were seen to have no fault.
fn count_quiet(colours: &Colours<'_>, p: &Pattern, small: bool, y: usize) -> usize
    requires row { y < p.now.height }
    requires small { OnTrue small ((k : ℕ) → slice_index p.now.cells k < 256) }
    ensures within { result < p.now.width }
    ensures quiet { (x : ℕ) → x < result → spec.fault_at colours.now.tiles.now p.now y x ≡ None }
{
    let height = p.height();
    if small && height - y > 1 {
        colours.count_matched(p.row(y), p.row(y + 1))
    } else {
        0
    }
}

/// The first fault of row y from a cell on.
#[tactic(auto, using(wt_grid::proofs::First::first_more))]
fn fault_from(tiles: &[Tile], p: &Pattern, from: usize, y: usize) -> Option<Fault>
    requires row { y < p.now.height }
    ensures { result ≡ first_from (spec.fault_at tiles.now p.now y) from (p.now.width - from) }
{
    for x in from..p.width() {
        if let Some(fault) = fault_at(tiles, p, x, y) {
            return Some(fault);
        }
    }
    None
}

/// The fault at a cell.
fn fault_at(tiles: &[Tile], p: &Pattern, x: usize, y: usize) -> Option<Fault>
    requires column { x < p.now.width }
    requires row { y < p.now.height }
    ensures { result ≡ spec.fault_at tiles.now p.now y x }
{
    if clashes(tiles, Axis::One, p, x, y) {
        Some(Fault {
            axis: Axis::One,
            x,
            y,
        })
    } else if clashes(tiles, Axis::Two, p, x, y) {
        Some(Fault {
            axis: Axis::Two,
            x,
            y,
        })
    } else {
        None
    }
}

/// Whether a cell has a neighbour ahead along the axis that doesn't match.
fn clashes(tiles: &[Tile], axis: Axis, p: &Pattern, x: usize, y: usize) -> bool
    requires column { x < p.now.width }
    requires row { y < p.now.height }
    ensures { result ≡ spec.clashes tiles.now axis p.now y x }
{
    let width = p.width();
    let height = p.height();
    match axis {
        Axis::One => {
            x + 1 < width && !is_match(tiles, Axis::One, p.cell(x, y), p.cell(x + 1, y))
        }
        Axis::Two => {
            y + 1 < height && !is_match(tiles, Axis::Two, p.cell(x, y), p.cell(x, y + 1))
        }
    }
}
