//! Lengths that no wrapping rectangle has, whatever its other side: lines of that length can't close and be stacked.
ghost use Rattle.std.specs.Prelude.{◌≡◌, ℕ, ◌*◌, ◌<◌, ◌≤◌, true, Some, length, take, slice_index};
ghost use Rattle.wt_grid.specs.Axes.{other};
ghost use Rattle.wt_grid.specs.declared.axis.Axis.{Axis};
ghost use Rattle.wt_lane.specs.Masks.{mask_bit};
ghost use Rattle.wt_mask.specs.Masks.{mask_at};
ghost use Rattle.wt_periodic.specs.Cylinders as spec;
ghost use Rattle.wt_periodic.specs.declared.least.TheConstants.{MAX_CELLS, MAX_LIMIT};
ghost use Rattle.wt_window.specs.Begun.{AllBegun, NoneBegun};
ghost use Rattle.wt_periodic.specs.Fillings.{BeginsLeast};

use crate::least::MAX_CELLS;
use crate::pairs::Pairs;
use wt_lane::and_into;
use wt_mask::next_bit;

/// How many lines are stacked.
const LINES: usize = 64;

/// A tile's mask, or no tile where it has none.
fn mask_of(masks: &[[u64; 4]], tile: u16) -> [u64; 4]
    ensures { (u : ℕ) → tile < length masks.now → mask_bit result u ≡ mask_bit (mask_at masks.now tile) u }
{
    let at = usize::from(tile);
    if at < masks.len() { masks[at] } else { [0; 4] }
}

/// The tiles that stand ahead of the cell before, where a line goes on; else all.
fn goes_on(along: &Pairs<'_>, width: usize, filled: &[u16], at: usize) -> [u64; 4]
    requires wide { 1 ≤ width }
    requires within { at < length filled.now }
    ensures { spec.HasNextTiles along.now.tiles.now along.now.axis width filled.now at result }
{
    if at % width > 0 {
        mask_of(&along.ahead, filled[at - 1])
    } else {
        along.all
    }
}

/// The tiles that stand ahead of the cell of the line before, across the lines, where there is one; else all.
fn stacks(across: &Pairs<'_>, width: usize, filled: &[u16], at: usize) -> [u64; 4]
    requires wide { 1 ≤ width }
    requires within { at < length filled.now }
    ensures { (axis : Axis) → spec.KeepsCylinders across.now.tiles.now across.now.axis axis width filled.now at result }
{
    if width <= at {
        mask_of(&across.ahead, filled[at - width])
    } else {
        across.all
    }
}

/// The tiles that close a line, where a cell is the last of it; else all.
fn closes(along: &Pairs<'_>, width: usize, filled: &[u16], at: usize) -> [u64; 4]
    requires wide { 1 ≤ width }
    requires within { at < length filled.now }
    ensures { spec.HasNextTiles along.now.tiles.now along.now.axis width filled.now at result }
{
    if at % width != width - 1 {
        return along.all;
    }
    if width == 1 {
        return along.selves;
    }
    mask_of(&along.behind, filled[at - (width - 1)])
}

/// The tiles that may stand next in the stack.
fn may_stack(
    along: &Pairs<'_>,
    across: &Pairs<'_>,
    width: usize,
    filled: &[u16],
    at: usize,
) -> [u64; 4]
    requires turned { across.now.axis ≡ other along.now.axis }
    requires same { across.now.tiles.now ≡ along.now.tiles.now }
    requires wide { 1 ≤ width }
    requires within { at < length filled.now }
    ensures { spec.HasNextTiles along.now.tiles.now along.now.axis width filled.now at result }
{
    let mut mask = goes_on(along, width, filled, at);
    and_into(&mut mask, &stacks(across, width, filled, at));
    and_into(&mut mask, &closes(along, width, filled, at));
    mask
}

/// The least tile that may stand in a cell: none is below the first.
fn first_tile(filled: &[u16], at: usize) -> usize
    requires { at < length filled.now }
    ensures { AllBegun at filled.now (BeginsLeast (length filled.now)) (λ g. slice_index g at < result → ⊥) }
{
    if at == 0 { 0 } else { usize::from(filled[0]) }
}

/// Stacks closed lines from a cell on. Some, with what is left of the steps, only where no cylinder begins with
/// what is filled.
fn stack(
    along: &Pairs<'_>,
    across: &Pairs<'_>,
    width: usize,
    filled: &mut [u16],
    at: usize,
    steps: u64,
) -> Option<u64>
    requires turned { across.now.axis ≡ other along.now.axis }
    requires same { across.now.tiles.now ≡ along.now.tiles.now }
    requires wide { 1 ≤ width }
    requires within { at ≤ length filled.old }
    ensures same { take at filled.new ≡ take at filled.old }
    ensures long { length filled.new ≡ length filled.old }
    ensures none { (left : ℕ) → result ≡ Some left
        → NoneBegun at filled.old (spec.IsCylinder along.now.tiles.now along.now.axis width (length filled.old)) }
{
    if steps == 0 || at == filled.len() {
        return None;
    }
    let mut left = steps - 1;
    let fit = may_stack(along, across, width, filled, at);
    let mut from = first_tile(filled, at);
    'tiles: while let Some(tile) = next_bit(&fit, from) {
        filled[at] = tile as u16;
        left = stack(along, across, width, filled, at + 1, left)?;
        from = tile + 1;
    }
    Some(left)
}

/// Whether n steps show that no wrapping rectangle has this length along an axis.
pub fn is_dead(
    along: &Pairs<'_>,
    across: &Pairs<'_>,
    width: usize,
    cells: &mut [u16; MAX_CELLS],
    steps: u64,
) -> bool
    requires turned { across.now.axis ≡ other along.now.axis }
    requires same { across.now.tiles.now ≡ along.now.tiles.now }
    requires wide { 1 ≤ width }
    requires low_width { width ≤ MAX_LIMIT }
    ensures { result ≡ true → spec.IsDead along.now.tiles.now along.now.axis width }
{
    let filled = &mut cells[..width * LINES];
    stack(along, across, width, filled, 0, steps).is_some()
}
