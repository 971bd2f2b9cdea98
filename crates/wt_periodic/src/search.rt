//! The search of a wrapping rectangle of one size, depth first in reading order.
ghost use Rattle.std.specs.Prelude.{◌≡◌, ℕ, ◌+◌, ◌-◌, ◌*◌, ◌%◌, ◌<◌, ◌≤◌, length, take, slice_index, slice_set};
ghost use Rattle.wt_grid.specs.declared.axis.Axis.TheVariants.{Two};
ghost use Rattle.wt_tile.specs.Matching.{matches};
ghost use Rattle.wt_lane.specs.Masks.{mask_bit};
ghost use Rattle.wt_window.specs.Trials as trial;
ghost use Rattle.wt_periodic.specs.Fillings as spec;
ghost use Rattle.wt_periodic.specs.declared.least.TheConstants.{MAX_LIMIT};
ghost use Rattle.wt_periodic.specs.Least.{IsLeastOf, sized};
ghost use Rattle.wt_periodic.specs.Wraps.{HasNoWrapOf};
ghost use Rattle.wt_window.specs.Frames.{HasThose, HasThoseBehind};
ghost use Rattle.wt_window.specs.Begun.{AllBegun, LeadsBegun, NoneBegun};
ghost use Rattle.wt_periodic.specs.Fillings.{BeginsLeast};

use crate::rounds::Rounds;
use wt_lane::and_into;
use wt_mask::next_bit;

/// How a search of one size ends.
#[derive(Clone, Copy, Debug, PartialEq, Eq)]
pub enum Found {
    /// With a wrapping rectangle.
    Wrap,
    /// With none.
    Nothing {
        /// What is left of the budget, in trials.
        left: u64,
    },
    /// With the budget spent.
    Spent,
}

/// The width and the height of a rectangle.
#[derive(Clone, Copy, Debug, PartialEq, Eq)]
pub struct Size {
    /// In tiles.
    pub width: usize,
    /// In tiles.
    pub height: usize,
}

/// The tiles that match the one to the left of a cell.
fn beside_left(rounds: &Rounds<'_>, size: Size, filled: &[u16], at: usize) -> [u64; 4]
    requires wide { 1 ≤ size.width }
    requires within { at < length filled.now }
    requires tiles { (k : ℕ) → k < at → slice_index filled.now k < length rounds.now.tables.tiles.now }
    ensures { HasThoseBehind trial.fits_left rounds.now.tables.tiles.now (spec.open_window size.width size.height) (take at filled.now) result }
{
    if at % size.width > 0 {
        rounds.tables.right[usize::from(filled[at - 1])]
    } else {
        rounds.tables.all
    }
}

/// The tiles that match the one below a cell.
fn beside_below(rounds: &Rounds<'_>, size: Size, filled: &[u16], at: usize) -> [u64; 4]
    requires wide { 1 ≤ size.width }
    requires within { at < length filled.now }
    requires tiles { (k : ℕ) → k < at → slice_index filled.now k < length rounds.now.tables.tiles.now }
    ensures { HasThoseBehind trial.fits_below rounds.now.tables.tiles.now (spec.open_window size.width size.height) (take at filled.now) result }
{
    if size.width <= at {
        rounds.tables.up[usize::from(filled[at - size.width])]
    } else {
        rounds.tables.all
    }
}

/// The tiles that close a row, where a cell is the last of it, else all tiles.
fn row_closers(rounds: &Rounds<'_>, size: Size, filled: &[u16], at: usize) -> [u64; 4]
    requires wide { 1 ≤ size.width }
    requires within { at < length filled.now }
    requires tiles { (k : ℕ) → k < at → slice_index filled.now k < length rounds.now.tables.tiles.now }
    ensures { HasThose (length rounds.now.tables.tiles.now) (spec.closes_row rounds.now.tables.tiles.now size.width (take at filled.now)) result }
{
    if at % size.width != size.width - 1 {
        return rounds.tables.all;
    }
    if size.width == 1 {
        return rounds.selves1;
    }
    rounds.tables.left[usize::from(filled[at - (size.width - 1)])]
}

/// The tiles that close a column, where a cell is in the last row, else all tiles.
fn column_closers(rounds: &Rounds<'_>, size: Size, filled: &[u16], at: usize) -> [u64; 4]
    requires wide { 1 ≤ size.width }
    requires high { 1 ≤ size.height }
    requires low_width { size.width ≤ MAX_LIMIT }
    requires low_height { size.height ≤ MAX_LIMIT }
    requires long { length filled.now ≡ size.width * size.height }
    requires within { at < length filled.now }
    requires tiles { (k : ℕ) → k < at → slice_index filled.now k < length rounds.now.tables.tiles.now }
    ensures { HasThose (length rounds.now.tables.tiles.now) (spec.closes_column rounds.now.tables.tiles.now size.width size.height (take at filled.now)) result }
{
    let last = filled.len() - size.width;
    if at < last {
        return rounds.tables.all;
    }
    if size.height == 1 {
        return rounds.selves2;
    }
    below(rounds, filled[at - last])
}

/// The tiles that may stand below a tile.
fn below(rounds: &Rounds<'_>, tile: u16) -> [u64; 4]
    requires { tile < length rounds.now.tables.tiles.now }
    ensures { HasThose (length rounds.now.tables.tiles.now) (λ t. matches rounds.now.tables.tiles.now Two t tile) result }
{
    rounds.tables.down[usize::from(tile)]
}

/// The tiles that may follow the first cells of a filling and close what they have to.
fn closers(rounds: &Rounds<'_>, size: Size, filled: &[u16], at: usize) -> [u64; 4]
    requires wide { 1 ≤ size.width }
    requires high { 1 ≤ size.height }
    requires low_width { size.width ≤ MAX_LIMIT }
    requires low_height { size.height ≤ MAX_LIMIT }
    requires long { length filled.now ≡ size.width * size.height }
    requires within { at < length filled.now }
    requires begun { spec.IsClosed rounds.now.tables.tiles.now size.width size.height at (take at filled.now) }
    ensures sound { (t : ℕ) → mask_bit result t ≡ 1 → spec.IsClosing rounds.now.tables.tiles.now size.width size.height (take at filled.now) t }
    ensures complete { AllBegun at filled.now (spec.IsSought rounds.now.tables.tiles.now size.width size.height) (spec.HasNext at result) }
{
    let mut mask = beside_left(rounds, size, filled, at);
    and_into(&mut mask, &beside_below(rounds, size, filled, at));
    and_into(&mut mask, &row_closers(rounds, size, filled, at));
    and_into(&mut mask, &column_closers(rounds, size, filled, at));
    mask
}

/// Fills a cell with a tile that may follow.
fn fill(rounds: &Rounds<'_>, size: Size, filled: &mut [u16], at: usize, tile: usize)
    requires wide { 1 ≤ size.width }
    requires high { 1 ≤ size.height }
    requires long { length filled.old ≡ size.width * size.height }
    requires within { at < length filled.old }
    requires begun { spec.IsClosed rounds.now.tables.tiles.now size.width size.height at (take at filled.old) }
    requires next { spec.IsClosing rounds.now.tables.tiles.now size.width size.height (take at filled.old) tile }
    ensures filled { filled.new ≡ slice_set filled.old at tile }
    ensures begun { spec.IsClosed rounds.now.tables.tiles.now size.width size.height (at + 1) (take (at + 1) filled.new) }
{
    filled[at] = tile as u16;
}

/// The least tile that may stand in a cell: none is below the first of the rectangle.
fn least_tile(rounds: &Rounds<'_>, filled: &[u16], at: usize) -> usize
    requires within { at < length filled.now }
    requires tiles { (k : ℕ) → k < at → slice_index filled.now k < length rounds.now.tables.tiles.now }
    ensures low { result ≤ length rounds.now.tables.tiles.now }
    ensures none_below { AllBegun at filled.now (BeginsLeast (length filled.now)) (λ g. slice_index g at < result → ⊥) }
{
    if at == 0 { 0 } else { usize::from(filled[0]) }
}

/// Fills the cells from one on, the least tiles first.
fn search(rounds: &Rounds<'_>, size: Size, filled: &mut [u16], at: usize, budget: u64) -> Found
    requires wide { 1 ≤ size.width }
    requires high { 1 ≤ size.height }
    requires low_width { size.width ≤ MAX_LIMIT }
    requires low_height { size.height ≤ MAX_LIMIT }
    requires long { length filled.old ≡ size.width * size.height }
    requires within { at ≤ length filled.old }
    requires begun { spec.IsClosed rounds.now.tables.tiles.now size.width size.height at (take at filled.old) }
    ensures same { take at filled.new ≡ take at filled.old }
    ensures wrap { result ≡ Found.Wrap → spec.IsClosed rounds.now.tables.tiles.now size.width size.height (size.width * size.height) filled.new }
    ensures least { result ≡ Found.Wrap → LeadsBegun at filled.old (spec.IsSought rounds.now.tables.tiles.now size.width size.height) filled.new }
    ensures nothing { (left : ℕ) → result ≡ Found.Nothing left
        → NoneBegun at filled.old (spec.IsSought rounds.now.tables.tiles.now size.width size.height) }
    ensures paid { (left : ℕ) → result ≡ Found.Nothing left
        → budget ≤ left + spec.trials_left rounds.now.tables.tiles.now size.width size.height at filled.old }
    ensures spent { result ≡ Found.Spent
        → budget < spec.trials_left rounds.now.tables.tiles.now size.width size.height at filled.old }
{
    if budget == 0 {
        return Found::Spent;
    }
    let mut left = budget - 1;
    if at == filled.len() {
        return Found::Wrap;
    }
    let fit = closers(rounds, size, filled, at);
    let mut from = least_tile(rounds, filled, at);
    'tiles: while let Some(tile) = next_bit(&fit, from) {
        fill(rounds, size, filled, at, tile);
        match search(rounds, size, filled, at + 1, left) {
            Found::Nothing { left: rest } => left = rest,
            Found::Wrap => return Found::Wrap,
            Found::Spent => return Found::Spent,
        }
        from = tile + 1;
    }
    Found::Nothing { left }
}

/// Looks for the least wrapping rectangle of a size.
pub fn find(rounds: &Rounds<'_>, size: Size, filled: &mut [u16], budget: u64) -> Found
    requires wide { 1 ≤ size.width }
    requires high { 1 ≤ size.height }
    requires low_width { size.width ≤ MAX_LIMIT }
    requires low_height { size.height ≤ MAX_LIMIT }
    requires long { length filled.old ≡ size.width * size.height }
    ensures long { length filled.new ≡ length filled.old }
    ensures wrap { result ≡ Found.Wrap → IsLeastOf rounds.now.tables.tiles.now size.width size.height (sized size filled.new) }
    ensures nothing { (left : ℕ) → result ≡ Found.Nothing left → HasNoWrapOf rounds.now.tables.tiles.now size.width size.height }
    ensures spent { result ≡ Found.Spent → budget < spec.wrap_trials rounds.now.tables.tiles.now size.width size.height }
{
    search(rounds, size, filled, 0, budget)
}
