//! The least wrapping rectangle of the sizes up to a limit.
ghost use Rattle.std.specs.Prelude.{◌≡◌, ◌*◌, ◌<◌, ◌≤◌, ℕ, List, length, take};
ghost use Rattle.wt_grid.specs.Axes.{other};
ghost use Rattle.wt_grid.specs.declared.axis.Axis.TheVariants.{One, Two};
ghost use Rattle.wt_grid.specs.declared.axis.Axis.{Axis};
ghost use Rattle.wt_tile.specs.declared.tile.Tile.{Tile};
ghost use Rattle.wt_periodic.specs.Cylinders.{AreDead};
ghost use Rattle.wt_periodic.specs.Least as spec;
ghost use Rattle.wt_periodic.specs.Wraps.{HasNoWrapOf};
ghost use Rattle.wt_periodic.specs.declared.search.Size.{Size};

use crate::cylinder::is_dead;
use crate::pairs::Pairs;
use crate::rounds::Rounds;
use crate::search::{Found, Size, find};
use std::alloc::Global;
use wt_pattern::Pattern;
use wt_tile::{Axis, SetRef};

/// The greatest limit of a width and a height.
pub const MAX_LIMIT: usize = 64;

/// The most cells of a rectangle.
pub const MAX_CELLS: usize = MAX_LIMIT * MAX_LIMIT;

/// How many marks of lengths there are: one for each from 0 to the greatest limit.
const MARKS: usize = MAX_LIMIT + 1;

/// The most steps that may be spent on showing that a length is dead.
const MAX_STEPS: u64 = 1 << 28;

/// Why no least wrapping rectangle is known.
#[derive(Clone, Copy, Debug, PartialEq, Eq)]
pub enum WrapEnd {
    /// The search of this size took as many trials as the budget, and was not done.
    Spent {
        /// The width, in tiles.
        w: usize,
        /// The height, in tiles.
        h: usize,
    },
    /// No memory was left.
    OutOfMemory,
}

/// How the search of some sizes ends.
#[derive(Clone, Copy, Debug, PartialEq, Eq)]
enum Reached {
    /// At this size with a wrapping rectangle.
    Wrap { size: Size },
    /// With none.
    Nothing,
    /// At this size with the budget spent.
    Spent { size: Size },
}

/// At the first size up to the limit that has a wrapping rectangle, in the order of the number of cells and then of
/// the width, the one that is least as a list in reading order; None exactly where no size has one and the budget
/// suffices. `Spent` always at budget 0, with 1 and 1, and else only at a size with more trials than the budget,
/// where no earlier size has a wrapping rectangle. A budget of the greatest trials up to the limit is always enough.
#[tactic(auto, using(wt_tile::proofs::Sizes::few_tiles))]
pub fn least_wrap(
    alloc: Global,
    set: SetRef<'_>,
    limit: usize,
    budget: u64,
) -> Result<Option<Pattern>, WrapEnd>
    requires low { 1 ≤ limit }
    requires high { limit ≤ MAX_LIMIT }
    ensures { spec.MayAnswerWrap set.entry.list.now.tiles limit budget result }
{
    if budget == 0 {
        return Err(WrapEnd::Spent { w: 1, h: 1 });
    }
    let Ok(rounds) = Rounds::new(alloc, set.tiles()) else {
        return Err(WrapEnd::OutOfMemory);
    };
    let Ok(one) = Pairs::new(alloc, set, Axis::One) else {
        return Err(WrapEnd::OutOfMemory);
    };
    let Ok(two) = Pairs::new(alloc, set, Axis::Two) else {
        return Err(WrapEnd::OutOfMemory);
    };
    let mut cells = [0u16; MAX_CELLS];
    match first_size(&rounds, &one, &two, limit, &mut cells, budget) {
        Reached::Nothing => Ok(None),
        Reached::Spent { size } => Err(WrapEnd::Spent {
            w: size.width,
            h: size.height,
        }),
        Reached::Wrap { size } => {
            let Ok(found) = Vec::from_slice(alloc, &cells[..size.width * size.height]) else {
                return Err(WrapEnd::OutOfMemory);
            };
            Ok(Some(Pattern::of(size.width, size.height, found)))
        }
    }
}

/// Looks for the first size up to the limit that has a wrapping rectangle, and for the least there. Sizes with a
/// side of a dead length have none.
fn first_size(
    rounds: &Rounds<'_>,
    one: &Pairs<'_>,
    two: &Pairs<'_>,
    limit: usize,
    cells: &mut [u16; MAX_CELLS],
    budget: u64,
) -> Reached
    requires first_axis { one.now.axis ≡ One }
    requires second_axis { two.now.axis ≡ Two }
    requires first_tiles { one.now.tiles.now ≡ rounds.now.tables.tiles.now }
    requires second_tiles { two.now.tiles.now ≡ rounds.now.tables.tiles.now }
    requires high { limit ≤ MAX_LIMIT }
    requires some { 0 < budget }
    ensures wrap { (size : Size) → result ≡ Reached.Wrap size → spec.IsLeastFront rounds.now.tables.tiles.now limit size cells.new }
    ensures nothing { result ≡ Reached.Nothing → spec.HasNone rounds.now.tables.tiles.now limit }
    ensures spent { (size : Size) → result ≡ Reached.Spent size → spec.IsSpentAt rounds.now.tables.tiles.now limit budget size.width size.height }
{
    let mut widths = unmarked();
    let mut heights = unmarked();
    for area in 1..limit * limit + 1 {
        mark_length(
            rounds,
            one,
            two,
            limit,
            area,
            &mut widths,
            &mut heights,
            cells,
            budget,
        );
        match of_area(rounds, limit, area, &widths, &heights, cells, budget) {
            Reached::Nothing => {}
            Reached::Spent { size } => return Reached::Spent { size },
            Reached::Wrap { size } => return Reached::Wrap { size },
        }
    }
    Reached::Nothing
}

/// No length is marked.
fn unmarked() -> [bool; MARKS]
    ensures { (ts : List Tile) (axis : Axis) → AreDead ts axis result }
{
    [false; MARKS]
}

/// Marks a height up to the limit where it is dead, or else the width of the same number, since one dead side is
/// enough for a square.
fn mark_length(
    rounds: &Rounds<'_>,
    one: &Pairs<'_>,
    two: &Pairs<'_>,
    limit: usize,
    length: usize,
    widths: &mut [bool; MARKS],
    heights: &mut [bool; MARKS],
    cells: &mut [u16; MAX_CELLS],
    budget: u64,
)
    requires first_axis { one.now.axis ≡ One }
    requires second_axis { two.now.axis ≡ Two }
    requires first_tiles { one.now.tiles.now ≡ rounds.now.tables.tiles.now }
    requires second_tiles { two.now.tiles.now ≡ rounds.now.tables.tiles.now }
    requires some { 1 ≤ length }
    requires limit { limit ≤ MAX_LIMIT }
    requires widths { AreDead rounds.now.tables.tiles.now One widths.old }
    requires heights { AreDead rounds.now.tables.tiles.now Two heights.old }
    ensures widths { AreDead rounds.now.tables.tiles.now One widths.new }
    ensures heights { AreDead rounds.now.tables.tiles.now Two heights.new }
{
    if length > limit {
        return;
    }
    mark(two, one, length, heights, cells, budget);
    if !heights[length] {
        mark(one, two, length, widths, cells, budget);
    }
}

/// Marks a length along an axis where it is dead, as far as the steps show it.
fn mark(
    along: &Pairs<'_>,
    across: &Pairs<'_>,
    length: usize,
    marks: &mut [bool; MARKS],
    cells: &mut [u16; MAX_CELLS],
    budget: u64,
)
    requires turned { across.now.axis ≡ other along.now.axis }
    requires same { across.now.tiles.now ≡ along.now.tiles.now }
    requires some { 1 ≤ length }
    requires low { length ≤ MAX_LIMIT }
    requires marked { AreDead along.now.tiles.now along.now.axis marks.old }
    ensures { AreDead along.now.tiles.now along.now.axis marks.new }
{
    if is_dead(along, across, length, cells, budget.min(MAX_STEPS)) {
        marks[length] = true;
    }
}

/// Looks for the least wrapping rectangle of n cells, the smallest widths first.
fn of_area(
    rounds: &Rounds<'_>,
    limit: usize,
    area: usize,
    widths: &[bool; MARKS],
    heights: &[bool; MARKS],
    cells: &mut [u16; MAX_CELLS],
    budget: u64,
) -> Reached
    requires widths { AreDead rounds.now.tables.tiles.now One widths.now }
    requires heights { AreDead rounds.now.tables.tiles.now Two heights.now }
    requires low { 1 ≤ area }
    requires high { area ≤ MAX_CELLS }
    requires limit { limit ≤ MAX_LIMIT }
    requires some { 0 < budget }
    requires none { (m n : ℕ) → spec.IsSize limit m n → m * n < area → HasNoWrapOf rounds.now.tables.tiles.now m n }
    ensures wrap { (size : Size) → result ≡ Reached.Wrap size →
        spec.IsLeastFrontOf rounds.now.tables.tiles.now limit area size cells.new }
    ensures nothing { result ≡ Reached.Nothing → (m n : ℕ) → spec.IsSize limit m n → m * n ≡ area → HasNoWrapOf rounds.now.tables.tiles.now m n }
    ensures spent { (size : Size) → result ≡ Reached.Spent size → spec.IsSpentAt rounds.now.tables.tiles.now limit budget size.width size.height }
{
    for width in 1..limit + 1 {
        if area % width != 0 {
            continue;
        }
        let height = area / width;
        if height > limit {
            continue;
        }
        if widths[width] {
            continue;
        }
        if heights[height] {
            continue;
        }
        let size = Size { width, height };
        match find(rounds, size, &mut cells[..area], budget) {
            Found::Wrap => return Reached::Wrap { size },
            Found::Spent => return Reached::Spent { size },
            Found::Nothing { left: _ } => {}
        }
    }
    Reached::Nothing
}
