//! The least window round two tiles.
ghost use Rattle.std.specs.Prelude.{◌≡◌, ◌<◌, ◌≤◌, length, true};
ghost use Rattle.wt_tile.specs.Matching.{matches};
ghost use Rattle.wt_window.specs.Outcomes.{MayAnswerWindow};

use crate::search::{Found, blocks_for, find, open_masks};
use crate::tables::Tables;
use std::alloc::Global;
use wt_pattern::{MAX_CELLS, Pattern, window_shape};
use wt_tile::{Axis, SetRef};

/// Why no window is known.
#[derive(Clone, Copy, Debug, PartialEq, Eq)]
pub enum WindowEnd {
    /// The search took as many trials as the budget, and was not done.
    Spent,
    /// No memory was left.
    OutOfMemory,
}

/// The least window of two tiles, searched with the tables of their set.
fn least_window(
    alloc: Global,
    tables: &Tables<'_>,
    axis: Axis,
    a: u16,
    b: u16,
    radius: u8,
    budget: u64,
) -> Result<Option<Pattern>, WindowEnd>
    requires radius { radius ≤ 4 }
    requires first { a < length tables.now.tiles.now }
    requires second { b < length tables.now.tiles.now }
    requires matched { matches tables.now.tiles.now axis a b ≡ true }
    requires some { 0 < budget }
    ensures { MayAnswerWindow tables.now.tiles.now axis a b radius budget result }
{
    let shape = window_shape(axis, radius);
    let unplaced = open_masks(tables, axis, radius);
    let mut cells = [0u16; MAX_CELLS];
    let filled = &mut cells[..shape.0 * shape.1];
    let Ok(mut blocks) = blocks_for(alloc, filled.len()) else {
        return Err(WindowEnd::OutOfMemory);
    };
    match find(
        tables,
        axis,
        a,
        b,
        radius,
        &unplaced,
        filled,
        blocks.as_mut_slice(),
        budget,
    ) {
        Found::Spent => Err(WindowEnd::Spent),
        Found::Nothing { left: _ } => Ok(None),
        Found::Window => match Vec::from_slice(alloc, filled) {
            Ok(cells) => Ok(Some(Pattern::of(shape.0, shape.1, cells))),
            Err(_) => Err(WindowEnd::OutOfMemory),
        },
    }
}

/// The window of radius `radius` round a and b, b following a along the axis, that is least as a list in
/// reading order; None exactly where there is none and the budget suffices. Tiles that don't match have
/// none, whatever the budget. For tiles that match `Spent` always at budget 0, and else only where the window
/// has more trials than the budget (`trials_are_sums`).
#[tactic(auto, using(wt_tile::proofs::Sizes::few_tiles))]
pub fn surround(
    alloc: Global,
    set: SetRef<'_>,
    axis: Axis,
    a: u16,
    b: u16,
    radius: u8,
    budget: u64,
) -> Result<Option<Pattern>, WindowEnd>
    requires radius { radius ≤ 4 }
    requires first { a < length set.list.now.tiles }
    requires second { b < length set.list.now.tiles }
    ensures { MayAnswerWindow set.entry.list.now.tiles axis a b radius budget result }
{
    if !set.matches(axis, a, b) {
        return Ok(None);
    }
    if budget == 0 {
        return Err(WindowEnd::Spent);
    }
    let Ok(tables) = Tables::new(alloc, set.tiles()) else {
        return Err(WindowEnd::OutOfMemory);
    };
    least_window(alloc, &tables, axis, a, b, radius, budget)
}
