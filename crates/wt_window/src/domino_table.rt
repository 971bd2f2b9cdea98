//! Tables of the pairs that have a window.
ghost use Rattle.std.specs.Prelude.{◌≡◌, ℕ, ◌<◌, ◌≤◌, List, length, false, Err, IfOk, MatchOption};
ghost use Rattle.wt_window.specs.Trials.{window, cells};
ghost use Rattle.wt_window.specs.Frames.{HasAllFillings};
ghost use Rattle.wt_window.specs.Surrounded.{IsRow, IsSpentRow, IsUnmatched, allowed, NoneFollows, IsNextAfter};
ghost use Rattle.wt_window.specs.Outcomes.{MayAnswerTable};

use crate::search::{Found, blocks_for, find, open_masks};
use crate::tables::Tables;
use std::alloc::Global;
use std::marker::Model;
use wt_mask::{has_bit, next_bit, set_bit};
use wt_pattern::{MAX_CELLS, window_shape};
use wt_tile::{Axis, SetRef, is_match};

/// Why no table was made.
#[derive(Clone, Copy, Debug, PartialEq, Eq)]
pub enum TableEnd {
    /// The search of the window of these two tiles took as many trials as the budget, and was not done.
    Spent {
        /// The number of the first tile.
        a: u16,
        /// The number of the second tile, which may stand next to it along the axis.
        b: u16,
    },
    /// No memory was left.
    OutOfMemory,
}

/// Which pairs of tiles have a window: for each tile the mask of those that may follow it. Seen by contracts
/// as the list of these masks.
#[derive(Drop)]
pub struct DominoTable {
    rows: Vec<[u64; 4]>,
}

impl Model for DominoTable {
    ghost use Rattle.std.specs.Prelude.{ℕ, List};

    ghost Value = { List (List ℕ) };

    ghost view = { λ t. t.rows.items };
}

impl DominoTable {
    /// Whether b may follow a. Takes no memory.
    pub fn allows(&self, a: u16, b: u16) -> bool
        ensures { result ≡ allowed self.now a b }
    {
        let a = usize::from(a);
        if a >= self.rows.len() {
            return false;
        }
        has_bit(&self.rows[a], usize::from(b))
    }

    /// The least tile from `from` on that may follow a, or None where none may. Whoever walks the tiles a upwards,
    /// and for each a the tiles that may follow it, meets the pairs in order. Takes no memory.
    pub fn next_after(&self, a: u16, from: u16) -> Option<u16>
        ensures { MatchOption result (NoneFollows self.now a from) (IsNextAfter self.now a from) }
    {
        let a = usize::from(a);
        if a >= self.rows.len() {
            return None;
        }
        match next_bit(&self.rows[a], usize::from(from)) {
            None => None,
            Some(b) => Some(b as u16),
        }
    }
}

/// The tiles that follow a tile in a window, or the first whose window takes too many trials.
fn row(
    tables: &Tables<'_>,
    axis: Axis,
    a: u16,
    radius: u8,
    unplaced: &[[u64; 4]; MAX_CELLS],
    filled: &mut [u16],
    blocks: &mut [[[u64; 4]; MAX_CELLS]],
    budget: u64,
) -> Result<[u64; 4], u16>
    requires radius { radius ≤ 4 }
    requires stand { HasAllFillings tables.now.tiles.now axis radius unplaced.now }
    requires first { a < length tables.now.tiles.now }
    requires long { length filled.old ≡ cells (window axis 0 0 radius) }
    requires room { length filled.old < length blocks.old }
    ensures row { IfOk result (λ mask. IsRow tables.now.tiles.now axis a radius (length tables.now.tiles.now) mask) }
    ensures none { IfOk result (λ mask. IsUnmatched tables.now.tiles.now axis a (length tables.now.tiles.now) budget) }
    ensures spent { (b : ℕ) → result ≡ Err b → IsSpentRow tables.now.tiles.now axis a b radius budget }
{
    let mut mask = [0u64; 4];
    for b in 0..tables.tiles.len() {
        if !is_match(tables.tiles, axis, a, b as u16) {
            continue;
        }
        match find(
            tables, axis, a, b as u16, radius, unplaced, filled, blocks, budget,
        ) {
            Found::Spent => return Err(b as u16),
            Found::Nothing { left: _ } => continue,
            Found::Window => set_bit(&mut mask, b),
        }
    }
    Ok(mask)
}

/// The table that is made with the tables of a set.
fn table_with(
    alloc: Global,
    tables: &Tables<'_>,
    axis: Axis,
    radius: u8,
    budget: u64,
) -> Result<DominoTable, TableEnd>
    requires { radius ≤ 4 }
    ensures { MayAnswerTable tables.now.tiles.now axis radius budget result }
{
    let count = tables.tiles.len();
    let Ok(mut rows) = Vec::with_capacity(alloc, count) else {
        return Err(TableEnd::OutOfMemory);
    };
    let shape = window_shape(axis, radius);
    let unplaced = open_masks(tables, axis, radius);
    let mut cells = [0u16; MAX_CELLS];
    let filled = &mut cells[..shape.0 * shape.1];
    let Ok(mut blocks) = blocks_for(alloc, filled.len()) else {
        return Err(TableEnd::OutOfMemory);
    };
    for a in 0..count {
        match row(
            tables,
            axis,
            a as u16,
            radius,
            &unplaced,
            filled,
            blocks.as_mut_slice(),
            budget,
        ) {
            Err(b) => return Err(TableEnd::Spent { a: a as u16, b }),
            Ok(mask) => {
                let Ok(()) = rows.push(mask) else {
                    return Err(TableEnd::OutOfMemory);
                };
            }
        }
    }
    Ok(DominoTable { rows })
}

/// The table of the pairs that have a window of radius `radius` along the axis: b follows a exactly where
/// their window isn't empty. The windows of the pairs that match are searched by a and then by b, each with
/// the budget. `Spent` at the first pair whose search is not done within it: at budget 0 the first pair that
/// matches, and else only a pair whose window has more trials than the budget (`trials_are_sums`).
#[tactic(auto, using(wt_tile::proofs::Sizes::few_tiles))]
pub fn dominoes(
    alloc: Global,
    set: SetRef<'_>,
    axis: Axis,
    radius: u8,
    budget: u64,
) -> Result<DominoTable, TableEnd>
    requires { radius ≤ 4 }
    ensures { MayAnswerTable set.entry.list.now.tiles axis radius budget result }
{
    let Ok(tables) = Tables::new(alloc, set.tiles()) else {
        return Err(TableEnd::OutOfMemory);
    };
    table_with(alloc, &tables, axis, radius, budget)
}
