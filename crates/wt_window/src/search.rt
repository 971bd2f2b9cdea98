//! The search of a window, depth first in reading order.
ghost use Rattle.std.specs.Prelude.{◌≡◌, ◌≢◌, ℕ, ◌+◌, ◌-◌, ◌*◌, ◌%◌, ◌<◌, ◌≤◌, true, List, length, take, slice_index, slice_set, nat_eq, IfOk};
ghost use Rattle.wt_lane.specs.Masks.{mask_bit};
ghost use Rattle.wt_window.specs.Trials.{IsFilling, cells, may_follow, implies, trials, trials_after, shaped};
ghost use Rattle.wt_window.specs.Trials as spec;
ghost use Rattle.wt_mask.specs.Masks.{mask_at};
ghost use Rattle.wt_window.specs.Frames.{frame_window, Stand, IsFrame, IsNext, IsWhole, HasAllFillings, HasAllFrom, HasThose, HasThoseBehind};
ghost use Rattle.wt_window.specs.Surrounded.{IsLeastWindow};
ghost use Rattle.wt_pattern.specs.Windows.{IsEmptyWindow};
ghost use Rattle.wt_window.specs.Begun.{Leads, LeadsBegun, NoneBegun};

use crate::carry::propagate;
use crate::frame::{Frame, frame_of};
use crate::tables::Tables;
use std::alloc::{AllocError, Global};
use wt_grid::MAX_TILES;
use wt_lane::and_into;
use wt_mask::{next_bit, single};
use wt_pattern::MAX_CELLS;
use wt_tile::Axis;

/// How a search ends: with a window, with none and so much left of the budget, or with the budget spent.
#[derive(Clone, Copy, Debug, PartialEq, Eq)]
pub enum Found {
    Window,
    Nothing { left: u64 },
    Spent,
}

/// The tiles that match the one to the left of a cell.
fn beside_left(tables: &Tables<'_>, frame: &Frame, filled: &[u16], at: usize) -> [u64; 4]
    requires frame { IsFrame (length tables.now.tiles.now) (frame_window frame.now) }
    requires within { at < length filled.now }
    requires tiles { (k : ℕ) → k < at → slice_index filled.now k < length tables.now.tiles.now }
    ensures { HasThoseBehind spec.fits_left tables.now.tiles.now (frame_window frame.now) (take at filled.now) result }
{
    if at % frame.width > 0 {
        tables.right[usize::from(filled[at - 1])]
    } else {
        tables.all
    }
}

/// The tiles that match the one below a cell.
fn beside_below(tables: &Tables<'_>, frame: &Frame, filled: &[u16], at: usize) -> [u64; 4]
    requires frame { IsFrame (length tables.now.tiles.now) (frame_window frame.now) }
    requires within { at < length filled.now }
    requires tiles { (k : ℕ) → k < at → slice_index filled.now k < length tables.now.tiles.now }
    ensures { HasThoseBehind spec.fits_below tables.now.tiles.now (frame_window frame.now) (take at filled.now) result }
{
    if frame.width <= at {
        tables.up[usize::from(filled[at - frame.width])]
    } else {
        tables.all
    }
}

/// The one tile that may stand in a cell if it is this one, else all tiles.
fn pinned(tables: &Tables<'_>, cell: usize, tile: u16, at: usize) -> [u64; 4]
    requires { tile < length tables.now.tiles.now }
    ensures { HasThose (length tables.now.tiles.now) (λ t. implies (nat_eq at cell) (nat_eq t tile)) result }
{
    if at == cell {
        single(usize::from(tile))
    } else {
        tables.all
    }
}

/// The tiles that may follow the first cells of a filling.
fn followers(tables: &Tables<'_>, frame: &Frame, filled: &[u16], at: usize) -> [u64; 4]
    requires frame { IsFrame (length tables.now.tiles.now) (frame_window frame.now) }
    requires within { at < length filled.now }
    requires tiles { (k : ℕ) → k < at → slice_index filled.now k < length tables.now.tiles.now }
    ensures { HasThoseBehind may_follow tables.now.tiles.now (frame_window frame.now) (take at filled.now) result }
{
    let mut mask = beside_left(tables, frame, filled, at);
    and_into(&mut mask, &beside_below(tables, frame, filled, at));
    and_into(&mut mask, &pinned(tables, frame.first, frame.a, at));
    and_into(&mut mask, &pinned(tables, frame.second, frame.b, at));
    mask
}

/// Leaves one tile alone in a cell's mask.
fn place(masks: &mut [[u64; 4]; MAX_CELLS], at: usize, tile: usize)
    requires at { at < MAX_CELLS }
    requires tile { tile < MAX_TILES }
    ensures same { (k : ℕ) → k ≢ at → mask_at masks.new k ≡ mask_at masks.old k }
    ensures alone { mask_bit (mask_at masks.new at) tile ≡ 1 }
{
    masks[at] = single(tile);
}

/// Fills a cell with a tile that may follow, and leaves it alone in the cell's mask.
fn fill(
    tables: &Tables<'_>,
    frame: &Frame,
    filled: &mut [u16],
    at: usize,
    masks: &mut [[u64; 4]; MAX_CELLS],
    tile: usize,
)
    requires frame { IsFrame (length tables.now.tiles.now) (frame_window frame.now) }
    requires long { length filled.old ≡ cells (frame_window frame.now) }
    requires within { at < length filled.old }
    requires begun { IsFilling tables.now.tiles.now (frame_window frame.now) at (take at filled.old) }
    requires next { IsNext tables.now.tiles.now (frame_window frame.now) (take at filled.old) tile }
    requires whole { HasAllFrom tables.now.tiles.now frame.now at filled.old masks.old }
    ensures filled { filled.new ≡ slice_set filled.old at tile }
    ensures begun { IsFilling tables.now.tiles.now (frame_window frame.now) (at + 1) (take (at + 1) filled.new) }
    ensures whole { HasAllFrom tables.now.tiles.now frame.now (at + 1) filled.new masks.new }
{
    filled[at] = tile as u16;
    place(masks, at, tile);
}

/// Whether a mask has a tile from this one on.
fn has_from(mask: &[u64; 4], from: usize) -> bool
    ensures { (t : ℕ) → from ≤ t → mask_bit mask.now t ≡ 1 → result ≡ true }
{
    next_bit(mask, from).is_some()
}

/// Copies masks, where they are wanted again.
fn copy_if(wanted: bool, from: &[[u64; 4]; MAX_CELLS], to: &mut [[u64; 4]; MAX_CELLS])
    ensures { wanted ≡ true → to.new ≡ from.now }
{
    if wanted {
        *to = *from;
    }
}

/// Fills the cells from one on, the least tiles first, where the masks have all tiles of the windows that
/// begin with what is filled. A block to spare for each cell keeps the masks while a tile is tried, where
/// another may have to be tried after it.
fn search(
    tables: &Tables<'_>,
    frame: &Frame,
    filled: &mut [u16],
    at: usize,
    masks: &mut [[u64; 4]; MAX_CELLS],
    spare: &mut [[[u64; 4]; MAX_CELLS]],
    changed: u128,
    budget: u64,
) -> Found
    requires frame { IsFrame (length tables.now.tiles.now) (frame_window frame.now) }
    requires long { length filled.old ≡ cells (frame_window frame.now) }
    requires within { at ≤ length filled.old }
    requires room { length filled.old ≤ at + length spare.old }
    requires begun { IsFilling tables.now.tiles.now (frame_window frame.now) at (take at filled.old) }
    requires whole { HasAllFrom tables.now.tiles.now frame.now at filled.old masks.old }
    ensures same { take at filled.new ≡ take at filled.old }
    ensures window { result ≡ Found.Window → IsWhole tables.now.tiles.now frame.now filled.new }
    ensures least { result ≡ Found.Window → LeadsBegun at filled.old (IsWhole tables.now.tiles.now frame.now) filled.new }
    ensures nothing { (left : ℕ) → result ≡ Found.Nothing left → NoneBegun at filled.old (IsWhole tables.now.tiles.now frame.now) }
    ensures paid { (left : ℕ) → result ≡ Found.Nothing left
        → budget ≤ left + trials_after tables.now.tiles.now (frame_window frame.now) at filled.old }
    ensures at_zero { budget ≡ 0 → result ≡ Found.Spent }
    ensures spent { result ≡ Found.Spent → budget < trials_after tables.now.tiles.now (frame_window frame.now) at filled.old }
{
    if budget == 0 {
        return Found::Spent;
    }
    let mut left = budget - 1;
    if !propagate(tables, frame, masks, changed) {
        return Found::Nothing { left };
    }
    if at == filled.len() {
        return Found::Window;
    }
    let Some((kept, spare)) = spare.split_first_mut() else {
        unreachable!()
    };
    let mut fit = followers(tables, frame, filled, at);
    and_into(&mut fit, &masks[at]);
    let mut from = 0usize;
    'tiles: while let Some(tile) = next_bit(&fit, from) {
        let again = has_from(&fit, tile + 1);
        copy_if(again, masks, kept);
        let before = masks[at];
        fill(tables, frame, filled, at, masks, tile);
        let news = if masks[at] == before { 0 } else { 1u128 << at };
        match search(tables, frame, filled, at + 1, masks, spare, news, left) {
            Found::Nothing { left: rest } => left = rest,
            Found::Window => return Found::Window,
            Found::Spent => return Found::Spent,
        }
        copy_if(again, kept, masks);
        from = tile + 1;
    }
    Found::Nothing { left }
}

/// The masks of a window before its two tiles are placed: those of all tiles, carried on.
pub fn open_masks(tables: &Tables<'_>, axis: Axis, radius: u8) -> [[u64; 4]; MAX_CELLS]
    requires { radius ≤ 4 }
    ensures { HasAllFillings tables.now.tiles.now axis radius result }
{
    let frame = frame_of(axis, 0, 0, radius);
    let mut masks = [tables.all; MAX_CELLS];
    propagate(tables, &frame, &mut masks, u128::MAX);
    masks
}

/// Looks for the least window of a frame. A block for each cell, and one more, serve the search.
fn find_in(
    tables: &Tables<'_>,
    frame: &Frame,
    unplaced: &[[u64; 4]; MAX_CELLS],
    filled: &mut [u16],
    blocks: &mut [[[u64; 4]; MAX_CELLS]],
    budget: u64,
) -> Found
    requires frame { IsFrame (length tables.now.tiles.now) (frame_window frame.now) }
    requires stand { (g : List ℕ) → IsWhole tables.now.tiles.now frame.now g → Stand unplaced.now g }
    requires long { length filled.old ≡ cells (frame_window frame.now) }
    requires room { length filled.old < length blocks.old }
    ensures window { result ≡ Found.Window → IsWhole tables.now.tiles.now frame.now filled.new }
    ensures least { result ≡ Found.Window → Leads (IsWhole tables.now.tiles.now frame.now) filled.new }
    ensures nothing { (left : ℕ) → result ≡ Found.Nothing left → (g : List ℕ) → IsWhole tables.now.tiles.now frame.now g → ⊥ }
    ensures at_zero { budget ≡ 0 → result ≡ Found.Spent }
    ensures spent { result ≡ Found.Spent → budget < trials tables.now.tiles.now (frame_window frame.now) }
{
    let Some((masks, spare)) = blocks.split_first_mut() else {
        unreachable!()
    };
    *masks = *unplaced;
    place(masks, frame.first, usize::from(frame.a));
    place(masks, frame.second, usize::from(frame.b));
    let changed = 1u128 << frame.first | 1u128 << frame.second;
    search(tables, frame, filled, 0, masks, spare, changed, budget)
}

/// The blocks of masks that searches of windows of so many cells take, a block for each cell and one more.
pub fn blocks_for(alloc: Global, cells: usize) -> Result<Vec<[[u64; 4]; MAX_CELLS]>, AllocError>
    requires { cells ≤ MAX_CELLS }
    ensures { IfOk result (λ blocks. cells < length blocks.items) }
{
    let empty = [[0u64; 4]; MAX_CELLS];
    let mut blocks = Vec::with_capacity(alloc, cells + 1)?;
    'growth: while blocks.len() <= cells {
        blocks.push(empty)?;
    }
    Ok(blocks)
}

/// Looks for the least window of radius `radius` round a and b, b following a along the axis.
pub fn find(
    tables: &Tables<'_>,
    axis: Axis,
    a: u16,
    b: u16,
    radius: u8,
    unplaced: &[[u64; 4]; MAX_CELLS],
    filled: &mut [u16],
    blocks: &mut [[[u64; 4]; MAX_CELLS]],
    budget: u64,
) -> Found
    requires radius { radius ≤ 4 }
    requires stand { HasAllFillings tables.now.tiles.now axis radius unplaced.now }
    requires first { a < length tables.now.tiles.now }
    requires second { b < length tables.now.tiles.now }
    requires long { length filled.old ≡ cells (spec.window axis a b radius) }
    requires room { length filled.old < length blocks.old }
    ensures window { result ≡ Found.Window
        → IsLeastWindow tables.now.tiles.now axis a b radius (shaped (spec.window axis a b radius) filled.new) }
    ensures nothing { (left : ℕ) → result ≡ Found.Nothing left → IsEmptyWindow tables.now.tiles.now axis a b radius }
    ensures at_zero { budget ≡ 0 → result ≡ Found.Spent }
    ensures spent { result ≡ Found.Spent → budget < trials tables.now.tiles.now (spec.window axis a b radius) }
{
    let frame = frame_of(axis, a, b, radius);
    find_in(tables, &frame, unplaced, filled, blocks, budget)
}
