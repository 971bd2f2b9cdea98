//! What the mask of one cell says of the masks beside it, carried on until nothing changes.
ghost use Rattle.std.specs.Prelude.{◌≡◌, ◌≢◌, ℕ, ◌+◌, ◌*◌, ◌<◌, ◌≤◌, List, false, Option, None};
ghost use Rattle.wt_lane.specs.Masks.{mask_bit};
ghost use Rattle.wt_mask.specs.Masks.{mask_at};
ghost use Rattle.wt_window.specs.Frames.{IsBox, HasAllOf, HasNoFilling, HasWordsTiles, HasSupport, KeepsSupported};

use crate::frame::{Frame, beside};
use crate::tables::Tables;
use wt_lane::{and_into, any};
use wt_mask::{Way, join_into};
use wt_pattern::MAX_CELLS;

/// What was left in a cell's mask: all that was there, fewer tiles, or none.
#[derive(Clone, Copy, Debug, PartialEq, Eq)]
pub enum Change {
    Same,
    Fewer { cell: usize },
    Nothing,
}

// No more masks can change than there are bits in them, and each cell is looked at once more.
const STEPS: u32 = 90 * 257;

const WAYS: [Way; 4] = [Way::Right, Way::Left, Way::Up, Way::Down];

/// Adds to a mask what may stand beside the tiles of one word of 64, from a first one on.
fn join_word(table: &[[u64; 4]], first: usize, word: u64, all: &mut [u64; 4])
    requires { first ≤ 192 }
    ensures old { (u : ℕ) → mask_bit all.old u ≡ 1 → mask_bit all.new u ≡ 1 }
    ensures joined { HasWordsTiles table.now first word all.new }
{
    let mut rest = word;
    'bits: while rest != 0 {
        let tile = first + rest.trailing_zeros() as usize;
        if tile >= table.len() {
            return;
        }
        join_into(all, &table[tile]);
        rest &= rest - 1;
    }
}

/// The tiles that may stand beside one of a mask.
fn support(table: &[[u64; 4]], mask: &[u64; 4]) -> [u64; 4]
    ensures { HasSupport table.now mask.now result }
{
    let mut all = [0u64; 4];
    for word in 0..4 {
        join_word(table, 64 * word, mask[word], &mut all);
    }
    all
}

/// Keeps in a cell's mask the tiles that may stand beside one of another cell's.
fn narrow(table: &[[u64; 4]], masks: &mut [[u64; 4]; MAX_CELLS], from: usize, to: usize) -> Change
    requires from { from < MAX_CELLS }
    requires to { to < MAX_CELLS }
    ensures others { (k : ℕ) → k ≢ to → mask_at masks.new k ≡ mask_at masks.old k }
    ensures kept { KeepsSupported table.now (mask_at masks.old from) (mask_at masks.old to) (mask_at masks.new to) }
    ensures nothing { result ≡ Change.Nothing → (u : ℕ) → u < 256 → mask_bit (mask_at masks.new to) u ≡ 1 → ⊥ }
{
    let mut mask = support(table, &masks[from]);
    and_into(&mut mask, &masks[to]);
    if mask == masks[to] {
        return Change::Same;
    }
    masks[to] = mask;
    if any(&mask) {
        Change::Fewer { cell: to }
    } else {
        Change::Nothing
    }
}

/// Carries a cell's mask on to one side. No tile of a window is dropped.
fn carry(
    tables: &Tables<'_>,
    frame: &Frame,
    masks: &mut [[u64; 4]; MAX_CELLS],
    cell: usize,
    way: Way,
) -> Change
    requires frame { IsBox frame.now.width frame.now.height }
    requires low { cell < frame.now.width * frame.now.height }
    ensures kept { HasAllOf tables.now.tiles.now frame.now.width frame.now.height masks.old masks.new }
    ensures nothing { result ≡ Change.Nothing → HasNoFilling tables.now.tiles.now frame.now.width frame.now.height masks.old }
{
    let Some(to) = beside(frame, cell, way) else {
        return Change::Same;
    };
    if to >= 90 {
        return Change::Same;
    }
    narrow(tables.beside(way), masks, cell, to)
}

/// Carries a cell's mask on to all sides: the cells whose masks changed, or None where one has nothing left.
fn spread(
    tables: &Tables<'_>,
    frame: &Frame,
    masks: &mut [[u64; 4]; MAX_CELLS],
    cell: usize,
) -> Option<u128>
    requires frame { IsBox frame.now.width frame.now.height }
    requires low { cell < frame.now.width * frame.now.height }
    ensures kept { HasAllOf tables.now.tiles.now frame.now.width frame.now.height masks.old masks.new }
    ensures nothing { result ≡ None → HasNoFilling tables.now.tiles.now frame.now.width frame.now.height masks.old }
{
    let mut changed = 0u128;
    for way in WAYS {
        match carry(tables, frame, masks, cell, way) {
            Change::Same => {}
            Change::Fewer { cell } => {
                if cell < 128 {
                    changed |= 1u128 << cell;
                }
            }
            Change::Nothing => return None,
        }
    }
    Some(changed)
}

/// Carries the masks of changed cells on until no mask changes: whether each has a tile left. No tile of a
/// window is dropped.
pub fn propagate(
    tables: &Tables<'_>,
    frame: &Frame,
    masks: &mut [[u64; 4]; MAX_CELLS],
    changed: u128,
) -> bool
    requires frame { IsBox frame.now.width frame.now.height }
    ensures kept { HasAllOf tables.now.tiles.now frame.now.width frame.now.height masks.old masks.new }
    ensures nothing { result ≡ false → HasNoFilling tables.now.tiles.now frame.now.width frame.now.height masks.old }
{
    let count = frame.width * frame.height;
    let mut changed = changed;
    'steps: for _ in 0..STEPS {
        if changed == 0 {
            return true;
        }
        let cell = changed.trailing_zeros() as usize;
        changed &= changed - 1;
        if cell >= count {
            continue;
        }
        match spread(tables, frame, masks, cell) {
            None => return false,
            Some(more) => changed |= more,
        }
    }
    true
}
