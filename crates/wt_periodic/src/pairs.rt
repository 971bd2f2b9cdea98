//! The pairs of tiles that stand in a window. In a rectangle that wraps round each pair of neighbours does, since
//! the rectangle goes on round it.
ghost use Rattle.std.specs.Prelude.{◌≡◌, ℕ, ◌<◌, ◌≤◌, ◌&&◌, true, length, IfOk, nat_lt};
ghost use Rattle.wt_lane.specs.Masks.{mask_bit};
ghost use Rattle.wt_mask.specs.Masks.{bit};
ghost use Rattle.wt_periodic.specs.Cylinders as spec;
ghost use Rattle.wt_window.specs.Frames.{HasThose};

use std::alloc::{AllocError, Global};
use wt_mask::set_bit;
use wt_tile::{Axis, SetRef, Tile, is_match};
use wt_window::{DominoTable, TableEnd, dominoes};

/// The radius of the windows.
pub const RADIUS: u8 = 1;

/// The most trials that the search of one window may take. Where one takes more, all pairs that match are taken.
const MAX_TRIALS: u64 = 4096;

/// For each tile of a set, the masks of the tiles that stand ahead of it and behind it in windows along an axis.
#[derive(Drop)]
pub struct Pairs<'a> {
    /// The tiles of the set, at most 256.
    pub tiles: &'a [Tile],
    /// The axis along which they stand.
    pub axis: Axis,
    /// The mask of all tiles.
    pub all: [u64; 4],
    /// For each tile those that stand ahead of it.
    pub ahead: Vec<[u64; 4]>,
    /// For each tile those that stand behind it.
    pub behind: Vec<[u64; 4]>,
    /// The tiles that stand ahead of themselves.
    pub selves: [u64; 4],
    pub ghost few: { length tiles.now ≤ 256 },
    pub ghost whole: { (u : ℕ) → mask_bit all u ≡ bit (nat_lt u (length tiles.now)) },
    pub ghost has_ahead: { spec.HasAhead tiles.now axis ahead.items },
    pub ghost has_behind: { spec.HasBehind tiles.now axis behind.items },
    pub ghost has_selves: { spec.HasSelves tiles.now axis selves },
}

impl<'a> Pairs<'a> {
    /// The pairs of a set along an axis. Fails only where memory runs out.
    #[tactic(auto, using(wt_tile::proofs::Sizes::few_tiles))]
    pub fn new(alloc: Global, set: SetRef<'a>, axis: Axis) -> Result<Pairs<'a>, AllocError>
        ensures { IfOk result (λ made. (made.tiles.now ≡ set.entry.list.now.tiles) × (made.axis ≡ axis)) }
    {
        let table = match dominoes(alloc, set, axis, RADIUS, MAX_TRIALS) {
            Ok(table) => Some(table),
            Err(TableEnd::Spent { a: _, b: _ }) => None,
            Err(TableEnd::OutOfMemory) => return Err(AllocError),
        };
        pairs_of(alloc, set.tiles(), axis, &table)
    }
}

/// The pairs that a table has, or all that match where there is no table.
fn pairs_of<'a>(
    alloc: Global,
    tiles: &'a [Tile],
    axis: Axis,
    table: &Option<DominoTable>,
) -> Result<Pairs<'a>, AllocError>
    requires few { length tiles.now ≤ 256 }
    requires told { (t u : ℕ) → spec.IsPair tiles.now axis t u → spec.stands table.now tiles.now axis t u ≡ true }
    ensures { IfOk result (λ made. (made.tiles.now ≡ tiles.now) × (made.axis ≡ axis)) }
{
    let ahead = masks(alloc, table, tiles, axis, false)?;
    let behind = masks(alloc, table, tiles, axis, true)?;
    let selves = selves(table, tiles, axis);
    Ok(Pairs {
        tiles,
        axis,
        all: all_tiles(tiles),
        ahead,
        behind,
        selves,
    })
}

/// Whether u stands ahead of t.
fn stands(table: &Option<DominoTable>, tiles: &[Tile], axis: Axis, t: u16, u: u16) -> bool
    ensures { result ≡ spec.stands table.now tiles.now axis t u }
{
    match table {
        Some(table) => table.allows(t, u),
        None => is_match(tiles, axis, t, u),
    }
}

/// Whether u stands ahead of t, or behind it.
fn stands_beside(
    table: &Option<DominoTable>,
    tiles: &[Tile],
    axis: Axis,
    behind: bool,
    t: u16,
    u: u16,
) -> bool
    ensures { result ≡ spec.stands_beside table.now tiles.now axis behind t u }
{
    if behind {
        stands(table, tiles, axis, u, t)
    } else {
        stands(table, tiles, axis, t, u)
    }
}

/// The mask of the tiles that stand ahead of a tile, or behind it.
fn mask_beside(
    table: &Option<DominoTable>,
    tiles: &[Tile],
    axis: Axis,
    behind: bool,
    t: u16,
) -> [u64; 4]
    requires { length tiles.now ≤ 256 }
    ensures { HasThose (length tiles.now) (spec.stands_beside table.now tiles.now axis behind t) result }
{
    let mut mask = [0u64; 4];
    for u in 0..tiles.len() {
        if stands_beside(table, tiles, axis, behind, t, u as u16) {
            set_bit(&mut mask, u);
        }
    }
    mask
}

/// For each tile the mask of the tiles that stand ahead of it, or behind it.
fn masks(
    alloc: Global,
    table: &Option<DominoTable>,
    tiles: &[Tile],
    axis: Axis,
    behind: bool,
) -> Result<Vec<[u64; 4]>, AllocError>
    requires { length tiles.now ≤ 256 }
    ensures { IfOk result (λ rows. spec.AreMasks (length tiles.now) (spec.stands_beside table.now tiles.now axis behind) rows.items) }
{
    let mut rows = Vec::with_capacity(alloc, tiles.len())?;
    for t in 0..tiles.len() {
        rows.push(mask_beside(table, tiles, axis, behind, t as u16))?;
    }
    Ok(rows)
}

/// The mask of the tiles that stand ahead of themselves.
fn selves(table: &Option<DominoTable>, tiles: &[Tile], axis: Axis) -> [u64; 4]
    requires { length tiles.now ≤ 256 }
    ensures { (u : ℕ) → mask_bit result u ≡ bit (nat_lt u (length tiles.now) && spec.stands table.now tiles.now axis u u) }
{
    let mut mask = [0u64; 4];
    for u in 0..tiles.len() {
        if stands(table, tiles, axis, u as u16, u as u16) {
            set_bit(&mut mask, u);
        }
    }
    mask
}

/// The mask of all tiles.
fn all_tiles(tiles: &[Tile]) -> [u64; 4]
    requires { length tiles.now ≤ 256 }
    ensures { (u : ℕ) → mask_bit result u ≡ bit (nat_lt u (length tiles.now)) }
{
    let mut mask = [0u64; 4];
    for u in 0..tiles.len() {
        set_bit(&mut mask, u);
    }
    mask
}
