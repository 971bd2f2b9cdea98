//! For each tile, the tiles that may stand beside it.
ghost use Rattle.std.specs.Prelude.{◌≡◌, ℕ, ◌<◌, ◌≤◌, ◌&&◌, length, IfOk, nat_lt};
ghost use Rattle.wt_lane.specs.Masks.{mask_bit};
ghost use Rattle.wt_mask.specs.Masks.{bit, mask_at, may_stand};
ghost use Rattle.wt_tile.specs.Matching.{matches};
ghost use Rattle.wt_window.specs.Frames.{IsTable};
ghost use Rattle.wt_mask.specs.declared.sides.Way.TheVariants.{Right, Left, Up, Down};
ghost use Rattle.wt_grid.specs.declared.limits.TheConstants as limits;

use std::alloc::{AllocError, Global};
use wt_grid::MAX_TILES;
use wt_mask::{Way, set_bit};
use wt_tile::{Axis, Tile, is_match};

/// For each tile of a list and each side, the mask of the tiles that may stand there; and the mask of all.
#[derive(Drop)]
pub struct Tables<'a> {
    /// The tiles of the list, at most 256.
    pub tiles: &'a [Tile],
    /// The mask of all tiles.
    pub all: [u64; 4],
    /// For each tile the tiles that may stand to the right of it.
    pub right: Vec<[u64; 4]>,
    /// For each tile the tiles that may stand to the left of it.
    pub left: Vec<[u64; 4]>,
    /// For each tile the tiles that may stand above it.
    pub up: Vec<[u64; 4]>,
    /// For each tile the tiles that may stand below it.
    pub down: Vec<[u64; 4]>,
    pub ghost few: { length tiles.now ≤ limits.MAX_TILES },
    pub ghost whole: { (u : ℕ) → mask_bit all u ≡ bit (nat_lt u (length tiles.now)) },
    pub ghost right_table: { IsTable tiles.now Right right.items },
    pub ghost left_table: { IsTable tiles.now Left left.items },
    pub ghost up_table: { IsTable tiles.now Up up.items },
    pub ghost down_table: { IsTable tiles.now Down down.items },
}

/// The mask of all tiles.
fn all_tiles(tiles: &[Tile]) -> [u64; 4]
    requires { length tiles.now ≤ MAX_TILES }
    ensures { (u : ℕ) → mask_bit result u ≡ bit (nat_lt u (length tiles.now)) }
{
    let mut mask = [0u64; 4];
    for u in 0..tiles.len() {
        set_bit(&mut mask, u);
    }
    mask
}

/// The mask of the tiles that may follow a tile along the axis.
fn after(tiles: &[Tile], axis: Axis, t: u16) -> [u64; 4]
    requires { length tiles.now ≤ MAX_TILES }
    ensures { (u : ℕ) → mask_bit result u ≡ bit (nat_lt u (length tiles.now) && matches tiles.now axis t u) }
{
    let mut mask = [0u64; 4];
    for u in 0..tiles.len() {
        if is_match(tiles, axis, t, u as u16) {
            set_bit(&mut mask, u);
        }
    }
    mask
}

/// The mask of the tiles that a tile may follow along the axis.
fn before(tiles: &[Tile], axis: Axis, t: u16) -> [u64; 4]
    requires { length tiles.now ≤ MAX_TILES }
    ensures { (u : ℕ) → mask_bit result u ≡ bit (nat_lt u (length tiles.now) && matches tiles.now axis u t) }
{
    let mut mask = [0u64; 4];
    for u in 0..tiles.len() {
        if is_match(tiles, axis, u as u16, t) {
            set_bit(&mut mask, u);
        }
    }
    mask
}

/// The mask of the tiles that may stand on a side of a tile.
fn on_side(tiles: &[Tile], way: Way, t: u16) -> [u64; 4]
    requires { length tiles.now ≤ MAX_TILES }
    ensures { (u : ℕ) → mask_bit result u ≡ bit (nat_lt u (length tiles.now) && may_stand tiles.now way t u) }
{
    match way {
        Way::Right => after(tiles, Axis::One, t),
        Way::Left => before(tiles, Axis::One, t),
        Way::Up => after(tiles, Axis::Two, t),
        Way::Down => before(tiles, Axis::Two, t),
    }
}

/// For each tile the mask of the tiles that may stand on this side of it.
fn table(alloc: Global, tiles: &[Tile], way: Way) -> Result<Vec<[u64; 4]>, AllocError>
    requires { length tiles.now ≤ MAX_TILES }
    ensures { IfOk result (λ rows. IsTable tiles.now way rows.items) }
{
    let mut rows = Vec::with_capacity(alloc, tiles.len())?;
    for t in 0..tiles.len() {
        rows.push(on_side(tiles, way, t as u16))?;
    }
    Ok(rows)
}

impl<'a> Tables<'a> {
    /// The tables of a list of at most 256 tiles. Fails only where memory runs out.
    pub fn new(alloc: Global, tiles: &'a [Tile]) -> Result<Tables<'a>, AllocError>
        requires { length tiles.now ≤ MAX_TILES }
        ensures { IfOk result (λ made. made.tiles.now ≡ tiles.now) }
    {
        let right = table(alloc, tiles, Way::Right)?;
        let left = table(alloc, tiles, Way::Left)?;
        let up = table(alloc, tiles, Way::Up)?;
        let down = table(alloc, tiles, Way::Down)?;
        Ok(Tables {
            tiles,
            all: all_tiles(tiles),
            right,
            left,
            up,
            down,
        })
    }

    /// The masks of the tiles that may stand on a side.
    pub fn beside(&self, way: Way) -> &[[u64; 4]]
        ensures { IsTable self.now.tiles.now way result.now }
    {
        match way {
            Way::Right => &self.right,
            Way::Left => &self.left,
            Way::Up => &self.up,
            Way::Down => &self.down,
        }
    }
}
