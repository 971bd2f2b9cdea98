//! For each colour, the tiles that meet it on each side.
ghost use Rattle.std.specs.Prelude.{◌≡◌, ℕ, ◌<◌, ◌≤◌, ◌&&◌, length, nat_lt, replicate};
ghost use Rattle.wt_lane.specs.Masks.{mask_bit};
ghost use Rattle.wt_mask.specs.Masks as spec;
ghost use Rattle.wt_mask.specs.declared.sides.Way.TheVariants.{Right, Left, Up, Down};
ghost use Rattle.wt_grid.specs.declared.limits.TheConstants as limits;

use crate::mask::set_bit;
use wt_grid::{MAX_COLOURS, MAX_TILES};
use wt_tile::{Axis, Tile, ahead, behind, is_match, tile_at};

/// A side of a cell.
#[derive(Clone, Copy, Debug, PartialEq, Eq)]
pub enum Way {
    /// The east side: the next cell along axis 1.
    Right,
    /// The west side: the cell before along axis 1.
    Left,
    /// The north side: the next cell along axis 2.
    Up,
    /// The south side: the cell before along axis 2.
    Down,
}

/// For each colour and each side of a tile, the mask of the tiles that meet it there; and the mask of all.
/// Colours from `MAX_COLOURS` on, which no set has, are answered tile by tile.
/// Made once for a list of tiles, in one walk over it for each side; takes no memory.
#[derive(Drop)]
pub struct Sides<'a> {
    /// The tiles whose masks these are, at most 256.
    pub tiles: &'a [Tile],
    all: [u64; 4],
    right: [[u64; 4]; MAX_COLOURS],
    left: [[u64; 4]; MAX_COLOURS],
    up: [[u64; 4]; MAX_COLOURS],
    down: [[u64; 4]; MAX_COLOURS],
    ghost few: { length tiles.now ≤ limits.MAX_TILES },
    ghost whole: { (u : ℕ) → mask_bit all u ≡ spec.bit (nat_lt u (length tiles.now)) },
    ghost right_side: { spec.IsSide tiles.now Right right },
    ghost left_side: { spec.IsSide tiles.now Left left },
    ghost up_side: { spec.IsSide tiles.now Up up },
    ghost down_side: { spec.IsSide tiles.now Down down },
}

/// The colour of a tile's edge on a side.
fn edge(way: Way, tile: Tile) -> u16
    ensures { result ≡ spec.edge way tile }
{
    match way {
        Way::Right => ahead(Axis::One, tile),
        Way::Left => behind(Axis::One, tile),
        Way::Up => ahead(Axis::Two, tile),
        Way::Down => behind(Axis::Two, tile),
    }
}

/// The colour of the edge that a tile on a side turns to the tile in the middle.
fn turned(way: Way, tile: Tile) -> u16
    ensures { result ≡ spec.turned way tile }
{
    match way {
        Way::Right => behind(Axis::One, tile),
        Way::Left => ahead(Axis::One, tile),
        Way::Up => behind(Axis::Two, tile),
        Way::Down => ahead(Axis::Two, tile),
    }
}

/// Whether tile u may stand beside tile t, on this side of it.
fn may_stand(tiles: &[Tile], way: Way, t: u16, u: u16) -> bool
    ensures { result ≡ spec.may_stand tiles.now way t u }
{
    match way {
        Way::Right => is_match(tiles, Axis::One, t, u),
        Way::Left => is_match(tiles, Axis::One, u, t),
        Way::Up => is_match(tiles, Axis::Two, t, u),
        Way::Down => is_match(tiles, Axis::Two, u, t),
    }
}

/// The mask of all tiles.
fn all_tiles(tiles: &[Tile]) -> [u64; 4]
    requires { length tiles.now ≤ MAX_TILES }
    ensures { (u : ℕ) → mask_bit result u ≡ spec.bit (nat_lt u (length tiles.now)) }
{
    let mut mask = [0u64; 4];
    for u in 0..tiles.len() {
        set_bit(&mut mask, u);
    }
    mask
}

/// The mask of the tiles that may stand on a side of a tile, tile by tile.
fn mask_beside(tiles: &[Tile], way: Way, t: u16) -> [u64; 4]
    requires { length tiles.now ≤ MAX_TILES }
    ensures { (u : ℕ) → mask_bit result u ≡ spec.bit (nat_lt u (length tiles.now) && spec.may_stand tiles.now way t u) }
{
    let mut mask = [0u64; 4];
    for u in 0..tiles.len() {
        if may_stand(tiles, way, t, u as u16) {
            set_bit(&mut mask, u);
        }
    }
    mask
}

fn no_masks() -> [[u64; 4]; MAX_COLOURS]
    ensures { result ≡ replicate MAX_COLOURS (replicate 4 0) }
{
    [[0; 4]; MAX_COLOURS]
}

/// For each colour the mask of the tiles that meet it on a side.
fn side(tiles: &[Tile], way: Way) -> [[u64; 4]; MAX_COLOURS]
    requires { length tiles.now ≤ MAX_TILES }
    ensures { spec.IsSide tiles.now way result }
{
    let mut rows = no_masks();
    for u in 0..tiles.len() {
        let colour = usize::from(turned(way, tile_at(tiles, u as u16)));
        if colour >= MAX_COLOURS {
            continue;
        }
        let mut mask = rows[colour];
        set_bit(&mut mask, u);
        rows[colour] = mask;
    }
    rows
}

impl<'a> Sides<'a> {
    /// The masks of a list of at most 256 tiles.
    pub fn new(tiles: &'a [Tile]) -> Sides<'a>
        requires { length tiles.now ≤ MAX_TILES }
        ensures { result.tiles.now ≡ tiles.now }
    {
        Sides {
            tiles,
            all: all_tiles(tiles),
            right: side(tiles, Way::Right),
            left: side(tiles, Way::Left),
            up: side(tiles, Way::Up),
            down: side(tiles, Way::Down),
        }
    }

    /// The mask of all tiles.
    pub fn all(&self) -> [u64; 4]
        ensures { (u : ℕ) → mask_bit result u ≡ spec.bit (nat_lt u (length self.now.tiles.now)) }
    {
        self.all
    }

    /// The mask of the tiles that meet a colour on a side, of those that have a mask of their own.
    fn met(&self, way: Way, colour: usize) -> [u64; 4]
        requires { colour < MAX_COLOURS }
        ensures { spec.IsMet self.now.tiles.now way (length self.now.tiles.now) colour result }
    {
        match way {
            Way::Right => self.right[colour],
            Way::Left => self.left[colour],
            Way::Up => self.up[colour],
            Way::Down => self.down[colour],
        }
    }

    /// The mask of the tiles that may stand on a side of a tile. A tile past the list counts as blank, with
    /// colour 0 on each side.
    pub fn beside(&self, way: Way, tile: u16) -> [u64; 4]
        ensures { (u : ℕ) → mask_bit result u ≡ spec.bit (nat_lt u (length self.now.tiles.now) && spec.may_stand self.now.tiles.now way tile u) }
    {
        let colour = usize::from(edge(way, tile_at(self.tiles, tile)));
        if colour < MAX_COLOURS {
            self.met(way, colour)
        } else {
            mask_beside(self.tiles, way, tile)
        }
    }
}
