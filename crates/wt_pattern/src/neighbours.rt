// Two rows of cells, one above the other: how many of their first cells match their neighbours.
ghost use Rattle.std.specs.Prelude.{◌≡◌, ◌≤◌, ◌+◌, ◌<◌, ◌&&◌, ℕ, length, slice_index};
ghost use Rattle.wt_tile.specs.Matching.{matches};
ghost use Rattle.wt_pattern.specs.Rows.{HasColours, AreMatched};

use wt_tile::{Axis, Tile, tile_at};

/// The colours of the four edges of each tile number below 256.
#[derive(Drop)]
pub struct Colours<'a> {
    /// The tiles.
    pub tiles: &'a [Tile],
    east: [u16; 256],
    north: [u16; 256],
    west: [u16; 256],
    south: [u16; 256],
    ghost each: { HasColours tiles.now 256 east north west south },
}

impl<'a> Colours<'a> {
    /// The colours of these tiles; a number past the list counts as a blank tile.
    pub fn new(tiles: &'a [Tile]) -> Colours<'a>
        ensures { result.tiles.now ≡ tiles.now }
    {
        let mut east = [0u16; 256];
        let mut north = [0u16; 256];
        let mut west = [0u16; 256];
        let mut south = [0u16; 256];
        for a in 0..256u16 {
            let tile = tile_at(tiles, a);
            east[usize::from(a)] = tile.east;
            north[usize::from(a)] = tile.north;
            west[usize::from(a)] = tile.west;
            south[usize::from(a)] = tile.south;
        }
        Colours {
            tiles,
            east,
            north,
            west,
            south,
        }
    }

    /// Whether tile b may stand to the right of tile a.
    fn is_right(&self, a: u16, b: u16) -> bool
        requires first { a < 256 }
        requires second { b < 256 }
        ensures { result ≡ matches self.now.tiles.now Axis.One a b }
    {
        self.east[usize::from(a)] == self.west[usize::from(b)]
    }

    /// Whether tile b may stand above tile a.
    fn is_up(&self, a: u16, b: u16) -> bool
        requires first { a < 256 }
        requires second { b < 256 }
        ensures { result ≡ matches self.now.tiles.now Axis.Two a b }
    {
        self.north[usize::from(a)] == self.south[usize::from(b)]
    }

    /// Whether tile b may stand to the right of tile a, and tile c above it.
    fn is_matched(&self, a: u16, b: u16, c: u16) -> bool
        requires first { a < 256 }
        requires right { b < 256 }
        requires up { c < 256 }
        ensures { result ≡ (matches self.now.tiles.now Axis.One a b && matches self.now.tiles.now Axis.Two a c) }
    {
        self.is_right(a, b) && self.is_up(a, c)
    }

    /// How many of the first cells of a row match the cell to their right and the cell of the other row, which is
    /// above; the last cell is not counted.
    pub fn count_matched(&self, row: &[u16], above: &[u16]) -> usize
        requires same { length row.now ≡ length above.now }
        requires some { 1 ≤ length row.now }
        requires row { (k : ℕ) → slice_index row.now k < 256 }
        requires above { (k : ℕ) → slice_index above.now k < 256 }
        ensures within { result < length row.now }
        ensures matched { AreMatched self.now.tiles.now row.now above.now result }
    {
        let last = row.len() - 1;
        let mut x = 0usize;
        while x < last && self.is_matched(row[x], row[x + 1], above[x]) {
            x += 1;
        }
        x
    }
}
