// Whether tiles match along an axis, for any numbers.
ghost use Rattle.std.specs.Prelude.{◌≡◌};
ghost use Rattle.wt_grid.specs.Axes.{same_axis};
ghost use Rattle.wt_tile.specs.Matching.{matches};
ghost use Rattle.wt_tile.specs.Matching as spec;

use crate::{Axis, Tile};

/// The tile with this number; a number past the list counts as a blank tile.
pub fn tile_at(tiles: &[Tile], a: u16) -> Tile
    ensures { result ≡ spec.tile_at tiles.now a }
{
    let a = usize::from(a);
    if a < tiles.len() {
        tiles[a]
    } else {
        Tile {
            east: 0,
            north: 0,
            west: 0,
            south: 0,
        }
    }
}

/// The colour of the edge that a tile shows the next tile along the axis: east or north.
pub fn ahead(axis: Axis, tile: Tile) -> u16
    ensures { result ≡ spec.ahead axis tile }
{
    match axis {
        Axis::One => tile.east,
        Axis::Two => tile.north,
    }
}

/// The colour of the edge that a tile shows the tile before it along the axis: west or south.
pub fn behind(axis: Axis, tile: Tile) -> u16
    ensures { result ≡ spec.behind axis tile }
{
    match axis {
        Axis::One => tile.west,
        Axis::Two => tile.south,
    }
}

/// Whether b may stand next to a along the axis: to the right of it on axis 1, above it on axis 2.
#[tactic(auto, unfolding(crate::specs::Matching::matches))]
pub fn is_match(tiles: &[Tile], axis: Axis, a: u16, b: u16) -> bool
    ensures { result ≡ matches tiles.now axis a b }
{
    ahead(axis, tile_at(tiles, a)) == behind(axis, tile_at(tiles, b))
}

/// Whether the axes are the same.
pub fn same_axis(a: Axis, b: Axis) -> bool
    ensures { result ≡ same_axis a b }
{
    match (a, b) {
        (Axis::One, Axis::One) => true,
        (Axis::Two, Axis::Two) => true,
        (Axis::One, Axis::Two) => false,
        (Axis::Two, Axis::One) => false,
    }
}
