// The limits of rectangles and of tile sets.
ghost use Rattle.std.specs.Prelude.{◌≡◌};
ghost use Rattle.wt_grid.specs.Limits as spec;

/// The greatest width and the greatest height of a rectangle, in tiles.
pub const MAX_SIDE: usize = 4096;

/// The greatest number of tiles of a set.
pub const MAX_TILES: usize = 256;

/// The greatest number of colours of an axis: a set of `MAX_TILES` tiles has two edges a tile on it.
pub const MAX_COLOURS: usize = 512;

/// The greatest number of pairs of tiles of a set: each tile with each.
pub const MAX_PAIRS: usize = 65_536;

/// Whether a width or a height keeps its limits: 1 to `MAX_SIDE`.
pub fn is_side(n: usize) -> bool
    ensures { result ≡ spec.is_side n }
{
    1 <= n && n <= MAX_SIDE
}
