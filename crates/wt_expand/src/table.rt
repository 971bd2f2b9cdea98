// What the tiles of a row stand for, looked up once for each tile of the set.
ghost use Rattle.std.specs.Prelude.{◌≡◌, ◌≤◌, length};
ghost use Rattle.wt_grid.specs.Traces.{piece_tiles};
ghost use Rattle.wt_morphism.specs.Images as spec;
ghost use Rattle.wt_expand.specs.Counters.{level_of};
ghost use Rattle.wt_expand.specs.PieceTables.{HasPieces};

use crate::counter::{Counter, LevelRef};
use crate::laid::tile_of;
use wt_grid::MAX_TILES;
use wt_morphism::Image;
use wt_step::RawLink;

/// What the first tiles of a set stand for.
#[derive(Drop)]
pub struct PieceTable {
    /// The first tile of what a tile stands for.
    pub firsts: [u16; MAX_TILES],
    /// The last tile of it.
    pub lasts: [u16; MAX_TILES],
    /// How many tiles it is: 1 or 2.
    pub lens: [u8; MAX_TILES],
    /// How many tiles have entries.
    pub count: usize,
}

/// How many tiles have an image.
pub fn image_count(link: &RawLink) -> usize {
    match link {
        RawLink::Marker(step) => step.images.as_slice().len(),
        RawLink::Restrict(step) => step.kept.as_slice().len(),
    }
}

/// How many tiles an image has.
fn len_of(image: Image) -> u8
    ensures { result ≡ length (piece_tiles (spec.piece image)) }
{
    match image {
        Image::One(_) => 1,
        Image::Two(_, _) => 2,
    }
}

/// The table of a level.
pub fn table_of(counter: &Counter<'_>, level: LevelRef<'_>) -> PieceTable
    ensures { HasPieces result counter.now.renaming.now (level_of level.entry) }
{
    let mut firsts = [0u16; MAX_TILES];
    let mut lasts = [0u16; MAX_TILES];
    let mut lens = [0u8; MAX_TILES];
    let count = image_count(level.link).min(256);
    for t in 0..count {
        let image = counter.piece(level, t as u16);
        firsts[t] = tile_of(false, image);
        lasts[t] = tile_of(true, image);
        lens[t] = len_of(image);
    }
    PieceTable {
        firsts,
        lasts,
        lens,
        count,
    }
}
