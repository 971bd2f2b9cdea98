//! For each tile the tiles that may stand beside it, and the tiles that may stand beside themselves.
ghost use Rattle.std.specs.Prelude.{◌≡◌, ℕ, ◌<◌, ◌≤◌, ◌&&◌, length, IfOk, nat_lt};
ghost use Rattle.wt_grid.specs.declared.axis.Axis.TheVariants.{One, Two};
ghost use Rattle.wt_tile.specs.Matching.{matches};
ghost use Rattle.wt_periodic.specs.Fillings.{IsSelves};

use std::alloc::{AllocError, Global};
use wt_mask::set_bit;
use wt_tile::{Axis, Tile, is_match};
use wt_window::Tables;

/// The tables of a set's tiles, and the masks of the tiles that match themselves along each axis: those may stand
/// in a round of one cell.
#[derive(Drop)]
pub struct Rounds<'a> {
    /// For each tile those that may stand beside it.
    pub tables: Tables<'a>,
    /// The tiles that match themselves along axis 1.
    pub selves1: [u64; 4],
    /// The tiles that match themselves along axis 2.
    pub selves2: [u64; 4],
    pub ghost row_selves: { IsSelves tables.tiles.now (matches tables.tiles.now One) selves1 },
    pub ghost column_selves: { IsSelves tables.tiles.now (matches tables.tiles.now Two) selves2 },
}

impl<'a> Rounds<'a> {
    /// The tables of a list of at most 256 tiles. Fails only where memory runs out.
    pub fn new(alloc: Global, tiles: &'a [Tile]) -> Result<Rounds<'a>, AllocError>
        requires { length tiles.now ≤ 256 }
        ensures { IfOk result (λ made. made.tables.tiles.now ≡ tiles.now) }
    {
        let tables = Tables::new(alloc, tiles)?;
        let selves1 = selves(tables.tiles, Axis::One);
        let selves2 = selves(tables.tiles, Axis::Two);
        Ok(Rounds {
            tables,
            selves1,
            selves2,
        })
    }
}

/// The mask of the tiles that match themselves along an axis.
fn selves(tiles: &[Tile], axis: Axis) -> [u64; 4]
    requires { length tiles.now ≤ 256 }
    ensures { IsSelves tiles.now (matches tiles.now axis) result }
{
    let mut mask = [0u64; 4];
    for u in 0..tiles.len() {
        if is_match(tiles, axis, u as u16, u as u16) {
            set_bit(&mut mask, u);
        }
    }
    mask
}
