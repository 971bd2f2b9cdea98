//! Pairs of numbers as masks.
ghost use Rattle.std.specs.Prelude.{◌≡◌, ℕ, ◌<◌, replicate, if◌then◌else◌};
ghost use Rattle.std.specs.List.{list_any};
ghost use Rattle.wt_grid.specs.Pairs.{is_this_pair};
ghost use Rattle.wt_grid.specs.declared.limits.TheConstants as limits;
ghost use Rattle.wt_lane.specs.Masks.{mask_bit};
ghost use Rattle.wt_mask.specs.Masks as spec;

use crate::mask::set_bit;
use wt_grid::MAX_TILES;

/// For each tile, the mask of the tiles that a list has as the second of a pair after it. Pairs of numbers from
/// `MAX_TILES` on are passed over. Made in one walk over the list; takes no memory.
#[derive(Drop)]
pub struct Rows<'a> {
    /// The pairs whose masks these are.
    pub pairs: &'a [(u16, u16)],
    rows: [[u64; 4]; MAX_TILES],
    ghost whole: { (a : ℕ) → a < limits.MAX_TILES → spec.IsRow pairs.now a (spec.mask_at rows a) },
}

fn no_rows() -> [[u64; 4]; MAX_TILES]
    ensures { result ≡ replicate MAX_TILES (replicate 4 0) }
{
    [[0; 4]; MAX_TILES]
}

/// Adds a pair, if its numbers are below `MAX_TILES`.
fn note(rows: &mut [[u64; 4]; MAX_TILES], pair: (u16, u16))
    ensures { (a b : ℕ) → a < MAX_TILES → b < MAX_TILES
        → mask_bit (spec.mask_at rows.new a) b ≡ (if is_this_pair a b pair then 1 else mask_bit (spec.mask_at rows.old a) b) }
{
    let a = usize::from(pair.0);
    let b = usize::from(pair.1);
    if a < MAX_TILES && b < MAX_TILES {
        let mut row = rows[a];
        set_bit(&mut row, b);
        rows[a] = row;
    }
}

fn rows_of(pairs: &[(u16, u16)]) -> [[u64; 4]; MAX_TILES]
    ensures { (a : ℕ) → a < MAX_TILES → spec.IsRow pairs.now a (spec.mask_at result a) }
{
    let mut rows = no_rows();
    for pair in pairs {
        note(&mut rows, *pair);
    }
    rows
}

impl<'a> Rows<'a> {
    /// The masks of a list of pairs.
    pub fn new(pairs: &'a [(u16, u16)]) -> Rows<'a>
        ensures { result.pairs.now ≡ pairs.now }
    {
        Rows {
            pairs,
            rows: rows_of(pairs),
        }
    }

    /// The mask of the tiles that follow a tile in the pairs.
    pub fn row(&self, a: usize) -> [u64; 4]
        requires { a < MAX_TILES }
        ensures { spec.IsRow self.now.pairs.now a result }
    {
        self.rows[a]
    }
}
