// The tiles at the corners of what turns of a loop make of a tile.
ghost use Rattle.std.specs.Prelude.{◌≡◌, ℕ, ◌+◌, ◌<◌, ◌≤◌, length, slice_index};
ghost use Rattle.wt_morphism.specs.Strands.{tile_of};
ghost use Rattle.wt_chain.specs.Tables.{entries_of};
ghost use Rattle.wt_chain.specs.Growth.{origin};
ghost use Rattle.wt_check.specs.Powers.{IsClosed};
ghost use Rattle.wt_check.specs.Corners.{is_far, corner_under, AreCorners, IsCarriedTable};

use wt_chain::{image_of, is_along, origins};
use wt_grid::MAX_TILES;
use wt_morphism::Image;
use wt_step::RawLink;
use wt_tile::Axis;

/// A corner of a rectangle.
#[derive(Clone, Copy, Debug, PartialEq, Eq)]
pub struct Corner {
    /// In the last column, and else in the first.
    pub right: bool,
    /// In the top row, and else in the bottom row.
    pub upper: bool,
}

/// Whether a step's images have their second tile at the corner.
fn far(corner: Corner, link: &RawLink) -> bool
    ensures { result ≡ is_far corner link.now }
{
    (corner.right && is_along(Axis::One, link)) || (corner.upper && is_along(Axis::Two, link))
}

/// The tile of an image that stands at a corner.
fn pick(far: bool, image: Image) -> u16
    ensures { result ≡ tile_of far image }
{
    match image {
        Image::One(a) => a,
        Image::Two(a, b) => { if far { b } else { a } }
    }
}

/// The fine tile at a corner, of each coarse tile of a step.
fn next_corners(corner: Corner, link: &RawLink, table: &[u16; MAX_TILES]) -> [u16; MAX_TILES]
    ensures { (t : ℕ) → t < MAX_TILES → slice_index result t ≡ slice_index table.now (corner_under corner link.now t) }
{
    let mut next = [0u16; MAX_TILES];
    for t in 0..256u16 {
        next[usize::from(t)] = at(table, pick(far(corner, link), image_of(link, t)));
    }
    next
}

fn at(table: &[u16; MAX_TILES], t: u16) -> u16
    ensures { result ≡ slice_index table.now t }
{
    let t = usize::from(t);
    if t < 256 { table[t] } else { 0 }
}

/// The same behind several steps.
fn climb(corner: Corner, links: &[RawLink], table: &[u16; MAX_TILES]) -> [u16; MAX_TILES]
    ensures { IsCarriedTable corner links.now table.now result }
{
    let mut table = *table;
    for link in links {
        table = next_corners(corner, link, &table);
    }
    table
}

/// Each tile's number, of the tile that it is renamed back to.
fn renamed(origins: &[u16; MAX_TILES], table: &[u16; MAX_TILES]) -> [u16; MAX_TILES]
    ensures { (t : ℕ) → t < MAX_TILES → slice_index result t ≡ slice_index table.now (slice_index origins.now t) }
{
    let mut next = [0u16; MAX_TILES];
    for t in 0..256usize {
        next[t] = at(table, origins[t]);
    }
    next
}

/// Each tile's own number.
fn alone() -> [u16; MAX_TILES]
    ensures { (t : ℕ) → t < MAX_TILES → slice_index result t ≡ t }
{
    let mut table = [0u16; MAX_TILES];
    for t in 0..256u16 {
        table[usize::from(t)] = t;
    }
    table
}

/// The table of corners of one more turn.
fn next_power(
    corner: Corner,
    links: &[RawLink],
    renaming: &[u16],
    origins: &[u16; MAX_TILES],
    table: &[u16; MAX_TILES],
) -> [u16; MAX_TILES]
    requires closed { IsClosed links.now renaming.now }
    requires origins { origins.now ≡ entries_of (origin renaming.now) }
    ensures { (turns : ℕ) → AreCorners corner links.now renaming.now turns table.now → AreCorners corner links.now renaming.now (turns + 1) result }
{
    renamed(origins, &climb(corner, links, table))
}

/// For each tile of a loop's first set the tile at a corner of what n turns make of it.
pub fn corners(corner: Corner, links: &[RawLink], renaming: &[u16], turns: u32) -> [u16; MAX_TILES]
    requires closed { IsClosed links.now renaming.now }
    ensures { AreCorners corner links.now renaming.now turns result }
{
    let origins = origins(renaming);
    let mut table = alone();
    for turn in 0..turns {
        table = next_power(corner, links, renaming, &origins, &table);
    }
    table
}
