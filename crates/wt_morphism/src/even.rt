// Whether each line of a pattern has images of one length.
ghost use Rattle.std.specs.Prelude.{◌≡◌, ◌<◌};
ghost use Rattle.wt_pattern.specs.Shape.{IsShape};
ghost use Rattle.wt_grid.specs.Images.{is_pair, piece_at};
ghost use Rattle.wt_morphism.specs.Images.{piece};
ghost use Rattle.wt_morphism.specs.Images as spec;

use crate::{Image, Morphism};
use wt_pattern::Pattern;
use wt_tile::Axis;

/// The image of a tile; a number past the table counts as one that stands for tile 0.
pub fn image_at(table: &[Image], tile: u16) -> Image
    ensures { result ≡ piece_at table.now tile }
{
    let tile = usize::from(tile);
    if tile < table.len() {
        table[tile]
    } else {
        Image::One(0)
    }
}

/// Whether a tile stands for two.
pub fn is_two(m: &Morphism, tile: u16) -> bool
    ensures { result ≡ spec.is_two m.now tile }
{
    match image_at(m.table.as_slice(), tile) {
        Image::One(_) => false,
        Image::Two(_, _) => true,
    }
}

/// The first cell of the line that cell (x, y) stands in.
fn line_start(axis: Axis, p: &Pattern, x: usize, y: usize) -> u16
    requires inside_x { x < p.now.width }
    requires inside_y { y < p.now.height }
    ensures { result ≡ spec.line_start axis p.now x y }
{
    match axis {
        Axis::One => p.cell(x, 0),
        Axis::Two => p.cell(0, y),
    }
}

fn uneven_at(m: &Morphism, p: &Pattern, y: usize, x: usize) -> Option<(usize, usize)>
    requires inside_x { x < p.now.width }
    requires inside_y { y < p.now.height }
    ensures { result ≡ spec.uneven_at m.now p.now y x }
{
    let here = is_two(m, p.cell(x, y));
    let first = is_two(m, line_start(m.axis, p, x, y));
    if here == first { None } else { Some((x, y)) }
}

#[tactic(auto, using(wt_grid::proofs::First::first_more))]
fn uneven_in(m: &Morphism, p: &Pattern, y: usize) -> Option<(usize, usize)>
    requires { y < p.now.height }
    ensures { result ≡ spec.uneven_in m.now p.now y }
{
    for x in 0..p.width() {
        if let Some(place) = uneven_at(m, p, y, x) {
            return Some(place);
        }
    }
    None
}

/// The first cell in reading order whose image is longer or shorter than that of the first cell of its line.
#[tactic(auto, using(wt_grid::proofs::First::first_more), unfolding(crate::specs::Images::uneven))]
pub fn uneven(m: &Morphism, p: &Pattern) -> Option<(usize, usize)>
    ensures shape { IsShape p.now }
    ensures value { result ≡ spec.uneven m.now p.now }
{
    for y in 0..p.height() {
        if let Some(place) = uneven_in(m, p, y) {
            return Some(place);
        }
    }
    None
}
