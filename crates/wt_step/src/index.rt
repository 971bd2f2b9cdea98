// The numbers of a step's images, by their tiles.
ghost use Rattle.std.specs.Prelude.{◌≡◌, ◌≤◌, ◌<◌, ◌*◌, true, length, IfOk};
ghost use Rattle.wt_step.specs.Words.{image_fits};
ghost use Rattle.wt_step.specs.Good.{IsGoodStep};
ghost use Rattle.wt_step.specs.Blocks.{IsIndexed, note_single, note_pair};

use crate::RawStep;
use crate::rules::image_at;
use std::alloc::{AllocError, Global};
use wt_grid::MAX_TILES;
use wt_morphism::Image;

/// At tile a of `singles` the number of the image a, and at a * n + b of `pairs` that of a and b, for n tiles.
#[derive(Drop)]
pub struct Index {
    /// By the tile of a single image.
    pub singles: Vec<u16>,
    /// By the two tiles of a double one.
    pub pairs: Vec<u16>,
}

fn note_image(index: &mut Index, tiles: usize, image: Image, i: u16)
    requires few { tiles ≤ MAX_TILES }
    requires fits { image_fits tiles image ≡ true }
    requires singles { length index.old.singles.items ≡ tiles }
    requires pairs { length index.old.pairs.items ≡ tiles * tiles }
    ensures singles { index.new.singles.items ≡ note_single image i index.old.singles.items }
    ensures pairs { index.new.pairs.items ≡ note_pair tiles image i index.old.pairs.items }
{
    match image {
        Image::One(a) => index.singles[usize::from(a)] = i,
        Image::Two(a, b) => index.pairs[usize::from(a) * tiles + usize::from(b)] = i,
    }
}

/// How many tiles the fine set has.
#[tactic(auto, using(crate::proofs::Indexed::good_sizes))]
pub fn count_tiles(raw: &RawStep) -> usize
    requires { IsGoodStep raw.now }
    ensures value { result ≡ length raw.now.fine.tiles }
    ensures few { result ≤ MAX_TILES }
{
    raw.fine.tiles.as_slice().len()
}

#[tactic(auto, using(crate::proofs::Indexed::good_sizes))]
fn count_images(raw: &RawStep) -> u16
    requires { IsGoodStep raw.now }
    ensures value { result ≡ length raw.now.images }
    ensures few { result ≤ MAX_TILES }
{
    raw.images.as_slice().len() as u16
}

/// The index of all images.
pub fn index_images(alloc: Global, raw: &RawStep) -> Result<Index, AllocError>
    requires { IsGoodStep raw.now }
    ensures { IfOk result (λ index. IsIndexed raw.now.images (length raw.now.fine.tiles) (length raw.now.images) index.singles.items index.pairs.items) }
{
    let tiles = count_tiles(raw);
    let singles = vec![in alloc; 0u16; tiles]?;
    let pairs = vec![in alloc; 0u16; tiles * tiles]?;
    let mut index = Index { singles, pairs };
    for i in 0..count_images(raw) {
        note_image(&mut index, tiles, image_at(raw, usize::from(i)), i);
    }
    Ok(index)
}
