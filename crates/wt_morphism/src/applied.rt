// Images of patterns, whole or in part.
ghost use Rattle.std.specs.Prelude.{◌≡◌, ◌≤◌, Some, IfOk};
ghost use Rattle.wt_grid.specs.Parts.{part};
ghost use Rattle.wt_morphism.specs.Images.{image, RefusesBy, RefusesCutBy, corner_within, image_by_all};
ghost use Rattle.wt_morphism.specs.Images as spec;
ghost use Rattle.wt_grid.specs.Answers.{FailsByOr};

use crate::even::uneven;
use crate::laid::{image_shape, lay};
use crate::{ApplyFault, CutFault, Morphism};
use std::alloc::{AllocError, Global};
use wt_grid::MAX_SIDE;
use wt_pattern::Pattern;

/// The image of a pattern: the pieces of each cell's image stand along the axis in order. `Uneven` names the
/// first cell in reading order whose image is longer or shorter than that of the first cell of its line;
/// `TooLarge` is answered exactly where all are even and the image is over 4096 wide or high. A number past the
/// table counts as one that stands for tile 0.
pub fn apply(alloc: Global, m: &Morphism, p: &Pattern) -> Result<Pattern, ApplyFault>
    ensures image { IfOk result (λ q. q ≡ image m.now p.now) }
    ensures fault { RefusesBy result (spec.apply_fault m.now p.now) }
{
    if let Some((x, y)) = uneven(m, p) {
        return Err(ApplyFault::Uneven { x, y });
    }
    let (width, height) = image_shape(m, p);
    if width > MAX_SIDE || height > MAX_SIDE {
        return Err(ApplyFault::TooLarge);
    }
    match lay(alloc, m, p, width, height) {
        Ok(cells) => Ok(Pattern::of(width, height, cells)),
        Err(_) => Err(ApplyFault::OutOfMemory),
    }
}

/// The lower left part of the image of a pattern: the lesser of w and its width by the lesser of h and its
/// height. Makes no more of the image than this part. `Uneven` as in `apply`, of the whole pattern.
pub fn apply_part(
    alloc: Global,
    m: &Morphism,
    p: &Pattern,
    w: usize,
    h: usize,
) -> Result<Pattern, CutFault>
    requires wide { (1 ≤ w) × (w ≤ MAX_SIDE) }
    requires high { (1 ≤ h) × (h ≤ MAX_SIDE) }
    ensures part { IfOk result (λ q. q ≡ corner_within w h (image m.now p.now)) }
    ensures even { RefusesCutBy result (spec.uneven m.now p.now) }
{
    if let Some((x, y)) = uneven(m, p) {
        return Err(CutFault::Uneven { x, y });
    }
    let (width, height) = image_shape(m, p);
    let width = w.min(width);
    let height = h.min(height);
    match lay(alloc, m, p, width, height) {
        Ok(cells) => Ok(Pattern::of(width, height, cells)),
        Err(_) => Err(CutFault::OutOfMemory),
    }
}

fn copy_pattern(alloc: Global, p: &Pattern) -> Result<Pattern, AllocError>
    ensures { IfOk result (λ q. q ≡ p.now) }
{
    let height = p.height();
    let width = p.width();
    let mut cells = Vec::with_capacity(alloc, width * height)?;
    for y in 0..height {
        cells.extend_from_slice(p.row(y))?;
    }
    Ok(Pattern::of(width, height, cells))
}

/// The image by each of the morphisms in turn, the first of the list first; the first refusal that is met.
/// The image by none is the pattern itself.
pub fn apply_all(alloc: Global, parts: &[Morphism], p: &Pattern) -> Result<Pattern, ApplyFault>
    ensures image { IfOk result (λ q. q ≡ image_by_all parts.now p.now) }
    ensures fault { FailsByOr result (spec.apply_all_fault parts.now p.now) ApplyFault.OutOfMemory }
{
    let [first, rest @ ..] = parts else {
        return match copy_pattern(alloc, p) {
            Ok(copy) => Ok(copy),
            Err(_) => Err(ApplyFault::OutOfMemory),
        };
    };
    let mut image = apply(alloc, first, p)?;
    for m in rest {
        image = apply(alloc, m, &image)?;
    }
    Ok(image)
}
