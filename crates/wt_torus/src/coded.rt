//! The letters of points.
ghost use Rattle.std.specs.Prelude.{◌≡◌, true, None, Some};
ghost use Rattle.wt_torus.specs.declared.coded.CodeFault.TheVariants as faults;
ghost use Rattle.wt_torus.specs.Boxes as boxes;
ghost use Rattle.wt_torus.specs.Letters.{letter};
ghost use Rattle.wt_torus.specs.Letters as letter_words;

use crate::partition::is_between;
use crate::{Labelled, Letter, Partition, Torus};
use std::alloc::AllocError;
use wt_plane::{Point, contains};

/// Why a point has no code.
#[derive(Clone, Copy, Debug, PartialEq, Eq)]
pub enum CodeFault {
    /// The point isn't in the box.
    OutsideBox,
    /// Over its least common denominator, the point that a cell speaks of has a number out of limit.
    TooLarge,
    /// No region holds the point of cell (x, y), or it lies on the border of the box.
    Unplaced { x: usize, y: usize },
    /// Regions with different labels hold it.
    Doubled { x: usize, y: usize },
    /// No memory was left.
    OutOfMemory,
}

impl From<AllocError> for CodeFault {
    ghost from_gives = { λ _ e. e ≡ faults.OutOfMemory };

    fn from(_: AllocError) -> Self {
        CodeFault::OutOfMemory
    }
}

fn is_in_box(torus: &Torus, z: &Point) -> bool
    ensures { result ≡ boxes.is_in_box torus.now z.now }
{
    is_between(z.wide_x(), z.wide_d(), torus.width())
        && is_between(z.wide_y(), z.wide_d(), torus.height())
}

fn is_held(z: &Point, r: &Labelled) -> bool
    ensures { result ≡ letter_words.is_held z.now r.now }
{
    contains(&r.region, z)
}

/// The letter of a point.
#[tactic(auto, using(crate::proofs::Held::only_from_none), unfolding(crate::specs::Letters::letter))]
pub fn code_point(p: &Partition, z: &Point) -> Letter
    ensures { result ≡ letter p.now z.now }
{
    if !is_in_box(&p.torus, z) {
        return Letter::Unplaced;
    }
    let mut first: Option<u16> = None;
    for r in p.regions.as_slice() {
        if !is_held(z, r) {
            continue;
        }
        match first {
            None => first = Some(r.label),
            Some(label) => {
                if label != r.label {
                    return Letter::Doubled;
                }
            }
        }
    }
    match first {
        None => Letter::Unplaced,
        Some(label) => Letter::One(label),
    }
}
