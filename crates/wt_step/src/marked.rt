// The markers as a mask, and the tiles that pairs make images.
ghost use Rattle.std.specs.Prelude.{◌≡◌, ℕ, ◌<◌, nat_eq, if◌then◌else◌};
ghost use Rattle.std.specs.List.{list_any};
ghost use Rattle.wt_lane.specs.Masks.{mask_bit};
ghost use Rattle.wt_mask.specs.Masks.{bit};
ghost use Rattle.wt_step.specs.Words as words;
ghost use Rattle.wt_step.specs.Faults.{IsShaped};
ghost use Rattle.wt_step.specs.TileMasks.{IsMarked, IsDemanded};

use crate::RawStep;
use crate::shape::allowed;
use wt_grid::MAX_TILES;
use wt_mask::{has_bit, set_bit};
use wt_tile::Side;

/// Adds a tile to a mask.
fn note(mask: &mut [u64; 4], tile: u16)
    ensures { (a : ℕ) → a < MAX_TILES → mask_bit mask.new a ≡ (if nat_eq a tile then 1 else mask_bit mask.old a) }
{
    let tile = usize::from(tile);
    if tile < MAX_TILES {
        set_bit(mask, tile);
    }
}

fn mask_of(tiles: &[u16]) -> [u64; 4]
    ensures { (a : ℕ) → a < MAX_TILES → mask_bit result a ≡ bit (list_any (nat_eq a) tiles.now) }
{
    let mut mask = [0u64; 4];
    for tile in tiles {
        note(&mut mask, *tile);
    }
    mask
}

/// The mask of the markers.
pub fn marker_mask(raw: &RawStep) -> [u64; 4]
    requires { IsShaped raw.now }
    ensures { IsMarked raw.now result }
{
    mask_of(raw.markers.as_slice())
}

/// Whether a tile is a marker, read in their mask.
#[tactic(auto, using(crate::proofs::Even::bit_told))]
pub fn is_marked(raw: &RawStep, marks: &[u64; 4], a: u16) -> bool
    requires { IsMarked raw.now marks.now }
    ensures { result ≡ words.is_marker raw.now a }
{
    has_bit(marks, usize::from(a))
}

/// Adds to a mask the tile that a pair makes an image, where it makes one.
fn demand(raw: &RawStep, marks: &[u64; 4], mask: &mut [u64; 4], pair: (u16, u16))
    requires marked { IsMarked raw.now marks.now }
    ensures { (u : ℕ) → u < MAX_TILES → mask_bit mask.new u ≡ (if words.demands raw.now u pair then 1 else mask_bit mask.old u) }
{
    match raw.side {
        Side::After => {
            if !is_marked(raw, marks, pair.1) {
                note(mask, pair.0);
            }
        }
        Side::Before => {
            if !is_marked(raw, marks, pair.0) {
                note(mask, pair.1);
            }
        }
    }
}

fn demands_in(raw: &RawStep, marks: &[u64; 4], pairs: &[(u16, u16)]) -> [u64; 4]
    requires marked { IsMarked raw.now marks.now }
    ensures { (u : ℕ) → u < MAX_TILES → mask_bit result u ≡ bit (list_any (words.demands raw.now u) pairs.now) }
{
    let mut mask = [0u64; 4];
    for pair in pairs {
        demand(raw, marks, &mut mask, *pair);
    }
    mask
}

/// The mask of the tiles that an allowed pair of the axis makes images, if they are non-markers.
pub fn demand_mask(raw: &RawStep, marks: &[u64; 4]) -> [u64; 4]
    requires marked { IsMarked raw.now marks.now }
    ensures { IsDemanded raw.now result }
{
    demands_in(raw, marks, allowed(raw, raw.axis))
}
