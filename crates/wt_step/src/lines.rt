// The rule of the markers and the blocks that have to be images, row by row of the allowed pairs.
ghost use Rattle.std.specs.Prelude.{◌≡◌, ℕ, ◌<◌, length, min, true};
ghost use Rattle.std.specs.Bool.{OnTrue};
ghost use Rattle.std.specs.List.{list_any};
ghost use Rattle.wt_grid.specs.declared.image.Image.TheVariants.{Two};
ghost use Rattle.wt_lane.specs.Masks.{mask_bit};
ghost use Rattle.wt_mask.specs.Masks.{IsRow};
ghost use Rattle.wt_step.specs.Words as words;
ghost use Rattle.wt_step.specs.Faults.{IsShaped};
ghost use Rattle.wt_step.specs.TileMasks.{IsMarked, HasNone, HasMarkersAlone, IsRowMarkedWell, HasBlocks, HasRowImages};

use crate::RawStep;
use crate::marked::is_marked;
use crate::rules::has_image;
use crate::shape::count_tiles;
use wt_lane::{and_into, any};
use wt_mask::{Rows, differ_into, next_bit};
use wt_morphism::Image;
use wt_tile::{Axis, Side, same_axis};

/// The bits that two masks have in common.
fn common(row: &[u64; 4], marks: &[u64; 4]) -> [u64; 4]
    ensures { (i : ℕ) → mask_bit result i ≡ min (mask_bit row.now i) (mask_bit marks.now i) }
{
    let mut mask = *row;
    and_into(&mut mask, marks);
    mask
}

/// The bits of a mask that another has not.
fn rest(row: &[u64; 4], marks: &[u64; 4]) -> [u64; 4]
    ensures { (i : ℕ) → mask_bit row.now i ≡ 1 → mask_bit marks.now i ≡ 0 → mask_bit result i ≡ 1 }
{
    let mut mask = common(row, marks);
    differ_into(&mut mask, row);
    mask
}

/// Whether no tile of a row is a marker.
fn has_no_marker(raw: &RawStep, marks: &[u64; 4], row: &[u64; 4], axis: Axis, a: u16) -> bool
    requires marked { IsMarked raw.now marks.now }
    requires row { IsRow (words.allowed raw.now axis) a row.now }
    ensures { OnTrue result (HasNone raw.now axis a) }
{
    !any(&common(row, marks))
}

/// Whether all tiles of a row are markers.
fn has_markers_alone(raw: &RawStep, marks: &[u64; 4], row: &[u64; 4], axis: Axis, a: u16) -> bool
    requires marked { IsMarked raw.now marks.now }
    requires row { IsRow (words.allowed raw.now axis) a row.now }
    ensures { OnTrue result (HasMarkersAlone raw.now axis a) }
{
    !any(&rest(row, marks))
}

/// Whether the pairs of a row have markers as the rule of the axis asks.
fn is_row_marked_well(raw: &RawStep, marks: &[u64; 4], row: &[u64; 4], axis: Axis, a: u16) -> bool
    requires marked { IsMarked raw.now marks.now }
    requires row { IsRow (words.allowed raw.now axis) a row.now }
    ensures { OnTrue result (IsRowMarkedWell raw.now axis a) }
{
    let marked = is_marked(raw, marks, a);
    if same_axis(axis, raw.axis) {
        return !marked || has_no_marker(raw, marks, row, axis, a);
    }
    if marked {
        has_markers_alone(raw, marks, row, axis, a)
    } else {
        has_no_marker(raw, marks, row, axis, a)
    }
}

/// Whether all allowed pairs of an axis have markers as its rule asks.
pub fn are_rows_marked_well(raw: &RawStep, marks: &[u64; 4], rows: &Rows<'_>, axis: Axis) -> bool
    requires shaped { IsShaped raw.now }
    requires marked { IsMarked raw.now marks.now }
    requires of_pairs { rows.now.pairs.now ≡ words.allowed raw.now axis }
    ensures { OnTrue result ((a : ℕ) → a < length raw.now.fine.tiles → IsRowMarkedWell raw.now axis a) }
{
    for a in 0..count_tiles(raw) {
        if !is_row_marked_well(raw, marks, &rows.row(usize::from(a)), axis, a) {
            return false;
        }
    }
    true
}

/// The tiles of a row that make a block with the first tile.
fn blocks_of(raw: &RawStep, marks: &[u64; 4], row: &[u64; 4], a: u16) -> [u64; 4]
    requires marked { IsMarked raw.now marks.now }
    requires row { IsRow (words.allowed raw.now raw.now.axis) a row.now }
    ensures { HasBlocks raw.now a result }
{
    match (raw.side, is_marked(raw, marks, a)) {
        (Side::After, false) => common(row, marks),
        (Side::Before, true) => rest(row, marks),
        (Side::After, true) => [0; 4],
        (Side::Before, false) => [0; 4],
    }
}

/// Whether all pairs of a tile and one of a mask are images.
fn are_images(raw: &RawStep, mask: &[u64; 4], a: u16) -> bool
    ensures { OnTrue result ((b : ℕ) → mask_bit mask.now b ≡ 1 → list_any (words.same_image (Two a b)) raw.now.images ≡ true) }
{
    let images = raw.images.as_slice();
    let mut from = 0usize;
    while let Some(b) = next_bit(mask, from) {
        if !has_image(Image::Two(a, b as u16), images) {
            return false;
        }
        from = b + 1;
    }
    true
}

/// Whether all blocks of a row are images.
fn has_row_images(raw: &RawStep, marks: &[u64; 4], row: &[u64; 4], a: u16) -> bool
    requires marked { IsMarked raw.now marks.now }
    requires row { IsRow (words.allowed raw.now raw.now.axis) a row.now }
    ensures { OnTrue result (HasRowImages raw.now a) }
{
    are_images(raw, &blocks_of(raw, marks, row, a), a)
}

/// Whether all allowed pairs of the axis that are blocks are images.
pub fn are_blocks_images(raw: &RawStep, marks: &[u64; 4], rows: &Rows<'_>) -> bool
    requires shaped { IsShaped raw.now }
    requires marked { IsMarked raw.now marks.now }
    requires of_pairs { rows.now.pairs.now ≡ words.allowed raw.now raw.now.axis }
    ensures { OnTrue result ((a : ℕ) → a < length raw.now.fine.tiles → HasRowImages raw.now a) }
{
    for a in 0..count_tiles(raw) {
        if !has_row_images(raw, marks, &rows.row(usize::from(a)), a) {
            return false;
        }
    }
    true
}
