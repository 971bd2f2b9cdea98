// Good steps, owned or borrowed.
ghost use Rattle.std.specs.Prelude.{◌≡◌, ◌<◌, None, Some, length};
ghost use Rattle.wt_grid.specs.First.{first_from};
ghost use Rattle.wt_grid.specs.Order.{first_in};
ghost use Rattle.wt_grid.specs.declared.axis.Axis.TheVariants.{One, Two};
ghost use Rattle.wt_step.specs.Words as words;
ghost use Rattle.wt_step.specs.Faults.{IsShaped};
ghost use Rattle.wt_step.specs.Faults as faults;
ghost use Rattle.wt_step.specs.TileMasks.{IsMarked, IsDemanded};

use crate::joins::join_fault;
use crate::lines::{are_blocks_images, are_rows_marked_well};
use crate::marked::{demand_mask, marker_mask};
use crate::rules::{has_image, image_at, is_block, is_demanded, is_good_image, is_marked_well};
use crate::shape::{allowed, count_tiles, shape_fault};
use crate::walk::pairs_fault;
use crate::{RawStep, StepFault};
use wt_grid::MAX_TILES;
use wt_mask::{Rows, Sides};
use wt_morphism::Image;
use wt_tile::{Axis, SetRef};

fn marker_fault_at(
    raw: &RawStep,
    marks: &[u64; 4],
    axis: Axis,
    pair: (u16, u16),
) -> Option<StepFault>
    requires { IsMarked raw.now marks.now }
    ensures { result ≡ faults.marker_fault_at raw.now axis pair }
{
    if is_marked_well(raw, marks, axis, pair.0, pair.1) {
        None
    } else {
        Some(StepFault::Marker {
            axis,
            a: pair.0,
            b: pair.1,
        })
    }
}

fn marker_fault_in(
    raw: &RawStep,
    marks: &[u64; 4],
    axis: Axis,
    pairs: &[(u16, u16)],
) -> Option<StepFault>
    requires { IsMarked raw.now marks.now }
    ensures { result ≡ first_in (faults.marker_fault_at raw.now axis) pairs.now }
{
    for pair in pairs {
        if let Some(fault) = marker_fault_at(raw, marks, axis, *pair) {
            return Some(fault);
        }
    }
    None
}

fn marker_fault(raw: &RawStep, marks: &[u64; 4], rows: &Rows<'_>, axis: Axis) -> Option<StepFault>
    requires shaped { IsShaped raw.now }
    requires marked { IsMarked raw.now marks.now }
    requires of_pairs { rows.now.pairs.now ≡ words.allowed raw.now axis }
    ensures { result ≡ faults.marker_fault raw.now axis }
{
    if are_rows_marked_well(raw, marks, rows, axis) {
        return None;
    }
    marker_fault_in(raw, marks, axis, allowed(raw, axis))
}

fn image_fault_at(raw: &RawStep, marks: &[u64; 4], i: usize) -> Option<StepFault>
    requires shaped { IsShaped raw.now }
    requires marked { IsMarked raw.now marks.now }
    requires inside { i < length raw.now.images }
    ensures { result ≡ faults.image_fault_at raw.now i }
{
    let image = image_at(raw, i);
    if is_good_image(raw, marks, image) && !has_image(image, &raw.images.as_slice()[..i]) {
        None
    } else {
        Some(StepFault::Image { index: i })
    }
}

#[tactic(auto, using(wt_grid::proofs::First::first_more))]
fn image_fault(raw: &RawStep, marks: &[u64; 4]) -> Option<StepFault>
    requires shaped { IsShaped raw.now }
    requires marked { IsMarked raw.now marks.now }
    ensures { result ≡ faults.image_fault raw.now }
{
    for i in 0..raw.images.as_slice().len() {
        if let Some(fault) = image_fault_at(raw, marks, i) {
            return Some(fault);
        }
    }
    None
}

fn missing_tile_at(
    raw: &RawStep,
    marks: &[u64; 4],
    demanded: &[u64; 4],
    u: u16,
) -> Option<StepFault>
    requires marked { IsMarked raw.now marks.now }
    requires demanded { IsDemanded raw.now demanded.now }
    requires low { u < MAX_TILES }
    ensures { result ≡ faults.missing_tile_at raw.now u }
{
    if !is_demanded(raw, marks, demanded, u) || has_image(Image::One(u), raw.images.as_slice()) {
        None
    } else {
        Some(StepFault::MissingTile { tile: u })
    }
}

#[tactic(auto, using(wt_grid::proofs::First::first_more))]
fn missing_tile(raw: &RawStep, marks: &[u64; 4]) -> Option<StepFault>
    requires shaped { IsShaped raw.now }
    requires marked { IsMarked raw.now marks.now }
    ensures { result ≡ faults.missing_tile raw.now }
{
    let demanded = demand_mask(raw, marks);
    for u in 0..count_tiles(raw) {
        if let Some(fault) = missing_tile_at(raw, marks, &demanded, u) {
            return Some(fault);
        }
    }
    None
}

fn missing_pair_at(raw: &RawStep, marks: &[u64; 4], pair: (u16, u16)) -> Option<StepFault>
    requires { IsMarked raw.now marks.now }
    ensures { result ≡ faults.missing_pair_at raw.now pair }
{
    if !is_block(raw, marks, pair.0, pair.1)
        || has_image(Image::Two(pair.0, pair.1), raw.images.as_slice())
    {
        None
    } else {
        Some(StepFault::MissingPair {
            a: pair.0,
            b: pair.1,
        })
    }
}

fn missing_pair_in(raw: &RawStep, marks: &[u64; 4], pairs: &[(u16, u16)]) -> Option<StepFault>
    requires { IsMarked raw.now marks.now }
    ensures { result ≡ first_in (faults.missing_pair_at raw.now) pairs.now }
{
    for pair in pairs {
        if let Some(fault) = missing_pair_at(raw, marks, *pair) {
            return Some(fault);
        }
    }
    None
}

fn missing_pair(raw: &RawStep, marks: &[u64; 4], rows: &Rows<'_>) -> Option<StepFault>
    requires shaped { IsShaped raw.now }
    requires marked { IsMarked raw.now marks.now }
    requires of_pairs { rows.now.pairs.now ≡ words.allowed raw.now raw.now.axis }
    ensures { result ≡ faults.missing_pair raw.now }
{
    if are_blocks_images(raw, marks, rows) {
        return None;
    }
    missing_pair_in(raw, marks, allowed(raw, raw.axis))
}

/// The same with the rows of both axes at hand.
fn missing_pair_by(
    raw: &RawStep,
    marks: &[u64; 4],
    rows1: &Rows<'_>,
    rows2: &Rows<'_>,
) -> Option<StepFault>
    requires shaped { IsShaped raw.now }
    requires marked { IsMarked raw.now marks.now }
    requires first { rows1.now.pairs.now ≡ words.allowed raw.now One }
    requires second { rows2.now.pairs.now ≡ words.allowed raw.now Two }
    ensures { result ≡ faults.missing_pair raw.now }
{
    match raw.axis {
        Axis::One => missing_pair(raw, marks, rows1),
        Axis::Two => missing_pair(raw, marks, rows2),
    }
}

#[tactic(auto, unfolding(crate::specs::Faults::rules_fault))]
fn rules_fault(raw: &RawStep) -> Option<StepFault>
    requires { IsShaped raw.now }
    ensures { result ≡ faults.rules_fault raw.now }
{
    let sides = Sides::new(SetRef::of(&raw.fine).tiles());
    let rows1 = Rows::new(allowed(raw, Axis::One));
    let rows2 = Rows::new(allowed(raw, Axis::Two));
    if let Some(fault) = pairs_fault(raw, &sides, &rows1, Axis::One) {
        return Some(fault);
    }
    if let Some(fault) = pairs_fault(raw, &sides, &rows2, Axis::Two) {
        return Some(fault);
    }
    let marks = marker_mask(raw);
    if let Some(fault) = marker_fault(raw, &marks, &rows1, Axis::One) {
        return Some(fault);
    }
    if let Some(fault) = marker_fault(raw, &marks, &rows2, Axis::Two) {
        return Some(fault);
    }
    if let Some(fault) = image_fault(raw, &marks) {
        return Some(fault);
    }
    if let Some(fault) = missing_tile(raw, &marks) {
        return Some(fault);
    }
    if let Some(fault) = missing_pair_by(raw, &marks, &rows1, &rows2) {
        return Some(fault);
    }
    if let Some(fault) = join_fault(raw, Axis::One) {
        return Some(fault);
    }
    join_fault(raw, Axis::Two)
}

/// The first failing condition of a marker step, in the order of `StepFault`'s variants, at its first
/// place; none exactly where it is good (`good_steps`). Takes no memory.
#[tactic(auto, unfolding(crate::specs::Faults::step_fault))]
pub fn step_fault(raw: &RawStep) -> Option<StepFault>
    ensures { result ≡ faults.step_fault raw.now }
{
    match shape_fault(raw) {
        Some(fault) => Some(fault),
        None => rules_fault(raw),
    }
}
