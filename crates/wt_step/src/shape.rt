// Lists in order and in range.
ghost use Rattle.std.specs.Prelude.{◌≡◌, ◌≤◌, length};
ghost use Rattle.std.specs.List.{list_all};
ghost use Rattle.wt_grid.specs.Order.{in_order};
ghost use Rattle.wt_step.specs.Words as words;
ghost use Rattle.wt_refute.specs.Entries.{entries_follow};
ghost use Rattle.wt_step.specs.Faults.{IsShaped};
ghost use Rattle.wt_step.specs.Faults as faults;

use crate::order::{numbers_ascend, pairs_ascend};
use crate::{RawStep, StepFault};
use wt_grid::MAX_TILES;
use wt_morphism::Image;
use wt_refute::{Refuted, entry_leads};
use wt_tile::{Axis, set_fault};

fn entry_fits(radius: u8, below: usize, entry: &Refuted) -> bool
    ensures { result ≡ words.entry_fits radius below entry.now }
{
    entry.radius <= radius && usize::from(entry.a) < below && usize::from(entry.b) < below
}

fn entries_ascend(radius: u8, below: usize, entries: &[Refuted]) -> bool
    ensures { result ≡ in_order (words.entry_fits radius below) entries_follow entries.now }
{
    let mut left = entries;
    while let [entry, after @ ..] = left {
        if !entry_fits(radius, below, entry) || !entry_leads(entry, after) {
            return false;
        }
        left = after;
    }
    true
}

fn image_fits(below: usize, image: Image) -> bool
    ensures { result ≡ words.image_fits below image }
{
    match image {
        Image::One(a) => usize::from(a) < below,
        Image::Two(a, b) => usize::from(a) < below && usize::from(b) < below,
    }
}

fn all_fit(below: usize, images: &[Image]) -> bool
    ensures { result ≡ list_all (words.image_fits below) images.now }
{
    for image in images {
        if !image_fits(below, *image) {
            return false;
        }
    }
    true
}

/// The allowed pairs of an axis.
pub fn allowed(raw: &RawStep, axis: Axis) -> &[(u16, u16)]
    ensures { result.now ≡ words.allowed raw.now axis }
{
    match axis {
        Axis::One => raw.allowed1.as_slice(),
        Axis::Two => raw.allowed2.as_slice(),
    }
}

/// How many tiles the fine set has.
pub fn count_tiles(raw: &RawStep) -> u16
    requires { IsShaped raw.now }
    ensures value { result ≡ length raw.now.fine.tiles }
    ensures small { result ≤ MAX_TILES }
{
    raw.fine.tiles.as_slice().len() as u16
}

fn markers_fit(raw: &RawStep) -> bool
    ensures { result ≡ faults.markers_fit raw.now }
{
    let tiles = raw.fine.tiles.as_slice().len();
    let markers = raw.markers.as_slice();
    numbers_ascend(tiles, markers) && 0 < markers.len() && markers.len() < tiles
}

fn allowed_fit(raw: &RawStep, axis: Axis) -> bool
    ensures { result ≡ faults.allowed_fit raw.now axis }
{
    pairs_ascend(raw.fine.tiles.as_slice().len(), allowed(raw, axis))
}

fn refuted_fit(raw: &RawStep) -> bool
    ensures { result ≡ faults.refuted_fit raw.now }
{
    entries_ascend(
        raw.radius,
        raw.fine.tiles.as_slice().len(),
        raw.refuted.as_slice(),
    )
}

fn images_fit(raw: &RawStep) -> bool
    ensures { result ≡ faults.images_fit raw.now }
{
    let images = raw.images.as_slice();
    images.len() == raw.coarse.tiles.as_slice().len()
        && all_fit(raw.fine.tiles.as_slice().len(), images)
}

/// The first fault of the lists.
#[tactic(auto, unfolding(crate::specs::Faults::shape_fault))]
pub fn shape_fault(raw: &RawStep) -> Option<StepFault>
    ensures { result ≡ faults.shape_fault raw.now }
{
    if raw.radius > 4 {
        return Some(StepFault::Radius);
    }
    if let Some(fault) = set_fault(&raw.fine) {
        return Some(StepFault::Fine(fault));
    }
    if let Some(fault) = set_fault(&raw.coarse) {
        return Some(StepFault::Coarse(fault));
    }
    if !markers_fit(raw) {
        return Some(StepFault::Markers);
    }
    if !allowed_fit(raw, Axis::One) {
        return Some(StepFault::Allowed(Axis::One));
    }
    if !allowed_fit(raw, Axis::Two) {
        return Some(StepFault::Allowed(Axis::Two));
    }
    if !refuted_fit(raw) {
        return Some(StepFault::RefutedList);
    }
    if !images_fit(raw) {
        return Some(StepFault::Images);
    }
    None
}
