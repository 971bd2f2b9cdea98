// A pattern taken over by a good restrict step.
ghost use Rattle.std.specs.Prelude.{◌≡◌, ◌≤◌, ◌<◌, ◌*◌, ◌++◌, length, slice_set, IfOk, OnOk};
ghost use Rattle.wt_grid.specs.Grid.{listed, grid_of};
ghost use Rattle.wt_grid.specs.Parts.{core};
ghost use Rattle.wt_pattern.specs.Patterns.{AllTiles, IsPattern};
ghost use Rattle.wt_step.specs.Good.{IsGoodRestrict};
ghost use Rattle.wt_step.specs.Meaning.{IsRestriction};
ghost use Rattle.wt_step.specs.Blocks.{IsPlaced, kept_cell, kept_in};
ghost use Rattle.wt_step.specs.Blocks as spec;

use crate::RawRestrict;
use crate::apart::{core_across, core_lines};
use crate::cells::{look_up, row_from};
use crate::restrict::kept_at;
use std::alloc::{AllocError, Global};
use wt_grid::{MAX_SIDE, MAX_TILES};
use wt_pattern::Pattern;
use wt_tile::Axis;

#[tactic(auto, using(crate::proofs::Placed::kept_sizes))]
fn count_tiles(raw: &RawRestrict) -> usize
    requires { IsGoodRestrict raw.now }
    ensures value { result ≡ length raw.now.fine.tiles }
    ensures few { result ≤ MAX_TILES }
{
    raw.fine.tiles.as_slice().len()
}

#[tactic(auto, using(crate::proofs::Placed::kept_sizes))]
fn count_kept(raw: &RawRestrict) -> u16
    requires { IsGoodRestrict raw.now }
    ensures value { result ≡ length raw.now.kept }
    ensures few { result ≤ MAX_TILES }
{
    raw.kept.as_slice().len() as u16
}

fn note_place(places: &mut Vec<u16>, tile: u16, i: u16)
    requires { tile < length places.old.items }
    ensures { places.new.items ≡ slice_set places.old.items tile i }
{
    places[usize::from(tile)] = i;
}

/// The place of each kept tile, by tile.
fn place_kept(alloc: Global, raw: &RawRestrict) -> Result<Vec<u16>, AllocError>
    requires { IsGoodRestrict raw.now }
    ensures { IfOk result (λ places. IsPlaced raw.now.kept (length raw.now.fine.tiles) (length raw.now.kept) places.items) }
{
    let mut places = vec![in alloc; 0u16; count_tiles(raw)]?;
    for i in 0..count_kept(raw) {
        note_place(&mut places, kept_at(raw, i), i);
    }
    Ok(places)
}

/// Makes row y of the coarse pattern, and appends it.
fn push_kept_row(
    raw: &RawRestrict,
    p: &Pattern,
    places: &[u16],
    y: usize,
    row: &mut [u16],
    cells: &mut Vec<u16>,
) -> Result<(), AllocError>
    requires good { IsGoodRestrict raw.now }
    requires tiles { AllTiles raw.now.fine.tiles p.now }
    requires places { length places.now ≡ length raw.now.fine.tiles }
    requires wide { 1 ≤ (core raw.now.radius p.now).width }
    requires size { length row.old ≡ (core raw.now.radius p.now).width }
    requires row { y < (core raw.now.radius p.now).height }
    requires low { y ≤ MAX_SIDE }
    ensures cells { OnOk result (cells.new.items ≡ cells.old.items ++ listed (length row.old) (kept_in raw.now p.now places.now y)) }
    ensures size { length row.new ≡ length row.old }
{
    let radius = usize::from(raw.radius);
    look_up(places, row_from(p, radius, radius + y), row);
    cells.extend_from_slice(row)
}

/// The cells of the coarse pattern in reading order.
fn kept_cells(
    alloc: Global,
    raw: &RawRestrict,
    p: &Pattern,
    places: &[u16],
    width: usize,
    height: usize,
) -> Result<Vec<u16>, AllocError>
    requires good { IsGoodRestrict raw.now }
    requires tiles { AllTiles raw.now.fine.tiles p.now }
    requires places { length places.now ≡ length raw.now.fine.tiles }
    requires wide { 1 ≤ width }
    requires narrow { width ≤ MAX_SIDE }
    requires low { height ≤ MAX_SIDE }
    requires width { width ≡ (core raw.now.radius p.now).width }
    requires height { height ≡ (core raw.now.radius p.now).height }
    ensures { IfOk result (λ cells. cells.items ≡ listed (width * height) (kept_cell raw.now p.now places.now width)) }
{
    let mut cells = Vec::with_capacity(alloc, width * height)?;
    let mut row = vec![in alloc; 0u16; width]?;
    for y in 0..height {
        push_kept_row(raw, p, places, y, &mut row, &mut cells)?;
    }
    Ok(cells)
}

/// The pattern of these cells.
fn kept_pattern(
    alloc: Global,
    raw: &RawRestrict,
    p: &Pattern,
    places: &[u16],
    width: usize,
    height: usize,
) -> Result<Pattern, AllocError>
    requires good { IsGoodRestrict raw.now }
    requires tiles { AllTiles raw.now.fine.tiles p.now }
    requires places { length places.now ≡ length raw.now.fine.tiles }
    requires width { width ≡ (core raw.now.radius p.now).width }
    requires height { height ≡ (core raw.now.radius p.now).height }
    requires wide { 1 ≤ width }
    requires narrow { width ≤ MAX_SIDE }
    requires high { 1 ≤ height }
    requires low { height ≤ MAX_SIDE }
    ensures { IfOk result (λ q. q ≡ grid_of width height (spec.kept_tile raw.now p.now places.now)) }
{
    let cells = kept_cells(alloc, raw, p, places, width, height)?;
    Ok(Pattern::of(width, height, cells))
}

/// The coarse pattern whose image is the core.
pub fn keep(alloc: Global, raw: &RawRestrict, p: &Pattern) -> Result<Pattern, AllocError>
    requires good { IsGoodRestrict raw.now }
    requires pattern { IsPattern raw.now.fine.tiles p.now }
    requires wide { 1 ≤ (core raw.now.radius p.now).width }
    requires high { 1 ≤ (core raw.now.radius p.now).height }
    ensures kept { IfOk result (λ q. IsRestriction raw.now p.now q) }
    ensures valid { IfOk result (λ q. IsPattern raw.now.coarse.tiles q) }
{
    let places = place_kept(alloc, raw)?;
    let width = core_lines(p, Axis::One, raw.radius);
    let height = core_across(p, Axis::One, raw.radius);
    let pattern = kept_pattern(alloc, raw, p, &places, width, height)?;
    Ok(pattern)
}
