// What images show of their edges, and whether coarse tiles match as their images do.
ghost use Rattle.std.specs.Prelude.{◌≡◌, ◌≤◌, false, length, replicate, slice_index_or};
ghost use Rattle.wt_step.specs.Words as words;
ghost use Rattle.wt_step.specs.Faults.{IsShaped};
ghost use Rattle.wt_step.specs.Faults as faults;
ghost use Rattle.wt_step.specs.Joins as spec;

use crate::rules::{agree, first_tile, image_at, last_tile};
use crate::{RawStep, StepFault};
use wt_grid::MAX_TILES;
use wt_morphism::Image;
use wt_tile::{Axis, Tile, ahead, behind, is_match, same_axis, tile_at};

/// The edges of an image on one of its sides: of one piece, or of two.
#[derive(Clone, Copy)]
struct Edges {
    /// Whether there are two.
    double: bool,
    /// The colour of the first.
    first: u16,
    /// The colour of the second, or 0.
    second: u16,
}

/// How many tiles the coarse set has.
fn count_coarse(raw: &RawStep) -> u16
    requires { IsShaped raw.now }
    ensures value { result ≡ length raw.now.coarse.tiles }
    ensures small { result ≤ MAX_TILES }
{
    raw.coarse.tiles.as_slice().len() as u16
}

fn one_edge(colour: u16) -> Edges
    ensures { result ≡ spec.one_edge colour }
{
    Edges {
        double: false,
        first: colour,
        second: 0,
    }
}

fn two_edges(first: u16, second: u16) -> Edges
    ensures { result ≡ spec.two_edges first second }
{
    Edges {
        double: true,
        first,
        second,
    }
}

fn same_edges(x: Edges, y: Edges) -> bool
    ensures { result ≡ spec.same_edges x y }
{
    agree(x.double, y.double) && x.first == y.first && x.second == y.second
}

fn shown_pieces(tiles: &[Tile], axis: Axis, image: Image) -> Edges
    ensures { result ≡ spec.shown_by false tiles.now axis image }
{
    match image {
        Image::One(a) => one_edge(ahead(axis, tile_at(tiles, a))),
        Image::Two(a, b) => two_edges(
            ahead(axis, tile_at(tiles, a)),
            ahead(axis, tile_at(tiles, b)),
        ),
    }
}

fn met_pieces(tiles: &[Tile], axis: Axis, image: Image) -> Edges
    ensures { result ≡ spec.met_by false tiles.now axis image }
{
    match image {
        Image::One(a) => one_edge(behind(axis, tile_at(tiles, a))),
        Image::Two(a, b) => two_edges(
            behind(axis, tile_at(tiles, a)),
            behind(axis, tile_at(tiles, b)),
        ),
    }
}

/// The edges that an image shows the next image along an axis.
fn shown(raw: &RawStep, axis: Axis, image: Image) -> Edges
    ensures { result ≡ spec.shown raw.now axis image }
{
    let tiles = raw.fine.tiles.as_slice();
    if same_axis(axis, raw.axis) {
        one_edge(ahead(axis, tile_at(tiles, last_tile(image))))
    } else {
        shown_pieces(tiles, axis, image)
    }
}

/// The edges that an image shows the image before it along an axis.
fn met(raw: &RawStep, axis: Axis, image: Image) -> Edges
    ensures { result ≡ spec.met raw.now axis image }
{
    let tiles = raw.fine.tiles.as_slice();
    if same_axis(axis, raw.axis) {
        one_edge(behind(axis, tile_at(tiles, first_tile(image))))
    } else {
        met_pieces(tiles, axis, image)
    }
}

fn no_table() -> [Edges; MAX_TILES]
    ensures { result ≡ replicate MAX_TILES (spec.one_edge 0) }
{
    [one_edge(0); MAX_TILES]
}

/// The edges that each image shows the image before it.
fn met_table(raw: &RawStep, axis: Axis) -> [Edges; MAX_TILES]
    requires { IsShaped raw.now }
    ensures { spec.IsMetTable raw.now axis result }
{
    let mut table = no_table();
    for j in 0..count_coarse(raw) {
        table[usize::from(j)] = met(raw, axis, image_at(raw, usize::from(j)));
    }
    table
}

fn edges_at(table: &[Edges], j: u16) -> Edges
    ensures { result ≡ slice_index_or table.now j (spec.one_edge 0) }
{
    if usize::from(j) < table.len() {
        table[usize::from(j)]
    } else {
        one_edge(0)
    }
}

#[tactic(auto, using(crate::proofs::EdgeLaw::edges_match))]
fn join_fault_at(raw: &RawStep, axis: Axis, i: u16, j: u16, x: Edges, y: Edges) -> Option<StepFault>
    requires shown { x ≡ spec.shown raw.now axis (words.image_at raw.now i) }
    requires met { y ≡ spec.met raw.now axis (words.image_at raw.now j) }
    ensures { result ≡ faults.join_fault_at raw.now axis i j }
{
    let joined = is_match(raw.coarse.tiles.as_slice(), axis, i, j);
    let wanted = same_edges(x, y);
    if agree(joined, wanted) {
        None
    } else {
        Some(StepFault::Join { axis, a: i, b: j })
    }
}

#[tactic(auto, using(wt_grid::proofs::First::first_more))]
fn join_row(raw: &RawStep, axis: Axis, i: u16, table: &[Edges]) -> Option<StepFault>
    requires shaped { IsShaped raw.now }
    requires met { spec.IsMetTable raw.now axis table.now }
    ensures { result ≡ faults.join_row raw.now axis i }
{
    let x = shown(raw, axis, image_at(raw, usize::from(i)));
    for j in 0..count_coarse(raw) {
        if let Some(fault) = join_fault_at(raw, axis, i, j, x, edges_at(table, j)) {
            return Some(fault);
        }
    }
    None
}

/// The first coarse pair that matches otherwise than its images.
#[tactic(auto, using(wt_grid::proofs::First::first_more))]
pub fn join_fault(raw: &RawStep, axis: Axis) -> Option<StepFault>
    requires { IsShaped raw.now }
    ensures { result ≡ faults.join_fault raw.now axis }
{
    let table = met_table(raw, axis);
    for i in 0..count_coarse(raw) {
        if let Some(fault) = join_row(raw, axis, i, &table) {
            return Some(fault);
        }
    }
    None
}
