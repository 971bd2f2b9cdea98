//! Steps derived from tables of dominoes.
ghost use Rattle.std.specs.Prelude.{[], min, ◌≡◌, ◌⊎◌, ◌≤◌, ◌<◌, ◌+◌, None, Some, true, nat_lt, length, map, All, IfOk, IfErr, OnOk, IsTrue, ◌↔◌, if◌then◌else◌};
ghost use Rattle.std.specs.List.{list_all};
ghost use Rattle.wt_grid.specs.declared.axis.Axis.TheVariants.{One, Two};
ghost use Rattle.wt_tile.specs.Sets.{set_fault};
ghost use Rattle.wt_grid.specs.First.{or_else};
ghost use Rattle.wt_window.specs.Surrounded.{Tells, allowed, on};
ghost use Rattle.wt_marker.specs.Coarse.{is_joined, edges_of};
ghost use Rattle.wt_marker.specs.Coarse as coarse_spec;
ghost use Rattle.wt_marker.specs.Gather.{pairs_of};
ghost use Rattle.wt_marker.specs.Classes.{is_in};
ghost use Rattle.wt_marker.specs.Demanded.{demanded};
ghost use Rattle.wt_marker.specs.Derived.{IsReason, MayAnswerStep, first_spent, nodes_in, plan, IsPlan, derived, derive_fault, entries, images_of, images_with, edges_in, plan_by, all_entries};
ghost use Rattle.wt_marker.specs.Forests.{HasGrownBy, with_more};
ghost use Rattle.wt_marker.specs.Derived as spec;

use crate::DeriveEnd;
use crate::coarse::coarse_set;
use crate::forest::{Forest, plant_all};
use crate::images::find_images;
use crate::listing::{list_allowed, list_refuted};
use crate::marks::mark;
use std::alloc::{AllocError, Global};
use wt_grid::{Image, MAX_TILES};
use wt_mask::Sides;
use wt_refute::{MAX_NODES, Refuted};
use wt_seq::Seq;
use wt_step::{RawStep, Step};
use wt_tile::{Axis, SetRef, Side, TileList, repeated};
use wt_window::DominoTable;

fn on_axis<'a>(axis: Axis, one: &'a DominoTable, two: &'a DominoTable) -> &'a DominoTable
    ensures { allowed result.now ≡ on axis (allowed one.now) (allowed two.now) }
{
    match axis {
        Axis::One => one,
        Axis::Two => two,
    }
}

/// Builds the trees of the matching pairs of an axis that are no dominoes.
fn refute_axis(
    alloc: Global,
    set: SetRef<'_>,
    sides: &Sides<'_>,
    axis: Axis,
    radius: u8,
    table: &DominoTable,
    budget: u64,
    forest: &mut Forest,
) -> Result<(), DeriveEnd>
    requires radius { radius ≤ 4 }
    requires same { sides.now.tiles.now ≡ set.list.now.tiles }
    requires tells { Tells set.list.now.tiles axis radius (allowed table.now) }
    requires few { forest.old.nodes ≤ MAX_NODES + 1 }
    ensures nodes { OnOk result (forest.new.nodes ≡ with_more forest.old.nodes (nodes_in set.entry.list.now.tiles radius axis (allowed table.now))) }
    ensures entries { OnOk result (HasGrownBy (entries set.entry.list.now.tiles radius axis (allowed table.now)) forest.old forest.new) }
    ensures unspent { OnOk result (first_spent set.entry.list.now.tiles radius budget axis (allowed table.now) ≡ None) }
    ensures refused { IfErr result (IsReason (first_spent set.entry.list.now.tiles radius budget axis (allowed table.now))) }
{
    let count = set.len() as u16;
    let pairs = match list_refuted(alloc, set, axis, table, count) {
        Ok(pairs) => pairs,
        Err(AllocError) => return Err(DeriveEnd::OutOfMemory),
    };
    plant_all(alloc, sides, axis, radius, &pairs, budget, forest)
}

fn no_trees(alloc: Global) -> Forest
    ensures entries { result.entries.items ≡ [] }
    ensures nodes { result.nodes ≡ 0 }
{
    Forest {
        entries: Vec::new(alloc),
        nodes: 0,
    }
}

/// The refutations of all matching pairs that are no dominoes, each with its standard tree.
fn refute_all(
    alloc: Global,
    set: SetRef<'_>,
    sides: &Sides<'_>,
    radius: u8,
    one: &DominoTable,
    two: &DominoTable,
    budget: u64,
) -> Result<Vec<Refuted>, DeriveEnd>
    requires radius { radius ≤ 4 }
    requires same { sides.now.tiles.now ≡ set.list.now.tiles }
    requires tells1 { Tells set.list.now.tiles One radius (allowed one.now) }
    requires tells2 { Tells set.list.now.tiles Two radius (allowed two.now) }
    ensures entries { IfOk result (λ out. out.items ≡ all_entries set.entry.list.now.tiles radius (allowed one.now) (allowed two.now)) }
    ensures none { OnOk result (spec.trees_fault set.entry.list.now.tiles radius (allowed one.now) (allowed two.now) budget ≡ None) }
    ensures refused { IfErr result (IsReason (spec.trees_fault set.entry.list.now.tiles radius (allowed one.now) (allowed two.now) budget)) }
{
    let mut forest = no_trees(alloc);
    match refute_axis(
        alloc,
        set,
        sides,
        Axis::One,
        radius,
        one,
        budget,
        &mut forest,
    ) {
        Err(end) => return Err(end),
        Ok(()) => {}
    }
    match refute_axis(
        alloc,
        set,
        sides,
        Axis::Two,
        radius,
        two,
        budget,
        &mut forest,
    ) {
        Err(end) => return Err(end),
        Ok(()) => {}
    }
    if forest.nodes > MAX_NODES {
        return Err(DeriveEnd::TooManyNodes);
    }
    Ok(forest.entries)
}

fn has_none(images: &[Image]) -> bool
    ensures { IsTrue result ↔ (length images.now ≡ 0) }
{
    images.is_empty()
}

/// The coarse set of the images, or why there is none.
fn fuse_all(
    alloc: Global,
    set: SetRef<'_>,
    axis: Axis,
    images: &[Image],
) -> Result<TileList, DeriveEnd>
    requires { list_all (is_joined set.list.now.tiles axis) images.now ≡ true }
    ensures coarse { IfOk result (λ coarse. coarse ≡ coarse_spec.coarse_set (map (edges_of set.entry.list.now.tiles axis) images.now)) }
    ensures none { OnOk result (spec.images_fault set.entry.list.now.tiles axis images.now ≡ None) }
    ensures refused { IfErr result (IsReason (spec.images_fault set.entry.list.now.tiles axis images.now)) }
{
    if has_none(images) {
        return Err(DeriveEnd::EmptySet);
    }
    if images.len() > MAX_TILES {
        return Err(DeriveEnd::TooManyTiles);
    }
    let coarse = match coarse_set(alloc, set.tiles(), axis, images) {
        Ok(coarse) => coarse,
        Err(AllocError) => return Err(DeriveEnd::OutOfMemory),
    };
    if let Some((first, second)) = repeated(coarse.tiles.as_slice()) {
        return Err(DeriveEnd::Repeated { first, second });
    }
    Ok(coarse)
}

/// The images that a class of markers demands.
fn list_images(
    alloc: Global,
    set: SetRef<'_>,
    side: Side,
    class: &[u16],
    table: &DominoTable,
) -> Result<Vec<Image>, AllocError>
    requires { All (λ t. t < MAX_TILES) class.now }
    ensures { IfOk result (λ images. images.items ≡ images_with side (allowed table.now) class.now (length set.entry.list.now.tiles)) }
{
    let count = set.len() as u16;
    let marks = mark(class);
    let pairs = list_allowed(alloc, table, count)?;
    find_images(alloc, side, table, &pairs, &marks, count)
}

/// The step as it is read.
fn derive_raw(
    alloc: Global,
    set: SetRef<'_>,
    axis: Axis,
    side: Side,
    radius: u8,
    class: &[u16],
    one: &DominoTable,
    two: &DominoTable,
    budget: u64,
) -> Result<RawStep, DeriveEnd>
    requires small { radius ≤ 4 }
    requires plan { IsPlan (plan_by set.list.now axis side radius class.now one.now two.now) }
    ensures derived { IfOk result (λ step. step ≡ derived (plan_by set.entry.list.now axis side radius class.now one.now two.now)) }
    ensures none { OnOk result (derive_fault (plan_by set.entry.list.now axis side radius class.now one.now two.now) budget ≡ None) }
    ensures refused { IfErr result (IsReason (derive_fault (plan_by set.entry.list.now axis side radius class.now one.now two.now) budget)) }
{
    let count = set.len() as u16;
    let images = list_images(alloc, set, side, class, on_axis(axis, one, two))?;
    let coarse = match fuse_all(alloc, set, axis, &images) {
        Ok(coarse) => coarse,
        Err(end) => return Err(end),
    };
    let refuted = match refute_all(
        alloc,
        set,
        &Sides::new(set.tiles()),
        radius,
        one,
        two,
        budget,
    ) {
        Ok(refuted) => refuted,
        Err(end) => return Err(end),
    };
    let fine = set.list().copy(alloc)?;
    let markers = Vec::from_slice(alloc, class)?;
    let allowed1 = list_allowed(alloc, one, count)?;
    let allowed2 = list_allowed(alloc, two, count)?;
    Ok(RawStep {
        axis,
        side,
        radius,
        fine,
        coarse,
        markers: Seq::new(markers),
        allowed1: Seq::new(allowed1),
        allowed2: Seq::new(allowed2),
        refuted: Seq::new(refuted),
        images: Seq::new(images),
    })
}

/// The good step that a kept class of markers makes, for the tables of dominoes of both axes at a radius: its
/// allowed pairs are the dominoes, and the other matching pairs are refuted by their standard trees. Its
/// images
/// are those that the markers demand, and its coarse tiles show what the images show, with colours
/// numbered by
/// first coming and named by their numbers. The reasons for a refusal are those of `DeriveEnd`, the first
/// that holds.
pub fn derive_step(
    alloc: Global,
    set: SetRef<'_>,
    axis: Axis,
    side: Side,
    radius: u8,
    class: &[u16],
    one: &DominoTable,
    two: &DominoTable,
    budget: u64,
) -> Result<Step, DeriveEnd>
    requires small { radius ≤ 4 }
    requires plan { IsPlan (plan_by set.list.now axis side radius class.now one.now two.now) }
    ensures { MayAnswerStep (plan_by set.entry.list.now axis side radius class.now one.now two.now) budget result }
{
    match derive_raw(alloc, set, axis, side, radius, class, one, two, budget) {
        Ok(raw) => Ok(Step::of(raw)),
        Err(end) => Err(end),
    }
}
