//! The classes of tiles that dominoes join, and those of them that are markers.
ghost use Rattle.std.specs.Prelude.{◌≡◌, ◌≤◌, ◌<◌, ◌++◌, length, map, IfOk, OnOk};
ghost use Rattle.wt_grid.specs.Axes.{other};
ghost use Rattle.std.specs.List.{range_with_len};
ghost use Rattle.wt_tile.specs.Sets.{set_fault};
ghost use Rattle.wt_marker.specs.Gather.{any_from};
ghost use Rattle.wt_window.specs.Surrounded.{allowed};
ghost use Rattle.wt_marker.specs.Classes.{labels_of, class_at, kept_classes, kept_on};
ghost use Rattle.wt_marker.specs.Classes as spec;

use crate::pushes::push_if;
use std::alloc::{AllocError, Global};
use wt_tile::{Axis, SetRef};
use wt_window::DominoTable;

fn instead(old: u16, new: u16, label: u16) -> u16
    ensures { result ≡ spec.instead old new label }
{
    if label == old { new } else { label }
}

/// Gives one label in place of another.
fn relabel(labels: &mut [u16], old: u16, new: u16)
    ensures { labels.new ≡ map (spec.instead old new) labels.old }
{
    for i in 0..labels.len() {
        labels[i] = instead(old, new, labels[i]);
    }
}

/// Makes the classes of the two tiles one, where they are a domino.
fn join_at(labels: &mut [u16], table: &DominoTable, a: u16, b: u16)
    requires first { a < length labels.old }
    requires second { b < length labels.old }
    ensures { labels.new ≡ spec.join_at (allowed table.now) a labels.old b }
{
    if table.allows(a, b) {
        let x = labels[usize::from(a)];
        let y = labels[usize::from(b)];
        if x != y {
            relabel(labels, x.max(y), x.min(y));
        }
    }
}

/// The same for all dominoes with a in front.
#[tactic(auto, using(crate::proofs::Gather::fold_more))]
fn join_row(labels: &mut [u16], table: &DominoTable, a: u16, count: u16)
    requires first { a < length labels.old }
    requires all { length labels.old ≡ count }
    ensures value { labels.new ≡ spec.join_row (allowed table.now) count labels.old a }
    ensures all { length labels.new ≡ count }
{
    for b in 0..count {
        join_at(labels, table, a, b);
    }
}

/// The numbers below a count.
fn numbers(alloc: Global, count: u16) -> Result<Vec<u16>, AllocError>
    ensures { IfOk result (λ out. out.items ≡ range_with_len 0 count) }
{
    let mut out = Vec::new(alloc);
    for a in 0..count {
        out.push(a)?;
    }
    Ok(out)
}

/// The label of each tile: the least tile that dominoes join with it.
#[tactic(auto, using(crate::proofs::Gather::fold_more))]
fn find_labels(alloc: Global, table: &DominoTable, count: u16) -> Result<Vec<u16>, AllocError>
    ensures value { IfOk result (λ out. out.items ≡ labels_of (allowed table.now) count) }
    ensures all { IfOk result (λ out. length out.items ≡ count) }
{
    let mut labels = numbers(alloc, count)?;
    for a in 0..count {
        join_row(&mut labels, table, a, count);
    }
    Ok(labels)
}

fn has_label(labels: &[u16], t: u16, a: u16) -> bool
    requires { a < length labels.now }
    ensures { result ≡ spec.has_label labels.now t a }
{
    labels[usize::from(a)] == t
}

fn meets_at(table: &DominoTable, labels: &[u16], t: u16, inside: bool, b: u16, a: u16) -> bool
    requires { a < length labels.now }
    ensures { result ≡ spec.meets_at (allowed table.now) labels.now t inside b a }
{
    has_label(labels, t, a) == inside && table.allows(a, b)
}

#[tactic(auto, using(crate::proofs::Gather::any_more))]
fn meets_row(table: &DominoTable, labels: &[u16], count: u16, t: u16, inside: bool, b: u16) -> bool
    requires second { b < length labels.now }
    requires all { length labels.now ≡ count }
    ensures { result ≡ spec.meets_row (allowed table.now) labels.now count t inside b }
{
    if !has_label(labels, t, b) {
        return false;
    }
    for a in 0..count {
        if meets_at(table, labels, t, inside, b, a) {
            return true;
        }
    }
    false
}

/// Whether a tile inside or outside of a class stands before one of the class.
#[tactic(auto, using(crate::proofs::Gather::any_more))]
fn meets(table: &DominoTable, labels: &[u16], count: u16, t: u16, inside: bool) -> bool
    requires { length labels.now ≡ count }
    ensures { result ≡ spec.meets (allowed table.now) labels.now count t inside }
{
    for b in 0..count {
        if meets_row(table, labels, count, t, inside, b) {
            return true;
        }
    }
    false
}

fn is_kept(table: &DominoTable, labels: &[u16], count: u16, t: u16) -> bool
    requires first { t < length labels.now }
    requires all { length labels.now ≡ count }
    ensures { result ≡ spec.is_kept (allowed table.now) labels.now count t }
{
    has_label(labels, t, t)
        && !meets(table, labels, count, t, true)
        && meets(table, labels, count, t, false)
}

fn class_of(alloc: Global, labels: &[u16], count: u16, t: u16) -> Result<Vec<u16>, AllocError>
    requires { length labels.now ≡ count }
    ensures { IfOk result (λ out. out.items ≡ spec.class_of labels.now count t) }
{
    let mut out = Vec::new(alloc);
    for a in 0..count {
        push_if(&mut out, has_label(labels, t, a), a)?;
    }
    Ok(out)
}

/// Appends the class of a tile, where it is a kept one and the tile is its least.
fn push_kept(
    alloc: Global,
    out: &mut Vec<Vec<u16>>,
    table: &DominoTable,
    labels: &[u16],
    count: u16,
    t: u16,
) -> Result<(), AllocError>
    requires first { t < length labels.now }
    requires all { length labels.now ≡ count }
    ensures { OnOk result (map (λ c. c.items) out.new.items ≡ map (λ c. c.items) out.old.items ++ class_at (allowed table.now) labels.now count t) }
{
    if is_kept(table, labels, count, t) {
        let class = class_of(alloc, labels, count, t)?;
        out.push(class)?;
    }
    Ok(())
}

/// The kept classes, where the other axis and this one have these tables.
fn classes_by(
    alloc: Global,
    other: &DominoTable,
    table: &DominoTable,
    count: u16,
) -> Result<Vec<Vec<u16>>, AllocError>
    ensures { IfOk result (λ classes. map (λ c. c.items) classes.items ≡ kept_classes count (allowed other.now) (allowed table.now)) }
{
    let labels = find_labels(alloc, other, count)?;
    let mut out = Vec::new(alloc);
    for t in 0..count {
        push_kept(alloc, &mut out, table, &labels, count, t)?;
    }
    Ok(out)
}

/// The classes of markers of a set, for the tables of dominoes of axis 1 and axis 2. A class is all tiles
/// that dominoes of the other axis join. It is kept where no domino of the axis is inside, and one goes from a
/// tile outside to one of the class. Classes are listed by their least tile, each ascending. Fails only where
/// memory runs out.
pub fn marker_classes(
    alloc: Global,
    set: SetRef<'_>,
    axis: Axis,
    one: &DominoTable,
    two: &DominoTable,
) -> Result<Vec<Vec<u16>>, AllocError>
    ensures { IfOk result (λ classes. map (λ c. c.items) classes.items
        ≡ kept_on (length set.entry.list.now.tiles) axis (allowed one.now) (allowed two.now)) }
{
    let count = set.len() as u16;
    match axis {
        Axis::One => classes_by(alloc, two, one, count),
        Axis::Two => classes_by(alloc, one, two, count),
    }
}
