//! Classes, images and trees of sets of two, eleven and nineteen tiles, worked out by hand.
ghost use Rattle.std.specs.Prelude.{◌≤◌, map, Contains, IfOk, IfSome};
ghost use Rattle.wt_window.specs.Surrounded.{Tells, allowed};

use crate::{DeriveEnd, derive_step, marker_classes};
use std::alloc::{AllocError, Global};
use std::test::Fail;
use wt_grid::Image;
use wt_refute::{Refuted, Tree};
use wt_seq::Seq;
use wt_step::{RawStep, Step};
use wt_tile::{Axis, Name, SetRef, Side, Tile, TileList};
use wt_window::{DominoTable, dominoes};

/// Names of one letter each.
fn names(alloc: Global, letters: &[u8]) -> Result<Seq<Name>, AllocError> {
    let mut names = Vec::new(alloc);
    for letter in letters {
        if let Some(name) = Name::new(&[*letter]) {
            names.push(name)?;
        }
    }
    Ok(Seq::new(names))
}

/// Tiles by the numbers of their colours: right, top, left, bottom.
fn list(
    alloc: Global,
    colours: &[(u16, u16, u16, u16)],
    letters1: &[u8],
    letters2: &[u8],
) -> Result<TileList, AllocError> {
    let mut tiles = Vec::new(alloc);
    for c in colours {
        tiles.push(Tile {
            east: c.0,
            north: c.1,
            west: c.2,
            south: c.3,
        })?;
    }
    Ok(TileList {
        tiles: Seq::new(tiles),
        names1: names(alloc, letters1)?,
        names2: names(alloc, letters2)?,
    })
}

/// Two tiles of which the second may stand before the first, and nothing stands before the second.
fn two(alloc: Global) -> Result<TileList, AllocError> {
    list(alloc, &[(0, 0, 1, 0), (2, 1, 0, 1)], b"xym", b"nz")
}

/// The eleven tiles of JR.
fn eleven(alloc: Global) -> Result<TileList, AllocError> {
    list(
        alloc,
        &[
            (0, 0, 0, 1),
            (0, 2, 0, 3),
            (1, 1, 2, 1),
            (1, 2, 2, 2),
            (2, 1, 2, 4),
            (3, 1, 2, 1),
            (3, 3, 3, 1),
            (2, 1, 3, 2),
            (3, 2, 1, 2),
            (1, 2, 1, 0),
            (2, 4, 1, 2),
        ],
        b"2130",
        b"41203",
    )
}

/// The nineteen tiles of U.
fn nineteen(alloc: Global) -> Result<TileList, AllocError> {
    list(
        alloc,
        &[
            (0, 0, 1, 0),
            (0, 0, 2, 1),
            (1, 2, 0, 3),
            (3, 2, 0, 4),
            (2, 3, 1, 3),
            (2, 3, 2, 5),
            (2, 4, 0, 3),
            (2, 4, 3, 3),
            (4, 0, 5, 0),
            (6, 1, 7, 0),
            (6, 1, 8, 1),
            (9, 1, 5, 0),
            (7, 3, 6, 3),
            (7, 3, 5, 3),
            (5, 3, 6, 4),
            (5, 3, 5, 4),
            (5, 4, 4, 2),
            (5, 4, 9, 4),
            (8, 5, 5, 3),
        ],
        b"FJHDBIGECA",
        b"OLMPKN",
    )
}

fn table(alloc: Global, set: SetRef<'_>, axis: Axis, radius: u8) -> Result<DominoTable, Fail>
    requires { radius ≤ 4 }
    ensures { IfOk result (λ t. Tells set.entry.list.now.tiles axis radius (allowed t)) }
{
    match dominoes(alloc, set, axis, radius, 1000) {
        Ok(table) => Ok(table),
        Err(_) => Err(Fail::new("no table")),
    }
}

fn first_class(classes: &[Vec<u16>]) -> Option<&[u16]>
    ensures { IfSome result (λ class. Contains (map (λ c. c.items) classes.now) class.now) }
{
    if classes.is_empty() {
        return None;
    }
    Some(classes[0].as_slice())
}

/// The step that the first kept class makes, or why there is none.
fn first_step(
    alloc: Global,
    set: SetRef<'_>,
    axis: Axis,
    side: Side,
    radius: u8,
) -> Result<Result<Step, DeriveEnd>, Fail>
    requires { radius ≤ 4 }
{
    let one = table(alloc, set, Axis::One, radius)?;
    let two = table(alloc, set, Axis::Two, radius)?;
    let classes = marker_classes(alloc, set, axis, &one, &two)?;
    let Some(class) = first_class(classes.as_slice()) else {
        return Err(Fail::new("no class is kept"));
    };
    Ok(derive_step(alloc, set, axis, side, radius, class, &one, &two, 1000))
}

/// That step along an axis, for markers that stand after.
fn step_after(alloc: Global, list: &TileList, axis: Axis, radius: u8) -> Result<RawStep, Fail>
    requires { radius ≤ 4 }
{
    let set = SetRef::new(list).map_err(|_| "set")?;
    match first_step(alloc, set, axis, Side::After, radius)? {
        Ok(step) => Ok(step.into_raw()),
        Err(_) => Err(Fail::new("no step")),
    }
}

/// Images as numbers: a single tile has its own number twice.
fn pairs(alloc: Global, images: &[Image]) -> Result<Vec<(u16, u16)>, AllocError> {
    let mut pairs = Vec::new(alloc);
    for image in images {
        pairs.push(match image {
            Image::One(a) => (*a, *a),
            Image::Two(a, b) => (*a, *b),
        })?;
    }
    Ok(pairs)
}

/// Images, of which a single tile has its own number twice.
fn eleven_images() -> [(u16, u16); 13] {
    [
        (2, 2),
        (3, 3),
        (4, 4),
        (5, 5),
        (7, 7),
        (8, 8),
        (9, 9),
        (10, 10),
        (2, 0),
        (4, 0),
        (5, 0),
        (6, 1),
        (7, 0),
    ]
}

fn nineteen_images() -> [(u16, u16); 21] {
    [
        (2, 2),
        (3, 3),
        (6, 6),
        (7, 7),
        (14, 14),
        (16, 16),
        (17, 17),
        (2, 0),
        (4, 1),
        (5, 1),
        (6, 1),
        (7, 1),
        (12, 9),
        (13, 9),
        (14, 8),
        (14, 11),
        (15, 8),
        (15, 11),
        (16, 8),
        (17, 8),
        (18, 10),
    ]
}

fn twenty_one_images() -> [(u16, u16); 19] {
    [
        (5, 5),
        (6, 6),
        (13, 13),
        (14, 14),
        (16, 16),
        (17, 17),
        (18, 18),
        (19, 19),
        (4, 0),
        (4, 2),
        (5, 1),
        (6, 1),
        (12, 10),
        (13, 8),
        (13, 11),
        (14, 7),
        (15, 10),
        (17, 11),
        (20, 9),
    ]
}

#[test]
fn takes_eleven_tiles_apart(rt: HostRuntime) -> Result<(), Fail> {
    let list = eleven(rt.alloc())?;
    let step = step_after(rt.alloc(), &list, Axis::Two, 0)?;
    let found = pairs(rt.alloc(), step.images.as_slice())?;
    assert_eq!(rt; found.as_slice(), eleven_images().as_slice());
    Ok(())
}

/// The tree of a pair of axis 1 as numbers: a cell with one child, its tile, and its cell, which has none.
fn tree_of(entries: &[Refuted], a: u16, b: u16) -> Option<(u16, u16, u16)> {
    for entry in entries {
        if entry.axis == Axis::One && entry.a == a && entry.b == b {
            return short_tree(&entry.tree);
        }
    }
    None
}

fn short_tree(tree: &Tree) -> Option<(u16, u16, u16)> {
    let Tree::Branch { cell, children } = tree else {
        return None;
    };
    let [child] = children.as_slice() else {
        return None;
    };
    let Tree::Branch {
        cell: below,
        children: none,
    } = &child.tree
    else {
        return None;
    };
    if !none.as_slice().is_empty() {
        return None;
    }
    Some((*cell, child.tile, *below))
}

#[test]
fn takes_nineteen_tiles_apart(rt: HostRuntime) -> Result<(), Fail> {
    let list = nineteen(rt.alloc())?;
    let step = step_after(rt.alloc(), &list, Axis::One, 1)?;
    let found = pairs(rt.alloc(), step.images.as_slice())?;
    assert_eq!(rt; found.as_slice(), nineteen_images().as_slice());
    assert_eq!(rt; tree_of(step.refuted.as_slice(), 5, 5), Some((1, 18, 2)));
    let step = step_after(rt.alloc(), &step.coarse, Axis::Two, 1)?;
    let found = pairs(rt.alloc(), step.images.as_slice())?;
    assert_eq!(rt; found.as_slice(), twenty_one_images().as_slice());
    Ok(())
}

#[test]
fn nineteen_tiles_have_one_class(rt: HostRuntime) -> Result<(), Fail> {
    let list = nineteen(rt.alloc())?;
    let set = SetRef::new(&list).map_err(|_| "set")?;
    let one = table(rt.alloc(), set, Axis::One, 0)?;
    let two = table(rt.alloc(), set, Axis::Two, 0)?;
    let classes = marker_classes(rt.alloc(), set, Axis::One, &one, &two)?;
    let [class] = classes.as_slice() else {
        return Err(Fail::new("one class"));
    };
    assert_eq!(rt; class.as_slice(), [0u16, 1, 8, 9, 10, 11].as_slice());
    Ok(())
}

/// A class is kept by a domino into it, also where the side asks for one out of it.
#[test]
fn a_kept_class_may_make_no_image(rt: HostRuntime) -> Result<(), Fail> {
    let list = two(rt.alloc())?;
    let set = SetRef::new(&list).map_err(|_| "set")?;
    match first_step(rt.alloc(), set, Axis::One, Side::Before, 0)? {
        Err(end) => assert_eq!(rt; end, DeriveEnd::EmptySet),
        Ok(_) => return Err(Fail::new("a step")),
    }
    Ok(())
}
