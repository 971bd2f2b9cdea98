//! Layers over sets of one and of two tiles, with first faults worked out by hand.

use crate::{Layers, StripFault, check_strip};
use std::alloc::Global;
use wt_seq::Seq;
use wt_tile::{Name, SetRef, Tile, TileList};

/// Names of one letter each.
fn names(alloc: Global, letters: &[u8]) -> Option<Seq<Name>> {
    let mut names = Vec::new(alloc);
    for letter in letters {
        names.push(Name::new(&[*letter])?).ok()?;
    }
    Some(Seq::new(names))
}

fn list(alloc: Global, tiles: &[Tile], letters1: &[u8], letters2: &[u8]) -> Option<TileList> {
    Some(TileList {
        tiles: Seq::new(tiles.to_vec(alloc).ok()?),
        names1: names(alloc, letters1)?,
        names2: names(alloc, letters2)?,
    })
}

/// Both tiles stand beside each; tile 1 can stand above tile 0, and none else above another.
const TWO: [Tile; 2] = [
    Tile {
        east: 0,
        north: 0,
        west: 0,
        south: 1,
    },
    Tile {
        east: 0,
        north: 2,
        west: 0,
        south: 0,
    },
];

/// A tile that can't stand beside itself.
const ONE: [Tile; 1] = [Tile {
    east: 0,
    north: 0,
    west: 1,
    south: 0,
}];

/// The first fault of layers of these cells.
fn fault(
    alloc: Global,
    list: &TileList,
    width: usize,
    cells: &[&[u16]],
) -> Option<Option<StripFault>> {
    let mut layers = Vec::new(alloc);
    for layer in cells {
        layers.push(Seq::new(layer.to_vec(alloc).ok()?)).ok()?;
    }
    let layers = Seq::new(layers);
    let set = SetRef::new(list).ok()?;
    Some(check_strip(set, &Layers { width, layers }).err())
}

/// The width, the cells of each layer, and the first fault.
type Row = (usize, &'static [&'static [u16]], Option<StripFault>);

const ROWS: [Row; 12] = [
    (1, &[&[0, 1], &[1], &[]], None),
    (
        1,
        &[&[0], &[1], &[]],
        Some(StripFault::Missing { layer: 1 }),
    ),
    (1, &[&[0, 1], &[]], Some(StripFault::Missing { layer: 2 })),
    // Row 0 isn't over the layer below, but the order is asked first.
    (
        1,
        &[&[0, 1], &[0, 1, 0], &[]],
        Some(StripFault::Order { layer: 2, row: 2 }),
    ),
    (
        1,
        &[&[0, 1], &[0, 1], &[]],
        Some(StripFault::Row { layer: 2, row: 0 }),
    ),
    (0, &[&[]], Some(StripFault::Shape)),
    (65, &[&[]], Some(StripFault::Shape)),
    (1, &[], Some(StripFault::Shape)),
    (2, &[&[0, 0, 1], &[]], Some(StripFault::Shape)),
    (1, &[&[0, 2], &[]], Some(StripFault::Shape)),
    (1, &[&[0, 1], &[1]], Some(StripFault::Shape)),
    (1, &[&[], &[]], Some(StripFault::Shape)),
];

#[test]
fn first_faults(rt: HostRuntime) -> Result<(), &'static str> {
    let alloc = rt.alloc();
    let list = list(alloc, &TWO, b"x", b"bac").ok_or("memory")?;
    for (width, cells, want) in &ROWS {
        assert_eq!(rt; fault(alloc, &list, *width, cells), Some(*want));
    }
    Ok(())
}

#[test]
fn no_row_of_width_2(rt: HostRuntime) -> Result<(), &'static str> {
    let alloc = rt.alloc();
    let list = list(alloc, &ONE, b"zy", b"n").ok_or("memory")?;
    assert_eq!(rt; fault(alloc, &list, 2, &[&[]]), Some(None));
    let missing = StripFault::Missing { layer: 1 };
    assert_eq!(rt; fault(alloc, &list, 1, &[&[]]), Some(Some(missing)));
    Ok(())
}
