//! Wrapping rectangles of sets of a few tiles, with answers worked out by hand.
ghost use Rattle.std.specs.Prelude.{◌≤◌};

use crate::{RepeatFault, WrapEnd, least_wrap, repeat, wraps};
use std::alloc::{AllocError, Global};
use wt_pattern::{Fault, Pattern};
use wt_seq::Seq;
use wt_tile::{Axis, Name, SetRef, Tile, TileList};

/// Names of one letter each.
fn names(alloc: Global, letters: &[u8]) -> Result<Seq<Name>, AllocError> {
    let mut names = Vec::new(alloc);
    for letter in letters {
        if let Some(name) = Name::new(&[*letter]) {
            names.push(name)?;
        }
    }
    Ok(Seq::new(names))
}

/// Tiles by their colours in the order east, north, west, south.
fn list(
    alloc: Global,
    colours: &[(u16, u16, u16, u16)],
    letters1: &[u8],
    letters2: &[u8],
) -> Result<TileList, AllocError> {
    let mut tiles = Vec::new(alloc);
    for c in colours {
        tiles.push(Tile {
            east: c.0,
            north: c.1,
            west: c.2,
            south: c.3,
        })?;
    }
    Ok(TileList {
        tiles: Seq::new(tiles),
        names1: names(alloc, letters1)?,
        names2: names(alloc, letters2)?,
    })
}

/// Three tiles that stand side by side in a round.
fn three(alloc: Global) -> Result<TileList, AllocError> {
    list(
        alloc,
        &[(0, 0, 1, 0), (2, 1, 0, 1), (1, 2, 2, 2)],
        b"acb",
        b"uvw",
    )
}

/// Two tiles that stand side by side in a round, and two that stand on one another in one.
fn four(alloc: Global) -> Result<TileList, AllocError> {
    list(
        alloc,
        &[(0, 0, 1, 0), (1, 0, 0, 0), (2, 1, 2, 2), (2, 2, 2, 1)],
        b"abc",
        b"pqr",
    )
}

/// Two tiles that stand on one another in a round, but have no neighbour to the right.
fn column(alloc: Global) -> Result<TileList, AllocError> {
    list(alloc, &[(0, 0, 1, 1), (0, 1, 1, 0)], b"ab", b"pq")
}

/// Whether the search of a list's sizes up to a limit ends so: with this width and these cells, or, for the width 0,
/// with none.
fn ends_with(alloc: Global, list: &TileList, limit: usize, width: usize, cells: &[u16]) -> bool
    requires low { 1 ≤ limit }
    requires high { limit ≤ 64 }
{
    let Ok(set) = SetRef::new(list) else {
        return false;
    };
    match least_wrap(alloc, set, limit, 1000) {
        Ok(Some(p)) => p.width() == width && p.into_cells().as_slice() == cells,
        Ok(None) => width == 0,
        Err(_) => false,
    }
}

#[test]
fn least_wraps_of_a_few_tiles(rt: HostRuntime) -> Result<(), AllocError> {
    let alloc = rt.alloc();
    let row = three(alloc)?;
    assert!(rt; ends_with(alloc, &row, 3, 3, &[0, 1, 2]));
    assert!(rt; ends_with(alloc, &row, 2, 0, &[]));
    let both = four(alloc)?;
    assert!(rt; ends_with(alloc, &both, 2, 1, &[2, 3]));
    assert!(rt; ends_with(alloc, &both, 1, 0, &[]));
    let open = column(alloc)?;
    assert!(rt; ends_with(alloc, &open, 4, 0, &[]));
    Ok(())
}

#[test]
fn a_wrap_is_repeated(rt: HostRuntime) -> Result<(), &'static str> {
    let alloc = rt.alloc();
    let row = three(alloc).map_err(|_| "memory")?;
    let set = SetRef::new(&row).map_err(|_| "set")?;
    match least_wrap(alloc, set, 3, 0) {
        Err(end) => assert_eq!(rt; end, WrapEnd::Spent { w: 1, h: 1 }),
        Ok(_) => return Err("spent"),
    }
    let cells = Vec::from_slice(alloc, &[0u16, 1, 2]).map_err(|_| "memory")?;
    let p = Pattern::new(3, 1, cells).map_err(|_| "pattern")?;
    assert!(rt; wraps(set, &p).is_none());
    let more = repeat(alloc, &p, 4, 1).map_err(|_| "repeat")?;
    assert_eq!(rt;
        wraps(set, &more),
        Some(Fault {
            axis: Axis::One,
            x: 3,
            y: 0
        })
    );
    assert_eq!(rt; more.into_cells().as_slice(), [0u16, 1, 2, 0].as_slice());
    match repeat(alloc, &p, 0, 1) {
        Err(fault) => assert_eq!(rt; fault, RepeatFault::Zero),
        Ok(_) => return Err("zero"),
    }
    Ok(())
}
