//! Windows and tables of sets of a few tiles, with answers worked out by hand, and of a set of nineteen; and all
//! sets of two tiles with two colours, against a search that tries every filling.

use crate::{DominoTable, TableEnd, WindowEnd, dominoes, surround};
use std::alloc::{AllocError, Global};
use wt_seq::Seq;
use wt_tile::{Axis, Name, SetRef, Tile, TileList, is_match};

/// Names of one letter each.
fn names(alloc: Global, letters: &[u8]) -> Result<Seq<Name>, AllocError> {
    let mut names = Vec::new(alloc);
    for letter in letters {
        if let Some(name) = Name::new(&[*letter]) {
            names.push(name)?;
        }
    }
    Ok(Seq::new(names))
}

fn list(
    alloc: Global,
    colours: &[(u16, u16, u16, u16)],
    letters1: &[u8],
    letters2: &[u8],
) -> Result<TileList, AllocError> {
    let mut tiles = Vec::new(alloc);
    for c in colours {
        tiles.push(Tile {
            east: c.0,
            north: c.1,
            west: c.2,
            south: c.3,
        })?;
    }
    Ok(TileList {
        tiles: Seq::new(tiles),
        names1: names(alloc, letters1)?,
        names2: names(alloc, letters2)?,
    })
}

/// One tile that stands beside itself.
fn one(alloc: Global) -> Result<TileList, AllocError> {
    list(alloc, &[(0, 0, 0, 0)], b"x", b"n")
}

/// One tile that stands beside itself along axis 2 alone.
fn column(alloc: Global) -> Result<TileList, AllocError> {
    list(alloc, &[(0, 0, 1, 0)], b"xy", b"n")
}

/// Four tiles, of which the last has no right neighbour.
fn four(alloc: Global) -> Result<TileList, AllocError> {
    list(
        alloc,
        &[(0, 0, 0, 0), (0, 0, 1, 0), (1, 1, 0, 1), (2, 0, 0, 0)],
        b"yxz",
        b"nm",
    )
}

/// The nineteen tiles of U.
fn nineteen(alloc: Global) -> Result<TileList, AllocError> {
    list(
        alloc,
        &[
            (0, 0, 1, 0),
            (0, 0, 2, 1),
            (1, 2, 0, 3),
            (3, 2, 0, 4),
            (2, 3, 1, 3),
            (2, 3, 2, 5),
            (2, 4, 0, 3),
            (2, 4, 3, 3),
            (4, 0, 5, 0),
            (6, 1, 7, 0),
            (6, 1, 8, 1),
            (9, 1, 5, 0),
            (7, 3, 6, 3),
            (7, 3, 5, 3),
            (5, 3, 6, 4),
            (5, 3, 5, 4),
            (5, 4, 4, 2),
            (5, 4, 9, 4),
            (8, 5, 5, 3),
        ],
        b"FJHDBIGECA",
        b"OLMPKN",
    )
}

/// The cells of the least window of radius 1.
fn least(
    alloc: Global,
    set: SetRef<'_>,
    axis: Axis,
    pair: (u16, u16),
    budget: u64,
) -> Result<Option<Vec<u16>>, WindowEnd> {
    let (a, b) = pair;
    if usize::from(a) >= set.len() || usize::from(b) >= set.len() {
        return Ok(None);
    }
    match surround(alloc, set, axis, a, b, 1, budget)? {
        Some(window) => Ok(Some(window.into_cells())),
        None => Ok(None),
    }
}

/// The tiles that may follow a tile, as the table gives them.
fn line(alloc: Global, table: &DominoTable, a: u16) -> Result<Vec<u16>, AllocError> {
    let mut line = Vec::new(alloc);
    let mut from = 0u16;
    for _ in 0..256u16 {
        let Some(b) = table.next_after(a, from) else {
            return Ok(line);
        };
        line.push(b)?;
        from = b.saturating_add(1);
    }
    Ok(line)
}

/// How many pairs a table has.
fn count(alloc: Global, table: &DominoTable) -> Result<usize, AllocError> {
    let mut count = 0usize;
    for a in 0..256u16 {
        count = count.saturating_add(line(alloc, table, a)?.len());
    }
    Ok(count)
}

#[test]
fn one_tile_fills_its_window(rt: HostRuntime) -> Result<(), &'static str> {
    let alloc = rt.alloc();
    let list = one(alloc).map_err(|_| "memory")?;
    let set = SetRef::new(&list).map_err(|_| "set")?;
    match least(alloc, set, Axis::One, (0, 0), 0) {
        Err(end) => assert_eq!(rt; end, WindowEnd::Spent),
        Ok(_) => return Err("spent"),
    }
    // A budget below the 13 trials may be spent, and need not.
    match least(alloc, set, Axis::One, (0, 0), 12) {
        Err(end) => assert_eq!(rt; end, WindowEnd::Spent),
        Ok(found) => assert!(rt; found.is_some()),
    }
    let cells = least(alloc, set, Axis::One, (0, 0), 13)
        .map_err(|_| "end")?
        .ok_or("window")?;
    assert_eq!(rt; cells.as_slice(), [0u16; 12].as_slice());
    Ok(())
}

#[test]
fn the_least_of_eight_windows(rt: HostRuntime) -> Result<(), &'static str> {
    let alloc = rt.alloc();
    let list = four(alloc).map_err(|_| "memory")?;
    let set = SetRef::new(&list).map_err(|_| "set")?;
    // Each of the three rows begins with tile 0 or with tile 1.
    let cells = least(alloc, set, Axis::One, (0, 2), 1000)
        .map_err(|_| "end")?
        .ok_or("window")?;
    assert_eq!(rt;
        cells.as_slice(),
        [0, 0, 2, 1, 0, 0, 2, 1, 0, 0, 2, 1].as_slice()
    );
    // Tile 3 has no right neighbour, and tile 2 doesn't match itself.
    let gone = least(alloc, set, Axis::One, (0, 3), 1000).map_err(|_| "end")?;
    assert!(rt; gone.is_none());
    let apart = least(alloc, set, Axis::One, (2, 2), 0).map_err(|_| "end")?;
    assert!(rt; apart.is_none());
    Ok(())
}

#[test]
fn tables_of_nineteen_tiles(rt: HostRuntime) -> Result<(), &'static str> {
    let alloc = rt.alloc();
    let list = nineteen(alloc).map_err(|_| "memory")?;
    let set = SetRef::new(&list).map_err(|_| "set")?;
    let table = dominoes(alloc, set, Axis::One, 0, 100).map_err(|_| "end")?;
    assert_eq!(rt; count(alloc, &table), Ok(46));
    let first = line(alloc, &table, 0).map_err(|_| "memory")?;
    assert_eq!(rt; first.as_slice(), [2, 3, 6].as_slice());
    assert_eq!(rt; (table.allows(0, 3), table.allows(3, 0)), (true, false));
    let table = dominoes(alloc, set, Axis::Two, 0, 100).map_err(|_| "end")?;
    assert_eq!(rt; count(alloc, &table), Ok(79));
    let first = line(alloc, &table, 0).map_err(|_| "memory")?;
    assert_eq!(rt; first.as_slice(), [0, 8, 9, 11].as_slice());
    Ok(())
}

#[test]
fn tables_at_budget_0(rt: HostRuntime) -> Result<(), &'static str> {
    let alloc = rt.alloc();
    let list = column(alloc).map_err(|_| "memory")?;
    let set = SetRef::new(&list).map_err(|_| "set")?;
    let table = dominoes(alloc, set, Axis::One, 1, 0).map_err(|_| "end")?;
    assert_eq!(rt; count(alloc, &table), Ok(0));
    match dominoes(alloc, set, Axis::Two, 1, 0) {
        Err(end) => assert_eq!(rt; end, TableEnd::Spent { a: 0, b: 0 }),
        Ok(_) => return Err("spent"),
    }
    let list = nineteen(alloc).map_err(|_| "memory")?;
    let set = SetRef::new(&list).map_err(|_| "set")?;
    match dominoes(alloc, set, Axis::One, 1, 0) {
        Err(end) => assert_eq!(rt; end, TableEnd::Spent { a: 0, b: 2 }),
        Ok(_) => return Err("spent"),
    }
    Ok(())
}

/// A digit of a number in base 2.
fn bit(number: u16, place: u16) -> u16 {
    (number >> (place % 16)) & 1
}

/// One of the 64 lists of two tiles with at most two colours on each axis. Colours are numbered by their first
/// coming, so the first two edges have colour 0; the number has a digit for each of the other six.
fn two(alloc: Global, number: u16) -> Result<TileList, AllocError> {
    let letters1 = if number & 7 == 0 {
        b"x".as_slice()
    } else {
        b"xy".as_slice()
    };
    let letters2 = if number & 56 == 0 {
        b"n".as_slice()
    } else {
        b"nm".as_slice()
    };
    list(
        alloc,
        &[
            (0, 0, bit(number, 0), bit(number, 3)),
            (
                bit(number, 1),
                bit(number, 4),
                bit(number, 2),
                bit(number, 5),
            ),
        ],
        letters1,
        letters2,
    )
}

/// The tile in a cell of the filling of twelve cells with a number: its digits in base 2, the first cell first.
fn tile_in(filling: u16, cell: u16) -> u16 {
    bit(filling, 11 - cell % 12)
}

/// Whether neighbours match, in rows of this width.
fn is_valid(tiles: &[Tile], width: u16, filling: u16) -> bool {
    for cell in 0..12u16 {
        let tile = tile_in(filling, cell);
        if width > 0
            && cell % width + 1 < width
            && !is_match(tiles, Axis::One, tile, tile_in(filling, cell + 1))
        {
            return false;
        }
        if width < 12
            && cell + width < 12
            && !is_match(tiles, Axis::Two, tile, tile_in(filling, cell + width))
        {
            return false;
        }
    }
    true
}

/// The first filling of the window of radius 1 in order of their numbers, which is the order of lists.
fn plain(tiles: &[Tile], axis: Axis, pair: (u16, u16)) -> Option<u16> {
    let (width, first, second) = match axis {
        Axis::One => (4u16, 5u16, 6u16),
        Axis::Two => (3u16, 4u16, 7u16),
    };
    for filling in 0..4096u16 {
        if (tile_in(filling, first), tile_in(filling, second)) == pair
            && is_valid(tiles, width, filling)
        {
            return Some(filling);
        }
    }
    None
}

/// Whether the cells are those of the filling.
fn are_those(cells: &[u16], filling: u16) -> bool {
    let mut at = 0u16;
    for tile in cells {
        if *tile != tile_in(filling, at) {
            return false;
        }
        at = at.saturating_add(1);
    }
    at == 12
}

/// For how many pairs of two tiles both searches agree on an axis.
fn agreements(alloc: Global, set: SetRef<'_>, axis: Axis) -> Result<u16, WindowEnd> {
    let mut count = 0u16;
    for pair in [(0, 0), (0, 1), (1, 0), (1, 1)] {
        let agree = match (
            least(alloc, set, axis, pair, 10_000)?,
            plain(set.tiles(), axis, pair),
        ) {
            (Some(cells), Some(filling)) => are_those(&cells, filling),
            (None, None) => true,
            (Some(_), None) => false,
            (None, Some(_)) => false,
        };
        if agree {
            count = count.saturating_add(1);
        }
    }
    Ok(count)
}

#[test]
fn all_sets_of_two_tiles_with_two_colours(rt: HostRuntime) -> Result<(), &'static str> {
    let alloc = rt.alloc();
    let mut sets = 0u16;
    for number in 0..64u16 {
        let list = two(alloc, number).map_err(|_| "memory")?;
        // Four of the lists have the same tile twice.
        let Ok(set) = SetRef::new(&list) else {
            continue;
        };
        sets = sets.saturating_add(1);
        assert_eq!(rt; agreements(alloc, set, Axis::One), Ok(4));
        assert_eq!(rt; agreements(alloc, set, Axis::Two), Ok(4));
    }
    assert_eq!(rt; sets, 60);
    Ok(())
}
