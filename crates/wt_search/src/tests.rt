// Searches that were worked out by hand, and those whose end is known.
use crate::{SearchEnd, search};
use std::alloc::{AllocError, Global};
use std::test::Fail;
use wt_chain::End;
use wt_seq::Seq;
use wt_tile::{Axis, Name, SetRef, Side, Tile, TileList};

/// The one tile x n x n.
const ONE: [[u16; 4]; 1] = [[0, 0, 0, 0]];

/// The one tile x n y n, which no tile follows along axis 1.
const APART: [[u16; 4]; 1] = [[0, 0, 1, 0]];

/// Three tiles of which, along axis 1, the second stands behind the first alone, and the third behind the second
/// and itself. Its markers along axis 1 are the second tile; the coarse set is the same set renamed, and no image is
/// two tiles high.
const FLAT: [[u16; 4]; 3] = [[0, 0, 0, 0], [1, 1, 0, 1], [1, 2, 1, 2]];

/// Jeandel and Rao's 11 tiles of examples/JR.set, their colours numbered.
const JR: [[u16; 4]; 11] = [
    [0, 0, 0, 1],
    [0, 2, 0, 3],
    [1, 1, 2, 1],
    [1, 2, 2, 2],
    [2, 1, 2, 4],
    [3, 1, 2, 1],
    [3, 3, 3, 1],
    [2, 1, 3, 2],
    [3, 2, 1, 2],
    [1, 2, 1, 0],
    [2, 4, 1, 2],
];

/// Labbé's 19 tiles of examples/U.set, their colours numbered.
const U: [[u16; 4]; 19] = [
    [0, 0, 1, 0],
    [0, 0, 2, 1],
    [1, 2, 0, 3],
    [3, 2, 0, 4],
    [2, 3, 1, 3],
    [2, 3, 2, 5],
    [2, 4, 0, 3],
    [2, 4, 3, 3],
    [4, 0, 5, 0],
    [6, 1, 7, 0],
    [6, 1, 8, 1],
    [9, 1, 5, 0],
    [7, 3, 6, 3],
    [7, 3, 5, 3],
    [5, 3, 6, 4],
    [5, 3, 5, 4],
    [5, 4, 4, 2],
    [5, 4, 9, 4],
    [8, 5, 5, 3],
];

/// The first of some letters as names.
fn names(alloc: Global, count: usize) -> Result<Seq<Name>, AllocError> {
    let mut names = Vec::new(alloc);
    for letter in b"abcdefghij".iter().take(count) {
        if let Some(name) = Name::new(&[*letter]) {
            names.push(name)?;
        }
    }
    Ok(Seq::new(names))
}

/// Tiles of n colours on each axis, each colour a letter.
fn list(
    alloc: Global,
    tiles: &[[u16; 4]],
    count1: usize,
    count2: usize,
) -> Result<TileList, AllocError> {
    let mut list = Vec::new(alloc);
    for [east, north, west, south] in tiles {
        list.push(Tile {
            east: *east,
            north: *north,
            west: *west,
            south: *south,
        })?;
    }
    Ok(TileList {
        tiles: Seq::new(list),
        names1: names(alloc, count1)?,
        names2: names(alloc, count2)?,
    })
}

#[test]
fn ends_where_nothing_is_found(rt: HostRuntime) -> Result<(), Fail> {
    let one = list(rt.alloc(), &ONE, 1, 1)?;
    let apart = list(rt.alloc(), &APART, 2, 1)?;
    let flat = list(rt.alloc(), &FLAT, 2, 3)?;
    let jr = list(rt.alloc(), &JR, 4, 5)?;
    // A set, an axis, a budget and the end, at radius 0, one level and side after.
    let rows = [
        (&one, Axis::One, 100, SearchEnd::NoMarker { level: 0 }),
        (
            &one,
            Axis::Two,
            0,
            SearchEnd::Spent {
                level: 0,
                axis: Axis::One,
                a: 0,
                b: 0,
            },
        ),
        (
            &apart,
            Axis::One,
            0,
            SearchEnd::Spent {
                level: 0,
                axis: Axis::Two,
                a: 0,
                b: 0,
            },
        ),
        (&flat, Axis::One, 100, SearchEnd::NotGrowing { start: 0 }),
        (&jr, Axis::Two, 100, SearchEnd::Levels),
    ];
    for (set, axis, budget, end) in rows {
        let set = SetRef::new(set).map_err(|_| "set")?;
        let found = search(rt.alloc(), set, &[axis], Side::After, 0, 1, budget);
        assert!(rt; matches!(found, Err(e) if e == end));
    }
    Ok(())
}

/// The search that examples/search-u.script asks for: its sets, and its loop.
#[test]
fn finds_the_loop_of_u(rt: HostRuntime) -> Result<(), Fail> {
    let set = list(rt.alloc(), &U, 10, 6)?;
    let set = SetRef::new(&set).map_err(|_| "set")?;
    let axes = [Axis::One, Axis::Two];
    let found = search(rt.alloc(), set, &axes, Side::After, 1, 8, 1_000_000_000_000);
    let chain = found.map_err(|_| "search")?;
    assert_eq!(rt; chain.steps(), 2);
    assert_eq!(rt; chain.set(0).len(), 19);
    assert_eq!(rt; chain.set(1).len(), 21);
    assert_eq!(rt; chain.set(2).len(), 19);
    let End::Loop {
        start,
        renaming,
        expansion,
    } = chain.end()
    else {
        return Err(Fail::new("the chain is open"));
    };
    assert_eq!(rt; (*start, *expansion), (0, 2));
    let numbers = [
        1, 0, 3, 7, 6, 2, 5, 4, 11, 8, 10, 9, 15, 17, 14, 18, 13, 12, 16,
    ];
    assert_eq!(rt; renaming.as_slice(), numbers.as_slice());
    Ok(())
}
