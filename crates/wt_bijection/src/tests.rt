// Renamings that were worked out by hand, and those of a set onto itself.
use crate::{check_renaming, equivalent};
use std::alloc::{AllocError, Global};
use std::test::Fail;
use wt_seq::Seq;
use wt_tile::{Name, SetRef, Tile, TileList};

/// Three tiles, in letters: a u a v, b v a u, a w b w.
const THREE: [[u16; 4]; 3] = [[0, 0, 0, 1], [1, 1, 0, 0], [0, 2, 1, 2]];

/// The same with the last two first: b v a u, a w b w, a u a v.
const TURNED: [[u16; 4]; 3] = [[0, 0, 1, 1], [1, 2, 0, 2], [1, 1, 1, 0]];

/// Three tiles, in letters: a u a v, b v a u, b w a w.
const OTHERS: [[u16; 4]; 3] = [[0, 0, 0, 1], [1, 1, 0, 0], [1, 2, 0, 2]];

/// Labbé's 19 tiles of examples/U.set, their colours numbered.
const U: [[u16; 4]; 19] = [
    [0, 0, 1, 0],
    [0, 0, 2, 1],
    [1, 2, 0, 3],
    [3, 2, 0, 4],
    [2, 3, 1, 3],
    [2, 3, 2, 5],
    [2, 4, 0, 3],
    [2, 4, 3, 3],
    [4, 0, 5, 0],
    [6, 1, 7, 0],
    [6, 1, 8, 1],
    [9, 1, 5, 0],
    [7, 3, 6, 3],
    [7, 3, 5, 3],
    [5, 3, 6, 4],
    [5, 3, 5, 4],
    [5, 4, 4, 2],
    [5, 4, 9, 4],
    [8, 5, 5, 3],
];

/// The first of some letters as names.
fn names(alloc: Global, count: usize) -> Result<Seq<Name>, AllocError> {
    let mut names = Vec::new(alloc);
    for letter in b"abcdefghij".iter().take(count) {
        if let Some(name) = Name::new(&[*letter]) {
            names.push(name)?;
        }
    }
    Ok(Seq::new(names))
}

/// Tiles of n colours on each axis, each colour a letter.
fn list(
    alloc: Global,
    tiles: &[[u16; 4]],
    count1: usize,
    count2: usize,
) -> Result<TileList, AllocError> {
    let mut list = Vec::new(alloc);
    for [east, north, west, south] in tiles {
        list.push(Tile {
            east: *east,
            north: *north,
            west: *west,
            south: *south,
        })?;
    }
    Ok(TileList {
        tiles: Seq::new(list),
        names1: names(alloc, count1)?,
        names2: names(alloc, count2)?,
    })
}

#[test]
fn finds_the_least_renaming(rt: HostRuntime) -> Result<(), Fail> {
    let three = list(rt.alloc(), &THREE, 2, 3)?;
    let turned = list(rt.alloc(), &TURNED, 2, 3)?;
    let others = list(rt.alloc(), &OTHERS, 2, 3)?;
    let three = SetRef::new(&three).map_err(|_| "three")?;
    let turned = SetRef::new(&turned).map_err(|_| "turned")?;
    let others = SetRef::new(&others).map_err(|_| "others")?;
    let there = equivalent(rt.alloc(), three, turned)?.ok_or("there")?;
    assert_eq!(rt; there.as_slice(), [2, 0, 1].as_slice());
    let back = equivalent(rt.alloc(), turned, three)?.ok_or("back")?;
    assert_eq!(rt; back.as_slice(), [1, 2, 0].as_slice());
    assert!(rt; equivalent(rt.alloc(), three, others)?.is_none());
    assert!(rt; check_renaming(three, turned, &there).is_ok());
    assert_eq!(rt; check_renaming(three, turned, &[2, 1, 0]), Err(1));
    Ok(())
}

#[test]
fn carries_a_set_onto_itself(rt: HostRuntime) -> Result<(), Fail> {
    let set = list(rt.alloc(), &U, 10, 6)?;
    let set = SetRef::new(&set).map_err(|_| "set")?;
    let same = equivalent(rt.alloc(), set, set)?.ok_or("none")?;
    let numbers = [
        0, 1, 2, 3, 4, 5, 6, 7, 8, 9, 10, 11, 12, 13, 14, 15, 16, 17, 18,
    ];
    assert_eq!(rt; same.as_slice(), numbers.as_slice());
    Ok(())
}
