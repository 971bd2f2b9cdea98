// What no clause says: faults, periods and parts that were worked out by hand, and each call once.
use crate::{
    DrawFault, Fault, Pattern, Style, core, draw, part, pattern_text, period_fault, read_pattern,
    read_set, tiles_fault, valid, window_shape, write_set,
};
use std::alloc::{AllocError, Global};
use std::test::Fail;
use wt_seq::Seq;
use wt_tile::{Axis, Name, SetRef, Tile, TileList};

/// Names of one letter each.
fn names(alloc: Global, letters: &[u8]) -> Result<Seq<Name>, AllocError> {
    let mut names = Vec::new(alloc);
    for letter in letters {
        if let Some(name) = Name::new(&[*letter]) {
            names.push(name)?;
        }
    }
    Ok(Seq::new(names))
}

/// A set of nineteen tiles, each as the colours right, top, left and bottom.
fn nineteen(alloc: Global) -> Result<TileList, AllocError> {
    let rows = [
        [0, 0, 1, 0],
        [0, 0, 2, 1],
        [1, 2, 0, 3],
        [3, 2, 0, 4],
        [2, 3, 1, 3],
        [2, 3, 2, 5],
        [2, 4, 0, 3],
        [2, 4, 3, 3],
        [4, 0, 5, 0],
        [6, 1, 7, 0],
        [6, 1, 8, 1],
        [9, 1, 5, 0],
        [7, 3, 6, 3],
        [7, 3, 5, 3],
        [5, 3, 6, 4],
        [5, 3, 5, 4],
        [5, 4, 4, 2],
        [5, 4, 9, 4],
        [8, 5, 5, 3],
    ];
    let mut tiles = Vec::new(alloc);
    for [east, north, west, south] in rows {
        tiles.push(Tile {
            east,
            north,
            west,
            south,
        })?;
    }
    Ok(TileList {
        tiles: Seq::new(tiles),
        names1: names(alloc, b"FJHDBIGECA")?,
        names2: names(alloc, b"OLMPKN")?,
    })
}

/// The rows of a pattern, the bottom row first.
fn pattern(
    alloc: Global,
    width: usize,
    height: usize,
    cells: &[u16],
) -> Result<Option<Pattern>, AllocError> {
    let cells = cells.to_vec(alloc)?;
    Ok(Pattern::new(width, height, cells).ok())
}

/// A valid pattern over the nineteen tiles but for its middle cell, which in a valid one is 16.
const SQUARE: [u16; 25] = [
    13, 9, 14, 13, 9, 7, 1, 2, 4, 1, 15, 8, 17, 13, 9, 13, 9, 14, 18, 10, 4, 1, 6, 5, 1,
];

#[test]
fn finds_the_first_fault(rt: HostRuntime) -> Result<(), Fail> {
    let list = nineteen(rt.alloc())?;
    let Ok(set) = SetRef::new(&list) else {
        return Ok(());
    };
    let mut cells = SQUARE;
    for (middle, want) in [
        (16, None),
        (
            17,
            Some(Fault {
                axis: Axis::Two,
                x: 2,
                y: 1,
            }),
        ),
    ] {
        cells[12] = middle;
        if let Some(p) = pattern(rt.alloc(), 5, 5, &cells)? {
            assert_eq!(rt; valid(set, &p), want);
        }
    }
    Ok(())
}

#[test]
fn takes_right_before_upwards(rt: HostRuntime) -> Result<(), Fail> {
    let list = nineteen(rt.alloc())?;
    if let Ok(set) = SetRef::new(&list) {
        if let Some(p) = pattern(rt.alloc(), 2, 2, &[2, 2, 2, 2])? {
            let want = Fault {
                axis: Axis::One,
                x: 0,
                y: 0,
            };
            assert_eq!(rt; valid(set, &p), Some(want));
        }
    }
    Ok(())
}

#[test]
fn finds_the_first_stranger(rt: HostRuntime) -> Result<(), Fail> {
    let list = nineteen(rt.alloc())?;
    if let Ok(set) = SetRef::new(&list) {
        if let Some(p) = pattern(rt.alloc(), 2, 2, &[18, 19, 65535, 0])? {
            assert_eq!(rt; tiles_fault(set, &p), Some((1, 0)));
        }
    }
    Ok(())
}

#[test]
fn finds_the_first_cell_off_a_period(rt: HostRuntime) -> Result<(), Fail> {
    // The width, the cells, the vector, and the first cell that differs from where it goes.
    let rows: [(usize, usize, &[u16], i64, i64, Option<(usize, usize)>); 7] = [
        (5, 1, &[0, 1, 0, 1, 2], 2, 0, Some((2, 0))),
        (5, 1, &[0, 1, 0, 1, 2], -2, 0, Some((4, 0))),
        (5, 1, &[0, 1, 0, 1, 0], 2, 0, None),
        (5, 1, &[0, 1, 0, 1, 2], 5, 0, None),
        (5, 1, &[0, 1, 0, 1, 2], 0, -1, None),
        (2, 2, &[13, 9, 4, 1], 1, 0, Some((0, 0))),
        (2, 2, &[13, 9, 4, 13], 1, 1, None),
    ];
    for (width, height, cells, dx, dy, want) in rows {
        if let Some(p) = pattern(rt.alloc(), width, height, cells)? {
            assert_eq!(rt; period_fault(&p, dx, dy), want);
        }
    }
    Ok(())
}

#[test]
fn cuts_parts(rt: HostRuntime) -> Result<(), Fail> {
    if let Some(p) = pattern(rt.alloc(), 5, 5, &SQUARE)? {
        let corner = part(rt.alloc(), &p, 3, 4, 2, 1);
        if let Ok(corner) = corner {
            assert_eq!(rt; corner.row(0), [5, 1].as_slice());
        }
        if let Ok(middle) = core(rt.alloc(), &p, 1) {
            assert_eq!(rt;
                middle.into_cells().as_slice(),
                [1, 2, 4, 8, 17, 13, 9, 14, 18].as_slice()
            );
        }
        assert!(rt; core(rt.alloc(), &p, 3).is_err());
        assert!(rt; part(rt.alloc(), &p, 4, 0, 2, 1).is_err());
    }
    Ok(())
}

#[test]
fn sizes_windows(rt: HostRuntime) -> Result<(), Fail> {
    assert_eq!(rt; window_shape(Axis::One, 4), (10, 9));
    assert_eq!(rt; window_shape(Axis::Two, 0), (1, 2));
    Ok(())
}

#[test]
fn reads_and_writes_a_set(rt: HostRuntime) -> Result<(), Fail> {
    let text = b"k A k m\nk BC k m\nk AB k m\nk C k m\n";
    let Ok(list) = read_set(rt.alloc(), text, 4) else {
        return Err(Fail::new("a set of four tiles is not read"));
    };
    let name = list.names2.as_slice().get(2).ok_or("names")?;
    assert_eq!(rt; name.bytes(), b"BC".as_slice());
    let Ok(set) = SetRef::new(&list) else {
        return Err(Fail::new("a set of four tiles is none"));
    };
    let written = write_set(rt.alloc(), set)?;
    assert_eq!(rt; written.as_slice(), text.as_slice());
    assert!(rt; read_set(rt.alloc(), text, 3).is_err());
    Ok(())
}

#[test]
fn reads_and_writes_a_pattern(rt: HostRuntime) -> Result<(), Fail> {
    let text = b"5 0\n255 17\n13 9\n";
    let Ok(p) = read_pattern(rt.alloc(), text, 2, 3) else {
        return Err(Fail::new("a pattern of three rows is not read"));
    };
    assert_eq!(rt; p.row(0), [13, 9].as_slice());
    let written = pattern_text(rt.alloc(), &p)?;
    assert_eq!(rt; written.as_slice(), text.as_slice());
    assert!(rt; read_pattern(rt.alloc(), text, 3, 2).is_err());
    Ok(())
}

#[test]
fn draws_boxes_and_numbers(rt: HostRuntime) -> Result<(), Fail> {
    let list = nineteen(rt.alloc())?;
    let text = b"k A k m\nk BC k m\n";
    let Ok(long) = read_set(rt.alloc(), text, 2) else {
        return Err(Fail::new("a set of two tiles is not read"));
    };
    let one = pattern(rt.alloc(), 1, 1, &[0])?.ok_or("a pattern")?;
    let square = pattern(rt.alloc(), 2, 2, &[13, 9, 4, 1])?.ok_or("a pattern")?;
    let box_of_one = b"  O    \nJ   0 F\n  O    \n";
    let box_of_two = b"   A     \nk    0 k \n   m     \n";
    let boxes = Style::Boxes;
    let drawn = draw(rt.alloc(), SetRef::new(&list).ok(), &one, boxes);
    assert!(rt; drawn.is_ok_and(|text| text.as_slice() == box_of_one.as_slice()));
    let drawn = draw(rt.alloc(), SetRef::new(&long).ok(), &one, boxes);
    assert!(rt; drawn.is_ok_and(|text| text.as_slice() == box_of_two.as_slice()));
    let drawn = draw(rt.alloc(), None, &square, Style::Numbers);
    assert!(rt; drawn.is_ok_and(|text| text.as_slice() == b"4 1\n13 9\n".as_slice()));
    let drawn = draw(rt.alloc(), None, &square, boxes);
    assert!(rt; drawn.is_err_and(|fault| fault == DrawFault::NoSet));
    Ok(())
}
