//! Partitions of a box into quarters, with a set that they code and one that they don't; three columns and a step that takes
//! their code apart; partitions out of limit.
ghost use Rattle.std.specs.Prelude.{◌≤◌};

use crate::{CodeDesubFault, MarkovFault, WindowFault, code_desub, marker_window, markov};
use std::alloc::{AllocError, Global};
use std::test::Fail;
use wt_golden::Golden;
use wt_grid::{Axis, Image, Side};
use wt_plane::{HalfPlane, Point, Region};
use wt_seq::Seq;
use wt_step::{Coarse, LinkRef, RawStep, Step, StepRef, accept_step};
use wt_tile::{Name, SetRef, Tile, TileList};
use wt_torus::{Labelled, MAX_REGIONS, Partition, Torus};

/// The numbers of each half-plane.
type Planes<'a> = &'a [[i64; 6]];

const LEFT: [i64; 6] = [-1, 0, 0, 0, -1, 1];

const RIGHT: [i64; 6] = [1, 0, 0, 0, 1, -1];

const LOW: [i64; 6] = [0, 0, -1, 0, -1, 1];

const HIGH: [i64; 6] = [0, 0, 1, 0, 1, -1];

fn tile(east: u16, north: u16, west: u16, south: u16) -> Tile {
    Tile {
        east,
        north,
        west,
        south,
    }
}

/// The tiles of the four quarters, where the last has this colour to its right.
fn quarter_tiles(last: u16) -> [Tile; 4] {
    [
        tile(0, 0, 0, 0),
        tile(0, 1, 0, 1),
        tile(1, 0, 1, 0),
        tile(last, 1, 1, 1),
    ]
}

/// Names of one letter each.
fn names(alloc: Global, letters: &[u8]) -> Option<Seq<Name>> {
    let mut names = Vec::new(alloc);
    for letter in letters {
        names.push(Name::new(&[*letter])?).ok()?;
    }
    Some(Seq::new(names))
}

fn list(alloc: Global, tiles: &[Tile], letters1: &[u8], letters2: &[u8]) -> Option<TileList> {
    Some(TileList {
        tiles: Seq::new(tiles.to_vec(alloc).ok()?),
        names1: names(alloc, letters1)?,
        names2: names(alloc, letters2)?,
    })
}

fn region(alloc: Global, label: u16, numbers: Planes<'_>) -> Result<Labelled, AllocError> {
    let mut planes = Vec::new(alloc);
    for n in numbers {
        if let Ok(h) = HalfPlane::new(n[0], n[1], n[2], n[3], n[4], n[5]) {
            planes.push(h)?;
        }
    }
    Ok(Labelled {
        label,
        region: Region {
            planes: Seq::new(planes),
        },
    })
}

fn partition(alloc: Global, torus: Torus, list: &[(u16, Planes<'_>)]) -> Option<Partition> {
    let mut regions = Vec::new(alloc);
    for (label, planes) in list {
        regions.push(region(alloc, *label, planes).ok()?).ok()?;
    }
    Some(Partition {
        torus,
        regions: Seq::new(regions),
    })
}

/// The box with these sides and moves.
fn torus(numbers: [[i64; 3]; 4]) -> Option<Torus> {
    let [width, height, move1, move2] = numbers;
    Torus::new(
        golden(width)?,
        golden(height)?,
        golden(move1)?,
        golden(move2)?,
    )
    .ok()
}

fn golden(n: [i64; 3]) -> Option<Golden> {
    Golden::new(n[0], n[1], n[2]).ok()
}

/// What `markov` answers for the quarters of the unit square, each labelled by its number.
fn quarters(alloc: Global, set: &TileList) -> Option<Result<(usize, usize), MarkovFault>> {
    let torus = torus([[1, 0, 1], [1, 0, 1], [2, -1, 1], [2, -1, 1]])?;
    let regions: [(u16, Planes<'_>); 4] = [
        (0, &[LEFT, LOW]),
        (1, &[RIGHT, LOW]),
        (2, &[LEFT, HIGH]),
        (3, &[RIGHT, HIGH]),
    ];
    answer(alloc, set, torus, &regions)
}

fn answer(
    alloc: Global,
    set: &TileList,
    torus: Torus,
    regions: &[(u16, Planes<'_>)],
) -> Option<Result<(usize, usize), MarkovFault>> {
    let p = partition(alloc, torus, regions)?;
    if p.regions.as_slice().len() > MAX_REGIONS {
        return None;
    }
    Some(markov(SetRef::new(set).ok()?, &p))
}

#[test]
fn quarters_code_their_set(rt: HostRuntime) -> Result<(), Fail> {
    let alloc = rt.alloc();
    let set = list(alloc, &quarter_tiles(1), b"ab", b"nm").expect(&rt, "a list");
    let pairs = quarters(alloc, &set)
        .expect(&rt, "quarters")
        .expect(&rt, "pairs");
    assert!(rt; pairs == (6, 6));
    let other = list(alloc, &quarter_tiles(2), b"abc", b"nm").expect(&rt, "a list");
    let fault = quarters(alloc, &other).expect(&rt, "quarters");
    assert!(rt;
        fault.is_err_and(|e| e
            == MarkovFault::Pair {
                axis: Axis::One,
                i: 3,
                j: 2
            })
    );
    Ok(())
}

#[test]
fn labels_come_first(rt: HostRuntime) -> Result<(), Fail> {
    let alloc = rt.alloc();
    let set = list(alloc, &quarter_tiles(1), b"ab", b"nm").expect(&rt, "a list");
    let wide_box = torus([[262144, 0, 1], [1, 0, 1], [1, 0, 2], [1, 0, 2]]).expect(&rt, "a torus");
    let four: [(u16, Planes<'_>); 2] = [(3, &[LEFT]), (4, &[RIGHT])];
    let fault = answer(alloc, &set, wide_box, &four).expect(&rt, "an answer");
    assert!(rt; fault.is_err_and(|e| e == MarkovFault::Tile { region: 1 }));
    let wide = answer(alloc, &set, wide_box, &[(3, &[LEFT])]).expect(&rt, "an answer");
    assert!(rt; wide.is_err_and(|e| e == MarkovFault::TooLarge));
    let none = answer(alloc, &set, wide_box, &[]).expect(&rt, "an answer");
    assert!(rt; none.expect(&rt, "pairs") == (0, 0));
    Ok(())
}

#[test]
fn a_pair_comes_before_a_zone_of_the_other_axis(rt: HostRuntime) -> Result<(), Fail> {
    let alloc = rt.alloc();
    let turns = torus([[1, 0, 1], [1, 0, 1], [1, 0, 3], [1, 0, 300_000]]).expect(&rt, "a torus");
    let one: [(u16, Planes<'_>); 1] = [(0, &[])];
    let apart = list(alloc, &[tile(0, 0, 1, 0)], b"xy", b"n").expect(&rt, "a list");
    let fault = answer(alloc, &apart, turns, &one).expect(&rt, "an answer");
    assert!(rt;
        fault.is_err_and(|e| e
            == MarkovFault::Pair {
                axis: Axis::One,
                i: 0,
                j: 0
            })
    );
    let alike = list(alloc, &[tile(0, 0, 0, 0)], b"x", b"n").expect(&rt, "a list");
    let large = answer(alloc, &alike, turns, &one).expect(&rt, "an answer");
    assert!(rt; large.is_err_and(|e| e == MarkovFault::TooLarge));
    Ok(())
}

/// Of three columns of the unit square: that between 2 - φ and φ - 1, that below 2 - φ, and that beyond φ - 1, which is where
/// the window ends.
const MIDDLE: Planes<'static> = &[[1, 0, 0, 0, -2, 1], LEFT];

const FIRST: Planes<'static> = &[[-1, 0, 0, 0, 2, -1]];

const LAST: Planes<'static> = &[RIGHT];

fn fine(alloc: Global) -> Option<TileList> {
    list(
        alloc,
        &[tile(0, 0, 0, 0), tile(0, 0, 1, 0), tile(1, 1, 0, 1)],
        b"yx",
        b"nm",
    )
}

fn coarse(alloc: Global) -> Option<TileList> {
    let tiles = [
        tile(0, 0, 0, 0),
        tile(0, 0, 1, 0),
        tile(1, 1, 0, 1),
        tile(1, 1, 1, 1),
    ];
    list(alloc, &tiles, b"yx", b"np")
}

fn pairs(alloc: Global, list: &[(u16, u16)]) -> Option<Seq<(u16, u16)>> {
    Some(Seq::new(list.to_vec(alloc).ok()?))
}

/// A step that reads the last column as the second half of a block.
fn column_step(alloc: Global) -> Option<Step> {
    let images = [
        Image::One(0),
        Image::One(1),
        Image::Two(0, 2),
        Image::Two(1, 2),
    ];
    let raw = RawStep {
        axis: Axis::One,
        side: Side::After,
        radius: 0,
        fine: fine(alloc)?,
        coarse: coarse(alloc)?,
        markers: Seq::new([2].to_vec(alloc).ok()?),
        allowed1: pairs(alloc, &[(0, 0), (0, 2), (1, 0), (1, 2), (2, 1)])?,
        allowed2: pairs(alloc, &[(0, 0), (0, 1), (1, 0), (1, 1), (2, 2)])?,
        refuted: Seq::new(Vec::new(alloc)),
        images: Seq::new(images.to_vec(alloc).ok()?),
    };
    accept_step(raw).ok()
}

/// These regions of the unit square.
fn columns(alloc: Global, regions: &[(u16, Planes<'_>)]) -> Option<Partition> {
    let torus = torus([[1, 0, 1], [1, 0, 1], [2, -1, 1], [2, -1, 1]])?;
    partition(alloc, torus, regions)
}

/// What `markov` answers for the fine set of a step.
fn coded(step: StepRef<'_>, p: &Partition) -> Option<Result<(usize, usize), MarkovFault>> {
    if p.regions.as_slice().len() > MAX_REGIONS {
        return None;
    }
    Some(markov(LinkRef::Marker(step).fine(), p))
}

/// What `code_desub` answers at (1/10, 1/10), where it may be asked.
fn taken_apart(
    alloc: Global,
    step: StepRef<'_>,
    p: &Partition,
    w: usize,
) -> Option<Result<Coarse, CodeDesubFault>>
    requires { (1 ≤ w) × (w ≤ 4096) }
{
    if p.regions.as_slice().len() > MAX_REGIONS {
        return None;
    }
    let tenth = golden([1, 0, 10])?;
    let z = Point::new(tenth, tenth).ok()?;
    match markov(LinkRef::Marker(step).fine(), p) {
        Ok(_) => match marker_window(step, p) {
            Ok(()) => Some(code_desub(alloc, step, p, &z, w, 1)),
            Err(_) => None,
        },
        Err(_) => None,
    }
}

#[test]
fn columns_are_taken_apart(rt: HostRuntime) -> Result<(), Fail> {
    let alloc = rt.alloc();
    let step = column_step(alloc).expect(&rt, "a step");
    let p = columns(alloc, &[(0, MIDDLE), (1, FIRST), (2, LAST)]).expect(&rt, "columns");
    let pairs = coded(step.view(), &p)
        .expect(&rt, "an answer")
        .expect(&rt, "pairs");
    assert!(rt; pairs == (4, 3));
    assert!(rt; marker_window(step.view(), &p).is_ok());
    let six = taken_apart(alloc, step.view(), &p, 6)
        .expect(&rt, "an answer")
        .expect(&rt, "a pattern");
    assert!(rt; !six.low_cut && six.high_cut);
    assert_eq!(rt; six.pattern.into_cells().as_slice(), [1, 2, 3].as_slice());
    let two = taken_apart(alloc, step.view(), &p, 2).expect(&rt, "an answer");
    assert!(rt; two.is_err_and(|e| e == CodeDesubFault::TooSmall));
    Ok(())
}

#[test]
fn labels_are_exchanged(rt: HostRuntime) -> Result<(), Fail> {
    let alloc = rt.alloc();
    let step = column_step(alloc).expect(&rt, "a step");
    let p = columns(alloc, &[(2, MIDDLE), (1, FIRST), (0, LAST)]).expect(&rt, "columns");
    let fault = coded(step.view(), &p).expect(&rt, "an answer");
    assert!(rt;
        fault.is_err_and(|e| e
            == MarkovFault::Pair {
                axis: Axis::One,
                i: 0,
                j: 2
            })
    );
    Ok(())
}

#[test]
fn regions_are_asked_on_which_side_they_lie(rt: HostRuntime) -> Result<(), Fail> {
    let alloc = rt.alloc();
    let step = column_step(alloc).expect(&rt, "a step");
    let everywhere: Planes<'_> = &[];
    let outside: Planes<'_> = &[[-1, 0, 0, 0, 0, 0]];
    let rows = [
        (0, everywhere, Err(WindowFault::Outside { region: 3 })),
        (2, everywhere, Err(WindowFault::Inside { region: 3 })),
        (0, outside, Ok(())),
        (2, outside, Ok(())),
    ];
    for (label, planes, answer) in rows {
        let p = columns(
            alloc,
            &[(0, MIDDLE), (1, FIRST), (2, LAST), (label, planes)],
        )
        .expect(&rt, "columns");
        assert!(rt; marker_window(step.view(), &p) == answer);
    }
    let none = columns(alloc, &[(0, MIDDLE), (1, FIRST), (1, LAST), (2, outside)]).expect(
        &rt, "columns",
    );
    let fault = marker_window(step.view(), &none);
    assert!(rt; fault.is_err_and(|e| e == WindowFault::Outside { region: 2 }));
    Ok(())
}

#[test]
fn no_region_leaves_a_marker_without_a_label(rt: HostRuntime) -> Result<(), Fail> {
    let alloc = rt.alloc();
    let step = column_step(alloc).expect(&rt, "a step");
    let wide = torus([[262_144, 0, 1], [1, 0, 1], [1, 0, 1], [1, 0, 2]]).expect(&rt, "a torus");
    let none = partition(alloc, wide, &[]).expect(&rt, "a partition");
    let fault = marker_window(step.view(), &none);
    assert!(rt; fault.is_err_and(|e| e == WindowFault::Nowhere { marker: 2 }));
    let half = torus([[1, 0, 1], [1, 0, 1], [1, 0, 2], [1, 0, 2]]).expect(&rt, "a torus");
    let halves = partition(alloc, half, &[]).expect(&rt, "a partition");
    assert!(rt; marker_window(step.view(), &halves).is_err_and(|e| e == WindowFault::Half));
    Ok(())
}
