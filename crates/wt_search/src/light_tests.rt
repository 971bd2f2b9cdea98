// Light chains that were worked out by hand: those of the example S3, of S3 with a step of radius 2, and of S7.
use crate::{LightenEnd, lighten};
use sqlite_items::Items;
use std::alloc::{AllocError, Global};
use std::test::Fail;
use wt_chain::{Accepted, End, RawChain, Version};
use wt_grid::Image;
use wt_refute::{Refuted, Tree};
use wt_seq::Seq;
use wt_step::{Lost, RawLink, RawRestrict, RawStep};
use wt_tile::{Axis, Name, Side, Tile, TileList};

/// Four tiles, of which the last has no right neighbour.
const FOUR: [[u16; 4]; 4] = [[0, 0, 0, 0], [0, 0, 1, 0], [1, 1, 0, 1], [2, 0, 0, 0]];

/// What the images of the first three show.
const COARSE: [[u16; 4]; 4] = [[0, 0, 0, 0], [0, 0, 1, 0], [1, 1, 0, 1], [1, 1, 1, 1]];

/// The refuted pairs of the four.
const PAIRS: [(Axis, u16, u16); 7] = [
    (Axis::One, 0, 3),
    (Axis::One, 1, 3),
    (Axis::Two, 0, 3),
    (Axis::Two, 1, 3),
    (Axis::Two, 3, 0),
    (Axis::Two, 3, 1),
    (Axis::Two, 3, 3),
];

fn names(alloc: Global, letters: &[u8]) -> Result<Seq<Name>, AllocError> {
    let mut names = Vec::new(alloc);
    for letter in letters {
        if let Some(name) = Name::new(&[*letter]) {
            names.push(name)?;
        }
    }
    Ok(Seq::new(names))
}

fn list(
    alloc: Global,
    colours: &[[u16; 4]],
    letters1: &[u8],
    letters2: &[u8],
) -> Result<TileList, AllocError> {
    let mut tiles = Vec::new(alloc);
    for [east, north, west, south] in colours {
        tiles.push(Tile {
            east: *east,
            north: *north,
            west: *west,
            south: *south,
        })?;
    }
    Ok(TileList {
        tiles: Seq::new(tiles),
        names1: names(alloc, letters1)?,
        names2: names(alloc, letters2)?,
    })
}

/// A cell where no tile fits, to the right of the last of the four tiles.
fn leaf(alloc: Global, cell: u16) -> Tree {
    Tree::Branch {
        cell,
        children: Items::new(alloc),
    }
}

/// The refutations of the seven pairs at a radius, each by a tree of one node.
fn refuted(alloc: Global, radius: u8, cells: &[u16]) -> Result<Seq<Refuted>, AllocError> {
    let mut refuted = Vec::new(alloc);
    for ((axis, a, b), cell) in PAIRS.iter().zip(cells.iter()) {
        refuted.push(Refuted {
            axis: *axis,
            a: *a,
            b: *b,
            radius,
            tree: leaf(alloc, *cell),
        })?;
    }
    Ok(Seq::new(refuted))
}

/// The step whose marker is tile 2.
fn step(
    alloc: Global,
    fine: TileList,
    radius: u8,
    refuted: Seq<Refuted>,
) -> Result<RawLink, AllocError> {
    let coarse = list(alloc, &COARSE, b"yx", b"np")?;
    let markers = Seq::new(Vec::from_slice(alloc, &[2])?);
    let allowed1 = [(0, 0), (0, 2), (1, 0), (1, 2), (2, 1)];
    let allowed2 = [(0, 0), (0, 1), (1, 0), (1, 1), (2, 2)];
    let images = [
        Image::One(0),
        Image::One(1),
        Image::Two(0, 2),
        Image::Two(1, 2),
    ];
    Ok(RawLink::Marker(RawStep {
        axis: Axis::One,
        side: Side::After,
        radius,
        fine,
        coarse,
        markers,
        allowed1: Seq::new(Vec::from_slice(alloc, &allowed1)?),
        allowed2: Seq::new(Vec::from_slice(alloc, &allowed2)?),
        refuted,
        images: Seq::new(Vec::from_slice(alloc, &images)?),
    }))
}

/// The open chain of steps.
fn chain_of(version: Version, steps: Vec<RawLink>) -> Result<Accepted, Fail> {
    let raw = RawChain {
        version,
        steps: Seq::new(steps),
        end: End::Open,
    };
    Ok(Accepted::new(raw).ok().ok_or("chain")?)
}

/// The chain of the step over the four tiles, at a radius.
fn one_step(alloc: Global, radius: u8, cells: &[u16]) -> Result<Accepted, Fail> {
    let fine = list(alloc, &FOUR, b"yxz", b"nm")?;
    let mut steps = Vec::new(alloc);
    steps.push(step(alloc, fine, radius, refuted(alloc, radius, cells)?)?)?;
    chain_of(Version::One, steps)
}

/// The chain that loses the last of the four tiles, and then needs no refutation.
fn two_steps(alloc: Global) -> Result<Accepted, Fail> {
    let three = &FOUR[..3];
    let mut lost = Vec::new(alloc);
    lost.push(Lost {
        tile: 3,
        tree: leaf(alloc, 5),
    })?;
    let mut steps = Vec::new(alloc);
    steps.push(RawLink::Restrict(RawRestrict {
        radius: 1,
        fine: list(alloc, &FOUR, b"yxz", b"nm")?,
        coarse: list(alloc, three, b"yx", b"nm")?,
        kept: Seq::new(Vec::from_slice(alloc, &[0, 1, 2])?),
        lost: Seq::new(lost),
    }))?;
    let fine = list(alloc, three, b"yx", b"nm")?;
    steps.push(step(alloc, fine, 0, Seq::new(Vec::new(alloc)))?)?;
    chain_of(Version::Two, steps)
}

/// Whether a refutation is of radius 1, with the one node of this cell.
fn is_light(entry: &Refuted, cell: u16) -> bool {
    match &entry.tree {
        Tree::Branch { cell: at, children } => {
            entry.radius == 1 && *at == cell && children.as_slice().is_empty()
        }
        Tree::Cite { cell: _, axis: _ } => false,
    }
}

/// Both steps lighten to the one of radius 1, whose seven trees have a node each.
#[test]
fn lowers_radii(rt: HostRuntime) -> Result<(), Fail> {
    let alloc = rt.alloc();
    let cells = [7, 7, 8, 8, 5, 5, 5];
    for (radius, old) in [(1, cells), (2, [16, 16, 18, 18, 13, 13, 13])] {
        let chain = one_step(alloc, radius, &old)?;
        let light = lighten(alloc, chain, 100_000).ok().ok_or("lighten")?;
        assert!(rt; matches!(light.raw().version, Version::Two));
        let [RawLink::Marker(step)] = light.raw().steps.as_slice() else {
            return Err(Fail::new("step"));
        };
        assert_eq!(rt; step.radius, radius);
        assert_eq!(rt; step.refuted.as_slice().len(), 7);
        for (entry, cell) in step.refuted.as_slice().iter().zip(cells.iter()) {
            assert!(rt; is_light(entry, *cell));
        }
    }
    Ok(())
}

/// At budget 0 the first refuted pair is spent; where no pair is refuted, nothing is asked.
#[test]
fn spends_nothing_at_budget_0(rt: HostRuntime) -> Result<(), Fail> {
    let alloc = rt.alloc();
    let chain = one_step(alloc, 1, &[7, 7, 8, 8, 5, 5, 5])?;
    let (_, end) = lighten(alloc, chain, 0).err().ok_or("one step")?;
    let spent = LightenEnd::Spent {
        step: 0,
        radius: 1,
        axis: Axis::One,
        a: 0,
        b: 3,
    };
    assert_eq!(rt; end, spent);
    let light = lighten(alloc, two_steps(alloc)?, 0)
        .ok()
        .ok_or("two steps")?;
    let [RawLink::Restrict(step), _] = light.raw().steps.as_slice() else {
        return Err(Fail::new("step"));
    };
    assert_eq!(rt; step.lost.as_slice().len(), 1);
    Ok(())
}
