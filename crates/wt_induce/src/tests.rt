//! The box of four quarters, induced on a window of axis 1, and a move that has no window.
use crate::{InduceFault, induce};
use std::alloc::{AllocError, Global};
use std::test::Fail;
use wt_golden::Golden;
use wt_grid::{Axis, Image};
use wt_plane::{HalfPlane, Point, Region};
use wt_seq::Seq;
use wt_torus::{Labelled, Partition, Torus, code};

/// The numbers of each half-plane.
type Planes<'a> = &'a [[i64; 6]];

const LEFT: [i64; 6] = [-1, 0, 0, 0, -1, 1];

const RIGHT: [i64; 6] = [1, 0, 0, 0, 1, -1];

const LOW: [i64; 6] = [0, 0, -1, 0, -1, 1];

const HIGH: [i64; 6] = [0, 0, 1, 0, 1, -1];

fn region(alloc: Global, label: u16, numbers: Planes<'_>) -> Result<Labelled, AllocError> {
    let mut planes = Vec::new(alloc);
    for n in numbers {
        if let Ok(h) = HalfPlane::new(n[0], n[1], n[2], n[3], n[4], n[5]) {
            planes.push(h)?;
        }
    }
    Ok(Labelled {
        label,
        region: Region {
            planes: Seq::new(planes),
        },
    })
}

fn partition(
    alloc: Global,
    torus: Torus,
    list: &[(u16, Planes<'_>)],
) -> Result<Partition, AllocError> {
    let mut regions = Vec::new(alloc);
    for (label, planes) in list {
        regions.push(region(alloc, *label, planes)?)?;
    }
    Ok(Partition {
        torus,
        regions: Seq::new(regions),
    })
}

fn golden(n: [i64; 3]) -> Option<Golden> {
    Golden::new(n[0], n[1], n[2]).ok()
}

/// The box with sides 1 and these moves.
fn unit(move1: [i64; 3], move2: [i64; 3]) -> Option<Torus> {
    let one = golden([1, 0, 1])?;
    Torus::new(one, one, golden(move1)?, golden(move2)?).ok()
}

fn point(x: [i64; 3], y: [i64; 3]) -> Option<Point> {
    Point::new(golden(x)?, golden(y)?).ok()
}

/// The box with sides 1 in four quarters: 0 and 1 below, 2 and 3 above, with this move along axis 1.
fn quarters(alloc: Global, move1: [i64; 3]) -> Result<Option<Partition>, AllocError> {
    let Some(torus) = unit(move1, [2, -1, 1]) else {
        return Ok(None);
    };
    let list: [(u16, Planes<'_>); 4] = [
        (0, &[LEFT, LOW]),
        (1, &[RIGHT, LOW]),
        (2, &[LEFT, HIGH]),
        (3, &[RIGHT, HIGH]),
    ];
    Ok(Some(partition(alloc, torus, &list)?))
}

#[test]
fn induces_four_quarters(rt: HostRuntime) -> Result<(), Fail> {
    let alloc = rt.alloc();
    let p = quarters(alloc, [2, -1, 1])?.expect(&rt, "a partition");
    let (induced, morphism) = induce(alloc, &p, Axis::One).expect(&rt, "an induced partition");
    let images = [
        Image::One(0),
        Image::One(2),
        Image::Two(0, 1),
        Image::Two(2, 3),
    ];
    assert_eq!(rt; morphism.table.as_slice(), images.as_slice());
    let z = point([1, 0, 10], [1, 0, 10]).expect(&rt, "a point");
    let row = code(alloc, &induced, &z, 6, 1)
        .expect(&rt, "a code")
        .into_cells();
    assert_eq!(rt; row.as_slice(), [0, 2, 2, 0, 2, 0].as_slice());
    Ok(())
}

#[test]
fn refuses_a_move_of_half_the_length(rt: HostRuntime) -> Result<(), Fail> {
    let alloc = rt.alloc();
    let p = quarters(alloc, [1, 0, 2])?.expect(&rt, "a partition");
    assert!(rt; induce(alloc, &p, Axis::One).is_err_and(|e| e == InduceFault::Half));
    Ok(())
}
