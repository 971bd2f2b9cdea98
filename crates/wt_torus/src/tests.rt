//! Letters and codes of points: a box in two halves and a strip above them, a box in four quarters, and one in two parts
//! whose code is the Fibonacci word.
ghost use Rattle.std.specs.Prelude.{◌≤◌};

use crate::{CodeFault, Labelled, Letter, Partition, Torus, code, code_point};
use std::alloc::{AllocError, Global};
use std::test::Fail;
use wt_golden::Golden;
use wt_grid::MAX_SIDE;
use wt_plane::{HalfPlane, Point, Region};
use wt_seq::Seq;

/// The numbers of each half-plane.
type Planes<'a> = &'a [[i64; 6]];

const LEFT: [i64; 6] = [-1, 0, 0, 0, -1, 1];

const RIGHT: [i64; 6] = [1, 0, 0, 0, 1, -1];

const LOW: [i64; 6] = [0, 0, -1, 0, -1, 1];

const HIGH: [i64; 6] = [0, 0, 1, 0, 1, -1];

fn region(alloc: Global, label: u16, numbers: Planes<'_>) -> Result<Labelled, AllocError> {
    let mut planes = Vec::new(alloc);
    for n in numbers {
        if let Ok(h) = HalfPlane::new(n[0], n[1], n[2], n[3], n[4], n[5]) {
            planes.push(h)?;
        }
    }
    Ok(Labelled {
        label,
        region: Region {
            planes: Seq::new(planes),
        },
    })
}

fn partition(
    alloc: Global,
    torus: Torus,
    list: &[(u16, Planes<'_>)],
) -> Result<Partition, AllocError> {
    let mut regions = Vec::new(alloc);
    for (label, planes) in list {
        regions.push(region(alloc, *label, planes)?)?;
    }
    Ok(Partition {
        torus,
        regions: Seq::new(regions),
    })
}

fn golden(n: [i64; 3]) -> Option<Golden> {
    Golden::new(n[0], n[1], n[2]).ok()
}

/// The box with sides 1 and these moves.
fn unit(move1: [i64; 3], move2: [i64; 3]) -> Option<Torus> {
    let one = golden([1, 0, 1])?;
    Torus::new(one, one, golden(move1)?, golden(move2)?).ok()
}

fn point(x: [i64; 3], y: [i64; 3]) -> Option<Point> {
    Point::new(golden(x)?, golden(y)?).ok()
}

/// The letters of w by h turns of a point, row by row from the bottom.
fn letters(
    alloc: Global,
    p: &Partition,
    z: &Point,
    w: usize,
    h: usize,
) -> Result<Vec<u16>, CodeFault>
    requires wide { (1 ≤ w) × (w ≤ MAX_SIDE) }
    requires high { (1 ≤ h) × (h ≤ MAX_SIDE) }
{
    match code(alloc, p, z, w, h) {
        Ok(g) => Ok(g.into_cells()),
        Err(e) => Err(e),
    }
}

/// The fixed point of 2 to 2 0 and 0 to 2, as far as the first count letters.
fn fibonacci_word(alloc: Global, count: usize) -> Result<Vec<u16>, AllocError> {
    let mut word = Vec::new(alloc);
    word.push(2)?;
    word.push(0)?;
    for i in 1..count {
        let letter = if i < word.len() { word[i] } else { 2 };
        word.push(2)?;
        if letter == 2 {
            word.push(0)?;
        }
    }
    word.truncate(count);
    Ok(word)
}

#[test]
fn reads_letters(rt: HostRuntime) -> Result<(), Fail> {
    let one = golden([1, 0, 1]).expect(&rt, "one");
    let step = golden([2, -1, 1]).expect(&rt, "a move");
    assert!(rt; Torus::new(one, one, step, one).is_err());
    assert!(rt; Torus::new(step, one, step, step).is_err());
    let torus = Torus::new(one, one, step, step).expect(&rt, "a torus");
    let halves: [(u16, Planes<'_>); 3] = [
        (0, &[[-2, 0, 0, 0, 1, 0]]),
        (1, &[[2, 0, 0, 0, -1, 0]]),
        (2, &[[0, 0, 4, 0, -3, 0]]),
    ];
    let p = partition(rt.alloc(), torus, &halves)?;
    let rows = [
        ([1, 0, 4], [1, 0, 4], Letter::One(0)),
        ([-1, 1, 1], [1, 0, 4], Letter::One(1)),
        ([1, 0, 2], [1, 0, 4], Letter::Unplaced),
        ([0, 0, 1], [1, 0, 4], Letter::Unplaced),
        ([1, 0, 4], [7, 0, 8], Letter::Doubled),
    ];
    for (x, y, letter) in rows {
        let z = point(x, y).expect(&rt, "a point");
        assert!(rt; code_point(&p, &z) == letter);
    }
    Ok(())
}

#[test]
fn codes_of_four_quarters(rt: HostRuntime) -> Result<(), Fail> {
    let alloc = rt.alloc();
    let torus = unit([2, -1, 1], [2, -1, 1]).expect(&rt, "a torus");
    let quarters: [(u16, Planes<'_>); 4] = [
        (0, &[LEFT, LOW]),
        (1, &[RIGHT, LOW]),
        (2, &[LEFT, HIGH]),
        (3, &[RIGHT, HIGH]),
    ];
    let p = partition(alloc, torus, &quarters)?;
    let z = point([1, 0, 10], [1, 0, 10]).expect(&rt, "a point");
    let row = letters(alloc, &p, &z, 8, 1).expect(&rt, "a row");
    assert_eq!(rt; row.as_slice(), [0, 0, 1, 0, 1, 0, 0, 1].as_slice());
    let square = letters(alloc, &p, &z, 3, 3).expect(&rt, "a square");
    assert_eq!(rt; square.as_slice(), [0, 0, 1, 0, 0, 1, 2, 2, 3].as_slice());
    let border = point([0, 0, 1], [1, 0, 10]).expect(&rt, "a point");
    assert!(rt;
        letters(alloc, &p, &border, 8, 1).is_err_and(|e| e == CodeFault::Unplaced { x: 0, y: 0 })
    );
    let end = point([1, 0, 1], [1, 0, 10]).expect(&rt, "a point");
    assert!(rt; letters(alloc, &p, &end, 8, 1).is_err_and(|e| e == CodeFault::OutsideBox));
    Ok(())
}

#[test]
fn codes_of_a_fibonacci_word(rt: HostRuntime) -> Result<(), Fail> {
    let alloc = rt.alloc();
    let torus = unit([2, -1, 1], [1, 0, 2]).expect(&rt, "a torus");
    let p = partition(alloc, torus, &[(2, &[LEFT]), (0, &[RIGHT])])?;
    let z = point([2, -1, 1], [1, 0, 10]).expect(&rt, "a point");
    let row = letters(alloc, &p, &z, 1000, 1).expect(&rt, "a row");
    let word = fibonacci_word(alloc, 1000)?;
    assert!(rt; row.as_slice() == word.as_slice());
    Ok(())
}

#[test]
fn codes_end_at_a_number_out_of_limit(rt: HostRuntime) -> Result<(), Fail> {
    let alloc = rt.alloc();
    let torus = unit([1, 0, 32769], [1, 0, 2]).expect(&rt, "a torus");
    let p = partition(alloc, torus, &[(1, &[])])?;
    let z = point([1, 0, 32768], [1, 0, 10]).expect(&rt, "a point");
    let one = letters(alloc, &p, &z, 1, 1).expect(&rt, "a letter");
    assert_eq!(rt; one.as_slice(), [1].as_slice());
    assert!(rt; letters(alloc, &p, &z, 2, 1).is_err_and(|e| e == CodeFault::TooLarge));
    Ok(())
}
