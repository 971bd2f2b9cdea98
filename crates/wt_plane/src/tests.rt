//! Worked half-planes, and each call once.
use crate::{HalfPlane, PlaneFault, Point, Region, clash, clip, contains, reduce};
use std::alloc::{AllocError, Global};
use std::test::Fail;
use wt_golden::Golden;
use wt_seq::Seq;

fn clashing(numbers: [[i64; 6]; 3]) -> bool {
    let [f, g, h] = numbers;
    match (made(f), made(g), made(h)) {
        (Ok(f), Ok(g), Ok(h)) => clash(&f, &g, &h),
        _ => false,
    }
}

fn made(n: [i64; 6]) -> Result<HalfPlane, PlaneFault> {
    HalfPlane::new(n[0], n[1], n[2], n[3], n[4], n[5])
}

#[test]
fn finds_clashes(rt: HostRuntime) -> Result<(), Fail> {
    let right = [1, 0, 0, 0, 0, 0];
    let left = [-1, 0, 0, 0, 0, 0];
    let up = [0, 0, 1, 0, 0, 0];
    let corner = [-1, 0, -1, 0, 1, 0];
    let beyond = [-1, 0, -1, 0, 0, 0];
    let below_phi = [-1, 0, 0, 0, 0, 1];
    let above_phi = [1, 0, 0, 0, 0, -1];
    let rows: [([[i64; 6]; 3], bool); 8] = [
        ([right, left, up], true),
        ([right, up, corner], false),
        ([right, up, beyond], true),
        ([right, right, right], false),
        ([right, below_phi, up], false),
        ([above_phi, below_phi, right], true),
        ([above_phi, left, left], true),
        ([up, corner, right], false),
    ];
    for (planes, want) in rows {
        assert_eq!(rt; clashing(planes), want);
    }
    Ok(())
}

#[test]
fn makes_half_planes(rt: HostRuntime) -> Result<(), Fail> {
    assert!(rt; matches!(made([2, 4, 0, 6, 8, 0]), Ok(h) if h.numbers() == [1, 2, 0, 3, 4, 0]));
    assert!(rt; matches!(made([0, 0, 0, 0, 8, 0]), Err(PlaneFault::NoDirection)));
    assert!(rt; matches!(made([262_144, 0, 0, 0, 1, 0]), Err(PlaneFault::TooLarge)));
    assert!(rt;
        matches!(made([524_288, 0, 0, 0, 0, 0]), Ok(h) if h.numbers() == [1, 0, 0, 0, 0, 0])
    );
    if let (Ok(h), Ok(third), Ok(zero)) = (
        made([1, 0, 0, 0, 0, 0]),
        Golden::new(1, 0, 3),
        Golden::new(0, 0, 1),
    ) {
        assert!(rt; matches!(h.moved(third, zero), Ok(m) if m.numbers() == [3, 0, 0, 0, 1, 0]));
    }
    Ok(())
}

fn region(alloc: Global, list: &[[i64; 6]]) -> Result<Region, AllocError> {
    let mut planes = Vec::new(alloc);
    for numbers in list {
        if let Ok(h) = made(*numbers) {
            planes.push(h)?;
        }
    }
    Ok(Region {
        planes: Seq::new(planes),
    })
}

#[test]
fn keeps_what_counts(rt: HostRuntime) -> Result<(), Fail> {
    let right = [1, 0, 0, 0, 0, 0];
    let up = [0, 0, 1, 0, 0, 0];
    let before_phi = [-1, 0, 0, 0, 0, 1];
    let kept = reduce(region(
        rt.alloc(),
        &[right, up, right, before_phi, [1, 0, 0, 0, 1, 0]],
    )?);
    let planes = kept.planes.as_slice();
    assert_eq!(rt; planes.len(), 3);
    let numbers = [up, right, before_phi];
    for (h, want) in planes.iter().zip(numbers.iter()) {
        assert_eq!(rt; h.numbers(), *want);
    }
    Ok(())
}

#[test]
fn holds_points(rt: HostRuntime) -> Result<(), Fail> {
    let triangle = region(rt.alloc(), &[[1, 0, 0, 0, 0, 0], [0, 0, 1, 0, 0, 0]])?;
    if let (Ok(x), Ok(y), Ok(h)) = (
        Golden::new(1, 0, 2),
        Golden::new(-1, 1, 3),
        made([-1, 0, -1, 0, 0, 1]),
    ) {
        if let Ok(z) = Point::new(x, y) {
            assert!(rt; contains(&triangle, &z));
            assert_eq!(rt; z.x().parts(), (1, 0, 2));
            assert_eq!(rt; z.y().parts(), (-1, 1, 3));
            match clip(triangle, h) {
                Ok(part) => assert!(rt; contains(&part, &z)),
                Err(_) => assert!(rt; false),
            }
        }
    }
    if let (Ok(x), Ok(y)) = (Golden::new(1, 0, 32_769), Golden::new(1, 0, 32_768)) {
        assert!(rt; Point::new(x, y).is_err());
    }
    Ok(())
}
