// Images of small patterns, worked out by hand.
use crate::{ApplyFault, CutFault, Image, Morphism, apply, apply_all, apply_part};
use std::alloc::{AllocError, Global};
use wt_pattern::Pattern;
use wt_seq::Seq;
use wt_tile::Axis;

fn morphism(alloc: Global, axis: Axis, images: &[Image]) -> Result<Morphism, AllocError> {
    let mut table = Vec::new(alloc);
    table.extend_from_slice(images)?;
    Ok(Morphism {
        axis,
        table: Seq::new(table),
    })
}

/// Four tiles along axis 1, of which the last two stand for pairs.
fn pairs(alloc: Global) -> Result<Morphism, AllocError> {
    morphism(
        alloc,
        Axis::One,
        &[
            Image::One(0),
            Image::One(1),
            Image::Two(0, 2),
            Image::Two(1, 2),
        ],
    )
}

/// Three tiles along axis 2, each of which stands for a pair.
fn doubled(alloc: Global) -> Result<Morphism, AllocError> {
    morphism(
        alloc,
        Axis::Two,
        &[Image::Two(0, 1), Image::Two(1, 0), Image::Two(2, 2)],
    )
}

fn pattern(alloc: Global, width: usize, height: usize, cells: &[u16]) -> Option<Pattern> {
    let mut all = Vec::new(alloc);
    if all.extend_from_slice(cells).is_err() {
        return None;
    }
    match Pattern::new(width, height, all) {
        Ok(p) => Some(p),
        Err(_) => None,
    }
}

#[test]
fn part_of_an_image(rt: HostRuntime) {
    let alloc = rt.alloc();
    let m = pairs(alloc).expect(&rt, "memory");
    let p = pattern(alloc, 2, 1, &[2, 3]).expect(&rt, "a pattern");
    match apply_part(alloc, &m, &p, 3, 1) {
        Ok(q) => {
            assert_eq!(rt; (q.width(), q.height()), (3, 1));
            assert_eq!(rt; q.row(0), [0, 2, 1].as_slice());
        }
        Err(_) => assert!(rt; false),
    }
}

#[test]
fn images_in_turn(rt: HostRuntime) {
    let alloc = rt.alloc();
    let p = pattern(alloc, 2, 1, &[2, 3]).expect(&rt, "a pattern");
    let parts = [
        pairs(alloc).expect(&rt, "memory"),
        doubled(alloc).expect(&rt, "memory"),
    ];
    match apply_all(alloc, &parts, &p) {
        Ok(q) => {
            assert_eq!(rt; (q.width(), q.height()), (4, 2));
            assert_eq!(rt;
                q.into_cells().as_slice(),
                [0, 2, 1, 2, 1, 2, 0, 2].as_slice()
            );
        }
        Err(_) => assert!(rt; false),
    }
}

#[test]
fn uneven_columns(rt: HostRuntime) {
    let alloc = rt.alloc();
    let m = pairs(alloc).expect(&rt, "memory");
    let p = pattern(alloc, 2, 3, &[2, 0, 3, 1, 3, 2]).expect(&rt, "a pattern");
    match apply(alloc, &m, &p) {
        Ok(_) => assert!(rt; false),
        Err(fault) => assert_eq!(rt; fault, ApplyFault::Uneven { x: 1, y: 2 }),
    }
    match apply_part(alloc, &m, &p, 1, 1) {
        Ok(_) => assert!(rt; false),
        Err(fault) => assert_eq!(rt; fault, CutFault::Uneven { x: 1, y: 2 }),
    }
}

#[test]
fn too_large(rt: HostRuntime) {
    let alloc = rt.alloc();
    let m = doubled(alloc).expect(&rt, "memory");
    let p = pattern(alloc, 1, 2049, &[1; 2049]).expect(&rt, "a pattern");
    match apply(alloc, &m, &p) {
        Ok(_) => assert!(rt; false),
        Err(fault) => assert_eq!(rt; fault, ApplyFault::TooLarge),
    }
}
