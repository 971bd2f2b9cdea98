// Chains by hand, with the faults that their definitions give.
use crate::{Chain, End, RawChain, Refusal, Version, chain_fault};
use std::alloc::{AllocError, Global};
use std::test::Fail;
use wt_morphism::Image;
use wt_seq::Seq;
use wt_step::{RawLink, RawRestrict, RawStep, accept_link};
use wt_tile::{Axis, Name, Side, Tile, TileList};

fn names(alloc: Global, letters: &[u8]) -> Result<Seq<Name>, AllocError> {
    let mut names = Vec::new(alloc);
    for letter in letters {
        if let Some(name) = Name::new(&[*letter]) {
            names.push(name)?;
        }
    }
    Ok(Seq::new(names))
}

fn tile(east: u16, north: u16, west: u16, south: u16) -> Tile {
    Tile {
        east,
        north,
        west,
        south,
    }
}

fn set(
    alloc: Global,
    tiles: &[Tile],
    names1: &[u8],
    names2: &[u8],
) -> Result<TileList, AllocError> {
    let tiles = Seq::new(Vec::from_slice(alloc, tiles)?);
    let names1 = names(alloc, names1)?;
    let names2 = names(alloc, names2)?;
    Ok(TileList {
        tiles,
        names1,
        names2,
    })
}

/// A step along axis 1 whose coarse set is its fine set renamed.
fn renamed_step(alloc: Global) -> Result<RawLink, AllocError> {
    let fine = [tile(0, 0, 0, 0), tile(1, 1, 0, 1), tile(1, 2, 1, 2)];
    let coarse = [tile(0, 0, 0, 0), tile(1, 1, 1, 1), tile(1, 2, 0, 2)];
    let fine = set(alloc, &fine, b"ab", b"uvw")?;
    let coarse = set(alloc, &coarse, b"ab", b"uwp")?;
    let markers = Seq::new(Vec::from_slice(alloc, &[1])?);
    let allowed1 = Seq::new(Vec::from_slice(alloc, &[(0, 0), (0, 1), (1, 2), (2, 2)])?);
    let allowed2 = Seq::new(Vec::from_slice(alloc, &[(0, 0), (1, 1), (2, 2)])?);
    let images = [Image::One(0), Image::One(2), Image::Two(0, 1)];
    let images = Seq::new(Vec::from_slice(alloc, &images)?);
    Ok(RawLink::Marker(RawStep {
        axis: Axis::One,
        side: Side::After,
        radius: 0,
        fine,
        coarse,
        markers,
        allowed1,
        allowed2,
        refuted: Seq::new(Vec::new(alloc)),
        images,
    }))
}

/// A step that keeps the one tile of its set.
fn keeping_step(alloc: Global) -> Result<RawLink, AllocError> {
    let fine = set(alloc, &[tile(0, 0, 0, 0)], b"x", b"n")?;
    let coarse = set(alloc, &[tile(0, 0, 0, 0)], b"x", b"n")?;
    let kept = Seq::new(Vec::from_slice(alloc, &[0])?);
    Ok(RawLink::Restrict(RawRestrict {
        radius: 0,
        fine,
        coarse,
        kept,
        lost: Seq::new(Vec::new(alloc)),
    }))
}

fn looped(alloc: Global, start: u16, renaming: &[u16]) -> Result<RawChain, AllocError> {
    let mut steps = Vec::new(alloc);
    steps.push(renamed_step(alloc)?)?;
    let renaming = Seq::new(Vec::from_slice(alloc, renaming)?);
    Ok(RawChain {
        version: Version::One,
        steps: Seq::new(steps),
        end: End::Loop {
            start,
            renaming,
            expansion: 1,
        },
    })
}

#[test]
fn names_what_fails_in_a_loop(rt: HostRuntime) -> Result<(), Fail> {
    let rows: [(u16, &[u16], Refusal); 4] = [
        (0, &[0, 2, 1], Refusal::Expansion { tile: 0 }),
        (0, &[0, 1, 2], Refusal::Renaming { tile: 1 }),
        (1, &[0, 2, 1], Refusal::Start),
        (0, &[0, 2], Refusal::Renaming { tile: 2 }),
    ];
    for (start, renaming, refusal) in rows {
        let raw = looped(rt.alloc(), start, renaming)?;
        assert_eq!(rt; chain_fault(&raw), Some(refusal));
    }
    Ok(())
}

/// The open chain of two steps that keep the one tile of their set.
fn two_steps(alloc: Global) -> Result<Chain, Fail> {
    let first = accept_link(keeping_step(alloc)?).ok().ok_or("first")?;
    let second = accept_link(keeping_step(alloc)?).ok().ok_or("second")?;
    let chain = Chain::start(alloc, first).ok().ok_or("start")?;
    Ok(chain.push_step(second).ok().ok_or("push")?)
}

#[test]
fn puts_steps_together(rt: HostRuntime) -> Result<(), Fail> {
    let alloc = rt.alloc();
    let chain = two_steps(alloc)?.finish().copy(alloc)?;
    assert_eq!(rt; chain.steps(), 2);
    assert_eq!(rt; chain.set(2).tiles().len(), 1);
    assert!(rt; chain.reopen().is_ok());
    Ok(())
}

#[test]
fn closes_no_loop_that_does_not_grow(rt: HostRuntime) -> Result<(), Fail> {
    let alloc = rt.alloc();
    let closed = two_steps(alloc)?.close(0, Vec::from_slice(alloc, &[0])?, 3);
    let (_, _, refusal) = closed.err().ok_or("close")?;
    assert_eq!(rt; refusal, Refusal::Expansion { tile: 0 });
    Ok(())
}
