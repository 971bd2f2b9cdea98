// What the powers of a loop's map make of tiles, over a worked certificate.
use crate::tests::ONE_STEP;
use crate::tests::calls::chain_of;
use crate::tests::certificates::cu;
use std::test::Fail;
use wt_check::{CensusFault, OpenChain, SeedFault, census, primitive, seeds};

/// How often each tile stands in what four turns make of tile 0.
const COUNTS: [u128; 19] = [0, 4, 1, 0, 2, 1, 1, 1, 1, 4, 1, 0, 0, 4, 2, 1, 1, 0, 1];

/// The seeds of two turns: lower left, lower right, upper left, upper right.
const SEEDS: [[u16; 4]; 8] = [
    [1, 6, 9, 14],
    [2, 4, 16, 13],
    [3, 7, 16, 15],
    [6, 5, 17, 13],
    [8, 16, 9, 14],
    [9, 14, 10, 12],
    [11, 17, 10, 14],
    [16, 15, 17, 13],
];

#[test]
fn finds_the_power_that_mixes(rt: HostRuntime) -> Result<(), Fail> {
    let alloc = rt.alloc();
    let looped = chain_of(alloc, cu()).ok_or("looped")?;
    let open = chain_of(alloc, ONE_STEP).ok_or("open")?;
    assert_eq!(rt; primitive(&looped), Ok(Some(7)));
    assert_eq!(rt; primitive(&open), Err(OpenChain));
    Ok(())
}

#[test]
fn counts_tiles_after_turns(rt: HostRuntime) -> Result<(), Fail> {
    let alloc = rt.alloc();
    let chain = chain_of(alloc, cu()).ok_or("chain")?;
    let counts = census(alloc, &chain, 4, 0).ok().ok_or("counts")?;
    assert_eq!(rt; counts.as_slice() == COUNTS.as_slice(), true);
    assert_eq!(rt;
        census(alloc, &chain, 4096, 0).err(),
        Some(CensusFault::TooLarge)
    );
    assert_eq!(rt;
        census(alloc, &chain, 0, 19).err(),
        Some(CensusFault::NoTile)
    );
    Ok(())
}

#[test]
fn lists_seeds(rt: HostRuntime) -> Result<(), Fail> {
    let alloc = rt.alloc();
    let looped = chain_of(alloc, cu()).ok_or("looped")?;
    let open = chain_of(alloc, ONE_STEP).ok_or("open")?;
    let found = seeds(alloc, &looped, 2).ok().ok_or("seeds")?;
    assert_eq!(rt; found.as_slice() == SEEDS.as_slice(), true);
    assert_eq!(rt; seeds(alloc, &open, 2).err(), Some(SeedFault::OpenChain));
    Ok(())
}
