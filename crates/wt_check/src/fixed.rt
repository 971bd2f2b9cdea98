// Seeds of a loop.
ghost use Rattle.std.specs.Prelude.{◌≡◌, ◌++◌, ◌<◌, ◌≤◌, length, [], IfOk, IfErr, OnOk};
ghost use Rattle.wt_check.specs.Powers.{IsClosed};
ghost use Rattle.wt_check.specs.Seeds as spec;
ghost use Rattle.wt_check.specs.Seeds.{gather, told, seed, seeds_above, seeds_beside, seeds_from, all_seeds, loop_tiles, AreSeeds, HasSeedFault};

use crate::corners::{Corner, corners};
use std::alloc::{AllocError, Global};
use wt_chain::{Accepted, End, steps_from};
use wt_grid::MAX_TILES;
use wt_step::{LinkRef, RawLink};
use wt_tile::{Axis, SetRef};

/// For each tile the four corners of what becomes of it.
#[derive(Clone, Copy)]
pub struct Tables {
    /// In the last column and the top row.
    pub upper_right: [u16; MAX_TILES],
    /// In the first column and the top row.
    pub upper_left: [u16; MAX_TILES],
    /// In the last column and the bottom row.
    pub lower_right: [u16; MAX_TILES],
    /// In the first column and the bottom row.
    pub lower_left: [u16; MAX_TILES],
}

/// Adds the seed of these four tiles, where it is one.
fn add_seed(
    out: &mut Vec<[u16; 4]>,
    set: SetRef,
    tables: &Tables,
    a: u16,
    b: u16,
    c: u16,
    d: u16,
) -> Result<(), AllocError>
    requires second { b < length set.list.now.tiles }
    requires third { c < length set.list.now.tiles }
    requires last { d < length set.list.now.tiles }
    requires few { length set.list.now.tiles ≤ MAX_TILES }
    ensures { OnOk result (out.new.items ≡ out.old.items ++ seed set.entry.list.now.tiles (told tables.now) a b c d) }
{
    if tables.lower_left[usize::from(d)] == d
        && (set.matches(Axis::One, c, d) && set.matches(Axis::Two, b, d))
    {
        out.push([a, b, c, d])?;
    }
    Ok(())
}

fn add_last(
    out: &mut Vec<[u16; 4]>,
    set: SetRef,
    tables: &Tables,
    a: u16,
    b: u16,
    c: u16,
) -> Result<(), AllocError>
    requires second { b < length set.list.now.tiles }
    requires third { c < length set.list.now.tiles }
    requires few { length set.list.now.tiles ≤ MAX_TILES }
    ensures { OnOk result (out.new.items ≡ out.old.items ++ gather (length set.entry.list.now.tiles) (seed set.entry.list.now.tiles (told tables.now) a b c)) }
{
    let count = set.len() as u16;
    for d in 0..count {
        add_seed(out, set, tables, a, b, c, d)?;
    }
    Ok(())
}

/// Adds the seeds with these three tiles.
fn add_above(
    out: &mut Vec<[u16; 4]>,
    set: SetRef,
    tables: &Tables,
    a: u16,
    b: u16,
    c: u16,
) -> Result<(), AllocError>
    requires first { a < length set.list.now.tiles }
    requires second { b < length set.list.now.tiles }
    requires third { c < length set.list.now.tiles }
    requires few { length set.list.now.tiles ≤ MAX_TILES }
    ensures { OnOk result (out.new.items ≡ out.old.items ++ seeds_above set.entry.list.now.tiles (told tables.now) a b c) }
{
    if tables.lower_right[usize::from(c)] == c && set.matches(Axis::Two, a, c) {
        add_last(out, set, tables, a, b, c)?;
    }
    Ok(())
}

fn add_third(
    out: &mut Vec<[u16; 4]>,
    set: SetRef,
    tables: &Tables,
    a: u16,
    b: u16,
) -> Result<(), AllocError>
    requires first { a < length set.list.now.tiles }
    requires second { b < length set.list.now.tiles }
    requires few { length set.list.now.tiles ≤ MAX_TILES }
    ensures { OnOk result (out.new.items ≡ out.old.items ++ gather (length set.entry.list.now.tiles) (seeds_above set.entry.list.now.tiles (told tables.now) a b)) }
{
    let count = set.len() as u16;
    for c in 0..count {
        add_above(out, set, tables, a, b, c)?;
    }
    Ok(())
}

/// Adds the seeds with these two tiles below.
fn add_beside(
    out: &mut Vec<[u16; 4]>,
    set: SetRef,
    tables: &Tables,
    a: u16,
    b: u16,
) -> Result<(), AllocError>
    requires first { a < length set.list.now.tiles }
    requires second { b < length set.list.now.tiles }
    requires few { length set.list.now.tiles ≤ MAX_TILES }
    ensures { OnOk result (out.new.items ≡ out.old.items ++ seeds_beside set.entry.list.now.tiles (told tables.now) a b) }
{
    if tables.upper_left[usize::from(b)] == b && set.matches(Axis::One, a, b) {
        add_third(out, set, tables, a, b)?;
    }
    Ok(())
}

fn add_second(
    out: &mut Vec<[u16; 4]>,
    set: SetRef,
    tables: &Tables,
    a: u16,
) -> Result<(), AllocError>
    requires first { a < length set.list.now.tiles }
    requires few { length set.list.now.tiles ≤ MAX_TILES }
    ensures { OnOk result (out.new.items ≡ out.old.items ++ gather (length set.entry.list.now.tiles) (seeds_beside set.entry.list.now.tiles (told tables.now) a)) }
{
    let count = set.len() as u16;
    for b in 0..count {
        add_beside(out, set, tables, a, b)?;
    }
    Ok(())
}

/// Adds the seeds with this tile at the lower left.
fn add_from(out: &mut Vec<[u16; 4]>, set: SetRef, tables: &Tables, a: u16) -> Result<(), AllocError>
    requires first { a < length set.list.now.tiles }
    requires few { length set.list.now.tiles ≤ MAX_TILES }
    ensures { OnOk result (out.new.items ≡ out.old.items ++ seeds_from set.entry.list.now.tiles (told tables.now) a) }
{
    if tables.upper_right[usize::from(a)] == a {
        add_second(out, set, tables, a)?;
    }
    Ok(())
}

/// Adds all seeds.
fn add_all(out: &mut Vec<[u16; 4]>, set: SetRef, tables: &Tables) -> Result<(), AllocError>
    requires few { length set.list.now.tiles ≤ MAX_TILES }
    ensures { OnOk result (out.new.items ≡ out.old.items ++ all_seeds set.entry.list.now.tiles (told tables.now)) }
{
    let count = set.len() as u16;
    for a in 0..count {
        add_from(out, set, tables, a)?;
    }
    Ok(())
}

/// The corners of a power of a loop's map.
fn four_corners(links: &[RawLink], renaming: &[u16], power: u32) -> Tables
    requires closed { IsClosed links.now renaming.now }
    ensures { all_seeds (loop_tiles links.now) (told result) ≡ spec.loop_seeds links.now renaming.now power }
{
    let upper_right = Corner {
        right: true,
        upper: true,
    };
    let upper_left = Corner {
        right: false,
        upper: true,
    };
    let lower_right = Corner {
        right: true,
        upper: false,
    };
    let lower_left = Corner {
        right: false,
        upper: false,
    };
    Tables {
        upper_right: corners(upper_right, links, renaming, power),
        upper_left: corners(upper_left, links, renaming, power),
        lower_right: corners(lower_right, links, renaming, power),
        lower_left: corners(lower_left, links, renaming, power),
    }
}

/// Why there are no seeds.
#[derive(Clone, Copy, Debug, PartialEq, Eq)]
pub enum SeedFault {
    /// The chain isn't closed to a loop.
    OpenChain,
    /// No memory was left.
    OutOfMemory,
}

/// The seeds of a loop.
fn loop_seeds(
    alloc: Global,
    links: &[RawLink],
    renaming: &[u16],
    power: u32,
) -> Result<Vec<[u16; 4]>, AllocError>
    requires closed { IsClosed links.now renaming.now }
    ensures { IfOk result (λ seeds. seeds.items ≡ spec.loop_seeds links.now renaming.now power) }
{
    let mut out = Vec::new(alloc);
    let [first, ..] = links else {
        return Ok(out);
    };
    let tables = four_corners(links, renaming, power);
    add_all(&mut out, LinkRef::new(first).fine(), &tables)?;
    Ok(out)
}

/// The seeds of a power, from 1 to 64, of a chain's loop, ascending: the valid 2 by 2 patterns over the set
/// of level `start` whose lower left tile is the upper right corner of what n turns make of it, and
/// likewise each other tile the opposite corner of its own. Each is listed as lower left, lower right, upper
/// left, upper right. `OpenChain` exactly where the chain isn't looped; else memory alone can run out.
pub fn seeds(alloc: Global, c: &Accepted, power: u32) -> Result<Vec<[u16; 4]>, SeedFault>
    requires some { 1 ≤ power }
    requires few { power ≤ 64 }
    ensures seeds { IfOk result (λ seeds. AreSeeds c.now.steps c.now.end power seeds.items) }
    ensures fault { IfErr result (λ e. HasSeedFault c.now.end e) }
{
    let chain = c.raw();
    let End::Loop {
        start,
        renaming,
        expansion: _,
    } = &chain.end
    else {
        return Err(SeedFault::OpenChain);
    };
    let links = steps_from(chain.steps.as_slice(), *start);
    match loop_seeds(alloc, links, renaming.as_slice(), power) {
        Ok(seeds) => Ok(seeds),
        Err(_) => Err(SeedFault::OutOfMemory),
    }
}
