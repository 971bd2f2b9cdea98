// How large the images of tiles grow in a loop: tables that say for each tile whether its image is at least two long.
ghost use Rattle.std.specs.Prelude.{◌≡◌, ◌+◌, ◌<◌, ◌≤◌, length, false, slice_index};
ghost use Rattle.wt_grid.specs.declared.axis.Axis.TheVariants.{One, Two};
ghost use Rattle.wt_chain.specs.Growth as growth;
ghost use Rattle.wt_chain.specs.Sets.{IsClosedBy, first_count};
ghost use Rattle.wt_chain.specs.Faults as faults;
ghost use Rattle.wt_chain.specs.Tables.{renamed_table, turns_table};
ghost use Rattle.wt_chain.specs.Tables as tables;

use crate::Refusal;
use wt_grid::MAX_TILES;
use wt_morphism::Image;
use wt_step::RawLink;
use wt_tile::{Axis, same_axis};

/// What a coarse tile of a step stands for; a number past the coarse tiles counts as one that stands for tile
/// 0.
pub fn image_of(link: &RawLink, t: u16) -> Image
    ensures { result ≡ growth.image_of link.now t }
{
    let t = usize::from(t);
    match link {
        RawLink::Marker(step) => {
            let images = step.images.as_slice();
            if t < images.len() {
                images[t]
            } else {
                Image::One(0)
            }
        }
        RawLink::Restrict(step) => {
            let kept = step.kept.as_slice();
            if t < kept.len() {
                Image::One(kept[t])
            } else {
                Image::One(0)
            }
        }
    }
}

/// Whether images of two tiles lie along the axis. Those of a restrict step are single tiles.
pub fn is_along(axis: Axis, link: &RawLink) -> bool
    ensures { result ≡ growth.is_along axis link.now }
{
    match link {
        RawLink::Marker(step) => same_axis(axis, step.axis),
        RawLink::Restrict(_) => false,
    }
}

fn entry(rows: &[bool; MAX_TILES], t: u16) -> bool
    ensures { result ≡ tables.entry rows.now t }
{
    let t = usize::from(t);
    t < 256 && rows[t]
}

fn grows(axis: Axis, link: &RawLink, rows: &[bool; MAX_TILES], t: u16) -> bool
    ensures { result ≡ tables.grows axis link.now rows.now t }
{
    match image_of(link, t) {
        Image::One(a) => entry(rows, a),
        Image::Two(a, _) => is_along(axis, link) || entry(rows, a),
    }
}

fn next_table(axis: Axis, link: &RawLink, rows: &[bool; MAX_TILES]) -> [bool; MAX_TILES]
    ensures { result ≡ tables.next_table axis link.now rows.now }
{
    let mut next = [false; MAX_TILES];
    for t in 0..256u16 {
        next[usize::from(t)] = grows(axis, link, rows, t);
    }
    next
}

/// The table of the set behind these steps, from that of the set before them.
fn climb(axis: Axis, links: &[RawLink], rows: &[bool; MAX_TILES]) -> [bool; MAX_TILES]
    ensures { result ≡ tables.climb axis links.now rows.now }
{
    let mut table = *rows;
    for link in links {
        table = next_table(axis, link, &table);
    }
    table
}

/// The tile that a renaming carries onto t, or 0 where none is.
pub fn origin(renaming: &[u16], t: u16) -> u16
    requires { length renaming.now ≤ MAX_TILES }
    ensures { result ≡ growth.origin renaming.now t }
{
    for (i, partner) in renaming.iter().enumerate() {
        if *partner == t {
            return i as u16;
        }
    }
    0
}

/// For each tile the one that a renaming carries onto it.
pub fn origins(renaming: &[u16]) -> [u16; MAX_TILES]
    requires { length renaming.now ≤ MAX_TILES }
    ensures { result ≡ tables.entries_of (growth.origin renaming.now) }
{
    let mut origins = [0u16; MAX_TILES];
    for t in 0..256u16 {
        origins[usize::from(t)] = origin(renaming, t);
    }
    origins
}

fn origin_entry(origins: &[u16; MAX_TILES], rows: &[bool; MAX_TILES], t: usize) -> bool
    requires inside { t < MAX_TILES }
    ensures { result ≡ tables.entry rows.now (slice_index origins.now t) }
{
    entry(rows, origins[t])
}

fn renamed(
    renaming: &[u16],
    origins: &[u16; MAX_TILES],
    rows: &[bool; MAX_TILES],
) -> [bool; MAX_TILES]
    requires { origins.now ≡ tables.entries_of (growth.origin renaming.now) }
    ensures { result ≡ renamed_table renaming.now rows.now }
{
    let mut next = [false; MAX_TILES];
    for t in 0..256 {
        next[t] = origin_entry(origins, rows, t);
    }
    next
}

/// The table of the loop's first set after n turns.
fn turned(axis: Axis, links: &[RawLink], renaming: &[u16], turns: u32) -> [bool; MAX_TILES]
    requires { length renaming.now ≤ MAX_TILES }
    ensures { result ≡ turns_table axis links.now renaming.now turns }
{
    let origins = origins(renaming);
    let mut table = [false; MAX_TILES];
    for turn in 0..turns {
        let climbed = climb(axis, links, &table);
        table = renamed(renaming, &origins, &climbed);
    }
    table
}

fn small_at(wide: &[bool; MAX_TILES], high: &[bool; MAX_TILES], t: u16) -> Option<Refusal>
    ensures { result ≡ faults.small_at wide.now high.now t }
{
    if entry(wide, t) && entry(high, t) {
        None
    } else {
        Some(Refusal::Expansion { tile: t })
    }
}

#[tactic(auto, using(wt_grid::proofs::First::first_more))]
fn first_small(wide: &[bool; MAX_TILES], high: &[bool; MAX_TILES], count: u16) -> Option<Refusal>
    ensures { result ≡ faults.first_small wide.now high.now count }
{
    for t in 0..count {
        if let Some(fault) = small_at(wide, high, t) {
            return Some(fault);
        }
    }
    None
}

/// The first tile of the loop's first set whose image after these turns isn't at least two wide and two high.
/// The steps are good, each takes apart the set before it, and the renaming has no fault; more than 256 turns
/// tell no more than 256.
pub fn growth_fault(links: &[RawLink], renaming: &[u16], turns: u32, count: u16) -> Option<Refusal>
    requires closed { IsClosedBy links.now renaming.now }
    requires counted { count ≡ first_count links.now }
    requires few { length renaming.now ≤ MAX_TILES }
    ensures { result ≡ faults.growth_fault links.now renaming.now turns count }
{
    let few = turns.min(256);
    let wide = turned(Axis::One, links, renaming, few);
    let high = turned(Axis::Two, links, renaming, few);
    fault_after(links, renaming, few, &wide, &high, count)
}

fn next_turn(
    axis: Axis,
    links: &[RawLink],
    renaming: &[u16],
    origins: &[u16; MAX_TILES],
    rows: &[bool; MAX_TILES],
) -> [bool; MAX_TILES]
    requires { origins.now ≡ tables.entries_of (growth.origin renaming.now) }
    ensures { result ≡ renamed_table renaming.now (tables.climb axis links.now rows.now) }
{
    renamed(renaming, origins, &climb(axis, links, rows))
}

/// The same, as the tables after n turns tell it.
fn fault_after(
    links: &[RawLink],
    renaming: &[u16],
    turns: u32,
    wide: &[bool; MAX_TILES],
    high: &[bool; MAX_TILES],
    count: u16,
) -> Option<Refusal>
    requires closed { IsClosedBy links.now renaming.now }
    requires counted { count ≡ first_count links.now }
    requires widths { wide.now ≡ turns_table One links.now renaming.now turns }
    requires heights { high.now ≡ turns_table Two links.now renaming.now turns }
    ensures { result ≡ faults.growth_fault links.now renaming.now turns count }
{
    first_small(wide, high, count)
}

/// One turn more than these, where their tables show that images have grown.
fn enough_after(
    links: &[RawLink],
    renaming: &[u16],
    turn: u16,
    wide: &[bool; MAX_TILES],
    high: &[bool; MAX_TILES],
    count: u16,
) -> Option<u32>
    requires closed { IsClosedBy links.now renaming.now }
    requires counted { count ≡ first_count links.now }
    requires widths { wide.now ≡ turns_table One links.now renaming.now (turn + 1) }
    requires heights { high.now ≡ turns_table Two links.now renaming.now (turn + 1) }
    ensures { result ≡ faults.enough links.now renaming.now count turn }
{
    let turns = u32::from(turn) + 1;
    match fault_after(links, renaming, turns, wide, high, count) {
        None => Some(turns),
        Some(_) => None,
    }
}

/// The least number of turns, at most the number of tiles of the loop's first set, that makes the image of each
/// tile there at least two wide and two high.
#[tactic(auto, using(wt_grid::proofs::First::first_more))]
pub fn least_expansion(links: &[RawLink], renaming: &[u16], count: u16) -> Option<u32>
    requires closed { IsClosedBy links.now renaming.now }
    requires counted { count ≡ first_count links.now }
    requires few { length renaming.now ≤ MAX_TILES }
    ensures { result ≡ faults.least_expansion links.now renaming.now count }
{
    let origins = origins(renaming);
    let mut wide = [false; MAX_TILES];
    let mut high = [false; MAX_TILES];
    for turn in 0..count {
        wide = next_turn(Axis::One, links, renaming, &origins, &wide);
        high = next_turn(Axis::Two, links, renaming, &origins, &high);
        if let Some(turns) = enough_after(links, renaming, turn, &wide, &high, count) {
            return Some(turns);
        }
    }
    None
}
