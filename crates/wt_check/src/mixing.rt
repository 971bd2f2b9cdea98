// Whether some power of a loop's map makes every tile of every tile.
ghost use Rattle.std.specs.Prelude.{◌≡◌, ℕ, ◌+◌, ◌<◌, ◌≤◌, length, min, slice_index, nat_eq, if◌then◌else◌, MatchBool, MatchResult};
ghost use Rattle.wt_chain.specs.Tables.{entries_of};
ghost use Rattle.wt_lane.specs.Masks.{mask_bit};
ghost use Rattle.wt_chain.specs.declared.raw.End.TheVariants.{Open};
ghost use Rattle.wt_chain.specs.Growth as growth;
ghost use Rattle.wt_check.specs.Powers.{power, count, IsClosed};
ghost use Rattle.wt_mask.specs.Masks as mask_words;
ghost use Rattle.wt_check.specs.Masks.{image_bit, AreMasks, AreCarriedMasks, AreFull, HasGap};
ghost use Rattle.wt_check.specs.Primitive as spec;
ghost use Rattle.wt_check.specs.Primitive.{IsLoopPower, IsPower, ArePowers};

use wt_chain::{Accepted, End, first_count, image_of, origins, steps_from};
use wt_grid::MAX_TILES;
use wt_mask::{has_bit, join_into, single};
use wt_morphism::Image;
use wt_step::RawLink;

/// The chain isn't closed to a loop.
#[derive(Clone, Copy, Debug, PartialEq, Eq)]
pub struct OpenChain;

/// The mask of no tile.
fn empty() -> [u64; 4]
    ensures { (u : ℕ) → mask_bit result u ≡ 0 }
{
    [0; 4]
}

/// The mask of a tile; a number past the table has none.
fn mask_at(rows: &[[u64; 4]; MAX_TILES], t: u16) -> [u64; 4]
    ensures { (u : ℕ) → mask_bit result u ≡ mask_bit (mask_words.mask_at rows.now t) u }
{
    let t = usize::from(t);
    if t < 256 { rows[t] } else { empty() }
}

fn image_mask(rows: &[[u64; 4]; MAX_TILES], image: Image) -> [u64; 4]
    ensures { (u : ℕ) → mask_bit result u ≡ image_bit rows.now u image }
{
    match image {
        Image::One(a) => mask_at(rows, a),
        Image::Two(a, b) => {
            let mut mask = mask_at(rows, a);
            join_into(&mut mask, &mask_at(rows, b));
            mask
        }
    }
}

/// The masks of a step's coarse tiles, from those of its fine tiles.
fn next_masks(link: &RawLink, rows: &[[u64; 4]; MAX_TILES]) -> [[u64; 4]; MAX_TILES]
    ensures { (t u : ℕ) → t < 256 → mask_bit (mask_words.mask_at result t) u ≡ image_bit rows.now u (growth.image_of link.now t) }
{
    let mut next = [[0u64; 4]; MAX_TILES];
    for t in 0..256u16 {
        next[usize::from(t)] = image_mask(rows, image_of(link, t));
    }
    next
}

/// The masks of the set behind these steps, from those of the set before them.
fn climb(links: &[RawLink], rows: &[[u64; 4]; MAX_TILES]) -> [[u64; 4]; MAX_TILES]
    ensures { AreCarriedMasks links.now rows.now result }
{
    let mut table = *rows;
    for link in links {
        table = next_masks(link, &table);
    }
    table
}

/// Each tile's mask, of the tile that it is renamed back to.
fn renamed(origins: &[u16; MAX_TILES], rows: &[[u64; 4]; MAX_TILES]) -> [[u64; 4]; MAX_TILES]
    ensures { (t u : ℕ) → t < 256 → mask_bit (mask_words.mask_at result t) u ≡ mask_bit (mask_words.mask_at rows.now (slice_index origins.now t)) u }
{
    let mut next = [[0u64; 4]; MAX_TILES];
    for t in 0..256usize {
        next[t] = mask_at(rows, origins[t]);
    }
    next
}

/// Each tile alone.
fn alone() -> [[u64; 4]; MAX_TILES]
    ensures { AreMasks MAX_TILES result (λ u t. if nat_eq t u then 1 else 0) }
{
    let mut rows = [[0u64; 4]; MAX_TILES];
    for t in 0..256usize {
        rows[t] = single(t);
    }
    rows
}

/// Whether a mask has all of the first n bits.
fn is_full(mask: &[u64; 4], n: usize) -> bool
    requires { n ≤ MAX_TILES }
    ensures { MatchBool result ((u : ℕ) → u < n → mask_bit mask.now u ≡ 1) ((u : ℕ) × (u < n) × (mask_bit mask.now u ≡ 1 → ⊥)) }
{
    for u in 0..n {
        if !has_bit(mask, u) {
            return false;
        }
    }
    true
}

/// Whether the masks of n tiles all have the first n bits.
fn are_full(rows: &[[u64; 4]; MAX_TILES], n: usize) -> bool
    requires { n ≤ MAX_TILES }
    ensures { MatchBool result (AreFull n rows.now) (HasGap n rows.now) }
{
    for t in 0..n {
        if !is_full(&rows[t], n) {
            return false;
        }
    }
    true
}

/// The masks of one more turn.
fn next_power(
    links: &[RawLink],
    renaming: &[u16],
    origins: &[u16; MAX_TILES],
    rows: &[[u64; 4]; MAX_TILES],
) -> [[u64; 4]; MAX_TILES]
    requires closed { IsClosed links.now renaming.now }
    requires origins { origins.now ≡ entries_of (growth.origin renaming.now) }
    ensures { (turns : ℕ) → ArePowers links.now renaming.now turns rows.now → ArePowers links.now renaming.now (turns + 1) result }
{
    renamed(origins, &climb(links, rows))
}

/// The greatest power that is asked for, for n tiles.
fn last_power(n: usize) -> u32
    requires { n ≤ MAX_TILES }
    ensures { result ≡ spec.last_power n }
{
    let less = n.saturating_sub(1) as u32;
    less * less + 1
}

/// The least power of a loop's map that makes every tile of every tile.
fn loop_power(links: &[RawLink], renaming: &[u16]) -> Option<u32>
    requires closed { IsClosed links.now renaming.now }
    ensures { IsLoopPower links.now renaming.now result }
{
    let count = first_count(links);
    let origins = origins(renaming);
    let mut rows = alone();
    for turn in 0..last_power(count) {
        rows = next_power(links, renaming, &origins, &rows);
        if are_full(&rows, count) {
            return Some(turn + 1);
        }
    }
    None
}

/// The least power, from 1 on, of a chain's loop in which every tile of the set of level `start`, the loop's
/// first set, stands in what the turns make of every tile there; None exactly where no power up to (n - 1)^2
/// + 1 is such a one, for n tiles. Err exactly where the chain isn't looped. Takes no memory.
pub fn primitive(c: &Accepted) -> Result<Option<u32>, OpenChain>
    ensures { MatchResult result (λ o. IsPower c.now.steps c.now.end o) (λ e. c.now.end ≡ Open) }
{
    let chain = c.raw();
    let End::Loop {
        start,
        renaming,
        expansion: _,
    } = &chain.end
    else {
        return Err(OpenChain);
    };
    let links = steps_from(chain.steps.as_slice(), *start);
    Ok(loop_power(links, renaming.as_slice()))
}
