// A pattern that is made of a number alone, with what the main calls say of it.
ghost use Rattle.std.specs.Prelude.{◌≡◌, ◌+◌, ◌^◌, ◌<◌, ◌≤◌, ◌++◌, ℕ, None, IfOk, OnOk, count_by, length, map, slice_index};
ghost use Rattle.std.specs.Fmt.{decimal};
ghost use Rattle.wt_text.specs.Words.{value_from};
ghost use Rattle.wt_write.specs.Behind.{behind_spaces};
ghost use Rattle.wt_pattern.specs.Patterns.{IsPattern};
ghost use Rattle.wt_step.specs.Links.{fine_of};
ghost use Rattle.wt_step.specs.Views.{link_of};
ghost use Rattle.wt_step.specs.Coarse.{IsDesubstitution, desub_fault};
ghost use Rattle.wt_check.specs.Powers.{unit, units};
ghost use Rattle.wt_check.specs.Texts.{loop_text};
ghost use Rattle.wt_expand.specs.Expansion.{pick_fault, pick_of};
ghost use Rattle.wt_tile.specs.declared.tile.TileList.{TileList};
ghost use Rattle.wt_session.specs.Census.{counts_text};
ghost use Rattle.wt_program.specs.Samples.{IsSampling, IsEnded, IsSampled, IsSampleReply, has_period};
ghost use Rattle.wt_program.specs.Samples as spec;

use crate::number::{SampleSide, sample_side_of};
use crate::reply::Reply;
use crate::run::by_status;
use crate::u::u;
use std::alloc::{AllocError, Global};
use wt_chain::{Accepted, End};
use wt_expand::{ExpandFault, expand};
use wt_grid::MAX_TILES;
use wt_pattern::{Pattern, period_fault};
use wt_search::{SearchEnd, search};
use wt_seq::Seq;
use wt_session::{CommandFault, end_fault};
use wt_step::{DesubFault, LinkRef, desubstitute_valid};
use wt_tile::{Axis, SetRef, Side};
use wt_write::{end_line, number_behind, push_number, push_word};

/// The budget of the search: 2^60.
pub const BUDGET: u64 = 1_152_921_504_606_846_976;

/// The most levels of the search.
pub const LEVELS: usize = 8;

/// The vectors with components of at most 3, one of each two opposite ones.
const VECTORS: [(i64, i64); 24] = [
    (0, 1),
    (0, 2),
    (0, 3),
    (1, -3),
    (1, -2),
    (1, -1),
    (1, 0),
    (1, 1),
    (1, 2),
    (1, 3),
    (2, -3),
    (2, -2),
    (2, -1),
    (2, 0),
    (2, 1),
    (2, 2),
    (2, 3),
    (3, -3),
    (3, -2),
    (3, -1),
    (3, 0),
    (3, 1),
    (3, 2),
    (3, 3),
];

/// How many of these vectors are periods of the pattern.
fn count_periods(p: &Pattern, vectors: &[(i64, i64)]) -> usize
    ensures { result ≡ count_by (has_period p.now) vectors.now }
{
    let mut count = 0usize;
    for (dx, dy) in vectors {
        if period_fault(p, *dx, *dy).is_none() {
            count += 1;
        }
    }
    count
}

/// How many of the vectors are periods of the pattern.
#[tactic(auto, unfolding(crate::specs::Samples::period_count))]
fn period_count(p: &Pattern) -> usize
    ensures { result ≡ spec.period_count p.now }
{
    count_periods(p, &VECTORS)
}

/// Counts a tile once more.
fn count_one(counts: &mut [usize; MAX_TILES], tile: u16)
    requires tile { tile < MAX_TILES }
    requires room { (u : ℕ) → u < MAX_TILES → slice_index counts.old u + 1 < 2 ^ 64 }
    ensures { (u : ℕ) → u < MAX_TILES → slice_index counts.new u ≡ slice_index counts.old u + unit u tile }
{
    counts[usize::from(tile)] += 1;
}

/// How often each tile stands among these cells.
fn count_tiles(cells: &[u16]) -> [usize; MAX_TILES]
    requires { (k : ℕ) → slice_index cells.now k < MAX_TILES }
    ensures size { length result ≡ MAX_TILES }
    ensures each { (u : ℕ) → u < MAX_TILES → slice_index result u ≡ units u cells.now }
{
    let mut counts = [0usize; MAX_TILES];
    for cell in cells {
        count_one(&mut counts, *cell);
    }
    counts
}

/// The pick of n by n cells.
#[tactic(auto, using(crate::proofs::Sampling::never_cause))]
fn picked(alloc: Global, chain: &Accepted, n: usize) -> Result<Pattern, AllocError>
    requires { pick_fault chain.now n n ≡ None }
    ensures { IfOk result (λ p. p ≡ pick_of chain.now n n) }
{
    match expand(alloc, chain, n, n) {
        Ok(pattern) => Ok(pattern),
        Err(ExpandFault::OutOfMemory) => Err(AllocError),
        Err(ExpandFault::OpenChain | ExpandFault::Width | ExpandFault::Height) => unreachable!(),
    }
}

/// The coarse pattern of a valid pattern that a step takes apart.
#[tactic(auto, using(crate::proofs::Sampling::never_fault))]
fn taken_apart(alloc: Global, link: LinkRef<'_>, p: &Pattern) -> Result<Pattern, AllocError>
    requires valid { IsPattern (fine_of (link_of link)).tiles p.now }
    requires apart { desub_fault (link_of link) p.now ≡ None }
    ensures { IfOk result (IsDesubstitution (link_of link.entry) p.now) }
{
    match desubstitute_valid(alloc, link, p) {
        Ok(coarse) => Ok(coarse.pattern),
        Err(DesubFault::OutOfMemory) => Err(AllocError),
        Err(DesubFault::NotValid(_) | DesubFault::TooSmall) => unreachable!(),
    }
}

/// Appends where a loop starts, and how many turns it takes.
fn push_loop(out: &mut Vec<u8>, end: &End) -> Result<(), AllocError>
    ensures { OnOk result (out.new.items ≡ out.old.items ++ loop_text end.now) }
{
    match end {
        End::Open => Ok(()),
        End::Loop {
            start,
            renaming: _,
            expansion,
        } => {
            push_word(out, "loop ")?;
            push_number(out, u64::from(*start))?;
            number_behind(out, u64::from(*expansion))?;
            end_line(out)
        }
    }
}

/// Appends the line of the size, and that of the loop.
#[tactic(auto, unfolding(crate::specs::Samples::head_text))]
fn push_head(out: &mut Vec<u8>, n: usize, end: &End) -> Result<(), AllocError>
    ensures { OnOk result (out.new.items ≡ out.old.items ++ spec.head_text n end.now) }
{
    push_word(out, "sample ")?;
    push_number(out, n as u64)?;
    end_line(out)?;
    push_loop(out, end)
}

/// Appends that a pattern is valid, and how many of the vectors are periods of it.
#[tactic(auto, unfolding(crate::specs::Samples::tests_text))]
fn push_tests(out: &mut Vec<u8>, p: &Pattern) -> Result<(), AllocError>
    ensures { OnOk result (out.new.items ≡ out.old.items ++ spec.tests_text p.now) }
{
    push_word(out, "valid\nperiods ")?;
    push_number(out, period_count(p) as u64)?;
    push_word(out, " of 24\n")?;
    Ok(())
}

/// Appends the width and height of a coarse pattern.
#[tactic(auto, unfolding(crate::specs::Samples::size_text))]
fn push_size(out: &mut Vec<u8>, coarse: &Pattern) -> Result<(), AllocError>
    ensures { OnOk result (out.new.items ≡ out.old.items ++ spec.size_text coarse.now) }
{
    push_word(out, "coarse ")?;
    push_number(out, coarse.width() as u64)?;
    number_behind(out, coarse.height() as u64)?;
    end_line(out)
}

/// Appends each count behind a space.
fn counts_behind(out: &mut Vec<u8>, counts: &[usize]) -> Result<(), AllocError>
    ensures { OnOk result (out.new.items ≡ out.old.items ++ behind_spaces (map decimal counts.now)) }
{
    for count in counts {
        number_behind(out, *count as u64)?;
    }
    Ok(())
}

/// Appends the line of the counts.
fn push_counts(out: &mut Vec<u8>, counts: &[usize]) -> Result<(), AllocError>
    ensures { OnOk result (out.new.items ≡ out.old.items ++ counts_text counts.now) }
{
    push_word(out, "counts")?;
    counts_behind(out, counts)?;
    end_line(out)
}

/// Appends the line of the counts of n tiles among these cells.
fn push_tiles(out: &mut Vec<u8>, tiles: usize, cells: &[u16]) -> Result<(), AllocError>
    requires few { tiles ≤ MAX_TILES }
    requires small { (k : ℕ) → slice_index cells.now k < MAX_TILES }
    ensures { OnOk result (out.new.items ≡ out.old.items ++ counts_text (spec.tile_counts tiles cells.now)) }
{
    let counts = count_tiles(cells);
    push_counts(out, &counts[..tiles])?;
    Ok(())
}

/// The text of a sample, from its pattern and what was made of it.
fn sample_text(
    alloc: Global,
    n: usize,
    end: &End,
    tiles: usize,
    p: Pattern,
    coarse: &Pattern,
) -> Result<Vec<u8>, AllocError>
    requires few { tiles ≤ MAX_TILES }
    requires small { (k : ℕ) → slice_index p.cells k < MAX_TILES }
    ensures { IfOk result (λ text. text.items ≡ spec.sample_text n end.now tiles p coarse.now) }
{
    let mut text = Vec::new(alloc);
    push_head(&mut text, n, end)?;
    push_tests(&mut text, &p)?;
    push_size(&mut text, coarse)?;
    push_tiles(&mut text, tiles, &p.into_cells())?;
    Ok(text)
}

/// The reply to a chain that was found.
#[tactic(auto, using(crate::proofs::Sampling::some_steps, crate::proofs::Sampling::step_apart))]
fn sampled(alloc: Global, n: usize, set: SetRef<'_>, chain: &Accepted) -> Result<Reply, AllocError>
    requires { IsSampling n set.list.now chain.now }
    ensures { IfOk result (IsSampled n set.entry.list.now chain.now) }
{
    let p = picked(alloc, chain, n)?;
    let coarse = taken_apart(alloc, chain.step(0), &p)?;
    let text = sample_text(alloc, n, chain.end(), set.len(), p, &coarse)?;
    Ok(Reply::Answered(Seq::new(text)))
}

/// The reply to a search that finds no chain: the line that the script word `search` has for it.
#[tactic(auto, using(crate::proofs::Sampling::ended_as))]
fn ended(alloc: Global, end: SearchEnd) -> Result<Reply, AllocError>
    ensures { IfOk result (IsEnded end) }
{
    match end_fault(alloc, end) {
        CommandFault::Refused { status, text } => Ok(by_status(status, text)),
        CommandFault::OutOfMemory => Err(AllocError),
    }
}

/// The reply of `sample`: a search of the set U, and what the main calls say of the pick of n by n cells.
#[tactic(auto, using(crate::proofs::Sampling::sampling, crate::proofs::Sampling::found_told, crate::proofs::Sampling::end_told))]
pub fn sample_reply(alloc: Global, side: SampleSide<'_>) -> Result<Reply, AllocError>
    ensures { IfOk result (IsSampleReply (value_from 0 side.entry.text.now)) }
{
    let list = u(alloc)?;
    let set = SetRef::of(&list);
    match search(
        alloc,
        set,
        &[Axis::One, Axis::Two],
        Side::After,
        1,
        LEVELS,
        BUDGET,
    ) {
        Ok(chain) => sampled(alloc, sample_side_of(side), set, &chain),
        Err(end) => ended(alloc, end),
    }
}
