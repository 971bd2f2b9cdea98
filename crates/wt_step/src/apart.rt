// A pattern taken apart by a good marker step.
ghost use Rattle.std.specs.Prelude.{◌≡◌, ◌≤◌, ◌<◌, ◌-◌, ◌+◌, not, false, length, IfOk};
ghost use Rattle.wt_grid.specs.Grid.{along, across};
ghost use Rattle.wt_grid.specs.Parts.{core};
ghost use Rattle.wt_pattern.specs.Patterns.{IsPattern, AllTiles};
ghost use Rattle.wt_pattern.specs.Shape.{IsShape};
ghost use Rattle.wt_step.specs.Words as words;
ghost use Rattle.wt_step.specs.Good.{IsGoodStep};
ghost use Rattle.wt_step.specs.Meaning.{IsMarkerDesubstitution};
ghost use Rattle.wt_step.specs.Blocks.{coarse_grid, AreWithin, IsIndexed};
ghost use Rattle.wt_step.specs.Blocks as block_words;
ghost use Rattle.wt_step.specs.Cores.{core_length, core_width};
ghost use Rattle.wt_step.specs.Coarse.{is_marked};

use crate::blocks::{Block, count_across, count_lines, find_blocks, is_marked_line};
use crate::cells::coarse_cells;
use crate::index::{Index, index_images};
use crate::{Coarse, RawStep};
use std::alloc::{AllocError, Global};
use wt_grid::MAX_SIDE;
use wt_pattern::Pattern;
use wt_tile::{Axis, Side};

/// The lines of a core along an axis.
pub fn core_lines(p: &Pattern, axis: Axis, radius: u8) -> usize
    ensures value { result ≡ along axis (core radius p.now) }
    ensures shape { IsShape p.now }
    ensures small { result ≤ MAX_SIDE }
{
    let border = usize::from(radius) + usize::from(radius);
    count_lines(p, axis).saturating_sub(border)
}

/// The cells of a line of a core.
pub fn core_across(p: &Pattern, axis: Axis, radius: u8) -> usize
    ensures value { result ≡ across axis (core radius p.now) }
    ensures small { result ≤ MAX_SIDE }
{
    let border = usize::from(radius) + usize::from(radius);
    count_across(p, axis).saturating_sub(border)
}

fn ends_block(side: Side, marked: bool) -> bool
    ensures { result ≡ words.ends_block side marked }
{
    match side {
        Side::After => marked,
        Side::Before => !marked,
    }
}

/// Whether line i of the core ends a block.
pub fn ends_at(raw: &RawStep, p: &Pattern, i: usize) -> bool
    requires { i < 16777217 }
    ensures { result ≡ block_words.ends_at raw.now p.now i }
{
    ends_block(raw.side, is_marked_line(raw, p, i))
}

/// How many lines a cut takes.
pub fn one_if(cut: bool) -> u16
    ensures value { result ≡ block_words.one_if cut }
    ensures small { result ≤ 1 }
{
    if cut { 1 } else { 0 }
}

/// The blocks of the cut core.
#[tactic(auto, using(crate::proofs::Sized::same_count, crate::proofs::Sized::some_of_core, crate::proofs::Sized::few_of_core, crate::proofs::CoarseRows::core_within))]
fn core_blocks(
    alloc: Global,
    raw: &RawStep,
    p: &Pattern,
    low: bool,
    high: bool,
) -> Result<Vec<Block>, AllocError>
    requires { 3 ≤ core_length raw.now p.now }
    ensures some { IfOk result (λ blocks. 1 ≤ length blocks.items) }
    ensures few { IfOk result (λ blocks. length blocks.items ≤ MAX_SIDE) }
    ensures value { IfOk result (λ blocks. blocks.items ≡ block_words.core_blocks raw.now p.now low high) }
    ensures within { IfOk result (λ blocks. AreWithin (core_length raw.now p.now) blocks.items) }
{
    let lines = core_lines(p, raw.axis, raw.radius) as u16;
    find_blocks(alloc, raw, p, one_if(low), lines - one_if(high))
}

fn width_of(axis: Axis, lines: usize, across: usize) -> usize
    ensures { result ≡ block_words.width_of axis lines across }
{
    match axis {
        Axis::One => lines,
        Axis::Two => across,
    }
}

fn height_of(axis: Axis, lines: usize, across: usize) -> usize
    ensures { result ≡ block_words.height_of axis lines across }
{
    match axis {
        Axis::One => across,
        Axis::Two => lines,
    }
}

/// The coarse pattern of these blocks.
#[tactic(auto, using(crate::proofs::Sized::width_some, crate::proofs::Sized::width_few, crate::proofs::Sized::height_some, crate::proofs::Sized::height_few))]
fn coarse_pattern(
    alloc: Global,
    raw: &RawStep,
    p: &Pattern,
    index: &Index,
    blocks: &[Block],
    across: usize,
) -> Result<Pattern, AllocError>
    requires good { IsGoodStep raw.now }
    requires tiles { AllTiles raw.now.fine.tiles p.now }
    requires index { IsIndexed raw.now.images (length raw.now.fine.tiles) (length raw.now.images) index.now.singles.items index.now.pairs.items }
    requires within { AreWithin (core_length raw.now p.now) blocks.now }
    requires long { 1 ≤ core_length raw.now p.now }
    requires wide { across ≡ core_width raw.now p.now }
    requires some { 1 ≤ across }
    requires few { across ≤ MAX_SIDE }
    requires some_blocks { 1 ≤ length blocks.now }
    requires few_blocks { length blocks.now ≤ MAX_SIDE }
    ensures { IfOk result (λ q. q ≡ coarse_grid raw.now p.now index.now.singles.items index.now.pairs.items blocks.now raw.now.axis across) }
{
    let width = width_of(raw.axis, blocks.len(), across);
    let height = height_of(raw.axis, blocks.len(), across);
    let cells = coarse_cells(alloc, raw, p, index, blocks, width, height)?;
    Ok(Pattern::of(width, height, cells))
}

/// The coarse pattern whose image is the cut core, with its two cuts.
pub fn take_apart(alloc: Global, raw: &RawStep, p: &Pattern) -> Result<Coarse, AllocError>
    requires good { IsGoodStep raw.now }
    requires pattern { IsPattern raw.now.fine.tiles p.now }
    requires long { 3 ≤ core_length raw.now p.now }
    requires wide { 1 ≤ core_width raw.now p.now }
    ensures coarse { IfOk result (λ c. IsMarkerDesubstitution raw.now p.now c.pattern) }
    ensures valid { IfOk result (λ c. IsPattern raw.now.coarse.tiles c.pattern) }
    ensures low_cut { IfOk result (λ c. c.low_cut ≡ words.ends_block raw.now.side (is_marked raw.now p.now 0)) }
    ensures high_cut { IfOk result (λ c. c.high_cut ≡ not (words.ends_block raw.now.side (is_marked raw.now p.now (core_length raw.now p.now - 1)))) }
{
    let low_cut = ends_at(raw, p, 0);
    let high_cut = !ends_at(raw, p, core_lines(p, raw.axis, raw.radius) - 1);
    let blocks = core_blocks(alloc, raw, p, low_cut, high_cut)?;
    let index = index_images(alloc, raw)?;
    let across = core_across(p, raw.axis, raw.radius);
    let pattern = coarse_pattern(alloc, raw, p, &index, &blocks, across)?;
    Ok(Coarse {
        pattern,
        low_cut,
        high_cut,
    })
}
