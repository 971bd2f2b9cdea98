// The blocks of a pattern's core: one or two lines that stand for one coarse line.
ghost use Rattle.std.specs.Prelude.{◌≡◌, ◌≤◌, ◌<◌, ◌-◌, ◌&&◌, nat_lt, false, length, IfOk};
ghost use Rattle.wt_grid.specs.Grid.{along, across};
ghost use Rattle.wt_pattern.specs.Shape.{IsShape};
ghost use Rattle.wt_step.specs.Blocks.{blocks_in};
ghost use Rattle.wt_step.specs.Blocks as spec;

use crate::RawStep;
use crate::rules::{is_marker, joined};
use std::alloc::{AllocError, Global};
use wt_grid::MAX_SIDE;
use wt_pattern::Pattern;
use wt_tile::Axis;

/// One line of a core, or two, that stand for one coarse line.
#[derive(Clone, Copy)]
pub struct Block {
    /// The number of its first line, counted along the axis from the core's first line.
    pub line: u16,
    /// Whether it has two lines.
    pub double: bool,
}

/// The lines of a pattern along an axis.
pub fn count_lines(p: &Pattern, axis: Axis) -> usize
    ensures value { result ≡ along axis p.now }
    ensures shape { IsShape p.now }
    ensures some { 1 ≤ result }
    ensures small { result ≤ MAX_SIDE }
{
    match axis {
        Axis::One => p.width(),
        Axis::Two => p.height(),
    }
}

/// The cells of a line along an axis.
pub fn count_across(p: &Pattern, axis: Axis) -> usize
    ensures value { result ≡ across axis p.now }
    ensures some { 1 ≤ result }
    ensures small { result ≤ MAX_SIDE }
{
    match axis {
        Axis::One => p.height(),
        Axis::Two => p.width(),
    }
}

/// Cell j of line i, or 0 outside.
pub fn cell_at(p: &Pattern, axis: Axis, i: usize, j: usize) -> u16
    ensures { result ≡ spec.cell_at p.now axis i j }
{
    if i >= count_lines(p, axis) || j >= count_across(p, axis) {
        return 0;
    }
    match axis {
        Axis::One => p.cell(i, j),
        Axis::Two => p.cell(j, i),
    }
}

/// Cell j of line i of the core.
pub fn core_at(raw: &RawStep, p: &Pattern, i: usize, j: usize) -> u16
    requires line { i < 16777217 }
    requires cell { j < 16777217 }
    ensures { result ≡ spec.core_at raw.now p.now i j }
{
    let radius = usize::from(raw.radius);
    cell_at(p, raw.axis, radius + i, radius + j)
}

/// Whether line i of the core is a line of markers.
pub fn is_marked_line(raw: &RawStep, p: &Pattern, i: usize) -> bool
    requires { i < 16777217 }
    ensures { result ≡ spec.marks_in_code raw.now p.now i }
{
    is_marker(raw, core_at(raw, p, i, 0))
}

/// Whether lines i and i + 1 are one block.
fn pairs_at(raw: &RawStep, p: &Pattern, i: usize) -> bool
    requires { i < 16777216 }
    ensures { result ≡ spec.pairs_at raw.now p.now i }
{
    joined(
        raw.side,
        is_marked_line(raw, p, i),
        is_marked_line(raw, p, i + 1),
    )
}

/// Whether the block that begins with a line has another line, where the lines end before another.
fn is_double(raw: &RawStep, p: &Pattern, line: u16, end: u16) -> bool
    requires { line < end }
    ensures { result ≡ (nat_lt 1 (end - line) && spec.pairs_at raw.now p.now line) }
{
    end - line > 1 && pairs_at(raw, p, usize::from(line))
}

/// How many blocks begin in the lines from one up to another.
pub fn count_blocks(raw: &RawStep, p: &Pattern, from: u16, end: u16) -> u16
    ensures { result ≡ length (blocks_in (spec.pairs_at raw.now p.now) false from (end - from)) }
{
    let mut blocks = 0;
    let mut inside = false;
    for line in from..end {
        if inside {
            inside = false;
        } else {
            inside = is_double(raw, p, line, end);
            blocks += 1;
        }
    }
    blocks
}

/// The blocks of the lines from one up to another.
pub fn find_blocks(
    alloc: Global,
    raw: &RawStep,
    p: &Pattern,
    from: u16,
    end: u16,
) -> Result<Vec<Block>, AllocError>
    ensures { IfOk result (λ blocks. blocks.items ≡ blocks_in (spec.pairs_at raw.now p.now) false from (end - from)) }
{
    let mut blocks = Vec::new(alloc);
    let mut inside = false;
    for line in from..end {
        if inside {
            inside = false;
        } else {
            inside = is_double(raw, p, line, end);
            blocks.push(Block {
                line,
                double: inside,
            })?;
        }
    }
    Ok(blocks)
}
