// Images laid out line by line.
ghost use Rattle.std.specs.Prelude.{◌≡◌, ◌*◌, ◌<◌, ◌≤◌, ◌++◌, length, IfOk, OnOk};
ghost use Rattle.wt_grid.specs.Grid.{listed, grid_of};
ghost use Rattle.wt_grid.specs.Grid as grid;
ghost use Rattle.wt_grid.specs.Parts.{part};
ghost use Rattle.wt_pattern.specs.Shape.{IsShape};
ghost use Rattle.wt_morphism.specs.Images.{image};
ghost use Rattle.wt_morphism.specs.Strands.{all_strands, laid_row};
ghost use Rattle.wt_morphism.specs.Strands as strand_words;

use crate::even::{image_at, is_two};
use crate::{Image, Morphism};
use std::alloc::{AllocError, Global};
use wt_grid::MAX_SIDE;
use wt_pattern::Pattern;
use wt_tile::Axis;

/// A line of an image: the first or the second line that a line of the pattern stands for.
#[derive(Clone, Copy)]
pub struct Strand {
    /// The line of the pattern.
    pub line: usize,
    /// Whether this is the second line that it stands for.
    pub second: bool,
}

/// How many lines the pattern has along the axis.
fn along(axis: Axis, p: &Pattern) -> usize
    ensures value { result ≡ grid.along axis p.now }
    ensures few { result ≤ MAX_SIDE }
    ensures wide { 0 < grid.across axis p.now }
{
    match axis {
        Axis::One => p.width(),
        Axis::Two => p.height(),
    }
}

/// Cell j of line i along the axis.
fn at(axis: Axis, p: &Pattern, i: usize, j: usize) -> u16
    requires line { i < grid.along axis p.now }
    requires cell { j < grid.across axis p.now }
    ensures { result ≡ grid.at axis p.now i j }
{
    match axis {
        Axis::One => p.cell(i, j),
        Axis::Two => p.cell(j, i),
    }
}

/// Whether a line stands for two, as its first tile does.
fn line_is_two(m: &Morphism, p: &Pattern, i: usize) -> bool
    requires line { i < grid.along m.now.axis p.now }
    requires wide { 0 < grid.across m.now.axis p.now }
    ensures { result ≡ strand_words.line_is_two m.now p.now i }
{
    is_two(m, at(m.axis, p, i, 0))
}

/// How many lines the image has.
#[tactic(auto, using(crate::proofs::Strands::strands_more))]
pub fn count_lines(m: &Morphism, p: &Pattern) -> usize
    ensures value { result ≡ length (all_strands m.now p.now) }
    ensures few { result ≤ 2 * MAX_SIDE }
{
    let mut count = 0usize;
    for i in 0..along(m.axis, p) {
        count += if line_is_two(m, p, i) { 2 } else { 1 };
    }
    count
}

/// The lines of the image.
#[tactic(auto, using(crate::proofs::Strands::strands_more))]
fn strands(alloc: Global, m: &Morphism, p: &Pattern) -> Result<Vec<Strand>, AllocError>
    ensures { IfOk result (λ ss. ss.items ≡ all_strands m.now p.now) }
{
    let mut lines = Vec::new(alloc);
    for line in 0..along(m.axis, p) {
        lines.push(Strand {
            line,
            second: false,
        })?;
        if !line_is_two(m, p, line) {
            continue;
        }
        lines.push(Strand { line, second: true })?;
    }
    Ok(lines)
}

/// The first or the second tile of an image.
fn tile_of(second: bool, image: Image) -> u16
    ensures { result ≡ strand_words.tile_of second image }
{
    match image {
        Image::One(a) => a,
        Image::Two(a, b) => { if second { b } else { a } }
    }
}

/// The line and the place in it of cell (x, y).
fn line_and_place(axis: Axis, x: usize, y: usize) -> (usize, usize)
    ensures { result ≡ strand_words.line_and_place axis x y }
{
    match axis {
        Axis::One => (x, y),
        Axis::Two => (y, x),
    }
}

/// Cell (x, y) of the image with these lines.
fn laid_cell(m: &Morphism, p: &Pattern, lines: &[Strand], x: usize, y: usize) -> u16
    requires lines { lines.now ≡ all_strands m.now p.now }
    requires line { (strand_words.line_and_place m.now.axis x y).0 < length lines.now }
    requires cell { (strand_words.line_and_place m.now.axis x y).1 < grid.across m.now.axis p.now }
    ensures { result ≡ strand_words.laid m.now p.now lines.now x y }
{
    let (line, cell) = line_and_place(m.axis, x, y);
    let strand = lines[line];
    let tile = at(m.axis, p, strand.line, cell);
    tile_of(strand.second, image_at(m.table.as_slice(), tile))
}

/// Adds the first w cells of row y of the image.
fn lay_row(
    m: &Morphism,
    p: &Pattern,
    lines: &[Strand],
    w: usize,
    y: usize,
    cells: &mut Vec<u16>,
) -> Result<(), AllocError>
    requires shape { IsShape p.now }
    requires lines { lines.now ≡ all_strands m.now p.now }
    requires wide { w ≤ (image m.now p.now).width }
    requires high { y < (image m.now p.now).height }
    ensures { OnOk result (cells.new.items ≡ cells.old.items ++ listed w (laid_row m.now p.now lines.now y)) }
{
    for x in 0..w {
        cells.push(laid_cell(m, p, lines, x, y))?;
    }
    Ok(())
}

/// The lower left w by h cells of the image, in reading order.
pub fn lay(
    alloc: Global,
    m: &Morphism,
    p: &Pattern,
    w: usize,
    h: usize,
) -> Result<Vec<u16>, AllocError>
    requires shape { IsShape p.now }
    requires some { 1 ≤ w }
    requires low { w ≤ MAX_SIDE }
    requires wide { w ≤ (image m.now p.now).width }
    requires high { h ≤ (image m.now p.now).height }
    requires few { h ≤ MAX_SIDE }
    requires rows { 1 ≤ h }
    ensures shape { IfOk result (λ cells. IsShape (record { width = w; height = h; cells = cells.items })) }
    ensures cells { IfOk result (λ cells. cells.items ≡ (part (image m.now p.now) 0 0 w h).cells) }
{
    let lines = strands(alloc, m, p)?;
    let mut cells = Vec::with_capacity(alloc, w * h)?;
    for y in 0..h {
        lay_row(m, p, &lines, w, y, &mut cells)?;
    }
    Ok(cells)
}

/// The width and height of the image.
pub fn image_shape(m: &Morphism, p: &Pattern) -> (usize, usize)
    requires { IsShape p.now }
    ensures wide { result.0 ≡ (image m.now p.now).width }
    ensures high { result.1 ≡ (image m.now p.now).height }
    ensures some { (1 ≤ result.0) × (1 ≤ result.1) }
{
    let long = count_lines(m, p);
    match m.axis {
        Axis::One => (long, p.height()),
        Axis::Two => (p.width(), long),
    }
}
