// The cells of a coarse pattern, row by row.
ghost use Rattle.std.specs.Prelude.{◌≡◌, ◌≤◌, ◌<◌, ◌+◌, ◌-◌, ◌*◌, ◌++◌, ℕ, length, slice_index, IfOk, OnOk};
ghost use Rattle.wt_grid.specs.Grid.{listed, cell};
ghost use Rattle.wt_grid.specs.Parts.{AllBelow};
ghost use Rattle.wt_pattern.specs.Patterns.{AllTiles};
ghost use Rattle.wt_step.specs.Good.{IsGoodStep};
ghost use Rattle.wt_step.specs.Cores.{core_length, core_width};
ghost use Rattle.wt_step.specs.Blocks.{IsIndexed, IsWithin, AreWithin, coarse_in, found_at, pair_found_at, block_in, width_of, height_of};
ghost use Rattle.wt_step.specs.Blocks as spec;

use crate::RawStep;
use crate::blocks::Block;
use crate::index::{Index, count_tiles};
use std::alloc::{AllocError, Global};
use wt_grid::{MAX_SIDE, MAX_TILES};
use wt_pattern::Pattern;
use wt_tile::Axis;

/// The cells of row y from column x on.
pub fn row_from(p: &Pattern, x: usize, y: usize) -> &[u16]
    requires column { x ≤ p.now.width }
    requires row { y < p.now.height }
    ensures len { length result.now ≡ p.now.width - x }
    ensures cells { (i : ℕ) → x + i < p.now.width → slice_index result.now i ≡ cell p.now (x + i) y }
    ensures below { (n : ℕ) → 0 < n → AllBelow n p.now → (i : ℕ) → slice_index result.now i < n }
{
    &p.row(y)[x..]
}

/// Writes for each cell of a line its number in a table.
pub fn look_up(table: &[u16], line: &[u16], out: &mut [u16])
    requires long { length out.old ≤ length line.now }
    requires inside { (i : ℕ) → slice_index line.now i < length table.now }
    ensures { out.new ≡ listed (length out.old) (found_at table.now line.now) }
{
    for i in 0..out.len() {
        out[i] = table[usize::from(line[i])];
    }
}

/// Writes for each two cells of two lines their number in a table of pairs.
fn look_up_pairs(table: &[u16], tiles: usize, low: &[u16], high: &[u16], out: &mut [u16])
    requires few { tiles ≤ MAX_TILES }
    requires size { length table.now ≡ tiles * tiles }
    requires long { length out.old ≤ length low.now }
    requires long_too { length out.old ≤ length high.now }
    requires first { (i : ℕ) → slice_index low.now i < tiles }
    requires second { (i : ℕ) → slice_index high.now i < tiles }
    ensures { out.new ≡ listed (length out.old) (pair_found_at table.now tiles low.now high.now) }
{
    for i in 0..out.len() {
        out[i] = table[usize::from(low[i]) * tiles + usize::from(high[i])];
    }
}

/// Block i, which is one of them.
fn block_at(blocks: &[Block], i: usize) -> Block
    requires { i < length blocks.now }
    ensures { result ≡ spec.block_at blocks.now i }
{
    blocks[i]
}

/// The coarse tile of a block in a row of fine cells.
fn tile_in(index: &Index, tiles: usize, row: &[u16], block: Block) -> u16
    requires few { tiles ≤ MAX_TILES }
    requires singles { length index.now.singles.items ≡ tiles }
    requires pairs { length index.now.pairs.items ≡ tiles * tiles }
    requires inside { (i : ℕ) → slice_index row.now i < tiles }
    requires within { IsWithin (length row.now) block }
    ensures { result ≡ spec.tile_in tiles index.now.singles.items index.now.pairs.items row.now block }
{
    let line = usize::from(block.line);
    let a = usize::from(row[line]);
    if block.double {
        index.pairs[a * tiles + usize::from(row[line + 1])]
    } else {
        index.singles[a]
    }
}

/// Writes the coarse tile of each block in a row of fine cells.
fn look_up_blocks(index: &Index, tiles: usize, row: &[u16], blocks: &[Block], out: &mut [u16])
    requires few { tiles ≤ MAX_TILES }
    requires singles { length index.now.singles.items ≡ tiles }
    requires pairs { length index.now.pairs.items ≡ tiles * tiles }
    requires inside { (i : ℕ) → slice_index row.now i < tiles }
    requires within { AreWithin (length row.now) blocks.now }
    requires size { length out.old ≡ length blocks.now }
    ensures { out.new ≡ listed (length out.old) (block_in tiles index.now.singles.items index.now.pairs.items row.now blocks.now) }
{
    for i in 0..out.len() {
        out[i] = tile_in(index, tiles, row, block_at(blocks, i));
    }
}

/// Row y of the coarse pattern of a step along axis 1: one block after the other.
fn across_blocks(
    raw: &RawStep,
    p: &Pattern,
    index: &Index,
    blocks: &[Block],
    y: usize,
    out: &mut [u16],
)
    requires axis { raw.now.axis ≡ Axis.One }
    requires good { IsGoodStep raw.now }
    requires tiles { AllTiles raw.now.fine.tiles p.now }
    requires index { IsIndexed raw.now.images (length raw.now.fine.tiles) (length raw.now.images) index.now.singles.items index.now.pairs.items }
    requires within { AreWithin (core_length raw.now p.now) blocks.now }
    requires size { length out.old ≡ length blocks.now }
    requires long { 1 ≤ core_length raw.now p.now }
    requires row { y < core_width raw.now p.now }
    requires low { y ≤ MAX_SIDE }
    ensures { out.new ≡ listed (length out.old) (coarse_in raw.now p.now index.now.singles.items index.now.pairs.items blocks.now y) }
{
    let radius = usize::from(raw.radius);
    let row = row_from(p, radius, radius + y);
    look_up_blocks(index, count_tiles(raw), row, blocks, out)
}

/// Row y of the coarse pattern of a step along axis 2: a block of one row or two.
fn along_block(
    raw: &RawStep,
    p: &Pattern,
    index: &Index,
    blocks: &[Block],
    y: usize,
    out: &mut [u16],
)
    requires axis { raw.now.axis ≡ Axis.Two }
    requires good { IsGoodStep raw.now }
    requires tiles { AllTiles raw.now.fine.tiles p.now }
    requires index { IsIndexed raw.now.images (length raw.now.fine.tiles) (length raw.now.images) index.now.singles.items index.now.pairs.items }
    requires within { AreWithin (core_length raw.now p.now) blocks.now }
    requires size { length out.old ≡ core_width raw.now p.now }
    requires long { 1 ≤ core_length raw.now p.now }
    requires wide { 1 ≤ core_width raw.now p.now }
    requires row { y < length blocks.now }
    ensures { out.new ≡ listed (length out.old) (coarse_in raw.now p.now index.now.singles.items index.now.pairs.items blocks.now y) }
{
    let radius = usize::from(raw.radius);
    let block = block_at(blocks, y);
    let line = radius + usize::from(block.line);
    let low = row_from(p, radius, line);
    if block.double {
        let high = row_from(p, radius, line + 1);
        look_up_pairs(&index.pairs, count_tiles(raw), low, high, out);
    } else {
        look_up(&index.singles, low, out);
    }
}

/// Row y of the coarse pattern.
fn coarse_row(
    raw: &RawStep,
    p: &Pattern,
    index: &Index,
    blocks: &[Block],
    y: usize,
    out: &mut [u16],
)
    requires good { IsGoodStep raw.now }
    requires tiles { AllTiles raw.now.fine.tiles p.now }
    requires index { IsIndexed raw.now.images (length raw.now.fine.tiles) (length raw.now.images) index.now.singles.items index.now.pairs.items }
    requires within { AreWithin (core_length raw.now p.now) blocks.now }
    requires size { length out.old ≡ width_of raw.now.axis (length blocks.now) (core_width raw.now p.now) }
    requires long { 1 ≤ core_length raw.now p.now }
    requires wide { 1 ≤ core_width raw.now p.now }
    requires row { y < height_of raw.now.axis (length blocks.now) (core_width raw.now p.now) }
    requires low { y ≤ MAX_SIDE }
    ensures { out.new ≡ listed (length out.old) (coarse_in raw.now p.now index.now.singles.items index.now.pairs.items blocks.now y) }
{
    match raw.axis {
        Axis::One => across_blocks(raw, p, index, blocks, y, out),
        Axis::Two => along_block(raw, p, index, blocks, y, out),
    }
}

/// Makes row y of the coarse pattern, and appends it.
fn push_coarse_row(
    raw: &RawStep,
    p: &Pattern,
    index: &Index,
    blocks: &[Block],
    y: usize,
    row: &mut [u16],
    cells: &mut Vec<u16>,
) -> Result<(), AllocError>
    requires good { IsGoodStep raw.now }
    requires tiles { AllTiles raw.now.fine.tiles p.now }
    requires index { IsIndexed raw.now.images (length raw.now.fine.tiles) (length raw.now.images) index.now.singles.items index.now.pairs.items }
    requires within { AreWithin (core_length raw.now p.now) blocks.now }
    requires size { length row.old ≡ width_of raw.now.axis (length blocks.now) (core_width raw.now p.now) }
    requires long { 1 ≤ core_length raw.now p.now }
    requires wide { 1 ≤ core_width raw.now p.now }
    requires row { y < height_of raw.now.axis (length blocks.now) (core_width raw.now p.now) }
    requires low { y ≤ MAX_SIDE }
    ensures cells { OnOk result (cells.new.items ≡ cells.old.items ++ spec.coarse_row raw.now p.now index.now blocks.now y (length row.old)) }
    ensures size { length row.new ≡ length row.old }
{
    coarse_row(raw, p, index, blocks, y, row);
    cells.extend_from_slice(row)
}

/// The cells of the coarse pattern in reading order.
pub fn coarse_cells(
    alloc: Global,
    raw: &RawStep,
    p: &Pattern,
    index: &Index,
    blocks: &[Block],
    width: usize,
    height: usize,
) -> Result<Vec<u16>, AllocError>
    requires good { IsGoodStep raw.now }
    requires tiles { AllTiles raw.now.fine.tiles p.now }
    requires index { IsIndexed raw.now.images (length raw.now.fine.tiles) (length raw.now.images) index.now.singles.items index.now.pairs.items }
    requires within { AreWithin (core_length raw.now p.now) blocks.now }
    requires long { 1 ≤ core_length raw.now p.now }
    requires wide { 1 ≤ core_width raw.now p.now }
    requires width { width ≡ width_of raw.now.axis (length blocks.now) (core_width raw.now p.now) }
    requires height { height ≡ height_of raw.now.axis (length blocks.now) (core_width raw.now p.now) }
    requires narrow { width ≤ MAX_SIDE }
    requires low { height ≤ MAX_SIDE }
    ensures { IfOk result (λ cells. cells.items ≡ spec.coarse_cells raw.now p.now index.now blocks.now width height) }
{
    let mut cells = Vec::with_capacity(alloc, width * height)?;
    let mut row = vec![in alloc; 0u16; width]?;
    for y in 0..height {
        push_coarse_row(raw, p, index, blocks, y, &mut row, &mut cells)?;
    }
    Ok(cells)
}
