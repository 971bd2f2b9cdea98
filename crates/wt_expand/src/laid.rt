// Rows laid out from the rows above them.
ghost use Rattle.std.specs.Prelude.{◌≡◌, ◌+◌, ◌<◌, ◌≤◌, [], ◌∷◌, ◌++◌, length, take, drop, map, slice_index, slice_index_or, true};
ghost use Rattle.std.specs.List.{flat_map};
ghost use Rattle.wt_grid.specs.Traces.{piece_tiles};
ghost use Rattle.wt_morphism.specs.Images as images;
ghost use Rattle.wt_expand.specs.Blocks.{digit_of};
ghost use Rattle.wt_expand.specs.Counters.{level_of, piece_at_level, has_two_at, row_laid_at, digit_laid_at};
ghost use Rattle.wt_expand.specs.PieceTables.{HasPieces};
ghost use Rattle.wt_expand.specs.Blocks as blocks;

use crate::counter::{Counter, LevelRef, lies_in_rows};
use crate::table::{PieceTable, table_of};
use wt_grid::MAX_SIDE;
use wt_morphism::Image;

/// From how many tiles on a row is long, so that a table of its level pays.
const LONG: usize = 64;

/// Writes a tile behind the first ones, while there is room, and tells how many there are then.
pub fn put(row: &mut [u16], len: usize, tile: u16) -> usize
    requires { len ≤ length row.old }
    ensures put { take result row.new ≡ take (length row.old) (take len row.old ++ tile ∷ []) }
    ensures within { result ≤ length row.new }
    ensures room { length row.new ≡ length row.old }
{
    if len == row.len() {
        return len;
    }
    row[len] = tile;
    len + 1
}

fn put_image(row: &mut [u16], len: usize, image: Image) -> usize
    requires { len ≤ length row.old }
    ensures put { take result row.new ≡ take (length row.old) (take len row.old ++ piece_tiles (images.piece image)) }
    ensures within { result ≤ length row.new }
    ensures room { length row.new ≡ length row.old }
{
    match image {
        Image::One(a) => put(row, len, a),
        Image::Two(a, b) => {
            let next = put(row, len, a);
            put(row, next, b)
        }
    }
}

/// Lays the pieces of a row's tiles one after another, as far as there is room, and tells how many tiles
/// there are then.
fn lay_along(counter: &Counter<'_>, level: LevelRef<'_>, above: &[u16], row: &mut [u16]) -> usize
    ensures laid { take result row.new
        ≡ take (length row.old) (flat_map (λ t. piece_tiles (piece_at_level counter.now level.entry t)) above.now) }
    ensures within { result ≤ length row.new }
    ensures room { length row.new ≡ length row.old }
{
    let mut len = 0;
    for tile in above {
        if len == row.len() {
            return len;
        }
        len = put_image(row, len, counter.piece(level, *tile));
    }
    len
}

/// The lower or the upper tile of an image.
pub fn tile_of(upper: bool, image: Image) -> u16
    ensures { result ≡ blocks.tile_of upper (images.piece image) }
{
    match image {
        Image::One(a) => a,
        Image::Two(a, b) => { if upper { b } else { a } }
    }
}

/// Lays the lower or the upper tiles of a row's pieces, as far as there is room, and tells how many there
/// are.
fn lay_across(
    counter: &Counter<'_>,
    level: LevelRef<'_>,
    above: &[u16],
    upper: bool,
    row: &mut [u16],
) -> usize
    ensures laid { take result row.new
        ≡ take (length row.old) (map (λ t. blocks.tile_of upper (piece_at_level counter.now level.entry t)) above.now) }
    ensures within { result ≤ length row.new }
    ensures room { length row.new ≡ length row.old }
{
    let count = above.len().min(row.len());
    for x in 0..count {
        row[x] = tile_of(upper, counter.piece(level, above[x]));
    }
    count
}

/// Lays the lower or the upper row that a short row stands for.
fn lay_short(
    counter: &Counter<'_>,
    level: LevelRef<'_>,
    above: &[u16],
    upper: bool,
    row: &mut [u16],
) -> usize
    requires inside { upper ≡ true → has_two_at counter.now level above.now ≡ true }
    ensures laid { take result row.new
        ≡ take (length row.old) (row_laid_at counter.now level.entry above.now upper) }
    ensures within { result ≤ length row.new }
    ensures room { length row.new ≡ length row.old }
{
    if lies_in_rows(level.link) {
        lay_along(counter, level, above, row)
    } else {
        lay_across(counter, level, above, upper, row)
    }
}

/// Writes what a tile stands for behind the first tiles, while there is room, and tells how many there are
/// then. Where there is room for two, both ends are written, whether both count or not.
fn put_piece(
    counter: &Counter<'_>,
    level: LevelRef<'_>,
    table: &PieceTable,
    row: &mut [u16],
    len: usize,
    tile: u16,
) -> usize
    requires within { len ≤ length row.old }
    requires table { HasPieces table.now counter.now.renaming.now (level_of level) }
    ensures put { take result row.new
        ≡ take (length row.old) (take len row.old ++ piece_tiles (piece_at_level counter.now level.entry tile)) }
    ensures within { result ≤ length row.new }
    ensures room { length row.new ≡ length row.old }
{
    let t = usize::from(tile);
    if t < table.count && row.len() - len >= 2 {
        row[len] = table.firsts[t];
        row[len + 1] = table.lasts[t];
        return len + usize::from(table.lens[t]);
    }
    put_image(row, len, counter.piece(level, tile))
}

/// Lays the pieces of a long row's tiles one after another, as `lay_along` does.
fn lay_long_along(
    counter: &Counter<'_>,
    level: LevelRef<'_>,
    table: &PieceTable,
    above: &[u16],
    row: &mut [u16],
) -> usize
    requires { HasPieces table.now counter.now.renaming.now (level_of level) }
    ensures laid { take result row.new
        ≡ take (length row.old) (flat_map (λ t. piece_tiles (piece_at_level counter.now level.entry t)) above.now) }
    ensures within { result ≤ length row.new }
    ensures room { length row.new ≡ length row.old }
{
    let mut len = 0;
    for tile in above {
        if len == row.len() {
            return len;
        }
        len = put_piece(counter, level, table, row, len, *tile);
    }
    len
}

/// The lower or the upper tile of what a tile stands for.
fn end_of(
    counter: &Counter<'_>,
    level: LevelRef<'_>,
    table: &PieceTable,
    upper: bool,
    tile: u16,
) -> u16
    requires { HasPieces table.now counter.now.renaming.now (level_of level) }
    ensures { result ≡ blocks.tile_of upper (piece_at_level counter.now level.entry tile) }
{
    let t = usize::from(tile);
    if t >= table.count {
        return tile_of(upper, counter.piece(level, tile));
    }
    if upper {
        table.lasts[t]
    } else {
        table.firsts[t]
    }
}

/// Lays the lower or the upper tiles of a long row's pieces, as `lay_across` does.
fn lay_long_across(
    counter: &Counter<'_>,
    level: LevelRef<'_>,
    table: &PieceTable,
    above: &[u16],
    upper: bool,
    row: &mut [u16],
) -> usize
    requires { HasPieces table.now counter.now.renaming.now (level_of level) }
    ensures laid { take result row.new
        ≡ take (length row.old) (map (λ t. blocks.tile_of upper (piece_at_level counter.now level.entry t)) above.now) }
    ensures within { result ≤ length row.new }
    ensures room { length row.new ≡ length row.old }
{
    let count = above.len().min(row.len());
    for x in 0..count {
        row[x] = end_of(counter, level, table, upper, above[x]);
    }
    count
}

/// Lays the lower or the upper row that a long row stands for.
fn lay_long(
    counter: &Counter<'_>,
    level: LevelRef<'_>,
    above: &[u16],
    upper: bool,
    row: &mut [u16],
) -> usize
    requires inside { upper ≡ true → has_two_at counter.now level above.now ≡ true }
    ensures laid { take result row.new
        ≡ take (length row.old) (row_laid_at counter.now level.entry above.now upper) }
    ensures within { result ≤ length row.new }
    ensures room { length row.new ≡ length row.old }
{
    let table = table_of(counter, level);
    if lies_in_rows(level.link) {
        lay_long_along(counter, level, &table, above, row)
    } else {
        lay_long_across(counter, level, &table, above, upper, row)
    }
}

/// Lays the lower or the upper row that a row stands for.
fn lay_row(
    counter: &Counter<'_>,
    level: LevelRef<'_>,
    above: &[u16],
    upper: bool,
    row: &mut [u16],
) -> usize
    requires inside { upper ≡ true → has_two_at counter.now level above.now ≡ true }
    ensures laid { take result row.new
        ≡ take (length row.old) (row_laid_at counter.now level.entry above.now upper) }
    ensures within { result ≤ length row.new }
    ensures room { length row.new ≡ length row.old }
{
    if above.len() < LONG {
        lay_short(counter, level, above, upper, row)
    } else {
        lay_long(counter, level, above, upper, row)
    }
}

/// The row that a block holds.
pub fn row_of(block: &[u16]) -> &[u16]
    requires { 2 ≤ length block.now }
    ensures { result.now ≡ (digit_of block.now).row }
{
    let tiles = &block[2..];
    let len = usize::from(block[1]).min(tiles.len());
    &tiles[..len]
}

/// Whether a block holds the upper one of two rows.
pub fn is_upper(block: &[u16]) -> bool
    requires { 2 ≤ length block.now }
    ensures { result ≡ (digit_of block.now).is_upper }
{
    block[0] == 1
}

/// Lays a block's row from the row above.
fn lay_block(
    counter: &Counter<'_>,
    level: LevelRef<'_>,
    w: usize,
    above: &[u16],
    upper: bool,
    block: &mut [u16],
)
    requires wide { w + 2 ≤ length block.old }
    requires thin { w ≤ MAX_SIDE }
    requires inside { upper ≡ true → has_two_at counter.now level above.now ≡ true }
    ensures laid { digit_of block.new ≡ digit_laid_at w counter.now level.entry above.now upper }
    ensures within { slice_index block.new 1 + 2 ≤ length block.new }
    ensures room { length block.new ≡ length block.old }
{
    let (head, tiles) = block.split_at_mut(2);
    let len = lay_row(counter, level, above, upper, &mut tiles[..w]);
    head[0] = u16::from(upper);
    head[1] = len as u16;
}

/// Lays the first block's row from that of the next block.
pub fn lay_first(
    counter: &Counter<'_>,
    level: LevelRef<'_>,
    w: usize,
    upper: bool,
    space: &mut [u16],
)
    requires room { counter.now.block + 2 ≤ length space.old }
    requires wide { w + 2 ≤ counter.now.block }
    requires thin { w ≤ MAX_SIDE }
    requires inside { upper ≡ true
        → has_two_at counter.now level (digit_of (drop counter.now.block space.old)).row ≡ true }
    ensures laid { digit_of space.new
        ≡ digit_laid_at w counter.now level.entry (digit_of (drop counter.now.block space.old)).row upper }
    ensures above { drop counter.now.block space.new ≡ drop counter.now.block space.old }
    ensures size { length space.new ≡ length space.old }
{
    let (block, above) = space.split_at_mut(counter.block);
    lay_block(counter, level, w, row_of(above), upper, block);
}
