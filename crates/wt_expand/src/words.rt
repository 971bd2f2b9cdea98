// Rows laid word by word: what the tiles of a level come to in the row that is due is made once for each tile,
// and then copied.
ghost use Rattle.std.specs.Prelude.{◌≡◌, ◌+◌, ◌*◌, ◌<◌, ◌≤◌, ◌++◌, length, take, drop, slice_index};
ghost use Rattle.std.specs.List.{flat_map};
ghost use Rattle.wt_morphism.specs.Images as images;
ghost use Rattle.wt_chain.specs.Turns.{axis_of};
ghost use Rattle.wt_expand.specs.Counters.{counter_levels, row_at_level};
ghost use Rattle.wt_expand.specs.Spaces.{HasRoom};
ghost use Rattle.wt_expand.specs.WordTables.{times, HasShortWords, words_below, image_laid_at, image_below, word_at, HasWords};

use crate::counter::{Counter, LevelRef, lies_in_rows};
use crate::laid::{is_upper, put, row_of, tile_of};
use crate::limits::{MAX_LOW, MAX_TABLE, MAX_WORD};
use crate::table::image_count;
use wt_grid::MAX_TILES;
use wt_morphism::Image;

/// A word of no more tiles than these is copied as so many, whichever of them count.
const SHORT: usize = 16;

/// The same of longer words.
const MIDDLE: usize = 32;

/// A row pays for words that are so many times shorter.
const PAYS: usize = 64;

/// The words of the first tiles of a set: what each comes to in one row.
#[derive(Drop)]
pub struct WordTable {
    /// The words, one behind the other.
    pub tiles: [u16; MAX_TABLE],
    /// How many tiles are in use.
    pub end: usize,
    /// Where the word of a tile begins.
    pub starts: [u16; MAX_TILES],
    /// How many tiles it has.
    pub lens: [u16; MAX_TILES],
    /// How many tiles have words.
    pub count: usize,
}

/// How many tiles the longest word above a level may have, where that below it has so many.
fn longest_above(level: LevelRef<'_>, longest: usize) -> usize
    requires { longest ≤ MAX_WORD }
    ensures { result ≡ times (axis_of level.entry.link.now) longest }
{
    if lies_in_rows(level.link) {
        2 * longest
    } else {
        longest
    }
}

/// How many of the lowest levels are laid by words: as many as keep words short against a row of w cells.
pub fn low_for(counter: &Counter<'_>, w: usize) -> usize
    ensures within { result ≤ length (counter_levels counter.now) }
    ensures short { HasShortWords counter.now result }
{
    let most = MAX_WORD.min(w / PAYS);
    if most < 2 {
        return 0;
    }
    let top = counter.count().min(MAX_LOW);
    let mut longest = 1;
    for i in 0..top {
        let next = longest_above(counter.level(i), longest);
        if next > most {
            return i;
        }
        longest = next;
    }
    top
}

/// What is laid of a tile of the row above in the lower or the upper row.
fn image_laid(counter: &Counter<'_>, level: LevelRef<'_>, upper: bool, tile: u16) -> Image
    ensures { images.piece result ≡ image_laid_at counter.now level.entry upper tile }
{
    let image = counter.piece(level, tile);
    if lies_in_rows(level.link) {
        image
    } else {
        Image::One(tile_of(upper, image))
    }
}

/// The blocks from level i on.
fn block_at<'s>(counter: &Counter<'_>, i: usize, space: &'s [u16]) -> &'s [u16]
    requires room { HasRoom counter.now space.now }
    requires wide { 2 ≤ counter.now.block }
    requires within { i ≤ length (counter_levels counter.now) }
    ensures place { result.now ≡ drop (i * counter.now.block) space.now }
    ensures long { 2 ≤ length result.now }
{
    let (_, rest) = space.split_at(counter.place(i));
    rest
}

/// Writes a word behind the first tiles, as far as there is room, and tells how many there are then. Where
/// there is room for more, more is written than counts.
fn put_word(row: &mut [u16], len: usize, table: &WordTable, t: usize) -> usize
    requires within { len ≤ length row.old }
    requires tile { t < MAX_TILES }
    requires place { slice_index table.now.starts t + MAX_WORD ≤ MAX_TABLE }
    requires few { slice_index table.now.lens t ≤ MAX_WORD }
    ensures put { take result row.new ≡ take (length row.old) (take len row.old ++ word_at table.now t) }
    ensures within { result ≤ length row.new }
    ensures room { length row.new ≡ length row.old }
{
    let start = usize::from(table.starts[t]);
    let count = usize::from(table.lens[t]);
    let room = row.len() - len;
    if MAX_WORD <= room {
        if count <= SHORT {
            row[len..len + SHORT].copy_from_slice(&table.tiles[start..start + SHORT]);
            return len + count;
        }
        if count <= MIDDLE {
            row[len..len + MIDDLE].copy_from_slice(&table.tiles[start..start + MIDDLE]);
            return len + count;
        }
        row[len..len + MAX_WORD].copy_from_slice(&table.tiles[start..start + MAX_WORD]);
        return len + count;
    }
    let some = count.min(room);
    row[len..len + some].copy_from_slice(&table.tiles[start..start + some]);
    len + some
}

/// Writes what a tile above the lowest k levels comes to, with no table, tile by tile.
fn put_slowly(
    counter: &Counter<'_>,
    k: usize,
    space: &[u16],
    row: &mut [u16],
    len: usize,
    tile: u16,
) -> usize
    requires room { HasRoom counter.now space.now }
    requires wide { 2 ≤ counter.now.block }
    requires level { k ≤ length (counter_levels counter.now) }
    requires within { len ≤ length row.old }
    ensures put { take result row.new
        ≡ take (length row.old) (take len row.old ++ words_below counter.now k space.now tile) }
    ensures within { result ≤ length row.new }
    ensures room { length row.new ≡ length row.old }
{
    if k == 0 {
        return put(row, len, tile);
    }
    let i = k - 1;
    let level = counter.level(i);
    let upper = is_upper(block_at(counter, i, space));
    match image_laid(counter, level, upper, tile) {
        Image::One(a) => put_slowly(counter, i, space, row, len, a),
        Image::Two(a, b) => {
            let next = put_slowly(counter, i, space, row, len, a);
            put_slowly(counter, i, space, row, next, b)
        }
    }
}

/// Writes what a tile above the lowest k levels comes to, by the table of the words there.
fn put_tile(
    counter: &Counter<'_>,
    k: usize,
    space: &[u16],
    table: &WordTable,
    row: &mut [u16],
    len: usize,
    tile: u16,
) -> usize
    requires room { HasRoom counter.now space.now }
    requires wide { 2 ≤ counter.now.block }
    requires level { k ≤ length (counter_levels counter.now) }
    requires table { HasWords table.now (words_below counter.now k space.now) }
    requires within { len ≤ length row.old }
    ensures put { take result row.new
        ≡ take (length row.old) (take len row.old ++ words_below counter.now k space.now tile) }
    ensures within { result ≤ length row.new }
    ensures room { length row.new ≡ length row.old }
{
    let t = usize::from(tile);
    if t < table.count {
        return put_word(row, len, table, t);
    }
    put_slowly(counter, k, space, row, len, tile)
}

/// Writes what the tiles of an image above the lowest k levels come to.
fn put_image(
    counter: &Counter<'_>,
    k: usize,
    space: &[u16],
    table: &WordTable,
    row: &mut [u16],
    len: usize,
    image: Image,
) -> usize
    requires room { HasRoom counter.now space.now }
    requires wide { 2 ≤ counter.now.block }
    requires level { k ≤ length (counter_levels counter.now) }
    requires table { HasWords table.now (words_below counter.now k space.now) }
    requires within { len ≤ length row.old }
    ensures put { take result row.new
        ≡ take (length row.old) (take len row.old ++ image_below counter.now k space.now (images.piece image)) }
    ensures within { result ≤ length row.new }
    ensures room { length row.new ≡ length row.old }
{
    match image {
        Image::One(a) => put_tile(counter, k, space, table, row, len, a),
        Image::Two(a, b) => {
            let next = put_tile(counter, k, space, table, row, len, a);
            put_tile(counter, k, space, table, row, next, b)
        }
    }
}

/// Makes the word of the next tile, of which this image is laid: the words of the image's tiles.
fn push_word(
    counter: &Counter<'_>,
    k: usize,
    space: &[u16],
    below: &WordTable,
    image: Image,
    table: &mut WordTable,
)
    requires room { HasRoom counter.now space.now }
    requires wide { 2 ≤ counter.now.block }
    requires level { k ≤ length (counter_levels counter.now) }
    requires below { HasWords below.now (words_below counter.now k space.now) }
    requires table { HasWords table.old (words_below counter.now (k + 1) space.now) }
    requires image { words_below counter.now (k + 1) space.now table.old.count
        ≡ image_below counter.now k space.now (images.piece image) }
    requires short { length (image_below counter.now k space.now (images.piece image)) ≤ MAX_WORD }
    requires place { table.old.end + MAX_WORD ≤ MAX_TABLE }
    requires inside { table.old.count < MAX_TILES }
    ensures table { HasWords table.new (words_below counter.now (k + 1) space.now) }
    ensures count { table.new.count ≡ table.old.count + 1 }
{
    let start = table.end;
    let end = put_image(counter, k, space, below, &mut table.tiles, start, image);
    table.starts[table.count] = start as u16;
    table.lens[table.count] = (end - start) as u16;
    table.end = end;
    table.count += 1;
}

/// Makes the words above level k of those below it, as far as there is room.
fn set_words(
    counter: &Counter<'_>,
    k: usize,
    space: &[u16],
    below: &WordTable,
    table: &mut WordTable,
)
    requires room { HasRoom counter.now space.now }
    requires wide { 2 ≤ counter.now.block }
    requires level { k < length (counter_levels counter.now) }
    requires short { HasShortWords counter.now (k + 1) }
    requires below { HasWords below.now (words_below counter.now k space.now) }
    ensures { HasWords table.new (words_below counter.now (k + 1) space.now) }
{
    let level = counter.level(k);
    let upper = is_upper(block_at(counter, k, space));
    let count = image_count(level.link).min(MAX_TILES);
    table.count = 0;
    table.end = 0;
    for t in 0..count {
        if MAX_TABLE - table.end < MAX_WORD {
            return;
        }
        let image = image_laid(counter, level, upper, t as u16);
        push_word(counter, k, space, below, image, table);
    }
}

/// A table with no word yet.
fn no_words() -> WordTable
    ensures count { result.count ≡ 0 }
    ensures end { result.end ≡ 0 }
{
    WordTable {
        tiles: [1; MAX_TABLE],
        end: 0,
        starts: [1; MAX_TILES],
        lens: [1; MAX_TILES],
        count: 0,
    }
}

/// Lays what the tiles of the row above the lowest k levels come to one after another, as far as there is
/// room, and tells how many tiles there are then.
fn lay_words(
    counter: &Counter<'_>,
    k: usize,
    space: &[u16],
    table: &WordTable,
    above: &[u16],
    row: &mut [u16],
) -> usize
    requires room { HasRoom counter.now space.now }
    requires wide { 2 ≤ counter.now.block }
    requires level { k ≤ length (counter_levels counter.now) }
    requires table { HasWords table.now (words_below counter.now k space.now) }
    ensures laid { take result row.new
        ≡ take (length row.old) (flat_map (words_below counter.now k space.now) above.now) }
    ensures within { result ≤ length row.new }
    ensures room { length row.new ≡ length row.old }
{
    let mut len = 0;
    for tile in above {
        if len == row.len() {
            return len;
        }
        len = put_tile(counter, k, space, table, row, len, *tile);
    }
    len
}

/// Lays a row as it is, as far as there is room, and tells how many tiles there are then.
fn lay_same(above: &[u16], row: &mut [u16]) -> usize
    ensures laid { take result row.new ≡ take (length row.old) above.now }
    ensures within { result ≤ length row.new }
    ensures room { length row.new ≡ length row.old }
{
    let count = above.len().min(row.len());
    row[..count].copy_from_slice(&above[..count]);
    count
}

/// Lays the words of a row above one level or more. Two tables are made in turn, each of the other.
fn lay_above(
    counter: &Counter<'_>,
    low: usize,
    space: &[u16],
    above: &[u16],
    row: &mut [u16],
) -> usize
    requires room { HasRoom counter.now space.now }
    requires wide { 2 ≤ counter.now.block }
    requires level { low ≤ length (counter_levels counter.now) }
    requires short { HasShortWords counter.now low }
    ensures laid { take result row.new
        ≡ take (length row.old) (flat_map (words_below counter.now low space.now) above.now) }
    ensures within { result ≤ length row.new }
    ensures room { length row.new ≡ length row.old }
{
    let mut even = no_words();
    let mut odd = no_words();
    let mut k = 0;
    while k + 1 < low {
        set_words(counter, k, space, &even, &mut odd);
        set_words(counter, k + 1, space, &odd, &mut even);
        k += 2;
    }
    if k < low {
        set_words(counter, k, space, &even, &mut odd);
        return lay_words(counter, low, space, &odd, above, row);
    }
    lay_words(counter, low, space, &even, above, row)
}

/// Lays the row that is due of the row of level `low`, word by word, as far as there is room, and tells how
/// many tiles there are then.
pub fn lay_by_words(counter: &Counter<'_>, low: usize, space: &[u16], row: &mut [u16]) -> usize
    requires room { HasRoom counter.now space.now }
    requires wide { 2 ≤ counter.now.block }
    requires within { low ≤ length (counter_levels counter.now) }
    requires short { HasShortWords counter.now low }
    ensures laid { take result row.new
        ≡ take (length row.old) (flat_map (words_below counter.now low space.now) (row_at_level counter.now low space.now)) }
    ensures within { result ≤ length row.new }
    ensures room { length row.new ≡ length row.old }
{
    let above = row_of(block_at(counter, low, space));
    if low == 0 {
        lay_same(above, row)
    } else {
        lay_above(counter, low, space, above, row)
    }
}
