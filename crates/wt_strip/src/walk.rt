//! Walks of rows in ascending order, column by column, and the search for one that isn't listed.
ghost use Rattle.std.specs.Prelude.{◌≡◌, ◌<◌, ◌≤◌, ◌+◌, ◌-◌, ℕ, List, true, false, length, take, replicate, MatchOption};
ghost use Rattle.wt_tile.specs.Matching.{matches};
ghost use Rattle.wt_lane.specs.Masks.{mask_bit};
ghost use Rattle.wt_strip.specs.Layers.{IsRow, IsUnder};
ghost use Rattle.wt_strip.specs.Listed.{rows_in, row_at, IsAscending, IsListed};
ghost use Rattle.wt_strip.specs.Walks.{column_allows, is_allowed, IsWay, MayCome, IsPruned, CanBear, StandsBehind, AreAlike, AllowsAbove, LeadsMissingAlike, ListsWaysAlike, AllowsBefore, IsBlockedAt, KeepsBefore, LeadsMissing, ListsWays, MissesWay};

use crate::limits::MAX_COLUMNS;
use crate::rows::{past_alike, place_of, row};
use wt_lane::{and_into, any};
use wt_mask::{Sides, Way, join_into, next_bit};
use wt_tile::Axis;

/// For each column of a row, the mask of the tiles that it allows.
pub type Columns = [[u64; 4]; MAX_COLUMNS];

/// The tiles that may stand above one.
fn above(sides: &Sides<'_>, a: u16) -> [u64; 4]
    ensures { (t : ℕ) → t < length sides.now.tiles.now → column_allows result t ≡ matches sides.now.tiles.now Axis.Two a t }
{
    sides.beside(Way::Up, a)
}

/// The tiles that may stand before one.
fn left_of(sides: &Sides<'_>, u: u16) -> [u64; 4]
    ensures { (t : ℕ) → t < length sides.now.tiles.now → column_allows result t ≡ matches sides.now.tiles.now Axis.One t u }
{
    sides.beside(Way::Left, u)
}

/// Lets in each column of a row stand what may stand above its tile.
pub fn allow_upon(sides: &Sides<'_>, p: &[u16], allowed: &mut Columns)
    requires wide { length p.now ≤ MAX_COLUMNS }
    ensures { AllowsAbove sides.now.tiles.now p.now allowed.new }
{
    for x in 0..p.len() {
        allowed[x] = above(sides, p[x]);
    }
}

/// Nothing in any column.
pub fn none_allowed() -> Columns
    ensures { result ≡ replicate MAX_COLUMNS (replicate 4 0) }
{
    [[0; 4]; MAX_COLUMNS]
}

/// Every tile in every column.
pub fn all_allowed(sides: &Sides<'_>) -> Columns
    ensures { (x t : ℕ) → x < MAX_COLUMNS → t < length sides.now.tiles.now → is_allowed result x t ≡ true }
{
    [sides.all(); MAX_COLUMNS]
}

/// The tiles that may come behind the first x cells of a row.
pub fn coming(sides: &Sides<'_>, allowed: &Columns, row: &[u16; MAX_COLUMNS], x: usize) -> [u64; 4]
    requires inside { x < MAX_COLUMNS }
    ensures come { (t : ℕ) → mask_bit result t ≡ 1 → MayCome sides.now.tiles.now allowed.now row.now x t }
    ensures barred { (t : ℕ) → mask_bit result t ≡ 0 → MayCome sides.now.tiles.now allowed.now row.now x t → ⊥ }
{
    let mut mask = allowed[x];
    if x == 0 {
        and_into(&mut mask, &sides.all());
        return mask;
    }
    and_into(&mut mask, &sides.beside(Way::Right, row[x - 1]));
    mask
}

/// Whether a row that begins with the first x cells isn't listed: the rows are walked in ascending order up to the first
/// such row. `next` is the row behind the one that was found last, where the next is looked for first.
fn misses_from(
    sides: &Sides<'_>,
    w: usize,
    allowed: &Columns,
    cells: &[u16],
    next: &mut usize,
    row: &mut [u16; MAX_COLUMNS],
    x: usize,
) -> bool
    requires wide { 1 ≤ w }
    requires narrow { w ≤ MAX_COLUMNS }
    requires inside { x ≤ w }
    requires ascending { IsAscending w cells.now (rows_in w cells.now) }
    requires begun { IsWay sides.now.tiles.now allowed.now x row.old }
    ensures long { length row.new ≡ MAX_COLUMNS }
    ensures same { AreAlike x row.new row.old }
    ensures missed { result ≡ true → IsWay sides.now.tiles.now allowed.now w row.new × (IsListed w cells.now (take w row.new) → ⊥) }
    ensures first { result ≡ true → LeadsMissingAlike sides.now.tiles.now allowed.now w x row.old cells.now row.new }
    ensures none { result ≡ false → ListsWaysAlike sides.now.tiles.now allowed.now w x row.old cells.now }
{
    if x == w {
        let Some(r) = place_of(w, cells, &row[..w], *next) else {
            return true;
        };
        *next = r + 1;
        return false;
    }
    let mask = coming(sides, allowed, row, x);
    let mut from = 0usize;
    'tiles: while let Some(t) = next_bit(&mask, from) {
        row[x] = t as u16;
        if misses_from(sides, w, allowed, cells, next, row, x + 1) {
            return true;
        }
        from = t + 1;
    }
    false
}

/// The tiles before which a tile of a column may stand.
fn before(sides: &Sides<'_>, next: &[u64; 4]) -> [u64; 4]
    ensures { AllowsBefore sides.now.tiles.now next.now result }
{
    let mut mask = [0u64; 4];
    let mut from = 0usize;
    'tiles: while let Some(u) = next_bit(next, from) {
        join_into(&mut mask, &left_of(sides, u as u16));
        from = u + 1;
    }
    mask
}

/// The tiles that may stand behind a tile of a column.
fn behind(sides: &Sides<'_>, column: &[u64; 4]) -> [u64; 4]
    ensures stands { (u : ℕ) → mask_bit result u ≡ 1 → StandsBehind sides.now.tiles.now column.now u }
    ensures all { (u : ℕ) → StandsBehind sides.now.tiles.now column.now u → mask_bit result u ≡ 1 }
{
    let mut mask = [0u64; 4];
    let mut from = 0usize;
    'tiles: while let Some(t) = next_bit(column, from) {
        join_into(&mut mask, &sides.beside(Way::Right, t as u16));
        from = t + 1;
    }
    mask
}

/// The first column up to which no valid row can be laid upon a row, or None where one can be laid upon all of it.
fn blocked_at(sides: &Sides<'_>, p: &[u16]) -> Option<usize>
    ensures { MatchOption result (CanBear sides.now.tiles.now (length p.now) p.now) (IsBlockedAt sides.now.tiles.now p.now) }
{
    let mut next = sides.all();
    for x in 0..p.len() {
        let mut ends = sides.beside(Way::Up, p[x]);
        and_into(&mut ends, &next);
        if !any(&ends) {
            return Some(x);
        }
        next = behind(sides, &ends);
    }
    None
}

/// The first of ascending rows from row r on upon which a valid row can be laid, or their end. Where none can be laid upon
/// a row, all that begin alike are passed over.
pub fn bearing_from(sides: &Sides<'_>, w: usize, below: &[u16], r: usize) -> usize
    requires wide { 1 ≤ w }
    requires inside { r ≤ rows_in w below.now }
    requires ascending { IsAscending w below.now (rows_in w below.now) }
    ensures from { r ≤ result }
    ensures within { result ≤ rows_in w below.now }
    ensures bears { result < rows_in w below.now → CanBear sides.now.tiles.now w (row_at w below.now result) }
    ensures passed { (s : ℕ) → r ≤ s → s < result → CanBear sides.now.tiles.now w (row_at w below.now s) → ⊥ }
{
    let mut at = r;
    'rows: while at < below.len() / w {
        match blocked_at(sides, row(w, below, at)) {
            Some(x) => at = past_alike(w, below, at, x + 1),
            None => return at,
        }
    }
    at
}

/// Of the tiles of a column those that a tile of the next column matches.
fn narrowed(sides: &Sides<'_>, column: &[u64; 4], next: &[u64; 4]) -> [u64; 4]
    ensures fewer { (t : ℕ) → column_allows result t ≡ true → column_allows column.now t ≡ true }
    ensures kept { KeepsBefore sides.now.tiles.now column.now next.now result }
{
    let mut mask = before(sides, next);
    and_into(&mut mask, column);
    mask
}

/// Leaves in the columns the tiles from which a row can go on to the right end; false where a column has none. Without this
/// a walk could turn back too often to end.
pub fn prune(sides: &Sides<'_>, w: usize, allowed: &mut Columns) -> bool
    requires wide { 1 ≤ w }
    requires narrow { w ≤ MAX_COLUMNS }
    ensures left { result ≡ true → IsPruned sides.now.tiles.now allowed.old w allowed.new }
    ensures none { result ≡ false → (q : List ℕ) → IsWay sides.now.tiles.now allowed.old w q → ⊥ }
{
    for i in 1..w {
        let x = w - i;
        let column = narrowed(sides, &allowed[x - 1], &allowed[x]);
        if !any(&column) {
            return false;
        }
        allowed[x - 1] = column;
    }
    true
}

/// Whether a row that the columns allow isn't listed; prunes them. The first w tiles of `row` are the least such row then.
pub fn first_missing(
    sides: &Sides<'_>,
    w: usize,
    allowed: &mut Columns,
    cells: &[u16],
    row: &mut [u16; MAX_COLUMNS],
) -> bool
    requires wide { 1 ≤ w }
    requires narrow { w ≤ MAX_COLUMNS }
    requires ascending { IsAscending w cells.now (rows_in w cells.now) }
    ensures long { length row.new ≡ MAX_COLUMNS }
    ensures missed { result ≡ true → IsWay sides.now.tiles.now allowed.old w row.new × (IsListed w cells.now (take w row.new) → ⊥) }
    ensures first { result ≡ true → LeadsMissing sides.now.tiles.now allowed.old w cells.now row.new }
    ensures none { result ≡ false → ListsWays sides.now.tiles.now allowed.old w cells.now }
{
    if !prune(sides, w, allowed) {
        return false;
    }
    misses_from(sides, w, allowed, cells, &mut 0, row, 0)
}

/// Whether a row that the columns allow isn't listed; prunes them.
pub fn misses(sides: &Sides<'_>, w: usize, allowed: &mut Columns, cells: &[u16]) -> bool
    requires wide { 1 ≤ w }
    requires narrow { w ≤ MAX_COLUMNS }
    requires ascending { IsAscending w cells.now (rows_in w cells.now) }
    ensures missed { result ≡ true → MissesWay sides.now.tiles.now allowed.old w cells.now }
    ensures none { result ≡ false → ListsWays sides.now.tiles.now allowed.old w cells.now }
{
    let mut row = [0u16; MAX_COLUMNS];
    first_missing(sides, w, allowed, cells, &mut row)
}
