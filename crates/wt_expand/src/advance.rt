// A counter of rows goes one row up or down: one bit flips, and the rows of all levels below it are laid
// anew.
ghost use Rattle.std.specs.Prelude.{◌≡◌, ◌+◌, ◌*◌, ◌<◌, ◌≤◌, [], ◌∷◌, length, take, drop, true, false, None, slice_get, Some};
ghost use Rattle.std.specs.Bool.{MatchBool};
ghost use Rattle.wt_expand.specs.Levels.{Level};
ghost use Rattle.wt_expand.specs.LaidRows.{has_two};
ghost use Rattle.wt_expand.specs.Advances.{flip_from, laid_over, laid_by, IsAdvanced, IsLastRow};
ghost use Rattle.wt_expand.specs.Advances as spec;
ghost use Rattle.wt_expand.specs.Blocks.{digit_of, digits};
ghost use Rattle.wt_expand.specs.Counters.{counter_levels, level_of, digits_at, row_at_level, HasLevel};
ghost use Rattle.wt_expand.specs.Spaces.{HasRoom, row_count, row_in};
ghost use Rattle.wt_expand.specs.Splits.{laid_below, HasSplit};
ghost use Rattle.wt_expand.specs.Splits as splits;

use crate::counter::{Counter, LevelRef};
use crate::laid::{is_upper, lay_first, row_of};
use wt_grid::MAX_SIDE;

/// In which direction the counter goes.
#[derive(Clone, Copy)]
pub enum Direction {
    /// To the next row above.
    Up,
    /// To the next row below.
    Down,
}

/// The blocks from level i on.
fn rest_at<'s>(counter: &Counter<'_>, i: usize, space: &'s [u16]) -> &'s [u16]
    requires level { i ≤ length (counter_levels counter.now) }
    requires room { HasRoom counter.now space.now }
    ensures { result.now ≡ drop (i * counter.now.block) space.now }
{
    let (_, rest) = space.split_at(counter.place(i));
    rest
}

/// Whether the bit of the first block flips: whether its row becomes the other one of the two that the row of
/// the next block stands for.
fn flips(counter: &Counter<'_>, direction: Direction, level: LevelRef<'_>, space: &[u16]) -> bool
    requires { counter.now.block + 2 ≤ length space.now }
    ensures { result
        ≡ spec.flips direction counter.now.renaming.now (level_of level.entry) (digit_of space.now) (digit_of (drop counter.now.block space.now)) }
{
    match direction {
        Direction::Up => !is_upper(space)
            && counter.has_two(level, row_of(&space[counter.block..])),
        Direction::Down => is_upper(space),
    }
}

/// The bit after a flip.
fn flipped(direction: Direction) -> bool
    ensures { result ≡ spec.flipped direction }
{
    match direction {
        Direction::Up => true,
        Direction::Down => false,
    }
}

/// The bit of a row that is laid below a row that has changed.
fn follows(counter: &Counter<'_>, direction: Direction, level: LevelRef<'_>, above: &[u16]) -> bool
    ensures { result ≡ spec.follows direction counter.now.renaming.now (level_of level.entry) above.now }
{
    match direction {
        Direction::Up => false,
        Direction::Down => counter.has_two(level, above),
    }
}

/// The first level, from the bottom, whose bit flips.
fn first_flip(counter: &Counter<'_>, direction: Direction, space: &[u16]) -> Option<usize>
    requires room { HasRoom counter.now space.now }
    requires wide { 2 ≤ counter.now.block }
    ensures { result
        ≡ flip_from direction counter.now.renaming.now 0 (counter_levels counter.now) (digits_at counter.now 0 space.now) }
{
    for i in 0..counter.count() {
        if flips(
            counter,
            direction,
            counter.level(i),
            rest_at(counter, i, space),
        ) {
            return Some(i);
        }
    }
    None
}

/// Lays the row of level i from the row above.
fn lay_at(counter: &Counter<'_>, w: usize, i: usize, upper: bool, space: &mut [u16])
    requires room { HasRoom counter.now space.old }
    requires wide { w + 2 ≤ counter.now.block }
    requires thin { w ≤ MAX_SIDE }
    requires level { i < length (counter_levels counter.now) }
    requires inside { upper ≡ true
        → HasLevel counter.now i (λ level. has_two counter.now.renaming.now level (row_at_level counter.now (i + 1) space.old) ≡ true) }
    ensures laid { HasLevel counter.now i (λ level. digits_at counter.now i space.new
        ≡ laid_over w counter.now.renaming.now level upper (digits_at counter.now (i + 1) space.old)) }
    ensures below { take (i * counter.now.block) space.new ≡ take (i * counter.now.block) space.old }
    ensures size { length space.new ≡ length space.old }
{
    let level = counter.level(i);
    let (_, rest) = space.split_at_mut(counter.place(i));
    lay_first(counter, level, w, upper, rest);
}

/// Lays the row of level i below a row that has changed.
fn follow_at(counter: &Counter<'_>, direction: Direction, w: usize, i: usize, space: &mut [u16])
    requires room { HasRoom counter.now space.old }
    requires wide { w + 2 ≤ counter.now.block }
    requires thin { w ≤ MAX_SIDE }
    requires level { i < length (counter_levels counter.now) }
    ensures laid { HasLevel counter.now i (λ level. digits_at counter.now i space.new
        ≡ laid_by direction w counter.now.renaming.now level (digits_at counter.now (i + 1) space.old)) }
    ensures size { length space.new ≡ length space.old }
{
    let level = counter.level(i);
    let upper = follows(
        counter,
        direction,
        level,
        row_of(rest_at(counter, i + 1, space)),
    );
    lay_at(counter, w, i, upper, space);
}

/// How many cells are kept of the row of level i: one below level `low`, else w.
fn cells_kept(low: usize, w: usize, i: usize) -> usize
    requires { 1 ≤ w }
    ensures value { result ≡ splits.cells_kept low w i }
    ensures within { result ≤ w }
{
    if i < low { 1 } else { w }
}

/// Lays the rows of the levels below level j, each from the row above.
fn lay_below(
    counter: &Counter<'_>,
    direction: Direction,
    low: usize,
    w: usize,
    j: usize,
    space: &mut [u16],
)
    requires room { HasRoom counter.now space.old }
    requires wide { w + 2 ≤ counter.now.block }
    requires thin { w ≤ MAX_SIDE }
    requires some { 1 ≤ w }
    requires level { j ≤ length (counter_levels counter.now) }
    ensures laid { digits_at counter.now 0 space.new ≡ laid_below direction low w counter.now j space.old }
    ensures size { length space.new ≡ length space.old }
{
    let mut i = j;
    while i > 0 {
        i -= 1;
        follow_at(counter, direction, cells_kept(low, w, i), i, space);
    }
}

/// Goes to the next row in the direction, where there is one; says false, and changes nothing, where there is
/// none. Of each row below level `low` one cell is kept, of the others w cells.
pub fn advance(
    counter: &Counter<'_>,
    direction: Direction,
    low: usize,
    w: usize,
    space: &mut [u16],
) -> bool
    requires room { HasRoom counter.now space.old }
    requires wide { w + 2 ≤ counter.now.block }
    requires thin { w ≤ MAX_SIDE }
    requires some { 1 ≤ w }
    requires fits { HasSplit low w counter.now space.old }
    ensures advanced { result ≡ true → HasSplit low w counter.now space.new
        × IsAdvanced direction (row_in counter.now space.old)
        (row_in counter.now space.new) }
    ensures last { result ≡ false → IsLastRow direction (row_count counter.now)
        (row_in counter.now space.old) }
    ensures size { length space.new ≡ length space.old }
{
    match first_flip(counter, direction, space) {
        None => false,
        Some(j) => {
            let kept = cells_kept(low, w, j);
            lay_at(counter, kept, j, flipped(direction), space);
            lay_below(counter, direction, low, w, j, space);
            true
        }
    }
}

/// Writes the row of tile 0 into the block above all levels.
fn set_top(counter: &Counter<'_>, space: &mut [u16])
    requires room { HasRoom counter.now space.old }
    requires wide { 3 ≤ counter.now.block }
    ensures laid { digits_at counter.now (length (counter_levels counter.now)) space.new ≡ (record { row = 0 ∷ []; is_upper = false }) ∷ [] }
    ensures size { length space.new ≡ length space.old }
{
    let top = counter.place(counter.count());
    space[top] = 0;
    space[top + 1] = 1;
    space[top + 2] = 0;
}

/// Sets the counter to the bottom row, w cells of each row: all bits are 0.
pub fn reset(counter: &Counter<'_>, w: usize, space: &mut [u16])
    requires room { HasRoom counter.now space.old }
    requires wide { w + 2 ≤ counter.now.block }
    requires thin { w ≤ MAX_SIDE }
    requires some { 1 ≤ w }
    ensures fits { HasSplit 0 w counter.now space.new }
    ensures bottom { row_in counter.now space.new ≡ 0 }
    ensures size { length space.new ≡ length space.old }
{
    set_top(counter, space);
    lay_below(counter, Direction::Up, 0, w, counter.count(), space);
}

/// Lays the rows from level `low` on anew, w cells of each, where one cell of each row was kept; the bits stay.
pub fn widen(counter: &Counter<'_>, low: usize, w: usize, space: &mut [u16])
    requires room { HasRoom counter.now space.old }
    requires wide { w + 2 ≤ counter.now.block }
    requires thin { w ≤ MAX_SIDE }
    requires some { 1 ≤ w }
    requires within { low ≤ length (counter_levels counter.now) }
    requires fits { HasSplit 0 1 counter.now space.old }
    ensures fits { HasSplit low w counter.now space.new }
    ensures same { row_in counter.now space.new ≡ row_in counter.now space.old }
    ensures size { length space.new ≡ length space.old }
{
    let mut i = counter.count();
    while i > low {
        i -= 1;
        let upper = is_upper(rest_at(counter, i, space));
        lay_at(counter, w, i, upper, space);
    }
}
