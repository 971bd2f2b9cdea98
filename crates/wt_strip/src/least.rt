//! The least pattern of as many rows as there are layers.
ghost use Rattle.std.specs.Prelude.{◌≡◌, ◌≤◌, ◌<◌, ◌+◌, suc, true, false, length, take, IfOk};
ghost use Rattle.wt_strip.specs.Listed.{rows_in, IsAscending, IsListed};
ghost use Rattle.wt_strip.specs.Stripped.{AreFilled, AreStuckUnder, IsNextRow, IsLeastPattern, AreAllStuck, LeadsNext, ListsNext};

use crate::gather::push_row;
use crate::limits::{MAX_COLUMNS, MAX_LAYERS};
use crate::rows::row;
use crate::walk::{all_allowed, allow_upon, first_missing, misses, none_allowed};
use std::alloc::{AllocError, Global};
use wt_mask::Sides;
use wt_pattern::Pattern;
use wt_seq::Seq;

/// The rows of the layer below m + 1 others upon which no rows up to the top can be laid, from those of the next layer.
fn stuck_in(
    alloc: Global,
    sides: &Sides<'_>,
    w: usize,
    made: &[Seq<u16>],
    m: usize,
    above: &[u16],
) -> Result<Vec<u16>, AllocError>
    requires wide { 1 ≤ w }
    requires narrow { w ≤ MAX_COLUMNS }
    requires made { AreFilled sides.now.tiles.now w made.now }
    requires inside { suc m < length made.now }
    requires above { AreStuckUnder sides.now.tiles.now w (length made.now) m above.now }
    ensures { IfOk result (λ cells. AreStuckUnder sides.now.tiles.now w (length made.now) (suc m) cells.items) }
{
    let layer = made[made.len() - 2 - m].as_slice();
    let mut stuck = Vec::new(alloc);
    let mut allowed = none_allowed();
    for r in 0..layer.len() / w {
        let p = row(w, layer, r);
        allow_upon(sides, p, &mut allowed);
        if !misses(sides, w, &mut allowed, above) {
            push_row(w, &mut stuck, p)?;
        }
    }
    Ok(stuck)
}

/// For each layer, from the highest down, its rows upon which no rows up to the top can be laid.
fn stuck_rows(
    alloc: Global,
    sides: &Sides<'_>,
    w: usize,
    made: &[Seq<u16>],
) -> Result<Vec<Seq<u16>>, AllocError>
    requires wide { 1 ≤ w }
    requires narrow { w ≤ MAX_COLUMNS }
    requires some { 1 ≤ length made.now }
    requires made { AreFilled sides.now.tiles.now w made.now }
    ensures { IfOk result (λ stuck. AreAllStuck sides.now.tiles.now w (length made.now) stuck.items) }
{
    let mut stuck: Vec<Seq<u16>> = Vec::new(alloc);
    stuck.push(Seq::new(Vec::new(alloc)))?;
    for m in 0..made.len() - 1 {
        let rows = stuck_in(alloc, sides, w, made, m, stuck[m].as_slice())?;
        stuck.push(Seq::new(rows))?;
    }
    Ok(stuck)
}

/// Puts in place of row y - 1 the least row y that can be laid upon it and isn't listed; false where there is none.
fn next_row(
    sides: &Sides<'_>,
    w: usize,
    y: usize,
    listed: &[u16],
    row: &mut [u16; MAX_COLUMNS],
) -> bool
    requires wide { 1 ≤ w }
    requires narrow { w ≤ MAX_COLUMNS }
    requires ascending { IsAscending w listed.now (rows_in w listed.now) }
    ensures long { length row.new ≡ MAX_COLUMNS }
    ensures next { result ≡ true → IsNextRow sides.now.tiles.now w y (take w row.old) (take w row.new) }
    ensures missing { result ≡ true → IsListed w listed.now (take w row.new) → ⊥ }
    ensures first { result ≡ true → LeadsNext sides.now.tiles.now w y (take w row.old) listed.now (take w row.new) }
    ensures none { result ≡ false → ListsNext sides.now.tiles.now w y (take w row.old) listed.now }
{
    if y == 0 {
        return first_missing(sides, w, &mut all_allowed(sides), listed, row);
    }
    let mut allowed = none_allowed();
    allow_upon(sides, &row[..w], &mut allowed);
    first_missing(sides, w, &mut allowed, listed, row)
}

/// The least valid pattern of as many rows as layers are made, as a list in reading order.
pub fn least_pattern(
    alloc: Global,
    sides: &Sides<'_>,
    w: usize,
    made: &[Seq<u16>],
) -> Result<Pattern, AllocError>
    requires wide { 1 ≤ w }
    requires narrow { w ≤ MAX_COLUMNS }
    requires some { 1 ≤ length made.now }
    requires low { length made.now ≤ MAX_LAYERS }
    requires made { AreFilled sides.now.tiles.now w made.now }
    ensures { IfOk result (λ g. IsLeastPattern sides.now.tiles.now w (length made.now) g) }
{
    let stuck = stuck_rows(alloc, sides, w, made)?;
    let mut row = [0u16; MAX_COLUMNS];
    let mut cells = Vec::new(alloc);
    for y in 0..made.len() {
        let found = next_row(sides, w, y, stuck[made.len() - 1 - y].as_slice(), &mut row);
        prove!(found);
        push_row(w, &mut cells, &row[..w])?;
    }
    Ok(Pattern::of(w, made.len(), cells))
}
