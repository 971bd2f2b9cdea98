//! Rows that stand one after the other, and the search for one of them.
ghost use Rattle.std.specs.Prelude.{◌≡◌, ◌<◌, ◌≤◌, ℕ, true, false, length, MatchOption};
ghost use Rattle.std.specs.Ordering.{nat_cmp};
ghost use Rattle.std.specs.Cmp.Lexicographic.{slice_cmp};
ghost use Rattle.wt_strip.specs.Listed.{rows_in, row_at, IsAscending, IsListed, IsRowAt};
ghost use Rattle.wt_strip.specs.Exact.{IsDrop};
ghost use Rattle.wt_strip.specs.Walks.{AreAlike};

use std::cmp::Ordering;

/// Row r of rows of width w.
#[tactic(auto, using(crate::proofs::Cells::row_end, crate::proofs::Cells::row_long))]
pub fn row(w: usize, cells: &[u16], r: usize) -> &[u16]
    requires wide { 1 ≤ w }
    requires inside { r < rows_in w cells.now }
    ensures cells { result.now ≡ row_at w cells.now r }
    ensures long { length result.now ≡ w }
{
    let start = r * w;
    &cells[start..start + w]
}

/// How row r compares with a row, in the order of lists.
pub fn compared(w: usize, cells: &[u16], r: usize, q: &[u16]) -> Ordering
    requires wide { 1 ≤ w }
    requires inside { r < rows_in w cells.now }
    ensures { result ≡ slice_cmp nat_cmp (row_at w cells.now r) q.now }
{
    row(w, cells, r).cmp(q)
}

/// The first row that isn't greater than the one before it.
pub fn drop_in(w: usize, cells: &[u16]) -> Option<usize>
    requires wide { 1 ≤ w }
    ensures { MatchOption result (IsAscending w cells.now (rows_in w cells.now)) (λ r. IsDrop w cells.now r) }
{
    for r in 1..cells.len() / w {
        if !compared(w, cells, r - 1, row(w, cells, r)).is_lt() {
            return Some(r);
        }
    }
    None
}

/// Where a row stands among ascending rows, if it does. Row `guess` is tried first.
pub fn place_of(w: usize, cells: &[u16], q: &[u16], guess: usize) -> Option<usize>
    requires wide { 1 ≤ w }
    requires ascending { IsAscending w cells.now (rows_in w cells.now) }
    ensures { MatchOption result (IsListed w cells.now q.now → ⊥) (IsRowAt w cells.now q.now) }
{
    if guess < cells.len() / w && row(w, cells, guess) == q {
        return Some(guess);
    }
    let mut low = 0usize;
    let mut high = cells.len() / w;
    while low < high {
        let middle = low + (high - low) / 2;
        match compared(w, cells, middle, q) {
            Ordering::Less => low = middle + 1,
            Ordering::Greater => high = middle,
            Ordering::Equal => return Some(middle),
        }
    }
    None
}

/// Whether the first n tiles of two rows are the same.
fn begins_alike(p: &[u16], q: &[u16], n: usize) -> bool
    requires first { n ≤ length p.now }
    requires second { n ≤ length q.now }
    ensures alike { result ≡ true → AreAlike n p.now q.now }
    ensures apart { result ≡ false → AreAlike n p.now q.now → ⊥ }
{
    for x in 0..n {
        if p[x] != q[x] {
            return false;
        }
    }
    true
}

/// A row behind row r of ascending rows, or their end, so that all before it from r on begin with the same n tiles.
/// The rows behind row r are looked at at distances that double, and then by halves.
pub fn past_alike(w: usize, cells: &[u16], r: usize, n: usize) -> usize
    requires wide { 1 ≤ w }
    requires inside { r < rows_in w cells.now }
    requires narrow { n ≤ w }
    requires ascending { IsAscending w cells.now (rows_in w cells.now) }
    ensures past { r < result }
    ensures within { result ≤ rows_in w cells.now }
    ensures alike { (s : ℕ) → r ≤ s → s < result → AreAlike n (row_at w cells.now s) (row_at w cells.now r) }
{
    let mut low = r + 1;
    let mut high = cells.len() / w;
    'halves: while low < high {
        let ahead = ((high - low) / 2).min(low - r - 1);
        let middle = low + ahead;
        let here = row(w, cells, middle);
        let first = row(w, cells, r);
        if begins_alike(here, first, n) {
            low = middle + 1;
        } else {
            high = middle;
        }
    }
    low
}
