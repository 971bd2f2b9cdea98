// Rows of tile numbers.
ghost use Rattle.std.specs.Prelude.{◌≡◌, ◌+◌, ◌≤◌, length, nat_eq, nat_lt, count_by};
ghost use Rattle.std.specs.List.{list_all};
ghost use Rattle.std.specs.Bool.{OnTrue};
ghost use lib.Lanes.{chunk};
ghost use Rattle.wt_lane.specs.Differs.{first_place_apart};

use std::simd::cmp::{SimdPartialEq, SimdPartialOrd};
use std::simd::u16x8;

/// The first place where two rows of one length differ, or None where they are equal.
pub fn first_difference(a: &[u16], b: &[u16]) -> Option<usize>
    requires { length a.now ≡ length b.now }
    ensures { result ≡ first_place_apart 0 a.now b.now }
{
    let mut at = 0usize;
    while a.len() - at >= 8 && is_same_in(a, b, at) {
        at += 8;
    }
    while at < a.len() {
        if a[at] != b[at] {
            return Some(at);
        }
        at += 1;
    }
    None
}

// Whether the eight numbers from a place on are the same in two rows.
fn is_same_in(a: &[u16], b: &[u16], at: usize) -> bool
    requires left { at + 8 ≤ length a.now }
    requires right { at + 8 ≤ length b.now }
    ensures { OnTrue result (chunk at 8 a.now ≡ chunk at 8 b.now) }
{
    let x = u16x8::from_slice(&a[at..]);
    let y = u16x8::from_slice(&b[at..]);
    x.simd_ne(y).to_bitmask() == 0
}

/// How many numbers of a row are this value.
pub fn count_equal(row: &[u16], value: u16) -> usize
    ensures { result ≡ count_by (λ x. nat_eq x value) row.now }
{
    let mut count = 0usize;
    let mut at = 0usize;
    while row.len() - at >= 8 {
        count += count_equal_in(row, value, at);
        at += 8;
    }
    while at < row.len() {
        if row[at] == value {
            count += 1;
        }
        at += 1;
    }
    count
}

// How many of the eight numbers from a place on are this value.
fn count_equal_in(row: &[u16], value: u16, at: usize) -> usize
    requires { at + 8 ≤ length row.now }
    ensures { result ≡ count_by (λ x. nat_eq x value) (chunk at 8 row.now) }
{
    let x = u16x8::from_slice(&row[at..]);
    x.simd_eq(u16x8::splat(value)).to_bitmask().count_ones() as usize
}

/// Whether all numbers of a row are below a bound.
pub fn all_below(row: &[u16], bound: u16) -> bool
    ensures { result ≡ list_all (λ x. nat_lt x bound) row.now }
{
    let mut at = 0usize;
    while row.len() - at >= 8 {
        if !all_below_in(row, bound, at) {
            return false;
        }
        at += 8;
    }
    while at < row.len() {
        if row[at] >= bound {
            return false;
        }
        at += 1;
    }
    true
}

// Whether the eight numbers from a place on are below a bound.
fn all_below_in(row: &[u16], bound: u16, at: usize) -> bool
    requires { at + 8 ≤ length row.now }
    ensures { result ≡ list_all (λ x. nat_lt x bound) (chunk at 8 row.now) }
{
    let x = u16x8::from_slice(&row[at..]);
    x.simd_ge(u16x8::splat(bound)).to_bitmask() == 0
}
