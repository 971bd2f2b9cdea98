// Masks of 256 bits: bit i stands in word i / 64, at i % 64.
ghost use Rattle.std.specs.Prelude.{◌≡◌, ℕ, ◌<◌, ◌↔◌, length, min, IsTrue, MatchOption};
ghost use Rattle.wt_lane.specs.Masks.{mask_bit, set_below, IsEmptyMask, IsLowestBit};

use std::simd::cmp::SimdPartialEq;
use std::simd::u64x4;

/// Keeps of a mask the bits that another has too.
pub fn and_into(a: &mut [u64; 4], b: &[u64; 4])
    ensures { (i : ℕ) → mask_bit a.new i ≡ min (mask_bit a.old i) (mask_bit b.now i) }
{
    *a = (u64x4::from_array(*a) & u64x4::from_array(*b)).to_array();
}

/// Whether any bit of a mask is set.
pub fn any(a: &[u64; 4]) -> bool
    ensures { IsTrue result ↔ ((i : ℕ) × (i < 256) × (mask_bit a.now i ≡ 1)) }
{
    any_in(a)
}

fn any_in(words: &[u64]) -> bool
    requires { length words.now ≡ 4 }
    ensures { IsTrue result ↔ ((i : ℕ) × (i < 256) × (mask_bit words.now i ≡ 1)) }
{
    u64x4::from_slice(words)
        .simd_ne(u64x4::splat(0))
        .to_bitmask()
        != 0
}

/// How many bits of a mask are set.
pub fn count_ones(a: &[u64; 4]) -> u32
    ensures { result ≡ set_below a.now 256 }
{
    count_ones_in(a)
}

fn count_ones_in(words: &[u64]) -> u32
    requires { length words.now ≡ 4 }
    ensures { result ≡ set_below words.now 256 }
{
    words[0].count_ones() + words[1].count_ones() + words[2].count_ones() + words[3].count_ones()
}

/// The least number of a bit that is set, or None where no bit is.
pub fn lowest(a: &[u64; 4]) -> Option<u32>
    ensures { MatchOption result (IsEmptyMask a.now) (IsLowestBit a.now) }
{
    lowest_in(a)
}

fn lowest_in(words: &[u64]) -> Option<u32>
    requires { length words.now ≡ 4 }
    ensures { MatchOption result (IsEmptyMask words.now) (IsLowestBit words.now) }
{
    let mut start = 0u32;
    for word in words {
        if *word != 0 {
            return Some(start + word.trailing_zeros());
        }
        start += 64;
    }
    None
}
