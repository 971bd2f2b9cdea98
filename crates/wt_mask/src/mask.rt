//! Masks of 256 bits, a bit for each tile.
ghost use Rattle.std.specs.Prelude.{◌≡◌, ℕ, ◌*◌, ◌<◌, ◌≤◌, max, MatchOption, length, not, nat_eq, if◌then◌else◌};
ghost use Rattle.wt_lane.specs.Masks.{mask_bit};
ghost use Rattle.wt_mask.specs.Masks.{bit, IsEmptyFrom, IsNextBit};

use std::simd::u64x4;

/// Sets a bit.
pub fn set_bit(mask: &mut [u64; 4], i: usize)
    requires { i < 256 }
    ensures { (k : ℕ) → mask_bit mask.new k ≡ (if nat_eq k i then 1 else mask_bit mask.old k) }
{
    mask[i / 64] |= 1u64 << (i % 64);
}

/// The mask of one tile alone.
pub fn single(i: usize) -> [u64; 4]
    requires { i < 256 }
    ensures { (k : ℕ) → mask_bit result k ≡ (if nat_eq k i then 1 else 0) }
{
    let mut mask = [0u64; 4];
    set_bit(&mut mask, i);
    mask
}

/// Whether a bit is set.
pub fn has_bit(mask: &[u64; 4], i: usize) -> bool
    ensures { result ≡ nat_eq (mask_bit mask.now i) 1 }
{
    if i >= 256 {
        return false;
    }
    (mask[i / 64] >> (i % 64)) & 1 == 1
}

/// Adds to a mask the bits that another has.
pub fn join_into(a: &mut [u64; 4], b: &[u64; 4])
    ensures { (i : ℕ) → mask_bit a.new i ≡ max (mask_bit a.old i) (mask_bit b.now i) }
{
    *a = (u64x4::from_array(*a) | u64x4::from_array(*b)).to_array();
}

/// Makes of a mask the bits in which it differs from another.
pub fn differ_into(a: &mut [u64; 4], b: &[u64; 4])
    ensures { (i : ℕ) → mask_bit a.new i ≡ bit (not (nat_eq (mask_bit a.old i) (mask_bit b.now i))) }
{
    *a = (u64x4::from_array(*a) ^ u64x4::from_array(*b)).to_array();
}

/// The least bit from a number on that is set.
pub fn next_bit(mask: &[u64; 4], from: usize) -> Option<usize>
    ensures { MatchOption result (IsEmptyFrom from mask.now) (IsNextBit from mask.now) }
{
    next_bit_in(mask, from)
}

fn next_bit_in(words: &[u64], from: usize) -> Option<usize>
    requires { length words.now ≡ 4 }
    ensures { MatchOption result (IsEmptyFrom from words.now) (IsNextBit from words.now) }
{
    if from >= 256 {
        return None;
    }
    let first = from / 64;
    let rest = words[first] >> (from % 64);
    if rest != 0 {
        return Some(from + rest.trailing_zeros() as usize);
    }
    next_word(words, first + 1)
}

fn next_word(words: &[u64], first: usize) -> Option<usize>
    requires { length words.now ≡ 4 }
    ensures { MatchOption result (IsEmptyFrom (64 * first) words.now) (IsNextBit (64 * first) words.now) }
{
    for word in first..4 {
        if words[word] != 0 {
            return Some(64 * word + words[word].trailing_zeros() as usize);
        }
    }
    None
}
