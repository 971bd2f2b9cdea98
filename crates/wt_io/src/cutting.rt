// Cutting bytes at the first byte of a kind: the one search for spaces and newlines.
ghost use Rattle.std.specs.Prelude.{◌≡◌, ◌≢◌, ◌++◌, ◌∷◌, All, MatchOption};

use memchr::memchr;

/// What stands before the first byte of this value, and what stands behind it; None where there is no such byte.
#[tactic(auto, using(crate::proofs::Found::all_other, crate::proofs::Found::found_at))]
pub fn cut(bytes: &[u8], byte: u8) -> Option<(&[u8], &[u8])>
    ensures { MatchOption result (All (λ b. b ≢ byte) bytes.now) (λ x. (bytes.now ≡ x.0.now ++ byte ∷ x.1.now) × All (λ b. b ≢ byte) x.0.now) }
{
    let at = memchr(byte, bytes)?;
    Some((&bytes[..at], &bytes[at + 1..]))
}
