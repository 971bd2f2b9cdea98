//! What the seeds and the counts of a loop are, as theorems: each is the contract of a function that does nothing.
ghost use Rattle.std.specs.Prelude.{◌≡◌, ◌∷◌, [], ◌↔◌, ◌+◌, ℕ, List, None};
ghost use Rattle.wt_step.specs.declared.raw.RawLink.{RawLink};
ghost use Rattle.wt_chain.specs.declared.raw.RawChain.{RawChain};
ghost use Rattle.wt_chain.specs.Faults.{chain_fault};
ghost use Rattle.wt_chain.specs.Looped.{IsLooped};
ghost use Rattle.wt_chain.specs.Turns.{turned, single};
ghost use Rattle.wt_check.specs.Powers.{power, IsLoopTile, count_after, loop_count};
ghost use Rattle.wt_check.specs.Seeds.{loop_seeds, IsFixedSquare, IsAscending, IsSeed, HasFour};

/// The seeds of a power of a loop's map are exactly its fixed 2 by 2 patterns: those that are valid over the
/// loop's first set, and whose four tiles are each the opposite corner of what the power makes of it.
pub fn seeds_are_fixed()
    ensures fixed { (loop : List RawLink) (renaming : List ℕ) (q a b c d : ℕ)
        → IsSeed loop renaming q (a ∷ b ∷ c ∷ d ∷ []) ↔ IsFixedSquare loop renaming q a b c d }
    ensures four { (loop : List RawLink) (renaming : List ℕ) (q : ℕ) (seed : List ℕ) → IsSeed loop renaming q seed → HasFour seed }
{}

/// The seeds are listed in strict order, as lists of four tiles.
pub fn seeds_ascend()
    ensures { (loop : List RawLink) (renaming : List ℕ) (q : ℕ) → IsAscending (loop_seeds loop renaming q) }
{}

/// What turns make of a tile is what one turn makes of it (`turn` of wt_expand), again and again: no turn leaves the
/// tile alone, and one more turn is a turn of all that came of those before.
pub fn turns_compose()
    ensures none { (loop : List RawLink) (renaming : List ℕ) (t : ℕ) → power loop renaming 0 t ≡ single t }
    ensures more { (loop : List RawLink) (renaming : List ℕ) (n t : ℕ) → power loop renaming (n + 1) t ≡ turned loop renaming (power loop renaming n t) }
{}

/// How often a tile stands in what m + n turns of a good loop make of a tile: as often as it stands in what n turns
/// make of the tiles that m turns make of it, all together.
pub fn counts_compose()
    ensures { (c : RawChain) → chain_fault c ≡ None → (loop : IsLooped c) → (m n t u : ℕ) → IsLoopTile loop t
        → loop_count loop (m + n) t u ≡ count_after loop m n t u }
{}
