// What good steps do to patterns and their periods.
ghost use Rattle.std.specs.Prelude.{◌≡◌, ◌⊎◌, ◌+◌, ◌^◌, ◌∷◌, ◌<◌, ◌≤◌, None, Ok, ℕ, ℤ, List, Bool};
ghost use Rattle.wt_grid.specs.declared.axis.Axis.TheVariants.{One};
ghost use Rattle.wt_grid.specs.Grid.{Grid, lines};
ghost use Rattle.wt_grid.specs.Lines.{IsImage};
ghost use Rattle.wt_grid.specs.Images.{image_grid};
ghost use Rattle.wt_grid.specs.Shifts.{HasVector};
ghost use Rattle.wt_pattern.specs.Patterns.{IsPattern};
ghost use Rattle.wt_tile.specs.declared.tile.Tile.{Tile};
ghost use Rattle.wt_bijection.specs.Carried.{IsRenaming};
ghost use Rattle.wt_step.specs.declared.raw.RawStep.{RawStep};
ghost use Rattle.wt_step.specs.Faults as spec;
ghost use Rattle.wt_step.specs.Meaning.{pieces};
ghost use Rattle.wt_step.specs.declared.raw.RawLink.{RawLink};
ghost use Rattle.wt_step.specs.Links.{link_fault, fine_of, coarse_of};
ghost use Rattle.wt_pattern.specs.Periods.{IsPeriod};
ghost use Rattle.wt_chain.specs.declared.raw.RawChain.{RawChain};
ghost use Rattle.wt_chain.specs.Faults.{chain_fault};
ghost use Rattle.wt_chain.specs.Looped.{IsLooped, first_tiles};
ghost use Rattle.wt_chain.specs.Sets.{AreLinked};
ghost use Rattle.wt_chain.specs.Turns.{renamed_back, turned_times};
ghost use Rattle.wt_chain.specs.Good.{IsGoodLoop, IsGoodChain};
ghost use Rattle.wt_scale.specs.Loops.{loop_pick};
ghost use Rattle.wt_scale.specs.Holds.{HasNoPeriod, IsExcludedFrom, HasEverySize, Holds};
ghost use Rattle.wt_scale.specs.Vectors.{digits, size_result};
ghost use Rattle.wt_scale.specs.Scales.{HasCoarsePeriods};
ghost use Rattle.wt_scale.specs.Existence.{HasMarkerImage, HasValidImage, IsSameSized, HasDoubling, IsPatternOf};
ghost use Rattle.wt_scale.specs.Pick.{power_for};

/// Each valid coarse pattern of a good marker step has an image, and that is valid: the coarse tiles of a
/// line stand for one or two lines, which match as the step's images say.
pub fn images_are_valid()
    ensures { (s : RawStep) → spec.step_fault s ≡ None → (q : Grid) → IsPattern s.coarse.tiles q → HasMarkerImage s q }
{}

/// A valid pattern with a period has, by a good step of either kind, a valid coarse pattern with a period:
/// as large as is asked where the pattern's sides pay for the margin and the cuts, each part of its period
/// no longer than before, at least half as long, and zero exactly where it was; and each run of coarse
/// cells of the period's length stands for a run of cells of the old length, wherever it begins.
pub fn patterns_are_lowered()
    ensures { (l : RawLink) → link_fault l ≡ None → (p : Grid) → IsPattern (fine_of l).tiles p → HasCoarsePeriods l p }
{}

/// No nonzero vector is a period of a valid pattern over the first set of a good looped chain, if the pattern
/// is large enough: for components up to m, and k with m < 2^k, the size is `size_of`. Over each e turns of
/// the loop a component that isn't 0 is at least halved, since every tile grows to two cells at least each
/// way; after k times e turns it would be at least 2^k, which is more than m.
pub fn large_patterns_have_no_period()
    ensures { (c : RawChain) → chain_fault c ≡ None → HasNoPeriod c }
{}

/// Each valid coarse pattern of a good step, of either kind, has an image, and that is valid. It is no smaller
/// than the coarse pattern, and equally large where every coarse tile stands for a single one.
pub fn link_images_are_valid()
    ensures { (l : RawLink) → link_fault l ≡ None → (q : Grid) → IsPattern (coarse_of l).tiles q → HasValidImage l q }
{}

/// A valid pattern over the set that a renaming leads to is, renamed back, a valid pattern over the other set,
/// with the same sides.
pub fn renamed_patterns_are_valid()
    ensures { (from to : List Tile) (list : List ℕ) → IsRenaming from to list → (g : Grid) → IsPattern to g → IsSameSized from g (renamed_back list g) }
{}

/// A valid pattern over the first set of a good loop is, after e turns, a valid pattern over the same set, and
/// each of its sides is at least twice as long: e turns make every tile at least two cells wide and high.
pub fn turns_double_patterns()
    ensures { (l : RawLink) (ls : List RawLink) → AreLinked (fine_of l) (l ∷ ls) → (list : List ℕ) (e : ℕ) → IsGoodLoop (l ∷ ls) list e
        → HasDoubling (fine_of l) (l ∷ ls) list e }
{}

/// The power that is found for a number n is the least k with n ≤ 2^k.
pub fn least_powers()
    ensures { (n : ℕ) → (n ≤ 2 ^ power_for n) × ((k : ℕ) → n ≤ 2 ^ k → power_for n ≤ k) }
{}

/// Over a good looped chain the pick of w by h cells is a valid pattern over the first set, w cells wide and
/// h cells high: each e turns of the loop at least double the sides of the pattern of tile 0, images under the
/// steps before the loop are no smaller, and a part of a valid pattern is valid.
pub fn picks_are_valid()
    ensures { (c : RawChain) → chain_fault c ≡ None → (loop : IsLooped c)
        → (w h : ℕ) → 1 ≤ w → 1 ≤ h → IsPatternOf (first_tiles loop) w h (loop_pick loop w h) }
{}

/// Valid patterns of every size exist over the first set of a good looped chain: its picks.
pub fn every_size_has_a_pattern()
    ensures { (c : RawChain) → chain_fault c ≡ None → HasEverySize c }
{}

/// What holds of every good chain: each of its steps takes every valid rectangle apart in exactly one way, up
/// to a cut at the border; and where it is looped, valid patterns of every size exist over its first set, and
/// no nonzero vector is a period of a large one.
pub fn good_chains_hold()
    ensures { (c : RawChain) → IsGoodChain c → Holds c }
{}

/// A number is below 2 to the power of its number of binary digits, and below no lower power of 2.
pub fn digits_are_least()
    ensures above { (m : ℕ) → m < 2 ^ digits m }
    ensures least { (m k : ℕ) → m < 2 ^ k → digits m ≤ k }
{}

/// Where a good chain has a size for a vector, no valid pattern over its first set that is at least as wide and
/// as high as this size has the vector as a period.
pub fn sizes_exclude_periods()
    ensures { (c : RawChain) → chain_fault c ≡ None → (x y : ℤ) (size : ℕ) → size_result c x y ≡ Ok size → IsExcludedFrom c size x y }
{}
