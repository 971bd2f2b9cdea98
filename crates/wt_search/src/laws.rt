//! What a search finds, and when its budget is enough; and what light chains are.
ghost use Rattle.std.specs.Prelude.{◌≡◌, ◌≤◌, ℕ, None, Ok};
ghost use Rattle.wt_step.specs.declared.raw.RawStep.{RawStep};
ghost use Rattle.wt_step.specs.Faults.{step_fault};
ghost use Rattle.wt_chain.specs.Faults.{chain_fault};
ghost use Rattle.wt_chain.specs.Limits.{IsWithinLimits, nodes_through};
ghost use Rattle.wt_chain.specs.Sets.{BeginsWith};
ghost use Rattle.wt_tile.specs.declared.tile.TileList.{TileList};
ghost use Rattle.wt_chain.specs.declared.raw.RawChain.{RawChain};
ghost use Rattle.wt_search.specs.declared.end.SearchEnd.{SearchEnd};
ghost use Rattle.wt_search.specs.Asked.{Asked};
ghost use Rattle.wt_search.specs.Found.{MayEnd, IsFound};
ghost use Rattle.wt_search.specs.Enough.{IsEnough, IsNotSpent};
ghost use Rattle.wt_search.specs.Light.{light, light_step, AreLight, RefuteAlike};
ghost use Rattle.wt_search.specs.Lightened.{lightened};

use crate::MAX_NODES;

/// A chain that is found is good, and its first step takes apart the set that was searched.
pub fn found_chains_are_good()
    ensures { (s : Asked) (set : TileList) (levels : ℕ) (c : RawChain) → IsFound s set levels c
        → (chain_fault c ≡ None) × BeginsWith set c.steps }
{}

/// A chain that is found is within the limits of a text.
pub fn found_chains_are_within_limits()
    ensures { (s : Asked) (set : TileList) (levels : ℕ) (c : RawChain) → IsFound s set levels c
        → IsWithinLimits c }
{}

/// Where no window of two matching tiles of a level that is searched has more trials than the budget, and no
/// standard tree of an empty one more nodes, a search doesn't end as spent. So it answers as is said by `found`, or
/// that memory ran out.
pub fn enough_budgets()
    ensures { (s : Asked) (set : TileList) (levels : ℕ) (e : SearchEnd) → IsEnough s set levels → MayEnd s set levels e → IsNotSpent e }
{}

/// The light chain of a good chain is good.
pub fn light_chains_are_good()
    ensures { (c : RawChain) → chain_fault c ≡ None → chain_fault (light c) ≡ None }
{}

/// Each refutation of a light step has the least radius, from 1 on, at which its window is empty, and its tree is the
/// standard one with the refutations of lower radius known. A light step of a good one refutes the same pairs.
pub fn light_steps_have_least_radii()
    ensures entries { (s : RawStep) → AreLight s.fine.tiles (light_step s).refuted }
    ensures pairs { (s : RawStep) → step_fault s ≡ None → RefuteAlike s (light_step s) }
{}

/// Where no end is met, the trees of the light chain have as many nodes as are counted: at most 1,048,576.
pub fn light_chains_are_small()
    ensures { (c : RawChain) (budget n : ℕ) → lightened c budget ≡ Ok n → (nodes_through 0 (light c).steps ≡ n) × (n ≤ MAX_NODES) }
{}
