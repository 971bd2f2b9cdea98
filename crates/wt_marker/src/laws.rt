//! What classes and derived steps are, as theorems: each is the contract of a function that does nothing.
ghost use Rattle.std.specs.Prelude.{◌≡◌, ◌↔◌, ◌<◌, ◌≤◌, ℕ, Bool, true, List, [], length, All, Contains, None};
ghost use Rattle.wt_step.specs.Limits.{IsSlimStep};
ghost use Rattle.wt_grid.specs.declared.limits.TheConstants.{MAX_TILES};
ghost use Rattle.wt_grid.specs.declared.axis.Axis.{Axis};
ghost use Rattle.wt_tile.specs.declared.fusion.Fused.{Fused};
ghost use Rattle.wt_refute.specs.declared.tree.Refuted.{Refuted};
ghost use Rattle.wt_tile.specs.Matching.{blank};
ghost use Rattle.wt_tile.specs.Sets.{set_fault};
ghost use Rattle.wt_pattern.specs.Windows.{IsSurroundable};
ghost use Rattle.wt_step.specs.Words.{allows};
ghost use Rattle.wt_step.specs.Faults.{step_fault};
ghost use Rattle.wt_marker.specs.Classes.{IsKeptClass, kept_classes, AreByLeast};
ghost use Rattle.wt_marker.specs.Coarse.{number_tiles, AreSameAt};
ghost use Rattle.wt_refute.specs.declared.limits.TheConstants.{MAX_NODES};
ghost use Rattle.wt_marker.specs.Derived.{Plan, IsPlan, derived, derive_fault, dominoes, images_of, refuted_pairs, IsRefutable, IsListedPlan, all_nodes};

/// The listed classes are exactly the kept ones, by their least tiles.
pub fn classes_are_kept()
    ensures exactly { (n : ℕ) (f g : ℕ → ℕ → Bool) (c : List ℕ) → Contains (kept_classes n f g) c ↔ IsKeptClass n f g c }
    ensures by_least { (n : ℕ) (f g : ℕ → ℕ → Bool) → AreByLeast (kept_classes n f g) }
{}

/// The allowed pairs of a derived step are exactly the surroundable ones.
pub fn derived_pairs_are_surroundable()
    ensures { (p : Plan) → IsPlan p → (axis : Axis) (a b : ℕ) → (allows (derived p) axis a b ≡ true) ↔ IsSurroundable p.fine.tiles axis a b p.radius }
{}

/// Each pair that a derived step refutes matches, and isn't surroundable: its window is empty. So it has a
/// standard tree that refutes it, and `build_tree` may be asked for it.
pub fn refuted_pairs_have_empty_windows()
    ensures { (p : Plan) → IsPlan p → (axis : Axis) → All (IsRefutable p.fine.tiles axis p.radius) (refuted_pairs p.fine.tiles axis (dominoes p axis)) }
{}

/// Two tiles of the coarse set are equal exactly where the images that they stand for show the same edges.
pub fn coarse_tiles_tell_edges()
    ensures { (ts : List Fused) (i j : ℕ) (e : Fused) → i < length ts → j < length ts
        → AreSameAt (number_tiles [] [] ts) blank i j ↔ AreSameAt ts e i j }
{}

/// A class that was listed makes a plan, where both tables tell of the set and the radius.
pub fn listed_classes_make_plans()
    ensures { (p : Plan) → IsListedPlan p → IsPlan p }
{}

/// A derived step keeps to the limits of a certificate's text: of its lists, of its trees, which have at most
/// 90 levels and cite nothing, and of the nodes of all trees together. Its coarse names have the form of
/// a name.
pub fn derived_steps_are_small()
    ensures step { (p : Plan) (budget : ℕ) → p.radius ≤ 4 → length p.fine.tiles ≤ MAX_TILES → IsPlan p → derive_fault p budget ≡ None → IsSlimStep (derived p) }
    ensures nodes { (p : Plan) (budget : ℕ) → derive_fault p budget ≡ None → all_nodes p ≤ MAX_NODES }
{}

/// A step that is derived without a reason for a refusal is good.
pub fn derived_steps_are_good()
    ensures { (p : Plan) (budget : ℕ) → p.radius ≤ 4 → set_fault p.fine ≡ None → IsPlan p → derive_fault p budget ≡ None → step_fault (derived p) ≡ None }
{}
