//! What wrapping rectangles are, as theorems: each is the contract of a function that does nothing.
ghost use Rattle.std.specs.Prelude.{◌≡◌, ◌≤◌, ℕ, List, None};
ghost use Rattle.wt_periodic.specs.Least.{IsLeastWrap, IsSpentAt, IsEnough};
ghost use Rattle.wt_tile.specs.declared.tile.Tile.{Tile};
ghost use Rattle.wt_grid.specs.Grid.{Grid};
ghost use Rattle.wt_chain.specs.declared.raw.RawChain.{RawChain};
ghost use Rattle.wt_chain.specs.Faults.{chain_fault};
ghost use Rattle.wt_periodic.specs.Wraps.{IsWrap, IsWrapOf, first_wrap_fault};
ghost use Rattle.wt_periodic.specs.Repeats.{repeated, IsPeriodic};
ghost use Rattle.wt_periodic.specs.NoWraps.{HasNoWrap};

/// `wraps` finds nothing exactly where the rectangle wraps round.
pub fn wrap_faults()
    ensures sound { (ts : List Tile) (g : Grid) → first_wrap_fault ts g ≡ None → IsWrap ts g }
    ensures complete { (ts : List Tile) (g : Grid) → IsWrap ts g → first_wrap_fault ts g ≡ None }
{}

/// A wrapping rectangle of tiles, repeated to any size, is a valid pattern, and has the rectangle's width and
/// height as periods.
pub fn wraps_repeat()
    ensures { (ts : List Tile) (w h : ℕ) (g : Grid) → IsWrapOf ts w h g → (m n : ℕ) → 1 ≤ m → 1 ≤ n → IsPeriodic ts g (repeated g m n) }
{}

/// There is at most one least wrapping rectangle.
pub fn least_wraps_are_one()
    ensures { (ts : List Tile) (limit : ℕ) (g h : Grid) → IsLeastWrap ts limit g → IsLeastWrap ts limit h → g ≡ h }
{}

/// A budget of the greatest trials of a size up to the limit is enough: it is spent at no size.
pub fn budgets_are_enough()
    ensures { (ts : List Tile) (limit budget w h : ℕ) → IsEnough ts limit budget → IsSpentAt ts limit budget w h → ⊥ }
{}

/// No rectangle of tiles of the first set of a good looped chain wraps round, of any size: repeated to a large
/// enough size it would be a valid pattern with a period.
pub fn looped_sets_have_no_wrap()
    ensures { (c : RawChain) → chain_fault c ≡ None → HasNoWrap c }
{}
