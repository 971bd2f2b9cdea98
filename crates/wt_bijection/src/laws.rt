// What a renaming without a fault is, and which is the least.
ghost use Rattle.std.specs.Prelude.{◌≡◌, None, Some, ℕ, List};
ghost use Rattle.wt_tile.specs.declared.tile.Tile.{Tile};
ghost use Rattle.wt_bijection.specs.Renaming.{renaming_fault};
ghost use Rattle.wt_bijection.specs.Carried.{IsRenaming};
ghost use Rattle.wt_bijection.specs.Least.{IsLeastRenaming, least_renaming};

/// A list has no fault exactly where it carries the tiles one to one onto those of the other set, and bijections
/// of the colours of each axis carry each tile onto its partner.
pub fn renamings()
    ensures good { (from to : List Tile) (list : List ℕ) → renaming_fault from to list ≡ None → IsRenaming from to list }
    ensures back { (from to : List Tile) (list : List ℕ) → IsRenaming from to list → renaming_fault from to list ≡ None }
{}

/// The least renaming comes before each other one, and there is none exactly where no list is a renaming.
pub fn least_renamings()
    ensures some { (from to : List Tile) (list : List ℕ) → least_renaming from to ≡ Some list → IsLeastRenaming from to list }
    ensures only { (from to : List Tile) (list : List ℕ) → IsLeastRenaming from to list → least_renaming from to ≡ Some list }
    ensures none { (from to : List Tile) (list : List ℕ) → least_renaming from to ≡ None → IsRenaming from to list → ⊥ }
{}
