// What sets and numbers of colours mean, as theorems: each is the contract of a function that does nothing.
ghost use Rattle.std.specs.Prelude.{◌≡◌, ℕ, List, None, ◌↔◌};
ghost use Rattle.wt_tile.specs.declared.tile.TileList.{TileList};
ghost use Rattle.wt_tile.specs.declared.fusion.Edge.{Edge};
ghost use Rattle.wt_tile.specs.Colours.{IsNumbering, HasNumber};
ghost use Rattle.wt_tile.specs.Sets.{IsTileSet};
ghost use Rattle.wt_tile.specs.Sets as spec;

/// A list has no fault exactly where it is a tile set.
pub fn tile_sets()
    ensures sound { (l : TileList) → spec.set_fault l ≡ None → IsTileSet l }
    ensures complete { (l : TileList) → IsTileSet l → spec.set_fault l ≡ None }
{}

/// Numbers of edges are equal exactly where the edges are.
pub fn numbers_tell_edges()
    ensures { (edges : List Edge) (i j : ℕ) (a b : Edge) → IsNumbering edges
        → HasNumber edges a i → HasNumber edges b j → (i ≡ j) ↔ (a ≡ b) }
{}
