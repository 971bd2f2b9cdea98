//! What coordinates after some turns are, first returns, and codes.
ghost use Rattle.std.specs.Prelude.{◌≡◌, ◌≤◌, ℕ, None};
ghost use Rattle.wt_plane.specs.HalfPlanes.{Spot};
ghost use Rattle.wt_torus.specs.declared.partition.Partition.{Partition};
ghost use Rattle.wt_torus.specs.Codes.{IsCode, code_fault, code_of};
ghost use Rattle.wt_golden.specs.Whole.{Whole};
ghost use Rattle.wt_torus.specs.Rotation.{IsInside, HasWindow, IsFirstReturn, IsMove, IsInsideWindow, ReturnsAreTurns};
ghost use Rattle.wt_torus.specs.Reduced.{IsReduced};

/// A coordinate inside the length is there after i turns too: it is t + i m less a number of whole lengths.
pub fn coordinates_are_reduced()
    ensures { (length move t : Whole) (i : ℕ) → IsMove length move → IsInside length t → IsReduced length move t i }
{}

/// The table of first returns. The window is that of the coordinates below the length less the move, for a move of less
/// than half of the length, else of those below the move. A coordinate of it is back in it after one turn or two, by the
/// side of the bound on which it lies, where one turn of the window's rotation takes it; so n returns are n such turns.
pub fn first_returns()
    ensures one { (length move t : Whole) → HasWindow length move → IsInsideWindow length move t → IsFirstReturn length move t }
    ensures all { (length move t : Whole) (n : ℕ) → HasWindow length move → IsInsideWindow length move t → ReturnsAreTurns length move t n }
{}

/// Where a point has no fault, its letters are its code.
pub fn letters_are_codes()
    ensures { (p : Partition) (z : Spot) (w h : ℕ) → 1 ≤ w → 1 ≤ h → code_fault p z w h ≡ None
        → IsCode p z (code_of p z w h) }
{}
