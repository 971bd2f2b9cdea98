// What the rows of a pick are, level by level.
ghost use Rattle.std.specs.Prelude.{◌≡◌, ◌∷◌, ◌≤◌, None, ℕ, List};
ghost use Rattle.wt_chain.specs.declared.raw.RawChain.{RawChain};
ghost use Rattle.wt_chain.specs.Faults.{chain_fault};
ghost use Rattle.wt_expand.specs.Levels.{Level};
ghost use Rattle.wt_expand.specs.Rows.{Digit, AreDigits, IsRowOfItsNumber};
ghost use Rattle.wt_expand.specs.Picks.{HasRowsOfImages, HasRowsOfPicks};
ghost use Rattle.wt_expand.specs.Words.{IsRowByWords};

/// The rows of the rectangle that turns of a good chain's loop make of tile 0, taken down the steps before
/// the loop, are the rows that come below tile 0 level by level, each row as one row or two.
pub fn rows_of_images()
    ensures { (c : RawChain) → chain_fault c ≡ None → HasRowsOfImages c }
{}

/// The first w tiles of a row tell the first w cells of each row that it stands for. So rows that stand below
/// one another, each kept w cells, are the rows of their numbers, w cells of each.
pub fn short_rows_are_rows()
    ensures { (w : ℕ) → 1 ≤ w → (renaming : List ℕ) (levels : List Level) (s : Digit) (ss : List Digit)
        → AreDigits w renaming levels (s ∷ ss) → IsRowOfItsNumber w renaming levels s ss }
{}

/// Where rows stand below one another, the first is laid of the row k levels up alone, word by word: what a
/// tile there comes to is told by which rows between are the lower or the upper ones.
pub fn rows_are_words()
    ensures { (w : ℕ) → 1 ≤ w → (renaming : List ℕ) (levels : List Level) (s : Digit) (ss : List Digit)
        → AreDigits w renaming levels (s ∷ ss) → IsRowByWords w renaming levels s ss }
{}

/// Over a good looped chain the rows of the pick of w by h cells are the lowest h of all rows below its
/// levels, w cells of each: there are as many rows, and each is as wide.
pub fn rows_of_picks()
    ensures { (c : RawChain) → chain_fault c ≡ None → HasRowsOfPicks c }
{}
