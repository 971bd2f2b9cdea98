// What the definition of a script says, as theorems: each is the contract of a function that does nothing.
ghost use Rattle.std.specs.Prelude.{◌≡◌, ℕ, ◌+◌, List, [], ◌∷◌, Ok, true};
ghost use Rattle.wt_text.specs.Lines.{Line};
ghost use Rattle.wt_text.specs.Readers.{◌then◌};
ghost use Rattle.wt_script.specs.declared.word.Command.{Command};
ghost use Rattle.wt_script.specs.Bound.{AllBindNames};
ghost use Rattle.wt_script.specs.Script.{is_skipped, piece_at, in_front, commands_from, script};

/// A script is read piece by piece: a line that is skipped, or a command with its own lines, and what stands behind it
/// as a script of its own, whose lines are counted on. A line that is skipped tells no more than its number.
pub fn pieces_follow()
    ensures none { (n : ℕ) → commands_from n [] ≡ Ok [] }
    ensures followed { (n : ℕ) (l : Line) (ls : List Line) → commands_from n (l ∷ ls) ≡ (piece_at n (l ∷ ls) then λ x. commands_from x.1.0 x.1.1 then λ cs. Ok (in_front x.0 cs)) }
    ensures skipped { (n : ℕ) (l : Line) (ls : List Line) → is_skipped l ≡ true → commands_from n (l ∷ ls) ≡ commands_from (n + 1) ls }
{}

/// Each name that a command of a script binds is well formed: 1 to `MAX_NAME` bytes, each a small letter, a digit or
/// `_`, and the first one a letter.
pub fn bound_names_are_well_formed()
    ensures { (bytes : List ℕ) (cs : List Command) → script bytes ≡ Ok cs → AllBindNames cs }
{}
