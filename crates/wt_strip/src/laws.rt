//! What layers say of patterns, as theorems: each is the contract of a function that does nothing.
ghost use Rattle.std.specs.Prelude.{◌≡◌, ◌≤◌, ℕ, suc, List, Ok};
ghost use Rattle.wt_text.specs.Lines.{lines, bytes_of};
ghost use Rattle.wt_text.specs.Readers.{whole_text};
ghost use Rattle.wt_tile.specs.declared.tile.Tile.{Tile};
ghost use Rattle.wt_grid.specs.Grid.{Grid};
ghost use Rattle.wt_pattern.specs.Patterns.{IsPattern};
ghost use Rattle.wt_strip.specs.declared.layers.Layers.{Layers};
ghost use Rattle.wt_strip.specs.declared.layers.StripFault.{StripFault};
ghost use Rattle.wt_strip.specs.Layers.{IsInLayer};
ghost use Rattle.wt_strip.specs.Exact.{IsExact, IsStripFault, HasPattern, Forbids};
ghost use Rattle.wt_strip.specs.StripText.{strip_part, strip_lines, HasText, IsStripText};

/// A valid pattern of a width and a height exists exactly where the layer of that height isn't empty.
pub fn layers_are_patterns()
    ensures to_layers { (ts : List Tile) (g : Grid) (n : ℕ) → IsPattern ts g → g.height ≡ suc n → (q : List ℕ) × IsInLayer ts g.width n q }
    ensures to_patterns { (ts : List Tile) (w n : ℕ) (q : List ℕ) → 1 ≤ w → IsInLayer ts w n q → HasPattern ts w (suc n) }
{}

/// Where h layers of width w are exact, no valid pattern of at least that width and height exists.
pub fn exact_layers_forbid()
    ensures { (ts : List Tile) (l : Layers) → IsExact ts l → Forbids ts l }
{}

/// Layers are exact or have one first fault, and not both.
pub fn faults_are_one()
    ensures apart { (ts : List Tile) (l : Layers) (f : StripFault) → IsExact ts l → IsStripFault ts l f → ⊥ }
    ensures one { (ts : List Tile) (l : Layers) (f g : StripFault) → IsStripFault ts l f → IsStripFault ts l g → f ≡ g }
{}

/// A text is read as layers exactly where it is the text of these layers, and they are within the limits of layers and
/// of whole rows of numbers up to `MOST`.
pub fn strip_texts_are_exact()
    ensures found { (bytes : List ℕ) (l : Layers) → whole_text strip_part (lines bytes) ≡ Ok l → IsStripText l bytes }
    ensures again { (l : Layers) → HasText l → whole_text strip_part (lines (bytes_of (strip_lines l))) ≡ Ok l }
{}
