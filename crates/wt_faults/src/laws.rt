// The laws of faults and of inputs: each is the contract of a function that does nothing.
ghost use Rattle.std.specs.Prelude.{◌≡◌, ◌≤◌, ℕ, List, Ok};
ghost use Rattle.wt_grid.specs.Grid.{Grid};
ghost use Rattle.wt_line.specs.declared.faults.What.{What};
ghost use Rattle.wt_text.specs.Lines.{lines, bytes_of};
ghost use Rattle.wt_text.specs.Readers.{both_parts, whole_text};
ghost use Rattle.wt_pattern.specs.TileRows.{tile_rows};
ghost use Rattle.wt_pattern.specs.PatternRows.{pattern_rows, pattern_part};
ghost use Rattle.wt_chain.specs.declared.raw.RawChain.{RawChain};
ghost use Rattle.wt_cert.specs.Parts.{cert_part};
ghost use Rattle.wt_faults.specs.Meaning.{HasFaultsOf};
ghost use Rattle.wt_faults.specs.Rows.{set_grammar, rows_grammar, pattern_grammar};
ghost use Rattle.wt_faults.specs.Certificates.{certificate_grammar, desub_grammar};
ghost use Rattle.wt_faults.specs.Inputs.{shaped_lines, HasShapedText, desub_lines, HasDesubText};

/// A text is read as a pattern with its width and height exactly where it is the text of that pattern, and the
/// pattern has one.
pub fn pattern_inputs_are_exact()
    ensures found { (bytes : List ℕ) (g : Grid) → whole_text pattern_part (lines bytes) ≡ Ok g
        → (bytes ≡ bytes_of (shaped_lines g)) × HasShapedText g }
    ensures again { (g : Grid) → HasShapedText g → whole_text pattern_part (lines (bytes_of (shaped_lines g))) ≡ Ok g }
{}

/// A text is read as the input of `desub` exactly where it is the certificate of that chain with the text of that
/// pattern behind it, and both have one.
pub fn desub_inputs_are_exact()
    ensures found { (bytes : List ℕ) (x : RawChain × Grid) → whole_text (both_parts cert_part pattern_part) (lines bytes) ≡ Ok x
        → (bytes ≡ bytes_of (desub_lines x)) × HasDesubText x }
    ensures again { (x : RawChain × Grid) → HasDesubText x
        → whole_text (both_parts cert_part pattern_part) (lines (bytes_of (desub_lines x))) ≡ Ok x }
{}

/// The fault of a tile set's text is the first one that its grammar has, and each such fault is told.
pub fn row_faults()
    ensures { (n : ℕ) → HasFaultsOf (set_grammar n) (whole_text {W = What} (tile_rows n)) }
{}

/// The fault of a pattern's text is the first one that its grammar has, and each such fault is told; without the line
/// of its width and height, and with it.
pub fn pattern_faults()
    ensures rows { (w h : ℕ) → 1 ≤ w → HasFaultsOf (rows_grammar w h) (whole_text (pattern_rows w h)) }
    ensures shaped { HasFaultsOf pattern_grammar (whole_text pattern_part) }
{}

/// The fault of a certificate is the first one that its grammar has, and each such fault is told.
pub fn certificate_faults()
    ensures { HasFaultsOf certificate_grammar (whole_text cert_part) }
{}

/// The fault of an input of `desub` is the first one that the grammar of both its texts has, and each such fault is
/// told.
pub fn desub_faults()
    ensures { HasFaultsOf desub_grammar (whole_text (both_parts cert_part pattern_part)) }
{}
