// What the first faults mean, and which texts are read, as theorems: each is the contract of a function that does
// nothing.
ghost use Rattle.std.specs.Prelude.{◌≡◌, ◌≤◌, ℕ, List, length, None, Ok, ℤ, pos, neg_ℤ};
ghost use Rattle.wt_grid.specs.Axes.{other};
ghost use Rattle.wt_tile.specs.Matching.{matches};
ghost use Rattle.wt_grid.specs.declared.axis.Axis.{Axis};
ghost use Rattle.wt_grid.specs.declared.axis.Axis.TheVariants.{One, Two};
ghost use Rattle.wt_tile.specs.declared.tile.Tile.{Tile};
ghost use Rattle.wt_grid.specs.Grid.{Grid, IsGrid};
ghost use Rattle.wt_grid.specs.Grid as grid;
ghost use Rattle.wt_grid.specs.Lines.{IsField};
ghost use Rattle.wt_grid.specs.Parts.{AllBelow, IsValid, IsWindow};
ghost use Rattle.wt_grid.specs.Shifts.{IsRepeated, Repeats};
ghost use Rattle.wt_line.specs.declared.faults.What.{What};
ghost use Rattle.wt_tile.specs.declared.tile.TileList.{TileList};
ghost use Rattle.std.specs.List.{All};
ghost use Rattle.wt_tile.specs.Names.{IsName};
ghost use Rattle.wt_tile.specs.Sets as spec;
ghost use Rattle.wt_text.specs.Lines.{lines, bytes_of};
ghost use Rattle.wt_text.specs.Readers.{whole_text};
ghost use Rattle.wt_names.specs.Rows.{IsNumbered};
ghost use Rattle.wt_pattern.specs.TileRows.{tile_rows, rows_spelling, list_rows, IsListed};
ghost use Rattle.wt_pattern.specs.SetTexts.{as_numbered, RowsFit};
ghost use Rattle.wt_pattern.specs.PatternRows.{pattern_rows, pattern_lines};
ghost use Rattle.wt_pattern.specs.Texts.{IsSetText, IsPatternText, HasCellsTo};
ghost use Rattle.wt_pattern.specs.Patterns.{IsPattern};
ghost use Rattle.wt_pattern.specs.Periods.{IsPeriod, IsPeriodAlong, first_period_fault};
ghost use Rattle.wt_pattern.specs.Validity.{first_stranger, first_fault};
ghost use Rattle.wt_pattern.specs.Windows.{window_size};

use wt_line::MOST;

/// `tiles_fault` finds nothing exactly where each cell is a tile.
pub fn tiles_faults()
    ensures sound { (n : ℕ) (g : Grid) → first_stranger n g ≡ None → AllBelow n g }
    ensures complete { (n : ℕ) (g : Grid) → AllBelow n g → first_stranger n g ≡ None }
{}

/// `valid` finds nothing exactly where all neighbours match: such a rectangle of tiles is a pattern over the set.
pub fn faults()
    ensures sound { (ts : List Tile) (g : Grid) → first_fault ts g ≡ None → IsValid (matches ts) g }
    ensures complete { (ts : List Tile) (g : Grid) → IsValid (matches ts) g → first_fault ts g ≡ None }
    ensures pattern { (ts : List Tile) (g : Grid) → IsGrid g → first_stranger (length ts) g ≡ None → first_fault ts g ≡ None → IsPattern ts g }
{}

/// Validity by cells and by lines along an axis are the same.
pub fn valid_lines()
    ensures to_lines { (ts : List Tile) (axis : Axis) (g : Grid) → IsValid (matches ts) g → IsField (matches ts axis) (matches ts (other axis)) (grid.lines axis g) }
    ensures to_cells { (ts : List Tile) (axis : Axis) (g : Grid) → IsField (matches ts axis) (matches ts (other axis)) (grid.lines axis g) → IsValid (matches ts) g }
{}

/// `period_fault` finds nothing exactly where the vector is a period.
pub fn period_faults()
    ensures sound { (dx dy : ℤ) (g : Grid) → first_period_fault dx dy g ≡ None → IsPeriod g dx dy }
    ensures complete { (dx dy : ℤ) (g : Grid) → IsPeriod g dx dy → first_period_fault dx dy g ≡ None }
{}

/// A period's opposite is a period, and a period may be read along either axis.
pub fn period_turns()
    ensures opposite { (axis : Axis) (g : Grid) (d e : ℤ) → IsPeriodAlong axis g d e → IsPeriodAlong axis g (neg_ℤ d) (neg_ℤ e) }
    ensures turned { (g : Grid) (dx dy : ℤ) → IsPeriod g dx dy → IsPeriodAlong Two g dy dx }
    ensures turned_back { (g : Grid) (dx dy : ℤ) → IsPeriodAlong Two g dy dx → IsPeriod g dx dy }
{}

/// A period that goes forward along an axis, as numbers without signs: d lines on, and n cells on or back across.
pub fn signs_of_periods()
    ensures forward { (axis : Axis) (g : Grid) (d n : ℕ) → IsPeriodAlong axis g (pos d) (pos n) → IsRepeated axis d 0 n g }
    ensures back { (axis : Axis) (g : Grid) (d n : ℕ) → IsPeriodAlong axis g (pos d) (neg_ℤ (pos n)) → IsRepeated axis d n 0 g }
    ensures from_forward { (axis : Axis) (g : Grid) (d n : ℕ) → IsRepeated axis d 0 n g → IsPeriodAlong axis g (pos d) (pos n) }
    ensures from_back { (axis : Axis) (g : Grid) (d n : ℕ) → IsRepeated axis d n 0 g → IsPeriodAlong axis g (pos d) (neg_ℤ (pos n)) }
{}

/// Periods by cells and by lines along an axis are the same.
pub fn period_lines()
    ensures to_lines { (axis : Axis) (d a b : ℕ) (g : Grid) → IsRepeated axis d a b g → Repeats a b d (grid.lines axis g) }
    ensures to_cells { (axis : Axis) (d a b : ℕ) (g : Grid) → Repeats a b d (grid.lines axis g) → IsRepeated axis d a b g }
{}

/// The size that `window_shape` gives is that of each window.
pub fn window_sizes()
    ensures { (n : ℕ) (ts : List Tile) (axis : Axis) (a b r : ℕ) (g : Grid) → IsWindow n (matches ts) axis a b r g
        → (g.width ≡ (window_size axis r).0) × (g.height ≡ (window_size axis r).1) }
{}

/// A text is read as a list of tiles exactly where it is the text of that list, which has n tiles and whose
/// colours are numbered by first coming.
pub fn set_texts_are_exact()
    ensures found { (bytes : List ℕ) (n : ℕ) (list : TileList) → whole_text {W = What} (tile_rows n) (lines bytes) ≡ Ok list → IsSetText n list bytes }
    ensures again { (list : TileList) → IsListed list → whole_text {W = What} (tile_rows (length list.tiles)) (lines (bytes_of (rows_spelling list))) ≡ Ok list }
{}

/// A list of tiles has a text where its names have their form and its colours are numbered by first coming, with
/// one name for each colour and no name twice on an axis; and only there.
pub fn listed_tiles_are_numbered()
    ensures numbered { (list : TileList) → IsListed list → IsNumbered (as_numbered list) }
    ensures listed { (list : TileList) → RowsFit (list_rows list) → IsNumbered (as_numbered list) → IsListed list }
{}

/// A tile set has a text, where each name of its colours has the form of one: its colours are numbered by first
/// coming, as a text numbers them.
pub fn sets_have_texts()
    ensures { (list : TileList) → spec.set_fault list ≡ None → All IsName list.names1 → All IsName list.names2 → IsListed list }
{}

/// A text is read as a pattern of a width and a height exactly where it is the text of a rectangle of that width
/// and height whose cells are at most 65535.
pub fn pattern_texts_are_exact()
    ensures found { (bytes : List ℕ) (w h : ℕ) (g : Grid) → 1 ≤ w → 1 ≤ h → whole_text (pattern_rows w h) (lines bytes) ≡ Ok g → IsPatternText MOST w h g bytes }
    ensures again { (g : Grid) → HasCellsTo MOST g → whole_text (pattern_rows g.width g.height) (lines (bytes_of (pattern_lines g))) ≡ Ok g }
{}
