// What images are, line by line.
ghost use Rattle.std.specs.Prelude.{◌≡◌, ◌↔◌, None, length};
ghost use Rattle.wt_grid.specs.Grid.{Grid, IsGrid, lines};
ghost use Rattle.wt_grid.specs.Parts.{AllBelow};
ghost use Rattle.wt_grid.specs.Images.{IsEven};
ghost use Rattle.wt_morphism.specs.declared.image.Morphism.{Morphism};
ghost use Rattle.wt_morphism.specs.Images.{pieces, image, uneven, IsLaid};

/// No cell is uneven exactly where the images in each line have one length.
pub fn uneven_lines()
    ensures { (m : Morphism) (p : Grid) → IsGrid p → (uneven m p ≡ None) ↔ IsEven (pieces m) (lines m.axis p) }
{}

/// For q whose tiles are in the table: a rectangle is the image of q laid line by line exactly where q's lines are even
/// and it is the image of q.
pub fn images_are_images()
    ensures { (m : Morphism) (q g : Grid) → IsGrid q → IsGrid g → AllBelow (length m.table) q
        → IsLaid m q g ↔ (uneven m q ≡ None) × (g ≡ image m q) }
{}
