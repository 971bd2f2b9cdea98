//! What an induced partition says of the codes of the partition that it comes from.
ghost use Rattle.std.specs.Prelude.{ℕ};
ghost use Rattle.wt_grid.specs.declared.axis.Axis.{Axis};
ghost use Rattle.wt_plane.specs.HalfPlanes.{Spot};
ghost use Rattle.wt_grid.specs.Grid.{Grid};
ghost use Rattle.wt_torus.specs.declared.partition.Partition.{Partition};
ghost use Rattle.wt_induce.specs.Law.{IsCodedByBlocks, HasReturns, HasBlocks, IsInducedCode, block_code};

/// Where a point lies in the window and the induced partition has a code q there, the partition has a code on
/// the lines that q's blocks fill, and it is the image of q. Block ends are the returns to the window.
pub fn codes_are_images()
    ensures { (axis : Axis) (p : Partition) (z : Spot) → HasReturns axis p z
        → (q : Grid) → IsInducedCode axis p z q → IsCodedByBlocks axis p z q }
{}

/// Where a point lies in the window and the partition has a code g there, the induced partition has a code on
/// the blocks that end before the last line of g.
pub fn codes_have_blocks()
    ensures { (axis : Axis) (p : Partition) (z : Spot) (n : ℕ) (g : Grid) → HasBlocks axis p z n g
        → IsInducedCode axis p z (block_code axis p z n g) }
{}
