//! What partitions say of the codes of their points, and of how steps take these apart.
ghost use Rattle.std.specs.Prelude.{◌≡◌, None, List};
ghost use Rattle.wt_plane.specs.HalfPlanes.{Spot, IsSpot};
ghost use Rattle.wt_grid.specs.Grid.{Grid};
ghost use Rattle.wt_pattern.specs.Patterns.{IsPattern};
ghost use Rattle.wt_tile.specs.declared.tile.Tile.{Tile};
ghost use Rattle.wt_torus.specs.declared.partition.Partition.{Partition};
ghost use Rattle.wt_torus.specs.Codes.{IsCode};
ghost use Rattle.wt_torus.specs.Sound.{IsSound};
ghost use Rattle.wt_step.specs.declared.raw.RawStep.{RawStep};
ghost use Rattle.wt_markov.specs.Markov.{Markov};
ghost use Rattle.wt_markov.specs.Agree.{Agrees};
ghost use Rattle.wt_markov.specs.Faults.{AllTurnsFit, markov_fault};
ghost use Rattle.wt_markov.specs.WindowFaults.{EdgesFit, window_fault};
ghost use Rattle.wt_markov.specs.Law.{IsCodeFor, IsMadeOf, MakesAgreeing, BlocksAreReturns, MarksWindow};

use wt_step::cuts_are_the_border_lines;

/// Where Markov holds for a tile set, every code that is defined is a valid pattern over it.
pub fn codes_are_valid()
    ensures { (ts : List Tile) (p : Partition) → IsSound p → Markov ts p
        → (z : Spot) → IsSpot z → (g : Grid) → IsCode p z g → IsPattern ts g }
{}

/// Where further MarkerWindow holds, for a good step of side after over that set, the coarse pattern that the
/// step makes of a code has, at each block where the induced code is defined, the coarse tile whose image is
/// the image of the induced letter.
pub fn codes_agree()
    ensures some { (s : RawStep) (p : Partition) (z : Spot) (g : Grid) → IsCodeFor s p z g
        → Markov s.fine.tiles p → MakesAgreeing s p z g }
    ensures all { (s : RawStep) (p : Partition) (z : Spot) (g q : Grid) → IsCodeFor s p z g
        → IsMadeOf s g q → Agrees s p z g q }
{
    cuts_are_the_border_lines();
}

/// There the blocks are the returns to the window: from the point at which the first block begins, the first k
/// returns fill as many lines as the first k blocks.
pub fn blocks_are_returns()
    ensures { (s : RawStep) (p : Partition) (z : Spot) (g q : Grid) → IsCodeFor s p z g
        → IsMadeOf s g q → BlocksAreReturns s p z g q }
{
    cuts_are_the_border_lines();
}

/// A partition has no fault for a tile set exactly where Markov holds for it and all half-planes that are asked are within
/// the limit.
pub fn no_fault_is_markov()
    ensures holds { (ts : List Tile) (p : Partition) → markov_fault ts p ≡ None → Markov ts p × AllTurnsFit p }
    ensures back { (ts : List Tile) (p : Partition) → Markov ts p → AllTurnsFit p → markov_fault ts p ≡ None }
{}

/// A partition has no fault for a step exactly where the step's side is after, twice the move isn't the length, MarkerWindow
/// holds, and both sides of the window's edge are within the limit or there is no region.
pub fn no_fault_is_window()
    ensures holds { (s : RawStep) (p : Partition) → window_fault s p ≡ None → MarksWindow s p × EdgesFit s p }
    ensures back { (s : RawStep) (p : Partition) → MarksWindow s p → EdgesFit s p → window_fault s p ≡ None }
{}
