// What good steps are, and what they make of valid rectangles.
ghost use Rattle.std.specs.Prelude.{◌≡◌, ◌≤◌, None, true};
ghost use Rattle.wt_grid.specs.Grid.{Grid, IsGrid};
ghost use Rattle.wt_grid.specs.Parts.{core, IsValid};
ghost use Rattle.wt_pattern.specs.Patterns.{IsPattern};
ghost use Rattle.wt_step.specs.declared.raw.RawStep.{RawStep};
ghost use Rattle.wt_step.specs.declared.raw.RawRestrict.{RawRestrict};
ghost use Rattle.wt_step.specs.Faults as faults;
ghost use Rattle.wt_step.specs.Restrict as restrict;
ghost use Rattle.wt_step.specs.Good.{IsGoodStep, IsGoodRestrict, IsGoodLink};
ghost use Rattle.wt_step.specs.Links as links;
ghost use Rattle.wt_step.specs.declared.raw.RawLink.{RawLink};
ghost use Rattle.wt_step.specs.Meaning.{allowing, IsAllKept, IsMarkerDesubstitution, IsRestriction};
ghost use Rattle.wt_step.specs.Cores.{core_lines, core_width, HasSharedBlocks};
ghost use Rattle.wt_step.specs.declared.raw.RawLink.TheVariants.{Marker, Restrict};
ghost use Rattle.wt_step.specs.Coarse.{HasMargin, HasValidDesubstitution, has_margin, lines_with_cuts};
ghost use Rattle.wt_step.specs.Carried.{HasCarriedPeriods};

/// A marker step has no fault exactly where it is good.
pub fn good_steps()
    ensures good { (s : RawStep) → faults.step_fault s ≡ None → IsGoodStep s }
    ensures back { (s : RawStep) → IsGoodStep s → faults.step_fault s ≡ None }
{}

/// A restrict step has no fault exactly where it is good.
pub fn good_restricts()
    ensures good { (s : RawRestrict) → restrict.restrict_fault s ≡ None → IsGoodRestrict s }
    ensures back { (s : RawRestrict) → IsGoodRestrict s → restrict.restrict_fault s ≡ None }
{}

/// A step of either kind has no fault exactly where it is good.
pub fn good_links()
    ensures good { (link : RawLink) → links.link_fault link ≡ None → IsGoodLink link }
    ensures back { (link : RawLink) → IsGoodLink link → links.link_fault link ≡ None }
{}

/// In the core of a valid pattern each two neighbours are an allowed pair of the marker step, since
/// the window of every other pair that matches is empty. In the core of a restrict step each tile
/// is a kept one.
pub fn cores_are_plain()
    ensures allowed { (s : RawStep) → faults.step_fault s ≡ None → (p : Grid) → IsPattern s.fine.tiles p → IsValid (allowing s) (core s.radius p) }
    ensures kept { (s : RawRestrict) → restrict.restrict_fault s ≡ None → (p : Grid) → IsPattern s.fine.tiles p → IsAllKept s (core s.radius p) }
{}

/// The core of each valid pattern is, without border lines that no block holds, the image of exactly
/// one coarse pattern, and that is valid. Of any other coarse pattern whose image is a run of whole
/// lines of the core, each block but the one at the open end is a block of that one, at the same lines.
pub fn desubstitutes()
    ensures some { (s : RawStep) → faults.step_fault s ≡ None → (p : Grid) → IsPattern s.fine.tiles p
        → HasMargin (Marker s) p → HasValidDesubstitution (Marker s) p }
    ensures one { (s : RawStep) → faults.step_fault s ≡ None → (p q r : Grid) → 1 ≤ core_width s p
        → IsGrid q → IsGrid r → IsMarkerDesubstitution s p q → IsMarkerDesubstitution s p r → q ≡ r }
    ensures others { (s : RawStep) → faults.step_fault s ≡ None → (p q r : Grid) → 1 ≤ core_width s p → IsGrid r → IsMarkerDesubstitution s p q → HasSharedBlocks s p q r }
{}

/// The lines of a core with the margin are the first line, where it is cut, then the cut core, and then the last
/// line, where that is cut.
pub fn cuts_are_the_border_lines()
    ensures { (s : RawStep) (p : Grid) → has_margin (Marker s) p ≡ true → core_lines s p ≡ lines_with_cuts s p }
{}

/// A period of a valid pattern is a period of the coarse pattern that a good marker step makes of it, where
/// the core has three lines more along the axis than the period, and one more across. The period's part
/// along the axis is counted in blocks instead of lines.
pub fn periods_are_carried()
    ensures { (s : RawStep) → faults.step_fault s ≡ None → (p q : Grid) → IsPattern s.fine.tiles p → IsGrid q → IsMarkerDesubstitution s p q
        → HasCarriedPeriods s p q }
{}

/// The core of each valid pattern is, for a restrict step, the image of exactly one coarse pattern,
/// and that is valid.
pub fn restricts()
    ensures some { (s : RawRestrict) → restrict.restrict_fault s ≡ None → (p : Grid) → IsPattern s.fine.tiles p
        → HasMargin (Restrict s) p → HasValidDesubstitution (Restrict s) p }
    ensures one { (s : RawRestrict) → restrict.restrict_fault s ≡ None → (p q r : Grid) → 1 ≤ (core s.radius p).height
        → IsGrid q → IsGrid r → IsRestriction s p q → IsRestriction s p r → q ≡ r }
{}
