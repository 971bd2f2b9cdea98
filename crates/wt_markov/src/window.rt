//! Whether the markers of a step are the labels beyond the window of its axis.
ghost use Rattle.std.specs.Prelude.{◌≡◌, ◌<◌, ◌&&◌, ◌++◌, true, false, nat_eq, None, Some, length, IfOk};
ghost use Rattle.std.specs.List.{list_any};
ghost use Rattle.wt_grid.specs.First.{or_else};
ghost use Rattle.wt_grid.specs.Order.{first_in};
ghost use Rattle.wt_step.specs.Words as step_words;
ghost use Rattle.wt_markov.specs.Follow as follow;
ghost use Rattle.wt_markov.specs.Turns.{IsEdges};
ghost use Rattle.wt_markov.specs.WindowFaults as faults;
ghost use Rattle.wt_grid.specs.Answers.{FailsBy};
ghost use Rattle.wt_markov.specs.Law.{MarksWindow};

use crate::WindowFault;
use crate::edges::{Edges, edges_on, meets_side};
use crate::pairs::region;
use wt_grid::{Axis, Side, is_among};
use wt_induce::is_half;
use wt_plane::HalfPlane;
use wt_step::{RawStep, StepRef};
use wt_torus::{Labelled, Partition, Torus};

fn side_fault(side: Side) -> Option<WindowFault>
    ensures { result ≡ faults.side_fault side }
{
    match side {
        Side::After => None,
        Side::Before => Some(WindowFault::Side),
    }
}

fn half_fault(axis: Axis, torus: &Torus) -> Option<WindowFault>
    ensures { result ≡ faults.half_fault axis torus.now }
{
    if is_half(axis, torus) {
        Some(WindowFault::Half)
    } else {
        None
    }
}

fn is_marker(raw: &RawStep, a: u16) -> bool
    ensures { result ≡ step_words.is_marker raw.now a }
{
    is_among(a, raw.markers.as_slice())
}

fn label_fault(region: usize, beyond: bool, inside: bool, marked: bool) -> Option<WindowFault>
    ensures { result ≡ faults.label_fault region beyond inside marked }
{
    if beyond && !marked {
        Some(WindowFault::Outside { region })
    } else if inside && marked {
        Some(WindowFault::Inside { region })
    } else {
        None
    }
}

// The fault of region i, where both sides of the edge are within the limit.
fn window_fault_at(raw: &RawStep, edges: &Edges, p: &Partition, i: usize) -> Option<WindowFault>
    requires edges { IsEdges raw.now.axis p.now.torus edges.now }
    requires fit { faults.edges_fit raw.now.axis p.now.torus ≡ true }
    requires i { i < length p.now.regions }
    ensures { result ≡ faults.window_fault_at raw.now p.now i }
{
    let q = region(p, i);
    let beyond = meets_side(&edges.beyond, q);
    let inside = meets_side(&edges.inside, q);
    let marked = is_marker(raw, q.label);
    label_fault(i, beyond, inside, marked)
}

#[tactic(auto, using(wt_grid::proofs::First::first_more))]
fn regions_fault(raw: &RawStep, edges: &Edges, p: &Partition) -> Option<WindowFault>
    requires edges { IsEdges raw.now.axis p.now.torus edges.now }
    requires fit { faults.edges_fit raw.now.axis p.now.torus ≡ true }
    ensures { result ≡ faults.regions_fault raw.now p.now }
{
    for i in 0..p.regions.as_slice().len() {
        if let Some(fault) = window_fault_at(raw, edges, p, i) {
            return Some(fault);
        }
    }
    None
}

// Whether a region on this side has the label.
fn has_label(side: &[HalfPlane], label: u16, regions: &[Labelled]) -> bool
    ensures { result ≡ list_any (λ q. nat_eq q.label label && follow.meets (q.region.planes ++ side.now)) regions.now }
{
    for q in regions {
        if q.label == label && meets_side(side, q) {
            return true;
        }
    }
    false
}

fn nowhere_at(raw: &RawStep, edges: &Edges, p: &Partition, marker: u16) -> Option<WindowFault>
    requires { IsEdges raw.now.axis p.now.torus edges.now }
    ensures { result ≡ faults.nowhere_at raw.now p.now marker }
{
    if has_label(&edges.beyond, marker, p.regions.as_slice()) {
        None
    } else {
        Some(WindowFault::Nowhere { marker })
    }
}

// The first marker that labels no region beyond the edge.
fn nowhere(raw: &RawStep, edges: &Edges, p: &Partition) -> Option<WindowFault>
    requires { IsEdges raw.now.axis p.now.torus edges.now }
    ensures { result ≡ first_in (faults.nowhere_at raw.now p.now) raw.now.markers }
{
    for marker in raw.markers.as_slice() {
        if let Some(fault) = nowhere_at(raw, edges, p, *marker) {
            return Some(fault);
        }
    }
    None
}

// The fault of the regions, then of the markers.
fn edges_fault(raw: &RawStep, edges: &Edges, p: &Partition) -> Option<WindowFault>
    requires edges { IsEdges raw.now.axis p.now.torus edges.now }
    requires fit { faults.edges_fit raw.now.axis p.now.torus ≡ true }
    ensures { result ≡ or_else (faults.regions_fault raw.now p.now)
        (first_in (faults.nowhere_at raw.now p.now) raw.now.markers) }
{
    match regions_fault(raw, edges, p) {
        Some(fault) => Some(fault),
        None => nowhere(raw, edges, p),
    }
}

fn first_marker(raw: &RawStep) -> Option<WindowFault>
    ensures { result ≡ first_in (λ a. Some (WindowFault.Nowhere a)) raw.now.markers }
{
    match raw.markers.as_slice().first() {
        Some(marker) => Some(WindowFault::Nowhere { marker: *marker }),
        None => None,
    }
}

// The same where a number of the edge is out of limit: without a region nothing is asked of it.
#[tactic(auto, using(crate::proofs::Edged::unfit, crate::proofs::Edged::no_regions))]
fn unfit_fault(raw: &RawStep, p: &Partition) -> Option<WindowFault>
    requires unfit { faults.edges_fit raw.now.axis p.now.torus ≡ false }
    ensures { result ≡ or_else (faults.regions_fault raw.now p.now)
        (first_in (faults.nowhere_at raw.now p.now) raw.now.markers) }
{
    if p.regions.as_slice().is_empty() {
        first_marker(raw)
    } else {
        Some(WindowFault::TooLarge)
    }
}

// What is found wrong at the regions and the markers.
fn found_fault(raw: &RawStep, p: &Partition) -> Option<WindowFault>
    ensures { result ≡ or_else (faults.regions_fault raw.now p.now)
        (first_in (faults.nowhere_at raw.now p.now) raw.now.markers) }
{
    match edges_on(raw.axis, &p.torus) {
        Ok(edges) => edges_fault(raw, &edges, p),
        Err(_) => unfit_fault(raw, p),
    }
}

#[tactic(auto, unfolding(crate::specs::WindowFaults::window_fault))]
fn window_fault(raw: &RawStep, p: &Partition) -> Option<WindowFault>
    ensures { result ≡ faults.window_fault raw.now p.now }
{
    if let Some(fault) = side_fault(raw.side) {
        return Some(fault);
    }
    if let Some(fault) = half_fault(raw.axis, &p.torus) {
        return Some(fault);
    }
    found_fault(raw, p)
}

/// Whether the markers of a step of side after are just the labels beyond the window of its axis: each region that has points
/// of the box beyond the window's edge is labelled with a marker, none that has points inside it is, and each marker labels a
/// region beyond it. Else the first fault: `Side` exactly where the step's side is before; `Half` exactly where twice the
/// move is the length; then at the first region that has one `TooLarge`, exactly where a half-plane of the box or of the
/// window has a number out of limit, `Outside` or `Inside`; then `Nowhere` with the first marker that labels no region
/// beyond the window. A region that meets neither side is asked nothing. Takes no memory.
pub fn marker_window(step: StepRef<'_>, p: &Partition) -> Result<(), WindowFault>
    ensures exact { FailsBy result (faults.window_fault step.entry.raw.now p.now) }
    ensures holds { IfOk result (λ _. MarksWindow step.entry.raw.now p.now) }
{
    match window_fault(step.raw, p) {
        None => Ok(()),
        Some(fault) => Err(fault),
    }
}
