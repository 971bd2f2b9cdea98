//! The window of an axis and its two zones.
ghost use Rattle.std.specs.Prelude.{◌≡◌, ◌^◌, ◌&&◌, ◌≤◌, true, false, Some, MatchResult};
ghost use Rattle.std.specs.List.{list_all};
ghost use Rattle.wt_golden.specs.Whole.{whole, times};
ghost use Rattle.wt_golden.specs.Whole as whole_words;
ghost use Rattle.wt_golden.specs.Wide.{number};
ghost use Rattle.wt_golden.specs.Sizes.{IsBelow};
ghost use Rattle.wt_golden.specs.Fractions.{IsGolden, lowest};
ghost use Rattle.wt_golden.specs.Fractions as fractions;
ghost use Rattle.wt_plane.specs.HalfPlanes.{reduced_half};
ghost use Rattle.wt_torus.specs.Boxes as boxes;
ghost use Rattle.wt_torus.specs.Codes.{is_within};
ghost use Rattle.wt_induce.specs.Faults.{is_small_half, window_fits, zones_fault, zones_fit};
ghost use Rattle.wt_induce.specs.Zones.{twice, low_frame, high_frame, frame_on, zero_fraction};
ghost use Rattle.wt_induce.specs.Zones as words;
ghost use Rattle.wt_induce.specs.Kept.{AreZones, IsZonesWithin};
ghost use Rattle.wt_induce.specs.Law as law;
ghost use Rattle.wt_grid.specs.Answers.{GivesWhere};

use crate::InduceFault;
use wt_golden::{Golden, Parts, TooLarge, Wide};
use wt_grid::Axis;
use wt_plane::HalfPlane;
use wt_torus::{Torus, is_positive};

const ZERO: Wide = Wide { a: 0, b: 0 };

/// The window on an axis: the coordinates from 0 on and below its size, and the rotation that first returns make on it.
#[derive(Clone, Copy)]
pub(crate) struct Frame {
    /// Its coordinates are below this.
    pub size: Golden,
    /// The move of its rotation.
    pub step: Golden,
    /// The bound between the coordinates that return after one turn and those that return after two.
    pub bound: Golden,
    /// Whether those below the bound return after one.
    pub single_below: bool,
}

/// The window of an axis and the half-planes of its zones: of single returns, and of double ones.
#[derive(Clone, Copy)]
pub(crate) struct Zones {
    pub frame: Frame,
    pub single: [HalfPlane; 2],
    pub double: [HalfPlane; 2],
}

/// The side of the box along an axis.
pub fn length_of(axis: Axis, torus: &Torus) -> Golden
    ensures value { result ≡ boxes.length_of axis torus.now }
    ensures golden { IsGolden result }
{
    torus.torus();
    match axis {
        Axis::One => torus.width(),
        Axis::Two => torus.height(),
    }
}

/// The move along an axis.
pub fn move_of(axis: Axis, torus: &Torus) -> Golden
    ensures value { result ≡ boxes.move_of axis torus.now }
    ensures golden { IsGolden result }
{
    torus.torus();
    match axis {
        Axis::One => torus.move1(),
        Axis::Two => torus.move2(),
    }
}

// The numerator of twice a number.
#[tactic(auto, unfolding(wt_golden::specs::Fractions::sum))]
fn twice_top(f: Golden) -> Wide
    ensures value { number result ≡ fractions.top (twice f) }
    ensures small { IsBelow (number result) (2 ^ 61) }
{
    let once = f.top().times(f.bottom());
    once.plus(once)
}

// Its denominator.
#[tactic(auto, unfolding(wt_golden::specs::Fractions::sum))]
fn twice_bottom(f: Golden) -> Wide
    ensures value { number result ≡ whole (twice f).d }
    ensures small { IsBelow (number result) (2 ^ 60) }
{
    f.bottom().times(f.bottom())
}

// The length, over the denominators of both.
fn length_side(length: Golden, step: Golden) -> Wide
    ensures value { number result ≡ times (fractions.top length) (whole (twice step).d) }
    ensures small { IsBelow (number result) (2 ^ 92) }
{
    length.top().times(twice_bottom(step))
}

// Twice the move, over the denominators of both.
fn move_side(length: Golden, step: Golden) -> Wide
    ensures value { number result ≡ times (fractions.top (twice step)) (whole length.d) }
    ensures small { IsBelow (number result) (2 ^ 92) }
{
    twice_top(step).times(length.bottom())
}

// Whether x is above y.
fn is_above(x: Wide, y: Wide) -> bool
    requires x { IsBelow (number x) (2 ^ 92) }
    requires y { IsBelow (number y) (2 ^ 92) }
    ensures { result ≡ whole_words.is_positive (whole_words.minus (number x) (number y)) }
{
    is_positive(x.minus(y))
}

/// Whether twice the move is less than the length. Takes no memory.
pub fn is_less_than_half(length: Golden, step: Golden) -> bool
    ensures { result ≡ boxes.is_below (fractions.top (twice step)) (twice step).d length }
{
    is_above(length_side(length, step), move_side(length, step))
}

// Whether twice the move is more than the length.
fn is_more_than_half(length: Golden, step: Golden) -> bool
    ensures { result ≡ boxes.is_below (fractions.top length) length.d (twice step) }
{
    is_above(move_side(length, step), length_side(length, step))
}

/// The difference of two numbers, or that it is out of limit. Takes no memory.
pub fn difference(f: Golden, g: Golden) -> Result<Golden, TooLarge>
    ensures { GivesWhere result (lowest (fractions.difference f g)) is_within }
{
    f.sub(g)
}

// The window for a move of less than half of the length.
fn frame_below(length: Golden, step: Golden) -> Result<Frame, TooLarge>
    ensures { GivesWhere result (low_frame length step) window_fits }
{
    step.golden();
    let rest = difference(length, step)?;
    let bound = difference(rest, step)?;
    Ok(Frame {
        size: rest,
        step,
        bound,
        single_below: true,
    })
}

// The window for a move of more than half of the length.
fn frame_above(length: Golden, step: Golden) -> Result<Frame, TooLarge>
    ensures { GivesWhere result (high_frame length step) window_fits }
{
    step.golden();
    let rest = difference(length, step)?;
    let left = difference(step, rest)?;
    Ok(Frame {
        size: step,
        step: left,
        bound: rest,
        single_below: false,
    })
}

fn frame_of(length: Golden, step: Golden) -> Result<Frame, TooLarge>
    ensures { GivesWhere result (words.frame length step) window_fits }
{
    if is_less_than_half(length, step) {
        frame_below(length, step)
    } else {
        frame_above(length, step)
    }
}

/// The number 0.
#[tactic(auto, unfolding(wt_golden::specs::Fractions::lowest, wt_golden::specs::Fractions::gcd))]
pub fn zero() -> Golden
    ensures { result ≡ zero_fraction }
{
    Golden::kept(Parts { a: 0, b: 0, d: 1 })
}

#[tactic(auto, unfolding(wt_golden::specs::Whole::opposite))]
fn opposite_top(f: Golden) -> Wide
    ensures value { number result ≡ whole_words.opposite (fractions.top f) }
    ensures small { IsBelow (number result) (2 ^ 126) }
{
    let top = f.top();
    Wide {
        a: -top.a,
        b: -top.b,
    }
}

/// The half-plane of the coordinates along the axis beyond f, or that a number is out of limit. Takes no memory.
pub fn beyond(axis: Axis, f: Golden) -> Result<HalfPlane, TooLarge>
    ensures { GivesWhere result (reduced_half (words.beyond axis f)) is_small_half }
{
    match axis {
        Axis::One => HalfPlane::of(f.bottom(), ZERO, opposite_top(f)),
        Axis::Two => HalfPlane::of(ZERO, f.bottom(), opposite_top(f)),
    }
}

/// The half-plane of the coordinates along the axis beneath f, or that a number is out of limit. Takes no memory.
pub fn beneath(axis: Axis, f: Golden) -> Result<HalfPlane, TooLarge>
    ensures { GivesWhere result (reduced_half (words.beneath axis f)) is_small_half }
{
    match axis {
        Axis::One => HalfPlane::of(f.bottom().opposite(), ZERO, f.top()),
        Axis::Two => HalfPlane::of(ZERO, f.bottom().opposite(), f.top()),
    }
}

/// The two half-planes of the coordinates along the axis from low to high, or that a number is out of limit. Takes no
/// memory.
pub fn between(axis: Axis, low: Golden, high: Golden) -> Result<[HalfPlane; 2], TooLarge>
    ensures { GivesWhere result (words.between axis low high) (list_all is_small_half) }
{
    let first = beyond(axis, low)?;
    let last = beneath(axis, high)?;
    Ok([first, last])
}

fn zone(axis: Axis, w: &Frame, below: bool) -> Result<[HalfPlane; 2], TooLarge>
    ensures { GivesWhere result (words.zone axis w.now below) (list_all is_small_half) }
{
    if below {
        between(axis, zero(), w.bound)
    } else {
        between(axis, w.bound, w.size)
    }
}

fn both_zones(axis: Axis, w: Frame) -> Result<Zones, TooLarge>
    ensures { MatchResult result (AreZones axis w) (λ _. zones_fit axis w ≡ false) }
{
    let low = zone(axis, &w, true)?;
    let high = zone(axis, &w, false)?;
    if w.single_below {
        Ok(Zones {
            frame: w,
            single: low,
            double: high,
        })
    } else {
        Ok(Zones {
            frame: w,
            single: high,
            double: low,
        })
    }
}

/// Whether twice the move along an axis is the length. Takes no memory.
pub fn is_half(axis: Axis, torus: &Torus) -> bool
    ensures { result ≡ law.is_half axis torus.now }
{
    let length = length_of(axis, torus);
    let step = move_of(axis, torus);
    !is_less_than_half(length, step) && !is_more_than_half(length, step)
}

/// The window and the zones of an axis, or why they can't be had: `Half`, then `TooLarge`.
pub(crate) fn zones_on(axis: Axis, torus: &Torus) -> Result<Zones, InduceFault>
    ensures { MatchResult result (IsZonesWithin axis torus.now) (λ e. zones_fault axis torus.now ≡ Some e) }
{
    if is_half(axis, torus) {
        return Err(InduceFault::Half);
    }
    let Ok(w) = frame_of(length_of(axis, torus), move_of(axis, torus)) else {
        return Err(InduceFault::TooLarge);
    };
    match both_zones(axis, w) {
        Ok(z) => Ok(z),
        Err(_) => Err(InduceFault::TooLarge),
    }
}
