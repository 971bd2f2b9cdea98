//! Whether half-planes meet: those of the box and a zone, of a region, and of a region moved back.
ghost use Rattle.std.specs.Prelude.{◌≡◌, ◌++◌, true};
ghost use Rattle.std.specs.List.{list_all};
ghost use Rattle.wt_plane.specs.Regions as regions;
ghost use Rattle.wt_induce.specs.Faults.{is_small_half, moved_back};
ghost use Rattle.wt_induce.specs.Induced as induced;
ghost use Rattle.wt_markov.specs.Follow as follow;

use crate::moved::moved_within;
use wt_golden::Golden;
use wt_grid::Axis;
use wt_plane::{HalfPlane, clash, clash_with};

// Whether f and g clash with one of these, moved back.
fn clash_with_moved(
    f: &HalfPlane,
    g: &HalfPlane,
    axis: Axis,
    change: Golden,
    back: &[HalfPlane],
) -> bool
    requires { list_all is_small_half (moved_back axis change back.now) ≡ true }
    ensures { result ≡ regions.clash_with f.now g.now (moved_back axis change back.now) }
{
    for h in back {
        if clash(f, g, &moved_within(axis, change, h)) {
            return true;
        }
    }
    false
}

// Whether f and g clash with one of all.
#[tactic(auto, using(crate::proofs::Chunks::with_three))]
fn clash_with_all(
    f: &HalfPlane,
    g: &HalfPlane,
    first: &[HalfPlane],
    second: &[HalfPlane],
    axis: Axis,
    change: Golden,
    back: &[HalfPlane],
) -> bool
    requires { list_all is_small_half (moved_back axis change back.now) ≡ true }
    ensures { result ≡ regions.clash_with f.now g.now (first.now ++ (second.now ++ moved_back axis change back.now)) }
{
    clash_with(f, g, first)
        || clash_with(f, g, second)
        || clash_with_moved(f, g, axis, change, back)
}

// Whether f clashes with two of these, moved back.
fn clash_two_moved(f: &HalfPlane, axis: Axis, change: Golden, back: &[HalfPlane]) -> bool
    requires { list_all is_small_half (moved_back axis change back.now) ≡ true }
    ensures { result ≡ regions.clash_with_two f.now (moved_back axis change back.now) }
{
    for i in 0..back.len() {
        let g = moved_within(axis, change, &back[i]);
        if clash_with_moved(f, &g, axis, change, &back[i..]) {
            return true;
        }
    }
    false
}

fn clash_two_last(
    f: &HalfPlane,
    second: &[HalfPlane],
    axis: Axis,
    change: Golden,
    back: &[HalfPlane],
) -> bool
    requires { list_all is_small_half (moved_back axis change back.now) ≡ true }
    ensures { result ≡ regions.clash_with_two f.now (second.now ++ moved_back axis change back.now) }
{
    for i in 0..second.len() {
        if clash_with_all(f, &second[i], &[], &second[i..], axis, change, back) {
            return true;
        }
    }
    clash_two_moved(f, axis, change, back)
}

fn clash_two_all(
    f: &HalfPlane,
    first: &[HalfPlane],
    second: &[HalfPlane],
    axis: Axis,
    change: Golden,
    back: &[HalfPlane],
) -> bool
    requires { list_all is_small_half (moved_back axis change back.now) ≡ true }
    ensures { result ≡ regions.clash_with_two f.now (first.now ++ (second.now ++ moved_back axis change back.now)) }
{
    for i in 0..first.len() {
        if clash_with_all(f, &first[i], &first[i..], second, axis, change, back) {
            return true;
        }
    }
    clash_two_last(f, second, axis, change, back)
}

fn clash_moved(axis: Axis, change: Golden, back: &[HalfPlane]) -> bool
    requires { list_all is_small_half (moved_back axis change back.now) ≡ true }
    ensures { result ≡ induced.some_clash (moved_back axis change back.now) }
{
    for i in 0..back.len() {
        let f = moved_within(axis, change, &back[i]);
        if clash_two_moved(&f, axis, change, &back[i..]) {
            return true;
        }
    }
    false
}

fn clash_last(second: &[HalfPlane], axis: Axis, change: Golden, back: &[HalfPlane]) -> bool
    requires { list_all is_small_half (moved_back axis change back.now) ≡ true }
    ensures { result ≡ induced.some_clash (second.now ++ moved_back axis change back.now) }
{
    for i in 0..second.len() {
        if clash_two_last(&second[i], &second[i..], axis, change, back) {
            return true;
        }
    }
    clash_moved(axis, change, back)
}

/// Whether the half-planes of the first two lists, and those of the last moved back, meet.
pub(crate) fn meets(
    first: &[HalfPlane],
    second: &[HalfPlane],
    axis: Axis,
    change: Golden,
    back: &[HalfPlane],
) -> bool
    requires { list_all is_small_half (moved_back axis change back.now) ≡ true }
    ensures { result ≡ follow.meets (first.now ++ (second.now ++ moved_back axis change back.now)) }
{
    for i in 0..first.len() {
        if clash_two_all(&first[i], &first[i..], second, axis, change, back) {
            return false;
        }
    }
    !clash_last(second, axis, change, back)
}
