//! The step of a level.
ghost use Rattle.std.specs.Prelude.{◌≡◌, ◌⊎◌, ◌<◌, ◌≤◌, length, map, option_map, slice_get, Contains, IfOk, IfErr, Ok, Err, List};
ghost use Rattle.wt_grid.specs.declared.axis.Axis.TheVariants.{One, Two};
ghost use Rattle.wt_window.specs.Surrounded.{surroundable, allowed};
ghost use Rattle.wt_window.specs.Outcomes.{HasNoMatch};
ghost use Rattle.wt_marker.specs.Classes.{kept_on};
ghost use Rattle.wt_marker.specs.Derived.{plan_by};
ghost use Rattle.wt_search.specs.declared.end.SearchEnd.TheVariants as ends;
ghost use Rattle.wt_search.specs.Asked.{turn_axis, asked, planned_step, step_at, IsSpent, HasNoMatches, EndsAtZero, EndsAs, MayEndTable, MayEndLevel};
ghost use Rattle.wt_search.specs.Asked as spec;

use crate::SearchEnd;
use std::alloc::Global;
use wt_marker::{DeriveEnd, derive_step, marker_classes};
use wt_step::Step;
use wt_tile::{Axis, SetRef, Side};
use wt_window::{DominoTable, TableEnd, dominoes};

/// The axis of a level.
fn axis_of(axes: &[Axis], level: usize) -> Axis
    requires { 0 < length axes.now }
    ensures { result ≡ turn_axis axes.now level }
{
    axes[level % axes.len()]
}

/// Why no step is derived, told with the level.
fn at_level(level: usize, end: DeriveEnd) -> SearchEnd
    ensures { result ≡ spec.at_level level end }
{
    match end {
        DeriveEnd::EmptySet => SearchEnd::EmptySet { level },
        DeriveEnd::TooManyTiles => SearchEnd::TooManyTiles { level },
        DeriveEnd::Repeated {
            first: _,
            second: _,
        } => SearchEnd::Repeated { level },
        DeriveEnd::Spent { axis, a, b } => SearchEnd::Spent { level, axis, a, b },
        DeriveEnd::TooManyNodes => SearchEnd::TooManyNodes { level },
        DeriveEnd::OutOfMemory => SearchEnd::OutOfMemory,
    }
}

/// The dominoes of an axis at a level.
fn table_at(
    alloc: Global,
    set: SetRef<'_>,
    axis: Axis,
    radius: u8,
    budget: u64,
    level: usize,
) -> Result<DominoTable, SearchEnd>
    requires { radius ≤ 4 }
    ensures table { IfOk result (λ t. allowed t ≡ surroundable set.entry.list.now.tiles axis radius) }
    ensures none { IfOk result (λ t. budget ≡ 0 → HasNoMatch set.entry.list.now.tiles axis) }
    ensures end { IfErr result (MayEndTable set.entry.list.now.tiles axis radius budget level) }
{
    match dominoes(alloc, set, axis, radius, budget) {
        Ok(table) => Ok(table),
        Err(TableEnd::Spent { a, b }) => Err(SearchEnd::Spent { level, axis, a, b }),
        Err(TableEnd::OutOfMemory) => Err(SearchEnd::OutOfMemory),
    }
}

/// The dominoes of both axes at a level, axis 1 first.
fn tables_at(
    alloc: Global,
    set: SetRef<'_>,
    radius: u8,
    budget: u64,
    level: usize,
) -> Result<(DominoTable, DominoTable), SearchEnd>
    requires { radius ≤ 4 }
    ensures one { IfOk result (λ t. allowed t.0 ≡ surroundable set.entry.list.now.tiles One radius) }
    ensures two { IfOk result (λ t. allowed t.1 ≡ surroundable set.entry.list.now.tiles Two radius) }
    ensures none { IfOk result (λ t. budget ≡ 0 → HasNoMatches set.entry.list.now.tiles) }
    ensures end { IfErr result (λ e. (e ≡ ends.OutOfMemory) ⊎ IsSpent set.entry.list.now.tiles radius budget level e) }
{
    match table_at(alloc, set, Axis::One, radius, budget, level) {
        Err(end) => Err(end),
        Ok(one) => match table_at(alloc, set, Axis::Two, radius, budget, level) {
            Err(end) => Err(end),
            Ok(two) => Ok((one, two)),
        },
    }
}

/// The step of a class of markers, or why there is none.
fn step_of(
    alloc: Global,
    set: SetRef<'_>,
    axis: Axis,
    side: Side,
    radius: u8,
    class: &[u16],
    one: &DominoTable,
    two: &DominoTable,
    budget: u64,
    level: usize,
) -> Result<Step, SearchEnd>
    requires radius { radius ≤ 4 }
    requires one { allowed one.now ≡ surroundable set.list.now.tiles One radius }
    requires two { allowed two.now ≡ surroundable set.list.now.tiles Two radius }
    requires kept { Contains (kept_on (length set.list.now.tiles) axis (allowed one.now) (allowed two.now)) class.now }
    ensures ok { IfOk result (λ step. planned_step level budget (plan_by set.entry.list.now axis side radius class.now one.now two.now) ≡ Ok step) }
    ensures err { IfErr result (EndsAs (planned_step level budget (plan_by set.entry.list.now axis side radius class.now one.now two.now))) }
{
    match derive_step(alloc, set, axis, side, radius, class, one, two, budget) {
        Ok(step) => Ok(step),
        Err(end) => Err(at_level(level, end)),
    }
}

fn first_class(classes: &[Vec<u16>]) -> Option<&[u16]>
    ensures { option_map (λ class. class.now) result ≡ slice_get (map (λ class. class.items) classes.now) 0 }
{
    match classes {
        [] => None,
        [class, ..] => Some(class),
    }
}

/// The step that takes apart the set of a level: that of the first kept class of the level's axis.
pub fn level_step(
    alloc: Global,
    set: SetRef<'_>,
    axes: &[Axis],
    side: Side,
    radius: u8,
    budget: u64,
    level: usize,
) -> Result<Step, SearchEnd>
    requires some { 0 < length axes.now }
    requires radius { radius ≤ 4 }
    ensures ok { IfOk result (λ step. step_at (asked axes.now side radius budget) level set.entry.list.now ≡ Ok step) }
    ensures err { IfErr result (MayEndLevel (asked axes.now side radius budget) level set.entry.list.now) }
    ensures at_zero { EndsAtZero set.entry.list.now.tiles radius budget level result }
{
    let axis = axis_of(axes, level);
    let (one, two) = match tables_at(alloc, set, radius, budget, level) {
        Ok(tables) => tables,
        Err(end) => return Err(end),
    };
    let Ok(classes) = marker_classes(alloc, set, axis, &one, &two) else {
        return Err(SearchEnd::OutOfMemory);
    };
    match first_class(&classes) {
        None => Err(SearchEnd::NoMarker { level }),
        Some(class) => step_of(
            alloc, set, axis, side, radius, class, &one, &two, budget, level,
        ),
    }
}
