// Periods: where a pattern differs from itself, moved by a vector.
ghost use Rattle.std.specs.Prelude.{◌≡◌, ◌<◌, ◌≤◌, length};
ghost use Rattle.wt_pattern.specs.Rows.{first_place};
ghost use Rattle.wt_pattern.specs.Periods.{is_apart, first_period_fault};
ghost use Rattle.wt_pattern.specs.Periods as spec;

use crate::Pattern;
use wt_lane::first_difference;

/// n steps along a row or a column, forward or back.
#[derive(Clone, Copy)]
enum Shift {
    Forward(usize),
    Back(usize),
}

/// The first cell c in reading order that differs from the cell c + (dx, dy), where that is in the pattern;
/// None exactly where the vector is a period. Takes no memory.
#[tactic(auto, using(wt_grid::proofs::First::first_more))]
pub fn period_fault(p: &Pattern, dx: i64, dy: i64) -> Option<(usize, usize)>
    ensures { result ≡ first_period_fault dx dy p.now }
{
    let right = shift_of(dx);
    let up = shift_of(dy);
    for y in 0..p.height() {
        if let Some(place) = period_fault_in(p, right, up, y) {
            return Some(place);
        }
    }
    None
}

/// A component of a vector as a shift.
fn shift_of(component: i64) -> Shift
    ensures { result ≡ spec.shift_of component }
{
    let steps = component.unsigned_abs() as usize;
    if component < 0 {
        Shift::Back(steps)
    } else {
        Shift::Forward(steps)
    }
}

/// Where a shift takes the place at of len, if that is inside.
fn shifted(shift: Shift, len: usize, at: usize) -> Option<usize>
    requires { at < len }
    ensures { result ≡ spec.shifted shift len at }
{
    match shift {
        Shift::Forward(steps) => {
            if steps < len - at {
                Some(at + steps)
            } else {
                None
            }
        }
        Shift::Back(steps) => { if steps <= at { Some(at - steps) } else { None } }
    }
}

/// The first cell of row y that differs from the one to which the shifts take it.
fn period_fault_in(p: &Pattern, right: Shift, up: Shift, y: usize) -> Option<(usize, usize)>
    requires { y < p.now.height }
    ensures { result ≡ spec.period_fault_in right up p.now y }
{
    let other = shifted(up, p.height(), y)?;
    let x = line_apart(right, p.row(y), p.row(other))?;
    Some((x, y))
}

/// The first place of a row that differs from the place of another row of its length to which the shift takes it.
fn line_apart(shift: Shift, row: &[u16], other: &[u16]) -> Option<usize>
    requires { length row.now ≡ length other.now }
    ensures { result ≡ first_place (is_apart shift row.now other.now) (length row.now) }
{
    match shift {
        Shift::Forward(steps) => {
            if steps >= row.len() {
                return None;
            }
            first_difference(&row[..row.len() - steps], &other[steps..])
        }
        Shift::Back(steps) => {
            if steps >= row.len() {
                return None;
            }
            match first_difference(&row[steps..], &other[..row.len() - steps]) {
                None => None,
                Some(at) => Some(steps + at),
            }
        }
    }
}
