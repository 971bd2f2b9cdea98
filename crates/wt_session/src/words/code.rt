//! The word `code`.
ghost use Rattle.std.specs.Prelude.{◌≡◌, ◌≤◌, IfOk, MatchResult, codes, false, true, string_bytes};
ghost use Rattle.wt_plane.specs.HalfPlanes.{reduced_spot, spot};
ghost use Rattle.wt_torus.specs.Codes.{is_small};
ghost use Rattle.wt_script.specs.declared.limits.TheConstants.{MAX_MADE};
ghost use Rattle.wt_session.specs.Said.{IsRefusal, Replies};
ghost use Rattle.wt_session.specs.Code.{IsCodeReply, IsPointReply, cell_text};
ghost use Rattle.wt_session.specs.Code as spec;

use crate::lookup::partition_named;
use crate::names::Names;
use crate::reply::{Answer, CommandFault, limit, refused, refused_line};
use crate::value::{Sheet, Value};
use std::alloc::{AllocError, Global};
use wt_golden::{Golden, TooLarge};
use wt_pattern::pattern_text;
use wt_plane::Point;
use wt_seq::Seq;
use wt_torus::{CodeFault, Partition, Torus};

/// Whether a coordinate is from 0 on and below the side.
fn is_on(side: Golden, t: Golden) -> bool
    ensures { result ≡ spec.is_on side t }
{
    !t.sign().is_lt() && t.compare(side).is_lt()
}

/// Whether the point (x, y) is in the box.
fn is_on_box(torus: &Torus, x: Golden, y: Golden) -> bool
    ensures { result ≡ spec.is_on_box torus.now x y }
{
    is_on(torus.width(), x) && is_on(torus.height(), y)
}

/// The point (x, y), or that a number of it is out of limit.
fn point(x: Golden, y: Golden) -> Result<Point, TooLarge>
    ensures { MatchResult result
        (λ z. (is_small (reduced_spot (spot x y)) ≡ true) × (z ≡ reduced_spot (spot x y)))
        (λ _. is_small (reduced_spot (spot x y)) ≡ false) }
{
    Point::new(x, y)
}

fn unplaced_line(alloc: Global, x: usize, y: usize) -> Result<String, AllocError>
    ensures { IfOk result (λ text. string_bytes text ≡ cell_text (codes "unplaced") x y) }
{
    format!(in alloc; "refused unplaced at {x} {y}\n")
}

fn doubled_line(alloc: Global, x: usize, y: usize) -> Result<String, AllocError>
    ensures { IfOk result (λ text. string_bytes text ≡ cell_text (codes "doubled") x y) }
{
    format!(in alloc; "refused doubled at {x} {y}\n")
}

/// A point off the box.
fn off_box(alloc: Global) -> CommandFault
    ensures { IsRefusal 1 (codes "refused outside box\n") result }
{
    refused(alloc, b"refused outside box\n")
}

/// A number that is out of limit.
pub fn golden_limit(alloc: Global) -> CommandFault
    ensures { IsRefusal 5 (codes "limit golden\n") result }
{
    limit(alloc, b"limit golden\n")
}

/// The code of a point, bound to a name.
fn coded(
    alloc: Global,
    name: &Seq<u8>,
    p: &Partition,
    z: &Point,
    width: usize,
    height: usize,
) -> Result<Answer, CommandFault>
    requires wide { (1 ≤ width) × (width ≤ MAX_MADE) }
    requires high { (1 ≤ height) × (height ≤ MAX_MADE) }
    ensures { Replies (IsPointReply name.now p.now z.now width height true) result }
{
    match wt_torus::code(alloc, p, z, width, height) {
        Ok(pattern) => {
            let text = Seq::new(pattern_text(alloc, &pattern)?);
            let name = name.copy(alloc)?;
            let value = Value::Pattern(Sheet::new(pattern, None));
            Ok(Answer::Binds { name, value, text })
        }
        Err(CodeFault::OutsideBox) => Err(off_box(alloc)),
        Err(CodeFault::TooLarge) => Err(golden_limit(alloc)),
        Err(CodeFault::Unplaced { x, y }) => Err(refused_line(unplaced_line(alloc, x, y)?)),
        Err(CodeFault::Doubled { x, y }) => Err(refused_line(doubled_line(alloc, x, y)?)),
        Err(CodeFault::OutOfMemory) => Err(CommandFault::OutOfMemory),
    }
}

/// `code N T Gx Gy w h`: the code of w by h letters of the point (x, y), bound to a name.
pub fn code(
    alloc: Global,
    names: &Names,
    name: &Seq<u8>,
    torus: &[u8],
    x: Golden,
    y: Golden,
    width: usize,
    height: usize,
) -> Result<Answer, CommandFault>
    requires wide { (1 ≤ width) × (width ≤ MAX_MADE) }
    requires high { (1 ≤ height) × (height ≤ MAX_MADE) }
    ensures { Replies (IsCodeReply names.now name.now torus.now x y width height) result }
{
    let p = partition_named(alloc, names, torus)?;
    if !is_on_box(&p.torus, x, y) {
        return Err(off_box(alloc));
    }
    match point(x, y) {
        Ok(z) => coded(alloc, name, p, &z, width, height),
        Err(TooLarge) => Err(golden_limit(alloc)),
    }
}
