//! The images that markers demand.
ghost use Rattle.std.specs.Prelude.{◌≡◌, ◌≤◌, ◌++◌, IfOk, OnOk};
ghost use Rattle.wt_step.specs.Words as words;
ghost use Rattle.wt_marker.specs.Gather.{gather, any_from};
ghost use Rattle.wt_window.specs.Surrounded.{allowed};
ghost use Rattle.wt_marker.specs.Demanded.{marked, single_at, doubles, demanded};
ghost use Rattle.wt_marker.specs.Demanded as spec;

use crate::marks::is_marked;
use crate::pushes::push_if;
use std::alloc::{AllocError, Global};
use wt_grid::Image;
use wt_tile::Side;
use wt_window::DominoTable;

fn joined(side: Side, first: bool, second: bool) -> bool
    ensures { result ≡ words.joined side first second }
{
    match side {
        Side::After => !first && second,
        Side::Before => first && !second,
    }
}

fn is_free_at(side: Side, table: &DominoTable, marks: &[bool], u: u16, v: u16) -> bool
    ensures { result ≡ spec.is_free_at side (allowed table.now) (marked marks.now) u v }
{
    match side {
        Side::After => !is_marked(marks, v) && table.allows(u, v),
        Side::Before => !is_marked(marks, v) && table.allows(v, u),
    }
}

/// Whether u is a non-marker that stands next to another on the markers' side.
#[tactic(auto, using(crate::proofs::Gather::any_more))]
fn is_single(side: Side, table: &DominoTable, marks: &[bool], count: u16, u: u16) -> bool
    ensures { result ≡ spec.is_single side (allowed table.now) (marked marks.now) count u }
{
    if is_marked(marks, u) {
        return false;
    }
    for v in 0..count {
        if is_free_at(side, table, marks, u, v) {
            return true;
        }
    }
    false
}

fn push_singles(
    out: &mut Vec<Image>,
    side: Side,
    table: &DominoTable,
    marks: &[bool],
    count: u16,
) -> Result<(), AllocError>
    ensures { OnOk result (out.new.items ≡ out.old.items ++ gather (single_at side (allowed table.now) (marked marks.now) count) 0 count) }
{
    for u in 0..count {
        let single = is_single(side, table, marks, count, u);
        push_if(out, single, Image::One(u))?;
    }
    Ok(())
}

fn push_doubles(
    out: &mut Vec<Image>,
    side: Side,
    marks: &[bool],
    pairs: &[(u16, u16)],
) -> Result<(), AllocError>
    ensures { OnOk result (out.new.items ≡ out.old.items ++ doubles side (marked marks.now) pairs.now) }
{
    for pair in pairs {
        let double = joined(side, is_marked(marks, pair.0), is_marked(marks, pair.1));
        push_if(out, double, Image::Two(pair.0, pair.1))?;
    }
    Ok(())
}

/// The images that the markers demand: single tiles first, then pairs.
pub fn find_images(
    alloc: Global,
    side: Side,
    table: &DominoTable,
    pairs: &[(u16, u16)],
    marks: &[bool],
    count: u16,
) -> Result<Vec<Image>, AllocError>
    ensures { IfOk result (λ images. images.items ≡ demanded side (allowed table.now) pairs.now (marked marks.now) count) }
{
    let mut out = Vec::new(alloc);
    push_singles(&mut out, side, table, marks, count)?;
    push_doubles(&mut out, side, marks, pairs)?;
    Ok(out)
}
