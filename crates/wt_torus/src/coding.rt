//! Codes of points: the letters of their turns along both axes.
ghost use Rattle.std.specs.Prelude.{◌≡◌, ◌≤◌, ◌<◌, ◌^◌, ◌*◌, ◌++◌, [], ◌∷◌, None, Some, slice_index_or, IfOk, OnOk, IfErr, length};
ghost use Rattle.wt_grid.specs.Grid.{listed};
ghost use Rattle.wt_grid.specs.First.{first_from};
ghost use Rattle.wt_golden.specs.Sizes.{IsBelow};
ghost use Rattle.wt_golden.specs.Wide.{number};
ghost use Rattle.wt_golden.specs.Whole as whole;
ghost use Rattle.wt_plane.specs.HalfPlanes.{x_of, y_of};
ghost use Rattle.wt_torus.specs.Codes.{IsCode, code_fault, code_of, coordinate_within, letter_fault, row_fault};
ghost use Rattle.wt_torus.specs.Codes as codes;
ghost use Rattle.wt_torus.specs.Cells.{label_in, line_fault, label_at, fault_at, line_labels, all_labels, lines_fault};
ghost use Rattle.wt_torus.specs.Cells as cell_words;
ghost use Rattle.wt_grid.specs.Answers.{FailsByOr, GivesUnless};

use crate::coded::{CodeFault, code_point};
use crate::partition::is_below;
use crate::sign::is_positive;
use crate::turned::turned_coordinates;
use crate::{Letter, Partition, Torus};
use std::alloc::{AllocError, Global};
use wt_golden::{Golden, Wide};
use wt_grid::MAX_SIDE;
use wt_pattern::Pattern;
use wt_plane::Point;

// Whether the number is below 0.
fn is_negative(x: Wide) -> bool
    requires { IsBelow (number x) (2 ^ 30) }
    ensures { result ≡ whole.is_positive (whole.opposite (number x)) }
{
    is_positive(x.opposite())
}

fn is_in_square(torus: &Torus, z: &Point) -> bool
    ensures { result ≡ codes.is_in_square torus.now z.now }
{
    !is_negative(z.wide_x())
        && is_below(z.wide_x(), z.wide_d(), torus.width())
        && !is_negative(z.wide_y())
        && is_below(z.wide_y(), z.wide_d(), torus.height())
}

// The letter of the point with these coordinates, where both are within the limit and so is the point.
fn letter_at(p: &Partition, x: Option<Golden>, y: Option<Golden>) -> Option<Letter>
    ensures { result ≡ cell_words.letter_at p.now x y }
{
    let Some(x) = x else {
        return None;
    };
    let Some(y) = y else {
        return None;
    };
    x.golden();
    y.golden();
    match Point::new(x, y) {
        Ok(z) => Some(code_point(p, &z)),
        Err(_) => None,
    }
}

// The label of a letter, or what it is a fault of at cell (x, y).
fn labelled(letter: Option<Letter>, x: usize, y: usize) -> Result<u16, CodeFault>
    ensures { GivesUnless result (label_in letter) (letter_fault x y letter) }
{
    match letter {
        None => Err(CodeFault::TooLarge),
        Some(Letter::One(a)) => Ok(a),
        Some(Letter::Unplaced) => Err(CodeFault::Unplaced { x, y }),
        Some(Letter::Doubled) => Err(CodeFault::Doubled { x, y }),
    }
}

fn push(cells: &mut Vec<u16>, label: u16) -> Result<(), CodeFault>
    ensures ok { OnOk result (cells.new.items ≡ cells.old.items ++ (label ∷ [])) }
    ensures fault { IfErr result (λ e. e ≡ CodeFault.OutOfMemory) }
{
    match cells.push(label) {
        Ok(()) => Ok(()),
        Err(_) => Err(CodeFault::OutOfMemory),
    }
}

fn coordinate_at(all: &[Option<Golden>], i: usize) -> Option<Golden>
    requires { i < length all.now }
    ensures { result ≡ slice_index_or all.now i None }
{
    all[i]
}

// Adds the label of cell i of row j, where columns and rows have these coordinates.
fn push_cell(
    p: &Partition,
    xs: &[Option<Golden>],
    ys: &[Option<Golden>],
    i: usize,
    j: usize,
    cells: &mut Vec<u16>,
) -> Result<(), CodeFault>
    requires column { i < length xs.now }
    requires row { j < length ys.now }
    ensures ok { OnOk result (cells.new.items ≡ cells.old.items ++ (label_at p.now xs.now ys.now j i ∷ [])) }
    ensures fault { FailsByOr result (fault_at p.now xs.now ys.now j i) CodeFault.OutOfMemory }
{
    let letter = letter_at(p, coordinate_at(xs, i), coordinate_at(ys, j));
    match labelled(letter, i, j) {
        Ok(label) => push(cells, label),
        Err(e) => Err(e),
    }
}

// Adds the labels of row j.

fn push_row(
    p: &Partition,
    xs: &[Option<Golden>],
    ys: &[Option<Golden>],
    j: usize,
    cells: &mut Vec<u16>,
) -> Result<(), CodeFault>
    requires { j < length ys.now }
    ensures ok { OnOk result (cells.new.items ≡ cells.old.items ++ line_labels p.now xs.now ys.now j) }
    ensures fault { FailsByOr result (line_fault p.now xs.now ys.now j) CodeFault.OutOfMemory }
{
    for i in 0..xs.len() {
        push_cell(p, xs, ys, i, j, cells)?;
    }
    Ok(())
}

// The labels of all cells, row by row.
fn labels(
    alloc: Global,
    p: &Partition,
    xs: &[Option<Golden>],
    ys: &[Option<Golden>],
) -> Result<Vec<u16>, CodeFault>
    requires wide { length xs.now ≤ MAX_SIDE }
    requires high { length ys.now ≤ MAX_SIDE }
    ensures cells { IfOk result (λ cells. cells.items ≡ all_labels p.now xs.now ys.now) }
    ensures fault { FailsByOr result (lines_fault p.now xs.now ys.now) CodeFault.OutOfMemory }
{
    let mut cells = Vec::with_capacity(alloc, ys.len() * xs.len())?;
    for j in 0..ys.len() {
        push_row(p, xs, ys, j, &mut cells)?;
    }
    Ok(cells)
}

// The coordinates of w columns.
fn columns(
    alloc: Global,
    torus: &Torus,
    z: &Point,
    w: usize,
) -> Result<Vec<Option<Golden>>, AllocError>
    requires few { w ≤ MAX_SIDE }
    ensures { IfOk result (λ xs. xs.items ≡ listed w (coordinate_within torus.now.width torus.now.move1 (x_of z.now))) }
{
    turned_coordinates(alloc, torus.width(), torus.move1(), z.x(), w)
}

// The coordinates of h rows.
fn rows(
    alloc: Global,
    torus: &Torus,
    z: &Point,
    h: usize,
) -> Result<Vec<Option<Golden>>, AllocError>
    requires few { h ≤ MAX_SIDE }
    ensures { IfOk result (λ ys. ys.items ≡ listed h (coordinate_within torus.now.height torus.now.move2 (y_of z.now))) }
{
    turned_coordinates(alloc, torus.height(), torus.move2(), z.y(), h)
}

// The letters of w by h turns, row by row.
fn letters(
    alloc: Global,
    p: &Partition,
    z: &Point,
    w: usize,
    h: usize,
) -> Result<Vec<u16>, CodeFault>
    requires wide { (1 ≤ w) × (w ≤ MAX_SIDE) }
    requires high { h ≤ MAX_SIDE }
    ensures cells { IfOk result (λ cells. cells.items ≡ (code_of p.now z.now w h).cells) }
    ensures fault { FailsByOr result (first_from (row_fault p.now z.now w) 0 h) CodeFault.OutOfMemory }
{
    p.torus.torus();
    z.point();
    let xs = columns(alloc, &p.torus, z, w)?;
    let ys = rows(alloc, &p.torus, z, h)?;
    let cells = labels(alloc, p, &xs, &ys)?;
    Ok(cells)
}

/// The code of a point: at (i, j) the letter of the point after i turns along axis 1 and j along axis 2.
/// `OutsideBox` comes first, exactly where the point isn't from 0 on and below the side along both axes. Then, at the
/// first cell in reading order that has a fault, `TooLarge` exactly where its point has a number out of limit over its
/// least common denominator, else `Unplaced` or `Doubled` exactly where that is its letter.
#[tactic(auto, using(crate::proofs::Codes::no_fault_codes), unfolding(crate::specs::Codes::code_fault))]
pub fn code(
    alloc: Global,
    p: &Partition,
    z: &Point,
    w: usize,
    h: usize,
) -> Result<Pattern, CodeFault>
    requires wide { (1 ≤ w) × (w ≤ MAX_SIDE) }
    requires high { (1 ≤ h) × (h ≤ MAX_SIDE) }
    ensures letters { IfOk result (λ g. IsCode p.now z.now g) }
    ensures code { IfOk result (λ g. g ≡ code_of p.now z.now w h) }
    ensures fault { FailsByOr result (code_fault p.now z.now w h) CodeFault.OutOfMemory }
{
    if !is_in_square(&p.torus, z) {
        return Err(CodeFault::OutsideBox);
    }
    let cells = letters(alloc, p, z, w, h)?;
    Ok(Pattern::of(w, h, cells))
}
