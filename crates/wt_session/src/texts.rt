// Lines that a script's commands and the program's words both answer. Each ends with its newline.
ghost use Rattle.std.specs.Prelude.{◌≡◌, ◌<◌, IfOk, string_bytes};
ghost use Rattle.wt_expand.specs.Rows.{bit};
ghost use Rattle.wt_session.specs.Texts.{syntax_text, limit_text, repeated_text, stranger_text, not_valid_text, coarse_text};

use std::alloc::{AllocError, Global};
use wt_grid::axis_number;
use wt_line::What;
use wt_pattern::{Fault, Pattern, push_pattern};
use wt_step::Coarse;

/// The line of a text that is malformed at this line.
pub fn syntax_line(alloc: Global, line: usize) -> Result<String, AllocError>
    ensures { IfOk result (λ text. string_bytes text ≡ syntax_text line) }
{
    format!(in alloc; "refused syntax line {line}\n")
}

/// The line of a text that passes a limit at this line.
pub fn past_line(alloc: Global, what: What, line: usize) -> Result<String, AllocError>
    ensures { IfOk result (λ text. string_bytes text ≡ limit_text what line) }
{
    let word = what.as_str();
    format!(in alloc; "limit {word} line {line}\n")
}

/// The line of two equal tiles.
pub fn repeated_line(alloc: Global, i: usize, j: usize) -> Result<String, AllocError>
    ensures { IfOk result (λ text. string_bytes text ≡ repeated_text i j) }
{
    format!(in alloc; "refused repeated {i} {j}\n")
}

/// The line of a cell that is no tile.
pub fn stranger_line(alloc: Global, p: &Pattern, x: usize, y: usize) -> Result<String, AllocError>
    requires column { x < p.now.width }
    requires row { y < p.now.height }
    ensures { IfOk result (λ text. string_bytes text ≡ stranger_text p.now (x, y)) }
{
    let tile = p.cell(x, y);
    format!(in alloc; "refused tile {tile} at {x} {y}\n")
}

/// The line of neighbours that don't match.
pub fn not_valid_line(alloc: Global, fault: Fault) -> Result<String, AllocError>
    ensures { IfOk result (λ text. string_bytes text ≡ not_valid_text fault) }
{
    let axis = axis_number(fault.axis);
    let x = fault.x;
    let y = fault.y;
    format!(in alloc; "refused not valid axis {axis} at {x} {y}\n")
}

/// 1 for true, 0 for false, as texts say it.
fn bit(value: bool) -> u8
    ensures { result ≡ bit value }
{
    if value { 1 } else { 0 }
}

/// The coarse pattern with its shape and its cuts, the top row first.
pub fn coarse_lines(alloc: Global, coarse: &Coarse) -> Result<Vec<u8>, AllocError>
    ensures { IfOk result (λ text. text.items ≡ coarse_text coarse.now.pattern coarse.now.low_cut coarse.now.high_cut) }
{
    let width = coarse.pattern.width();
    let height = coarse.pattern.height();
    let low = bit(coarse.low_cut);
    let high = bit(coarse.high_cut);
    let head = format!(in alloc; "coarse {width} {height}\ncut {low} {high}\n")?;
    let mut text = head.into_bytes();
    push_pattern(&mut text, &coarse.pattern)?;
    Ok(text)
}
