// The word `pattern`.
ghost use Rattle.std.specs.Prelude.{◌≡◌, IfOk, string_bytes};
ghost use Rattle.wt_session.specs.Said.{Replies};
ghost use Rattle.wt_session.specs.Pattern.{pattern_text, pattern_reply};

use crate::lookup::set_named;
use crate::names::Names;
use crate::reply::{Answer, CommandFault, refused_line};
use crate::texts::stranger_line;
use crate::value::{Sheet, Value};
use std::alloc::{AllocError, Global};
use wt_pattern::{Pattern, tiles_fault};
use wt_seq::Seq;

fn pattern_line(alloc: Global, p: &Pattern) -> Result<String, AllocError>
    ensures { IfOk result (λ text. string_bytes text ≡ pattern_text p.now) }
{
    let width = p.width();
    let height = p.height();
    format!(in alloc; "pattern {width} {height}\n")
}

/// `pattern N S w h`: the pattern over a set, bound to a name.
#[tactic(auto, using(crate::proofs::Strangers::stranger_inside))]
pub fn pattern(
    alloc: Global,
    names: &Names,
    name: &Seq<u8>,
    set: &[u8],
    cells: &Pattern,
) -> Result<Answer, CommandFault>
    ensures { Replies (λ reply. reply ≡ pattern_reply names.now name.now set.now cells.now) result }
{
    let set = set_named(alloc, names, set)?;
    if let Some((x, y)) = tiles_fault(set, cells) {
        return Err(refused_line(stranger_line(alloc, cells, x, y)?));
    }
    let text = Seq::new(pattern_line(alloc, cells)?.into_bytes());
    let sheet = Sheet::new(copied(alloc, cells)?, Some(set.copy(alloc)?));
    Ok(Answer::Binds {
        name: name.copy(alloc)?,
        value: Value::Pattern(sheet),
        text,
    })
}

/// An equal pattern.
#[tactic(auto, using(crate::proofs::Copies::one_row, crate::proofs::Copies::all_rows))]
fn copied(alloc: Global, p: &Pattern) -> Result<Pattern, AllocError>
    ensures { IfOk result (λ q. q ≡ p.now) }
{
    let width = p.width();
    let height = p.height();
    let mut cells = Vec::with_capacity(alloc, width * height)?;
    for y in 0..height {
        cells.extend_from_slice(p.row(y))?;
    }
    Ok(Pattern::of(width, height, cells))
}
