//! The word `search`.
ghost use Rattle.std.specs.Prelude.{◌≡◌, ◌<◌, ◌≤◌, ◌++◌, length, IfOk, OnOk};
ghost use Rattle.wt_check.specs.Texts.{loop_text};
ghost use Rattle.wt_search.specs.declared.limits.TheConstants.{MAX_AXES, MAX_LEVELS};
ghost use Rattle.wt_session.specs.Said.{Replies};
ghost use Rattle.wt_session.specs.Search.{renamed_text, IsSearchReply};
ghost use Rattle.wt_session.specs.Search as spec;

use crate::levels::{end_fault, push_sets};
use crate::lookup::set_named;
use crate::names::Names;
use crate::reply::{Answer, CommandFault};
use crate::rows::push_line;
use crate::value::Value;
use std::alloc::{AllocError, Global};
use wt_chain::{Accepted, End};
use wt_seq::Seq;
use wt_tile::{Axis, Side};
use wt_write::{end_line, number_behind, push_number, push_word};

/// Appends where a loop starts, how many turns it takes, and its renaming.
fn push_loop(out: &mut Vec<u8>, end: &End) -> Result<(), AllocError>
    ensures { OnOk result (out.new.items ≡ out.old.items ++ (loop_text end.now ++ renamed_text end.now)) }
{
    match end {
        End::Open => Ok(()),
        End::Loop {
            start,
            renaming,
            expansion,
        } => {
            push_word(out, "loop ")?;
            push_number(out, u64::from(*start))?;
            number_behind(out, u64::from(*expansion))?;
            end_line(out)?;
            push_line(out, "renaming", renaming.as_slice())
        }
    }
}

fn found_text(alloc: Global, chain: &Accepted) -> Result<Vec<u8>, AllocError>
    ensures { IfOk result (λ text. text.items ≡ spec.found_text chain.now) }
{
    let mut text = Vec::new(alloc);
    push_sets(&mut text, chain.raw().steps.as_slice())?;
    push_loop(&mut text, chain.end())?;
    Ok(text)
}

/// `search N S X W r L B`: the chain that is found from a set, bound to a name.
pub fn search(
    alloc: Global,
    names: &Names,
    name: &Seq<u8>,
    set: &[u8],
    axes: &[Axis],
    side: Side,
    radius: u8,
    levels: usize,
    budget: u64,
) -> Result<Answer, CommandFault>
    requires axes { (1 ≤ length axes.now) × (length axes.now ≤ MAX_AXES) }
    requires radius { radius ≤ 4 }
    requires levels { (1 ≤ levels) × (levels ≤ MAX_LEVELS) }
    ensures { Replies (IsSearchReply names.now name.now set.now axes.now side radius levels budget) result }
{
    let set = set_named(alloc, names, set)?;
    match wt_search::search(alloc, set, axes, side, radius, levels, budget) {
        Ok(chain) => {
            let text = Seq::new(found_text(alloc, &chain)?);
            Ok(Answer::Binds {
                name: name.copy(alloc)?,
                value: Value::Chain(chain),
                text,
            })
        }
        Err(end) => Err(end_fault(alloc, end)),
    }
}
