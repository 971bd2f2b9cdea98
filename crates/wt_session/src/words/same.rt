//! The word `same`.
ghost use Rattle.std.specs.Prelude.{◌≡◌, IfOk, option_map};
ghost use Rattle.wt_session.specs.Said.{Replies};
ghost use Rattle.wt_session.specs.Same.{same_reply};
ghost use Rattle.wt_session.specs.Same as spec;

use crate::lookup::set_named;
use crate::names::Names;
use crate::reply::{Answer, CommandFault};
use crate::rows::push_line;
use std::alloc::{AllocError, Global};
use wt_bijection::equivalent;
use wt_seq::Seq;

fn same_text(alloc: Global, found: Option<Vec<u16>>) -> Result<Vec<u8>, AllocError>
    ensures { IfOk result (λ text. text.items ≡ spec.same_text (option_map (λ list. list.items) found)) }
{
    match found {
        None => b"none\n".to_vec(alloc),
        Some(renaming) => {
            let mut text = Vec::new(alloc);
            push_line(&mut text, "renaming", &renaming)?;
            Ok(text)
        }
    }
}

/// `same S T`: the least renaming of the one set onto the other.
pub fn same(alloc: Global, names: &Names, from: &[u8], to: &[u8]) -> Result<Answer, CommandFault>
    ensures { Replies (λ reply. reply ≡ same_reply names.now from.now to.now) result }
{
    let from = set_named(alloc, names, from)?;
    let to = set_named(alloc, names, to)?;
    let found = equivalent(alloc, from, to)?;
    Ok(Answer::Says(Seq::new(same_text(alloc, found)?)))
}
