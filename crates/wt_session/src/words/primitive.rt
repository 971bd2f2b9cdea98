//! The word `primitive`.
ghost use Rattle.std.specs.Prelude.{◌≡◌, IfOk, string_bytes};
ghost use Rattle.wt_session.specs.Said.{Replies};
ghost use Rattle.wt_session.specs.Primitive.{IsPrimitiveReply};
ghost use Rattle.wt_session.specs.Primitive as spec;

use crate::lookup::chain_named;
use crate::names::Names;
use crate::reply::{Answer, CommandFault, open_chain};
use std::alloc::{AllocError, Global};
use wt_seq::Seq;

fn power_text(alloc: Global, power: Option<u32>) -> Result<String, AllocError>
    ensures { IfOk result (λ text. string_bytes text ≡ spec.power_text power) }
{
    match power {
        None => String::from_str(alloc, "not primitive\n"),
        Some(power) => format!(in alloc; "primitive {power}\n"),
    }
}

/// `primitive C`: the least power in which every tile makes every tile.
pub fn primitive(alloc: Global, names: &Names, chain: &[u8]) -> Result<Answer, CommandFault>
    ensures { Replies (IsPrimitiveReply names.now chain.now) result }
{
    let chain = chain_named(alloc, names, chain)?;
    match wt_check::primitive(chain) {
        Ok(power) => Ok(Answer::Says(Seq::new(power_text(alloc, power)?.into_bytes()))),
        Err(_) => Err(open_chain(alloc)),
    }
}
