// The word `bound`.
ghost use Rattle.std.specs.Prelude.{◌≡◌, IfOk, Ok, string_bytes};
ghost use Rattle.wt_session.specs.Said.{Replies};
ghost use Rattle.wt_session.specs.Replies.{says};
ghost use Rattle.wt_session.specs.Bound.{size_reply, bound_reply};

use crate::lookup::chain_named;
use crate::names::Names;
use crate::reply::{Answer, CommandFault, limit, refused};
use std::alloc::{AllocError, Global};
use wt_scale::{SizeFault, size_for};
use wt_seq::Seq;

fn size_line(alloc: Global, size: u128) -> Result<String, AllocError>
    ensures { IfOk result (λ text. says (string_bytes text) ≡ size_reply (Ok size)) }
{
    format!(in alloc; "{size}\n")
}

/// `bound C x y`: the size past which the vector is no period.
pub fn bound(
    alloc: Global,
    names: &Names,
    name: &[u8],
    dx: i64,
    dy: i64,
) -> Result<Answer, CommandFault>
    ensures { Replies (λ reply. reply ≡ bound_reply names.now name.now dx dy) result }
{
    let chain = chain_named(alloc, names, name)?;
    match size_for(chain, dx, dy) {
        Ok(size) => Ok(Answer::Says(Seq::new(size_line(alloc, size)?.into_bytes()))),
        Err(SizeFault::OpenChain) => Err(refused(alloc, b"refused open chain\n")),
        Err(SizeFault::ZeroVector) => Err(refused(alloc, b"refused zero vector\n")),
        Err(SizeFault::TooLarge) => Err(limit(alloc, b"limit size\n")),
    }
}
