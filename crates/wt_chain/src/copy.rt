// Copies of chains.
ghost use Rattle.std.specs.Prelude.{◌≡◌, IfOk};

use crate::{End, RawChain};
use std::alloc::{AllocError, Global};
use wt_seq::Seq;
use wt_step::{RawLink, copy_link};

fn copy_links(alloc: Global, links: &[RawLink]) -> Result<Seq<RawLink>, AllocError>
    ensures { IfOk result (λ copied. copied ≡ links.now) }
{
    let mut copies = Vec::new(alloc);
    for link in links {
        let copied = copy_link(alloc, link)?;
        copies.push(copied)?;
    }
    Ok(Seq::new(copies))
}

fn copy_end(alloc: Global, end: &End) -> Result<End, AllocError>
    ensures { IfOk result (λ copied. copied ≡ end.now) }
{
    match end {
        End::Open => Ok(End::Open),
        End::Loop {
            start,
            renaming,
            expansion,
        } => {
            let renaming = renaming.copy(alloc)?;
            Ok(End::Loop {
                start: *start,
                renaming,
                expansion: *expansion,
            })
        }
    }
}

/// An equal chain, good or not. Fails only where memory runs out.
pub fn copy_chain(alloc: Global, raw: &RawChain) -> Result<RawChain, AllocError>
    ensures { IfOk result (λ copied. copied ≡ raw.now) }
{
    let steps = copy_links(alloc, raw.steps.as_slice())?;
    let end = copy_end(alloc, &raw.end)?;
    Ok(RawChain {
        version: raw.version,
        steps,
        end,
    })
}
