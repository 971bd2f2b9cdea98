//! The word `seeds`.
ghost use Rattle.std.specs.Prelude.{◌≡◌, ◌≤◌, IfOk};
ghost use Rattle.wt_session.specs.Said.{Replies};
ghost use Rattle.wt_session.specs.Seeds.{seeds_reply};
ghost use Rattle.wt_session.specs.Seeds as spec;

use crate::lookup::chain_named;
use crate::names::Names;
use crate::reply::{Answer, CommandFault, open_chain};
use crate::rows::push_fours;
use std::alloc::{AllocError, Global};
use wt_check::SeedFault;
use wt_seq::Seq;
use wt_write::{end_line, push_number, push_word};

fn seeds_text(alloc: Global, seeds: &[[u16; 4]]) -> Result<Vec<u8>, AllocError>
    ensures { IfOk result (λ text. text.items ≡ spec.seeds_text seeds.now) }
{
    let mut text = Vec::new(alloc);
    push_word(&mut text, "seeds ")?;
    push_number(&mut text, seeds.len() as u64)?;
    end_line(&mut text)?;
    push_fours(&mut text, seeds)?;
    Ok(text)
}

/// `seeds C q`: the fixed 2 by 2 patterns of a power of the loop.
pub fn seeds(alloc: Global, names: &Names, chain: &[u8], power: u32) -> Result<Answer, CommandFault>
    requires { (1 ≤ power) × (power ≤ 64) }
    ensures { Replies (λ reply. reply ≡ seeds_reply names.now chain.now power) result }
{
    let chain = chain_named(alloc, names, chain)?;
    match wt_check::seeds(alloc, chain, power) {
        Ok(seeds) => Ok(Answer::Says(Seq::new(seeds_text(alloc, &seeds)?))),
        Err(SeedFault::OpenChain) => Err(open_chain(alloc)),
        Err(SeedFault::OutOfMemory) => Err(CommandFault::OutOfMemory),
    }
}
