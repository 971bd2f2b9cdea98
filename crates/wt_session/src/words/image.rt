// The word `image`.
ghost use Rattle.std.specs.Prelude.{◌≡◌};
ghost use Rattle.wt_session.specs.Said.{Replies};
ghost use Rattle.wt_session.specs.Image.{image_reply};

use crate::lookup::chain_named;
use crate::names::Names;
use crate::reply::{Answer, CommandFault, limit, no_tile, open_chain};
use std::alloc::Global;
use wt_expand::{TurnFault, turn};
use wt_pattern::pattern_text;
use wt_seq::Seq;

/// `image C t`: the rows of what one turn of the chain's loop makes of a tile.
#[tactic(auto, using(crate::proofs::Image::imaged, crate::proofs::Image::open_image, crate::proofs::Image::strange_image, crate::proofs::Image::wide_image, crate::proofs::Image::high_image))]
pub fn image(alloc: Global, names: &Names, chain: &[u8], tile: u16) -> Result<Answer, CommandFault>
    ensures { Replies (λ reply. reply ≡ image_reply names.now chain.now tile) result }
{
    let chain = chain_named(alloc, names, chain)?;
    match turn(alloc, chain, tile) {
        Ok(p) => Ok(Answer::Says(Seq::new(pattern_text(alloc, &p)?))),
        Err(TurnFault::OpenChain) => Err(open_chain(alloc)),
        Err(TurnFault::NoTile) => Err(no_tile(alloc, tile)),
        Err(TurnFault::Width) => Err(limit(alloc, b"limit width\n")),
        Err(TurnFault::Height) => Err(limit(alloc, b"limit height\n")),
        Err(TurnFault::OutOfMemory) => Err(CommandFault::OutOfMemory),
    }
}
