//! The word `census`.
ghost use Rattle.std.specs.Prelude.{◌≡◌, ◌≤◌, ◌++◌, map, IfOk, OnOk, string_bytes};
ghost use Rattle.std.specs.Fmt.{decimal};
ghost use Rattle.wt_write.specs.Behind.{behind_spaces};
ghost use Rattle.wt_session.specs.Said.{Replies};
ghost use Rattle.wt_session.specs.Census.{MayAnswerCensus, IsCensusReply};
ghost use Rattle.wt_session.specs.Census as spec;

use crate::lookup::chain_named;
use crate::names::Names;
use crate::reply::{Answer, CommandFault, limit, no_tile, open_chain};
use std::alloc::{AllocError, Global};
use wt_chain::Accepted;
use wt_check::CensusFault;
use wt_seq::Seq;

/// Appends each count behind a space.
fn push_counts(text: &mut String, counts: &[u128]) -> Result<(), AllocError>
    ensures { OnOk result (string_bytes text.new ≡ string_bytes text.old ++ behind_spaces (map decimal counts.now)) }
{
    for count in counts {
        write!(text, " {count}")?;
    }
    Ok(())
}

fn counts_text(alloc: Global, counts: &[u128]) -> Result<String, AllocError>
    ensures { IfOk result (λ text. string_bytes text ≡ spec.counts_text counts.now) }
{
    let mut text = String::from_str(alloc, "counts")?;
    push_counts(&mut text, counts)?;
    text.push('\n')?;
    Ok(text)
}

/// The census, or why there is none.
fn counts_of(
    alloc: Global,
    chain: &Accepted,
    turns: u32,
    tile: u16,
) -> Result<Seq<u128>, CensusFault>
    requires { turns ≤ 4096 }
    ensures { MayAnswerCensus chain.now.steps chain.now.end turns tile result }
{
    match wt_check::census(alloc, chain, turns, tile) {
        Ok(counts) => Ok(Seq::new(counts)),
        Err(fault) => Err(fault),
    }
}

/// `census C k t`: how often each tile stands in what k turns make of tile t.
pub fn census(
    alloc: Global,
    names: &Names,
    chain: &[u8],
    turns: u32,
    tile: u16,
) -> Result<Answer, CommandFault>
    requires { turns ≤ 4096 }
    ensures { Replies (IsCensusReply names.now chain.now turns tile) result }
{
    let chain = chain_named(alloc, names, chain)?;
    match counts_of(alloc, chain, turns, tile) {
        Ok(counts) => {
            let text = counts_text(alloc, counts.as_slice())?;
            Ok(Answer::Says(Seq::new(text.into_bytes())))
        }
        Err(CensusFault::OpenChain) => Err(open_chain(alloc)),
        Err(CensusFault::NoTile) => Err(no_tile(alloc, tile)),
        Err(CensusFault::TooLarge) => Err(limit(alloc, b"limit count\n")),
        Err(CensusFault::OutOfMemory) => Err(CommandFault::OutOfMemory),
    }
}
