// A partition, read from a text of its own.
ghost use Rattle.std.specs.Prelude.{◌≡◌, Ok, MatchResult};
ghost use Rattle.wt_line.specs.Faults.{ReadsText};
ghost use Rattle.wt_text.specs.Readers.{whole_text};
ghost use Rattle.wt_session.specs.TorusTexts.{IsPartitionRead, IsTorusTextFault};
ghost use Rattle.wt_session.specs.TorusTexts as spec;

use crate::partitions::{PartitionFault, partition};
use std::alloc::{AllocError, Global};
use wt_line::{Place, TextFault, text_end};
use wt_script::{RawTorus, torus_at};
use wt_torus::Partition;

/// Why a text says no partition.
#[derive(Clone, Copy, Debug, PartialEq, Eq)]
pub enum TorusTextFault {
    /// The first fault of the text, or that no memory was left.
    Text(TextFault),
    /// A move isn't above 0 and below the side of its axis.
    Torus,
    /// The numbers of this half-plane of this region, the first of all, are those of none.
    Plane { region: usize, plane: usize },
}

/// The torus that the bytes say, or the first fault of the text.
#[tactic(auto, using(wt_line::proofs::Ended::more_fails), unfolding(wt_text::specs::Readers::whole_text))]
fn torus_of(alloc: Global, bytes: &[u8]) -> Result<RawTorus, TextFault>
    ensures { ReadsText (λ torus. torus) result (spec.torus_of bytes.now) }
{
    let (torus, place) = torus_at(alloc, Place::new(bytes))?;
    text_end(place)?;
    Ok(torus)
}

/// The partition that a torus makes.
fn made(alloc: Global, torus: &RawTorus) -> Result<Partition, TorusTextFault>
    ensures { MatchResult result (IsPartitionRead (Ok torus.now)) (IsTorusTextFault (Ok torus.now)) }
{
    match partition(alloc, &torus.sides, torus.regions.as_slice()) {
        Ok(Ok(p)) => Ok(p),
        Ok(Err(PartitionFault::Torus)) => Err(TorusTextFault::Torus),
        Ok(Err(PartitionFault::Plane { region, plane })) => {
            Err(TorusTextFault::Plane { region, plane })
        }
        Err(AllocError) => Err(TorusTextFault::Text(TextFault::OutOfMemory)),
    }
}

/// The partition that a torus text says: the line `torus GA GB Ga Gb n`, n regions, and nothing behind them. Else the first
/// of these faults: the first fault of the text, `Torus` exactly where a move isn't above 0 and below the side of its axis,
/// and `Plane` with the first half-plane, by region and then by plane, whose numbers are those of none. Want of memory is a
/// fault of the text, and may come before each other answer.
pub fn read_torus(alloc: Global, bytes: &[u8]) -> Result<Partition, TorusTextFault>
    ensures { MatchResult result (IsPartitionRead (spec.torus_of bytes.now)) (IsTorusTextFault (spec.torus_of bytes.now)) }
{
    match torus_of(alloc, bytes) {
        Ok(torus) => made(alloc, &torus),
        Err(fault) => Err(TorusTextFault::Text(fault)),
    }
}
