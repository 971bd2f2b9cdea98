//! The word `torus`.
ghost use Rattle.std.specs.Prelude.{◌≡◌, IfOk, map, string_bytes};
ghost use Rattle.wt_torus.specs.Letters.{label_of};
ghost use Rattle.wt_session.specs.Said.{Replies};
ghost use Rattle.wt_session.specs.Torus.{different, torus_fault_text, torus_reply};
ghost use Rattle.wt_session.specs.Torus as spec;

use crate::partitions::{PartitionFault, partition};
use crate::reply::{Answer, CommandFault, refused_line};
use crate::value::Value;
use std::alloc::{AllocError, Global};
use wt_script::{RawBox, RawRegion};
use wt_seq::Seq;
use wt_torus::{Labelled, Partition};

/// Whether a region has this label.
fn is_among(label: u16, regions: &[Labelled]) -> bool
    ensures { result ≡ spec.is_among label (map label_of regions.now) }
{
    for r in regions {
        if r.label == label {
            return true;
        }
    }
    false
}

/// How many different labels the regions have.
fn different_labels(regions: &[Labelled]) -> usize
    ensures { result ≡ different (map label_of regions.now) }
{
    let mut count = 0;
    let mut rest = regions;
    while let [r, after @ ..] = rest {
        if !is_among(r.label, after) {
            count += 1;
        }
        rest = after;
    }
    count
}

fn torus_line(alloc: Global, p: &Partition) -> Result<String, AllocError>
    ensures { IfOk result (λ text. string_bytes text ≡ spec.torus_text p.now) }
{
    let regions = p.regions.as_slice().len();
    let labels = different_labels(p.regions.as_slice());
    format!(in alloc; "torus {regions} regions {labels} labels\n")
}

fn fault_line(alloc: Global, fault: PartitionFault) -> Result<String, AllocError>
    ensures { IfOk result (λ text. string_bytes text ≡ torus_fault_text fault) }
{
    match fault {
        PartitionFault::Torus => String::from_str(alloc, "refused torus\n"),
        PartitionFault::Plane { region, plane } => {
            format!(in alloc; "refused plane {region} {plane}\n")
        }
    }
}

/// `torus N GA GB Ga Gb n`: the partition of n regions, bound to a name.
pub fn torus(
    alloc: Global,
    name: &Seq<u8>,
    sides: &RawBox,
    regions: &[RawRegion],
) -> Result<Answer, CommandFault>
    ensures { Replies (λ reply. reply ≡ torus_reply name.now sides.now regions.now) result }
{
    match partition(alloc, sides, regions)? {
        Ok(partition) => {
            let text = Seq::new(torus_line(alloc, &partition)?.into_bytes());
            Ok(Answer::Binds {
                name: name.copy(alloc)?,
                value: Value::Partition(partition),
                text,
            })
        }
        Err(fault) => Err(refused_line(fault_line(alloc, fault)?)),
    }
}
