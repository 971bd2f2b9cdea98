//! Partitions, made of what is read of them.
ghost use Rattle.std.specs.Prelude.{◌≡◌, IfOk, None, Some, if◌then◌else◌};
ghost use Rattle.wt_plane.specs.HalfPlanes.{raw_half};
ghost use Rattle.wt_session.specs.Partitions.{half_from, half_of, halves_from, labelled, partition_of, regions_from, rotation_of};
ghost use Rattle.wt_text.specs.Readers.{mapped};
ghost use Rattle.wt_torus.specs.Boxes.{is_rotation};

use std::alloc::{AllocError, Global};
use wt_plane::{HalfPlane, Region};
use wt_script::{RawBox, RawRegion};
use wt_seq::Seq;
use wt_torus::{Labelled, Partition, Torus};

/// Why what was read makes no partition.
#[derive(Clone, Copy, Debug, PartialEq, Eq, Drop)]
pub enum PartitionFault {
    /// The box and the moves are no torus: a move isn't above 0 and below its side.
    Torus,
    /// The first half-plane that is none, by region and then by half-plane.
    Plane {
        /// The region, counted from 0.
        region: usize,
        /// The half-plane among those of the region, counted from 0.
        plane: usize,
    },
}

/// The half-plane of six numbers, where they are those of one.
fn made_plane(p0: i64, p1: i64, q0: i64, q1: i64, r0: i64, r1: i64) -> Option<HalfPlane>
    ensures { result ≡ half_from (raw_half p0 p1 q0 q1 r0 r1) }
{
    match HalfPlane::new(p0, p1, q0, q1, r0, r1) {
        Ok(plane) => Some(plane),
        Err(_) => None,
    }
}

/// The half-plane of a line of six numbers, where they are those of one.
fn half_plane(numbers: &[i64; 6]) -> Option<HalfPlane>
    ensures { result ≡ half_of numbers.now }
{
    made_plane(
        numbers[0], numbers[1], numbers[2], numbers[3], numbers[4], numbers[5],
    )
}

/// The half-planes of a region, or the number of the first that is none.
#[tactic(auto, using(crate::proofs::Made::begins, crate::proofs::Made::one_half, crate::proofs::Made::no_half, crate::proofs::Made::halves_done))]
fn half_planes(
    alloc: Global,
    planes: &[[i64; 6]],
) -> Result<Result<Vec<HalfPlane>, usize>, AllocError>
    ensures { IfOk result (λ r. mapped (λ v. v.items) r ≡ halves_from 0 planes.now) }
{
    let mut made = Vec::with_capacity(alloc, planes.len())?;
    for (j, numbers) in planes.iter().enumerate() {
        match half_plane(numbers) {
            Some(plane) => made.push(plane)?,
            None => return Ok(Err(j)),
        }
    }
    Ok(Ok(made))
}

/// Region i with its half-planes, or its first half-plane that is none.
fn region(
    alloc: Global,
    i: usize,
    raw: &RawRegion,
) -> Result<Result<Labelled, PartitionFault>, AllocError>
    ensures { IfOk result (λ r. r ≡ labelled i raw.now.label (halves_from 0 raw.now.planes)) }
{
    match half_planes(alloc, raw.planes.as_slice())? {
        Ok(planes) => Ok(Ok(Labelled {
            label: raw.label,
            region: Region {
                planes: Seq::new(planes),
            },
        })),
        Err(plane) => Ok(Err(PartitionFault::Plane { region: i, plane })),
    }
}

/// The regions, or the first half-plane that is none.
#[tactic(auto, using(crate::proofs::Made::begins, crate::proofs::Made::one_region, crate::proofs::Made::no_region, crate::proofs::Made::regions_done))]
fn regions(
    alloc: Global,
    raws: &[RawRegion],
) -> Result<Result<Vec<Labelled>, PartitionFault>, AllocError>
    ensures { IfOk result (λ r. mapped (λ v. v.items) r ≡ regions_from 0 raws.now) }
{
    let mut made = Vec::with_capacity(alloc, raws.len())?;
    for (i, raw) in raws.iter().enumerate() {
        match region(alloc, i, raw)? {
            Ok(labelled) => made.push(labelled)?,
            Err(fault) => return Ok(Err(fault)),
        }
    }
    Ok(Ok(made))
}

/// The torus of a box and its moves, where they are one.
fn torus(sides: &RawBox) -> Option<Torus>
    ensures { result ≡ if is_rotation (rotation_of sides.now) then Some (rotation_of sides.now) else None }
{
    Torus::new(sides.width, sides.height, sides.move1, sides.move2).ok()
}

/// The partition that a box, its moves and regions make as they were read. `Torus` comes exactly where the four numbers
/// are no torus; then `Plane` at the first half-plane, by region and then by half-plane, that is none.
pub fn partition(
    alloc: Global,
    sides: &RawBox,
    raws: &[RawRegion],
) -> Result<Result<Partition, PartitionFault>, AllocError>
    ensures { IfOk result (λ r. r ≡ partition_of sides.now raws.now) }
{
    let Some(torus) = torus(sides) else {
        return Ok(Err(PartitionFault::Torus));
    };
    match regions(alloc, raws)? {
        Ok(regions) => Ok(Ok(Partition {
            torus,
            regions: Seq::new(regions),
        })),
        Err(fault) => Ok(Err(fault)),
    }
}
