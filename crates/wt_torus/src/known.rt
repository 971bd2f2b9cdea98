//! What every partition that a caller holds is: its torus is one, and its half-planes have directions.
ghost use Rattle.wt_plane.specs.HalfPlanes.{AllDirected};
ghost use Rattle.wt_torus.specs.Sound.{RegionsDirected, IsSound};

use crate::{Labelled, Partition};
use wt_plane::HalfPlane;

fn planes_directed(planes: &[HalfPlane])
    ensures { AllDirected planes.now }
{
    for h in planes {
        h.half_plane();
    }
}

fn regions_directed(regions: &[Labelled])
    ensures { RegionsDirected regions.now }
{
    for r in regions {
        planes_directed(r.region.planes.as_slice());
    }
}

/// Does nothing but to look at each half-plane; its clause is what the laws of induction ask of a partition.
pub fn sound(p: &Partition)
    ensures { IsSound p.now }
{
    p.torus.torus();
    regions_directed(p.regions.as_slice());
}
