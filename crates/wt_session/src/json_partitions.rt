// Partitions as JSON.
ghost use Rattle.std.specs.Prelude.{◌≡◌, IfOk, map, string_bytes};
ghost use Rattle.serde_json.specs.View.{view};
ghost use Rattle.wt_session.specs.Json.{golden_text, signed};
ghost use Rattle.wt_session.specs.Json as spec;

use serde_json::{Value, json};
use std::alloc::{AllocError, Global};
use wt_golden::Golden;
use wt_plane::HalfPlane;
use wt_torus::{Labelled, Partition};

fn golden_line(alloc: Global, number: Golden) -> Result<String, AllocError>
    ensures { IfOk result (λ text. string_bytes text ≡ golden_text number) }
{
    let (a, b, d) = number.parts();
    format!(in alloc; "{a}:{b}:{d}")
}

fn golden_json(alloc: Global, number: Golden) -> Result<Value, AllocError>
    ensures { IfOk result (λ v. view v ≡ spec.golden_json number) }
{
    Ok(Value::String(golden_line(alloc, number)?))
}

#[tactic(auto, using(crate::proofs::Jsons::one_more))]
fn plane_numbers(alloc: Global, numbers: &[i64]) -> Result<Vec<Value>, AllocError>
    ensures { IfOk result (λ v. map view v.items ≡ map signed numbers.now) }
{
    let mut items = Vec::with_capacity(alloc, numbers.len())?;
    for number in numbers {
        items.push(Value::from(*number))?;
    }
    Ok(items)
}

fn plane_json(alloc: Global, plane: HalfPlane) -> Result<Value, AllocError>
    ensures { IfOk result (λ v. view v ≡ spec.plane_json plane) }
{
    let numbers = plane.numbers();
    Ok(Value::Array(plane_numbers(alloc, &numbers)?))
}

#[tactic(auto, using(crate::proofs::Jsons::one_more))]
fn planes_json(alloc: Global, planes: &[HalfPlane]) -> Result<Vec<Value>, AllocError>
    ensures { IfOk result (λ v. map view v.items ≡ map spec.plane_json planes.now) }
{
    let mut items = Vec::with_capacity(alloc, planes.len())?;
    for plane in planes {
        items.push(plane_json(alloc, *plane)?)?;
    }
    Ok(items)
}

fn region_json(alloc: Global, r: &Labelled) -> Result<Value, AllocError>
    ensures { IfOk result (λ v. view v ≡ spec.region_json r.now) }
{
    let planes = Value::Array(planes_json(alloc, r.region.planes.as_slice())?);
    let label = r.label;
    json!(in alloc; {"label": label, "planes": planes})
}

#[tactic(auto, using(crate::proofs::Jsons::one_more))]
fn regions_json(alloc: Global, regions: &[Labelled]) -> Result<Vec<Value>, AllocError>
    ensures { IfOk result (λ v. map view v.items ≡ map spec.region_json regions.now) }
{
    let mut items = Vec::with_capacity(alloc, regions.len())?;
    for r in regions {
        items.push(region_json(alloc, r)?)?;
    }
    Ok(items)
}

/// A partition as JSON.
pub fn partition_json(alloc: Global, p: &Partition) -> Result<Value, AllocError>
    ensures { IfOk result (λ v. view v ≡ spec.partition_json p.now) }
{
    let width = golden_json(alloc, p.torus.width())?;
    let height = golden_json(alloc, p.torus.height())?;
    let move1 = golden_json(alloc, p.torus.move1())?;
    let move2 = golden_json(alloc, p.torus.move2())?;
    let regions = Value::Array(regions_json(alloc, p.regions.as_slice())?);
    json!(in alloc; {"box": [width, height], "kind": "partition", "move": [move1, move2], "regions": regions})
}
