// Chains as JSON.
ghost use Rattle.std.specs.Prelude.{◌≡◌, IfOk, map, length};
ghost use Rattle.serde_json.specs.View.{view};
ghost use Rattle.wt_step.specs.Links.{coarse_of};
ghost use Rattle.wt_chain.specs.Sets as chain_sets;
ghost use Rattle.wt_session.specs.Json.{whole};
ghost use Rattle.wt_session.specs.Json as json_words;

use crate::json::numbers;
use serde_json::{Value, json};
use std::alloc::{AllocError, Global};
use wt_chain::{End, RawChain, coarse_set, fine_set};
use wt_morphism::Image;
use wt_step::{Lost, RawLink, RawRestrict, RawStep};
use wt_tile::{Axis, Side};

fn image_json(alloc: Global, image: Image) -> Result<Value, AllocError>
    ensures { IfOk result (λ v. view v ≡ json_words.image_json image) }
{
    match image {
        Image::One(u) => json!(in alloc; [u]),
        Image::Two(u, v) => json!(in alloc; [u, v]),
    }
}

#[tactic(auto, using(crate::proofs::Jsons::one_more))]
fn images_json(alloc: Global, images: &[Image]) -> Result<Vec<Value>, AllocError>
    ensures { IfOk result (λ v. map view v.items ≡ map json_words.image_json images.now) }
{
    let mut items = Vec::with_capacity(alloc, images.len())?;
    for image in images {
        items.push(image_json(alloc, *image)?)?;
    }
    Ok(items)
}

fn marker_json(alloc: Global, step: &RawStep) -> Result<Value, AllocError>
    ensures { IfOk result (λ v. view v ≡ json_words.step_json (RawLink.Marker step.now)) }
{
    let axis = match step.axis {
        Axis::One => 1u8,
        Axis::Two => 2u8,
    };
    let side = match step.side {
        Side::After => "after",
        Side::Before => "before",
    };
    let images = Value::Array(images_json(alloc, step.images.as_slice())?);
    let markers = numbers(alloc, step.markers.as_slice())?;
    let radius = step.radius;
    json!(in alloc; {"axis": axis, "images": images, "markers": markers, "radius": radius, "side": side})
}

#[tactic(auto, using(crate::proofs::Jsons::one_more))]
fn lost_json(alloc: Global, lost: &[Lost]) -> Result<Vec<Value>, AllocError>
    ensures { IfOk result (λ v. map view v.items ≡ map whole (map (λ (x : Lost). x.tile) lost.now)) }
{
    let mut items = Vec::with_capacity(alloc, lost.len())?;
    for entry in lost {
        items.push(Value::from(entry.tile))?;
    }
    Ok(items)
}

fn restrict_json(alloc: Global, step: &RawRestrict) -> Result<Value, AllocError>
    ensures { IfOk result (λ v. view v ≡ json_words.step_json (RawLink.Restrict step.now)) }
{
    let kept = numbers(alloc, step.kept.as_slice())?;
    let lost = Value::Array(lost_json(alloc, step.lost.as_slice())?);
    let radius = step.radius;
    json!(in alloc; {"kept": kept, "lost": lost, "radius": radius})
}

fn step_json(alloc: Global, link: &RawLink) -> Result<Value, AllocError>
    ensures { IfOk result (λ v. view v ≡ json_words.step_json link.now) }
{
    match link {
        RawLink::Marker(step) => marker_json(alloc, step),
        RawLink::Restrict(step) => restrict_json(alloc, step),
    }
}

#[tactic(auto, using(crate::proofs::Jsons::one_more))]
fn steps_json(alloc: Global, links: &[RawLink]) -> Result<Vec<Value>, AllocError>
    ensures { IfOk result (λ v. map view v.items ≡ map json_words.step_json links.now) }
{
    let mut items = Vec::with_capacity(alloc, links.len())?;
    for link in links {
        items.push(step_json(alloc, link)?)?;
    }
    Ok(items)
}

fn first_count(links: &[RawLink]) -> usize
    ensures { result ≡ chain_sets.first_count links.now }
{
    match links {
        [] => 0,
        [first, ..] => fine_set(first).tiles.as_slice().len(),
    }
}

/// The numbers of tiles by level.
#[tactic(auto, using(crate::proofs::Jsons::one_more))]
fn sizes_json(alloc: Global, links: &[RawLink]) -> Result<Vec<Value>, AllocError>
    ensures { IfOk result (λ v. map view v.items ≡ map whole (json_words.sizes links.now)) }
{
    let mut items = Vec::new(alloc);
    items.push(Value::from(first_count(links)))?;
    for link in links {
        items.push(Value::from(coarse_set(link).tiles.as_slice().len()))?;
    }
    Ok(items)
}

fn end_json(alloc: Global, end: &End) -> Result<Value, AllocError>
    ensures { IfOk result (λ v. view v ≡ json_words.end_json end.now) }
{
    match end {
        End::Open => Value::try_from_str(alloc, "open"),
        End::Loop {
            start,
            renaming,
            expansion,
        } => {
            let renaming = numbers(alloc, renaming.as_slice())?;
            json!(in alloc; {"expansion": *expansion, "renaming": renaming, "start": *start})
        }
    }
}

pub fn chain_json(alloc: Global, chain: &RawChain) -> Result<Value, AllocError>
    ensures { IfOk result (λ v. view v ≡ json_words.chain_json chain.now) }
{
    let end = end_json(alloc, &chain.end)?;
    let sets = Value::Array(sizes_json(alloc, chain.steps.as_slice())?);
    let steps = Value::Array(steps_json(alloc, chain.steps.as_slice())?);
    json!(in alloc; {"end": end, "kind": "chain", "sets": sets, "steps": steps})
}
