//! Light chains.
ghost use Rattle.std.specs.Prelude.{◌≡◌, ◌≤◌, ℕ, All, IfOk, IfErr, IfSome, Ok, map};
ghost use Rattle.wt_search.specs.Found.{limited};
ghost use Rattle.wt_chain.specs.Limits.{nodes_with_lost};
ghost use Rattle.wt_search.specs.Light.{with_entries};
ghost use Rattle.wt_search.specs.Light as light;
ghost use Rattle.wt_search.specs.Lightened.{MayStop, after_link, after_links, MayBeSpentIn, MayBeSpentFrom, MayAnswerLighten, IsFaultless};

use crate::finding::nodes_after;
use crate::lower::light_entries;
use crate::{LightenEnd, MAX_NODES};
use std::alloc::{AllocError, Global};
use wt_chain::{Accepted, RawChain, Version};
use wt_refute::Refuted;
use wt_seq::Seq;
use wt_step::{Lost, RawLink, RawStep, copy_link};

/// The nodes so far with those of the trees of lost tiles, or none where they are more than the limit.
fn nodes_with(nodes: usize, losses: &[Lost]) -> Option<usize>
    requires { nodes ≤ MAX_NODES }
    ensures value { result ≡ limited (nodes_with_lost nodes losses.now) }
    ensures few { IfSome result (λ n. n ≤ MAX_NODES) }
{
    let mut sum = nodes;
    for lost in losses {
        match nodes_after(sum, &lost.tree) {
            None => return None,
            Some(more) => sum = more,
        }
    }
    Some(sum)
}

/// An equal step with other refutations.
fn copy_with(alloc: Global, raw: &RawStep, refuted: Vec<Refuted>) -> Result<RawStep, AllocError>
    ensures { IfOk result (λ step. step ≡ with_entries raw.now refuted.items) }
{
    let fine = raw.fine.copy(alloc)?;
    let coarse = raw.coarse.copy(alloc)?;
    let markers = raw.markers.copy(alloc)?;
    let allowed1 = raw.allowed1.copy(alloc)?;
    let allowed2 = raw.allowed2.copy(alloc)?;
    let images = raw.images.copy(alloc)?;
    Ok(RawStep {
        axis: raw.axis,
        side: raw.side,
        radius: raw.radius,
        fine,
        coarse,
        markers,
        allowed1,
        allowed2,
        refuted: Seq::new(refuted),
        images,
    })
}

/// The light step of a good one of either kind, and the nodes so far with those of its trees.
fn light_link(
    alloc: Global,
    link: &RawLink,
    step: usize,
    budget: u64,
    nodes: usize,
) -> Result<(RawLink, usize), LightenEnd>
    requires good { IsFaultless link.now }
    requires few { nodes ≤ MAX_NODES }
    ensures link { IfOk result (λ r. r.0 ≡ light.light_link link.now) }
    ensures nodes { IfOk result (λ r. (after_link step budget link.now nodes ≡ Ok r.1) × (r.1 ≤ MAX_NODES)) }
    ensures end { IfErr result (λ e. MayStop (MayBeSpentIn step budget link.now nodes e) (after_link step budget link.now nodes) e) }
{
    match link {
        RawLink::Marker(raw) => {
            let (refuted, nodes) = match light_entries(alloc, raw, step, budget, nodes) {
                Ok(lowered) => lowered,
                Err(end) => return Err(end),
            };
            let copied = copy_with(alloc, raw, refuted)?;
            Ok((RawLink::Marker(copied), nodes))
        }
        RawLink::Restrict(raw) => {
            let Some(nodes) = nodes_with(nodes, raw.lost.as_slice()) else {
                return Err(LightenEnd::TooManyNodes { step });
            };
            let copied = copy_link(alloc, link)?;
            Ok((copied, nodes))
        }
    }
}

/// The light steps of good ones.
fn light_links(alloc: Global, links: &[RawLink], budget: u64) -> Result<Vec<RawLink>, LightenEnd>
    requires { All IsFaultless links.now }
    ensures links { IfOk result (λ lights. lights.items ≡ map light.light_link links.now) }
    ensures nodes { IfOk result (λ lights. (n : ℕ) × (after_links 0 budget links.now 0 ≡ Ok n)) }
    ensures end { IfErr result (λ e. MayStop (MayBeSpentFrom 0 budget links.now 0 e) (after_links 0 budget links.now 0) e) }
{
    let mut lights = Vec::new(alloc);
    let mut nodes = 0usize;
    for (step, link) in links.iter().enumerate() {
        let (light, more) = match light_link(alloc, link, step, budget, nodes) {
            Ok(lightened) => lightened,
            Err(end) => return Err(end),
        };
        let Ok(()) = lights.push(light) else {
            return Err(LightenEnd::OutOfMemory);
        };
        nodes = more;
    }
    Ok(lights)
}

/// The light chain: in version two, where each refuted pair of a step has the least radius, from 1 on, at which its
/// window is empty, and its standard tree with the step's entries of lower radius known. All else is as before, trees
/// of lost tiles included. That it is good is proved (`light_chains_are_good`), and not tested again. Else the chain
/// comes back with the first end that is met. A window may be spent only where its trials are more than the budget,
/// and always is at budget 0; a tree is exactly where its nodes are more.
pub fn lighten(
    alloc: Global,
    chain: Accepted,
    budget: u64,
) -> Result<Accepted, (Accepted, LightenEnd)>
    ensures { MayAnswerLighten chain budget result }
{
    let steps = match light_links(alloc, chain.raw().steps.as_slice(), budget) {
        Ok(steps) => steps,
        Err(end) => return Err((chain, end)),
    };
    let raw = chain.into_raw();
    Ok(Accepted::of(RawChain {
        version: Version::Two,
        steps: Seq::new(steps),
        end: raw.end,
    }))
}
