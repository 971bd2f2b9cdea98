// The first failing condition of a chain.
ghost use Rattle.std.specs.Prelude.{◌≡◌, ◌∷◌, drop, None, Some, option_map};
ghost use Rattle.wt_step.specs.Links.{fine_of};
ghost use Rattle.wt_chain.specs.Sets.{AreLinked, IsRun, IsClosedBy, first_count};
ghost use Rattle.wt_chain.specs.Faults as spec;

use crate::growth::{growth_fault, least_expansion};
use crate::sets::{coarse_set, fine_set, follows, last_set};
use crate::version::version_fits;
use crate::{End, RawChain, Refusal};
use wt_bijection::check_renaming;
use wt_step::{RawLink, link_fault};
use wt_tile::{SetRef, TileList};

fn size_fault(raw: &RawChain) -> Option<Refusal>
    ensures { result ≡ spec.size_fault raw.now }
{
    let steps = raw.steps.as_slice();
    if steps.is_empty() {
        return Some(Refusal::Empty);
    }
    if steps.len() > 32 {
        return Some(Refusal::TooManySteps);
    }
    if version_fits(raw.version, steps) {
        None
    } else {
        Some(Refusal::Version)
    }
}

fn step_fault_at(k: usize, before: Option<&TileList>, link: &RawLink) -> Option<Refusal>
    ensures { result ≡ spec.step_fault_at k (option_map (λ set. set.now) before.entry) link.now }
{
    if let Some(fault) = link_fault(link) {
        return Some(Refusal::Step { step: k, fault });
    }
    if follows(before, fine_set(link)) {
        None
    } else {
        Some(Refusal::NotNext { step: k })
    }
}

fn steps_fault(links: &[RawLink]) -> Option<Refusal>
    ensures { result ≡ spec.steps_fault links.now }
{
    let mut before = None;
    for (k, link) in links.iter().enumerate() {
        if let Some(fault) = step_fault_at(k, before, link) {
            return Some(fault);
        }
        before = Some(coarse_set(link));
    }
    None
}

/// The first fault of a renaming from the last set to the first, and of the growth of images.
fn closing_fault(
    links: &[RawLink],
    first: &RawLink,
    others: &[RawLink],
    renaming: &[u16],
    turns: u32,
) -> Option<Refusal>
    requires whole { links.now ≡ first.now ∷ others.now }
    requires linked { AreLinked (fine_of first.now) (first.now ∷ others.now) }
    ensures { result ≡ spec.loop_fault (first.now ∷ others.now) renaming.now turns }
{
    let from = SetRef::of(last_set(coarse_set(first), others));
    let to = SetRef::of(fine_set(first));
    match check_renaming(from, to, renaming) {
        Err(i) => Some(Refusal::Renaming { tile: i as u16 }),
        Ok(()) => growth_fault(links, renaming, turns, to.tiles().len() as u16),
    }
}

/// The first fault of a loop of good steps, of which each takes apart the set before it.
pub fn loop_fault(links: &[RawLink], renaming: &[u16], turns: u32) -> Option<Refusal>
    requires { IsRun links.now }
    ensures { result ≡ spec.loop_fault links.now renaming.now turns }
{
    match links {
        [] => Some(Refusal::Start),
        [first, others @ ..] => closing_fault(links, first, others, renaming, turns),
    }
}

/// The least expansion of a loop whose steps are good and whose renaming has no fault.
pub fn loop_expansion(links: &[RawLink], renaming: &[u16]) -> Option<u32>
    requires { IsClosedBy links.now renaming.now }
    ensures { result ≡ spec.least_expansion links.now renaming.now (first_count links.now) }
{
    match links {
        [] => None,
        [first, others @ ..] => closed_expansion(links, first, others, renaming),
    }
}

fn closed_expansion(
    links: &[RawLink],
    first: &RawLink,
    others: &[RawLink],
    renaming: &[u16],
) -> Option<u32>
    requires whole { links.now ≡ first.now ∷ others.now }
    requires closed { IsClosedBy (first.now ∷ others.now) renaming.now }
    ensures { result ≡ spec.least_expansion (first.now ∷ others.now) renaming.now (first_count (first.now ∷ others.now)) }
{
    let set = SetRef::of(fine_set(first));
    least_expansion(links, renaming, set.tiles().len() as u16)
}

/// The steps from one on.
pub fn steps_from(links: &[RawLink], start: u16) -> &[RawLink]
    ensures { result.now ≡ drop start links.now }
{
    let start = usize::from(start);
    if start < links.len() {
        &links[start..]
    } else {
        &[]
    }
}

fn end_fault(links: &[RawLink], end: &End) -> Option<Refusal>
    requires { IsRun links.now }
    ensures { result ≡ spec.end_fault links.now end.now }
{
    match end {
        End::Open => None,
        End::Loop {
            start,
            renaming,
            expansion,
        } => loop_fault(steps_from(links, *start), renaming.as_slice(), *expansion),
    }
}

/// The first failing condition of a chain, or none. In this order: 1 to 32 steps; in version one no tree cites,
/// each refutation has its step's radius, and no step restricts; for each step from 0 its own conditions, and
/// that it takes apart the coarse set of the step before it, colours and names included; for a loop that its
/// start is a step, that the renaming carries the last set onto the set there, and that the stated turns make
/// the
/// image of each tile there at least two wide and two high. Takes no memory.
#[tactic(auto, unfolding(crate::specs::Faults::chain_fault))]
pub fn chain_fault(raw: &RawChain) -> Option<Refusal>
    ensures { result ≡ spec.chain_fault raw.now }
{
    if let Some(fault) = size_fault(raw) {
        return Some(fault);
    }
    let steps = raw.steps.as_slice();
    match steps_fault(steps) {
        Some(fault) => Some(fault),
        None => end_fault(steps, &raw.end),
    }
}
