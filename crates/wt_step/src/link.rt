// Good steps of either kind, owned or borrowed.
ghost use Rattle.std.specs.Prelude.{◌≡◌, None, Some, MatchResult};
ghost use Rattle.wt_step.specs.Links.{fine_of, coarse_of, radius_of};
ghost use Rattle.wt_step.specs.Links as links;
ghost use Rattle.wt_step.specs.Views.{link_of};
ghost use Rattle.wt_step.specs.declared.raw.RawLink.TheVariants as raw_link;

use crate::restrict::restrict_fault;
use crate::step::step_fault;
use crate::{RawLink, RestrictRef, Step, StepFault, StepRef};
use std::marker::Model;
use wt_tile::SetRef;

/// A good step of either kind. Contracts see the `RawLink`.
#[derive(Drop)]
pub struct Link {
    raw: RawLink,
}

impl Model for Link {
    ghost use Rattle.std.specs.Prelude.{◌≡◌, None};
    ghost use Rattle.std.specs.Coded.{codes};
    ghost use Rattle.wt_refute.specs.contracts.tree.Tree as tree;
    ghost use Rattle.wt_step.specs.declared.raw.RawLink.{RawLink};
    ghost use Rattle.wt_step.specs.Links.{link_fault};

    ghost Value = { RawLink };

    ghost coded = { Prim.hlevel (codes, tree.the_row.coded) };

    ghost view = { λ l. l.raw };

    ghost invariant = { λ l. link_fault l.raw ≡ None };
}

/// The first failing condition of a step, or none exactly where it is good. Takes no memory.
#[tactic(auto, unfolding(crate::specs::Links::link_fault))]
pub fn link_fault(raw: &RawLink) -> Option<StepFault>
    ensures { result ≡ links.link_fault raw.now }
{
    match raw {
        RawLink::Marker(step) => step_fault(step),
        RawLink::Restrict(step) => restrict_fault(step),
    }
}

/// Takes a good step of either kind, or gives it back with its first failing condition. Takes no memory.
pub fn accept_link(raw: RawLink) -> Result<Link, (RawLink, StepFault)>
    ensures { MatchResult result
        (λ link. (link ≡ raw) × (links.link_fault raw ≡ None))
        (λ e. (e.0 ≡ raw) × (links.link_fault raw ≡ Some e.1)) }
{
    match link_fault(&raw) {
        None => Ok(Link { raw }),
        Some(fault) => Err((raw, fault)),
    }
}

impl Link {
    /// The link of a marker step.
    #[tactic(auto, unfolding(crate::specs::Links::link_fault))]
    pub fn marker(step: Step) -> Link
        ensures { result ≡ raw_link.Marker step }
    {
        Link {
            raw: RawLink::Marker(step.into_raw()),
        }
    }

    /// The step, borrowed.
    pub fn view(&self) -> LinkRef<'_>
        ensures { link_of result ≡ self.now }
    {
        LinkRef::new(&self.raw)
    }

    /// The step as it was read. Takes no memory.
    pub fn into_raw(self) -> RawLink
        ensures same { result ≡ self }
        ensures good { links.link_fault result ≡ None }
    {
        self.raw
    }
}

/// A good step of either kind, borrowed.
#[derive(Clone, Copy)]
pub enum LinkRef<'a> {
    /// A good marker step.
    Marker(StepRef<'a>),
    /// A good restrict step.
    Restrict(RestrictRef<'a>),
}

impl<'a> LinkRef<'a> {
    /// Borrows a step that is known to be good.
    #[tactic(auto, unfolding(crate::specs::Links::link_fault))]
    pub fn new(raw: &'a RawLink) -> LinkRef<'a>
        requires { links.link_fault raw.now ≡ None }
        ensures { link_of result ≡ raw.now }
    {
        match raw {
            RawLink::Marker(step) => LinkRef::Marker(StepRef { raw: step }),
            RawLink::Restrict(step) => LinkRef::Restrict(RestrictRef { raw: step }),
        }
    }

    /// The set that the step takes apart.
    #[tactic(auto, using(crate::proofs::Sides::marker_fine, crate::proofs::Sides::restrict_fine))]
    pub fn fine(self) -> SetRef<'a>
        ensures { result.list.now ≡ fine_of (link_of self.entry) }
    {
        match self {
            LinkRef::Marker(step) => SetRef::of(&step.raw.fine),
            LinkRef::Restrict(step) => SetRef::of(&step.raw.fine),
        }
    }

    /// The set of the coarse patterns.
    #[tactic(auto, using(crate::proofs::Sides::marker_coarse, crate::proofs::Sides::restrict_coarse))]
    pub fn coarse(self) -> SetRef<'a>
        ensures { result.list.now ≡ coarse_of (link_of self.entry) }
    {
        match self {
            LinkRef::Marker(step) => SetRef::of(&step.raw.coarse),
            LinkRef::Restrict(step) => SetRef::of(&step.raw.coarse),
        }
    }

    /// The lines that a core loses on each side.
    pub fn radius(self) -> u8
        ensures { result ≡ radius_of (link_of self.entry) }
    {
        match self {
            LinkRef::Marker(step) => step.raw.radius,
            LinkRef::Restrict(step) => step.raw.radius,
        }
    }
}
