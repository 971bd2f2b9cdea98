// What the two versions of certificates allow.
ghost use Rattle.std.specs.Prelude.{◌≡◌};
ghost use Rattle.std.specs.List.{list_all};
ghost use Rattle.wt_refute.specs.View.{refutation};
ghost use Rattle.wt_chain.specs.Versions as spec;

use crate::Version;
use wt_refute::{Refuted, Tree};
use wt_step::RawLink;

/// Whether a node of the tree cites.
pub fn cites(tree: &Tree) -> bool
    ensures { result ≡ spec.cites (refutation tree.now) }
{
    match tree {
        Tree::Cite { cell: _, axis: _ } => true,
        Tree::Branch { cell: _, children } => {
            for child in children.as_slice() {
                if cites(&child.tree) {
                    return true;
                }
            }
            false
        }
    }
}

fn is_plain(radius: u8, refuted: &Refuted) -> bool
    ensures { result ≡ spec.is_plain radius refuted.now }
{
    refuted.radius == radius && !cites(&refuted.tree)
}

fn are_plain(radius: u8, refuted: &[Refuted]) -> bool
    ensures { result ≡ list_all (spec.is_plain radius) refuted.now }
{
    for entry in refuted {
        if !is_plain(radius, entry) {
            return false;
        }
    }
    true
}

/// Whether version one has this step.
pub fn is_first_version(link: &RawLink) -> bool
    ensures { result ≡ spec.is_first_version link.now }
{
    match link {
        RawLink::Marker(step) => are_plain(step.radius, step.refuted.as_slice()),
        RawLink::Restrict(_) => false,
    }
}

fn are_first_version(links: &[RawLink]) -> bool
    ensures { result ≡ list_all spec.is_first_version links.now }
{
    for link in links {
        if !is_first_version(link) {
            return false;
        }
    }
    true
}

/// Whether the version has these steps.
pub fn version_fits(version: Version, links: &[RawLink]) -> bool
    ensures { result ≡ spec.version_fits version links.now }
{
    match version {
        Version::One => are_first_version(links),
        Version::Two => true,
    }
}

/// Version one while it has all the steps.
pub fn version_of(links: &[RawLink]) -> Version
    ensures { result ≡ spec.version_of links.now }
{
    if are_first_version(links) {
        Version::One
    } else {
        Version::Two
    }
}
