// The lines of a block's lists.
ghost use Rattle.std.specs.Prelude.{◌≡◌, ◌≤◌, ◌+◌, IfOk};
ghost use Rattle.wt_line.specs.Faults.{ReadsTokens, ReadsLine};
ghost use Rattle.wt_refute.specs.Refutation.{node_count};
ghost use Rattle.wt_refute.specs.View.{refutation};
ghost use Rattle.wt_text.specs.Words.{tokens};
ghost use Rattle.wt_text.specs.Readers.{mapped};
ghost use Rattle.wt_cert.specs.LineForms.{pair_form, refuted_form, lost_form, image_form};
ghost use Rattle.wt_cert.specs.LineForms as line_forms;
ghost use Rattle.wt_cert.specs.Parts.{with_refuted, with_lost};
ghost use Rattle.wt_cert.specs.Seen.{refuted_view, lost_view};
ghost use Rattle.wt_cert.specs.Trees as trees;
ghost use Rattle.wt_line.specs.Left.{tokens_left, ReadsRest};

use crate::limits::{MAX_LEVELS, MAX_NODES};
use crate::read::forms::tree_form;
use crate::read::trees::tree_within;
use std::alloc::Global;
use wt_chain::Version;
use wt_line::{LineFault, Rest, What, axis, line_end, radius, small_number};
use wt_morphism::Image;
use wt_refute::{Refuted, Tree};
use wt_step::Lost;

/// A tree with the nodes so far, its own included.
#[derive(Drop)]
pub struct Grown {
    /// The tree.
    pub tree: Tree,
    /// The nodes of all trees of the certificate up to it.
    pub nodes: u32,
}

/// `a b`.
#[tactic(auto, unfolding(crate::specs::LineForms::pair_form, wt_text::specs::Readers::whole, wt_text::specs::Readers::both))]
pub fn pair_row(line: &[u8]) -> Result<(u16, u16), LineFault>
    ensures { ReadsLine (λ x. x) result (pair_form (tokens line.now)) }
{
    let (a, rest) = small_number(Rest::new(line))?;
    let (b, rest) = small_number(rest)?;
    line_end(rest)?;
    Ok((a?, b?))
}

/// `u`, or `u v`.
#[tactic(auto, using(crate::proofs::Images::one_image, crate::proofs::Images::two_images), unfolding(crate::specs::LineForms::image_form, wt_text::specs::Readers::whole))]
pub fn image_row(line: &[u8]) -> Result<Image, LineFault>
    ensures { ReadsLine (λ x. x) result (image_form (tokens line.now)) }
{
    let (u, rest) = small_number(Rest::new(line))?;
    if !rest.more {
        return Ok(Image::One(u?));
    }
    let (v, rest) = small_number(rest)?;
    line_end(rest)?;
    Ok(Image::Two(u?, v?))
}

/// Only trees of version two cite.
fn may_cite(version: Version) -> bool
    ensures { result ≡ line_forms.may_cite version }
{
    match version {
        Version::One => false,
        Version::Two => true,
    }
}

/// The radius of a refutation: its step's, or in version two one of its own.
fn radius_in(
    version: Version,
    given: u8,
    rest: Rest<'_>,
) -> Result<(Result<u8, What>, Rest<'_>), LineFault>
    ensures { ReadsRest (line_forms.radius_in version given) result rest.entry }
{
    match version {
        Version::One => Ok((Ok(given), rest)),
        Version::Two => radius(rest),
    }
}

/// A tree to the end of the line, where n nodes came before. Its form comes before its limits, so where it passes one
/// the form is asked too.
#[tactic(auto, using(crate::proofs::TreeLines::tree_ends, crate::proofs::TreeLines::tree_goes_on, crate::proofs::TreeLines::no_tree, crate::proofs::TreeLines::no_form))]
fn tree_to_end(
    alloc: Global,
    citing: bool,
    nodes: u32,
    rest: Rest<'_>,
) -> Result<(Result<Grown, What>, Rest<'_>), LineFault>
    ensures read { ReadsTokens (λ x. (mapped (λ g. refutation g.tree) x.0, tokens_left x.1)) result (trees.tree_to_end citing nodes (tokens_left rest.entry)) }
    ensures nodes { IfOk result (λ x. IfOk x.0 (λ g. g.nodes ≡ nodes + node_count (refutation g.tree))) }
    ensures room { IfOk result (λ x. IfOk x.0 (λ g. g.nodes ≤ MAX_NODES)) }
{
    match tree_within(alloc, citing, MAX_LEVELS, nodes, rest) {
        Ok((tree, nodes, after)) => {
            if after.more {
                return Err(LineFault::Wrong);
            }
            Ok((Ok(Grown { tree, nodes }), after))
        }
        Err(LineFault::Wrong) => Err(LineFault::Wrong),
        Err(LineFault::OutOfMemory) => Err(LineFault::OutOfMemory),
        Err(LineFault::Past(what)) => {
            if !tree_form(citing, rest) {
                return Err(LineFault::Wrong);
            }
            let none = Rest {
                line: rest.line,
                more: false,
            };
            Ok((Err(what), none))
        }
    }
}

/// `A a b TREE`, or in version two `A a b R TREE`, with the nodes so far.
#[tactic(auto, unfolding(crate::specs::LineForms::refuted_form, wt_text::specs::Readers::whole, wt_text::specs::Readers::both))]
pub fn refuted_row(
    alloc: Global,
    version: Version,
    radius: u8,
    nodes: u32,
    line: &[u8],
) -> Result<(Refuted, u32), LineFault>
    ensures read { ReadsLine (λ x. refuted_view x.0) result (refuted_form version radius nodes (tokens line.now)) }
    ensures nodes { IfOk result (λ x. x.1 ≡ with_refuted nodes x.0) }
    ensures room { IfOk result (λ x. x.1 ≤ MAX_NODES) }
{
    let (axis, rest) = axis(Rest::new(line))?;
    let (a, rest) = small_number(rest)?;
    let (b, rest) = small_number(rest)?;
    let (radius, rest) = radius_in(version, radius, rest)?;
    let (grown, rest) = tree_to_end(alloc, may_cite(version), nodes, rest)?;
    line_end(rest)?;
    let a = a?;
    let b = b?;
    let radius = radius?;
    let grown = grown?;
    let refuted = Refuted {
        axis,
        a,
        b,
        radius,
        tree: grown.tree,
    };
    Ok((refuted, grown.nodes))
}

/// `t TREE`, with the nodes so far.
#[tactic(auto, unfolding(crate::specs::LineForms::lost_form, wt_text::specs::Readers::whole, wt_text::specs::Readers::both))]
pub fn lost_row(alloc: Global, nodes: u32, line: &[u8]) -> Result<(Lost, u32), LineFault>
    ensures read { ReadsLine (λ x. lost_view x.0) result (lost_form nodes (tokens line.now)) }
    ensures nodes { IfOk result (λ x. x.1 ≡ with_lost nodes x.0) }
    ensures room { IfOk result (λ x. x.1 ≤ MAX_NODES) }
{
    let (tile, rest) = small_number(Rest::new(line))?;
    let (grown, rest) = tree_to_end(alloc, true, nodes, rest)?;
    line_end(rest)?;
    let tile = tile?;
    let grown = grown?;
    let lost = Lost {
        tile,
        tree: grown.tree,
    };
    Ok((lost, grown.nodes))
}
