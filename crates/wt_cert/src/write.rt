// The text of a chain.
ghost use Rattle.std.specs.Prelude.{◌≡◌, ◌++◌, ◌∷◌, [], OnOk, IfOk, codes};
ghost use Rattle.wt_text.specs.Lines.{bytes_of};
ghost use Rattle.wt_cert.specs.Spelling.{line, version_word, marker_head, restrict_head, marker_lines, restrict_lines, link_lines, blocks_lines, end_lines, cert_lines, side_word};

mod lines;

use crate::write::lines::{
    push_allowed, push_axis, push_count, push_images, push_list, push_list_of_tiles, push_lost,
    push_refuted,
};
use std::alloc::{AllocError, Global};
use wt_chain::{End, RawChain, Version};
use wt_step::{RawLink, RawRestrict, RawStep};
use wt_tile::Side;
use wt_write::{end_line, number_behind, push_word, word_behind};

fn push_side(out: &mut Vec<u8>, side: Side) -> Result<(), AllocError>
    ensures { OnOk result (out.new.items ≡ out.old.items ++ side_word side) }
{
    match side {
        Side::After => push_word(out, "after"),
        Side::Before => push_word(out, "before"),
    }
}

/// Appends the first line of marker step `k`.
fn push_marker_head(out: &mut Vec<u8>, k: usize, step: &RawStep) -> Result<(), AllocError>
    ensures { OnOk result (out.new.items ≡ out.old.items ++ bytes_of (line (marker_head k step.now))) }
{
    push_word(out, "step")?;
    number_behind(out, k as u64)?;
    push_word(out, " axis ")?;
    push_axis(out, step.axis)?;
    push_word(out, " side ")?;
    push_side(out, step.side)?;
    push_word(out, " radius")?;
    number_behind(out, u64::from(step.radius))?;
    end_line(out)?;
    Ok(())
}

/// Appends the block of marker step `k`.
#[tactic(auto, unfolding(crate::specs::Spelling::marker_lines))]
fn push_marker(
    out: &mut Vec<u8>,
    version: Version,
    k: usize,
    step: &RawStep,
) -> Result<(), AllocError>
    ensures { OnOk result (out.new.items ≡ out.old.items ++ bytes_of (marker_lines version k step.now)) }
{
    push_marker_head(out, k, step)?;
    push_list_of_tiles(out, "fine", &step.fine)?;
    push_list_of_tiles(out, "coarse", &step.coarse)?;
    push_list(out, "markers", step.markers.as_slice())?;
    push_allowed(out, "1", step.allowed1.as_slice())?;
    push_allowed(out, "2", step.allowed2.as_slice())?;
    push_refuted(out, version, step.refuted.as_slice())?;
    push_images(out, step.images.as_slice())?;
    Ok(())
}

/// Appends the block of restrict step `k`.
#[tactic(auto, unfolding(crate::specs::Spelling::restrict_lines))]
fn push_restrict(out: &mut Vec<u8>, k: usize, step: &RawRestrict) -> Result<(), AllocError>
    ensures { OnOk result (out.new.items ≡ out.old.items ++ bytes_of (restrict_lines k step.now)) }
{
    push_restrict_head(out, k, step)?;
    push_list_of_tiles(out, "fine", &step.fine)?;
    push_list_of_tiles(out, "coarse", &step.coarse)?;
    push_list(out, "kept", step.kept.as_slice())?;
    push_lost(out, step.lost.as_slice())?;
    Ok(())
}

/// Appends the first line of restrict step `k`.
fn push_restrict_head(out: &mut Vec<u8>, k: usize, step: &RawRestrict) -> Result<(), AllocError>
    ensures { OnOk result (out.new.items ≡ out.old.items ++ bytes_of (line (restrict_head k step.now))) }
{
    push_word(out, "step")?;
    number_behind(out, k as u64)?;
    push_word(out, " restrict radius")?;
    number_behind(out, u64::from(step.radius))?;
    end_line(out)?;
    Ok(())
}

fn push_link(
    out: &mut Vec<u8>,
    version: Version,
    k: usize,
    link: &RawLink,
) -> Result<(), AllocError>
    ensures { OnOk result (out.new.items ≡ out.old.items ++ bytes_of (link_lines version k link.now)) }
{
    match link {
        RawLink::Marker(step) => push_marker(out, version, k, step),
        RawLink::Restrict(step) => push_restrict(out, k, step),
    }
}

/// Appends the blocks of the steps, which are numbered from 0.
fn push_blocks(out: &mut Vec<u8>, version: Version, links: &[RawLink]) -> Result<(), AllocError>
    ensures { OnOk result (out.new.items ≡ out.old.items ++ bytes_of (blocks_lines version 0 links.now)) }
{
    for (k, link) in links.iter().enumerate() {
        push_link(out, version, k, link)?;
    }
    Ok(())
}

fn push_end(out: &mut Vec<u8>, end: &End) -> Result<(), AllocError>
    ensures { OnOk result (out.new.items ≡ out.old.items ++ bytes_of (end_lines end.now)) }
{
    match end {
        End::Open => {
            push_word(out, "open\n")?;
            Ok(())
        }
        End::Loop {
            start,
            renaming,
            expansion,
        } => {
            push_word(out, "loop")?;
            number_behind(out, u64::from(*start))?;
            number_behind(out, u64::from(*expansion))?;
            end_line(out)?;
            push_list(out, "renaming", renaming.as_slice())?;
            Ok(())
        }
    }
}

/// Appends the first line.
fn push_version(out: &mut Vec<u8>, version: Version) -> Result<(), AllocError>
    ensures { OnOk result (out.new.items ≡ out.old.items ++ bytes_of (line (codes "certificate" ∷ version_word version ∷ []))) }
{
    match version {
        Version::One => push_word(out, "certificate 1\n"),
        Version::Two => push_word(out, "certificate 2\n"),
    }
}

/// The text of a chain: its lines in their order, its lists as they are stored. A tree is written by a
/// recursion as deep as the tree.
#[tactic(auto, unfolding(crate::specs::Spelling::cert_lines))]
pub fn write_cert(alloc: Global, raw: &RawChain) -> Result<Vec<u8>, AllocError>
    ensures { IfOk result (λ text. text.items ≡ bytes_of (cert_lines raw.now)) }
{
    let mut text = Vec::new(alloc);
    let links = raw.steps.as_slice();
    push_version(&mut text, raw.version)?;
    push_count(&mut text, "steps", links.len())?;
    push_blocks(&mut text, raw.version, links)?;
    push_end(&mut text, &raw.end)?;
    push_word(&mut text, "end\n")?;
    Ok(text)
}
