// Lists of a certificate, written as text.
ghost use Rattle.std.specs.Prelude.{◌≡◌, ◌++◌, ◌∷◌, [], OnOk, length, map, codes};
ghost use Rattle.std.specs.Fmt.{decimal};
ghost use Rattle.wt_text.specs.Lines.{bytes_of};
ghost use Rattle.wt_text.specs.Spellings.{line_spelling};
ghost use Rattle.wt_write.specs.Behind.{behind_spaces};
ghost use Rattle.wt_refute.specs.View.{refutation};
ghost use Rattle.wt_cert.specs.Trees.{tree_spelling, axis_word};
ghost use Rattle.wt_cert.specs.Spelling.{line, axis_digit, radius_tokens, count_tokens, numbers_tokens, tiles_lines, pair_tokens, allowed_lines, image_tokens, images_lines, refuted_tokens, refuted_lines, lost_tokens, lost_lines};

use std::alloc::AllocError;
use wt_chain::Version;
use wt_morphism::Image;
use wt_pattern::push_tiles;
use wt_refute::{Refuted, Tree};
use wt_step::Lost;
use wt_tile::{Axis, TileList};
use wt_write::{end_line, number_behind, push_number, push_numbers, push_word, word_behind};

/// Appends a line of a word and a number.
pub fn push_count(out: &mut Vec<u8>, word: &str, count: usize) -> Result<(), AllocError>
    ensures { OnOk result (out.new.items ≡ out.old.items ++ bytes_of (line (count_tokens word.now count))) }
{
    push_word(out, word)?;
    number_behind(out, count as u64)?;
    end_line(out)?;
    Ok(())
}

/// Appends a line of a word, a count and n numbers.
pub fn push_list(out: &mut Vec<u8>, word: &str, numbers: &[u16]) -> Result<(), AllocError>
    ensures { OnOk result (out.new.items ≡ out.old.items ++ bytes_of (line (numbers_tokens word.now numbers.now))) }
{
    push_word(out, word)?;
    number_behind(out, numbers.len() as u64)?;
    push_numbers(out, numbers)?;
    end_line(out)?;
    Ok(())
}

/// Appends a list of tiles behind a line of a word and their number.
pub fn push_list_of_tiles(out: &mut Vec<u8>, word: &str, list: &TileList) -> Result<(), AllocError>
    ensures { OnOk result (out.new.items ≡ out.old.items ++ bytes_of (tiles_lines word.now list.now)) }
{
    push_count(out, word, list.tiles.as_slice().len())?;
    push_tiles(out, list)?;
    Ok(())
}

fn push_pair(out: &mut Vec<u8>, pair: (u16, u16)) -> Result<(), AllocError>
    ensures { OnOk result (out.new.items ≡ out.old.items ++ bytes_of (line_spelling pair_tokens pair)) }
{
    push_number(out, u64::from(pair.0))?;
    number_behind(out, u64::from(pair.1))?;
    end_line(out)?;
    Ok(())
}

/// Appends the allowed pairs of an axis, which is named 1 or 2.
pub fn push_allowed(out: &mut Vec<u8>, axis: &str, pairs: &[(u16, u16)]) -> Result<(), AllocError>
    ensures { OnOk result (out.new.items ≡ out.old.items ++ bytes_of (allowed_lines axis.now pairs.now)) }
{
    push_word(out, "allowed")?;
    word_behind(out, axis)?;
    number_behind(out, pairs.len() as u64)?;
    end_line(out)?;
    for pair in pairs {
        push_pair(out, *pair)?;
    }
    Ok(())
}

fn push_image(out: &mut Vec<u8>, image: Image) -> Result<(), AllocError>
    ensures { OnOk result (out.new.items ≡ out.old.items ++ bytes_of (line_spelling image_tokens image)) }
{
    match image {
        Image::One(u) => push_number(out, u64::from(u))?,
        Image::Two(u, v) => {
            push_number(out, u64::from(u))?;
            number_behind(out, u64::from(v))?;
        }
    }
    end_line(out)?;
    Ok(())
}

/// Appends the images.
pub fn push_images(out: &mut Vec<u8>, images: &[Image]) -> Result<(), AllocError>
    ensures { OnOk result (out.new.items ≡ out.old.items ++ bytes_of (images_lines images.now)) }
{
    push_count(out, "images", images.len())?;
    for image in images {
        push_image(out, *image)?;
    }
    Ok(())
}

/// Appends how a citing node names its axis.
fn cited_behind(out: &mut Vec<u8>, axis: Axis) -> Result<(), AllocError>
    ensures { OnOk result (out.new.items ≡ out.old.items ++ 32 ∷ axis_word axis) }
{
    match axis {
        Axis::One => word_behind(out, "c1"),
        Axis::Two => word_behind(out, "c2"),
    }
}

/// Appends each token of a tree behind a space, node by node, parents first.
fn push_tree(out: &mut Vec<u8>, tree: &Tree) -> Result<(), AllocError>
    ensures { OnOk result (out.new.items ≡ out.old.items ++ behind_spaces (tree_spelling (refutation tree.now))) }
{
    match tree {
        Tree::Cite { cell, axis } => {
            number_behind(out, u64::from(*cell))?;
            cited_behind(out, *axis)?;
            Ok(())
        }
        Tree::Branch { cell, children } => {
            number_behind(out, u64::from(*cell))?;
            let children = children.as_slice();
            number_behind(out, children.len() as u64)?;
            for child in children {
                number_behind(out, u64::from(child.tile))?;
                push_tree(out, &child.tree)?;
            }
            Ok(())
        }
    }
}

/// 1 or 2 for an axis.
pub fn push_axis(out: &mut Vec<u8>, axis: Axis) -> Result<(), AllocError>
    ensures { OnOk result (out.new.items ≡ out.old.items ++ axis_digit axis) }
{
    match axis {
        Axis::One => push_word(out, "1"),
        Axis::Two => push_word(out, "2"),
    }
}

/// Appends a refutation's radius, which version two alone tells.
fn radius_behind(out: &mut Vec<u8>, version: Version, radius: u8) -> Result<(), AllocError>
    ensures { OnOk result (out.new.items ≡ out.old.items ++ behind_spaces (radius_tokens version radius)) }
{
    match version {
        Version::One => Ok(()),
        Version::Two => number_behind(out, u64::from(radius)),
    }
}

fn push_refutation(out: &mut Vec<u8>, version: Version, entry: &Refuted) -> Result<(), AllocError>
    ensures { OnOk result (out.new.items ≡ out.old.items ++ bytes_of (line_spelling (refuted_tokens version) entry.now)) }
{
    push_axis(out, entry.axis)?;
    number_behind(out, u64::from(entry.a))?;
    number_behind(out, u64::from(entry.b))?;
    radius_behind(out, version, entry.radius)?;
    push_tree(out, &entry.tree)?;
    end_line(out)?;
    Ok(())
}

/// Appends the refutations, with their radius in version two alone.
pub fn push_refuted(
    out: &mut Vec<u8>,
    version: Version,
    refuted: &[Refuted],
) -> Result<(), AllocError>
    ensures { OnOk result (out.new.items ≡ out.old.items ++ bytes_of (refuted_lines version refuted.now)) }
{
    push_count(out, "refuted", refuted.len())?;
    for entry in refuted {
        push_refutation(out, version, entry)?;
    }
    Ok(())
}

fn push_lost_tile(out: &mut Vec<u8>, lost: &Lost) -> Result<(), AllocError>
    ensures { OnOk result (out.new.items ≡ out.old.items ++ bytes_of (line_spelling lost_tokens lost.now)) }
{
    push_number(out, u64::from(lost.tile))?;
    push_tree(out, &lost.tree)?;
    end_line(out)?;
    Ok(())
}

/// Appends the lost tiles of a restrict step.
pub fn push_lost(out: &mut Vec<u8>, lost: &[Lost]) -> Result<(), AllocError>
    ensures { OnOk result (out.new.items ≡ out.old.items ++ bytes_of (lost_lines lost.now)) }
{
    push_count(out, "lost", lost.len())?;
    for tile in lost {
        push_lost_tile(out, tile)?;
    }
    Ok(())
}
