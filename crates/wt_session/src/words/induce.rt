//! The word `induce`.
ghost use Rattle.std.specs.Prelude.{◌≡◌, ◌++◌, IfOk, OnOk};
ghost use Rattle.wt_session.specs.Said.{Replies};
ghost use Rattle.wt_session.specs.Induce.{IsInduceReply, induced_text, label_text, labels_text};

use crate::lookup::partition_named;
use crate::names::Names;
use crate::reply::{Answer, CommandFault, limit, refused};
use crate::value::Value;
use crate::words::code::golden_limit;
use crate::words::derive::push_image;
use std::alloc::{AllocError, Global};
use wt_grid::{Axis, Image};
use wt_induce::InduceFault;
use wt_seq::Seq;
use wt_write::{end_line, push_number, push_word};

/// Appends a label with what it stands for.
fn push_label(out: &mut Vec<u8>, label: usize, image: Image) -> Result<(), AllocError>
    ensures { OnOk result (out.new.items ≡ out.old.items ++ label_text label image) }
{
    push_number(out, label as u64)?;
    push_word(out, ": ")?;
    push_image(out, image)
}

/// Appends each label with what it stands for.
fn push_labels(out: &mut Vec<u8>, images: &[Image]) -> Result<(), AllocError>
    ensures { OnOk result (out.new.items ≡ out.old.items ++ labels_text 0 images.now) }
{
    for (j, image) in images.iter().enumerate() {
        push_label(out, j, *image)?;
    }
    Ok(())
}

fn induced_bytes(alloc: Global, images: &[Image]) -> Result<Vec<u8>, AllocError>
    ensures { IfOk result (λ text. text.items ≡ induced_text images.now) }
{
    let mut text = Vec::new(alloc);
    push_word(&mut text, "induced ")?;
    push_number(&mut text, images.len() as u64)?;
    end_line(&mut text)?;
    push_labels(&mut text, images)?;
    Ok(text)
}

/// `induce N T A`: the partition that is induced along an axis, bound to a name.
#[tactic(auto, unfolding(wt_induce::specs::Induced::morphism))]
pub fn induce(
    alloc: Global,
    names: &Names,
    name: &Seq<u8>,
    torus: &[u8],
    axis: Axis,
) -> Result<Answer, CommandFault>
    ensures { Replies (IsInduceReply names.now name.now torus.now axis) result }
{
    let p = partition_named(alloc, names, torus)?;
    match wt_induce::induce(alloc, p, axis) {
        Ok((partition, morphism)) => {
            let text = Seq::new(induced_bytes(alloc, morphism.table.as_slice())?);
            Ok(Answer::Binds {
                name: name.copy(alloc)?,
                value: Value::Partition(partition),
                text,
            })
        }
        Err(InduceFault::Half) => Err(refused(alloc, b"refused half\n")),
        Err(InduceFault::TooLarge) => Err(golden_limit(alloc)),
        Err(InduceFault::TooManyPlanes) => Err(limit(alloc, b"limit planes\n")),
        Err(InduceFault::TooManyRegions) => Err(limit(alloc, b"limit regions\n")),
        Err(InduceFault::TooManyLabels) => Err(limit(alloc, b"limit labels\n")),
        Err(InduceFault::OutOfMemory) => Err(CommandFault::OutOfMemory),
    }
}
