// Commands on tile sets.
ghost use Rattle.std.specs.Prelude.{◌≡◌, IfOk};
ghost use Rattle.wt_text.specs.Words.{tokens};
ghost use Rattle.wt_line.specs.Faults.{ReadsLine};
ghost use Rattle.wt_line.specs.Left.{ReadsPlace};
ghost use Rattle.wt_script.specs.Forms.{fuse_form};
ghost use Rattle.wt_script.specs.Parts.{fuse_part, same_part};
ghost use Rattle.wt_script.specs.Fits.{Fits};

use crate::rows::names_row;
use crate::token::{name, owned};
use crate::word::Word;
use std::alloc::Global;
use wt_grid::Axis;
use wt_line::{
    LineFault, Place, Rest, TextFault, axis, line_end, next_line, placed, small_number, word,
};

#[tactic(auto, using(wt_line::proofs::Ended::goes_on_is_wrong), unfolding(crate::specs::Forms::fuse_form, wt_text::specs::Readers::whole, wt_text::specs::Readers::value_behind, wt_text::specs::Readers::both))]
fn fuse_row(line: &[u8]) -> Result<(&[u8], Axis, u16, u16), LineFault>
    ensures read { ReadsLine (λ x. (x.0.now, (x.1, (x.2, x.3)))) result (fuse_form (tokens line.now)) }
{
    let rest = word("fuse", Rest::new(line))?;
    let (set, rest) = name(rest)?;
    let (axis, rest) = axis(rest)?;
    let (u, rest) = small_number(rest)?;
    let (v, rest) = small_number(rest)?;
    line_end(rest)?;
    Ok((set, axis, u?, v?))
}

/// `fuse S A u v`.
#[tactic(auto, unfolding(crate::specs::Parts::fuse_part, wt_text::specs::Readers::one_line, wt_text::specs::Readers::seen_as))]
pub fn fuse_at(alloc: Global, place: Place<'_>) -> Result<(Word, Place<'_>), TextFault>
    ensures read { ReadsPlace fuse_part result place.entry }
    ensures fits { IfOk result (λ x. Fits x.0) }
{
    let (line, next) = next_line(place)?;
    let (set, axis, u, v) = placed(fuse_row(line), place.number)?;
    let word = Word::Fuse {
        set: owned(alloc, set)?,
        axis,
        u,
        v,
    };
    Ok((word, next))
}

/// `same S T`.
#[tactic(auto, unfolding(crate::specs::Parts::same_part, wt_text::specs::Readers::one_line, wt_text::specs::Readers::seen_as))]
pub fn same_at(alloc: Global, place: Place<'_>) -> Result<(Word, Place<'_>), TextFault>
    ensures read { ReadsPlace same_part result place.entry }
    ensures fits { IfOk result (λ x. Fits x.0) }
{
    let (line, next) = next_line(place)?;
    let (from, to) = placed(names_row("same", line), place.number)?;
    let word = Word::Same {
        from: owned(alloc, from)?,
        to: owned(alloc, to)?,
    };
    Ok((word, next))
}
