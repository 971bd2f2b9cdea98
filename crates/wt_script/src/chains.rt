// Commands on chains.
ghost use Rattle.std.specs.Prelude.{◌≡◌, IfOk, ◌≤◌};
ghost use Rattle.wt_text.specs.Words.{tokens};
ghost use Rattle.wt_line.specs.Faults.{ReadsLine};
ghost use Rattle.wt_line.specs.Left.{ReadsPlace};
ghost use Rattle.wt_script.specs.Forms.{expand_form, image_form, lighten_form};
ghost use Rattle.wt_script.specs.Parts.{bound_part, cert_part, expand_part, image_part, lighten_part, upgrade_part};
ghost use Rattle.wt_script.specs.Fits.{Fits};

use crate::limits::MAX_MADE;
use crate::rows::{named_row, names_row, vector_row};
use crate::token::{large, name, owned};
use crate::word::Word;
use std::alloc::Global;
use wt_line::{
    LineFault, Place, Rest, TextFault, What, line_end, next_line, number_from_one, placed,
    small_number, word,
};

/// `cert C`.
#[tactic(auto, unfolding(crate::specs::Parts::cert_part, wt_text::specs::Readers::one_line, wt_text::specs::Readers::seen_as))]
pub fn cert_at(alloc: Global, place: Place<'_>) -> Result<(Word, Place<'_>), TextFault>
    ensures read { ReadsPlace cert_part result place.entry }
    ensures fits { IfOk result (λ x. Fits x.0) }
{
    let (line, next) = next_line(place)?;
    let chain = placed(named_row("cert", line), place.number)?;
    let word = Word::Cert {
        chain: owned(alloc, chain)?,
    };
    Ok((word, next))
}

/// `upgrade N C`.
#[tactic(auto, unfolding(crate::specs::Parts::upgrade_part, wt_text::specs::Readers::one_line, wt_text::specs::Readers::seen_as))]
pub fn upgrade_at(alloc: Global, place: Place<'_>) -> Result<(Word, Place<'_>), TextFault>
    ensures read { ReadsPlace upgrade_part result place.entry }
    ensures fits { IfOk result (λ x. Fits x.0) }
{
    let (line, next) = next_line(place)?;
    let (bound, chain) = placed(names_row("upgrade", line), place.number)?;
    let word = Word::Upgrade {
        name: owned(alloc, bound)?,
        chain: owned(alloc, chain)?,
    };
    Ok((word, next))
}

#[tactic(auto, using(wt_line::proofs::Ended::goes_on_is_wrong), unfolding(crate::specs::Forms::lighten_form, wt_text::specs::Readers::whole, wt_text::specs::Readers::value_behind, wt_text::specs::Readers::both))]
fn lighten_row(line: &[u8]) -> Result<(&[u8], &[u8], u64), LineFault>
    ensures read { ReadsLine (λ x. (x.0.now, (x.1.now, x.2))) result (lighten_form (tokens line.now)) }
{
    let rest = word("lighten", Rest::new(line))?;
    let (bound, rest) = name(rest)?;
    let (chain, rest) = name(rest)?;
    let (budget, rest) = large(rest)?;
    line_end(rest)?;
    Ok((bound, chain, budget?))
}

/// `lighten N C B`.
#[tactic(auto, unfolding(crate::specs::Parts::lighten_part, wt_text::specs::Readers::one_line, wt_text::specs::Readers::seen_as))]
pub fn lighten_at(alloc: Global, place: Place<'_>) -> Result<(Word, Place<'_>), TextFault>
    ensures read { ReadsPlace lighten_part result place.entry }
    ensures fits { IfOk result (λ x. Fits x.0) }
{
    let (line, next) = next_line(place)?;
    let (bound, chain, budget) = placed(lighten_row(line), place.number)?;
    let word = Word::Lighten {
        name: owned(alloc, bound)?,
        chain: owned(alloc, chain)?,
        budget,
    };
    Ok((word, next))
}

#[tactic(auto, using(wt_line::proofs::Ended::goes_on_is_wrong), unfolding(crate::specs::Forms::expand_form, wt_text::specs::Readers::whole, wt_text::specs::Readers::value_behind, wt_text::specs::Readers::both))]
fn expand_row(line: &[u8]) -> Result<(&[u8], &[u8], u32, u32), LineFault>
    ensures read { ReadsLine (λ x. (x.0.now, (x.1.now, (x.2, x.3)))) result (expand_form (tokens line.now)) }
    ensures within { IfOk result (λ x. (1 ≤ x.2) × (x.2 ≤ MAX_MADE) × (1 ≤ x.3) × (x.3 ≤ MAX_MADE)) }
{
    let rest = word("expand", Rest::new(line))?;
    let (bound, rest) = name(rest)?;
    let (chain, rest) = name(rest)?;
    let (width, rest) = number_from_one(MAX_MADE, What::Width, rest)?;
    let (height, rest) = number_from_one(MAX_MADE, What::Height, rest)?;
    line_end(rest)?;
    Ok((bound, chain, width?, height?))
}

/// `expand N C w h`.
#[tactic(auto, unfolding(crate::specs::Parts::expand_part, wt_text::specs::Readers::one_line, wt_text::specs::Readers::seen_as))]
pub fn expand_at(alloc: Global, place: Place<'_>) -> Result<(Word, Place<'_>), TextFault>
    ensures read { ReadsPlace expand_part result place.entry }
    ensures fits { IfOk result (λ x. Fits x.0) }
{
    let (line, next) = next_line(place)?;
    let (bound, chain, width, height) = placed(expand_row(line), place.number)?;
    let word = Word::Expand {
        name: owned(alloc, bound)?,
        chain: owned(alloc, chain)?,
        width: width as usize,
        height: height as usize,
    };
    Ok((word, next))
}

#[tactic(auto, using(wt_line::proofs::Ended::goes_on_is_wrong), unfolding(crate::specs::Forms::image_form, wt_text::specs::Readers::whole, wt_text::specs::Readers::value_behind, wt_text::specs::Readers::both))]
fn image_row(line: &[u8]) -> Result<(&[u8], u16), LineFault>
    ensures read { ReadsLine (λ x. (x.0.now, x.1)) result (image_form (tokens line.now)) }
{
    let rest = word("image", Rest::new(line))?;
    let (chain, rest) = name(rest)?;
    let (tile, rest) = small_number(rest)?;
    line_end(rest)?;
    Ok((chain, tile?))
}

/// `image C t`.
#[tactic(auto, unfolding(crate::specs::Parts::image_part, wt_text::specs::Readers::one_line, wt_text::specs::Readers::seen_as))]
pub fn image_at(alloc: Global, place: Place<'_>) -> Result<(Word, Place<'_>), TextFault>
    ensures read { ReadsPlace image_part result place.entry }
    ensures fits { IfOk result (λ x. Fits x.0) }
{
    let (line, next) = next_line(place)?;
    let (chain, tile) = placed(image_row(line), place.number)?;
    let word = Word::Image {
        chain: owned(alloc, chain)?,
        tile,
    };
    Ok((word, next))
}

/// `bound C x y`.
#[tactic(auto, unfolding(crate::specs::Parts::bound_part, wt_text::specs::Readers::one_line, wt_text::specs::Readers::seen_as))]
pub fn bound_at(alloc: Global, place: Place<'_>) -> Result<(Word, Place<'_>), TextFault>
    ensures read { ReadsPlace bound_part result place.entry }
    ensures fits { IfOk result (λ x. Fits x.0) }
{
    let (line, next) = next_line(place)?;
    let (chain, dx, dy) = placed(vector_row("bound", line), place.number)?;
    let word = Word::Bound {
        chain: owned(alloc, chain)?,
        dx,
        dy,
    };
    Ok((word, next))
}
