// The lines of a certificate that say what follows them.
ghost use Rattle.std.specs.Prelude.{◌≡◌, ◌≤◌, IfOk};
ghost use Rattle.std.specs.Fmt.{decimal};
ghost use Rattle.wt_line.specs.Faults.{ReadsTokens, ReadsLine};
ghost use Rattle.wt_text.specs.Words.{tokens};
ghost use Rattle.wt_text.specs.Readers.{mapped, seen_value, first, second};
ghost use Rattle.wt_cert.specs.LineForms.{alone_form, count_form, version_form, steps_form, head_form, allowed_form, end_form};
ghost use Rattle.wt_cert.specs.LineForms as spec;
ghost use Rattle.wt_cert.specs.Seen.{head_view, end_view};
ghost use Rattle.wt_line.specs.Left.{tokens_left};

use crate::read::words::this_number;
use wt_chain::Version;
use wt_line::{
    LineFault, Rest, What, axis, line_end, next_token, number_from_one, number_to, radius, side,
    small_number, word,
};
use wt_tile::{Axis, Side};

const MAX_STEPS: u32 = 32;

const MAX_EXPANSION: u32 = 256;

/// The first line of a block: a marker step's, or a restrict step's.
#[derive(Clone, Copy)]
pub enum Head {
    /// The axis, the side and the radius of a marker step.
    Marker { axis: Axis, side: Side, radius: u8 },
    /// The radius of a restrict step.
    Restrict { radius: u8 },
}

/// The line after the last step.
#[derive(Clone, Copy)]
pub enum EndLine {
    /// The chain is open.
    Open,
    /// The level that a loop leads back to, and its turns.
    Loop { start: u16, expansion: u32 },
}

/// A word, and no more.
#[tactic(auto, unfolding(crate::specs::LineForms::alone_form, wt_text::specs::Readers::whole, wt_text::specs::Readers::value_behind))]
pub fn alone_row(name: &str, line: &[u8]) -> Result<(), LineFault>
    ensures { ReadsLine (λ x. x) result (alone_form name.now (tokens line.now)) }
{
    let rest = word(name, Rest::new(line))?;
    line_end(rest)
}

/// A word, and a count of what follows.
#[tactic(auto, unfolding(crate::specs::LineForms::count_form, wt_text::specs::Readers::whole, wt_text::specs::Readers::value_behind))]
pub fn count_row(name: &str, most: u32, what: What, line: &[u8]) -> Result<u32, LineFault>
    ensures within { IfOk result (λ n. n ≤ most) }
    ensures read { ReadsLine (λ x. x) result (count_form name.now most what (tokens line.now)) }
{
    let rest = word(name, Rest::new(line))?;
    let (count, rest) = number_to(most, what, rest)?;
    line_end(rest)?;
    Ok(count?)
}

/// `allowed 1 c` or `allowed 2 c`.
#[tactic(auto, unfolding(crate::specs::LineForms::allowed_form, wt_text::specs::Readers::whole, wt_text::specs::Readers::value_behind))]
pub fn allowed_row(axis: &str, line: &[u8]) -> Result<u32, LineFault>
    ensures { ReadsLine (λ x. x) result (allowed_form axis.now (tokens line.now)) }
{
    let rest = word("allowed", Rest::new(line))?;
    let rest = word(axis, rest)?;
    let (count, rest) = number_to(65536, What::Pairs, rest)?;
    line_end(rest)?;
    Ok(count?)
}

/// `certificate 1` or `certificate 2`.
#[tactic(auto, unfolding(crate::specs::LineForms::version_form, wt_text::specs::Readers::whole, wt_text::specs::Readers::value_behind))]
pub fn version_row(line: &[u8]) -> Result<Version, LineFault>
    ensures { ReadsLine (λ x. x) result (version_form (tokens line.now)) }
{
    let rest = word("certificate", Rest::new(line))?;
    let Some((token, rest)) = next_token(rest) else {
        return Err(LineFault::Wrong);
    };
    let version = if token == b"1".as_slice() {
        Version::One
    } else if token == b"2".as_slice() {
        Version::Two
    } else {
        return Err(LineFault::Wrong);
    };
    line_end(rest)?;
    Ok(version)
}

/// `steps S`.
#[tactic(auto, unfolding(crate::specs::LineForms::steps_form, wt_text::specs::Readers::whole, wt_text::specs::Readers::value_behind))]
pub fn steps_row(line: &[u8]) -> Result<u32, LineFault>
    ensures within { IfOk result (λ n. n ≤ 32) }
    ensures read { ReadsLine (λ x. x) result (steps_form (tokens line.now)) }
{
    let rest = word("steps", Rest::new(line))?;
    let (count, rest) = number_from_one(MAX_STEPS, What::Steps, rest)?;
    line_end(rest)?;
    Ok(count?)
}

/// `A side W radius R`, behind the word `axis`.
#[tactic(auto, unfolding(wt_text::specs::Readers::both, wt_text::specs::Readers::value_behind))]
fn marker_head(rest: Rest<'_>) -> Result<(Result<Head, What>, Rest<'_>), LineFault>
    ensures { ReadsTokens (λ x. (mapped head_view x.0, tokens_left x.1)) result (seen_value first (spec.marker_head (tokens_left rest.entry))) }
{
    let (axis, rest) = axis(rest)?;
    let rest = word("side", rest)?;
    let (side, rest) = side(rest)?;
    let rest = word("radius", rest)?;
    let (radius, rest) = radius(rest)?;
    match radius {
        Ok(radius) => Ok((Ok(Head::Marker { axis, side, radius }), rest)),
        Err(what) => Ok((Err(what), rest)),
    }
}

/// `radius R`, behind the word `restrict`.
#[tactic(auto, unfolding(wt_text::specs::Readers::value_behind))]
fn restrict_head(rest: Rest<'_>) -> Result<(Result<Head, What>, Rest<'_>), LineFault>
    ensures { ReadsTokens (λ x. (mapped head_view x.0, tokens_left x.1)) result (seen_value second (spec.restrict_head (tokens_left rest.entry))) }
{
    let rest = word("radius", rest)?;
    let (radius, rest) = radius(rest)?;
    match radius {
        Ok(radius) => Ok((Ok(Head::Restrict { radius }), rest)),
        Err(what) => Ok((Err(what), rest)),
    }
}

#[tactic(auto, unfolding(wt_text::specs::Readers::value_behind))]
fn kind_of_step(
    version: Version,
    rest: Rest<'_>,
) -> Result<(Result<Head, What>, Rest<'_>), LineFault>
    ensures { ReadsTokens (λ x. (mapped head_view x.0, tokens_left x.1)) result (spec.kind_of_step version (tokens_left rest.entry)) }
{
    let Some((token, rest)) = next_token(rest) else {
        return Err(LineFault::Wrong);
    };
    if token == b"axis".as_slice() {
        return marker_head(rest);
    }
    match version {
        Version::One => Err(LineFault::Wrong),
        Version::Two => {
            if token == b"restrict".as_slice() {
                return restrict_head(rest);
            }
            Err(LineFault::Wrong)
        }
    }
}

/// `step k axis A side W radius R`, or in version two `step k restrict radius R`.
#[tactic(auto, unfolding(crate::specs::LineForms::head_form, wt_text::specs::Readers::whole, wt_text::specs::Readers::value_behind))]
pub fn head_row(version: Version, k: u32, line: &[u8]) -> Result<Head, LineFault>
    ensures { ReadsLine head_view result (head_form version k (tokens line.now)) }
{
    let rest = word("step", Rest::new(line))?;
    let rest = this_number(k, rest)?;
    let (head, rest) = kind_of_step(version, rest)?;
    line_end(rest)?;
    Ok(head?)
}

/// `open`, or `loop START E`.
#[tactic(auto, unfolding(crate::specs::LineForms::end_form, wt_text::specs::Readers::whole, wt_text::specs::Readers::both))]
pub fn end_row(line: &[u8]) -> Result<EndLine, LineFault>
    ensures { ReadsLine end_view result (end_form (tokens line.now)) }
{
    let Some((token, rest)) = next_token(Rest::new(line)) else {
        return Err(LineFault::Wrong);
    };
    if token == b"open".as_slice() {
        line_end(rest)?;
        return Ok(EndLine::Open);
    }
    if token != b"loop".as_slice() {
        return Err(LineFault::Wrong);
    }
    let (start, rest) = small_number(rest)?;
    let (expansion, rest) = number_to(MAX_EXPANSION, What::Expansion, rest)?;
    line_end(rest)?;
    Ok(EndLine::Loop {
        start: start?,
        expansion: expansion?,
    })
}
