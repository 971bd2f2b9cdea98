// A tile set that comes in as text, for all words that take one.
ghost use Rattle.std.specs.Prelude.{◌≡◌, ◌≤◌, IfOk, Some, codes};
ghost use Rattle.wt_text.specs.Words.{tokens};
ghost use Rattle.wt_text.specs.Lines.{lines};
ghost use Rattle.wt_text.specs.Readers.{one_line, whole_text};
ghost use Rattle.wt_line.specs.declared.faults.What.TheVariants.{Tiles};
ghost use Rattle.wt_line.specs.Faults.{ReadsLine, ReadsText};
ghost use Rattle.wt_line.specs.Left.{ReadsPlace};
ghost use Rattle.wt_tile.specs.Sets.{set_fault};
ghost use Rattle.wt_cert.specs.LineForms.{count_form};
ghost use Rattle.wt_grid.specs.declared.limits.TheConstants.{MAX_TILES};
ghost use Rattle.wt_pattern.specs.Plain.{IsPlain};
ghost use Rattle.wt_program.specs.SetTexts.{set_part, IsSetRefusal};

use crate::reply::{Reply, refused};
use std::alloc::{AllocError, Global};
use wt_grid::MAX_TILES;
use wt_line::{
    LineFault, Place, Rest, TextFault, What, line_end, next_line, number_to, placed, text_end, word,
};
use wt_pattern::tiles_at;
use wt_seq::Seq;
use wt_session::repeated_line;
use wt_tile::{SetFault, TileList};

/// `tiles n`: how many tiles follow.
#[tactic(auto, unfolding(wt_cert::specs::LineForms::count_form, wt_text::specs::Readers::whole, wt_text::specs::Readers::value_behind))]
fn count_row(line: &[u8]) -> Result<u32, LineFault>
    ensures within { IfOk result (λ n. n ≤ MAX_TILES) }
    ensures read { ReadsLine (λ x. x) result (count_form (codes "tiles") MAX_TILES Tiles (tokens line.now)) }
{
    let rest = word("tiles", Rest::new(line))?;
    let (count, rest) = number_to(MAX_TILES as u32, What::Tiles, rest)?;
    line_end(rest)?;
    Ok(count?)
}

/// The line of the number of tiles, and the place behind it.
#[tactic(auto, unfolding(wt_text::specs::Readers::one_line))]
fn count_at(place: Place<'_>) -> Result<(u32, Place<'_>), TextFault>
    ensures within { IfOk result (λ x. x.0 ≤ MAX_TILES) }
    ensures read { ReadsPlace (one_line (count_form (codes "tiles") MAX_TILES Tiles)) result place.entry }
{
    let (line, next) = next_line(place)?;
    let count = placed(count_row(line), place.number)?;
    Ok((count, next))
}

/// `tiles n`, and n rows of names, and the place behind them. They are a tile set, but that they may be none or
/// repeat one.
#[tactic(auto, unfolding(wt_cert::specs::Parts::tiles_part, wt_text::specs::Readers::part_behind))]
pub fn set_at(alloc: Global, place: Place<'_>) -> Result<(TileList, Place<'_>), TextFault>
    ensures read { ReadsPlace set_part result place.entry }
    ensures plain { IfOk result (λ x. IsPlain (set_fault x.0)) }
{
    let (count, place) = count_at(place)?;
    tiles_at(alloc, count as usize, place)
}

/// The list of tiles that the bytes say, or their first fault.
#[tactic(auto, using(wt_line::proofs::Ended::more_fails), unfolding(wt_text::specs::Readers::whole_text))]
pub fn read_set_text(alloc: Global, bytes: &[u8]) -> Result<TileList, TextFault>
    ensures read { ReadsText (λ x. x) result (whole_text set_part (lines bytes.now)) }
    ensures plain { IfOk result (λ list. IsPlain (set_fault list)) }
{
    let (list, place) = set_at(alloc, Place::new(bytes))?;
    text_end(place)?;
    Ok(list)
}

/// The reply to a list that is no set.
pub fn set_refusal(alloc: Global, fault: SetFault) -> Result<Reply, AllocError>
    requires { IsPlain (Some fault) }
    ensures { IfOk result (IsSetRefusal fault) }
{
    match fault {
        SetFault::Empty => refused(alloc, b"refused set empty\n"),
        SetFault::Repeated { first, second } => Ok(Reply::Refused(Seq::new(repeated_line(
            alloc, first, second,
        )?.into_bytes()))),
        SetFault::TooMany | SetFault::NoColour { tile: _ } | SetFault::Names { axis: _ } => {
            unreachable!()
        }
    }
}
