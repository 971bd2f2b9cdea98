// Lines that are taken as they are.
ghost use Rattle.std.specs.Prelude.{◌≡◌};
ghost use Rattle.wt_line.specs.Left.{ReadsPlace};
ghost use Rattle.wt_script.specs.Raw.{raw_lines};

use std::alloc::Global;
use wt_line::{Place, TextFault, next_line};
use wt_seq::Seq;

/// The bytes of n lines with their newlines.
#[tactic(auto, using(crate::proofs::Raws::begins, crate::proofs::Raws::goes_on, crate::proofs::Raws::ends, crate::proofs::Raws::is_done), unfolding(crate::specs::Raw::raw_lines))]
pub fn raw_at(
    alloc: Global,
    count: u64,
    place: Place<'_>,
) -> Result<(Seq<u8>, Place<'_>), TextFault>
    ensures { ReadsPlace (raw_lines count) result place.entry }
{
    let mut bytes = Vec::new(alloc);
    let mut left = count;
    let mut place = place;
    while left > 0 {
        let (line, next) = next_line(place)?;
        bytes.extend_from_slice(line)?;
        bytes.push(b'\n')?;
        left -= 1;
        place = next;
    }
    Ok((Seq::new(bytes), place))
}
