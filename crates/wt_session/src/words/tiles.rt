// The word `tiles`.
ghost use Rattle.std.specs.Prelude.{◌≡◌, IfOk, string_bytes};
ghost use Rattle.wt_tile.specs.Sets.{set_fault};
ghost use Rattle.wt_pattern.specs.Plain.{IsPlain};
ghost use Rattle.wt_session.specs.Said.{Replies};
ghost use Rattle.wt_session.specs.Tiles.{tiles_text, IsTilesReply};

use crate::reply::{Answer, CommandFault, refused, refused_line};
use crate::texts::repeated_line;
use crate::value::Value;
use std::alloc::{AllocError, Global};
use wt_seq::Seq;
use wt_tile::{SetFault, TileList, TileSet};

fn tiles_line(alloc: Global, list: &TileList) -> Result<String, AllocError>
    ensures { IfOk result (λ text. string_bytes text ≡ tiles_text list.now) }
{
    let count = list.tiles.as_slice().len();
    let first = list.names1.as_slice().len();
    let second = list.names2.as_slice().len();
    format!(in alloc; "tiles {count} colours {first} {second}\n")
}

/// `tiles N n`: the set of n tiles, bound to a name.
#[tactic(auto, using(crate::proofs::Listed::plain_fault))]
pub fn tiles(alloc: Global, name: &Seq<u8>, list: &TileList) -> Result<Answer, CommandFault>
    requires { IsPlain (set_fault list.now) }
    ensures { Replies (IsTilesReply name.now list.now) result }
{
    match TileSet::new(list.copy(alloc)?) {
        Ok(set) => {
            let text = Seq::new(tiles_line(alloc, list)?.into_bytes());
            Ok(Answer::Binds {
                name: name.copy(alloc)?,
                value: Value::Set(set),
                text,
            })
        }
        Err((_, SetFault::Empty)) => Err(refused(alloc, b"refused set empty\n")),
        Err((_, SetFault::Repeated { first, second })) => {
            Err(refused_line(repeated_line(alloc, first, second)?))
        }
        Err(
            (_, SetFault::TooMany | SetFault::NoColour { tile: _ } | SetFault::Names { axis: _ }),
        ) => { unreachable!() }
    }
}
