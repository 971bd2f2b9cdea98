// The word `draw`.
ghost use Rattle.std.specs.Prelude.{◌≡◌};
ghost use Rattle.wt_session.specs.Said.{Replies};
ghost use Rattle.wt_session.specs.Draw.{draw_reply};

use crate::lookup::pattern_named;
use crate::names::Names;
use crate::reply::{Answer, CommandFault, refused};
use std::alloc::Global;
use wt_pattern::{DrawFault, Style};
use wt_seq::Seq;

/// `draw P numbers` or `draw P boxes`: the pattern as rows of numbers, or as boxes with the names of its set.
pub fn draw(alloc: Global, names: &Names, name: &[u8], style: Style) -> Result<Answer, CommandFault>
    ensures { Replies (λ reply. reply ≡ draw_reply names.now name.now style) result }
{
    let sheet = pattern_named(alloc, names, name)?;
    match wt_pattern::draw(alloc, sheet.over(), sheet.pattern(), style) {
        Ok(text) => Ok(Answer::Says(Seq::new(text))),
        Err(DrawFault::NoSet) => Err(refused(alloc, b"refused no set\n")),
        Err(DrawFault::OutOfMemory) => Err(CommandFault::OutOfMemory),
    }
}
