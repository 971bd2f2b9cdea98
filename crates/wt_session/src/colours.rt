// The names of colours.
ghost use Rattle.std.specs.Prelude.{◌≡◌};
ghost use Rattle.std.specs.Str.{IsUtf8};
ghost use Rattle.wt_names.specs.Numbering.{name_at};

use wt_tile::Name;

/// The name of a colour; no bytes where it has none.
#[tactic(auto, using(crate::proofs::Ascii::name_text, crate::proofs::Ascii::no_text))]
pub fn name_of(names: &[Name], number: u16) -> &[u8]
    ensures value { result.now ≡ name_at names.now number }
    ensures text { IsUtf8 result.now }
{
    let number = usize::from(number);
    if number < names.len() {
        names[number].bytes()
    } else {
        b""
    }
}
