// The words that begin the commands.
ghost use Rattle.std.specs.Prelude.{◌≡◌};
ghost use Rattle.wt_text.specs.Words.{tokens};
ghost use Rattle.wt_script.specs.Parts.{kind_in};
ghost use Rattle.wt_script.specs.Parts as spec;

use wt_line::{Rest, next_token};

/// A word that begins a command.
#[derive(Clone, Copy)]
pub enum Kind {
    Tiles,
    Pattern,
    Valid,
    Period,
    Dominoes,
    Surround,
    Markers,
    Fuse,
    Same,
    Derive,
    Search,
    Cert,
    Check,
    Upgrade,
    Lighten,
    Expand,
    Image,
    Desub,
    Bound,
    Primitive,
    Seeds,
    Census,
    Draw,
    Json,
    Torus,
    Code,
    Induce,
}

fn kind_of(token: &[u8]) -> Option<Kind>
    ensures { result ≡ spec.kind_of token.now }
{
    if token == b"tiles".as_slice() {
        Some(Kind::Tiles)
    } else if token == b"pattern".as_slice() {
        Some(Kind::Pattern)
    } else if token == b"valid".as_slice() {
        Some(Kind::Valid)
    } else if token == b"period".as_slice() {
        Some(Kind::Period)
    } else if token == b"dominoes".as_slice() {
        Some(Kind::Dominoes)
    } else if token == b"surround".as_slice() {
        Some(Kind::Surround)
    } else if token == b"markers".as_slice() {
        Some(Kind::Markers)
    } else if token == b"fuse".as_slice() {
        Some(Kind::Fuse)
    } else if token == b"same".as_slice() {
        Some(Kind::Same)
    } else if token == b"derive".as_slice() {
        Some(Kind::Derive)
    } else if token == b"search".as_slice() {
        Some(Kind::Search)
    } else if token == b"cert".as_slice() {
        Some(Kind::Cert)
    } else if token == b"check".as_slice() {
        Some(Kind::Check)
    } else if token == b"upgrade".as_slice() {
        Some(Kind::Upgrade)
    } else if token == b"lighten".as_slice() {
        Some(Kind::Lighten)
    } else if token == b"expand".as_slice() {
        Some(Kind::Expand)
    } else if token == b"image".as_slice() {
        Some(Kind::Image)
    } else if token == b"desub".as_slice() {
        Some(Kind::Desub)
    } else if token == b"bound".as_slice() {
        Some(Kind::Bound)
    } else if token == b"primitive".as_slice() {
        Some(Kind::Primitive)
    } else if token == b"seeds".as_slice() {
        Some(Kind::Seeds)
    } else if token == b"census".as_slice() {
        Some(Kind::Census)
    } else if token == b"draw".as_slice() {
        Some(Kind::Draw)
    } else if token == b"json".as_slice() {
        Some(Kind::Json)
    } else if token == b"torus".as_slice() {
        Some(Kind::Torus)
    } else if token == b"code".as_slice() {
        Some(Kind::Code)
    } else if token == b"induce".as_slice() {
        Some(Kind::Induce)
    } else {
        None
    }
}

/// The kind of the command that a line begins, by its first token.
pub fn kind_on(line: &[u8]) -> Option<Kind>
    ensures { result ≡ kind_in (tokens line.now) }
{
    let (token, _) = next_token(Rest::new(line))?;
    kind_of(token)
}
