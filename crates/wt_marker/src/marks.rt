//! Which tiles are markers, by number.
ghost use Rattle.std.specs.Prelude.{◌≡◌, ◌<◌, ℕ, All, length};
ghost use Rattle.wt_marker.specs.Classes.{is_in};
ghost use Rattle.wt_marker.specs.Demanded.{marked};

use wt_grid::MAX_TILES;

/// A flag for each number below 256: whether it is in the class.
pub fn mark(class: &[u16]) -> [bool; MAX_TILES]
    requires { All (λ t. t < MAX_TILES) class.now }
    ensures { (a : ℕ) → marked result a ≡ is_in class.now a }
{
    let mut marks = [false; MAX_TILES];
    for t in class {
        marks[usize::from(*t)] = true;
    }
    marks
}

pub fn is_marked(marks: &[bool], a: u16) -> bool
    ensures { result ≡ marked marks.now a }
{
    usize::from(a) < marks.len() && marks[usize::from(a)]
}
