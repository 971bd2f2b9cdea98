// What names are bound to.
ghost use Rattle.std.specs.Prelude.{◌≡◌, None, Some, MatchOption, option_map};
ghost use Rattle.wt_tile.specs.Sets.{set_fault};
ghost use Rattle.wt_session.specs.Sheets.{AreTiles};

use std::marker::Model;
use wt_chain::Accepted;
use wt_pattern::Pattern;
use wt_tile::{SetRef, TileSet};
use wt_torus::Partition;

/// A pattern, and the set that it is over, if there is one: then each of its cells is a tile of the set.
#[derive(Drop)]
pub struct Sheet {
    pattern: Pattern,
    over: Option<TileSet>,
}

impl Model for Sheet {
    ghost use Rattle.wt_session.specs.Sheets.{Laid, AreTiles};

    ghost Value = { Laid };

    ghost view = { λ s. record { pattern = s.pattern; over = s.over } };

    ghost invariant = { λ s. AreTiles s.over s.pattern };
}

impl Sheet {
    /// A pattern over a set, or over none.
    pub fn new(pattern: Pattern, over: Option<TileSet>) -> Sheet
        requires { AreTiles over pattern }
        ensures { result ≡ record { pattern = pattern; over = over } }
    {
        Sheet { pattern, over }
    }

    /// The pattern.
    pub fn pattern(&self) -> &Pattern
        ensures { result.now ≡ self.now.pattern }
    {
        &self.pattern
    }

    /// The set that the pattern is over.
    pub fn over(&self) -> Option<SetRef<'_>>
        ensures value { MatchOption result (self.now.over ≡ None) (λ set. self.now.over ≡ Some set.list.now) }
        ensures set { option_map (λ s. s.list.now) result ≡ self.now.over }
        ensures tiles { AreTiles self.now.over self.now.pattern }
    {
        match &self.over {
            Some(set) => Some(set.view()),
            None => None,
        }
    }
}

/// What a name is bound to.
#[derive(Drop)]
pub enum Value {
    /// A tile set.
    Set(TileSet),
    /// A pattern, over a set or over none.
    Pattern(Sheet),
    /// A good chain.
    Chain(Accepted),
    /// A partition.
    Partition(Partition),
}
