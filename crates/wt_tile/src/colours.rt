// Colours of fused edges, numbered by first coming.
ghost use Rattle.std.specs.Prelude.{◌≡◌, ◌++◌, ◌∷◌, [], Some, IfOk, OnOk, OnErr, IsErrOf, ◌↔◌, Contains, IsTrue, length, slice_get};
ghost use Rattle.wt_tile.specs.Colours.{IsNumbering, IsPast};

use crate::Edge;
use indexmap::IndexSet;
use std::alloc::Global;
use std::marker::Model;
use wt_grid::MAX_COLOURS;

/// Why an edge gets no number.
#[derive(Clone, Copy, Debug, PartialEq, Eq)]
pub enum ColourFault {
    /// The edge is new, and 512 others are held.
    TooMany,
    /// There was no memory for a new edge.
    OutOfMemory,
}

/// Edges, each with the number of its first coming. Seen by contracts as the list of the edges in that order.
#[derive(Debug, Drop)]
pub struct Colours {
    edges: IndexSet<Edge>,
}

impl Model for Colours {
    ghost use Rattle.std.specs.Prelude.{List};
    ghost use Rattle.wt_tile.specs.declared.fusion.Edge.{Edge};
    ghost use Rattle.wt_tile.specs.Colours.{IsNumbering};

    ghost Value = { List Edge };

    ghost view = { λ c. c.edges.keys };

    ghost invariant = { λ c. IsNumbering c.edges.keys };
}

impl Colours {
    /// No edges. Keeps the allocator and takes no memory.
    pub fn new(alloc: Global) -> Colours
        ensures { result ≡ [] }
    {
        Colours {
            edges: IndexSet::new(alloc),
        }
    }

    /// How many edges are held.
    pub fn len(&self) -> u16
        ensures { result ≡ length self.now }
    {
        self.edges.len() as u16
    }

    /// The number of an edge: that of its first coming, or the next one for a new edge, which is kept. After a
    /// refusal nothing has changed.
    pub fn number(&mut self, edge: Edge) -> Result<u16, ColourFault>
        ensures numbered { IfOk result (λ n. slice_get self.new n ≡ Some edge) }
        ensures held { Contains self.old edge → OnOk result (self.new ≡ self.old) }
        ensures added { (Contains self.old edge → ⊥) → OnOk result (self.new ≡ self.old ++ edge ∷ []) }
        ensures numbering { IsNumbering self.new }
        ensures too_many { IsErrOf result ColourFault.TooMany ↔ IsPast self.old edge }
        ensures unchanged { OnErr result (self.new ≡ self.old) }
    {
        if self.is_past(edge) {
            return Err(ColourFault::TooMany);
        }
        match self.edges.insert_full(edge) {
            Ok((at, _)) => Ok(at as u16),
            Err(_) => Err(ColourFault::OutOfMemory),
        }
    }

    /// Whether the edge is new and no more are taken.
    fn is_past(&self, edge: Edge) -> bool
        ensures { IsTrue result ↔ IsPast self.now edge }
    {
        self.edges.len() == MAX_COLOURS && !self.edges.contains(&edge)
    }
}
