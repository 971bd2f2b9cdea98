// The names of a session.
ghost use Rattle.std.specs.Prelude.{◌≡◌, [], length, OnOk, OnErr, option_copied};
ghost use Rattle.wt_session.specs.Names.{find, bind};
ghost use Rattle.wt_session.specs.Names as spec;

use crate::limits::MAX_NAMES;
use crate::value::Value;
use std::alloc::{AllocError, Global};
use std::collections::BTreeMap;
use std::marker::Model;
use wt_seq::Seq;

/// What the names of a script are bound to. Seen by contracts as the list of its entries, in the order of the names' bytes.
#[derive(Drop)]
pub struct Names {
    map: BTreeMap<Vec<u8>, Value>,
}

impl Model for Names {
    ghost use Rattle.std.specs.Prelude.{List, ℕ};
    ghost use Rattle.wt_session.specs.declared.value.Value.{Value as Bound};
    ghost use Rattle.wt_session.specs.Names.{names_of};
    ghost use Rattle.std.specs.Coded.{codes};
    ghost use Rattle.wt_refute.specs.contracts.tree.Tree as tree;

    ghost Value = { List (List ℕ × Bound) };

    ghost coded = { Prim.hlevel (codes, tree.the_row.coded) };

    ghost view = { λ n. names_of n.map.entries };
}

impl Names {
    /// No names. Takes no memory.
    pub fn new(alloc: Global) -> Names
        ensures { result ≡ [] }
    {
        Names {
            map: BTreeMap::new(alloc),
        }
    }

    /// What a name is bound to.
    #[tactic(auto, using(crate::proofs::Maps::looked_up))]
    pub fn get(&self, name: &[u8]) -> Option<&Value>
        ensures { option_copied result ≡ find name.now self.now }
    {
        self.map.get(name)
    }

    /// Whether this name would be a new one beside 1024 others.
    #[tactic(auto, using(crate::proofs::Maps::looked_up, crate::proofs::Maps::same_length))]
    pub fn is_crowded(&self, name: &[u8]) -> bool
        ensures { result ≡ spec.is_crowded name.now self.now }
    {
        self.map.len() >= MAX_NAMES && self.get(name).is_none()
    }

    /// Binds a name to a value; what it was bound to before is given up. Where memory runs out, nothing changes.
    #[tactic(auto, using(crate::proofs::Maps::bound))]
    pub fn put(&mut self, name: Seq<u8>, value: Value) -> Result<(), AllocError>
        ensures ok { OnOk result (self.new ≡ bind name value self.old) }
        ensures err { OnErr result (self.new ≡ self.old) }
    {
        match self.map.insert(name.into_vec(), value) {
            Ok(_) => Ok(()),
            Err(_) => Err(AllocError),
        }
    }
}
