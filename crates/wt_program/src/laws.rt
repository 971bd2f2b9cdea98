// What is proved of several calls together.
ghost use Rattle.std.specs.Prelude.{ℕ};
ghost use Rattle.std.specs.List.{All};
ghost use Rattle.wt_tile.specs.Names.{IsName};
ghost use Rattle.wt_tile.specs.declared.tile.TileList.{TileList};
ghost use Rattle.wt_chain.specs.declared.raw.RawChain.{RawChain};
ghost use Rattle.wt_search.specs.Asked.{Asked};
ghost use Rattle.wt_search.specs.Found.{IsFound};
ghost use Rattle.wt_program.specs.Founds.{IsReadBack};

/// What `search` finds of a set whose names have the form of names comes back through its certificate: `write_cert`
/// writes it within the limits, `read_cert` reads the same chain, and `check` accepts it.
pub fn found_chains_are_read_back()
    ensures { (s : Asked) (set : TileList) (levels : ℕ) (c : RawChain) → IsFound s set levels c
        → All IsName set.names1 → All IsName set.names2 → IsReadBack c }
{}
