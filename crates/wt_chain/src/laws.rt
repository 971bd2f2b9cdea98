// What a chain without a fault is.
ghost use Rattle.std.specs.Prelude.{◌≡◌, None};
ghost use Rattle.wt_chain.specs.declared.raw.RawChain.{RawChain};
ghost use Rattle.wt_chain.specs.Faults as spec;
ghost use Rattle.wt_chain.specs.Good.{IsGoodChain};

/// A chain has no fault exactly where it is good.
pub fn good_chains()
    ensures good { (c : RawChain) → spec.chain_fault c ≡ None → IsGoodChain c }
    ensures back { (c : RawChain) → IsGoodChain c → spec.chain_fault c ≡ None }
{}
