// Good chains.
ghost use Rattle.std.specs.Prelude.{◌≡◌, ◌<◌, ◌≤◌, None, Some, IfOk, IfErr, ◌≢◌, length, slice_get};
ghost use Rattle.wt_chain.specs.declared.raw.End.TheVariants.{Open};
ghost use Rattle.wt_chain.specs.declared.raw.Version.TheVariants.{Two};
ghost use Rattle.wt_step.specs.Views.{link_of};
ghost use Rattle.wt_chain.specs.Sets.{set_at};
ghost use Rattle.wt_chain.specs.Faults as spec;
ghost use Rattle.wt_grid.specs.Answers.{TakesUnless};

use crate::copy::copy_chain;
use crate::faults::chain_fault;
use crate::{Chain, End, RawChain, Refusal, Version};
use std::alloc::{AllocError, Global};
use std::marker::Model;
use wt_step::LinkRef;
use wt_tile::SetRef;

/// A good chain.
#[derive(Drop)]
pub struct Accepted {
    raw: RawChain,
}

impl Model for Accepted {
    ghost use Rattle.std.specs.Prelude.{◌≡◌, None};
    ghost use Rattle.std.specs.Coded.{codes};
    ghost use Rattle.wt_refute.specs.contracts.tree.Tree as tree;
    ghost use Rattle.wt_chain.specs.declared.raw.RawChain.{RawChain};
    ghost use Rattle.wt_chain.specs.Faults.{chain_fault};

    ghost Value = { RawChain };

    ghost coded = { Prim.hlevel (codes, tree.the_row.coded) };

    ghost view = { λ c. c.raw };

    ghost invariant = { λ c. chain_fault c.raw ≡ None };
}

impl Accepted {
    /// Takes a good chain, or tells its first failing condition. Takes no memory.
    pub fn new(raw: RawChain) -> Result<Accepted, (RawChain, Refusal)>
        ensures { TakesUnless result raw (spec.chain_fault raw) }
    {
        match chain_fault(&raw) {
            None => Ok(Accepted { raw }),
            Some(fault) => Err((raw, fault)),
        }
    }

    /// A chain that is known to be good. Takes no memory.
    pub fn of(raw: RawChain) -> Accepted
        requires { spec.chain_fault raw ≡ None }
        ensures { result ≡ raw }
    {
        Accepted { raw }
    }

    /// How many steps the chain has.
    #[tactic(auto, using(crate::proofs::Good::some_steps, crate::proofs::Good::few_steps))]
    pub fn steps(&self) -> usize
        ensures value { result ≡ length self.now.steps }
        ensures some { 0 < result }
        ensures few { result ≤ 32 }
    {
        self.raw.steps.as_slice().len()
    }

    /// Step k, below the number of steps.
    pub fn step(&self, k: usize) -> LinkRef<'_>
        requires { k < length self.now.steps }
        ensures { slice_get self.now.steps k ≡ Some (link_of result) }
    {
        LinkRef::new(&self.raw.steps.as_slice()[k])
    }

    /// The set of a level, at most the number of steps: that which step `level` takes apart, or after the last
    /// step its coarse set.
    pub fn set(&self, level: usize) -> SetRef<'_>
        requires { level ≤ length self.now.steps }
        ensures { set_at self.now.steps level ≡ Some result.list.now }
    {
        if level < self.steps() {
            self.step(level).fine()
        } else {
            self.step(level - 1).coarse()
        }
    }

    /// How the chain ends.
    pub fn end(&self) -> &End
        ensures { result.now ≡ self.now.end }
    {
        &self.raw.end
    }

    /// The chain, borrowed as it was read.
    pub fn raw(&self) -> &RawChain
        ensures value { result.now ≡ self.now }
        ensures good { spec.chain_fault self.now ≡ None }
    {
        &self.raw
    }

    /// The chain as it was read. Takes no memory.
    pub fn into_raw(self) -> RawChain
        ensures same { result ≡ self }
        ensures good { spec.chain_fault result ≡ None }
    {
        self.raw
    }

    /// An equal chain. Fails only where memory runs out.
    pub fn copy(&self, alloc: Global) -> Result<Accepted, AllocError>
        ensures { IfOk result (λ copied. copied ≡ self.now) }
    {
        let raw = copy_chain(alloc, &self.raw)?;
        Ok(Accepted { raw })
    }

    /// The chain of the same steps, to be carried on; a looped chain comes back. Takes no memory.
    pub fn reopen(self) -> Result<Chain, Accepted>
        ensures ok { IfOk result (λ chain. (self.end ≡ Open) × (chain ≡ self.steps)) }
        ensures err { IfErr result (λ c. (self.end ≢ Open) × (c ≡ self)) }
    {
        match self.end() {
            End::Open => Ok(Chain::of(self.into_raw())),
            End::Loop {
                start: _,
                renaming: _,
                expansion: _,
            } => Err(self),
        }
    }
}

/// The same chain in version two. Takes no memory.
pub fn upgrade(chain: Accepted) -> Accepted
    ensures { result ≡ record chain { version = Two } }
{
    let mut raw = chain.into_raw();
    raw.version = Version::Two;
    Accepted::of(raw)
}
