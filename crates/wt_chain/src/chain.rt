// Chains that are being put together.
ghost use Rattle.std.specs.Prelude.{◌≡◌, ◌<◌, ◌≤◌, ◌∷◌, ◌++◌, [], drop, length, slice_get, None, Some, MatchResult, IfOk, IfErr, unwrap_or};
ghost use Rattle.wt_step.specs.Views.{link_of};
ghost use Rattle.wt_chain.specs.declared.raw.End.TheVariants.{Open, Loop};
ghost use Rattle.wt_chain.specs.declared.push.PushFault.TheVariants as push_fault_variants;
ghost use Rattle.wt_chain.specs.Versions.{one_more};
ghost use Rattle.wt_chain.specs.Versions as versions;
ghost use Rattle.wt_chain.specs.Faults as fault_words;
ghost use Rattle.wt_chain.specs.Sets.{IsRenamed, first_count, set_at};
ghost use Rattle.wt_chain.specs.Chains as chains;

use crate::faults::{loop_expansion, loop_fault, steps_from};
use crate::sets::{follows, set_behind_all};
use crate::version::{is_first_version, version_of};
use crate::{Accepted, End, PushFault, RawChain, Refusal, Version};
use std::alloc::Global;
use std::marker::Model;
use wt_seq::Seq;
use wt_step::{Link, LinkRef, RawLink};
use wt_tile::SetRef;

/// A chain of 1 to 32 good steps, each of which takes apart the set before it. Contracts see the list of its
/// steps.
#[derive(Drop)]
pub struct Chain {
    steps: Vec<RawLink>,
    version: Version,
}

impl Model for Chain {
    ghost use Rattle.std.specs.Prelude.{List};
    ghost use Rattle.std.specs.Coded.{codes};
    ghost use Rattle.wt_refute.specs.contracts.tree.Tree as tree;
    ghost use Rattle.wt_step.specs.declared.raw.RawLink.{RawLink};
    ghost use Rattle.wt_chain.specs.Chains.{IsOpen};

    ghost Value = { List RawLink };

    ghost coded = { Prim.hlevel (codes, tree.the_row.coded) };

    ghost view = { λ c. c.steps.items };

    ghost invariant = { λ c. IsOpen c.steps.items c.version };
}

/// The version of a chain with one step more.
fn next_version(version: Version, link: &RawLink) -> Version
    ensures { result ≡ one_more version link.now }
{
    match version {
        Version::One => {
            if is_first_version(link) {
                Version::One
            } else {
                Version::Two
            }
        }
        Version::Two => Version::Two,
    }
}

fn push_fault(steps: &[RawLink], link: &Link) -> Option<PushFault>
    ensures { result ≡ chains.push_fault steps.now link.now }
{
    if !follows(set_behind_all(steps), link.view().fine().list()) {
        return Some(PushFault::NotNext);
    }
    if steps.len() < 32 {
        None
    } else {
        Some(PushFault::TooMany)
    }
}

impl Chain {
    /// A chain of one step. The step comes back only where memory runs out.
    pub fn start(alloc: Global, link: Link) -> Result<Chain, Link>
        ensures { MatchResult result (λ chain. chain ≡ link ∷ []) (λ e. e ≡ link) }
    {
        let mut steps = Vec::new(alloc);
        if steps.reserve(1).is_err() {
            return Err(link);
        }
        let raw = link.into_raw();
        let version = next_version(Version::One, &raw);
        match steps.push(raw) {
            Ok(()) => Ok(Chain { steps, version }),
            Err(_) => unreachable!(),
        }
    }

    /// The chain with one step more. `NotNext` is answered exactly where the step doesn't take apart the chain's last
    /// set, colours and names included; `TooMany` exactly where it does and 32 steps are held; else want of
    /// memory. The chain and the step come back.
    pub fn push_step(self, link: Link) -> Result<Chain, (Chain, Link, PushFault)>
        ensures ok { IfOk result
            (λ chain. (chains.push_fault self link ≡ None) × (chain ≡ self ++ link ∷ [])) }
        ensures err { IfErr result
            (λ e. (e.0 ≡ self) × (e.1 ≡ link) × (e.2 ≡ unwrap_or (chains.push_fault self link) push_fault_variants.OutOfMemory)) }
    {
        match push_fault(&self.steps, &link) {
            Some(fault) => Err((self, link, fault)),
            None => self.push_next(link),
        }
    }

    fn push_next(mut self, link: Link) -> Result<Chain, (Chain, Link, PushFault)>
        requires { chains.push_fault self link ≡ None }
        ensures ok { IfOk result (λ chain. chain ≡ self ++ link ∷ []) }
        ensures err { IfErr result (λ e. (e.0 ≡ self) × (e.1 ≡ link) × (e.2 ≡ push_fault_variants.OutOfMemory)) }
    {
        if self.steps.reserve(1).is_err() {
            return Err((self, link, PushFault::OutOfMemory));
        }
        let raw = link.into_raw();
        self.version = next_version(self.version, &raw);
        match self.steps.push(raw) {
            Ok(()) => Ok(self),
            Err(_) => unreachable!(),
        }
    }

    /// The chain closed to a loop from its last set back to the set of level `start`, or the first condition of
    /// a loop that fails: `start` is a step, the renaming carries the one set onto the other, and `expansion`
    /// turns make images grow. Takes no memory.
    pub fn close(
        self,
        start: u16,
        renaming: Vec<u16>,
        expansion: u32,
    ) -> Result<Accepted, (Chain, Vec<u16>, Refusal)>
        ensures ok { IfOk result (chains.IsClosedAs self start renaming.items expansion) }
        ensures err { IfErr result (λ e. (fault_words.close_fault self start renaming.items expansion ≡ Some e.2)
            × (e.0 ≡ self) × (e.1.items ≡ renaming.items)) }
    {
        match loop_fault(steps_from(&self.steps, start), &renaming, expansion) {
            Some(fault) => Err((self, renaming, fault)),
            None => Ok(Accepted::of(RawChain {
                version: self.version,
                steps: Seq::new(self.steps),
                end: End::Loop {
                    start,
                    renaming: Seq::new(renaming),
                    expansion,
                },
            })),
        }
    }

    /// The least number of turns, at least 1 and at most the number of tiles of level `start`, after which the
    /// image of each tile there is at least two wide and two high; where there is none, no greater number
    /// serves
    /// either. The renaming carries the last set onto that of level `start`. Takes no memory.
    pub fn expansion(&self, start: u16, renaming: &[u16]) -> Option<u32>
        requires { IsRenamed (drop start self.now) renaming.now }
        ensures value { result ≡ fault_words.least_expansion (drop start self.now) renaming.now (first_count (drop start self.now)) }
        ensures never { result ≡ None → fault_words.NeverGrows (drop start self.now) renaming.now }
    {
        loop_expansion(steps_from(&self.steps, start), renaming)
    }

    /// The chain of a good chain's steps.
    pub(crate) fn of(raw: RawChain) -> Chain
        requires { fault_words.chain_fault raw ≡ None }
        ensures { result ≡ raw.steps }
    {
        let version = version_of(raw.steps.as_slice());
        Chain {
            steps: raw.steps.into_vec(),
            version,
        }
    }

    /// How many steps the chain has: 1 to 32.
    pub fn steps(&self) -> usize
        ensures value { result ≡ length self.now }
        ensures some { 0 < result }
        ensures few { result ≤ 32 }
    {
        self.steps.len()
    }

    /// Step k, below the number of steps.
    fn step(&self, k: usize) -> LinkRef<'_>
        requires { k < length self.now }
        ensures { slice_get self.now k ≡ Some (link_of result) }
    {
        LinkRef::new(&self.steps[k])
    }

    /// The set of a level, at most the number of steps: that which step `level` takes apart, or behind the last step its coarse set.
    pub fn set(&self, level: usize) -> SetRef<'_>
        requires { level ≤ length self.now }
        ensures { set_at self.now level ≡ Some result.list.now }
    {
        if level < self.steps() {
            self.step(level).fine()
        } else {
            self.step(level - 1).coarse()
        }
    }

    /// The chain as an open one. Takes no memory.
    pub fn finish(self) -> Accepted
        ensures { result ≡ record { version = versions.version_of self; steps = self; end = Open } }
    {
        Accepted::of(RawChain {
            version: self.version,
            steps: Seq::new(self.steps),
            end: End::Open,
        })
    }
}
