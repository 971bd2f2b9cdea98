//! The word `lighten`.
ghost use Rattle.std.specs.Prelude.{◌≡◌, ◌≤◌, IfOk, string_bytes};
ghost use Rattle.wt_chain.specs.Limits.{nodes_through};
ghost use Rattle.wt_session.specs.Said.{Replies, IfRefused};
ghost use Rattle.wt_session.specs.Replies.{stops};
ghost use Rattle.wt_session.specs.Lighten.{IsHeavyReply, IsLightenReply};
ghost use Rattle.wt_session.specs.Lighten as spec;

use crate::lookup::chain_named;
use crate::names::Names;
use crate::nodes::nodes_of;
use crate::reply::{Answer, CommandFault, limit_line, spent_line};
use crate::value::Value;
use std::alloc::{AllocError, Global};
use wt_chain::Accepted;
use wt_grid::axis_number;
use wt_search::{LightenEnd, MAX_NODES};
use wt_seq::Seq;
use wt_tile::Axis;

fn spent_text(
    alloc: Global,
    step: usize,
    radius: u8,
    axis: Axis,
    a: u16,
    b: u16,
) -> Result<String, AllocError>
    ensures { IfOk result (λ text. string_bytes text ≡ spec.radius_spent_text step radius axis a b) }
{
    let axis = axis_number(axis);
    format!(in alloc; "spent step {step} radius {radius} axis {axis} pair {a} {b}\n")
}

fn limit_text(alloc: Global, step: usize) -> Result<String, AllocError>
    ensures { IfOk result (λ text. string_bytes text ≡ spec.step_nodes_text step) }
{
    format!(in alloc; "limit nodes step {step}\n")
}

/// Why a chain isn't lightened, as a line.
fn heavy_line(alloc: Global, end: LightenEnd) -> Result<CommandFault, AllocError>
    ensures { IfOk result (λ fault. IfRefused (λ status line. IsHeavyReply end (stops status line)) fault) }
{
    match end {
        LightenEnd::Spent {
            step,
            radius,
            axis,
            a,
            b,
        } => Ok(spent_line(spent_text(alloc, step, radius, axis, a, b)?)),
        LightenEnd::TooManyNodes { step } => Ok(limit_line(limit_text(alloc, step)?)),
        LightenEnd::OutOfMemory => Err(AllocError),
    }
}

/// Why a chain isn't lightened, as a refusal.
fn heavy(alloc: Global, end: LightenEnd) -> CommandFault
    ensures { IfRefused (λ status line. IsHeavyReply end (stops status line)) result }
{
    match heavy_line(alloc, end) {
        Ok(fault) => fault,
        Err(AllocError) => CommandFault::OutOfMemory,
    }
}

/// The line of the nodes of a chain's trees, which are within the limit.
fn nodes_text(alloc: Global, chain: &Accepted) -> Result<String, AllocError>
    requires { nodes_through 0 chain.now.steps ≤ MAX_NODES }
    ensures { IfOk result (λ text. string_bytes text ≡ spec.nodes_text chain.now) }
{
    let nodes = nodes_of(chain.raw().steps.as_slice());
    format!(in alloc; "nodes {nodes}\n")
}

/// `lighten N C B`: the light chain of a chain, bound to a name.
pub fn lighten(
    alloc: Global,
    names: &Names,
    name: &Seq<u8>,
    chain: &[u8],
    budget: u64,
) -> Result<Answer, CommandFault>
    ensures { Replies (IsLightenReply names.now name.now chain.now budget) result }
{
    let chain = chain_named(alloc, names, chain)?.copy(alloc)?;
    match wt_search::lighten(alloc, chain, budget) {
        Ok(light) => {
            let text = Seq::new(nodes_text(alloc, &light)?.into_bytes());
            Ok(Answer::Binds {
                name: name.copy(alloc)?,
                value: Value::Chain(light),
                text,
            })
        }
        Err((_, end)) => Err(heavy(alloc, end)),
    }
}
