// What a name is bound to, as a command needs it.
ghost use Rattle.std.specs.Prelude.{◌≡◌, ◌++◌, codes, None};
ghost use Rattle.wt_session.specs.Said.{Finds, IsRefusal};
ghost use Rattle.wt_session.specs.Replies as spec;

use crate::names::Names;
use crate::reply::CommandFault;
use crate::value::{Sheet, Value};
use std::alloc::Global;
use wt_chain::Accepted;
use wt_seq::Seq;
use wt_tile::SetRef;
use wt_torus::Partition;

fn refused_name(alloc: Global, word: &[u8], name: &[u8]) -> CommandFault
    ensures { IsRefusal 1 (word.now ++ (name.now ++ codes "\n")) result }
{
    let mut text = Vec::new(alloc);
    if text.extend_from_slice(word).is_err()
        || text.extend_from_slice(name).is_err()
        || text.push(b'\n').is_err()
    {
        return CommandFault::OutOfMemory;
    }
    CommandFault::Refused {
        status: 1,
        text: Seq::new(text),
    }
}

/// A name that is not bound.
fn unknown(alloc: Global, name: &[u8]) -> CommandFault
    ensures { IsRefusal 1 (codes "refused unknown " ++ (name.now ++ codes "\n")) result }
{
    refused_name(alloc, b"refused unknown ", name)
}

/// A name that is bound to a value of another kind.
pub fn wrong_kind(alloc: Global, name: &[u8]) -> CommandFault
    ensures { IsRefusal 1 (codes "refused kind " ++ (name.now ++ codes "\n")) result }
{
    refused_name(alloc, b"refused kind ", name)
}

/// The value of a name.
pub fn value_named<'a>(
    alloc: Global,
    names: &'a Names,
    name: &[u8],
) -> Result<&'a Value, CommandFault>
    ensures { Finds (λ v. v.now) result (spec.value_named names.now name.now) }
{
    match names.get(name) {
        Some(value) => Ok(value),
        None => Err(unknown(alloc, name)),
    }
}

/// The set of a name.
pub fn set_named<'a>(
    alloc: Global,
    names: &'a Names,
    name: &[u8],
) -> Result<SetRef<'a>, CommandFault>
    ensures { Finds (λ set. set.list.now) result (spec.set_named names.now name.now) }
{
    match names.get(name) {
        Some(Value::Set(set)) => Ok(set.view()),
        Some(Value::Pattern(_) | Value::Chain(_) | Value::Partition(_)) => Err(wrong_kind(
            alloc, name,
        )),
        None => Err(unknown(alloc, name)),
    }
}

/// The pattern of a name.
pub fn pattern_named<'a>(
    alloc: Global,
    names: &'a Names,
    name: &[u8],
) -> Result<&'a Sheet, CommandFault>
    ensures { Finds (λ p. p.now) result (spec.pattern_named names.now name.now) }
{
    match names.get(name) {
        Some(Value::Pattern(sheet)) => Ok(sheet),
        Some(Value::Set(_) | Value::Chain(_) | Value::Partition(_)) => Err(wrong_kind(alloc, name)),
        None => Err(unknown(alloc, name)),
    }
}

/// The chain of a name.
pub fn chain_named<'a>(
    alloc: Global,
    names: &'a Names,
    name: &[u8],
) -> Result<&'a Accepted, CommandFault>
    ensures { Finds (λ c. c.now) result (spec.chain_named names.now name.now) }
{
    match names.get(name) {
        Some(Value::Chain(chain)) => Ok(chain),
        Some(Value::Set(_) | Value::Pattern(_) | Value::Partition(_)) => Err(wrong_kind(
            alloc, name,
        )),
        None => Err(unknown(alloc, name)),
    }
}

/// The partition of a name.
pub fn partition_named<'a>(
    alloc: Global,
    names: &'a Names,
    name: &[u8],
) -> Result<&'a Partition, CommandFault>
    ensures { Finds (λ p. p.now) result (spec.partition_named names.now name.now) }
{
    match names.get(name) {
        Some(Value::Partition(partition)) => Ok(partition),
        Some(Value::Set(_) | Value::Pattern(_) | Value::Chain(_)) => Err(wrong_kind(alloc, name)),
        None => Err(unknown(alloc, name)),
    }
}
