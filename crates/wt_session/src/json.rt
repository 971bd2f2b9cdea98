// Values as JSON.
ghost use Rattle.std.specs.Prelude.{◌≡◌, IfOk};
ghost use Rattle.serde_json.specs.View.{view};
ghost use Rattle.serde_json.specs.Written.{compact_text};
ghost use Rattle.wt_session.specs.Json as spec;

use crate::json_chains::chain_json;
use crate::json_partitions::partition_json;
use crate::json_patterns::pattern_bytes;
use crate::json_sets::set_json;
use crate::value::Value as Bound;
use serde_json::Value;
use std::alloc::{AllocError, Global};

/// Numbers as a list.
#[tactic(auto, using(crate::proofs::Jsons::one_more))]
pub fn numbers(alloc: Global, list: &[u16]) -> Result<Value, AllocError>
    ensures { IfOk result (λ v. view v ≡ spec.numbers list.now) }
{
    let mut items = Vec::with_capacity(alloc, list.len())?;
    for number in list {
        items.push(Value::from(*number))?;
    }
    Ok(Value::Array(items))
}

/// Any value as JSON.
#[tactic(auto, using(crate::proofs::Floats::plain_set, crate::proofs::Floats::plain_chain, crate::proofs::Floats::plain_partition, crate::proofs::Jsons::written_pattern))]
pub fn value_bytes(alloc: Global, value: &Bound) -> Result<Vec<u8>, AllocError>
    ensures { IfOk result (λ text. text.items ≡ compact_text (spec.value_json value.now)) }
{
    match value {
        Bound::Set(set) => {
            let text = set_json(alloc, set.view().list())?.to_string(alloc)?;
            Ok(text.into_bytes())
        }
        Bound::Pattern(sheet) => pattern_bytes(alloc, sheet.pattern()),
        Bound::Partition(partition) => {
            let text = partition_json(alloc, partition)?.to_string(alloc)?;
            Ok(text.into_bytes())
        }
        Bound::Chain(chain) => {
            let text = chain_json(alloc, chain.raw())?.to_string(alloc)?;
            Ok(text.into_bytes())
        }
    }
}
