// Patterns as JSON, a row at a time, since a pattern has many cells.
ghost use Rattle.std.specs.Prelude.{◌≡◌, ◌++◌, false, IfOk, OnOk};
ghost use Rattle.std.specs.Fmt.{decimal};
ghost use Rattle.serde_json.specs.View.{items_of};
ghost use Rattle.serde_json.specs.Written.{compact_text, comma_if, items_text};
ghost use Rattle.wt_session.specs.Json.{rows_json, string_text, key_text, sides_text, pattern_text};
ghost use Rattle.wt_session.specs.Json as spec;

use crate::json::numbers;
use serde_json::Value;
use std::alloc::{AllocError, Global};
use wt_pattern::Pattern;

/// A comma, where something stands before.
fn push_comma(out: &mut Vec<u8>, later: bool) -> Result<(), AllocError>
    ensures { OnOk result (out.new.items ≡ out.old.items ++ comma_if later) }
{
    if later {
        out.push(b',')?;
    }
    Ok(())
}

/// Appends a row as a list of numbers.
#[tactic(auto, using(crate::proofs::Floats::plain_numbers))]
fn push_row(out: &mut Vec<u8>, alloc: Global, row: &[u16]) -> Result<(), AllocError>
    ensures { OnOk result (out.new.items ≡ out.old.items ++ compact_text (spec.numbers row.now)) }
{
    let text = numbers(alloc, row)?.to_string(alloc)?;
    out.extend_from_slice(text.as_bytes())
}

/// Appends the rows, the bottom one first, and the bracket that ends them.
#[tactic(auto, using(crate::proofs::Jsons::row_on, crate::proofs::Jsons::rows_done))]
fn push_rows(out: &mut Vec<u8>, alloc: Global, p: &Pattern) -> Result<(), AllocError>
    ensures { OnOk result (out.new.items ≡ out.old.items ++ items_text false (items_of (rows_json p.now 0 p.now.height))) }
{
    for y in 0..p.height() {
        push_comma(out, y > 0)?;
        push_row(out, alloc, p.row(y))?;
    }
    out.push(b']')?;
    Ok(())
}

/// Appends a key and its colon, behind a comma where something stands before.
#[tactic(auto, using(crate::proofs::Floats::plain_string), unfolding(crate::specs::Json::key_text, crate::specs::Json::string_text))]
fn push_key(out: &mut Vec<u8>, alloc: Global, later: bool, key: &str) -> Result<(), AllocError>
    ensures { OnOk result (out.new.items ≡ out.old.items ++ key_text later key.now) }
{
    let text = Value::try_from_str(alloc, key)?.to_string(alloc)?;
    push_comma(out, later)?;
    out.extend_from_slice(text.as_bytes())?;
    out.push(b':')?;
    Ok(())
}

/// Appends a number.
fn push_count(out: &mut Vec<u8>, alloc: Global, count: usize) -> Result<(), AllocError>
    ensures { OnOk result (out.new.items ≡ out.old.items ++ decimal count) }
{
    let text = format!(in alloc; "{count}")?;
    out.extend_from_slice(text.as_bytes())
}

/// Appends a string.
#[tactic(auto, using(crate::proofs::Floats::plain_string), unfolding(crate::specs::Json::string_text))]
fn push_string(out: &mut Vec<u8>, alloc: Global, word: &str) -> Result<(), AllocError>
    ensures { OnOk result (out.new.items ≡ out.old.items ++ string_text word.now) }
{
    let text = Value::try_from_str(alloc, word)?.to_string(alloc)?;
    out.extend_from_slice(text.as_bytes())
}

/// Appends the members of a pattern behind its cells.
#[tactic(auto, unfolding(crate::specs::Json::sides_text))]
fn push_sides(out: &mut Vec<u8>, alloc: Global, p: &Pattern) -> Result<(), AllocError>
    ensures { OnOk result (out.new.items ≡ out.old.items ++ sides_text p.now) }
{
    push_key(out, alloc, true, "height")?;
    push_count(out, alloc, p.height())?;
    push_key(out, alloc, true, "kind")?;
    push_string(out, alloc, "pattern")?;
    push_key(out, alloc, true, "width")?;
    push_count(out, alloc, p.width())
}

/// A pattern as JSON.
pub fn pattern_bytes(alloc: Global, p: &Pattern) -> Result<Vec<u8>, AllocError>
    ensures { IfOk result (λ text. text.items ≡ pattern_text p.now) }
{
    let mut out = Vec::new(alloc);
    out.push(b'{')?;
    push_key(&mut out, alloc, false, "cells")?;
    out.push(b'[')?;
    push_rows(&mut out, alloc, p)?;
    push_sides(&mut out, alloc, p)?;
    out.push(b'}')?;
    Ok(out)
}
