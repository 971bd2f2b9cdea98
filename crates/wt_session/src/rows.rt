//! Numbers in lines.
ghost use Rattle.std.specs.Prelude.{◌≡◌, ◌++◌, OnOk, map};
ghost use Rattle.wt_session.specs.Rows as spec;

use std::alloc::AllocError;
use wt_write::{end_line, push_numbers, push_row, push_word};

/// Appends each list in a line of its own.
pub fn push_lists(out: &mut Vec<u8>, lists: &[Vec<u16>]) -> Result<(), AllocError>
    ensures { OnOk result (out.new.items ≡ out.old.items ++ spec.rows_text (map (λ l. l.items) lists.now)) }
{
    for list in lists {
        push_row(out, list)?;
    }
    Ok(())
}

/// Appends four numbers in a line each.
pub fn push_fours(out: &mut Vec<u8>, fours: &[[u16; 4]]) -> Result<(), AllocError>
    ensures { OnOk result (out.new.items ≡ out.old.items ++ spec.rows_text fours.now) }
{
    for four in fours {
        push_row(out, four)?;
    }
    Ok(())
}

/// Appends a line of a word and numbers.
pub fn push_line(out: &mut Vec<u8>, word: &str, numbers: &[u16]) -> Result<(), AllocError>
    ensures { OnOk result (out.new.items ≡ out.old.items ++ spec.numbers_text word.now numbers.now) }
{
    push_word(out, word)?;
    push_numbers(out, numbers)?;
    end_line(out)?;
    Ok(())
}
