// Rows of numbers.
ghost use Rattle.std.specs.Prelude.{◌≡◌, ◌++◌, ◌∷◌, ◌+◌, ◌*◌, ◌≤◌, ◌<◌, [], OnOk, OnErr, length, map, take};
ghost use Rattle.std.specs.Fmt.{decimal};
ghost use Rattle.wt_text.specs.Words.{spaced};
ghost use Rattle.wt_write.specs.Behind.{behind_spaces};

use crate::words::{end_line, push_number};
use itoa::Buffer;
use std::alloc::AllocError;

/// How many numbers are spelled at a time.
const PIECE: usize = 64;

/// How many bytes a number takes at most, with the space before it.
const ROOM: usize = 6;

/// Writes a number's decimal digits, at most five, behind the first bytes, and tells how many there are then.
fn put_digits(text: &mut [u8], len: usize, number: u16) -> usize
    requires { len + 5 ≤ length text.old }
    ensures put { take result text.new ≡ take len text.old ++ decimal number }
    ensures few { result ≤ len + 5 }
    ensures size { length text.new ≡ length text.old }
{
    let mut buffer = Buffer::new();
    let digits = buffer.format(number).as_bytes();
    let end = len + digits.len();
    text[len..end].copy_from_slice(digits);
    end
}

/// The same for a number below 10.
fn put_one(text: &mut [u8], len: usize, number: u16) -> usize
    requires small { number < 10 }
    requires room { len + 5 ≤ length text.old }
    ensures put { take result text.new ≡ take len text.old ++ decimal number }
    ensures few { result ≡ len + 1 }
    ensures size { length text.new ≡ length text.old }
{
    text[len] = b'0' + number as u8;
    len + 1
}

/// The same for a number of two digits.
fn put_two(text: &mut [u8], len: usize, number: u16) -> usize
    requires large { 10 ≤ number }
    requires small { number < 100 }
    requires room { len + 5 ≤ length text.old }
    ensures put { take result text.new ≡ take len text.old ++ decimal number }
    ensures few { result ≤ len + 5 }
    ensures size { length text.new ≡ length text.old }
{
    let end = put_one(text, len, number / 10);
    text[end] = b'0' + (number % 10) as u8;
    end + 1
}

/// Writes a space and a number's decimal digits behind the first bytes, and tells how many there are then.
fn put_behind(text: &mut [u8], len: usize, number: u16) -> usize
    requires { len + 6 ≤ length text.old }
    ensures put { take result text.new ≡ take len text.old ++ 32 ∷ decimal number }
    ensures few { result ≤ len + 6 }
    ensures size { length text.new ≡ length text.old }
{
    text[len] = b' ';
    if number < 10 {
        put_one(text, len + 1, number)
    } else if number < 100 {
        put_two(text, len + 1, number)
    } else {
        put_digits(text, len + 1, number)
    }
}

/// Writes each number behind a space, from the front on, and tells how many bytes there are.
fn put_piece(text: &mut [u8; 384], numbers: &[u16]) -> usize
    requires { length numbers.now ≤ PIECE }
    ensures put { take result text.new ≡ behind_spaces (map decimal numbers.now) }
    ensures within { result ≤ ROOM * PIECE }
{
    let mut end = 0;
    for number in numbers {
        end = put_behind(text, end, *number);
    }
    end
}

/// Appends each number behind a space. Where memory runs out, nothing is appended.
pub fn push_numbers(out: &mut Vec<u8>, numbers: &[u16]) -> Result<(), AllocError>
    ensures ok { OnOk result (out.new.items ≡ out.old.items ++ behind_spaces (map decimal numbers.now)) }
    ensures err { OnErr result (out.new.items ≡ out.old.items) }
{
    let before = out.len();
    let mut text = [0u8; ROOM * PIECE];
    let mut at = 0usize;
    while at < numbers.len() {
        let count = (numbers.len() - at).min(PIECE);
        let end = put_piece(&mut text, &numbers[at..at + count]);
        if let Err(fault) = out.extend_from_slice(&text[..end]) {
            out.truncate(before);
            return Err(fault);
        }
        at += count;
    }
    Ok(())
}

/// Appends a line of numbers with a space between each two. Where memory runs out, nothing is appended.
pub fn push_row(out: &mut Vec<u8>, numbers: &[u16]) -> Result<(), AllocError>
    ensures ok { OnOk result (out.new.items ≡ out.old.items ++ spaced (map decimal numbers.now) ++ 10 ∷ []) }
    ensures err { OnErr result (out.new.items ≡ out.old.items) }
{
    let before = out.len();
    let done = put_row(out, numbers);
    if done.is_err() {
        out.truncate(before);
    }
    done
}

// Where memory runs out, a part of the line may stand behind what was there.
fn put_row(out: &mut Vec<u8>, numbers: &[u16]) -> Result<(), AllocError>
    ensures ok { OnOk result (out.new.items ≡ out.old.items ++ spaced (map decimal numbers.now) ++ 10 ∷ []) }
    ensures err { OnErr result (take (length out.old.items) out.new.items ≡ out.old.items) }
{
    let [first, others @ ..] = numbers else {
        return end_line(out);
    };
    push_number(out, u64::from(*first))?;
    push_numbers(out, others)?;
    end_line(out)?;
    Ok(())
}
