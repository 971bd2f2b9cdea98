// What lines, tokens, numbers and counts of faults are.
ghost use Rattle.std.specs.Prelude.{◌≡◌, ◌<◌, ◌≤◌, ◌+◌, ◌-◌, ◌^◌, ◌↔◌, ◌⊎◌, ℕ, List, Some, length, count_by, nat_eq};
ghost use Rattle.std.specs.Fmt.{decimal};
ghost use Rattle.wt_text.specs.Lines.{lines, bytes_of};
ghost use Rattle.wt_text.specs.Words.{tokens, spaced, number};
ghost use Rattle.wt_io.specs.Causes.{Rose};

/// The lines of a text, put together again, are the text.
pub fn lines_are_the_text()
    ensures { (text : List ℕ) → bytes_of (lines text) ≡ text }
{}

/// The tokens of a line, with a space between each two, are the line.
pub fn tokens_are_the_line()
    ensures { (line : List ℕ) → spaced (tokens line) ≡ line }
{}

/// A line has one token more than spaces.
pub fn tokens_by_spaces()
    ensures { (line : List ℕ) → length (tokens line) ≡ count_by (λ b. nat_eq b 32) line + 1 }
{}

/// A token that is a number below 2^64 is its decimal spelling.
pub fn numbers_are_spelled()
    ensures { (token : List ℕ) (n : ℕ) → number token ≡ Some n → n < 2 ^ 64 → token ≡ decimal n }
{}

/// The decimal spelling of a number below 2^64 is that number.
pub fn spellings_are_numbers()
    ensures { (n : ℕ) → n < 2 ^ 64 → number (decimal n) ≡ Some n }
{}

/// A count of faults rose where it is greater than before, or stands at the last value of a `u64`.
pub fn rising()
    ensures { (before now : ℕ) → now ≤ 2 ^ 64 - 1 → Rose before now ↔ ((before < now) ⊎ (now ≡ 2 ^ 64 - 1)) }
{}
