// The report of a good chain.
ghost use Rattle.std.specs.Prelude.{◌≡◌, ◌++◌, IfOk, OnOk, string_bytes};
ghost use Rattle.wt_check.specs.Texts.{sizes_behind};
ghost use Rattle.wt_check.specs.Texts as texts;

use std::alloc::{AllocError, Global};
use wt_chain::{Accepted, End, RawChain, coarse_set, first_count};
use wt_step::RawLink;

fn end_word(end: &End) -> &'static str
    ensures { result.now ≡ texts.end_word end.now }
{
    match end {
        End::Open => "open",
        End::Loop {
            start: _,
            renaming: _,
            expansion: _,
        } => "looped",
    }
}

fn head(alloc: Global, chain: &RawChain) -> Result<String, AllocError>
    ensures { IfOk result (λ text. string_bytes text ≡ texts.head_text chain.now) }
{
    let word = end_word(&chain.end);
    let count = first_count(chain.steps.as_slice());
    format!(in alloc; "accepted {word}\nsets {count}")
}

fn add_sizes(text: &mut String, links: &[RawLink]) -> Result<(), AllocError>
    ensures { OnOk result (string_bytes text.new ≡ string_bytes text.old ++ sizes_behind links.now) }
{
    for link in links {
        let count = coarse_set(link).tiles.as_slice().len();
        write!(text, " {count}")?;
    }
    Ok(())
}

fn add_loop(text: &mut String, end: &End) -> Result<(), AllocError>
    ensures { OnOk result (string_bytes text.new ≡ string_bytes text.old ++ texts.loop_text end.now) }
{
    match end {
        End::Open => Ok(()),
        End::Loop {
            start,
            renaming: _,
            expansion,
        } => write!(text, "loop {start} {expansion}\n"),
    }
}

/// The report of a good chain: whether it is open or looped, the numbers of tiles of its sets, and for a loop
/// where it starts and how many turns make images grow. Each line ends with a newline.
pub fn report(alloc: Global, chain: &Accepted) -> Result<Vec<u8>, AllocError>
    ensures { IfOk result (λ bytes. bytes.items ≡ texts.report_text chain.now) }
{
    let raw = chain.raw();
    let mut text = head(alloc, raw)?;
    add_sizes(&mut text, raw.steps.as_slice())?;
    text.push('\n')?;
    add_loop(&mut text, &raw.end)?;
    Ok(text.into_bytes())
}
