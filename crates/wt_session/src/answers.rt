// What each command comes to, by what it is about.
ghost use Rattle.std.specs.Prelude.{◌≡◌};
ghost use Rattle.wt_script.specs.Fits.{Fits};
ghost use Rattle.wt_session.specs.Said.{Replies};
ghost use Rattle.wt_session.specs.Meaning.{IsReply};
ghost use Rattle.wt_session.specs.Subjects.{subject_of};

use crate::names::Names;
use crate::reply::{Answer, CommandFault};
use crate::subject::{Subject, about};
use crate::words::bound::bound;
use crate::words::census::census;
use crate::words::cert::cert;
use crate::words::check::check;
use crate::words::code::code;
use crate::words::derive::derive;
use crate::words::desub::desub;
use crate::words::dominoes::dominoes;
use crate::words::draw::draw;
use crate::words::expand::expand;
use crate::words::fuse::fuse;
use crate::words::image::image;
use crate::words::induce::induce;
use crate::words::json::json;
use crate::words::lighten::lighten;
use crate::words::markers::markers;
use crate::words::pattern::pattern;
use crate::words::period::period;
use crate::words::primitive::primitive;
use crate::words::same::same;
use crate::words::search::search;
use crate::words::seeds::seeds;
use crate::words::surround::surround;
use crate::words::tiles::tiles;
use crate::words::torus::torus;
use crate::words::upgrade::upgrade;
use crate::words::valid::valid;
use std::alloc::Global;
use wt_script::{RawBox, Word};

/// What a command about sets comes to.
fn set_answer(alloc: Global, names: &Names, word: &Word) -> Result<Answer, CommandFault>
    requires fits { Fits word.now }
    requires about { subject_of word.now ≡ Subject.Set }
    ensures { Replies (IsReply names.now word.now) result }
{
    match word {
        Word::Tiles { name, list } => tiles(alloc, name, list),
        Word::Fuse { set, axis, u, v } => fuse(alloc, names, set.as_slice(), *axis, *u, *v),
        Word::Dominoes {
            set,
            axis,
            radius,
            budget,
        } => dominoes(alloc, names, set.as_slice(), *axis, *radius, *budget),
        Word::Surround {
            set,
            axis,
            a,
            b,
            radius,
            budget,
        } => surround(
            alloc,
            names,
            set.as_slice(),
            *axis,
            *a,
            *b,
            *radius,
            *budget,
        ),
        Word::Markers {
            set,
            axis,
            radius,
            budget,
        } => markers(alloc, names, set.as_slice(), *axis, *radius, *budget),
        Word::Same { from, to } => same(alloc, names, from.as_slice(), to.as_slice()),
        _ => unreachable!(),
    }
}

/// What a command about patterns comes to.
fn pattern_answer(alloc: Global, names: &Names, word: &Word) -> Result<Answer, CommandFault>
    requires fits { Fits word.now }
    requires about { subject_of word.now ≡ Subject.Pattern }
    ensures { Replies (IsReply names.now word.now) result }
{
    match word {
        Word::Pattern { name, set, cells } => pattern(alloc, names, name, set.as_slice(), cells),
        Word::Valid { pattern } => valid(alloc, names, pattern.as_slice()),
        Word::Period { pattern, dx, dy } => period(alloc, names, pattern.as_slice(), *dx, *dy),
        _ => unreachable!(),
    }
}

/// What a command that derives a chain comes to.
fn derivation_answer(alloc: Global, names: &Names, word: &Word) -> Result<Answer, CommandFault>
    requires fits { Fits word.now }
    requires about { subject_of word.now ≡ Subject.Derivation }
    ensures { Replies (IsReply names.now word.now) result }
{
    match word {
        Word::Search {
            name,
            set,
            axes,
            side,
            radius,
            levels,
            budget,
        } => search(
            alloc,
            names,
            name,
            set.as_slice(),
            axes.as_slice(),
            *side,
            *radius,
            *levels,
            *budget,
        ),
        Word::Derive {
            name,
            base,
            axis,
            side,
            radius,
            class,
            budget,
        } => derive(
            alloc,
            names,
            name,
            base.as_slice(),
            *axis,
            *side,
            *radius,
            *class,
            *budget,
        ),
        _ => unreachable!(),
    }
}

/// What a command about chains comes to.
fn chain_answer(alloc: Global, names: &Names, word: &Word) -> Result<Answer, CommandFault>
    requires fits { Fits word.now }
    requires about { subject_of word.now ≡ Subject.Chain }
    ensures { Replies (IsReply names.now word.now) result }
{
    match word {
        Word::Check { name, lines } => check(alloc, name, lines.as_slice()),
        Word::Upgrade { name, chain } => upgrade(alloc, names, name, chain.as_slice()),
        Word::Lighten {
            name,
            chain,
            budget,
        } => lighten(alloc, names, name, chain.as_slice(), *budget),
        Word::Primitive { chain } => primitive(alloc, names, chain.as_slice()),
        Word::Seeds { chain, power } => seeds(alloc, names, chain.as_slice(), *power),
        Word::Census { chain, turns, tile } => census(
            alloc,
            names,
            chain.as_slice(),
            *turns,
            *tile,
        ),
        _ => unreachable!(),
    }
}

/// What a command comes to that goes along a chain with tiles, patterns or vectors.
fn expansion_answer(alloc: Global, names: &Names, word: &Word) -> Result<Answer, CommandFault>
    requires fits { Fits word.now }
    requires about { subject_of word.now ≡ Subject.Expansion }
    ensures { Replies (IsReply names.now word.now) result }
{
    match word {
        Word::Expand {
            name,
            chain,
            width,
            height,
        } => expand(alloc, names, name, chain.as_slice(), *width, *height),
        Word::Image { chain, tile } => image(alloc, names, chain.as_slice(), *tile),
        Word::Desub {
            name,
            chain,
            step,
            pattern,
        } => desub(
            alloc,
            names,
            name,
            chain.as_slice(),
            *step,
            pattern.as_slice(),
        ),
        Word::Bound { chain, dx, dy } => bound(alloc, names, chain.as_slice(), *dx, *dy),
        _ => unreachable!(),
    }
}

/// What a command about partitions comes to.
fn partition_answer(alloc: Global, names: &Names, word: &Word) -> Result<Answer, CommandFault>
    requires fits { Fits word.now }
    requires about { subject_of word.now ≡ Subject.Partition }
    ensures { Replies (IsReply names.now word.now) result }
{
    match word {
        Word::Torus {
            name,
            width,
            height,
            move1,
            move2,
            regions,
        } => {
            let sides = RawBox {
                width: *width,
                height: *height,
                move1: *move1,
                move2: *move2,
            };
            torus(alloc, name, &sides, regions.as_slice())
        }
        Word::Code {
            name,
            torus,
            x,
            y,
            width,
            height,
        } => code(
            alloc,
            names,
            name,
            torus.as_slice(),
            *x,
            *y,
            *width,
            *height,
        ),
        Word::Induce { name, torus, axis } => induce(alloc, names, name, torus.as_slice(), *axis),
        _ => unreachable!(),
    }
}

/// What a command comes to that tells a value as text.
fn text_answer(alloc: Global, names: &Names, word: &Word) -> Result<Answer, CommandFault>
    requires fits { Fits word.now }
    requires about { subject_of word.now ≡ Subject.Text }
    ensures { Replies (IsReply names.now word.now) result }
{
    match word {
        Word::Cert { chain } => cert(alloc, names, chain.as_slice()),
        Word::Draw { pattern, style } => draw(alloc, names, pattern.as_slice(), *style),
        Word::Json { value } => json(alloc, names, value.as_slice()),
        _ => unreachable!(),
    }
}

/// What a command's word comes to, before the limits on names and on the text.
pub fn answer(alloc: Global, names: &Names, word: &Word) -> Result<Answer, CommandFault>
    requires { Fits word.now }
    ensures { Replies (IsReply names.now word.now) result }
{
    match about(word) {
        Subject::Set => set_answer(alloc, names, word),
        Subject::Pattern => pattern_answer(alloc, names, word),
        Subject::Derivation => derivation_answer(alloc, names, word),
        Subject::Chain => chain_answer(alloc, names, word),
        Subject::Expansion => expansion_answer(alloc, names, word),
        Subject::Partition => partition_answer(alloc, names, word),
        Subject::Text => text_answer(alloc, names, word),
    }
}
