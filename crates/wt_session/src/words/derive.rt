//! The word `derive`.
ghost use Rattle.std.specs.Prelude.{◌≡◌, ◌<◌, ◌≤◌, ◌++◌, ◌∷◌, [], length, slice_get, map, option_map, Contains, Some, None, IfOk, OnOk};
ghost use Rattle.wt_step.specs.declared.raw.RawLink.TheVariants.{Marker};
ghost use Rattle.wt_chain.specs.Sets.{last_set};
ghost use Rattle.wt_chain.specs.Chains.{push_fault};
ghost use Rattle.wt_search.specs.Found.{links_of};
ghost use Rattle.wt_search.specs.Asked as search_spec;
ghost use Rattle.wt_window.specs.Surrounded.{Tells, allowed};
ghost use Rattle.wt_session.specs.Said.{Replies};
ghost use Rattle.wt_grid.specs.declared.axis.Axis.TheVariants.{One, Two};
ghost use Rattle.wt_session.specs.Levels.{sets_text};
ghost use Rattle.wt_session.specs.Markers.{classes_along};
ghost use Rattle.wt_session.specs.Derive.{IsClassReply, IsStepOf, IsBehind, IsDeriveReply, longer_reply};
ghost use Rattle.wt_session.specs.Derive as spec;

use crate::levels::{end_fault, limit_at, push_sets, refused_at, spent_at};
use crate::lookup::{value_named, wrong_kind};
use crate::names::Names;
use crate::nodes::nodes_of;
use crate::reply::{Answer, CommandFault, limit, refused};
use crate::value::Value;
use std::alloc::{AllocError, Global};
use wt_chain::{Accepted, Chain, End, PushFault};
use wt_grid::Image;
use wt_marker::{DeriveEnd, derive_step, marker_classes};
use wt_search::{MAX_LEVELS, MAX_NODES, SearchEnd};
use wt_seq::Seq;
use wt_step::{Link, Step};
use wt_tile::{Axis, SetRef, Side};
use wt_window::{DominoTable, TableEnd, dominoes};
use wt_write::{end_line, number_behind, push_number};

/// What a step is asked for by.
#[derive(Clone, Copy)]
pub struct Wanted {
    /// The axis of its markers.
    pub axis: Axis,
    /// The side of its markers.
    pub side: Side,
    /// The radius of its windows, at most 4.
    pub radius: u8,
    /// The number of the class of markers among the kept ones, from 0.
    pub class: usize,
    /// The budget of each window and each tree.
    pub budget: u64,
}

/// Appends an image in a line.
pub fn push_image(out: &mut Vec<u8>, image: Image) -> Result<(), AllocError>
    ensures { OnOk result (out.new.items ≡ out.old.items ++ spec.image_text image) }
{
    match image {
        Image::One(u) => push_number(out, u64::from(u))?,
        Image::Two(u, v) => {
            push_number(out, u64::from(u))?;
            number_behind(out, u64::from(v))?;
        }
    }
    end_line(out)?;
    Ok(())
}

/// Appends each image in a line.
fn push_images(out: &mut Vec<u8>, images: &[Image]) -> Result<(), AllocError>
    ensures { OnOk result (out.new.items ≡ out.old.items ++ spec.images_text images.now) }
{
    for image in images {
        push_image(out, *image)?;
    }
    Ok(())
}

/// The number of steps.
fn count_of(chain: &Option<Chain>) -> usize
    ensures { result ≡ length (links_of chain.now) }
{
    match chain {
        None => 0,
        Some(chain) => chain.steps(),
    }
}

/// The steps with one more, which takes apart their last set. Fails only where memory runs out.
fn pushed(alloc: Global, chain: Option<Chain>, step: Step) -> Result<Chain, AllocError>
    requires { push_fault (links_of chain) (Marker step) ≡ None }
    ensures { IfOk result (λ longer. longer ≡ links_of chain ++ Marker step ∷ []) }
{
    let link = Link::marker(step);
    match chain {
        None => match Chain::start(alloc, link) {
            Ok(longer) => Ok(longer),
            Err(_) => Err(AllocError),
        },
        Some(chain) => match chain.push_step(link) {
            Ok(longer) => Ok(longer),
            Err((_, _, PushFault::OutOfMemory)) => Err(AllocError),
            Err((_, _, PushFault::NotNext | PushFault::TooMany)) => unreachable!(),
        },
    }
}

/// The numbers of tiles by level, and these images.
fn derived_text(alloc: Global, chain: &Accepted, images: &[u8]) -> Result<Vec<u8>, AllocError>
    ensures { IfOk result (λ text. text.items ≡ sets_text chain.now.steps ++ images.now) }
{
    let mut text = Vec::new(alloc);
    push_sets(&mut text, chain.raw().steps.as_slice())?;
    text.extend_from_slice(images)?;
    Ok(text)
}

/// The answer for a chain with one step more, the images of which make this text.
fn longer(
    alloc: Global,
    name: &Seq<u8>,
    chain: Accepted,
    level: usize,
    images: &[u8],
) -> Result<Answer, CommandFault>
    ensures { Replies (λ reply. reply ≡ longer_reply name.now level chain images.now) result }
{
    if nodes_of(chain.raw().steps.as_slice()) > MAX_NODES {
        return Err(limit_at(alloc, "limit nodes", level));
    }
    let text = Seq::new(derived_text(alloc, &chain, images)?);
    Ok(Answer::Binds {
        name: name.copy(alloc)?,
        value: Value::Chain(chain),
        text,
    })
}

/// The answer for a step behind others.
fn with_step(
    alloc: Global,
    name: &Seq<u8>,
    before: Option<Chain>,
    step: Step,
) -> Result<Answer, CommandFault>
    requires { push_fault (links_of before) (Marker step) ≡ None }
    ensures { Replies (λ reply. reply ≡ spec.step_reply name.now (links_of before) step) result }
{
    let level = count_of(&before);
    let mut images = Vec::new(alloc);
    push_images(&mut images, step.view().raw().images.as_slice())?;
    let chain = pushed(alloc, before, step)?.finish();
    longer(alloc, name, chain, level, &images)
}

/// Why there is no step, told with its level.
fn at_level(level: usize, end: DeriveEnd) -> SearchEnd
    ensures { result ≡ search_spec.at_level level end }
{
    match end {
        DeriveEnd::EmptySet => SearchEnd::EmptySet { level },
        DeriveEnd::TooManyTiles => SearchEnd::TooManyTiles { level },
        DeriveEnd::Repeated {
            first: _,
            second: _,
        } => SearchEnd::Repeated { level },
        DeriveEnd::Spent { axis, a, b } => SearchEnd::Spent { level, axis, a, b },
        DeriveEnd::TooManyNodes => SearchEnd::TooManyNodes { level },
        DeriveEnd::OutOfMemory => SearchEnd::OutOfMemory,
    }
}

/// The answer for the step of a class.
fn of_class(
    alloc: Global,
    name: &Seq<u8>,
    set: SetRef<'_>,
    before: Option<Chain>,
    wanted: Wanted,
    one: &DominoTable,
    two: &DominoTable,
    class: &[u16],
) -> Result<Answer, CommandFault>
    requires radius { wanted.radius ≤ 4 }
    requires set { set.list.now ≡ last_set set.list.now (links_of before) }
    requires room { length (links_of before) < MAX_LEVELS }
    requires one { Tells set.list.now.tiles One wanted.radius (allowed one.now) }
    requires two { Tells set.list.now.tiles Two wanted.radius (allowed two.now) }
    requires kept { Contains (classes_along (length set.list.now.tiles) wanted.axis (allowed one.now) (allowed two.now)) class.now }
    ensures { Replies (IsClassReply name.now set.entry.list.now (links_of before) wanted (allowed one.now) (allowed two.now) (Some class.now)) result }
{
    let level = count_of(&before);
    match derive_step(
        alloc,
        set,
        wanted.axis,
        wanted.side,
        wanted.radius,
        class,
        one,
        two,
        wanted.budget,
    ) {
        Ok(step) => with_step(alloc, name, before, step),
        Err(end) => Err(end_fault(alloc, at_level(level, end))),
    }
}

fn class_at(classes: &[Vec<u16>], j: usize) -> Option<&[u16]>
    ensures { option_map (λ class. class.now) result ≡ slice_get (map (λ class. class.items) classes.now) j }
{
    if j < classes.len() {
        Some(&classes[j])
    } else {
        None
    }
}

/// The answer for a step that takes apart a set, behind others.
fn step_of(
    alloc: Global,
    name: &Seq<u8>,
    set: SetRef<'_>,
    before: Option<Chain>,
    wanted: Wanted,
) -> Result<Answer, CommandFault>
    requires radius { wanted.radius ≤ 4 }
    requires set { set.list.now ≡ last_set set.list.now (links_of before) }
    requires room { length (links_of before) < MAX_LEVELS }
    ensures { Replies (IsStepOf name.now set.entry.list.now (links_of before) wanted) result }
{
    let level = count_of(&before);
    let one = match dominoes(alloc, set, Axis::One, wanted.radius, wanted.budget) {
        Ok(one) => one,
        Err(TableEnd::Spent { a, b }) => return Err(spent_at(alloc, level, Axis::One, a, b)),
        Err(TableEnd::OutOfMemory) => return Err(CommandFault::OutOfMemory),
    };
    let two = match dominoes(alloc, set, Axis::Two, wanted.radius, wanted.budget) {
        Ok(two) => two,
        Err(TableEnd::Spent { a, b }) => return Err(spent_at(alloc, level, Axis::Two, a, b)),
        Err(TableEnd::OutOfMemory) => return Err(CommandFault::OutOfMemory),
    };
    let classes = marker_classes(alloc, set, wanted.axis, &one, &two)?;
    match class_at(&classes, wanted.class) {
        None => Err(refused_at(alloc, "refused no marker", level)),
        Some(class) => of_class(alloc, name, set, before, wanted, &one, &two, class),
    }
}

/// The answer for a step behind a chain.
fn behind(
    alloc: Global,
    name: &Seq<u8>,
    chain: &Accepted,
    wanted: Wanted,
) -> Result<Answer, CommandFault>
    requires { wanted.radius ≤ 4 }
    ensures { Replies (IsBehind name.now chain.now.steps wanted chain.now.end) result }
{
    match chain.end() {
        End::Loop {
            start: _,
            renaming: _,
            expansion: _,
        } => return Err(refused(alloc, b"refused looped\n")),
        End::Open => {}
    }
    if chain.steps() >= MAX_LEVELS {
        return Err(limit(alloc, b"limit steps\n"));
    }
    match chain.copy(alloc)?.reopen() {
        Ok(before) => step_of(alloc, name, chain.set(chain.steps()), Some(before), wanted),
        Err(_) => unreachable!(),
    }
}

/// `derive N F A W r j B`: one step behind a set or an open chain, as a chain that is bound to a name.
pub fn derive(
    alloc: Global,
    names: &Names,
    name: &Seq<u8>,
    base: &[u8],
    axis: Axis,
    side: Side,
    radius: u8,
    class: usize,
    budget: u64,
) -> Result<Answer, CommandFault>
    requires { radius ≤ 4 }
    ensures { Replies (IsDeriveReply names.now name.now base.now axis side radius class budget) result }
{
    let wanted = Wanted {
        axis,
        side,
        radius,
        class,
        budget,
    };
    match value_named(alloc, names, base)? {
        Value::Set(set) => step_of(alloc, name, set.view(), None, wanted),
        Value::Pattern(_) | Value::Partition(_) => Err(wrong_kind(alloc, base)),
        Value::Chain(chain) => behind(alloc, name, chain, wanted),
    }
}
