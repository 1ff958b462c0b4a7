// The counter's answers over layouts: what each op does to the layout, and what it says (document 01, "Counter frames"). Only keep and restore have to
// do with the kept layout, so that all others leave it out. Rests on `layout` and `questions` for what a request does, and on say.rt for the lines.
ghost use Rattle.std.specs.Prelude.{◌≡◌};
ghost use Rattle.frames.specs.declared.Ask.TheVariants as asks;
ghost use Rattle.session.specs.Replies.{Replies, Keeps, Restores, accepted_with, refused_with};

use crate::{LONGEST_ANSWER, say};
use frames::{Ask, ops};
use layout::layout::Layout;
use marks::{Mark, Refusal};
use piece::insertion_blueprint::InsertionShape;
use piece::parttype::PartType;
use piece::rotation::Rotation;
use piece::settings::Opening;
use table::LIMIT;

// An answer's line: the first count characters of it, its newline among them; the rest is zero.
#[derive(Clone, Copy)]
pub struct Said {
    pub line: [u8; LONGEST_ANSWER],
    pub count: usize,
}

// The layout afterwards, whether the answer is a refusal (then that is the layout before), and the answer.
// Not a Result: all three always hold, since a refusal hands the layout back too and is answered.
#[derive(Clone, Copy)]
pub struct Response {
    pub layout: Layout,
    pub refused: bool,
    pub said: Said,
}

// Whether the layout is sound, so that it is kept, and the answer.
// Not a Result: the answer is said either way.
#[derive(Clone, Copy)]
pub struct Keeping {
    pub sound: bool,
    pub said: Said,
}

fn accepted(layout: Layout, said: Said) -> Response
    ensures { result ≡ accepted_with layout said }
{
    Response {
        layout,
        refused: false,
        said,
    }
}

fn refused(layout: Layout, said: Said) -> Response
    ensures { result ≡ refused_with layout said }
{
    Response {
        layout,
        refused: true,
        said,
    }
}

// ---- One function for each op. (As code each stays apart: one of them runs at a time, and in one frame they took the stack of all.)

// A refused opening keeps the layout that stood.
#[inline(never)]
fn open(layout: Layout, opening: Opening) -> Response
    ensures { Replies layout (asks.Open opening) result }
{
    let opened = Layout::open(opening);
    match opened.outcome {
        Ok(mark) => accepted(opened.layout, say::opened(mark)),
        Err(refusal) => refused(layout, say::refused(ops::OPEN, refusal)),
    }
}

#[inline(never)]
fn offers(layout: Layout, mark: Mark, part: PartType) -> Response
    ensures { Replies layout (asks.Offers mark part) result }
{
    match questions::room::offers(layout, mark, part) {
        Ok(offers) => accepted(layout, say::offered(offers)),
        Err(refusal) => refused(layout, say::refused(ops::OFFERS, refusal)),
    }
}

#[inline(never)]
fn insert(
    layout: Layout,
    mark: Mark,
    part: PartType,
    rotation: Rotation,
    shape: InsertionShape,
) -> Response
    ensures { Replies layout (asks.Insert mark part rotation shape) result }
{
    let answer = layout.insert(mark, part, rotation, shape);
    match answer.outcome {
        Ok(()) => accepted(answer.layout, say::inserted(answer.marks)),
        Err(refusal) => refused(answer.layout, say::refused(ops::INSERT, refusal)),
    }
}

// The buffer has room for as many part numbers as there are places, so refusal 13 is never given.
#[inline(never)]
fn remove(layout: Layout, mark: Mark) -> Response
    ensures { Replies layout (asks.Remove mark) result }
{
    let mut numbers = [0u16; LIMIT];
    let answer = layout.remove(mark, &mut numbers);
    let many = answer.count as usize;
    match answer.outcome {
        Ok(()) => accepted(answer.layout, say::removed(answer.free, &numbers, many)),
        Err(refusal) => refused(answer.layout, say::refused(ops::REMOVE, refusal)),
    }
}

#[inline(never)]
pub fn keep(layout: Layout) -> Keeping
    ensures { Keeps layout result }
{
    if layout.sound() {
        Keeping {
            sound: true,
            said: say::done(ops::KEEP),
        }
    } else {
        Keeping {
            sound: false,
            said: say::refused(ops::KEEP, Refusal::NotSound),
        }
    }
}

#[inline(never)]
pub fn restore(layout: Layout, kept: Layout) -> Response
    ensures { Restores layout kept result }
{
    let answer = layout.restore(kept);
    match answer.outcome {
        Ok(()) => accepted(answer.layout, say::done(ops::RESTORE)),
        Err(refusal) => refused(answer.layout, say::refused(ops::RESTORE, refusal)),
    }
}

// A layout that answers is sound, so that its record has the area of its parts and how many nodes it holds.
#[inline(never)]
fn report(layout: Layout) -> Response
    ensures { Replies layout asks.Report result }
{
    match questions::figures::sheet_usage(layout) {
        Ok(usage) => accepted(
            layout,
            say::reported(layout.used, layout.held, f64::to_bits(usage)),
        ),
        Err(refusal) => refused(layout, say::refused(ops::REPORT, refusal)),
    }
}

// ---- The answer to what is asked of the layout.

pub fn replied(layout: Layout, ask: Ask) -> Response
    ensures { Replies layout ask result }
{
    match ask {
        Ask::Open { opening } => open(layout, opening),
        Ask::Offers { mark, part } => offers(layout, mark, part),
        Ask::Insert {
            mark,
            part,
            rotation,
            shape,
        } => insert(layout, mark, part, rotation, shape),
        Ask::Remove { mark } => remove(layout, mark),
        Ask::Report => report(layout),
    }
}
