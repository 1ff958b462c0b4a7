// What a question is answered with: the call that it is for, its answer as a line, or its refusal (docs/DESK.md). Each call examines the layout first.
// Rests on `questions` and `saw` for the answers and on write.rt for the lines.
ghost use Rattle.std.specs.Prelude.{◌≡◌, ◌≤◌, length};
ghost use Rattle.desk_frames.specs.declared.Question.TheVariants as questions;
ghost use Rattle.frames.specs.Writing.{LinePut};
ghost use Rattle.desk_frames.specs.Answers.{Tells, content_for, tidy_found, tidy_op};
ghost use Rattle.desk_frames.specs.Desk.{desk_longest};
ghost use Rattle.desk_frames.specs.Inner.{figures_call};

use crate::read::{
    AMOUNTS, CUTS, EATEN_AREA, FIGURES, FREE_PIECE, PART_NUMBERS, REMOVABLE_PIECE, ROOM_LIGHT,
    SNAPSHOT, TIDY, WHY_NOT,
};
use crate::write::FigureList;
use crate::{Question, write};
use frames::write::refused;
use layout::layout::Layout;
use marks::{Mark, Refusal};
use piece::parttype::PartType;
use table::LIMIT;

// The bytes of a node of a snapshot, and of a cut.
const NODE: u16 = 14;

const CUT: u16 = 9;

fn why_not(layout: Layout, mark: Mark, part: PartType, out: &mut [u8]) -> usize
    requires { desk_longest ≤ length out.old }
    ensures { Tells layout (questions.WhyNot mark part) out.old out.new result }
{
    match questions::why_not::why_not(layout, mark, part) {
        Ok(reasons) => write::pair(out, WHY_NOT, reasons.default.into(), reasons.rotated.into()),
        Err(refusal) => refused(out, WHY_NOT, refusal),
    }
}

fn room_light(layout: Layout, part: PartType, out: &mut [u8]) -> usize
    requires { desk_longest ≤ length out.old }
    ensures { Tells layout (questions.RoomLight part) out.old out.new result }
{
    match questions::room::room_light(layout, part) {
        Ok(Some(mark)) => write::light(out, ROOM_LIGHT, 1, mark),
        Ok(None) => write::light(out, ROOM_LIGHT, 0, Mark::zero()),
        Err(refusal) => refused(out, ROOM_LIGHT, refusal),
    }
}

fn free_piece(layout: Layout, position: u16, out: &mut [u8]) -> usize
    requires { desk_longest ≤ length out.old }
    ensures { Tells layout (questions.FreePiece position) out.old out.new result }
{
    match questions::positions::free_mark(layout, position) {
        Ok(mark) => write::mark(out, FREE_PIECE, mark),
        Err(refusal) => refused(out, FREE_PIECE, refusal),
    }
}

fn removable_piece(layout: Layout, position: u16, out: &mut [u8]) -> usize
    requires { desk_longest ≤ length out.old }
    ensures { Tells layout (questions.RemovablePiece position) out.old out.new result }
{
    match questions::positions::removable_mark(layout, position) {
        Ok(mark) => write::mark(out, REMOVABLE_PIECE, mark),
        Err(refusal) => refused(out, REMOVABLE_PIECE, refusal),
    }
}

// The buffer has room for as many numbers as there are places, so refusal 13 is never given.
fn part_numbers(layout: Layout, out: &mut [u8]) -> usize
    requires { desk_longest ≤ length out.old }
    ensures { Tells layout questions.PartNumbers out.old out.new result }
{
    let mut numbers = [0u16; LIMIT];
    match questions::written::part_numbers(layout, &mut numbers) {
        Ok(count) => write::numbers(out, PART_NUMBERS, &numbers, count),
        Err(refusal) => refused(out, PART_NUMBERS, refusal),
    }
}

// The figures are refused together: each where the layout isn't sound. Where it is, both usages are numbers, so that they have bits.
fn figures_of(layout: Layout) -> Result<FigureList, Refusal>
    ensures { result ≡ figures_call layout }
{
    Ok(FigureList {
        used: questions::figures::used_area(layout)?,
        free: questions::figures::free_area(layout)?,
        nodes: questions::figures::nodes_held(layout)?,
        empty: u8::from(questions::figures::is_empty(layout)?),
        sheet: f64::to_bits(questions::figures::sheet_usage(layout)?),
        tree: f64::to_bits(questions::figures::tree_usage(layout)?),
    })
}

fn figures(layout: Layout, out: &mut [u8]) -> usize
    requires { desk_longest ≤ length out.old }
    ensures { Tells layout questions.Figures out.old out.new result }
{
    match figures_of(layout) {
        Ok(list) => write::figures(out, FIGURES, list),
        Err(refusal) => refused(out, FIGURES, refusal),
    }
}

// The buffer has room for as many nodes as there are places.
fn snapshot(layout: Layout, out: &mut [u8]) -> usize
    requires { desk_longest ≤ length out.old }
    ensures { Tells layout questions.Snapshot out.old out.new result }
{
    let mut bytes = [0u8; 14 * LIMIT];
    match questions::written::snapshot(layout, &mut bytes) {
        Ok(n) => write::entries(out, SNAPSHOT, n / NODE, &bytes[..n as usize]),
        Err(refusal) => refused(out, SNAPSHOT, refusal),
    }
}

// The buffer has room for as many cuts as there are places.
fn cuts(layout: Layout, out: &mut [u8]) -> usize
    requires { desk_longest ≤ length out.old }
    ensures { Tells layout questions.Cuts out.old out.new result }
{
    let mut bytes = [0u8; saw::cuts::ROOM];
    match saw::cuts::cuts(layout, &mut bytes) {
        Ok(n) => write::entries(out, CUTS, n / CUT, &bytes[..n as usize]),
        Err(refusal) => refused(out, CUTS, refusal),
    }
}

fn eaten_area(layout: Layout, out: &mut [u8]) -> usize
    requires { desk_longest ≤ length out.old }
    ensures { Tells layout questions.EatenArea out.old out.new result }
{
    match questions::figures::eaten_area(layout) {
        Ok(area) => write::area(out, EATEN_AREA, area),
        Err(refusal) => refused(out, EATEN_AREA, refusal),
    }
}

// The buffer has room for as many amounts as there are places.
fn amounts(layout: Layout, out: &mut [u8]) -> usize
    requires { desk_longest ≤ length out.old }
    ensures { Tells layout questions.Amounts out.old out.new result }
{
    let mut bytes = [0u8; saw::cuts::AMOUNTS];
    match saw::cuts::amounts(layout, &mut bytes) {
        Ok(n) => write::entries(out, AMOUNTS, n, &bytes[..n as usize]),
        Err(refusal) => refused(out, AMOUNTS, refusal),
    }
}

// The answer to a tidying: how many structures were taken out, or its refusal.
pub fn tidied(outcome: Result<(), Refusal>, count: u16, out: &mut [u8]) -> usize
    requires { desk_longest ≤ length out.old }
    ensures { LinePut out.old (content_for tidy_op (tidy_found outcome count)) out.new result }
{
    match outcome {
        Ok(()) => write::count(out, TIDY, count),
        Err(refusal) => refused(out, TIDY, refusal),
    }
}

// The answer to a question, in the lent line; and how many characters it has, its newline among them. (As code it stays apart from the counter's step, whose frame
// is large.)
#[inline(never)]
pub fn answer(layout: Layout, question: Question, out: &mut [u8]) -> usize
    requires { desk_longest ≤ length out.old }
    ensures { Tells layout question out.old out.new result }
{
    match question {
        Question::WhyNot { mark, part } => why_not(layout, mark, part, out),
        Question::RoomLight { part } => room_light(layout, part, out),
        Question::FreePiece { position } => free_piece(layout, position, out),
        Question::RemovablePiece { position } => removable_piece(layout, position, out),
        Question::PartNumbers => part_numbers(layout, out),
        Question::Figures => figures(layout, out),
        Question::Snapshot => snapshot(layout, out),
        Question::Cuts => cuts(layout, out),
        Question::EatenArea => eaten_area(layout, out),
        Question::Amounts => amounts(layout, out),
    }
}
