// An answer of the desk as a line, one function for each form (docs/DESK.md). Rests on the pen of `frames`.
ghost use Rattle.std.specs.Prelude.{◌≡◌, [], ◌∷◌, ◌++◌, ◌+◌, ◌*◌, ◌≤◌, length, take};
ghost use Rattle.frames.specs.Bytes.{two, eight};
ghost use Rattle.frames.specs.Fields.{mark_bytes};
ghost use Rattle.frames.specs.Answers.{each};
ghost use Rattle.frames.specs.Writing.{LinePut};
ghost use Rattle.desk_frames.specs.Answers.{figures_bytes};

use frames::write::{begin, end, put, put_bytes, put_eight, put_mark, put_two, put_twos};
use marks::Mark;

// The figures of a layout, as they are answered: of the sheet's usage and the tree's, their bits.
#[derive(Clone, Copy)]
pub struct FigureList {
    pub used: u64,
    pub free: u64,
    pub nodes: u16,
    pub empty: u8,
    pub sheet: u64,
    pub tree: u64,
}

// Two bytes.
pub fn pair(out: &mut [u8], op: u8, one: u8, other: u8) -> usize
    requires { 11 ≤ length out.old }
    ensures { LinePut out.old (op ∷ 0 ∷ one ∷ other ∷ []) out.new result }
{
    let pen = begin(out, op, 0);
    let next = put(out, pen, one);
    let last = put(out, next, other);
    end(out, last)
}

pub fn mark(out: &mut [u8], op: u8, mark: Mark) -> usize
    requires { 21 ≤ length out.old }
    ensures { LinePut out.old (op ∷ 0 ∷ mark_bytes mark) out.new result }
{
    let pen = begin(out, op, 0);
    let next = put_mark(out, pen, mark);
    end(out, next)
}

// A byte, and a mark.
pub fn light(out: &mut [u8], op: u8, yes: u8, mark: Mark) -> usize
    requires { 23 ≤ length out.old }
    ensures { LinePut out.old (op ∷ 0 ∷ yes ∷ mark_bytes mark) out.new result }
{
    let pen = begin(out, op, 0);
    let said = put(out, pen, yes);
    let next = put_mark(out, said, mark);
    end(out, next)
}

pub fn figures(out: &mut [u8], op: u8, f: FigureList) -> usize
    requires { 77 ≤ length out.old }
    ensures { LinePut out.old (op ∷ 0 ∷ figures_bytes f) out.new result }
{
    let pen = begin(out, op, 0);
    let used = put_eight(out, pen, f.used);
    let free = put_eight(out, used, f.free);
    let nodes = put_two(out, free, f.nodes);
    let empty = put(out, nodes, f.empty);
    let sheet = put_eight(out, empty, f.sheet);
    let tree = put_eight(out, sheet, f.tree);
    end(out, tree)
}

// An area.
pub fn area(out: &mut [u8], op: u8, area: u64) -> usize
    requires { 23 ≤ length out.old }
    ensures { LinePut out.old (op ∷ 0 ∷ eight area) out.new result }
{
    let pen = begin(out, op, 0);
    let next = put_eight(out, pen, area);
    end(out, next)
}

// How many.
pub fn count(out: &mut [u8], op: u8, count: u16) -> usize
    requires { 11 ≤ length out.old }
    ensures { LinePut out.old (op ∷ 0 ∷ two count) out.new result }
{
    let pen = begin(out, op, 0);
    let next = put_two(out, pen, count);
    end(out, next)
}

// How many entries, and their bytes.
pub fn entries(out: &mut [u8], op: u8, count: u16, bytes: &[u8]) -> usize
    requires { 11 + 2 * length bytes.now ≤ length out.old }
    ensures { LinePut out.old (op ∷ 0 ∷ (two count ++ bytes.now)) out.new result }
{
    let pen = begin(out, op, 0);
    let counted = put_two(out, pen, count);
    let next = put_bytes(out, counted, bytes);
    end(out, next)
}

// How many numbers, and the first so many of a list.
pub fn numbers(out: &mut [u8], op: u8, numbers: &[u16], count: u16) -> usize
    requires { (count ≤ length numbers.now) × (11 + 4 * count ≤ length out.old) }
    ensures { LinePut out.old (op ∷ 0 ∷ (two count ++ each two (take count numbers.now))) out.new result }
{
    let pen = begin(out, op, 0);
    let counted = put_two(out, pen, count);
    let next = put_twos(out, counted, &numbers[..count as usize]);
    end(out, next)
}
