// The marks of the nodes that a booking made.
ghost use Rattle.std.specs.Prelude.{◌≡◌, ◌≤◌, length};
ghost use Rattle.piece.specs.Kinds.{is_part};
ghost use Rattle.booking.specs.NewNodes.{frees_of, those};
ghost use Rattle.booking.specs.Marks.{first_mark, head_mark, marks_of, new_mark, new_marks, zero_marks};

use crate::new_nodes::{NewNode, NewNodes};
use marks::Mark;

// The marks of the first node and of the part; those of the free pieces in creation order, and how many (no heap). A mark that is none is zero.
#[derive(Clone, Copy)]
pub struct NewMarks {
    pub first: Mark,
    pub part: Mark,
    pub frees: [Mark; 2],
    pub count: usize,
}

// No marks: all zero.
pub fn no_marks() -> NewMarks
    ensures { result ≡ zero_marks }
{
    let zero = Mark::zero();
    NewMarks {
        first: zero,
        part: zero,
        frees: [zero; 2],
        count: 0,
    }
}

fn mark_of(number: u16, n: NewNode) -> Mark
    ensures { result ≡ new_mark number n }
{
    Mark {
        layout: number,
        place: n.place,
        serial: n.datum.serial,
    }
}

// The mark of the first node.
fn first_mark(number: u16, new: NewNodes) -> Mark
    requires { new.count ≤ 5 }
    ensures { result ≡ first_mark number (those new) }
{
    if 0 < new.count {
        mark_of(number, new.list[0])
    } else {
        Mark::zero()
    }
}

// The mark of the first part.
fn part_mark(number: u16, new: NewNodes) -> Mark
    requires { new.count ≤ 5 }
    ensures { result ≡ head_mark (marks_of number is_part (those new)) }
{
    for &n in &new.list[..new.count] {
        if n.is_part() {
            return mark_of(number, n);
        }
    }
    Mark::zero()
}

// The marks of the nodes that a booking made in the layout of this number.
pub fn marks_of(number: u16, new: NewNodes) -> NewMarks
    requires { (new.count ≤ 5) × (length (frees_of (those new)) ≤ 2) }
    ensures { result ≡ new_marks number (those new) }
{
    let zero = Mark::zero();
    let mut frees = [zero; 2];
    let mut found: usize = 0;
    for &n in &new.list[..new.count] {
        if n.is_free() {
            frees[found] = mark_of(number, n);
            found += 1;
        }
    }
    let first = first_mark(number, new);
    let part = part_mark(number, new);
    NewMarks {
        first,
        part,
        frees,
        count: found,
    }
}
