// An answer as a line, one function for each kind (document 01, "Counter frames"). Rests on `frames` for how answers are written.
ghost use Rattle.std.specs.Prelude.{◌+◌, ◌≤◌, length, replicate, take};
ghost use Rattle.std.specs.Fn.{FnOnceReturnsAtMut};
ghost use Rattle.layout.specs.Check.{limit};
ghost use Rattle.frames.specs.Answers.{Answer};
ghost use Rattle.session.specs.Session.{Says, longest, marks_said, offers_said};

use crate::LONGEST_ANSWER;
use crate::replies::Said;
use booking::new_marks::NewMarks;
use marks::{Mark, Refusal};
use piece::insertion_option::OfferList;

// A line of zeros, and the answer that is written into it.
fn said<F: FnOnce(&mut [u8; LONGEST_ANSWER]) -> usize>(write: F) -> Said
    requires { F.IsAlwaysCallable write }
    ensures { FnOnceReturnsAtMut F.FnOnce write (replicate longest 0) result.count result.line }
{
    let mut line = [0u8; LONGEST_ANSWER];
    let count = write(&mut line);
    Said { line, count }
}

pub fn refused(op: u8, refusal: Refusal) -> Said
    ensures { Says (Answer.refused op refusal) result }
{
    said(|line| frames::write::refused(line, op, refusal))
}

pub fn malformed() -> Said
    ensures { Says Answer.malformed result }
{
    said(|line| frames::write::malformed(line))
}

pub fn done(op: u8) -> Said
    ensures { Says (Answer.done op) result }
{
    said(|line| frames::write::done(line, op))
}

pub fn opened(mark: Mark) -> Said
    ensures { Says (Answer.opened mark) result }
{
    said(|line| frames::write::opened(line, mark))
}

pub fn offered(offers: OfferList) -> Said
    requires { offers.count ≤ 4 }
    ensures { Says (offers_said offers) result }
{
    said(|line| frames::write::offered(line, offers))
}

pub fn inserted(marks: NewMarks) -> Said
    requires { marks.count ≤ 2 }
    ensures { Says (marks_said marks) result }
{
    let frees = marks.frees;
    said(|line| frames::write::inserted(line, marks.first, marks.part, &frees[..marks.count]))
}

pub fn removed(free: Mark, numbers: &[u16], many: usize) -> Said
    requires { (many + 2 ≤ limit) × (many ≤ length numbers.now) }
    ensures { Says (Answer.removed free (take many numbers.now)) result }
{
    said(|line| frames::write::removed(line, free, &numbers[..many]))
}

pub fn reported(used: u64, nodes: u16, bits: u64) -> Said
    ensures { Says (Answer.reported used nodes bits) result }
{
    said(|line| frames::write::reported(line, used, nodes, bits))
}
