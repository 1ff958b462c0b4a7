// Writing an answer: its bytes as characters into a lent buffer, then their check and a newline. The pen and what it writes are for the desk too, whose
// answers have the same form. Rests on hexadecimal.
ghost use Rattle.std.specs.Prelude.{◌≡◌, ◌+◌, ◌*◌, ◌≤◌, [], ◌∷◌, length, take};
ghost use Rattle.std.proofs.lemmas.List.Edits.{sets};
ghost use Rattle.frames.specs.Bytes.{two, four, eight};
ghost use Rattle.frames.specs.Fields.{mark_bytes};
ghost use Rattle.frames.specs.Answers.{Answer, offer_bytes, each};
ghost use Rattle.frames.specs.Writing.{AnswerPut, Wrote, fresh_pen, ending};

use crate::ops;
use marks::{Mark, Refusal};
use piece::insertion_option::{Offer, OfferList};

// Where the next character goes, and the sum of the bytes so far, counting past 255 from 0 again.
#[derive(Clone, Copy)]
pub struct Pen {
    pub at: usize,
    pub sum: u8,
}

pub fn put(out: &mut [u8], pen: Pen, byte: u8) -> Pen
    requires { pen.at + 2 ≤ length out.old }
    ensures { Wrote out.old pen (byte ∷ []) out.new result }
{
    let at = pen.at;
    out[at] = hexadecimal::letter(byte / 16);
    out[at + 1] = hexadecimal::letter(byte % 16);
    Pen {
        at: at + 2,
        sum: pen.sum.wrapping_add(byte),
    }
}

// Fields, highest byte first.

pub fn put_two(out: &mut [u8], pen: Pen, n: u16) -> Pen
    requires { pen.at + 4 ≤ length out.old }
    ensures { Wrote out.old pen (two n) out.new result }
{
    let next = put(out, pen, (n / 256) as u8);
    put(out, next, (n % 256) as u8)
}

fn put_four(out: &mut [u8], pen: Pen, n: u32) -> Pen
    requires { pen.at + 8 ≤ length out.old }
    ensures { Wrote out.old pen (four n) out.new result }
{
    let next = put_two(out, pen, (n / 65536) as u16);
    put_two(out, next, (n % 65536) as u16)
}

pub fn put_eight(out: &mut [u8], pen: Pen, n: u64) -> Pen
    requires { pen.at + 16 ≤ length out.old }
    ensures { Wrote out.old pen (eight n) out.new result }
{
    let next = put_four(out, pen, (n / 4294967296) as u32);
    put_four(out, next, (n % 4294967296) as u32)
}

pub fn put_mark(out: &mut [u8], pen: Pen, mark: Mark) -> Pen
    requires { pen.at + 14 ≤ length out.old }
    ensures { Wrote out.old pen (mark_bytes mark) out.new result }
{
    let layout = put_two(out, pen, mark.layout);
    let place = put(out, layout, (mark.place % 256) as u8);
    put_four(out, place, mark.serial)
}

fn put_offer(out: &mut [u8], pen: Pen, offer: Offer) -> Pen
    requires { pen.at + 4 ≤ length out.old }
    ensures { Wrote out.old pen (offer_bytes offer) out.new result }
{
    let next = put(out, pen, offer.rotation.number());
    put(out, next, offer.shape.number())
}

pub fn put_bytes(out: &mut [u8], pen: Pen, bytes: &[u8]) -> Pen
    requires { pen.at + 2 * length bytes.now ≤ length out.old }
    ensures { Wrote out.old pen bytes.now out.new result }
{
    let mut next = pen;
    for &byte in bytes {
        next = put(out, next, byte);
    }
    next
}

pub fn put_twos(out: &mut [u8], pen: Pen, numbers: &[u16]) -> Pen
    requires { pen.at + 4 * length numbers.now ≤ length out.old }
    ensures { Wrote out.old pen (each two numbers.now) out.new result }
{
    let mut next = pen;
    for &number in numbers {
        next = put_two(out, next, number);
    }
    next
}

// Lists, each after its count.

fn put_offers(out: &mut [u8], pen: Pen, offers: &[Offer]) -> Pen
    requires { (length offers.now ≤ 255) × (pen.at + (2 + 4 * length offers.now) ≤ length out.old) }
    ensures { Wrote out.old pen (length offers.now ∷ each offer_bytes offers.now) out.new result }
{
    let mut next = put(out, pen, offers.len() as u8);
    for &offer in offers {
        next = put_offer(out, next, offer);
    }
    next
}

fn put_marks(out: &mut [u8], pen: Pen, marks: &[Mark]) -> Pen
    requires { (length marks.now ≤ 255) × (pen.at + (2 + 14 * length marks.now) ≤ length out.old) }
    ensures { Wrote out.old pen (length marks.now ∷ each mark_bytes marks.now) out.new result }
{
    let mut next = put(out, pen, marks.len() as u8);
    for &mark in marks {
        next = put_mark(out, next, mark);
    }
    next
}

fn put_numbers(out: &mut [u8], pen: Pen, numbers: &[u16]) -> Pen
    requires { (length numbers.now ≤ 255) × (pen.at + (2 + 4 * length numbers.now) ≤ length out.old) }
    ensures { Wrote out.old pen (length numbers.now ∷ each two numbers.now) out.new result }
{
    let next = put(out, pen, numbers.len() as u8);
    put_twos(out, next, numbers)
}

// An answer begins with its op and a number, 0 where it is no refusal, and ends with its check and a newline.

pub fn begin(out: &mut [u8], op: u8, number: u8) -> Pen
    requires { 4 ≤ length out.old }
    ensures { Wrote out.old fresh_pen (op ∷ number ∷ []) out.new result }
{
    let pen = Pen { at: 0, sum: 0 };
    let next = put(out, pen, op);
    put(out, next, number)
}

pub fn end(out: &mut [u8], pen: Pen) -> usize
    requires { pen.at + 3 ≤ length out.old }
    ensures { (result ≡ pen.at + 3) × (out.new ≡ sets out.old pen.at (ending pen.sum)) }
{
    let next = put(out, pen, 0u8.wrapping_sub(pen.sum));
    out[next.at] = b'\n';
    next.at + 1
}

pub fn refused(out: &mut [u8], op: u8, refusal: Refusal) -> usize
    requires { 7 ≤ length out.old }
    ensures { AnswerPut out.old (Answer.refused op refusal) out.new result }
{
    let pen = begin(out, op, refusal.number());
    end(out, pen)
}

pub fn malformed(out: &mut [u8]) -> usize
    requires { 7 ≤ length out.old }
    ensures { AnswerPut out.old Answer.malformed out.new result }
{
    let pen = begin(out, ops::NONE, Refusal::Malformed.number());
    end(out, pen)
}

pub fn done(out: &mut [u8], op: u8) -> usize
    requires { 7 ≤ length out.old }
    ensures { AnswerPut out.old (Answer.done op) out.new result }
{
    let pen = begin(out, op, 0);
    end(out, pen)
}

pub fn opened(out: &mut [u8], mark: Mark) -> usize
    requires { 21 ≤ length out.old }
    ensures { AnswerPut out.old (Answer.opened mark) out.new result }
{
    let pen = begin(out, ops::OPEN, 0);
    let next = put_mark(out, pen, mark);
    end(out, next)
}

pub fn offered(out: &mut [u8], offers: OfferList) -> usize
    requires { (offers.count ≤ 4) × (9 + 4 * offers.count ≤ length out.old) }
    ensures { AnswerPut out.old (Answer.offered (take offers.count offers.list)) out.new result }
{
    let list = offers.list;
    let pen = begin(out, ops::OFFERS, 0);
    let next = put_offers(out, pen, &list[..offers.count]);
    end(out, next)
}

pub fn inserted(out: &mut [u8], first: Mark, part: Mark, frees: &[Mark]) -> usize
    requires { (length frees.now ≤ 2) × (37 + 14 * length frees.now ≤ length out.old) }
    ensures { AnswerPut out.old (Answer.inserted first part frees.now) out.new result }
{
    let pen = begin(out, ops::INSERT, 0);
    let one = put_mark(out, pen, first);
    let two = put_mark(out, one, part);
    let next = put_marks(out, two, frees);
    end(out, next)
}

pub fn removed(out: &mut [u8], mark: Mark, numbers: &[u16]) -> usize
    requires { (length numbers.now ≤ 255) × (23 + 4 * length numbers.now ≤ length out.old) }
    ensures { AnswerPut out.old (Answer.removed mark numbers.now) out.new result }
{
    let pen = begin(out, ops::REMOVE, 0);
    let one = put_mark(out, pen, mark);
    let next = put_numbers(out, one, numbers);
    end(out, next)
}

pub fn reported(out: &mut [u8], used: u64, nodes: u16, usage_bits: u64) -> usize
    requires { 41 ≤ length out.old }
    ensures { AnswerPut out.old (Answer.reported used nodes usage_bits) out.new result }
{
    let pen = begin(out, ops::REPORT, 0);
    let one = put_eight(out, pen, used);
    let two = put(out, one, (nodes % 256) as u8);
    let next = put_eight(out, two, usage_bits);
    end(out, next)
}
