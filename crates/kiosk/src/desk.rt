// The desk's frames for programs in C and Rust (docs/DESK.md), on the session record of the counter's step. Rests on lib.rt for the counter's ops and on
// `desk_frames` for the questions and the tidying.
ghost use Rattle.std.specs.Prelude.{◌≡◌};
ghost use Rattle.desk_frames.specs.declared.DeskRequest.TheVariants as asks;
ghost use Rattle.desk_frames.specs.Requests.{desk_request_of};
ghost use Rattle.desk_frames.specs.Desk.{desk_longest};
ghost use Rattle.kiosk.specs.Desk.{DeskAnswered};

use crate::asked;
use crate::records::{SessionRecord, layout_of, layout_record};
use desk_frames::read::request;
use desk_frames::replies::{answer, tidied};
use desk_frames::{DeskRequest, LONGEST_ANSWER, Question};
use frames::Request;
use saw::cuts::copy_first;

// The next state, and the answer: the first count characters of line, its newline among them; the rest is zero.
#[repr(C)]
#[derive(Drop)]
pub struct DeskRecord {
    pub session: SessionRecord,
    pub line: [u8; LONGEST_ANSWER],
    pub count: usize,
}

// A question changes nothing. (As code it stays apart, and `tidy` does: in one frame with the counter's step they took more than 512 KiB of stack.)
#[inline(never)]
fn told(given: SessionRecord, question: Question) -> DeskRecord
    ensures { DeskAnswered given (asks.Asks question) result.session result.line result.count }
{
    let mut line = [0u8; LONGEST_ANSWER];
    let count = answer(layout_of(given.layout), question, &mut line);
    DeskRecord {
        session: given,
        line,
        count,
    }
}

// The layout is tidied; what is kept stays, and where it is refused all does.
#[inline(never)]
fn tidy(mut given: SessionRecord) -> DeskRecord
    ensures { DeskAnswered given asks.Tidy result.session result.line result.count }
{
    let stood = given.layout;
    let layout = layout_of(stood);
    let after = layout.tidy();
    let outcome = after.outcome;
    let mut line = [0u8; LONGEST_ANSWER];
    let count = tidied(outcome, after.count, &mut line);
    match outcome {
        Ok(()) => {
            let left = after.layout;
            given.layout = layout_record(left);
            DeskRecord {
                session: given,
                line,
                count,
            }
        }
        Err(_) => DeskRecord {
            session: given,
            line,
            count,
        },
    }
}

// What is asked at the counter is answered there.
fn at_counter(given: SessionRecord, request: Request) -> DeskRecord
    ensures { DeskAnswered given (asks.AtCounter request) result.session result.line result.count }
{
    let stepped = asked(given, request);
    let mut line = [0u8; LONGEST_ANSWER];
    copy_first(&stepped.line, stepped.count, &mut line);
    DeskRecord {
        session: stepped.session,
        line,
        count: stepped.count,
    }
}

// The step by value: the characters of a line, without its newline.
fn desk_stepped(given: SessionRecord, line: &[u8]) -> DeskRecord
    ensures { DeskAnswered given (desk_request_of line.now) result.session result.line result.count }
{
    match request(line) {
        DeskRequest::Asks(question) => told(given, question),
        DeskRequest::Tidy => tidy(given),
        DeskRequest::AtCounter(request) => at_counter(given, request),
    }
}

// The answer of the desk to a line, on a lent session: its characters are the first of `answer`, as many as the result says. A refusal leaves the session as
// it was, and so does every question.
#[unsafe(no_mangle)]
pub extern "C" fn nickelgrove_desk(
    session: &mut SessionRecord,
    line: &[u8],
    answer: &mut [u8; LONGEST_ANSWER],
) -> usize
    ensures { DeskAnswered session.old (desk_request_of line.now) session.new answer.new result }
{
    let next = desk_stepped(*session, line);
    *session = next.session;
    let line = next.line;
    *answer = line;
    next.count
}

// The bytes that are lent for an answer of the desk.
#[unsafe(no_mangle)]
pub extern "C" fn nickelgrove_desk_longest() -> usize
    ensures { result ≡ desk_longest }
{
    LONGEST_ANSWER
}
