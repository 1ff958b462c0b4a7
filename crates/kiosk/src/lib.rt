// The session step for programs in C and Rust: the session crosses as a record of plain numbers, in the session's own order. The kept layout is read
// from its record by restore alone, and keep alone writes one; a refusal writes none. Rests on records.rt for the records and on `session` for the
// answers.
#![tactic(auto)]

ghost use Rattle.std.specs.Prelude.{◌≡◌, cond};
ghost use Rattle.frames.specs.Requests.{request_of};
ghost use Rattle.kiosk.specs.Step.{Answered, record_step_to, record_with_layout};

use frames::Request;
use frames::read::request;
use records::{SessionRecord, layout_of, layout_record};
use session::replies::{Response, Said, keep, replied, restore};
use session::{LONGEST_ANSWER, say};

pub mod cuts; // cuts.rt: the list of saw cuts
pub mod desk; // desk.rt: the desk's frames, on the same session
pub mod records; // records.rt: the session as plain numbers, read and written
pub mod sizes; // sizes.rt: the sizes of what is lent

// The next state, and the answer: the first count characters of line, its newline among them; the rest is zero.
#[repr(C)]
#[derive(Drop)]
pub struct SteppedRecord {
    pub session: SessionRecord,
    pub line: [u8; LONGEST_ANSWER],
    pub count: usize,
}

// The state as it is, and what is said.
fn says(session: SessionRecord, said: Said) -> SteppedRecord
    ensures { result ≡ record_step_to session said }
{
    // An array goes from record to record by a name of its own: the borrow checker follows no other way.
    let line = said.line;
    SteppedRecord {
        session,
        line,
        count: said.count,
    }
}

// The state with the layout of an answer, and what that says. The kept record stays, and where the answer is a refusal both do.
fn told(mut given: SessionRecord, answer: Response) -> SteppedRecord
    ensures { result ≡ record_step_to (cond answer.refused given (record_with_layout given answer.layout)) answer.said }
{
    let said = answer.said;
    if answer.refused {
        return says(given, said);
    }
    let layout = answer.layout;
    given.layout = layout_record(layout);
    says(given, said)
}

// The answer to a request, by value.
pub(crate) fn asked(given: SessionRecord, request: Request) -> SteppedRecord
    ensures { Answered given request result.session result.line result.count }
{
    let layout = layout_of(given.layout);
    // `told` is called from one place, so that the compiler makes one function of the two and copies no session between them
    let response = match request {
        Request::OfLayout(ask) => replied(layout, ask),
        Request::Restore => restore(layout, layout_of(given.kept)),
        Request::Keep => {
            let answer = keep(layout);
            let said = answer.said;
            if answer.sound { // a sound layout's record is the one that it was read from
                return says(
                    SessionRecord {
                        layout: given.layout,
                        kept: given.layout,
                    },
                    said,
                );
            }
            return says(given, said);
        }
        Request::Malformed => return says(given, say::malformed()),
    };
    told(given, response)
}

// The step by value: the characters of a line, without its newline.
fn stepped(given: SessionRecord, line: &[u8]) -> SteppedRecord
    ensures { Answered given (request_of line.now) result.session result.line result.count }
{
    asked(given, request(line))
}

// The step on a lent session: the answer's characters are the first of `answer`, as many as the result says. A refusal leaves the session as it was.
#[unsafe(no_mangle)]
pub extern "C" fn nickelgrove_step(
    session: &mut SessionRecord,
    line: &[u8],
    answer: &mut [u8; LONGEST_ANSWER],
) -> usize
    ensures { Answered session.old (request_of line.now) session.new answer.new result }
{
    let next = stepped(*session, line);
    *session = next.session;
    let line = next.line;
    *answer = line;
    next.count
}
