// The desk's frames: all of the counter's, an op for each question that the counter has none for, and one that tidies. A line has the same form, the same
// check and the same refusals (docs/DESK.md). Here is the answer to a line; read.rt says what a line asks, replies.rt what it is answered with.
// Rests on `session` for the counter's ops, on `questions` and `saw` for the answers to the questions, and on `layout` for the tidying.
#![tactic(auto)]

ghost use Rattle.std.specs.Prelude.{◌≡◌, ◌≤◌, length, take};
ghost use Rattle.std.proofs.lemmas.List.Edits.{sets};
ghost use Rattle.desk_frames.specs.declared.DeskRequest.TheVariants as requests;
ghost use Rattle.frames.specs.declared.Request.TheVariants as counters;
ghost use Rattle.desk_frames.specs.Requests.{desk_request_of};
ghost use Rattle.desk_frames.specs.Desk.{DeskSteps, desk_longest};
ghost use Rattle.desk_frames.specs.Inner.{copied_from};

use frames::Request;
use marks::Mark;
use piece::parttype::PartType;
use saw::cuts::copy_first;
use session::{Session, Stepped};
use table::LIMIT;
use walks::snapshot::NODE;

pub mod listener; // listener.rt: the lines of a text that arrives in chunks, each answered
pub mod read; // read.rt: what a line asks
pub mod replies; // replies.rt: what a question is answered with
pub mod write; // write.rt: an answer as a line

// A question about the layout on the desk. None of them changes anything.
#[derive(Clone, Copy)]
pub enum Question {
    WhyNot { mark: Mark, part: PartType },
    RoomLight { part: PartType },
    FreePiece { position: u16 },
    RemovablePiece { position: u16 },
    PartNumbers,
    Figures,
    Snapshot,
    Cuts,
    EatenArea,
    Amounts,
}

// What a line asks at the desk: a question, to tidy the layout, or what it asks at the counter; a malformed line is malformed there.
#[derive(Clone, Copy)]
pub enum DeskRequest {
    Asks(Question),
    Tidy,
    AtCounter(Request),
}

// The characters of the longest answer, a snapshot of all nodes, with its newline: `desk_longest` of specs/Desk.antt.
pub const LONGEST_ANSWER: usize = 2 * (2 + 2 + NODE * LIMIT + 1) + 1;

// The next state, and how many characters of the lent line are the answer, its newline among them.
#[derive(Clone, Copy)]
pub struct DeskStepped {
    pub session: Session,
    pub count: usize,
}

// The counter's answer, copied into the lent line. (What is taken out of a record has a name of its own, here and in listener.rt: so the compiled desk copies a
// session less.)
fn copied(stepped: Stepped, out: &mut [u8]) -> DeskStepped
    requires { (stepped.count ≤ length stepped.line) × (stepped.count ≤ length out.old) }
    ensures result { result ≡ copied_from stepped }
    ensures written { out.new ≡ sets out.old 0 (take stepped.count stepped.line) }
{
    let line = stepped.line;
    let count = stepped.count;
    let session = stepped.session;
    copy_first(&line, count, out);
    DeskStepped { session, count }
}

// The layout is tidied; what is kept stays.
fn tidied(session: Session, out: &mut [u8]) -> DeskStepped
    requires { desk_longest ≤ length out.old }
    ensures { DeskSteps session requests.Tidy out.old out.new result }
{
    let layout = session.layout;
    let kept = session.kept;
    let answer = layout.tidy();
    let outcome = answer.outcome;
    let left = answer.layout;
    let count = replies::tidied(outcome, answer.count, out);
    DeskStepped {
        session: Session { layout: left, kept },
        count,
    }
}

pub fn asked(session: Session, request: DeskRequest, out: &mut [u8]) -> DeskStepped
    requires { desk_longest ≤ length out.old }
    ensures { DeskSteps session request out.old out.new result }
{
    match request {
        DeskRequest::Asks(question) => {
            let layout = session.layout;
            let count = replies::answer(layout, question, out);
            DeskStepped { session, count }
        }
        DeskRequest::Tidy => tidied(session, out),
        DeskRequest::AtCounter(at_counter) => copied(session.asked(at_counter), out),
    }
}

// The answer to the characters of a line, without its newline.
pub fn step(session: Session, line: &[u8], out: &mut [u8]) -> DeskStepped
    requires { desk_longest ≤ length out.old }
    ensures { DeskSteps session (desk_request_of line.now) out.old out.new result }
{
    asked(session, read::request(line), out)
}

// The answer to a line that is malformed as it stands.
pub fn malformed(session: Session, out: &mut [u8]) -> DeskStepped
    requires { desk_longest ≤ length out.old }
    ensures { DeskSteps session (requests.AtCounter counters.Malformed) out.old out.new result }
{
    asked(session, DeskRequest::AtCounter(Request::Malformed), out)
}
