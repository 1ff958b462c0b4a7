// The desk's listener: the state and the line that has begun, taken through a text that arrives in chunks, as the counter's (session/src/listener.rt).
// Each line is answered when its newline arrives, in a line that is lent. Rests on `lines` for where lines end and on lib.rt for the answers.
ghost use Rattle.std.specs.Prelude.{◌≡◌, ◌≤◌, length, take};
ghost use Rattle.desk_frames.specs.Requests.{desk_request_of};
ghost use Rattle.desk_frames.specs.Desk.{DeskSteps, desk_longest};
ghost use Rattle.desk_frames.specs.Listener.{DeskTakes, DeskEnds};
ghost use Rattle.desk_frames.specs.Inner.{desk_spoken, desk_silent};

use crate::{DeskStepped, malformed, step};
use lines::stream::{Event, MOST, Pending, none};
use session::Session;
use session::listener::Listener;

// The next state, and where the chunk goes on. With a line, how many characters of the lent line are its answer; without one, 0.
#[derive(Clone, Copy)]
pub struct DeskTurn {
    pub listener: Listener,
    pub next: usize,
    pub count: usize,
}

// The answer to the line that is pending.
fn answer(session: Session, pending: Pending, out: &mut [u8]) -> DeskStepped
    requires { desk_longest ≤ length out.old }
    ensures { DeskSteps session (desk_request_of (take pending.count pending.bytes)) out.old out.new result }
{
    if MOST < pending.count {
        return step(session, &pending.bytes, out);
    }
    step(session, &pending.bytes[..pending.count], out)
}

// A line was answered, and nothing is pending.
fn answered(stepped: DeskStepped, next: usize) -> DeskTurn
    ensures { result ≡ desk_spoken stepped next }
{
    let session = stepped.session;
    DeskTurn {
        listener: Listener {
            session,
            pending: none(),
        },
        next,
        count: stepped.count,
    }
}

// No line was answered.
fn unanswered(listener: Listener, next: usize) -> DeskTurn
    ensures { result ≡ desk_silent listener next }
{
    DeskTurn {
        listener,
        next,
        count: 0,
    }
}

// Takes the chunk from a position on, up to and with the next newline, or to the chunk's end.
pub fn turn(listener: Listener, chunk: &[u8], at: usize, out: &mut [u8]) -> DeskTurn
    requires { desk_longest ≤ length out.old }
    ensures { DeskTakes listener chunk.now at out.old out.new result }
{
    let session = listener.session;
    let begun = listener.pending;
    let taken = begun.take(chunk, at);
    let pending = taken.pending;
    let next = taken.next;
    let event = taken.event;
    match event {
        Event::Whole => answered(answer(session, pending, out), next),
        Event::Long => answered(malformed(session, out), next),
        Event::More => unanswered(Listener { session, pending }, next),
    }
}

// At the end of the input: a last line that lacks its newline gets its answer.
pub fn finish(listener: Listener, out: &mut [u8]) -> DeskTurn
    requires { desk_longest ≤ length out.old }
    ensures { DeskEnds listener out.old out.new result }
{
    let session = listener.session;
    let pending = listener.pending;
    if pending.cut() {
        answered(malformed(session, out), 0)
    } else {
        unanswered(
            Listener {
                session,
                pending: none(),
            },
            0,
        )
    }
}
