// The counter's listener: the state and the line that has begun, taken through a text that arrives in chunks (document 01, "Counter frames").
// Each line is answered when its newline arrives. Rests on `lines` for where lines end and on lib.rt for the answers.
ghost use Rattle.std.specs.Prelude.{◌≡◌, take};
ghost use Rattle.frames.specs.Requests.{request_of};
ghost use Rattle.session.specs.Session.{Steps};
ghost use Rattle.session.specs.Listener.{start_listener, spoken, silent, Takes, Ends};

use crate::{LONGEST_ANSWER, Session, Stepped};
use lines::stream::{Event, MOST, Pending, none};

#[derive(Clone, Copy)]
pub struct Listener {
    pub session: Session,
    pub pending: Pending,
}

// The next state, and where the chunk goes on. With a line, its answer: the first count characters; without one, count is 0.
#[derive(Clone, Copy)]
pub struct Turn {
    pub listener: Listener,
    pub next: usize,
    pub line: [u8; LONGEST_ANSWER],
    pub count: usize,
}

// The answer to the line that is pending.
fn answer(session: Session, pending: Pending) -> Stepped
    ensures { Steps session (request_of (take pending.count pending.bytes)) result }
{
    if MOST < pending.count {
        return session.step(&pending.bytes);
    }
    session.step(&pending.bytes[..pending.count])
}

// A line was answered, and nothing is pending.
fn answered(stepped: Stepped, next: usize) -> Turn
    ensures { result ≡ spoken stepped next }
{
    let line = stepped.line;
    Turn {
        listener: Listener {
            session: stepped.session,
            pending: none(),
        },
        next,
        line,
        count: stepped.count,
    }
}

// No line was answered.
fn unanswered(listener: Listener, next: usize) -> Turn
    ensures { result ≡ silent listener next }
{
    Turn {
        listener,
        next,
        line: [0u8; LONGEST_ANSWER],
        count: 0,
    }
}

impl Listener {
    pub fn start() -> Listener
        ensures { result ≡ start_listener }
    {
        Listener {
            session: Session::start(),
            pending: none(),
        }
    }

    // Takes the chunk from a position on, up to and with the next newline, or to the chunk's end.
    pub fn turn(self, chunk: &[u8], at: usize) -> Turn
        ensures { Takes self chunk.now at result }
    {
        let session = self.session;
        let taken = self.pending.take(chunk, at);
        let pending = taken.pending;
        match taken.event {
            Event::Whole => answered(answer(session, pending), taken.next),
            Event::Long => answered(session.malformed(), taken.next),
            Event::More => unanswered(Listener { session, pending }, taken.next),
        }
    }

    // At the end of the input: a last line that lacks its newline gets its answer.
    pub fn end(self) -> Turn
        ensures { Ends self result }
    {
        let session = self.session;
        if self.pending.cut() {
            answered(session.malformed(), 0)
        } else {
            unanswered(
                Listener {
                    session,
                    pending: none(),
                },
                0,
            )
        }
    }
}
