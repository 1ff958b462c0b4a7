// The counter's state, and its answer to a line (document 01, "Counter frames"). Rests on replies.rt for what a request does to the layouts and
// answers, and on `frames` for how requests are read.
#![tactic(auto)]

ghost use Rattle.std.specs.Prelude.{◌≡◌};
ghost use Rattle.frames.specs.declared.Request.TheVariants as requests;
ghost use Rattle.frames.specs.Requests.{request_of};
ghost use Rattle.session.specs.Session.{Steps, started, with_layout};
ghost use Rattle.session.specs.Replies.{step_to};

use frames::Request;
use layout::layout::Layout;
use replies::{Response, Said, keep, replied, restore};
use table::LIMIT;

pub mod listener; // listener.rt: the lines of a text that arrives in chunks, each answered
pub mod replies; // replies.rt: the answers over layouts
pub mod say; // say.rt: an answer as a line

// The characters of the longest answer, a removal of all nodes but two, with its newline: `longest` of specs/Session.antt.
pub const LONGEST_ANSWER: usize = 23 + 4 * (LIMIT - 2);

// The layout, and the one that was kept last: both all zero at the start.
#[derive(Clone, Copy)]
pub struct Session {
    pub layout: Layout,
    pub kept: Layout,
}

// The next state, and the answer: the first count characters of line, its newline among them; the rest is zero.
#[derive(Clone, Copy)]
pub struct Stepped {
    pub session: Session,
    pub line: [u8; LONGEST_ANSWER],
    pub count: usize,
}

impl Session {
    pub fn start() -> Session
        ensures { result ≡ started }
    {
        let layout = Layout::zero();
        Session {
            layout,
            kept: layout,
        }
    }

    // The state as it is, and what is said.
    fn says(self, said: Said) -> Stepped
        ensures { result ≡ step_to self said }
    {
        // An array goes from record to record by a name of its own: the borrow checker follows no other way.
        let line = said.line;
        Stepped {
            session: self,
            line,
            count: said.count,
        }
    }

    // The state with the layout of an answer, and what that says.
    fn told(mut self, answer: Response) -> Stepped
        ensures { result ≡ step_to (with_layout self answer.layout) answer.said }
    {
        self.layout = answer.layout;
        self.says(answer.said)
    }

    // ---- The answer to a request, to a line, and to a line that is malformed as it stands.

    pub fn asked(self, request: Request) -> Stepped
        ensures { Steps self request result }
    {
        let layout = self.layout;
        match request {
            Request::OfLayout(ask) => self.told(replied(layout, ask)),
            Request::Keep => {
                let answer = keep(layout);
                if answer.sound {
                    Session {
                        layout,
                        kept: layout,
                    }
                    .says(answer.said)
                } else {
                    self.says(answer.said)
                }
            }
            Request::Restore => self.told(restore(layout, self.kept)),
            Request::Malformed => self.malformed(),
        }
    }

    // The characters of a line, without its newline.
    pub fn step(self, line: &[u8]) -> Stepped
        ensures { Steps self (request_of line.now) result }
    {
        self.asked(frames::read::request(line))
    }

    pub fn malformed(self) -> Stepped
        ensures { Steps self requests.Malformed result }
    {
        self.says(say::malformed())
    }
}
