// The counter: frames in, a line each, and answers out (document 01, "Counter frames"). Each line is answered when its newline has arrived,
// before more is read. Rests on `session`, where all of it is proved, and on `pipes` for the reads and the writes.
#![tactic(auto)]

ghost use Rattle.std.specs.Prelude.{List, ◌≤◌, IfSome};
ghost use Rattle.frames.specs.Answers.{Answer};
ghost use Rattle.session.specs.Session.{longest};
ghost use Rattle.session.specs.Listener.{Turns};

use pipes::Came;
use session::LONGEST_ANSWER;
use session::listener::Listener;

// Writes an answer: the first count characters of a turn's line. With none it writes nothing.
fn say(rt: &HostRuntime, line: [u8; LONGEST_ANSWER], count: usize) -> bool
    requires { count ≤ longest }
{
    pipes::write_whole(rt, &mut rt.stdout(), &line[..count], b"counter: writing")
}

// Takes turns until the chunk is used up: the listener then; none, where an answer could not be written.
fn serve(rt: &HostRuntime, listener: Listener, chunk: &[u8]) -> Option<Listener>
    ensures { IfSome result (λ after. (xs : List Answer) × Turns chunk.now listener 0 xs after) }
{
    let mut d = listener;
    let mut at: usize = 0;
    // no index: a turn says where the chunk goes on
    while at < chunk.len() {
        let turn = d.turn(chunk, at);
        if !say(rt, turn.line, turn.count) {
            return None;
        }
        d = turn.listener;
        at = turn.next;
    }
    Some(d)
}

// A read brings as much as is there. A proved loop has to end, and nothing says that an input does: so it counts its reads, up to a number that no run
// reaches. An answer that can't be written is the last; and a read that fails is no end of the input, so a line that has begun gets no answer then. What
// failed is said on standard error, and the status is 0 all the same.
fn main(rt: HostRuntime) {
    let mut input = rt.stdin();
    let mut listener = Listener::start();
    for _read in 0..u64::MAX {
        let mut chunk = [0u8; 4096];
        match pipes::read_some(&rt, &mut input, &mut chunk, b"counter: reading") {
            Came::Bytes(n) => {
                let Some(after) = serve(&rt, listener, &chunk[..n]) else {
                    return;
                };
                listener = after;
            }
            Came::End => {
                let last = listener.end();
                say(&rt, last.line, last.count);
                return;
            }
            Came::Failed => return,
        }
    }
}
