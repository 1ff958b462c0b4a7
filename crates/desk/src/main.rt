// The desk: the counter's frames and the desk's own in, a line each, and answers out (docs/DESK.md). Each line is answered when its newline has arrived,
// before more is read. Rests on `desk_frames`, where all of it is proved, and on `pipes` for the reads and the writes.
#![tactic(auto)]

ghost use Rattle.std.specs.Prelude.{◌≡◌, IfSome};
ghost use Rattle.lines.specs.Stream.{take_of};

use desk_frames::LONGEST_ANSWER;
use desk_frames::listener::{finish, turn};
use pipes::Came;
use session::listener::Listener;

// Writes an answer: the first count characters of the line. With none it writes nothing.
fn say(rt: &HostRuntime, line: &[u8], count: usize) -> bool {
    if line.len() < count {
        return false;
    }
    pipes::write_whole(rt, &mut rt.stdout(), &line[..count], b"desk: writing")
}

// Takes a turn, and writes the answer to its line, if it has one: where the chunk goes on; none, where that could not be written. (The listener is lent: by value
// it stood twice more in the frame of `main`, which has 256 KiB on a branch terminal.)
fn tell(rt: &HostRuntime, listener: &mut Listener, chunk: &[u8], at: usize) -> Option<usize>
    ensures { IfSome result (λ next. next ≡ (take_of listener.old.pending chunk.now at).next) }
{
    let mut line = [0u8; LONGEST_ANSWER];
    let taken = turn(*listener, chunk, at, &mut line);
    if !say(rt, &line, taken.count) {
        return None;
    }
    *listener = taken.listener;
    Some(taken.next)
}

// Takes turns until the chunk is used up; none, where an answer could not be written.
fn serve(rt: &HostRuntime, listener: &mut Listener, chunk: &[u8]) -> Option<()> {
    let mut at: usize = 0;
    // no index: a turn says where the chunk goes on
    while at < chunk.len() {
        at = tell(rt, listener, chunk, at)?;
    }
    Some(())
}

// At the end of the input: a last line that lacks its newline gets its answer.
fn end(rt: &HostRuntime, listener: Listener) {
    let mut line = [0u8; LONGEST_ANSWER];
    let last = finish(listener, &mut line);
    say(rt, &line, last.count);
}

// As in `counter`: it reads what is there, and counts its reads, up to a number that no run reaches.
fn main(rt: HostRuntime) {
    let mut input = rt.stdin();
    let mut listener = Listener::start();
    for _read in 0..u64::MAX {
        let mut chunk = [0u8; 4096];
        match pipes::read_some(&rt, &mut input, &mut chunk, b"desk: reading") {
            Came::Bytes(n) => {
                let Some(()) = serve(&rt, &mut listener, &chunk[..n]) else {
                    return;
                };
            }
            Came::End => {
                end(&rt, listener);
                return;
            }
            Came::Failed => return,
        }
    }
}
