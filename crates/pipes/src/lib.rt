// Reading from and writing to a pipe, a file or a terminal, so that nothing is lost and nothing fails in silence. A call that a signal ends is made
// again; where nothing is there yet, or there is no room yet, it is made again after a pause; any other failure is said on standard error.
// Rests on std's readers and writers, each call of which is one call of the system, and on its clock.
#![tactic(auto)]

ghost use Rattle.std.specs.Prelude.{◌≡◌, true, length};
ghost use Rattle.std.specs.Io.KnownBytes.{Appends};
ghost use Rattle.pipes.specs.Came.{Within};
ghost use Rattle.pipes.specs.Remedy.{remedy_of};

use std::io::{Read, Write};
use std::time::Duration;
use std::{io, thread};

// What a read brought. No Result: the end of the input is neither a count of bytes nor a failure.
#[derive(Clone, Copy)]
pub enum Came {
    // So many bytes, one at least, at the start of the buffer.
    Bytes(usize),
    // The end of the input.
    End,
    // Nothing, and what failed has been said.
    Failed,
}

// Waits a thousandth of a second.
fn pause(rt: &HostRuntime) {
    thread::sleep(rt, Duration::from_millis(1));
}

// What is to be done about a call that moved nothing.
#[derive(Clone, Copy)]
enum Remedy {
    // A signal ended it: make it again.
    Again,
    // Nothing is there to read yet, or there is no room to write yet: make it again after a pause.
    Wait,
    // Nobody reads any more: there is nothing to say.
    Quit,
    // Anything else has failed, and is said.
    Tell,
}

// The system's numbers for these errors.
const EINTR: i32 = 4;

const EAGAIN: i32 = 11;

const EPIPE: i32 = 32;

#[tactic(auto, unfolding(crate::specs::Remedy::remedy_of))]
fn remedy_for(error: i32) -> Remedy
    ensures { result ≡ remedy_of error }
{
    if error == EINTR {
        return Remedy::Again;
    }
    if error == EAGAIN {
        return Remedy::Wait;
    }
    if error == EPIPE {
        return Remedy::Quit;
    }
    Remedy::Tell
}

// The system's number for an error; 0, which it gives to none, where the error is not the system's.
fn number(error: &io::Error) -> i32 {
    error.raw_os_error().unwrap_or(0)
}

// Says what failed, in a line that begins with `what`. The system's words for an error stand without its number, which std writes behind them. A line
// that can't be said is not spoken of.
fn tell(rt: &HostRuntime, error: &io::Error, what: &[u8]) {
    let _ = rt.stderr().write_all(what);
    let Ok(text) = format!(in rt.alloc(); "{error}") else {
        let _ = eprintln!(rt; ": {error}");
        return;
    };
    let _ = match text.split_once(" (os error ") {
        Some((words, _)) => eprintln!(rt; ": {words}"),
        None => eprintln!(rt; ": {text}"),
    };
}

// After a call that moved nothing: whether to make it again. What failed is said in a line that begins with `what`, the program and what it was doing.
fn again(rt: &HostRuntime, error: &io::Error, what: &[u8]) -> bool {
    match remedy_for(number(error)) {
        Remedy::Again => true,
        Remedy::Wait => {
            pause(rt);
            true
        }
        Remedy::Quit => false,
        Remedy::Tell => {
            tell(rt, error, what);
            false
        }
    }
}

// Reads what is there, and waits for it if it has to. A proved loop has to end, and nothing says that a wait does: so the tries are counted, up to a
// number that no run reaches.
pub fn read_some<R: Read>(
    rt: &HostRuntime,
    input: &mut R,
    buf: &mut [u8; 4096],
    what: &[u8],
) -> Came
    ensures { Within result buf.new }
{
    for _try in 0..u64::MAX {
        let got = input.read(buf);
        let n = got.unwrap_or(0);
        if 0 < n {
            return Came::Bytes(n);
        }
        let Err(error) = got else {
            return Came::End;
        };
        if !again(rt, &error, what) {
            return Came::Failed;
        }
    }
    Came::Failed
}

// Writes all of it, and says whether it could: yes at once where there is nothing to write. What the system has written no contract can say; where a writer
// tells what it holds, that is longer by the whole text.
pub fn write_whole<W: Write>(rt: &HostRuntime, out: &mut W, buf: &[u8], what: &[u8]) -> bool
    ensures nothing { length buf.now ≡ 0 → result ≡ true }
    ensures whole { result ≡ true → Appends (W.contents out.old) (W.contents out.new) buf.now }
{
    let mut done: usize = 0;
    for _try in 0..u64::MAX {
        if done == buf.len() {
            return true;
        }
        let rest = &buf[done..];
        let put = out.write(rest);
        let n = put.unwrap_or(0);
        if n == 0 && !again(rt, &failure(put), what) {
            return false;
        }
        done += n;
    }
    done == buf.len()
}

// Why nothing was written: a write that takes no byte of a text that has some is a failure too.
fn failure(put: io::Result<usize>) -> io::Error {
    match put {
        Ok(_) => io::Error::from(io::ErrorKind::WriteZero),
        Err(error) => error,
    }
}
