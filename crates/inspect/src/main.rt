// The inspector: the counter's frames in, and for each line its answer and then what frames don't show, in nine fields (recorded/README.md). Of the desk's ops
// it takes the one that changes the layout: a line that asks to tidy does here what it does at the desk.
// Rests on `session`, and takes the same turns as `counter`, and on `desk_frames`; the reads and the writes are those of `pipes`.
#![tactic(auto)]

mod fields;
mod pen;

use desk_frames::DeskRequest;
use fields::Listing;
use frames::Request;
use layout::layout::Layout;
use lines::stream::{Event, MOST, Pending};
use pen::ROOM;
use pipes::Came;
use session::listener::Listener;

// What the first count characters ask; more than a line may have ask nothing that is well-formed.
fn request_in(chars: [u8; 64], count: usize) -> DeskRequest {
    if MOST < count {
        return DeskRequest::AtCounter(Request::Malformed);
    }
    desk_frames::read::request(&chars[..count])
}

// What the line asks that a turn from this position answers; without a line, nothing that is well-formed.
fn asked(pending: Pending, chunk: &[u8], at: usize) -> DeskRequest {
    let taken = pending.take(chunk, at);
    match taken.event {
        Event::Whole => request_in(taken.pending.bytes, taken.pending.count),
        _ => DeskRequest::AtCounter(Request::Malformed),
    }
}

// Writes the fields of a line, if it has an answer: that is the first count characters.
fn tell(rt: &HostRuntime, layout: Layout, line: &[u8], count: usize, request: Request) -> bool {
    if count == 0 {
        return true;
    }
    let mut out = [0u8; ROOM];
    let one = fields::answer(&mut out, pen::start(rt), line, count);
    let two = fields::snapshot(&mut out, one, layout);
    let three = fields::marks(&mut out, two, layout, Listing::Free);
    let four = fields::marks(&mut out, three, layout, Listing::Removable);
    let five = fields::figures(&mut out, four, layout);
    let six = fields::part_numbers(&mut out, five, layout);
    let seven = fields::light(&mut out, six, layout, request);
    let eight = fields::cuts(&mut out, seven, layout);
    let nine = fields::amounts(&mut out, eight, layout);
    pen::end(&mut out, nine)
}

// Tells of the counter's answer, and of what the line asks there; none, where that could not be written.
fn told(
    rt: &HostRuntime,
    listener: &Listener,
    line: &[u8],
    count: usize,
    request: Request,
) -> Option<()> {
    if !tell(rt, listener.session.layout, line, count, request) {
        return None;
    }
    Some(())
}

// At the counter a line that asks to tidy is malformed and changes nothing; here the layout is tidied, as at the desk.
fn tidied(rt: &HostRuntime, listener: &mut Listener) -> Option<()> {
    let mut line = [0u8; desk_frames::LONGEST_ANSWER];
    let stepped = desk_frames::asked(listener.session, DeskRequest::Tidy, &mut line);
    listener.session = stepped.session;
    told(rt, listener, &line, stepped.count, Request::Malformed)
}

// Takes turns until the chunk is used up; none, where a line could not be written. (The listener is lent, as in `desk`.)
fn serve(rt: &HostRuntime, listener: &mut Listener, chunk: &[u8]) -> Option<()> {
    let mut at: usize = 0;
    // no index: a turn says where the chunk goes on
    while at < chunk.len() {
        let request = asked(listener.pending, chunk, at);
        let turn = listener.turn(chunk, at);
        let line = turn.line;
        *listener = turn.listener;
        let shown = match request {
            DeskRequest::Tidy => tidied(rt, listener),
            DeskRequest::Asks(_) => told(rt, listener, &line, turn.count, Request::Malformed),
            DeskRequest::AtCounter(asks) => told(rt, listener, &line, turn.count, asks),
        };
        shown?;
        at = turn.next;
    }
    Some(())
}

// As in `counter`: it reads what is there, and counts its reads, up to a number that no run reaches.
fn main(rt: HostRuntime) {
    let mut input = rt.stdin();
    let mut listener = Listener::start();
    for _read in 0..u64::MAX {
        let mut chunk = [0u8; 4096];
        match pipes::read_some(&rt, &mut input, &mut chunk, b"inspect: reading") {
            Came::Bytes(n) => {
                let Some(()) = serve(&rt, &mut listener, &chunk[..n]) else {
                    return;
                };
            }
            Came::End => {
                let last = listener.end();
                let line = last.line;
                told(&rt, &last.listener, &line, last.count, Request::Malformed);
                return;
            }
            Came::Failed => return,
        }
    }
}
