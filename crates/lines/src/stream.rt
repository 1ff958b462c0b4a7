// The lines of a text that arrives in chunks, however it is cut, in constant memory. Rests on the reader of lib.rt.
// Document 01: a line has at most 64 characters before its newline.
ghost use Rattle.std.specs.Prelude.{◌≡◌};
ghost use Rattle.lines.specs.Stream.{empty, add_char, adds, step_of, take_of, unfinished};

use crate::Reader;

// The most characters that a line may have.
pub const MOST: usize = 64;

// The characters of the line that has no newline yet: the first count of bytes; the rest is zero. With over, it has more than fit.
// No enum of the two: with over too, the count says that a line has begun.
#[derive(Clone, Copy)]
pub struct Pending {
    pub bytes: [u8; 64],
    pub count: usize,
    pub over: bool,
}

#[derive(Clone, Copy)]
pub enum Event {
    // A whole line is there, with its newline: the first count bytes of what is pending.
    Whole,
    // The same of a line that is too long.
    Long,
    // The chunk is used up, and the line goes on.
    More,
}

#[derive(Clone, Copy)]
pub struct Taken {
    pub pending: Pending,
    pub next: usize,
    pub event: Event,
}

// No line is begun: at the start, and after each line.
#[tactic(auto, unfolding(crate::specs::Stream::empty))]
pub fn none() -> Pending
    ensures { result ≡ empty }
{
    Pending {
        bytes: [0u8; 64],
        count: 0,
        over: false,
    }
}

fn step(pending: Pending, next: usize, event: Event) -> Taken
    ensures { result ≡ step_of pending next event }
{
    Taken {
        pending,
        next,
        event,
    }
}

impl Pending {
    // One more character.
    #[tactic(auto, unfolding(crate::specs::Stream::add_char))]
    fn one(mut self, x: u8) -> Pending
        ensures { result ≡ add_char self x }
    {
        if self.over {
            return self;
        }
        let n = self.count;
        if n < MOST {
            self.bytes[n] = x;
            self.count = n + 1;
            return self;
        }
        self.over = true;
        self
    }

    // More characters, of which at most those are looked at that fit, and one.
    fn some(self, chars: &[u8]) -> Pending
        ensures { result ≡ adds self chars.now }
    {
        let mut p = self;
        for &x in chars {
            if p.over {
                return p;
            }
            p = p.one(x);
        }
        p
    }

    // Takes a chunk from a position on, up to and with the next newline, or to the chunk's end.
    pub fn take(self, chunk: &[u8], at: usize) -> Taken
        ensures { result ≡ take_of self chunk.now at }
    {
        let reader = Reader::new(chunk, at);
        let line = reader.line();
        let p = self.some(line);
        let next = reader.past().at;
        if next - at <= line.len() {
            return step(p, next, Event::More);
        }
        if p.over {
            return step(p, next, Event::Long);
        }
        step(p, next, Event::Whole)
    }

    // At the end of the input: whether a last line lacks its newline.
    pub fn cut(self) -> bool
        ensures { result ≡ unfinished self }
    {
        0 < self.count
    }
}
