// Writing through a small buffer: characters wait in it until it is full, or until a line ends. A write that fails is said by `pipes`.

// The characters that the buffer has room for.
pub const ROOM: usize = 4096;

// Where the characters go, how many wait, and whether all that was written before them could be.
#[derive(Clone, Copy)]
pub struct Pen {
    pub rt: HostRuntime,
    pub waiting: usize,
    pub written: bool,
}

pub fn start(rt: &HostRuntime) -> Pen {
    Pen {
        rt: *rt,
        waiting: 0,
        written: true,
    }
}

fn sent(rt: &HostRuntime, out: &[u8]) -> bool {
    pipes::write_whole(rt, &mut rt.stdout(), out, b"inspect: writing")
}

// Writes what waits. After a write that failed nothing is written any more.
fn flush(out: &[u8], pen: Pen) -> Pen {
    let n = pen.waiting;
    if pen.written {} else {
        return pen;
    }
    let rt = pen.rt;
    let written = if n < out.len() {
        sent(&rt, &out[..n])
    } else {
        sent(&rt, out)
    };
    Pen {
        rt,
        waiting: 0,
        written,
    }
}

pub fn put(out: &mut [u8; ROOM], pen: Pen, letter: u8) -> Pen {
    let at = pen.waiting;
    if at < ROOM {
        out[at] = letter;
        return Pen {
            rt: pen.rt,
            waiting: at + 1,
            written: pen.written,
        };
    }
    let next = flush(out, pen);
    out[0] = letter;
    Pen {
        rt: next.rt,
        waiting: 1,
        written: next.written,
    }
}

// Ends the line, and says whether all of it could be written.
pub fn end(out: &mut [u8; ROOM], pen: Pen) -> bool {
    let next = put(out, pen, b'\n');
    let last = flush(out, next);
    last.written
}

// Fields, highest byte first.

pub fn put_byte(out: &mut [u8; ROOM], pen: Pen, byte: u8) -> Pen {
    let next = put(out, pen, hexadecimal::letter(byte / 16));
    put(out, next, hexadecimal::letter(byte % 16))
}

pub fn put_two(out: &mut [u8; ROOM], pen: Pen, n: u16) -> Pen {
    let next = put_byte(out, pen, (n / 256) as u8);
    put_byte(out, next, (n % 256) as u8)
}

pub fn put_four(out: &mut [u8; ROOM], pen: Pen, n: u32) -> Pen {
    let next = put_two(out, pen, (n / 65536) as u16);
    put_two(out, next, (n % 65536) as u16)
}

pub fn put_eight(out: &mut [u8; ROOM], pen: Pen, n: u64) -> Pen {
    let next = put_four(out, pen, (n / 4294967296) as u32);
    put_four(out, next, (n % 4294967296) as u32)
}
