// Reading a frame: characters to bytes with their check, then the fields of each op. Rests on hexadecimal.
ghost use Rattle.std.specs.Prelude.{◌≡◌, ◌+◌, ◌≤◌, false, length};
ghost use Rattle.frames.specs.Bytes.{two_at, four_at};
ghost use Rattle.frames.specs.Inner.{Decodes};
ghost use Rattle.frames.specs.Framing.{ReadsFrame};
ghost use Rattle.frames.specs.Fields.{mark_fields, part_fields, widths, size_at, mark_at, part_at};
ghost use Rattle.frames.specs.Requests.{read_open, read_offers, read_insert, read_remove, length_of, asked_by, request_of};

use crate::{Ask, Request, ops};
use marks::Mark;
use piece::insertion_blueprint::InsertionShape;
use piece::orientation::Orientation;
use piece::parttype::{PartType, fixed_rotation_of};
use piece::rotation::Rotation;
use piece::settings::{Opening, Settings};
use piece::size::Size;

// The longest line, in characters.
pub const LONGEST_LINE: usize = 64;

// The bytes of a field.
const BYTE: usize = 1;

pub const TWO: usize = 2;

const FOUR: usize = 4;

const SIZE: usize = FOUR + FOUR;

// A mark and a part: where each field stands, which is behind the one before it, and how many bytes they are.
const MARK_PLACE: usize = TWO;

const MARK_SERIAL: usize = MARK_PLACE + BYTE;

pub const MARK: usize = MARK_SERIAL + FOUR;

const PART_SIZE: usize = TWO;

pub const PART_TURN: usize = PART_SIZE + SIZE;

pub const PART: usize = PART_TURN + BYTE;

// A frame: byte 0 is its op, the fields of the op follow, and the check is last; and how many bytes it is.
pub const FIRST: usize = BYTE;

pub const CHECK: usize = BYTE;

const OPEN_SIZE: usize = FIRST + TWO;

const OPEN_CUT: usize = OPEN_SIZE + SIZE;

const OPEN_STAGES: usize = OPEN_CUT + BYTE;

const OPEN_BLADE: usize = OPEN_STAGES + BYTE;

const OPEN: usize = OPEN_BLADE + BYTE + CHECK;

const OFFERS_PART: usize = FIRST + MARK;

const OFFERS_TURN: usize = OFFERS_PART + PART_TURN;

const OFFERS: usize = OFFERS_PART + PART + CHECK;

const INSERT_PART: usize = FIRST + MARK;

const INSERT_TURN: usize = INSERT_PART + PART_TURN;

const INSERT_ROTATION: usize = INSERT_PART + PART;

const INSERT_SHAPE: usize = INSERT_ROTATION + BYTE;

const INSERT: usize = INSERT_SHAPE + BYTE + CHECK;

const REMOVE: usize = FIRST + MARK + CHECK;

pub const BARE: usize = FIRST + CHECK;

// The bytes of a line, zero past the last; and their sum, counting past 255 from 0 again.
#[derive(Clone, Copy)]
struct Decoded {
    bytes: [u8; 32],
    sum: u8,
}

// None, where a character is no digit.
fn decode(line: &[u8]) -> Option<Decoded>
    requires { length line.now ≤ 64 }
    ensures { Decodes line.now result }
{
    let mut bytes = [0u8; 32];
    let mut sum: u8 = 0;
    for i in 0..line.len() / 2 {
        let byte = hexadecimal::byte(line[i * 2], line[i * 2 + 1])?;
        bytes[i] = byte;
        sum = sum.wrapping_add(byte);
    }
    Some(Decoded { bytes, sum })
}

// Fields, from the byte i on.

pub fn two_at(b: &[u8; 32], i: usize) -> u16
    requires { i + 2 ≤ 32 }
    ensures { result ≡ two_at b.now i }
{
    hexadecimal::two(b[i], b[i + 1])
}

fn four_at(b: &[u8; 32], i: usize) -> u32
    requires { i + 4 ≤ 32 }
    ensures { result ≡ four_at b.now i }
{
    (two_at(b, i) as u32) * 65536 + two_at(b, i + 2) as u32
}

fn size_at(b: &[u8; 32], i: usize) -> Size
    requires { i + 8 ≤ 32 }
    ensures { result ≡ size_at b.now i }
{
    Size {
        width: four_at(b, i),
        height: four_at(b, i + 4),
    }
}

fn wide(byte: u8) -> u16
    ensures { result ≡ byte }
{
    byte as u16
}

pub fn mark_at(b: &[u8; 32], i: usize) -> Mark
    requires { i + widths mark_fields ≤ 32 }
    ensures { result ≡ mark_at b.now i }
{
    Mark {
        layout: two_at(b, i),
        place: wide(b[i + MARK_PLACE]),
        serial: four_at(b, i + MARK_SERIAL),
    }
}

pub fn part_at(b: &[u8; 32], i: usize) -> PartType
    requires { i + widths part_fields ≤ 32 }
    ensures { result ≡ part_at b.now i }
{
    PartType {
        number: two_at(b, i),
        size: size_at(b, i + PART_SIZE),
        fixed_rotation: fixed_rotation_of(b[i + PART_TURN]),
    }
}

// One function for each op that carries something; it tests that a cut, a turn, a rotation and a shape are listed.

fn open(b: &[u8; 32]) -> Request
    ensures { result ≡ read_open b.now }
{
    let Ok(cut) = Orientation::try_from(b[OPEN_CUT]) else {
        return Request::Malformed;
    };
    Request::OfLayout(Ask::Open {
        opening: Opening {
            number: two_at(b, FIRST),
            settings: Settings {
                stages: b[OPEN_STAGES],
                blade: b[OPEN_BLADE],
                sheet: size_at(b, OPEN_SIZE),
            },
            cut,
        },
    })
}

fn offers(b: &[u8; 32]) -> Request
    ensures { result ≡ read_offers b.now }
{
    let turn = b[OFFERS_TURN];
    if 2 < turn {
        return Request::Malformed;
    }
    Request::OfLayout(Ask::Offers {
        mark: mark_at(b, FIRST),
        part: part_at(b, OFFERS_PART),
    })
}

fn insert(b: &[u8; 32]) -> Request
    ensures { result ≡ read_insert b.now }
{
    let turn = b[INSERT_TURN];
    if 2 < turn {
        return Request::Malformed;
    }
    let Ok(rotation) = Rotation::try_from(b[INSERT_ROTATION]) else {
        return Request::Malformed;
    };
    let Ok(shape) = InsertionShape::try_from(b[INSERT_SHAPE]) else {
        return Request::Malformed;
    };
    Request::OfLayout(Ask::Insert {
        mark: mark_at(b, FIRST),
        part: part_at(b, INSERT_PART),
        rotation,
        shape,
    })
}

fn remove(b: &[u8; 32]) -> Request
    ensures { result ≡ read_remove b.now }
{
    Request::OfLayout(Ask::Remove {
        mark: mark_at(b, FIRST),
    })
}

// Op and check among its bytes; an op that is not listed carries nothing.
fn length_of(op: u8) -> usize
    ensures { result ≡ length_of op }
{
    match op {
        ops::OPEN => OPEN,
        ops::OFFERS => OFFERS,
        ops::INSERT => INSERT,
        ops::REMOVE => REMOVE,
        _ => BARE,
    }
}

fn asked_by(op: u8, b: &[u8; 32]) -> Request
    ensures { result ≡ asked_by op b.now }
{
    match op {
        ops::OPEN => open(b),
        ops::OFFERS => offers(b),
        ops::INSERT => insert(b),
        ops::REMOVE => remove(b),
        ops::KEEP => Request::Keep,
        ops::RESTORE => Request::Restore,
        ops::REPORT => Request::OfLayout(Ask::Report),
        _ => Request::Malformed,
    }
}

// A line as the bytes of a frame, its op first, zero past the last; and how many there are.
#[derive(Clone, Copy)]
pub struct Frame {
    pub bytes: [u8; 32],
    pub count: usize,
}

// The frame in a line, whose newline is not among its characters, whatever its op is; none, where it is no frame.
pub fn frame_in(line: &[u8]) -> Option<Frame>
    ensures { ReadsFrame line.now result }
{
    let n = line.len();
    if LONGEST_LINE < n {
        return None;
    }
    if n % 2 != 0 {
        return None;
    }
    let decoded = decode(line)?;
    if decoded.sum != 0 {
        return None;
    }
    let bytes = decoded.bytes;
    Some(Frame {
        bytes,
        count: n / 2,
    })
}

// What a line asks.
pub fn request(line: &[u8]) -> Request
    ensures { result ≡ request_of line.now }
{
    let Some(frame) = frame_in(line) else {
        return Request::Malformed;
    };
    let op = frame.bytes[0];
    if frame.count != length_of(op) {
        return Request::Malformed;
    }
    asked_by(op, &frame.bytes)
}
