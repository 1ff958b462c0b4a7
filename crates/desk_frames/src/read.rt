// What a line asks at the desk (docs/DESK.md). An op of the desk's own is read here, every other line as at the counter. Rests on `frames`.
ghost use Rattle.std.specs.Prelude.{◌≡◌};
ghost use Rattle.desk_frames.specs.Requests.{is_own, malformed_line, read_why_not, read_light, desk_length_of, desk_asked_by, desk_request_of};

use crate::{DeskRequest, Question};
use frames::Request;
use frames::read::{
    BARE, CHECK, FIRST, MARK, PART, PART_TURN, TWO, frame_in, mark_at, part_at, two_at,
};

// The ops.
pub const WHY_NOT: u8 = 17;

pub const ROOM_LIGHT: u8 = 18;

pub const FREE_PIECE: u8 = 19;

pub const REMOVABLE_PIECE: u8 = 20;

pub const PART_NUMBERS: u8 = 21;

pub const FIGURES: u8 = 22;

pub const SNAPSHOT: u8 = 23;

pub const CUTS: u8 = 24;

pub const EATEN_AREA: u8 = 25;

pub const AMOUNTS: u8 = 26;

pub const TIDY: u8 = 27;

// Where the fields of an op stand behind it, and how many bytes its frame has.
const WHY_PART: usize = FIRST + MARK;

const WHY: usize = WHY_PART + PART + CHECK;

const LIGHT: usize = FIRST + PART + CHECK;

const POSITION: usize = FIRST + TWO + CHECK;

fn no() -> DeskRequest
    ensures { result ≡ malformed_line }
{
    DeskRequest::AtCounter(Request::Malformed)
}

// Whether an op is one of the desk's own.
fn own(op: u8) -> bool
    ensures { result ≡ is_own op }
{
    WHY_NOT <= op && op <= TIDY
}

// One function for each op that carries something; it tests that a turn is listed.

fn why_not(b: &[u8; 32]) -> DeskRequest
    ensures { result ≡ read_why_not b.now }
{
    let turn = b[WHY_PART + PART_TURN];
    if 2 < turn {
        return no();
    }
    DeskRequest::Asks(Question::WhyNot {
        mark: mark_at(b, FIRST),
        part: part_at(b, WHY_PART),
    })
}

fn light(b: &[u8; 32]) -> DeskRequest
    ensures { result ≡ read_light b.now }
{
    let turn = b[FIRST + PART_TURN];
    if 2 < turn {
        return no();
    }
    DeskRequest::Asks(Question::RoomLight {
        part: part_at(b, FIRST),
    })
}

// Op and check among its bytes; an op that is not the desk's own carries nothing.
fn length_of(op: u8) -> usize
    ensures { result ≡ desk_length_of op }
{
    match op {
        WHY_NOT => WHY,
        ROOM_LIGHT => LIGHT,
        FREE_PIECE => POSITION,
        REMOVABLE_PIECE => POSITION,
        _ => BARE,
    }
}

fn asked_by(op: u8, b: &[u8; 32]) -> DeskRequest
    ensures { result ≡ desk_asked_by op b.now }
{
    match op {
        WHY_NOT => why_not(b),
        ROOM_LIGHT => light(b),
        FREE_PIECE => DeskRequest::Asks(Question::FreePiece {
            position: two_at(b, FIRST),
        }),
        REMOVABLE_PIECE => DeskRequest::Asks(Question::RemovablePiece {
            position: two_at(b, FIRST),
        }),
        PART_NUMBERS => DeskRequest::Asks(Question::PartNumbers),
        FIGURES => DeskRequest::Asks(Question::Figures),
        SNAPSHOT => DeskRequest::Asks(Question::Snapshot),
        CUTS => DeskRequest::Asks(Question::Cuts),
        EATEN_AREA => DeskRequest::Asks(Question::EatenArea),
        AMOUNTS => DeskRequest::Asks(Question::Amounts),
        TIDY => DeskRequest::Tidy,
        _ => no(),
    }
}

// What a line asks, its newline not among its characters.
pub fn request(line: &[u8]) -> DeskRequest
    ensures { result ≡ desk_request_of line.now }
{
    let Some(frame) = frame_in(line) else {
        return no();
    };
    let op = frame.bytes[0];
    if !own(op) {
        return DeskRequest::AtCounter(frames::read::request(line));
    }
    if frame.count != length_of(op) {
        return no();
    }
    asked_by(op, &frame.bytes)
}
