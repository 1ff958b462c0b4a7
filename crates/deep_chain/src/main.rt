// The deepest sound tree, 254 levels below the top, is examined, snapshotted, measured and its saw cuts are listed; and those of the longest row, 254
// parts under the top, since the cuts are listed call by call along a row too. Then the whole chain is taken out, and one part of the row; and the chain
// without its part is tidied. The proofs know no stack: tests/stack.sh runs this on one of 256 KiB.
#![tactic(auto)]

ghost use Rattle.std.specs.Prelude.{◌<◌};

use layout::layout::Layout;
use layout::tidy::Tidied;
use marks::{Mark, Refusal};
use piece::node::{Datum, Kind};
use piece::orientation::Orientation;
use piece::settings::Settings;
use piece::size::Size;
use std::io;
use table::{NONE, Node};

fn sheet() -> Size {
    Size {
        width: 7,
        height: 5,
    }
}

fn cut_at(level: usize) -> Orientation {
    if level % 2 == 0 {
        Orientation::Horizontal
    } else {
        Orientation::Vertical
    }
}

// Structures, each the only child of the one above, and a part, number 9, at level 254.
fn kind_at(level: usize) -> Kind {
    if level < 254 {
        Kind::Structure
    } else {
        Kind::Part
    }
}

fn node_at(level: usize) -> Node
    requires { level < 255 }
{
    let below = if level < 254 {
        (level + 1) as u16
    } else {
        NONE
    };
    let above = if 0 < level { (level - 1) as u16 } else { NONE };
    let number = if level < 254 { 0u16 } else { 9u16 };
    Node {
        datum: Datum {
            serial: (level + 1) as u32,
            size: sheet(),
            number,
            level: level as u8,
            kind: kind_at(level),
            cut: cut_at(level),
            eaten: 0,
        },
        parent: above,
        first: below,
        last: below,
        prev: NONE,
        next: NONE,
    }
}

// The sheet of the longest row.
fn strip() -> Size {
    Size {
        width: 254,
        height: 5,
    }
}

// The top, under a Vertical cut, and at each other place a part 1 wide, number 9.
fn node_in_row(place: usize) -> Node
    requires { place < 255 }
{
    let serial = (place + 1) as u32;
    if place == 0 {
        return Node {
            datum: Datum {
                serial,
                size: strip(),
                number: 0,
                level: 0,
                kind: Kind::Structure,
                cut: Orientation::Vertical,
                eaten: 0,
            },
            parent: NONE,
            first: 1,
            last: 254,
            prev: NONE,
            next: NONE,
        };
    }
    let before = if 1 < place { (place - 1) as u16 } else { NONE };
    let behind = if place < 254 {
        (place + 1) as u16
    } else {
        NONE
    };
    Node {
        datum: Datum {
            serial,
            size: Size {
                width: 1,
                height: 5,
            },
            number: 9,
            level: 1,
            kind: Kind::Part,
            cut: Orientation::Horizontal,
            eaten: 0,
        },
        parent: 0,
        first: NONE,
        last: NONE,
        prev: before,
        next: behind,
    }
}

// All places are held, by parts and structures: by a chain or by a row.
fn full(deep: bool) -> Layout {
    let mut l = Layout::zero();
    for i in 0..255 {
        l.nodes[i] = if deep { node_at(i) } else { node_in_row(i) };
        l.removable[i] = i as u16;
    }
    l.held = 255;
    l.removables = 255;
    l.serial = 255;
    l
}

fn chain() -> Layout {
    let mut l = full(true);
    l.used = 35;
    let settings = Settings {
        stages: 254,
        blade: 0,
        sheet: sheet(),
    };
    l.settings = settings;
    l
}

fn row() -> Layout {
    let mut l = full(false);
    l.used = 1270;
    let settings = Settings {
        stages: 1,
        blade: 0,
        sheet: strip(),
    };
    l.settings = settings;
    l
}

fn say(rt: &HostRuntime, what: &str, n: u64) -> io::Result<()> {
    println!(rt; "{what}{n}")
}

// The number that an answer gives, or 1,000,000.
fn count_in(answer: Result<u16, Refusal>) -> u64 {
    match answer {
        Ok(n) => n as u64,
        Err(_) => 1000000,
    }
}

fn area_in(answer: Result<u64, Refusal>) -> u64 {
    match answer {
        Ok(n) => n,
        Err(_) => 1000000,
    }
}

// 1 where the usage is exactly 1, else 0, or 1,000,000.
fn usage_in(answer: Result<f64, Refusal>) -> u64 {
    match answer {
        Ok(u) => if u == 1.0 { 1 } else { 0 },
        Err(_) => 1000000,
    }
}

// The nodes that are left when the piece at a place is taken out. In these trees a piece's serial is its place and one.
fn nodes_without(l: Layout, place: u16, out: &mut [u16]) -> u64 {
    let mark = Mark {
        layout: 0,
        place,
        serial: place as u32 + 1,
    };
    let removed = l.remove(mark, out);
    let next = removed.layout;
    u64::from(next.held)
}

// As code it stays apart: it takes as much of the stack as a removal does, and not beside one.
#[inline(never)]
fn tidied(l: Layout) -> Tidied {
    l.tidy()
}

// The part of the chain is taken out, and what is left is tidied: each of its structures but the top goes.
fn tidy_without_part(rt: &HostRuntime, l: Layout, out: &mut [u16]) -> io::Result<()> {
    let part = Mark {
        layout: 0,
        place: 254,
        serial: 255,
    };
    let removed = l.remove(part, out);
    let bare = removed.layout;
    let after = tidied(bare);
    let left = after.layout;
    say(
        rt,
        "structures that tidying takes out without the part ",
        u64::from(after.count),
    )?;
    say(rt, "nodes then ", u64::from(left.held))
}

fn main(rt: HostRuntime) -> io::Result<()> {
    let l = chain();
    let mut out = [0u8; 3600];
    if l.sound() {
        println!(rt; "sound")?;
    }
    say(&rt, "nodes ", count_in(questions::figures::nodes_held(l)))?;
    say(&rt, "used area ", area_in(questions::figures::used_area(l)))?;
    say(&rt, "free area ", area_in(questions::figures::free_area(l)))?;
    say(
        &rt,
        "sheet usage ",
        usage_in(questions::figures::sheet_usage(l)),
    )?;
    say(
        &rt,
        "tree usage ",
        usage_in(questions::figures::tree_usage(l)),
    )?;
    say(
        &rt,
        "snapshot ",
        count_in(questions::written::snapshot(l, &mut out)),
    )?;
    say(&rt, "its last node's level ", u64::from(out[3556]))?;
    say(&rt, "its last node's kind ", u64::from(out[3557]))?;
    say(&rt, "its last node's number ", u64::from(out[3560]))?;
    say(&rt, "its last node's height ", u64::from(out[3568]))?;
    say(&rt, "saw cuts ", count_in(saw::cuts::cuts(l, &mut out)))?;
    let r = row();
    if r.sound() {
        println!(rt; "the row is sound")?;
    }
    say(&rt, "its saw cuts ", count_in(saw::cuts::cuts(r, &mut out)))?;
    say(&rt, "the last one's place ", u64::from(out[2269]))?;
    say(&rt, "the last one's way ", u64::from(out[2270]))?;
    say(&rt, "the last one's distance ", u64::from(out[2274]))?;
    say(&rt, "the last one's piece ", u64::from(out[2275]))?;
    say(&rt, "the last one leaves ", u64::from(out[2276]))?;
    let mut numbers = [0u16; 255];
    say(
        &rt,
        "nodes without the chain ",
        nodes_without(l, 1, &mut numbers),
    )?;
    say(&rt, "the number that came out ", u64::from(numbers[0]))?;
    say(
        &rt,
        "nodes without the row's last part ",
        nodes_without(r, 254, &mut numbers),
    )?;
    tidy_without_part(&rt, l, &mut numbers)
}
