// The nine fields of a line, each '-' where it is empty or missing, all but the first after a space. What frames don't show comes from the
// calls of `questions` and `saw` alone; a layout that isn't sound refuses them, and so its fields are missing.
use crate::pen::{Pen, ROOM, put, put_byte, put_eight, put_four, put_two};
use frames::{Ask, Request};
use layout::layout::Layout;
use marks::{Mark, Refusal};
use piece::parttype::PartType;
use questions::room::light_mark;
use table::LIMIT;

// The bytes of the longest snapshot: 14 for each place.
const SNAPSHOT: usize = 14 * LIMIT;

#[derive(Clone, Copy)]
pub enum Listing {
    Free,
    Removable,
}

fn missing(out: &mut [u8; ROOM], pen: Pen) -> Pen {
    put(out, pen, b'-')
}

// The answer's line, without its newline.
pub fn answer(out: &mut [u8; ROOM], pen: Pen, line: &[u8], count: usize) -> Pen {
    let mut p = pen;
    for &letter in line.iter().take(count.saturating_sub(1)) {
        p = put(out, p, letter);
    }
    p
}

// The first n of these bytes.
fn put_bytes(out: &mut [u8; ROOM], pen: Pen, bytes: &[u8], n: usize) -> Pen {
    if n == 0 || bytes.is_empty() {
        return missing(out, pen);
    }
    let mut p = pen;
    for &byte in bytes.iter().take(n) {
        p = put_byte(out, p, byte);
    }
    p
}

// The tree's snapshot.
pub fn snapshot(out: &mut [u8; ROOM], pen: Pen, layout: Layout) -> Pen {
    let p = put(out, pen, b' ');
    let mut bytes = [0u8; SNAPSHOT];
    let Ok(count) = questions::written::snapshot(layout, &mut bytes) else {
        return missing(out, p);
    };
    put_bytes(out, p, &bytes, count as usize)
}

fn put_mark(out: &mut [u8; ROOM], pen: Pen, mark: Mark) -> Pen {
    let layout = put_two(out, pen, mark.layout);
    let place = put_byte(out, layout, (mark.place % 256) as u8);
    put_four(out, place, mark.serial)
}

fn mark_at(layout: Layout, listing: Listing, position: u16) -> Result<Mark, Refusal> {
    match listing {
        Listing::Free => questions::positions::free_mark(layout, position),
        Listing::Removable => questions::positions::removable_mark(layout, position),
    }
}

// The marks of a list, position by position until the call refuses.
pub fn marks(out: &mut [u8; ROOM], pen: Pen, layout: Layout, listing: Listing) -> Pen {
    let mut p = put(out, pen, b' ');
    for i in 0..LIMIT as u16 {
        let Ok(mark) = mark_at(layout, listing, i) else {
            return if i == 0 { missing(out, p) } else { p };
        };
        p = put_mark(out, p, mark);
    }
    p
}

// The bits of a usage. It is never a NaN, and `to_bits` asks that this be seen.
fn bits(usage: f64) -> u64 {
    if usage == usage {
        f64::to_bits(usage)
    } else {
        0
    }
}

// Used area, free area, the bits of the sheet's usage and the tree's, and eaten area.
pub fn figures(out: &mut [u8; ROOM], pen: Pen, layout: Layout) -> Pen {
    let p = put(out, pen, b' ');
    let Ok(used) = questions::figures::used_area(layout) else {
        return missing(out, p);
    };
    let Ok(free) = questions::figures::free_area(layout) else {
        return missing(out, p);
    };
    let Ok(sheet) = questions::figures::sheet_usage(layout) else {
        return missing(out, p);
    };
    let Ok(tree) = questions::figures::tree_usage(layout) else {
        return missing(out, p);
    };
    let Ok(eaten) = questions::figures::eaten_area(layout) else {
        return missing(out, p);
    };
    let one = put_eight(out, p, used);
    let two = put_eight(out, one, free);
    let three = put_eight(out, two, bits(sheet));
    let four = put_eight(out, three, bits(tree));
    put_eight(out, four, eaten)
}

// The numbers of the parts held, by place.
pub fn part_numbers(out: &mut [u8; ROOM], pen: Pen, layout: Layout) -> Pen {
    let mut p = put(out, pen, b' ');
    let mut numbers = [0u16; LIMIT];
    let Ok(count) = questions::written::part_numbers(layout, &mut numbers) else {
        return missing(out, p);
    };
    if count == 0 {
        return missing(out, p);
    }
    for &number in numbers.iter().take(count as usize) {
        p = put_two(out, p, number);
    }
    p
}

// What the light says where it is not refused: yes or no, and the mark of the piece that it names, zero where it says no.
fn put_light(out: &mut [u8; ROOM], pen: Pen, yes: u8, mark: Mark) -> Pen {
    let done = put_byte(out, pen, 0);
    let said = put_byte(out, done, yes);
    put_mark(out, said, mark)
}

fn light_for(out: &mut [u8; ROOM], pen: Pen, layout: Layout, part: PartType) -> Pen {
    let light = questions::room::room_light(layout, part);
    match light {
        Ok(Some(_)) => put_light(out, pen, 1, light_mark(light)),
        Ok(None) => put_light(out, pen, 0, light_mark(light)),
        Err(refusal) => put_byte(out, pen, refusal.number()),
    }
}

fn light_of(out: &mut [u8; ROOM], pen: Pen, layout: Layout, ask: Ask) -> Pen {
    match ask {
        Ask::Offers { mark, part } => light_for(out, pen, layout, part),
        Ask::Insert {
            mark,
            part,
            rotation,
            shape,
        } => light_for(out, pen, layout, part),
        _ => missing(out, pen),
    }
}

// The room light with the piece that it names, for the part that a line asks offers or room for.
pub fn light(out: &mut [u8; ROOM], pen: Pen, layout: Layout, request: Request) -> Pen {
    let p = put(out, pen, b' ');
    match request {
        Request::OfLayout(ask) => light_of(out, p, layout, ask),
        _ => missing(out, p),
    }
}

// The list of saw cuts.
pub fn cuts(out: &mut [u8; ROOM], pen: Pen, layout: Layout) -> Pen {
    let p = put(out, pen, b' ');
    let mut bytes = [0u8; saw::cuts::ROOM];
    let Ok(count) = saw::cuts::cuts(layout, &mut bytes) else {
        return missing(out, p);
    };
    put_bytes(out, p, &bytes, count as usize)
}

// What each of them loses.
pub fn amounts(out: &mut [u8; ROOM], pen: Pen, layout: Layout) -> Pen {
    let p = put(out, pen, b' ');
    let mut bytes = [0u8; saw::cuts::AMOUNTS];
    let Ok(count) = saw::cuts::amounts(layout, &mut bytes) else {
        return missing(out, p);
    };
    put_bytes(out, p, &bytes, count as usize)
}
