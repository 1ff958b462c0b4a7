// The steps over lent columns of numbers, for a caller who holds columns and no nodes. They are kept because they were public and may not ask
// more of their callers; the calls of this repository lend nodes.
ghost use Rattle.std.specs.Prelude.{◌≡◌, ◌+◌, ◌*◌, ◌≤◌, ◌<◌, length};
ghost use Rattle.std.proofs.lemmas.List.Edits.{sets};
ghost use Rattle.piece.specs.declared.orientation.Orientation.TheVariants.{Horizontal, Vertical};
ghost use Rattle.lists.specs.Lists.{limit};
ghost use Rattle.saw.specs.Listed.{left_along, cuts_listed, entries_of_cuts, own_listed, piles_listed, rest_of, sides_in};

use crate::cut::{Cut, ENTRY, put_cut};
use crate::routines::{Listed, SEVERAL};
use piece::orientation::Orientation;
use table::{LIMIT, NONE};

// The sides that a cut of this way divides.
fn sides<'a>(
    way: Orientation,
    width: &'a [u32; LIMIT],
    height: &'a [u32; LIMIT],
) -> &'a [u32; LIMIT]
    ensures { result.now ≡ sides_in way width.now height.now }
{
    match way {
        Orientation::Horizontal => height,
        Orientation::Vertical => width,
    }
}

// The later sibling of c that a cut comes before. An offcut that has nothing of the side that the cut divides has none, but where something was eaten
// behind c.
fn rest_of(next: &[u16; LIMIT], side: &[u32; LIMIT], eaten: &[u8; LIMIT], c: u16) -> u16
    requires { c < limit }
    ensures { result ≡ rest_of limit next.now side.now eaten.now c }
{
    let at = c as usize;
    let r = next[at];
    if NONE <= r {
        return NONE;
    }
    let there = r as usize;
    if side[there] != 0 {
        return r;
    }
    if eaten[at] == 0 { NONE } else { r }
}

// The kind of what is left of a row, from the place r on.
fn kind_left(
    next: &[u16; LIMIT],
    kind: &[u8; LIMIT],
    side: &[u32; LIMIT],
    eaten: &[u8; LIMIT],
    r: u16,
) -> u8
    requires { r < limit }
    ensures { result ≡ left_along limit next.now kind.now side.now eaten.now r }
{
    let at = r as usize;
    if NONE <= rest_of(next, side, eaten, r) {
        kind[at]
    } else {
        SEVERAL
    }
}

// 1 where the piece at c itself comes to lie in the pile: a part, or a free piece with something of the side.
fn own_pile(kind: &[u8; LIMIT], side: &[u32; LIMIT], c: u16) -> usize
    requires { c < limit }
    ensures { result ≡ own_listed kind.now side.now c }
{
    let at = c as usize;
    if kind[at] == 1 {
        return 1;
    }
    if kind[at] != 0 {
        return 0;
    }
    if side[at] == 0 { 0 } else { 1 }
}

// The pieces from c on, which are under a cut of this way and fill the board at `place` of the pile: writes their cuts into `out` after n cuts, and
// gives how many there are then, and the place behind what the row has become.
fn list_along(
    first: &[u16; LIMIT],
    next: &[u16; LIMIT],
    kind: &[u8; LIMIT],
    width: &[u32; LIMIT],
    height: &[u32; LIMIT],
    eaten: &[u8; LIMIT],
    way: Orientation,
    c: u16,
    left: usize,
    place: usize,
    out: &mut [u8],
    n: usize,
) -> Listed
    requires { (place + piles_listed limit first.now next.now kind.now width.now height.now eaten.now way left c ≤ limit)
        × (n + length (cuts_listed limit first.now next.now kind.now width.now height.now eaten.now way left place c) ≤ limit)
        × (10 * (n + length (cuts_listed limit first.now next.now kind.now width.now height.now eaten.now way left place c))
        ≤ length out.old) }
    ensures written { out.new
        ≡ sets out.old (10 * n) (entries_of_cuts (cuts_listed limit first.now next.now kind.now
        width.now height.now eaten.now way left place c)) }
    ensures counted { result.cuts ≡ n + length (cuts_listed limit first.now next.now kind.now
        width.now height.now eaten.now way left place c) }
    ensures piled { result.place ≡ place + piles_listed limit first.now next.now kind.now
        width.now height.now eaten.now way left c }
{
    if left == 0 || NONE <= c {
        return Listed { cuts: n, place };
    }
    let at = c as usize;
    let side = sides(way, width, height);
    let own = own_pile(kind, side, c);
    let rest = rest_of(next, side, eaten, c);
    let down = first[at];
    let across = way.rotate();
    if NONE <= rest {
        let whole = list_along(
            first,
            next,
            kind,
            width,
            height,
            eaten,
            across,
            down,
            left - 1,
            place,
            out,
            n,
        );
        return Listed {
            cuts: whole.cuts,
            place: whole.place + own,
        };
    }
    let cut = Cut {
        place: place as u16,
        way,
        distance: side[at],
        piece: kind[at],
        remainder: kind_left(next, kind, side, eaten, rest),
        eaten: eaten[at],
    };
    put_cut(cut, out, ENTRY * n);
    let below = list_along(
        first,
        next,
        kind,
        width,
        height,
        eaten,
        across,
        down,
        left - 1,
        place,
        out,
        n + 1,
    );
    list_along(
        first,
        next,
        kind,
        width,
        height,
        eaten,
        way,
        rest,
        left - 1,
        below.place + own,
        out,
        below.cuts,
    )
}

// The same under a Vertical cut.
pub fn list_vertical(
    first: &[u16; LIMIT],
    next: &[u16; LIMIT],
    kind: &[u8; LIMIT],
    width: &[u32; LIMIT],
    height: &[u32; LIMIT],
    eaten: &[u8; LIMIT],
    c: u16,
    left: usize,
    place: usize,
    out: &mut [u8],
    n: usize,
) -> Listed
    requires { (place + piles_listed limit first.now next.now kind.now width.now height.now eaten.now Vertical left c ≤ limit)
        × (n + length (cuts_listed limit first.now next.now kind.now width.now height.now eaten.now Vertical left place c) ≤ limit)
        × (10 * (n + length (cuts_listed limit first.now next.now kind.now width.now height.now eaten.now Vertical left place c))
        ≤ length out.old) }
    ensures written { out.new
        ≡ sets out.old (10 * n) (entries_of_cuts (cuts_listed limit first.now next.now kind.now
        width.now height.now eaten.now Vertical left place c)) }
    ensures counted { result.cuts ≡ n + length (cuts_listed limit first.now next.now kind.now
        width.now height.now eaten.now Vertical left place c) }
    ensures piled { result.place ≡ place + piles_listed limit first.now next.now kind.now
        width.now height.now eaten.now Vertical left c }
{
    list_along(
        first,
        next,
        kind,
        width,
        height,
        eaten,
        Orientation::Vertical,
        c,
        left,
        place,
        out,
        n,
    )
}

// The same under a Horizontal cut.
pub fn list_horizontal(
    first: &[u16; LIMIT],
    next: &[u16; LIMIT],
    kind: &[u8; LIMIT],
    width: &[u32; LIMIT],
    height: &[u32; LIMIT],
    eaten: &[u8; LIMIT],
    c: u16,
    left: usize,
    place: usize,
    out: &mut [u8],
    n: usize,
) -> Listed
    requires { (place + piles_listed limit first.now next.now kind.now width.now height.now eaten.now Horizontal left c ≤ limit)
        × (n + length (cuts_listed limit first.now next.now kind.now width.now height.now eaten.now Horizontal left place c) ≤ limit)
        × (10 * (n + length (cuts_listed limit first.now next.now kind.now width.now height.now eaten.now Horizontal left place c))
        ≤ length out.old) }
    ensures written { out.new
        ≡ sets out.old (10 * n) (entries_of_cuts (cuts_listed limit first.now next.now kind.now
        width.now height.now eaten.now Horizontal left place c)) }
    ensures counted { result.cuts ≡ n + length (cuts_listed limit first.now next.now kind.now
        width.now height.now eaten.now Horizontal left place c) }
    ensures piled { result.place ≡ place + piles_listed limit first.now next.now kind.now
        width.now height.now eaten.now Horizontal left c }
{
    list_along(
        first,
        next,
        kind,
        width,
        height,
        eaten,
        Orientation::Horizontal,
        c,
        left,
        place,
        out,
        n,
    )
}
