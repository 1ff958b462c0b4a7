// The routine that lists the cuts down the tree (document 02, change request 3): "Pieces under a Vertical cut are listed by one routine which gives
// each piece, once cut off, to the routine for Horizontal cuts, and that one back again." Here it is one routine that is told the way of the cut, and
// calls itself with the other way. `left`, the most nodes that there can be from here on, falls from each call to the next, so that it ends whatever
// the links are.
ghost use Rattle.std.specs.Prelude.{◌≡◌, ◌+◌, ◌*◌, ◌≤◌, ◌<◌, length};
ghost use Rattle.std.proofs.lemmas.List.Edits.{sets};
ghost use Rattle.lists.specs.Lists.{limit};
ghost use Rattle.table.specs.Columns.{kinds_of, nexts_of};
ghost use Rattle.walks.specs.Columns.{columns_of, eatens_of};
ghost use Rattle.saw.specs.Listed.{entries_of_cuts, left_along, listed_in, own_listed, piles_in, rest_of, sides_of};
ghost use Rattle.saw.specs.Saw.{side};

use crate::cut::{Cut, ENTRY, put_cut};
use piece::node::Kind;
use piece::orientation::Orientation;
use piece::size::Size;
use table::{LIMIT, NONE, Node};

// What `remainder` of a cut says of several siblings.
pub(crate) const SEVERAL: u8 = 3;

// How many cuts there are when a row is listed, and at what place of the pile lies what comes behind it.
#[derive(Clone, Copy)]
pub struct Listed {
    pub cuts: usize,
    pub place: usize,
}

// The side of a piece that a cut of this way divides.
fn side(way: Orientation, size: Size) -> u32
    ensures { result ≡ side way size }
{
    match way {
        Orientation::Horizontal => size.height,
        Orientation::Vertical => size.width,
    }
}

// The later sibling of c that a cut of this way comes before. An offcut that has nothing of the side that the cut divides has none, but where
// something was eaten behind c.
fn rest_of(nodes: &[Node; LIMIT], way: Orientation, c: u16) -> u16
    requires { c < limit }
    ensures { result ≡ rest_of limit (nexts_of nodes.now) (sides_of way nodes.now) (eatens_of nodes.now) c }
{
    let own = nodes[c as usize];
    let r = own.next;
    if NONE <= r {
        return NONE;
    }
    if side(way, nodes[r as usize].datum.size) == 0 && own.datum.eaten == 0 {
        return NONE;
    }
    r
}

// The kind of what is left of a row, from the place r on.
fn kind_left(nodes: &[Node; LIMIT], way: Orientation, r: u16) -> u8
    requires { r < limit }
    ensures { result ≡ left_along limit (nexts_of nodes.now) (kinds_of nodes.now) (sides_of way nodes.now) (eatens_of nodes.now) r }
{
    if NONE <= rest_of(nodes, way, r) {
        nodes[r as usize].datum.kind.number()
    } else {
        SEVERAL
    }
}

// 1 where the piece at c itself comes to lie in the pile: a part, or a free piece with something of the side.
fn own_pile(nodes: &[Node; LIMIT], way: Orientation, c: u16) -> usize
    requires { c < limit }
    ensures { result ≡ own_listed (kinds_of nodes.now) (sides_of way nodes.now) c }
{
    let d = nodes[c as usize].datum;
    match d.kind {
        Kind::Free => { if side(way, d.size) == 0 { 0 } else { 1 } }
        Kind::Part => 1,
        Kind::Structure => 0,
    }
}

// The pieces from c on, which are under a cut of this way and fill the board at `place` of the pile: writes their cuts into `out` after n cuts, and
// gives how many there are then, and the place behind what the row has become.
pub fn list_row(
    nodes: &[Node; LIMIT],
    way: Orientation,
    c: u16,
    left: usize,
    place: usize,
    out: &mut [u8],
    n: usize,
) -> Listed
    requires { (place + piles_in limit (columns_of nodes.now) way left c ≤ limit)
        × (n + length (listed_in limit (columns_of nodes.now) way left place c) ≤ limit)
        × (10 * (n + length (listed_in limit (columns_of nodes.now) way left place c)) ≤ length out.old) }
    ensures written { out.new ≡ sets out.old (10 * n) (entries_of_cuts (listed_in limit (columns_of nodes.now) way left place c)) }
    ensures counted { result.cuts ≡ n + length (listed_in limit (columns_of nodes.now) way left place c) }
    ensures piled { result.place ≡ place + piles_in limit (columns_of nodes.now) way left c }
{
    if left == 0 || NONE <= c {
        return Listed { cuts: n, place };
    }
    let own = own_pile(nodes, way, c);
    let rest = rest_of(nodes, way, c);
    let down = nodes[c as usize].first;
    let across = way.rotate();
    if NONE <= rest {
        let whole = list_row(nodes, across, down, left - 1, place, out, n);
        return Listed {
            cuts: whole.cuts,
            place: whole.place + own,
        };
    }
    let d = nodes[c as usize].datum;
    let cut = Cut {
        place: place as u16,
        way,
        distance: side(way, d.size),
        piece: d.kind.number(),
        remainder: kind_left(nodes, way, rest),
        eaten: d.eaten,
    };
    put_cut(cut, out, ENTRY * n);
    let below = list_row(nodes, across, down, left - 1, place, out, n + 1);
    list_row(
        nodes,
        way,
        rest,
        left - 1,
        below.place + own,
        out,
        below.cuts,
    )
}
