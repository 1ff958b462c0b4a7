// The removal itself. Rust: `remove_node` of core/entities/layout.rs.
ghost use Rattle.std.specs.Prelude.{◌≡◌, ◌+◌, ◌≤◌, ◌<◌, length};
ghost use Rattle.lists.specs.Lists.{limit};
ghost use Rattle.tree.specs.Removal.{board, freed, spare};
ghost use Rattle.tree.specs.ListSteps.{omit_all, put, strike_all};
ghost use Rattle.table.specs.Steps.{unlink_all};
ghost use Rattle.walks.specs.Inner.{Placed};
ghost use Rattle.layout_nodes.specs.Listings.{Kept, area_in, entries_of, listing};
ghost use Rattle.layout_nodes.specs.Inner.{Single};
ghost use Rattle.removal.specs.Going.{area_along, area_if_part, places};
ghost use Rattle.removal.specs.Inner.{Goes, Clearable};
ghost use Rattle.removal.specs.Remove.{if_free, removed_nodes, returned};

use crate::going::Going;
use layout_nodes::LayoutNodes;
use layout_nodes::listing::Listing;
use piece::node::{Datum, Kind};
use piece::orientation::Orientation;
use piece::size::Size;
use table::places::{append, unheld, unlink};
use table::{LIMIT, NONE, Node};

// The nodes and the lists without the piece; and the place of the new free piece.
#[derive(Clone, Copy)]
pub struct Cleared {
    pub nodes: LayoutNodes,
    pub place: u16,
}

// The places are unlinked one after the other.
fn unlink_all(nodes: &mut [Node; LIMIT], g: Going)
    requires { (g.count ≤ limit) × Goes limit nodes.old (places g) }
    ensures { nodes.new ≡ unlink_all limit nodes.old (places g) }
{
    for &x in &g.order[..g.count] {
        unlink(nodes, x);
    }
}

// The area of a part; another piece has none.
fn part_area(d: Datum) -> u64
    ensures { result ≡ area_if_part d }
{
    if d.kind.is_part() { d.size.area() } else { 0 }
}

// The areas of the parts that go.
pub fn area_along(nodes: &[Node; LIMIT], g: Going) -> u64
    requires { (g.count ≤ limit) × Placed limit g.count g.order × (area_along nodes.now (places g) ≤ 18446744073709551615) }
    ensures { result ≡ area_along nodes.now (places g) }
{
    let mut sum: u64 = 0;
    for &p in &g.order[..g.count] {
        sum += part_area(nodes[p as usize].datum);
    }
    sum
}

// What the last piece of a row has of the side that their parent's cut divides, if it is free.
fn spare_of(cut: Orientation, end: Datum) -> u32
    ensures { result ≡ spare cut (if_free end) }
{
    if end.kind.is_free() {
        end.size.laid(cut).width
    } else {
        0
    }
}

// The board of d, with the last piece of its row, if that is free. What was eaten behind d comes back with it.
fn board_with(d: Datum, end: Datum) -> Size
    requires { ((board d (if_free end)).width ≤ 4294967295) × ((board d (if_free end)).height ≤ 4294967295) }
    ensures { result ≡ board d (if_free end) }
{
    let a = d.size.laid(d.cut);
    let eaten = d.eaten as u32;
    let spare = spare_of(d.cut, end);
    let whole = Size {
        width: a.width + eaten + spare,
        height: a.height,
    };
    whole.laid(d.cut)
}

// The free piece that comes where d was, where `end` is the last piece of its row.
fn new_free(d: Datum, end: Datum, last: u32) -> Datum
    requires { ((board d (if_free end)).width ≤ 4294967295) × ((board d (if_free end)).height ≤ 4294967295) × (last ≤ 1000000) }
    ensures { result ≡ freed (last + 1) d (board d (if_free end)) }
{
    Datum {
        serial: last + 1,
        size: board_with(d, end),
        number: 0,
        level: d.level,
        kind: Kind::Free,
        cut: d.cut,
        eaten: 0,
    }
}

// The free list without the pieces that go and with the new one, which stands at `place` of the table.
fn free_list(free: Listing, g: Going, nodes: &[Node; LIMIT], place: u16) -> Listing
    requires { Kept free × (g.count ≤ limit) × (length (omit_all (entries_of free) (places g)) < limit)
        × Single (entries_of free) }
    ensures { result ≡ listing (put (area_in nodes.now) (omit_all (entries_of free) (places g)) place) }
{
    let shorter = free.omit_all(&g.order, g.count);
    shorter.put(nodes, place)
}

// The removable list without the pieces that go. A parent that has lost its last child is taken out, and returns at once: it stands at q.
fn removable_list(removable: Listing, g: Going, parent: Node, q: u16) -> Listing
    requires { Kept removable × (g.count ≤ limit) × (length (strike_all (entries_of removable) (places g)) < limit)
        × Single (entries_of removable) }
    ensures { result ≡ listing (returned parent q (strike_all (entries_of removable) (places g))) }
{
    let shorter = removable.strike_all(&g.order, g.count);
    if NONE <= parent.first {
        let without = shorter.strike(q);
        return without.push(q);
    }
    shorter
}

// The piece at x goes, where g is what goes with it, and one free piece comes at the end of its row: it has the serial after `last`.
pub fn remove(mut n: LayoutNodes, g: Going, x: u16, last: u32) -> Cleared
    requires { (g.count ≤ limit) × Clearable n (places g) x last }
    ensures { result ≡ removed_nodes n (places g) x last }
{
    let gone = n.nodes[x as usize];
    let q = gone.parent;
    let above = n.nodes[q as usize];
    let end = n.nodes[above.last as usize];
    let d = new_free(gone.datum, end.datum, last);
    unlink_all(&mut n.nodes, g);
    let parent = n.nodes[q as usize];
    let place = unheld(&n.nodes, 0);
    append(&mut n.nodes, q, place, d);
    n.free = free_list(n.free, g, &n.nodes, place);
    n.removable = removable_list(n.removable, g, parent, q);
    Cleared { nodes: n, place }
}
