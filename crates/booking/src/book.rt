// The booking itself.
ghost use Rattle.std.specs.Prelude.{◌≡◌, ◌+◌, ◌≤◌};
ghost use Rattle.layout_nodes.specs.Listings.{Kept, entries_of, listing};
ghost use Rattle.booking.specs.Book.{node_bare, booked_nodes, less_up, new_of, site_left};
ghost use Rattle.booking.specs.Inner.{Bookable};

use crate::new_nodes::{NewNodes, Site, enrol, new_nodes, new_places, put_frees};
use layout_nodes::LayoutNodes;
use layout_nodes::listing::Listing;
use piece::insertion_blueprint::{InsertionShape, nodes as blueprint_of};
use piece::size::Size;
use table::places::{append, unlink};
use table::{NONE, Node};

// The nodes and the lists with what was booked in them; and the nodes that were made.
#[derive(Drop)]
pub struct Booked {
    pub nodes: LayoutNodes,
    pub new: NewNodes,
}

// No child hangs under the node.
fn no_child(up: Node) -> bool
    ensures { result ≡ node_bare up }
{
    NONE <= up.first
}

// The site that a node leaves, where `up` is its parent when it has gone, and these are the places.
fn site_of(old: Node, up: Node, places: [u16; 5], number: u16, blade: u8, last: u32) -> Site
    requires { last ≤ 1000000 }
    ensures { result ≡ site_left old up places number blade last }
{
    Site {
        under: old.parent,
        alone: no_child(up),
        level: old.datum.level,
        places,
        serial: last + 1,
        number,
        blade,
    }
}

// The nodes that the shape makes of a node at a site.
fn new_at(old: Node, site: Site, shape: InsertionShape, size: Size) -> NewNodes
    requires { site.serial + 5 ≤ 4294967295 }
    ensures { result ≡ new_of old site shape size }
{
    let d = old.datum;
    let blueprint = blueprint_of(shape, site.blade, d.cut, d.size, size);
    new_nodes(blueprint, site)
}

// The removable list less the parent at q, if that, which `up` is then, lost its last child.
fn less_parent(up: Node, q: u16, removable: Listing) -> Listing
    requires { Kept removable }
    ensures { result ≡ listing (less_up up q (entries_of removable)) }
{
    if no_child(up) {
        removable.strike(q)
    } else {
        removable
    }
}

// The part, of this size in its rotation and of this number, is cut in that shape, by a blade of this width, from the free piece at x; last is the last serial
// that was given.
// The new nodes come into the table one after the other.
pub fn book(
    nodes: LayoutNodes,
    x: u16,
    shape: InsertionShape,
    size: Size,
    number: u16,
    blade: u8,
    last: u32,
) -> Booked
    requires { Bookable nodes x shape size number blade last }
    ensures { result ≡ booked_nodes nodes x shape size number blade last }
{
    let old = nodes.nodes[x as usize];
    let mut t = nodes.nodes;
    unlink(&mut t, x);
    let up = t[old.parent as usize];
    let places = new_places(&t);
    let site = site_of(old, up, places, number, blade, last);
    let new = new_at(old, site, shape, size);
    for n in &new.list[..new.count] {
        append(&mut t, n.under, n.place, n.datum);
    }
    let less = nodes.free.omit(x);
    let free = put_frees(less, &t, new);
    let fewer = less_parent(up, old.parent, nodes.removable);
    let removable = enrol(fewer, new);
    let after = LayoutNodes {
        nodes: t,
        free,
        removable,
    };
    Booked { nodes: after, new }
}
