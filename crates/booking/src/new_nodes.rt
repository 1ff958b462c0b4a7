// The nodes that a booking makes, in creation order: their places, what they are, and what becomes of them in the lists.
ghost use Rattle.std.specs.Prelude.{◌≡◌, cond, ◌++◌, ◌+◌, ◌<◌, ◌≤◌, length, replicate, take};
ghost use Rattle.piece.specs.Kinds.{is_free, is_part};
ghost use Rattle.lists.specs.Lists.{limit};
ghost use Rattle.tree.specs.ListSteps.{put_all};
ghost use Rattle.layout_nodes.specs.Listings.{Kept, area_in, entries_of, listing};
ghost use Rattle.booking.specs.Book.{new_places};
ghost use Rattle.booking.specs.NewNodes as spec;
ghost use Rattle.booking.specs.NewNodes.{add_all, enrolments, frees_of, next_node, no_new, site_node, those};

use layout_nodes::listing::Listing;
use piece::insertion_blueprint::{InsertionBlueprint, InsertionNode};
use piece::node::{Datum, Kind};
use table::nodes::no_datum;
use table::places::unheld;
use table::{LIMIT, Node};

// A node to be made: the place of its parent, whether it is the first child of that one, its own place, and what it is.
#[derive(Clone, Copy)]
pub struct NewNode {
    pub under: u16,
    pub place: u16,
    pub eldest: bool,
    pub datum: Datum,
}

// At most five, without a heap; entries past the count are zero. No ghost field says so, since `add_node` and `held_new` of the specs build such records of any count.
#[derive(Clone, Copy)]
pub struct NewNodes {
    pub list: [NewNode; 5],
    pub count: usize,
}

// Where they come: under which piece and at what level, whether that piece has no child then, at what places, and with which serial the first;
// and the part's number and the width of the blade.
#[derive(Clone, Copy)]
pub struct Site {
    pub under: u16,
    pub alone: bool,
    pub level: u8,
    pub places: [u16; 5],
    pub serial: u32,
    pub number: u16,
    pub blade: u8,
}

impl NewNode {
    pub fn is_free(self) -> bool
        ensures { result ≡ is_free self.datum.kind }
    {
        self.datum.kind.is_free()
    }

    pub fn is_part(self) -> bool
        ensures { result ≡ is_part self.datum.kind }
    {
        self.datum.kind.is_part()
    }
}

fn no_new() -> NewNode
    ensures { result ≡ no_new }
{
    NewNode {
        under: 0,
        place: 0,
        eldest: false,
        datum: no_datum(),
    }
}

pub fn none() -> NewNodes
    ensures { result ≡ record { list = replicate 5 no_new; count = 0 } }
{
    let zero = no_new();
    NewNodes {
        list: [zero; 5],
        count: 0,
    }
}

// One level deeper, as far as a level goes.
fn deeper(level: u8) -> u8
    ensures { result ≡ spec.deeper level }
{
    if level < 255 { level + 1 } else { 255 }
}

// The number of a part; any other piece has none.
fn number_of(kind: Kind, number: u16) -> u16
    ensures { result ≡ cond (is_part kind) number 0 }
{
    if kind.is_part() { number } else { 0 }
}

// The i-th node at a site, under that place and at that level.
fn site_node(site: Site, i: usize, under: u16, eldest: bool, level: u8, n: InsertionNode) -> NewNode
    requires { (i < 5) × (site.serial + 5 ≤ 4294967295) }
    ensures { result ≡ site_node site i under eldest level n }
{
    let datum = Datum {
        serial: site.serial + (i as u32),
        size: n.size,
        number: number_of(n.kind, site.number),
        level,
        kind: n.kind,
        cut: n.cut,
        eaten: n.eaten,
    };
    NewNode {
        under,
        place: site.places[i],
        eldest,
        datum,
    }
}

impl NewNodes {
    // The next node of a blueprint: under the site, or under one that is made already.
    fn next(self, site: Site, n: InsertionNode) -> NewNode
        requires { (self.count < 5) × (site.serial + 5 ≤ 4294967295) }
        ensures { result ≡ next_node site self n }
    {
        let count = self.count;
        let parent = n.parent as usize;
        if count <= parent {
            site_node(
                site,
                count,
                site.under,
                site.alone && count == 0,
                site.level,
                n,
            )
        } else {
            let up = self.list[parent];
            site_node(
                site,
                count,
                up.place,
                parent + 1 == count,
                deeper(up.datum.level),
                n,
            )
        }
    }

    fn add(self, site: Site, n: InsertionNode) -> NewNodes
        requires { (self.count < 5) × (site.serial + 5 ≤ 4294967295) }
        ensures { result ≡ spec.add_node site self n }
    {
        let new = self.next(site, n);
        let mut list = self.list;
        list[self.count] = new;
        NewNodes {
            list,
            count: self.count + 1,
        }
    }
}

// The nodes of a blueprint at a site.
pub fn new_nodes(blueprint: InsertionBlueprint, site: Site) -> NewNodes
    requires { (blueprint.count ≤ 5) × (site.serial + 5 ≤ 4294967295) }
    ensures { result ≡ add_all site (record { list = replicate 5 no_new; count = 0 }) (take blueprint.count blueprint.nodes) }
{
    let mut new = none();
    for &n in &blueprint.nodes[..blueprint.count] {
        new = new.add(site, n);
    }
    new
}

// The places that new nodes get one after the other: each is the lowest unheld one past the one before, and NONE or more where there is none.
pub fn new_places(nodes: &[Node; LIMIT]) -> [u16; 5]
    ensures { result ≡ new_places nodes.now }
{
    let mut places = [0u16; 5];
    let mut from: u16 = 0;
    for k in 0..5 {
        let place = unheld(nodes, from);
        places[k] = place;
        from = place + 1;
    }
    places
}

// Those that are free come into the free list, by their areas in the table.
pub fn put_frees(free: Listing, nodes: &[Node; LIMIT], new: NewNodes) -> Listing
    requires { Kept free × (new.count ≤ 5) × (free.count + new.count ≤ limit) }
    ensures { result ≡ listing (put_all (area_in nodes.now) (entries_of free) (frees_of (those new))) }
{
    let mut l = free;
    for n in &new.list[..new.count] {
        if n.is_free() {
            l = l.put(nodes, n.place);
        }
    }
    l
}

// A new part comes to the end of the removable list, then any new node's parent if that had no child.
pub fn enrol(removable: Listing, new: NewNodes) -> Listing
    requires { Kept removable × (new.count ≤ 5) × (removable.count + length (enrolments (those new)) ≤ limit) }
    ensures { result ≡ listing (entries_of removable ++ enrolments (those new)) }
{
    let mut l = removable;
    for n in &new.list[..new.count] {
        if n.is_part() {
            l = l.push(n.place);
        }
        if n.eldest {
            l = l.push(n.under);
        }
    }
    l
}
