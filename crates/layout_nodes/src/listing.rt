// A list of places: the entries that count, and zeros behind them.
ghost use Rattle.std.specs.Prelude.{◌≡◌, ◌<◌, ◌≤◌};
ghost use Rattle.tree.specs.ListSteps as spec;
ghost use Rattle.tree.specs.ListSteps.{berth, omit_all, strike_all};
ghost use Rattle.lists.specs.Lists.{limit, entries};
ghost use Rattle.layout_nodes.specs.Inner.{Single};
ghost use Rattle.layout_nodes.specs.Listings.{Kept, area_in, entries_of, listing};

use crate::spots::{spot_in, spots_of};
use lists::LIMIT;
use lists::search::{index_of, wide};
use lists::shift::{delete_at, insert_at, swap_out};
use table::Node;

// Nothing here has a heap: an array with its count. `Kept` stays in the contracts: a ghost field would need `listing` of specs/Listings.antt to say a length that it has not.
#[derive(Clone, Copy)]
pub struct Listing {
    pub list: [u16; LIMIT],
    pub count: usize,
}

impl Listing {
    // The list without a place; what stood behind it moves up.
    pub fn omit(self, place: u16) -> Listing
        requires { Kept self }
        ensures { result ≡ listing (spec.omit (entries_of self) place) }
    {
        let mut list = self.list;
        let count = self.count;
        let at = index_of(&list, count, place);
        if count <= at {
            return self;
        }
        delete_at(&mut list, count, at);
        Listing {
            list,
            count: count - 1,
        }
    }

    // The list without a place; the final entry goes into the hole.
    pub fn strike(self, place: u16) -> Listing
        requires { Kept self }
        ensures { result ≡ listing (spec.strike (entries_of self) place) }
    {
        let mut list = self.list;
        let count = self.count;
        let at = index_of(&list, count, place);
        if count <= at {
            return self;
        }
        swap_out(&mut list, count, at);
        Listing {
            list,
            count: count - 1,
        }
    }

    // A new entry comes last.
    pub fn push(self, place: u16) -> Listing
        requires { Kept self × (self.count < limit) }
        ensures { result ≡ listing (spec.push (entries_of self) place) }
    {
        let mut list = self.list;
        list[self.count] = place;
        Listing {
            list,
            count: self.count + 1,
        }
    }

    // Several places are left out, one after the other: those at the first `count` entries of the order. As no place stands twice in the list, one
    // pass that leaves them out does it.
    pub fn omit_all(self, order: &[u16; LIMIT], count: usize) -> Listing
        requires { Kept self × (count ≤ limit) × Single (entries_of self) }
        ensures { result ≡ listing (omit_all (entries_of self) (entries count order.now)) }
    {
        let old = self.list;
        let spots = spots_of(order, count);
        let mut list = [0u16; LIMIT];
        let mut kept: usize = 0;
        for &place in &old[..self.count] {
            if count <= spots[place as usize] {
                list[kept] = place;
                kept += 1;
            }
        }
        Listing { list, count: kept }
    }

    // They are struck out. A column says where each entry stands; the final entry, which goes into the hole, stands there then.
    pub fn strike_all(self, order: &[u16; LIMIT], count: usize) -> Listing
        requires { Kept self × (count ≤ limit) × Single (entries_of self) }
        ensures { result ≡ listing (strike_all (entries_of self) (entries count order.now)) }
    {
        let mut list = self.list;
        let mut n = self.count;
        let mut spots = spots_of(&list, n);
        for &place in &order[..count] {
            let at = spot_in(&list, n, &spots, place);
            if at < n {
                let last = n - 1;
                let v = wide(list[last]);
                spots[v] = at;
                swap_out(&mut list, n, at);
                n = last;
            }
        }
        Listing { list, count: n }
    }

    // The first index with a smaller area than that of the place, or the count.
    fn berth(self, nodes: &[Node; LIMIT], place: u16) -> usize
        requires { Kept self }
        ensures { result ≡ berth (area_in nodes.now) (entries_of self) place }
    {
        let area = area_in(nodes, place);
        for i in 0..self.count {
            if area_in(nodes, self.list[i]) < area {
                return i;
            }
        }
        self.count
    }

    // A place that is newer than all others is put in where its area belongs.
    pub fn put(self, nodes: &[Node; LIMIT], place: u16) -> Listing
        requires { Kept self × (self.count < limit) }
        ensures { result ≡ listing (spec.put (area_in nodes.now) (entries_of self) place) }
    {
        let mut list = self.list;
        let count = self.count;
        let at = self.berth(nodes, place);
        insert_at(&mut list, count, at, place);
        Listing {
            list,
            count: count + 1,
        }
    }
}

// The area of the piece at a place of the table, and 0 where there is no such place.
fn area_in(nodes: &[Node; LIMIT], place: u16) -> u64
    ensures { result ≡ area_in nodes.now place }
{
    let p = place as usize;
    if p < LIMIT {
        nodes[p].datum.size.area()
    } else {
        0
    }
}
