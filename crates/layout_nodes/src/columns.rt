// The steps over lent columns of numbers, for a caller who holds columns and no nodes.
// They are kept because they were public and may not ask more of their callers; the calls of this repository lend nodes.
ghost use Rattle.std.specs.Prelude.{◌≡◌, ◌<◌};
ghost use Rattle.tree.specs.ListSteps as spec;
ghost use Rattle.tree.specs.ListSteps.{berth};
ghost use Rattle.lists.specs.Lists.{limit};
ghost use Rattle.table.specs.Columns.{areas_of};
ghost use Rattle.layout_nodes.specs.Listings as held;
ghost use Rattle.layout_nodes.specs.Listings.{Kept, area_at, entries_of};

use crate::listing::Listing;
use lists::LIMIT;
use lists::shift::insert_at;
use table::Node;

// The column of the areas, taken out of the nodes once, so that it can be lent.
pub fn areas_of(nodes: [Node; LIMIT]) -> [u64; LIMIT]
    ensures { result ≡ areas_of nodes }
{
    let mut areas = [0u64; LIMIT];
    for i in 0..LIMIT {
        areas[i] = nodes[i].datum.size.area();
    }
    areas
}

// A place that is newer than all others is put in where its area belongs; the areas come as a column.
pub fn put(listing: Listing, areas: &[u64; LIMIT], place: u16) -> Listing
    requires { Kept listing × (listing.count < limit) }
    ensures { result ≡ held.listing (spec.put (area_at areas.now) (entries_of listing) place) }
{
    let mut list = listing.list;
    let count = listing.count;
    let at = berth(listing, areas, place);
    insert_at(&mut list, count, at, place);
    Listing {
        list,
        count: count + 1,
    }
}

// The first index with a smaller area than that of the place, or the count.
fn berth(listing: Listing, areas: &[u64; LIMIT], place: u16) -> usize
    requires { Kept listing }
    ensures { result ≡ berth (area_at areas.now) (entries_of listing) place }
{
    let area = area_at(areas, place);
    for i in 0..listing.count {
        if area_at(areas, listing.list[i]) < area {
            return i;
        }
    }
    listing.count
}

// The area at a place of the column, and 0 where there is no such place.
fn area_at(areas: &[u64; LIMIT], place: u16) -> u64
    ensures { result ≡ area_at areas.now place }
{
    let p = place as usize;
    if p < LIMIT { areas[p] } else { 0 }
}
