// The step over a lent column of numbers, for a caller who holds columns and no nodes.
// It is kept because it was public and may not ask more of its callers; the calls of this repository lend nodes.
ghost use Rattle.std.specs.Prelude.{◌≡◌, ◌+◌, ◌≤◌};
ghost use Rattle.lists.specs.Lists.{limit};
ghost use Rattle.tree.specs.ListSteps.{put_all};
ghost use Rattle.layout_nodes.specs.Listings.{Kept, area_at, entries_of, listing};
ghost use Rattle.booking.specs.NewNodes.{frees_of, those};

use crate::new_nodes::NewNodes;
use layout_nodes::columns::put;
use layout_nodes::listing::Listing;
use table::LIMIT;

// Those that are free come into the free list, by their areas in the column.
pub fn put_frees(free: Listing, areas: &[u64; LIMIT], new: NewNodes) -> Listing
    requires { Kept free × (new.count ≤ 5) × (free.count + new.count ≤ limit) }
    ensures { result ≡ listing (put_all (area_at areas.now) (entries_of free) (frees_of (those new))) }
{
    let mut l = free;
    for n in &new.list[..new.count] {
        if n.is_free() {
            l = put(l, areas, n.place);
        }
    }
    l
}
