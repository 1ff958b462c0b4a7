// Where each place stands in a list: one pass over the list makes the column, and then each look-up is one step.
ghost use Rattle.std.specs.Prelude.{◌≡◌, ◌≤◌};
ghost use Rattle.lists.specs.Lists.{limit};
ghost use Rattle.lists.specs.Search.{index_of};
ghost use Rattle.layout_nodes.specs.Spots.{spots_of};
ghost use Rattle.layout_nodes.specs.Inner.{Spotted};

use lists::LIMIT;
use lists::search::wide;

// The first index at which each place stands among the first entries, or the count. The entries are passed from behind, so that the first one stays.
pub fn spots_of(list: &[u16; LIMIT], count: usize) -> [usize; LIMIT]
    requires { count ≤ limit }
    ensures { result ≡ spots_of list.now count }
{
    let mut spots = [count; LIMIT];
    for j in (0..count).rev() {
        let p = list[j] as usize;
        if p < LIMIT {
            spots[p] = j;
        }
    }
    spots
}

// The same as a search for the place among the first entries, where the column says of each of these where it stands.
pub fn spot_in(list: &[u16; LIMIT], count: usize, spots: &[usize; LIMIT], place: u16) -> usize
    requires { (count ≤ limit) × Spotted list.now count spots.now }
    ensures { result ≡ index_of list.now count place }
{
    let p = wide(place);
    if LIMIT <= p {
        return count;
    }
    let at = spots[p];
    if count <= at {
        return count;
    }
    if list[at] == place { at } else { count }
}
