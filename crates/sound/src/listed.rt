// The clauses on the two lists and on the sums, over columns of the table.
ghost use Rattle.std.specs.Prelude.{◌≡◌, ℕ, ◌<◌, ◌≤◌, ◌^◌, get_or};
ghost use Rattle.lists.specs.Lists.{limit};
ghost use Rattle.table.specs.Columns.{areas_of, kinds_of};
ghost use Rattle.sound.specs.Listed.{area_listed, before, sorted_b};

use table::{LIMIT, Node};

// Whether the piece at p comes before the one at q: greatest area first, equal areas by rising serial.
fn is_before(area: &[u64; LIMIT], serial: &[u32; LIMIT], p: u16, q: u16) -> bool
    requires { (p < limit) × (q < limit) }
    ensures { result ≡ before area.now serial.now p q }
{
    let i = p as usize;
    let j = q as usize;
    area[j] < area[i] || area[i] == area[j] && serial[i] < serial[j]
}

// Whether each of the first count entries comes before the next.
pub fn is_sorted(
    area: &[u64; LIMIT],
    serial: &[u32; LIMIT],
    list: &[u16; LIMIT],
    count: usize,
) -> bool
    requires { (count ≤ limit) × ((k : ℕ) → k < count → get_or list.now k 0 < limit) }
    ensures { result ≡ sorted_b area.now serial.now list.now count }
{
    for k in 1..count {
        if !is_before(area, serial, list[k - 1], list[k]) {
            return false;
        }
    }
    true
}

// The area of the free pieces, where it is known to be small.
pub fn free_sum(nodes: &[Node; LIMIT]) -> u64
    requires { area_listed 0 (kinds_of nodes.now) (areas_of nodes.now) limit < 2 ^ 52 }
    ensures { result ≡ area_listed 0 (kinds_of nodes.now) (areas_of nodes.now) limit }
{
    let mut sum: u64 = 0;
    for node in nodes {
        if node.datum.kind.is_free() {
            sum += node.datum.size.area();
        }
    }
    sum
}
