// The numbers of the parts among the nodes along an order of places. Rust: `included_part_ids` of core/entities/layout.rs, and the numbers
// that `remove_subtree` there hands out. With the order of a removal these are the numbers that come out; with every place, those held.
ghost use Rattle.std.specs.Prelude.{◌≡◌, ◌+◌, ◌≤◌, length};
ghost use Rattle.std.proofs.lemmas.List.Edits.{sets};
ghost use Rattle.lists.specs.Lists.{entries, limit};
ghost use Rattle.walks.specs.Along.{below, part_number, numbers_along};
ghost use Rattle.walks.specs.Inner.{Placed};

use piece::node::Datum;
use table::{LIMIT, Node};

// How many numbers a piece has: a part has one, another piece none.
fn count_number(d: Datum) -> usize
    ensures { result ≡ length (part_number d) }
{
    if d.kind.is_part() { 1 } else { 0 }
}

// Writes the number of a part at n, and nothing for another piece; gives the next index.
fn put_number(d: Datum, out: &mut [u16], n: usize) -> usize
    requires { n + length (part_number d) ≤ length out.old }
    ensures written { out.new ≡ sets out.old n (part_number d) }
    ensures counted { result ≡ n + length (part_number d) }
{
    if d.kind.is_part() {
        out[n] = d.number;
        n + 1
    } else {
        n
    }
}

// How many parts there are among the nodes at the first `count` places of the order: the room that `put_numbers` asks.
pub fn count_numbers(nodes: &[Node; LIMIT], order: &[u16; LIMIT], count: usize) -> usize
    requires { (count ≤ limit) × Placed limit count order.now }
    ensures { result ≡ length (numbers_along nodes.now (entries count order.now)) }
{
    let mut found: usize = 0;
    for i in 0..count {
        let node = nodes[order[i] as usize];
        found += count_number(node.datum);
    }
    found
}

// The numbers of these parts in the order's order, from the start of `out`; gives how many. What is behind them stays.
pub fn put_numbers(
    nodes: &[Node; LIMIT],
    order: &[u16; LIMIT],
    count: usize,
    out: &mut [u16],
) -> usize
    requires { (count ≤ limit) × (length (numbers_along nodes.now (entries count order.now)) ≤ length out.old)
        × Placed limit count order.now }
    ensures written { out.new ≡ sets out.old 0 (numbers_along nodes.now (entries count order.now)) }
    ensures counted { result ≡ length (numbers_along nodes.now (entries count order.now)) }
{
    let mut n: usize = 0;
    for i in 0..count {
        let node = nodes[order[i] as usize];
        n = put_number(node.datum, out, n);
    }
    n
}

// Every place, in order.
pub fn every_place() -> [u16; LIMIT]
    ensures { result ≡ below limit }
{
    let mut order = [0u16; LIMIT];
    for i in 0..LIMIT {
        order[i] = i as u16;
    }
    order
}
