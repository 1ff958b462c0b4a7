// What a removal takes out, in order. Rust: `remove_subtree` of core/entities/layout.rs.
ghost use Rattle.std.specs.Prelude.{◌≡◌, ◌+◌, ◌≤◌, ◌<◌, length};
ghost use Rattle.lists.specs.Lists.{limit};
ghost use Rattle.std.proofs.lemmas.List.Edits.{sets};
ghost use Rattle.table.specs.Steps.{free_last_place};
ghost use Rattle.table.specs.Table.{at};
ghost use Rattle.walks.specs.Inner.{Hangs, Placed};
ghost use Rattle.removal.specs.Going.{going_of, places};

use table::{LIMIT, Node};
use walks::order::order_out;

// The places that go, without a heap; the entries past the count are zero. No ghost field says that they are places, since layout/proofs/TakenOut.antt builds one of any layout.
#[derive(Clone, Copy)]
pub struct Going {
    pub order: [u16; LIMIT],
    pub count: usize,
}

// Writes the place of the last child of q at n, if that is free, and gives the next index.
pub(crate) fn put_free_last(nodes: &[Node; LIMIT], q: u16, order: &mut [u16], n: usize) -> usize
    requires { (q < limit) × ((at nodes.now q).last < limit) × (n + length (free_last_place nodes.now q) ≤ length order.old) }
    ensures written { order.new ≡ sets order.old n (free_last_place nodes.now q) }
    ensures counted { result ≡ n + length (free_last_place nodes.now q) }
{
    let l = nodes[q as usize].last;
    if nodes[l as usize].datum.kind.is_free() {
        order[n] = l;
        return n + 1;
    }
    n
}

// What goes with the piece at x, where `held` is how many nodes there are: its subtree, each node after its children, and then the free piece at
// the end of its row.
pub fn going_with(nodes: &[Node; LIMIT], x: u16, held: usize) -> Going
    requires { (x < limit) × ((at nodes.now x).parent < limit) × ((at nodes.now (at nodes.now x).parent).last < limit)
        × (length (going_of nodes.now x held) ≤ limit) × Hangs limit nodes.now x held }
    ensures entries { places result ≡ going_of nodes.now x held }
    ensures counted { result.count ≡ length (going_of nodes.now x held) }
    ensures placed { Placed limit result.count result.order }
{
    let mut order = [0u16; LIMIT];
    let k = order_out(nodes, x, held, &mut order, 0);
    let count = put_free_last(nodes, nodes[x as usize].parent, &mut order, k);
    Going { order, count }
}
