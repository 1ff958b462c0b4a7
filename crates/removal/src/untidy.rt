// The structures that tidying takes out: those with one child, which is free. The Rust has no such search. What goes with such a structure is known here, so no
// walk is needed; it goes as any other piece does, by remove.rt.
ghost use Rattle.std.specs.Prelude.{◌≡◌, ◌<◌, length};
ghost use Rattle.lists.specs.Lists.{limit};
ghost use Rattle.table.specs.Table.{at};
ghost use Rattle.walks.specs.Inner.{Placed};
ghost use Rattle.removal.specs.Going.{places};
ghost use Rattle.removal.specs.Untidy.{bare_going, bare_in, lowest_untidy};

use crate::going::{Going, put_free_last};
use table::{LIMIT, NONE, Node};

// Whether a piece is a structure whose first child, which is handed in, is its last and free.
#[tactic(auto, unfolding(crate::specs::Untidy::bare_in))]
fn is_bare(n: Node, child: Node) -> bool
    ensures { result ≡ bare_in n child }
{
    let structure = n.datum.kind.is_structure();
    let only = child.datum.kind.is_free();
    structure && n.first == n.last && only
}

// The lowest place of such a structure but the top; NONE where there is none.
pub fn lowest_untidy(nodes: &[Node; LIMIT]) -> u16
    ensures { result ≡ lowest_untidy nodes.now }
{
    for i in 1..NONE {
        let n = nodes[i as usize];
        if n.first < NONE && is_bare(n, nodes[n.first as usize]) {
            return i;
        }
    }
    NONE
}

// What goes with such a structure at x: its child, itself, and then the free piece at the end of its row.
pub fn going_bare(nodes: &[Node; LIMIT], x: u16) -> Going
    requires { (x < limit) × ((at nodes.now x).parent < limit) × ((at nodes.now (at nodes.now x).parent).last < limit) × ((at nodes.now x).first < limit) }
    ensures entries { places result ≡ bare_going nodes.now x }
    ensures counted { result.count ≡ length (bare_going nodes.now x) }
    ensures placed { Placed limit result.count result.order }
{
    let mut order = [0u16; LIMIT];
    order[0] = nodes[x as usize].first;
    order[1] = x;
    let count = put_free_last(nodes, nodes[x as usize].parent, &mut order, 2);
    Going { order, count }
}
