// The steps on the table: the search for an unheld place, a leaf that comes in, and one that goes out.
ghost use Rattle.std.specs.Prelude.{◌≡◌, ◌<◌};
ghost use Rattle.lists.specs.Lists.{limit};
ghost use Rattle.table.specs.Table as spec;
ghost use Rattle.table.specs.Table.{at};
ghost use Rattle.table.specs.Unheld.{lowest_from};

use crate::nodes::{leaf, no_node};
use crate::{LIMIT, NONE, Node};
use piece::node::Datum;

// The lowest place from `from` on that is not held; NONE where all are. What is past NONE comes back as it is.
pub fn unheld(nodes: &[Node; LIMIT], from: u16) -> u16
    ensures { result ≡ lowest_from limit nodes.now from }
{
    for i in from..NONE {
        if nodes[i as usize].datum.serial == 0 {
            return i;
        }
    }
    if from < NONE { NONE } else { from }
}

// A leaf at the place a becomes the last child of q.
pub fn append(nodes: &mut [Node; LIMIT], q: u16, a: u16, d: Datum)
    requires { (q < limit) × (a < limit) }
    ensures { nodes.new ≡ spec.append limit nodes.old q a d }
{
    let l = nodes[q as usize].last;
    nodes[a as usize] = leaf(d, q, l);
    if NONE <= l {
        nodes[q as usize].first = a;
    } else {
        nodes[l as usize].next = a;
    }
    nodes[q as usize].last = a;
}

// The leaf at x is taken out of its row, and its place is zero.
pub fn unlink(nodes: &mut [Node; LIMIT], x: u16)
    requires { (x < limit) × ((at nodes.old x).parent < limit) }
    ensures { nodes.new ≡ spec.unlink limit nodes.old x }
{
    let n = nodes[x as usize];
    let q = n.parent as usize;
    if NONE <= n.prev {
        nodes[q].first = n.next;
    } else {
        nodes[n.prev as usize].next = n.next;
    }
    if NONE <= n.next {
        nodes[q].last = n.prev;
    } else {
        nodes[n.next as usize].prev = n.prev;
    }
    nodes[x as usize] = no_node();
}
