// The places of a subtree in the order in which a removal takes them out. Rust: `remove_subtree` of core/entities/layout.rs, which calls itself on each
// child and ends with the node itself. Here the links are followed in a loop (document 02, request 6).
ghost use Rattle.std.specs.Prelude.{◌≡◌, ◌+◌, ◌≤◌, length};
ghost use Rattle.std.proofs.lemmas.List.Edits.{sets};
ghost use Rattle.lists.specs.Lists.{limit};
ghost use Rattle.walks.specs.Columns.{order_in};
ghost use Rattle.walks.specs.Inner.{Hangs};

use table::{LIMIT, NONE, Node};

// Writes the places of the subtree of x into `order`, from n on, and gives the index past the last: each place after those below it, first child
// first, and x last ("goes down child by child and ends with its own node"). The links are followed in one loop, with no call in it: down first
// links, along next links, up parent links. What begins at `down`, under `up`, is still to be written. Where a piece stands there, the walk goes
// down to it; where none does, all below `up` is written, and `up` is next, and then what begins behind it, under its parent. So each node is gone
// down to once and written once, and twice `held`, the nodes that there are, is turns enough: they are counted down, so that the walk ends whatever
// the links are.
pub fn order_out(nodes: &[Node; LIMIT], x: u16, held: usize, order: &mut [u16], n: usize) -> usize
    requires { Hangs limit nodes.now x held × (n + length (order_in limit nodes.now held x) ≤ length order.old) }
    ensures written { order.new ≡ sets order.old n (order_in limit nodes.now held x) }
    ensures counted { result ≡ n + length (order_in limit nodes.now held x) }
{
    let mut k = n;
    let mut up = x;
    let mut down = nodes[x as usize].first;
    let mut turns = held + held;
    // no index: the walk goes down, along and up, and the turns only bound it
    while 0 < turns {
        if NONE <= down {
            if up == x {
                break;
            }
            order[k] = up;
            k += 1;
            let done = nodes[up as usize];
            down = done.next;
            up = done.parent;
        } else {
            up = down;
            down = nodes[up as usize].first;
        }
        turns -= 1;
    }
    order[k] = x;
    k + 1
}
