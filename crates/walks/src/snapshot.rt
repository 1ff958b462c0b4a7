// The bytes of the tree snapshot, down the tree child by child. Rust: `NodeBlueprint` of core/insertion/node_blueprint.rs, which holds a node's
// values with those of its children, and its `from_node`; document 01, "Tree snapshot", says the bytes.
ghost use Rattle.std.specs.Prelude.{◌≡◌, [], ◌+◌, ◌≤◌, ◌<◌, length};
ghost use Rattle.std.proofs.lemmas.List.Edits.{sets};
ghost use Rattle.piece.specs.Numbers.{cut_no, kind_no};
ghost use Rattle.tree.specs.Snapshot.{two_then, four_then};
ghost use Rattle.lists.specs.Lists.{limit};
ghost use Rattle.walks.specs.Snapshot.{bytes_of_node};
ghost use Rattle.walks.specs.Columns.{columns_of, snapshot_in};

use piece::node::Datum;
use table::{LIMIT, NONE, Node};

// The two bytes of a number, the highest first.
pub fn put_two(v: u16, out: &mut [u8], at: usize)
    requires { at + 2 ≤ length out.old }
    ensures { out.new ≡ sets out.old at (two_then v []) }
{
    let high = (v / 256 % 256) as u8;
    let low = (v % 256) as u8;
    out[at] = high;
    out[at + 1] = low;
}

// The four bytes of a number, the highest first.
pub fn put_four(v: u32, out: &mut [u8], at: usize)
    requires { at + 4 ≤ length out.old }
    ensures { out.new ≡ sets out.old at (four_then v []) }
{
    out[at] = (v / 16777216 % 256) as u8;
    out[at + 1] = (v / 65536 % 256) as u8;
    out[at + 2] = (v / 256 % 256) as u8;
    out[at + 3] = (v % 256) as u8;
}

// The bytes of a node.
pub const NODE: usize = 14;

// "level, kind .., cut .., part number 2, width 4, height 4, highest byte first", and what was eaten behind it.
fn put_node(d: Datum, out: &mut [u8], at: usize)
    requires { at + 14 ≤ length out.old }
    ensures { out.new
        ≡ sets out.old at (bytes_of_node d.level (kind_no d.kind) (cut_no d.cut) d.number d.size.width d.size.height d.eaten) }
{
    out[at] = d.level;
    out[at + 1] = d.kind.number();
    out[at + 2] = d.cut.number();
    put_two(d.number, out, at + 3);
    put_four(d.size.width, out, at + 5);
    put_four(d.size.height, out, at + 9);
    out[at + 13] = d.eaten;
}

// Writes the nodes of the subtree of x into `out`, from `at` on, and gives the index past the last byte: the node's own bytes, and then those of
// each child's subtree, by calling itself ("each node before its children's subtrees, these in order"). What is behind them stays. `left`, the
// most nodes that there can be in the subtree, falls from each call to the next, so that the walk ends whatever the links are.
pub fn put_subtree(nodes: &[Node; LIMIT], x: u16, left: usize, out: &mut [u8], at: usize) -> usize
    requires { (x < limit) × (at + length (snapshot_in limit (columns_of nodes.now) left x) ≤ length out.old) }
    ensures written { out.new ≡ sets out.old at (snapshot_in limit (columns_of nodes.now) left x) }
    ensures counted { result ≡ at + length (snapshot_in limit (columns_of nodes.now) left x) }
{
    if left == 0 {
        return at;
    }
    let own = nodes[x as usize];
    put_node(own.datum, out, at);
    let mut k = at + NODE;
    let mut c = own.first;
    for _turn in 1..left {
        if NONE <= c {
            break;
        }
        k = put_subtree(nodes, c, left - 1, out, k);
        c = nodes[c as usize].next;
    }
    k
}
