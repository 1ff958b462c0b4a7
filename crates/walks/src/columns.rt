// The walks over lent columns of numbers, for a caller who holds columns and no nodes.
// They are kept because they were public and may not ask more of their callers; the calls of this repository lend nodes.
ghost use Rattle.std.specs.Prelude.{◌≡◌, ◌+◌, ◌≤◌, ◌<◌, length};
ghost use Rattle.std.proofs.lemmas.List.Edits.{sets};
ghost use Rattle.lists.specs.Lists.{limit};
ghost use Rattle.walks.specs.Columns.{columns_of};
ghost use Rattle.walks.specs.Inner.{Small};
ghost use Rattle.walks.specs.Snapshot.{bytes_of_node, bytes_at, snapshot_of};
ghost use Rattle.walks.specs.Usage.{usage_along};

use crate::snapshot::{NODE, put_four, put_two};
use table::{LIMIT, NONE, Node};

// The columns of a table that a walk down the tree is lent: the two links that it follows, what a snapshot says of a node, and its area. They are taken
// out of the nodes once.
#[derive(Clone, Copy)]
pub struct Columns {
    pub first: [u16; LIMIT],
    pub next: [u16; LIMIT],
    pub level: [u8; LIMIT],
    pub kind: [u8; LIMIT],
    pub cut: [u8; LIMIT],
    pub number: [u16; LIMIT],
    pub width: [u32; LIMIT],
    pub height: [u32; LIMIT],
    pub area: [u64; LIMIT],
    pub eaten: [u8; LIMIT],
}

pub fn columns_of(nodes: [Node; LIMIT]) -> Columns
    ensures { result ≡ columns_of nodes }
{
    let mut first = [0u16; LIMIT];
    let mut next = [0u16; LIMIT];
    let mut level = [0u8; LIMIT];
    let mut kind = [0u8; LIMIT];
    let mut cut = [0u8; LIMIT];
    let mut number = [0u16; LIMIT];
    let mut width = [0u32; LIMIT];
    let mut height = [0u32; LIMIT];
    let mut area = [0u64; LIMIT];
    let mut eaten = [0u8; LIMIT];
    for i in 0..LIMIT {
        let n = nodes[i];
        let d = n.datum;
        let size = d.size;
        first[i] = n.first;
        next[i] = n.next;
        level[i] = d.level;
        kind[i] = d.kind.number();
        cut[i] = d.cut.number();
        number[i] = d.number;
        width[i] = size.width;
        height[i] = size.height;
        area[i] = size.area();
        eaten[i] = d.eaten;
    }
    Columns {
        first,
        next,
        level,
        kind,
        cut,
        number,
        width,
        height,
        area,
        eaten,
    }
}

// The usage of the subtree of x: 0 for a free piece (kind 0), 1 for a part (kind 1), else its children's area times usage added in order
// from 0, divided by its own area. `left` is as in `put_subtree`.
pub fn usage_of<'a>(
    first: &'a [u16; LIMIT],
    next: &'a [u16; LIMIT],
    kind: &'a [u8; LIMIT],
    area: &'a [u64; LIMIT],
    x: u16,
    left: usize,
) -> f64
    requires { (x < limit) × Small area.now }
    ensures { result ≡ usage_along limit first.now next.now kind.now area.now left x }
{
    if left == 0 {
        return 0.0;
    }
    let at = x as usize;
    let k = kind[at];
    if k == 0 {
        return 0.0; // a free piece
    }
    if k == 1 {
        return 1.0; // a part
    }
    let mut sum = 0.0;
    let mut c = first[at];
    for _turn in 1..left {
        if NONE <= c {
            break;
        }
        let u = usage_of(first, next, kind, area, c, left - 1);
        let a = area[c as usize];
        sum = sum + a as f64 * u;
        c = next[c as usize];
    }
    let own = area[at];
    sum / own as f64
}

// "level, kind .., cut .., part number 2, width 4, height 4, highest byte first", and what was eaten behind it.
fn put_node(
    level: u8,
    kind: u8,
    cut: u8,
    number: u16,
    width: u32,
    height: u32,
    eaten: u8,
    out: &mut [u8],
    at: usize,
)
    requires { at + 14 ≤ length out.old }
    ensures { out.new ≡ sets out.old at (bytes_of_node level kind cut number width height eaten) }
{
    out[at] = level;
    out[at + 1] = kind;
    out[at + 2] = cut;
    put_two(number, out, at + 3);
    put_four(width, out, at + 5);
    put_four(height, out, at + 9);
    out[at + 13] = eaten;
}

// Writes the nodes of the subtree of x into `out`, from `at` on, and gives the index past the last byte: the node's own bytes, and then those of
// each child's subtree, by calling itself ("each node before its children's subtrees, these in order"). What is behind them stays. `left`, the
// most nodes that there can be in the subtree, falls from each call to the next, so that the walk ends whatever the links are.
pub fn put_subtree<'a>(
    first: &'a [u16; LIMIT],
    next: &'a [u16; LIMIT],
    level: &'a [u8; LIMIT],
    kind: &'a [u8; LIMIT],
    cut: &'a [u8; LIMIT],
    number: &'a [u16; LIMIT],
    width: &'a [u32; LIMIT],
    height: &'a [u32; LIMIT],
    eaten: &'a [u8; LIMIT],
    x: u16,
    left: usize,
    out: &mut [u8],
    at: usize,
) -> usize
    requires { (x < limit)
        × (at + length (snapshot_of limit first.now next.now
        (bytes_at level.now kind.now cut.now number.now width.now height.now eaten.now) left x) ≤ length out.old) }
    ensures written { out.new
        ≡ sets out.old at (snapshot_of limit first.now next.now
        (bytes_at level.now kind.now cut.now number.now width.now
        height.now eaten.now) left x) }
    ensures counted { result ≡ at + length (snapshot_of limit first.now next.now
        (bytes_at level.now kind.now cut.now number.now width.now
        height.now eaten.now) left x) }
{
    if left == 0 {
        return at;
    }
    let i = x as usize;
    put_node(
        level[i], kind[i], cut[i], number[i], width[i], height[i], eaten[i], out, at,
    );
    let mut k = at + NODE;
    let mut c = first[i];
    for _turn in 1..left {
        if NONE <= c {
            break;
        }
        k = put_subtree(
            first,
            next,
            level,
            kind,
            cut,
            number,
            width,
            height,
            eaten,
            c,
            left - 1,
            out,
            k,
        );
        let here = c as usize;
        c = next[here];
    }
    k
}
