// One pass over the places: the clauses that speak of one place at a time, of the flags of the two lists and of what hangs, and the two sums. It
// writes the columns of the serials and of the areas on the way. No place ends the pass, so that the columns are always whole.
ghost use Rattle.std.specs.Prelude.{◌≡◌};
ghost use Rattle.std.proofs.lemmas.List.Edits.{sets};
ghost use Rattle.lists.specs.Lists.{limit};
ghost use Rattle.sound.specs.Columns.{areas_of, serials_of};
ghost use Rattle.sound.specs.Census.{census_b, flags_b, hangs_b, held_one, node_b, used_by};

use crate::places::place_ok;
use table::{LIMIT, Node};

// Whether the place i is the top's, is unheld, or hangs in a row.
fn hangs_ok(n: Node, i: usize, hung: u8) -> bool
    ensures { result ≡ hangs_b i n hung }
{
    i == 0 || n.datum.serial == 0 || hung == 1
}

// Whether the flags of the two lists are those of the node: none where the place is unheld, the free list's at a free piece, the removable list's at
// a part or a structure.
fn flags_ok(n: Node, free: u8, removable: u8) -> bool
    ensures { result ≡ flags_b n free removable }
{
    if n.datum.serial == 0 {
        free != 1 && removable != 1
    } else if n.datum.kind.is_free() {
        free == 1 && removable != 1
    } else {
        free != 1 && removable == 1
    }
}

// Whether the place i, where n stands, is as it should be, by itself and by its flags.
#[tactic(auto, unfolding(crate::specs::Census::node_b))]
fn node_ok(n: Node, i: usize, last: u32, free: u8, removable: u8, hung: u8) -> bool
    ensures { result ≡ node_b limit last i n free removable hung }
{
    place_ok(n) && n.datum.serial <= last && hangs_ok(n, i, hung) && flags_ok(n, free, removable)
}

// 1 where the place is held.
fn held_one(n: Node) -> usize
    ensures { result ≡ held_one n }
{
    if n.datum.serial == 0 { 0 } else { 1 }
}

// The area of a part, and 0 of any other node.
fn used_by(n: Node) -> u64
    ensures { result ≡ used_by n }
{
    if n.datum.kind.is_part() {
        n.datum.size.area()
    } else {
        0
    }
}

// The parts' areas are taken away from `used`, so that nothing overflows on any record.
pub fn census_ok(
    nodes: [Node; LIMIT],
    last: u32,
    used: u64,
    held: usize,
    free: &[u8; LIMIT],
    removable: &[u8; LIMIT],
    hung: &[u8; LIMIT],
    serial: &mut [u32; LIMIT],
    area: &mut [u64; LIMIT],
) -> bool
    ensures says { result ≡ census_b limit nodes last used held free.now removable.now hung.now }
    ensures serials { serial.new ≡ sets serial.old 0 (serials_of nodes) }
    ensures areas { area.new ≡ sets area.old 0 (areas_of nodes) }
{
    let mut ok = true;
    let mut count: usize = 0;
    let mut left = used;
    for i in 0..LIMIT {
        let n = nodes[i];
        serial[i] = n.datum.serial;
        area[i] = n.datum.size.area();
        if !node_ok(n, i, last, free[i], removable[i], hung[i]) {
            ok = false;
        }
        let part = used_by(n);
        if left < part {
            ok = false;
        } else {
            left -= part;
        }
        count += held_one(n);
    }
    ok && count == held && left == 0
}
