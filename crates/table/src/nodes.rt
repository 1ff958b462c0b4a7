// Nodes one by one: the node of an unheld place, and a leaf; and the table in which no place is held.
ghost use Rattle.std.specs.Prelude.{◌≡◌, replicate};
ghost use Rattle.lists.specs.Lists.{limit};
ghost use Rattle.table.specs.Table.{mk, zero_datum, zero_node};

use crate::{LIMIT, NONE, Node};
use piece::node::{Datum, Kind};
use piece::orientation::Orientation;
use piece::size::Size;

// No piece: all zero.
pub fn no_datum() -> Datum
    ensures { result ≡ zero_datum }
{
    Datum {
        serial: 0,
        size: Size {
            width: 0,
            height: 0,
        },
        number: 0,
        level: 0,
        kind: Kind::Free,
        cut: Orientation::Horizontal,
        eaten: 0,
    }
}

// What stands at an unheld place.
pub fn no_node() -> Node
    ensures { result ≡ zero_node }
{
    Node {
        datum: no_datum(),
        parent: 0,
        first: 0,
        last: 0,
        prev: 0,
        next: 0,
    }
}

// The table in which no place is held.
pub fn empty_table() -> [Node; LIMIT]
    ensures { result ≡ replicate limit zero_node }
{
    let zero = no_node();
    [zero; LIMIT]
}

// A node with no children and no next sibling.
pub fn leaf(d: Datum, parent: u16, prev: u16) -> Node
    ensures { result ≡ mk d parent prev limit limit limit }
{
    Node {
        datum: d,
        parent,
        first: NONE,
        last: NONE,
        prev,
        next: NONE,
    }
}
