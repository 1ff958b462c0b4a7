// A record of a block: 18 bytes that ask and 56 that answer.
use hexadecimal::four;
use piece::insertion_blueprint::{InsertionBlueprint, InsertionNode, InsertionShape, nodes};
use piece::orientation::Orientation;
use piece::size::Size;

// What our call answers to the record's question.
fn asked(b: [u8; 74]) -> InsertionBlueprint {
    let piece = Size {
        width: four(b[2], b[3], b[4], b[5]),
        height: four(b[6], b[7], b[8], b[9]),
    };
    let part = Size {
        width: four(b[10], b[11], b[12], b[13]),
        height: four(b[14], b[15], b[16], b[17]),
    };
    nodes(
        InsertionShape::of_number(b[1]),
        0,
        Orientation::of_number(b[0]),
        piece,
        part,
    )
}

// Whether a node is what the eleven recorded bytes from `at` on say; past the count both are zero. The Rust has no blade: nothing is eaten.
fn same_node(n: InsertionNode, b: [u8; 74], at: usize) -> bool {
    if 63 < at {
        return false;
    }
    n.eaten == 0
        && n.kind.number() == b[at]
        && n.parent == b[at + 1]
        && n.cut.number() == b[at + 2]
        && n.size.width == four(b[at + 3], b[at + 4], b[at + 5], b[at + 6])
        && n.size.height == four(b[at + 7], b[at + 8], b[at + 9], b[at + 10])
}

// Whether our answer is the recorded one.
pub fn agrees(b: [u8; 74]) -> bool {
    let ours = asked(b);
    if ours.count != b[18] as usize {
        return false;
    }
    for k in 0..5 {
        if !same_node(ours.nodes[k], b, 19 + 11 * k) {
            return false;
        }
    }
    true
}
