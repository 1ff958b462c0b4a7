// The four shapes of an insertion and the nodes that each makes. Rust: core/insertion/insertion_blueprint.rs.
ghost use Rattle.std.specs.Prelude.{◌≡◌};
ghost use Rattle.piece.specs.Insertion.{blueprint_of, cut_from, laid_made, new_nodes, no_node, insertion_node_of};
ghost use Rattle.piece.specs.Numbers.{listed_shape, shape_no, shape_of};
ghost use Rattle.piece.specs.Sides.{sized};

use crate::node::Kind;
use crate::orientation::Orientation;
use crate::size::{Size, eaten_behind, rest};
use crate::unlisted::Unlisted;

#[derive(Clone, Copy, PartialEq, Eq)]
pub enum InsertionShape {
    AlongCurrentCut,
    AcrossCurrentCut,
    AlongThenAcross,
    AcrossThenAlong,
}

impl InsertionShape {
    // Its number in bytes.
    pub fn number(self) -> u8
        ensures { result ≡ shape_no self }
    {
        u8::from(self)
    }

    // The shape of a number that is known to be listed (the recorded blocks); `try_from` tests it.
    pub fn of_number(n: u8) -> InsertionShape
        ensures { result ≡ shape_of n }
    {
        match n {
            1 => InsertionShape::AlongCurrentCut,
            2 => InsertionShape::AcrossCurrentCut,
            3 => InsertionShape::AlongThenAcross,
            _ => InsertionShape::AcrossThenAlong,
        }
    }

    // How many nodes it makes.
    pub fn new_count(self) -> u16
        ensures { result ≡ new_nodes self }
    {
        match self {
            InsertionShape::AlongCurrentCut => 2,
            InsertionShape::AcrossCurrentCut => 3,
            InsertionShape::AlongThenAcross => 4,
            InsertionShape::AcrossThenAlong => 5,
        }
    }
}

impl From<InsertionShape> for u8 {
    ghost from_gives = { λ s n. n ≡ shape_no s };

    fn from(shape: InsertionShape) -> u8 {
        match shape {
            InsertionShape::AlongCurrentCut => 1,
            InsertionShape::AcrossCurrentCut => 2,
            InsertionShape::AlongThenAcross => 3,
            InsertionShape::AcrossThenAlong => 4,
        }
    }
}

impl TryFrom<u8> for InsertionShape {
    type Error = Unlisted;

    ghost try_from_gives = { λ n r. r ≡ listed_shape n };

    fn try_from(n: u8) -> Result<InsertionShape, Unlisted> {
        match n {
            1 => Ok(InsertionShape::AlongCurrentCut),
            2 => Ok(InsertionShape::AcrossCurrentCut),
            3 => Ok(InsertionShape::AlongThenAcross),
            4 => Ok(InsertionShape::AcrossThenAlong),
            _ => Err(Unlisted),
        }
    }
}

// A node to be made. Its parent is the node of that index in the same blueprint, or OUTSIDE: the free piece's own parent.
#[derive(Clone, Copy)]
pub struct InsertionNode {
    pub size: Size,
    pub parent: u8,
    pub kind: Kind,
    pub cut: Orientation,
    pub eaten: u8,
}

pub const OUTSIDE: u8 = 255;

// The nodes of one insertion in creation order; entries past the count are zero. Nothing here has a heap: an array with its count.
#[derive(Clone, Copy)]
pub struct InsertionBlueprint {
    pub nodes: [InsertionNode; 5],
    pub count: usize,
}

fn sized(width: u32, height: u32) -> Size
    ensures { result ≡ sized width height }
{
    Size { width, height }
}

fn no_node() -> InsertionNode
    ensures { result ≡ no_node }
{
    InsertionNode {
        size: sized(0, 0),
        parent: 0,
        kind: Kind::Free,
        cut: Orientation::Horizontal,
        eaten: 0,
    }
}

// A node with the sides of the tables; `own` is its cut, `cut` the free piece's.
fn node(
    cut: Orientation,
    own: Orientation,
    parent: u8,
    kind: Kind,
    size: Size,
    eaten: u8,
) -> InsertionNode
    ensures { result ≡ insertion_node_of parent own (laid_made cut (cut_from kind size.width size.height eaten)) }
{
    InsertionNode {
        size: size.laid(cut),
        parent,
        kind,
        cut: own,
        eaten,
    }
}

// The nodes that the shape makes of a free piece with this cut, for a part of this size in its rotation, where the
// blade is this wide: the four rows of document 01's table, over the sides of the table. What is cut off has something
// eaten behind it, and the free piece is what is left.
pub fn nodes(
    shape: InsertionShape,
    blade: u8,
    cut: Orientation,
    piece: Size,
    part: Size,
) -> InsertionBlueprint
    ensures { result ≡ blueprint_of shape blade cut piece part }
{
    let inner = cut.rotate();
    let whole = piece.laid(cut);
    let wanted = part.laid(cut);
    let wide = rest(whole.width, wanted.width);
    let tall = rest(whole.height, wanted.height);
    let eaten_beside = eaten_behind(blade, wide);
    let eaten_below = eaten_behind(blade, tall);
    let left_beside = rest(wide, blade as u32);
    let left_below = rest(tall, blade as u32);
    // a strip along the cut and one across it, and what is left beside and below: of the piece, and of a strip
    let along = sized(wanted.width, whole.height);
    let across = sized(whole.width, wanted.height);
    let beside = sized(left_beside, whole.height);
    let below = sized(whole.width, left_below);
    let beside_in_strip = sized(left_beside, wanted.height);
    let below_in_strip = sized(wanted.width, left_below);
    let z = no_node();
    match shape {
        InsertionShape::AlongCurrentCut => InsertionBlueprint {
            nodes: [
                node(cut, cut, OUTSIDE, Kind::Part, along, eaten_beside),
                node(cut, cut, OUTSIDE, Kind::Free, beside, 0), // beside the part
                z,
                z,
                z,
            ],
            count: 2,
        },
        InsertionShape::AcrossCurrentCut => InsertionBlueprint {
            nodes: [
                node(cut, cut, OUTSIDE, Kind::Structure, whole, 0),
                node(cut, inner, 0, Kind::Part, across, eaten_below),
                node(cut, inner, 0, Kind::Free, below, 0),
                z,
                z,
            ],
            count: 3,
        },
        InsertionShape::AlongThenAcross => InsertionBlueprint {
            nodes: [
                node(cut, cut, OUTSIDE, Kind::Structure, along, eaten_beside),
                node(cut, inner, 0, Kind::Part, wanted, eaten_below),
                node(cut, inner, 0, Kind::Free, below_in_strip, 0),
                node(cut, cut, OUTSIDE, Kind::Free, beside, 0), // beside the strip
                z,
            ],
            count: 4,
        },
        InsertionShape::AcrossThenAlong => InsertionBlueprint {
            nodes: [
                node(cut, cut, OUTSIDE, Kind::Structure, whole, 0),
                node(cut, inner, 0, Kind::Structure, across, eaten_below),
                node(cut, cut, 1, Kind::Part, wanted, eaten_beside),
                node(cut, cut, 1, Kind::Free, beside_in_strip, 0),
                node(cut, inner, 0, Kind::Free, below, 0),
            ],
            count: 5,
        },
    }
}
