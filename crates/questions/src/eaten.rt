// The area that the saw's blade has eaten (document 02, change request 4), added up over the places of a table.
ghost use Rattle.std.specs.Prelude.{◌≡◌, ◌<◌, ◌^◌};
ghost use Rattle.lists.specs.Lists.{limit};
ghost use Rattle.questions.specs.Eaten.{strip_of, strips_of};

use piece::node::Datum;
use piece::size::Size;
use table::{LIMIT, Node};

// The strip behind a piece: its parent's cut, which took the piece off, divided one side and left the other whole.
fn strip_of(d: Datum) -> u64
    ensures { result ≡ strip_of d }
{
    let strip = Size {
        width: d.eaten as u32,
        height: d.size.laid(d.cut).height,
    };
    strip.area()
}

// The strips of all places, where they are known to be small.
pub fn strips_of(nodes: [Node; LIMIT]) -> u64
    requires { strips_of nodes limit < 2 ^ 52 }
    ensures { result ≡ strips_of nodes limit }
{
    let mut sum: u64 = 0;
    for i in 0..LIMIT {
        sum += strip_of(nodes[i].datum);
    }
    sum
}
