// Tree usage. Rust: `calculate_usage` of core/insertion/node_blueprint.rs.
ghost use Rattle.std.specs.Prelude.{◌≡◌, ◌<◌};
ghost use Rattle.lists.specs.Lists.{limit};
ghost use Rattle.table.specs.Columns.{areas_of};
ghost use Rattle.walks.specs.Columns.{usage_in};
ghost use Rattle.walks.specs.Inner.{Small};

use piece::node::Kind;
use table::{LIMIT, NONE, Node};

// The usage of the subtree of x: 0 for a free piece, 1 for a part, else its children's area times usage added in order from 0, divided by its own
// area. `left` is as in `put_subtree`.
pub fn usage_of(nodes: &[Node; LIMIT], x: u16, left: usize) -> f64
    requires { (x < limit) × Small (areas_of nodes.now) }
    ensures { result ≡ usage_in limit nodes.now left x }
{
    if left == 0 {
        return 0.0;
    }
    let own = nodes[x as usize];
    match own.datum.kind {
        Kind::Free => 0.0,
        Kind::Part => 1.0,
        Kind::Structure => {
            let mut sum = 0.0;
            let mut c = own.first;
            for _turn in 1..left {
                if NONE <= c {
                    break;
                }
                let child = nodes[c as usize];
                let u = usage_of(nodes, c, left - 1);
                sum = sum + child.datum.size.area() as f64 * u;
                c = child.next;
            }
            sum / own.datum.size.area() as f64
        }
    }
}
