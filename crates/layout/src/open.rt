// The opening. Rust: Layout::new and LayoutNodes::new of core/entities/layout.rs, Node::new of core/entities/node.rs. Document 01, "Open".
ghost use Rattle.std.specs.Prelude.{◌≡◌};
ghost use Rattle.layout.specs.Zero.{zero_layout};
ghost use Rattle.layout.specs.Open.{fresh_layout, fresh_nodes, open_of};

use crate::layout::Layout;
use marks::{Mark, Refusal};
use piece::node::{Datum, Kind};
use piece::orientation::Orientation;
use piece::settings::{Opening, Settings};
use piece::size::Size;
use sound::frame::domain_ok;
use table::nodes::empty_table;
use table::{LIMIT, NONE, Node};

// The mark of the free piece, or why there is none; with the layout of zeros where it is refused.
#[derive(Clone, Copy)]
pub struct Opened {
    pub outcome: Result<Mark, Refusal>,
    pub layout: Layout,
}

// The table with the top at place 0 and its only child, the free piece, at place 1.
fn fresh_nodes(opening: Opening) -> [Node; LIMIT]
    ensures { result ≡ fresh_nodes opening }
{
    let size = opening.settings.sheet;
    let cut = opening.cut;
    let other = cut.rotate();
    let mut nodes = empty_table();
    nodes[0] = Node {
        datum: Datum {
            serial: 1,
            size,
            number: 0,
            level: 0,
            kind: Kind::Structure,
            cut,
            eaten: 0,
        },
        parent: NONE,
        first: 1,
        last: 1,
        prev: NONE,
        next: NONE,
    };
    nodes[1] = Node {
        datum: Datum {
            serial: 2,
            size,
            number: 0,
            level: 1,
            kind: Kind::Free,
            cut: other,
            eaten: 0,
        },
        parent: 0,
        first: NONE,
        last: NONE,
        prev: NONE,
        next: NONE,
    };
    nodes
}

impl Layout {
    // All zero: what a refused opening hands back.
    pub fn zero() -> Layout
        ensures { result ≡ zero_layout }
    {
        Layout {
            nodes: empty_table(),
            free: [0u16; LIMIT],
            removable: [0u16; LIMIT],
            held: 0,
            frees: 0,
            removables: 0,
            used: 0,
            serial: 0,
            number: 0,
            settings: Settings {
                stages: 0,
                blade: 0,
                sheet: Size {
                    width: 0,
                    height: 0,
                },
            },
        }
    }

    // The layout as it opens. The free list holds place 1, and the removable list the top, which is at place 0.
    fn fresh(opening: Opening) -> Layout
        ensures { result ≡ fresh_layout opening }
    {
        let settings = opening.settings;
        let nodes = fresh_nodes(opening);
        let mut free = [0u16; LIMIT];
        free[0] = 1;
        Layout {
            nodes,
            free,
            removable: [0u16; LIMIT],
            held: 2,
            frees: 1,
            removables: 1,
            used: 0,
            serial: 2,
            number: opening.number,
            settings,
        }
    }

    // A layout with one free piece of the sheet's size, or refusal 2.
    pub fn open(opening: Opening) -> Opened
        ensures { result ≡ open_of opening }
    {
        if !domain_ok(opening.settings) {
            let layout = Layout::zero();
            return Opened {
                outcome: Err(Refusal::OpeningOutside),
                layout,
            };
        }
        let layout = Layout::fresh(opening);
        Opened {
            outcome: Ok(Mark {
                layout: opening.number,
                place: 1,
                serial: 2,
            }),
            layout,
        }
    }
}
