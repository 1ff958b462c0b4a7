// The nodes and the lists of a layout, as the steps of a booking and a removal take them; and a layout with others. Rust: the field `nodes` of Layout.
ghost use Rattle.std.specs.Prelude.{◌≡◌, ◌≤◌};
ghost use Rattle.lists.specs.Lists.{limit};
ghost use Rattle.layout.specs.Parts.{nodes_of, with_nodes};

use crate::layout::Layout;
use layout_nodes::LayoutNodes;
use layout_nodes::listing::Listing;

impl Layout {
    pub(crate) fn layout_nodes(self) -> LayoutNodes
        ensures { result ≡ nodes_of self }
    {
        let nodes = self.nodes;
        let list = self.free;
        let free = Listing {
            list,
            count: self.frees as usize,
        };
        let list = self.removable;
        let removable = Listing {
            list,
            count: self.removables as usize,
        };
        LayoutNodes {
            nodes,
            free,
            removable,
        }
    }

    pub(crate) fn with_nodes(self, n: LayoutNodes, held: u16, used: u64, last: u32) -> Layout
        requires { (n.free.count ≤ limit) × (n.removable.count ≤ limit) }
        ensures { result ≡ with_nodes self n held used last }
    {
        let nodes = n.nodes;
        let frees = n.free;
        let free = frees.list;
        let removables = n.removable;
        let removable = removables.list;
        let settings = self.settings;
        Layout {
            nodes,
            free,
            removable,
            held,
            frees: frees.count as u16,
            removables: removables.count as u16,
            used,
            serial: last,
            number: self.number,
            settings,
        }
    }
}
