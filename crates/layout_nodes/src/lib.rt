// What a layout registers: the table of its nodes and its two lists of places. Rust: `LayoutNodes` of core/entities/layout.rs, with its
// `empty_nodes_by_area` and `removable_nodes`. It rests on `lists` for the steps on an array, on `table` for the nodes, and on `tree` for what the
// lists hold.
#![tactic(auto)]

use crate::listing::Listing;
use table::{LIMIT, Node};

pub mod columns;
pub mod listing;
pub mod spots;

#[derive(Clone, Copy)]
pub struct LayoutNodes {
    pub nodes: [Node; LIMIT],
    pub free: Listing,
    pub removable: Listing,
}
