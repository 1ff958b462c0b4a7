// The linked table of LIMIT places that holds a cut tree. Rust: LayoutNodes of core/entities/layout.rs, with the links of core/entities/node.rs.
// It rests on `piece` for what a node is, on `tree` for what the table means and on `lists` for what a search is.
#![tactic(auto)]

pub use lists::LIMIT;
use piece::node::Datum;

pub mod nodes;
pub mod places;

// LIMIT, the number of entries of a list, is also the most nodes that a layout holds, and the number that says that there is no such place.
pub const NONE: u16 = LIMIT as u16;

// A node and its links: places, or NONE. A place is unheld where the serial is 0, and then all is 0. There is no heap for a Box; and the number NONE is
// what the kiosk's records (the C interface) and every definition over the table say for no place.
#[derive(Clone, Copy)]
pub struct Node {
    pub datum: Datum,
    pub parent: u16,
    pub first: u16,
    pub last: u16,
    pub prev: u16,
    pub next: u16,
}
