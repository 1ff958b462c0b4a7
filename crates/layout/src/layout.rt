// The record. Rust: Layout and LayoutNodes of core/entities/layout.rs.
use piece::settings::Settings;
use table::{LIMIT, Node};

#[derive(Clone, Copy)]
pub struct Layout {
    // The table of places; an unheld place is all zero.
    pub nodes: [Node; LIMIT],
    // The places of the free pieces, greatest area first, equal areas by rising serial; and of the parts and structures. Tails are zero.
    pub free: [u16; LIMIT],
    pub removable: [u16; LIMIT],
    // How many nodes are held, and how many entries the two lists have.
    pub held: u16,
    pub frees: u16,
    pub removables: u16,
    // The area of the parts, and the last serial issued.
    pub used: u64,
    pub serial: u32,
    // The layout's number, and what it was set to at its opening: its stages and its sheet.
    pub number: u16,
    pub settings: Settings,
}
