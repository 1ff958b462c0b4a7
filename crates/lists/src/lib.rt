// Steps on lent lists of places and on columns of numbers. A list has a fixed number of entries, and a count that its owner keeps beside it;
// the entries from the count on are zero. Nothing here knows of layouts.
#![tactic(auto)]

pub mod flags;
pub mod search;
pub mod serials;
pub mod shift;

// The number of entries of a list or a column, and so of places of a table and of nodes of a layout. No other file writes it out: the crates
// above take it from here, and all contracts and proofs take `limit` from specs/Lists.antt. Change the two together; the proofs hold them equal.
pub const LIMIT: usize = 255;
