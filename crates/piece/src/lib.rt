// The rules that speak of one free piece and one part (document 01, "Offers" and "Insertion"): the lowest layer.
// Each file is named after the Rust's. It rests on nothing but its own specs/.
#![tactic(auto)]

pub mod insertion_blueprint;
pub mod insertion_option;
pub mod node;
pub mod orientation;
pub mod parttype;
pub mod rotation;
pub mod settings;
pub mod size;
pub mod unlisted;
