// A removal, on the nodes of a layout and its lists: a piece goes with all below it, and the free piece at the end of its row; one free piece
// comes. Rust: `remove_node` and `remove_subtree` of core/entities/layout.rs. It rests on `walks` for the way down the subtree, on `table` and
// `layout_nodes` for the steps, and on `tree` for what a removal is.
#![tactic(auto)]

pub mod going;
pub mod remove;
pub mod untidy;
