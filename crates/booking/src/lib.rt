// A booking, on the nodes of a layout and its lists: the free piece goes, and the nodes of a blueprint come. Rust: `implement_insertion_blueprint`
// and `insert_child` of core/entities/layout.rs. It rests on `piece` for the blueprint, on `table` and `layout_nodes` for the steps,
// on `marks` for marks, and on `tree` for what a booking is.
#![tactic(auto)]

pub mod book;
pub mod columns;
pub mod new_marks;
pub mod new_nodes;
