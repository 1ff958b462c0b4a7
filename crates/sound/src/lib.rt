// The soundness check of document 01, "Sound layout", clause by clause: each function here is a test of the table or of a list and answers
// for every record, sound or not. It rests on `piece`, `tree` and `table` for what the words mean.
#![tactic(auto)]

pub mod census;
pub mod columns;
pub mod frame;
pub mod listed;
pub mod places;
pub mod rows;
