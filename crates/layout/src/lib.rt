// A layout: one stock sheet and its pieces (document 01), its soundness check and the calls that change it. Every call takes it by value, examines it
// first, and answers on every input; those that only read it are the crate `questions`. Files are named after the Rust's where they match: layout.rt
// (core/entities/layout.rs) has the record, assertions.rt (util/assertions.rs) the soundness check. It rests on `sound`, `lists` and `walks`, which
// know the table, the lists and the columns, and on `tree` for what the words mean.
#![tactic(auto)]

pub mod asked;
pub mod assertions;
pub mod insert;
pub mod layout;
pub mod open;
pub mod parts;
pub mod remove;
pub mod restore;
pub mod tidy;
