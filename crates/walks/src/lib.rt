// The walks over a cut tree. What a removal takes out is found along the table's links, in a loop (document 02, request 6: "with no call inside a
// call"). Tree usage and snapshot call themselves on every child (document 01: "Tree usage and snapshot recurse alike"); to them the nodes
// are lent, and what they give is said over the columns of the table (specs/Columns.antt). It rests on `table` for the links;
// proofs/Meaning.antt says what the walks give on a tree. The part numbers along an order of places are a plain loop over it;
// proofs/Along.antt says what that gives on a tree.
#![tactic(auto)]

pub mod columns;
pub mod numbers;
pub mod order;
pub mod snapshot;
pub mod usage;
