// The list of saw cuts (document 02, change requests 3 and 4): from a layout, the cuts that make its parts and free pieces of the sheet, 9 bytes each, and
// beside them what the blade eats with each. Rests on `layout` for the record and the check, and on `walks` for how bytes are written. The
// routine goes down the tree over lent nodes, as the other walks do. proofs/Layouts.antt has the law: a simple saw that runs the list on the full
// sheet ends with exactly these pieces. It rests on proofs/Sawn.antt and Truly.antt, which say it of trees, and that what the list says of kinds is
// true. proofs/BeforeEmpty.antt says before which offcuts of area 0 there is a cut, and proofs/OneList.antt why the amounts stand beside the list.
#![tactic(auto)]

pub mod columns;
pub mod cut;
pub mod cuts;
pub mod routines;
