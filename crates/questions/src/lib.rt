// The questions asked of a layout, the calls that only read it: figures, the marks of the two lists, the room light (change request 1), offers, why
// not (change request 2), the tree snapshot and the part numbers held. Each takes the layout by value, examines it first (refusal 1), and answers on
// every input. Rests on `layout`, which has the record and the check, on `piece` for the rules of offers, and on `walks` for what is found along
// a table's nodes. That a reason says `Offered` exactly where there is an offer is proved in proofs/Exactly.antt.
#![tactic(auto)]

mod eaten;
pub mod figures;
pub mod positions;
pub mod reason;
pub mod room;
pub mod why_not;
pub mod written;
