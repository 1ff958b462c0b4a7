// The counter's frames (document 01, "Counter frames"): reading a line into what it asks, writing an answer as a line.
// Rests on hexadecimal (digits), piece (parts, sizes, shapes) and answers (marks, refusals).
#![tactic(auto)]

use marks::Mark;
use piece::insertion_blueprint::InsertionShape;
use piece::parttype::PartType;
use piece::rotation::Rotation;
use piece::settings::Opening;

pub mod ops;
pub mod read;
pub mod write;

// What a line asks of the layout. A mark's place is one byte in a frame.
#[derive(Clone, Copy)]
pub enum Ask {
    Open {
        opening: Opening,
    },
    Offers {
        mark: Mark,
        part: PartType,
    },
    Insert {
        mark: Mark,
        part: PartType,
        rotation: Rotation,
        shape: InsertionShape,
    },
    Remove {
        mark: Mark,
    },
    Report,
}

// What a line asks: something of the layout, to keep the layout, or to restore the one that is kept; or it is malformed.
#[derive(Clone, Copy)]
pub enum Request {
    OfLayout(Ask),
    Keep,
    Restore,
    Malformed,
}
