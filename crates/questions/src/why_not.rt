// Why a free piece does not offer a part, in each rotation, on the mark of the piece. Refusals 1, 3, 4, 5, 6: "those of offers".
ghost use Rattle.std.specs.Prelude.{◌≡◌};
ghost use Rattle.questions.specs.WhyNot.{reasons_for, why_call};

use crate::reason::{Reason, reason_in};
use layout::layout::Layout;
use marks::{Mark, Refusal};
use piece::node::Datum;
use piece::parttype::PartType;
use piece::rotation::Rotation;
use piece::settings::Settings;

// A reason for each rotation.
#[derive(Clone, Copy)]
pub struct Reasons {
    pub default: Reason,
    pub rotated: Reason,
}

fn reasons_for(piece: Datum, part: PartType, settings: Settings) -> Reasons
    ensures { result ≡ reasons_for piece part settings }
{
    Reasons {
        default: reason_in(piece, part, settings, Rotation::Default),
        rotated: reason_in(piece, part, settings, Rotation::Rotated),
    }
}

// What the free piece that a mark names says of a part.
pub fn why_not(layout: Layout, mark: Mark, part: PartType) -> Result<Reasons, Refusal>
    ensures { result ≡ why_call layout mark part }
{
    let piece = layout.free_piece(mark, part)?;
    Ok(reasons_for(piece, part, layout.settings))
}
