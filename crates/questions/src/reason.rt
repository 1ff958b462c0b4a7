// What a free piece says of a part in one rotation.
ghost use Rattle.std.specs.Prelude.{◌≡◌};
ghost use Rattle.questions.specs.Reasons.{reason_in, reason_no, reason_of};

use piece::node::{Datum, fits_along};
use piece::parttype::PartType;
use piece::rotation::Rotation;
use piece::settings::Settings;

// In the order of the request.
#[derive(Clone, Copy)]
pub enum Reason {
    Forbidden,
    TooWide,
    TooTall,
    TooWideAndTall,
    StagesUsedUp,
    Offered,
}

impl From<Reason> for u8 {
    ghost from_gives = { λ reason n. n ≡ reason_no reason };

    fn from(reason: Reason) -> u8 {
        match reason {
            Reason::Forbidden => 0,
            Reason::TooWide => 1,
            Reason::TooTall => 2,
            Reason::TooWideAndTall => 3,
            Reason::StagesUsedUp => 4,
            Reason::Offered => 5,
        }
    }
}

// The reason, from whether the turn is allowed, the part too wide, too tall, an along fit, and whether the level has reached the stages.
fn reason_of(allowed: bool, wide: bool, tall: bool, along: bool, reached: bool) -> Reason
    ensures { result ≡ reason_of allowed wide tall along reached }
{
    if !allowed {
        return Reason::Forbidden;
    }
    if wide && tall {
        return Reason::TooWideAndTall;
    }
    if wide {
        return Reason::TooWide;
    }
    if tall {
        return Reason::TooTall;
    }
    if along {
        return Reason::Offered;
    }
    if reached {
        return Reason::StagesUsedUp;
    }
    Reason::Offered
}

// Why a free piece does not offer a part in this rotation, or that it does.
pub fn reason_in(piece: Datum, part: PartType, settings: Settings, rotation: Rotation) -> Reason
    ensures { result ≡ reason_in piece part settings rotation }
{
    let whole = piece.size;
    let cut = piece.cut;
    let size = part.size_in(rotation);
    let allowed = part.allows(rotation);
    let along = fits_along(cut, whole, size);
    let wide = whole.width < size.width;
    let tall = whole.height < size.height;
    let reached = settings.stages <= piece.level;
    reason_of(allowed, wide, tall, along, reached)
}
