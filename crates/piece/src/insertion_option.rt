// The offers of a free piece for a part, and whether a rotation and a shape are among them. Rust: core/insertion/insertion_option.rs, with the shapes of core/entities/node.rs.
ghost use Rattle.std.specs.Prelude.{◌≡◌, ◌<◌, ◌≤◌};
ghost use Rattle.piece.specs.Offered.{offered_b};
ghost use Rattle.piece.specs.Offers.{as_offer_list, in_rotation, no_offers, offer, offers_in, offers_of, shapes, with_offer, with_offers};

use crate::insertion_blueprint::InsertionShape;
use crate::node::{Datum, fits_across, fits_along, insertion_possible};
use crate::parttype::PartType;
use crate::rotation::Rotation;
use crate::settings::Settings;

#[derive(Clone, Copy, PartialEq, Eq)]
pub struct Offer {
    pub rotation: Rotation,
    pub shape: InsertionShape,
}

// At most two shapes in each of two rotations; entries past the count are zero. Nothing here has a heap: an array with its count.
#[derive(Clone, Copy)]
pub struct OfferList {
    pub list: [Offer; 4],
    pub count: usize,
}

impl OfferList {
    pub fn none() -> OfferList
        ensures { result ≡ no_offers }
    {
        let z = Offer {
            rotation: Rotation::Default,
            shape: InsertionShape::AlongCurrentCut,
        };
        OfferList {
            list: [z; 4],
            count: 0,
        }
    }

    fn with(mut self, rotation: Rotation, shape: InsertionShape) -> OfferList
        requires { self.count < 4 }
        ensures { result ≡ with_offer self (offer rotation shape) }
    {
        self.list[self.count] = Offer { rotation, shape };
        self.count += 1;
        self
    }

    // The shapes of one rotation that fits: first match wins.
    fn with_shapes(
        self,
        rotation: Rotation,
        along: bool,
        across: bool,
        level: u8,
        stages: u8,
    ) -> OfferList
        requires { self.count ≤ 2 }
        ensures { result ≡ with_offers self (in_rotation rotation (shapes along across level stages)) }
    {
        if along {
            return self.with(rotation, InsertionShape::AlongCurrentCut);
        }
        if stages <= level {
            return self;
        }
        if across {
            return self.with(rotation, InsertionShape::AcrossCurrentCut);
        }
        let one = self.with(rotation, InsertionShape::AlongThenAcross);
        if stages - level <= 1 {
            return one;
        }
        one.with(rotation, InsertionShape::AcrossThenAlong)
    }

    // The offers of one rotation, after those that are held.
    fn with_rotation(
        self,
        piece: Datum,
        part: PartType,
        settings: Settings,
        rotation: Rotation,
    ) -> OfferList
        requires { self.count ≤ 2 }
        ensures { result ≡ with_offers self (offers_in piece part settings rotation) }
    {
        let size = part.size_in(rotation);
        if !part.allows(rotation) || !insertion_possible(piece.size, size) {
            return self;
        }
        let along = fits_along(piece.cut, piece.size, size);
        let across = fits_across(piece.cut, piece.size, size);
        self.with_shapes(rotation, along, across, piece.level, settings.stages)
    }
}

// What a free piece offers for a part, Default before Rotated.
pub fn offers(piece: Datum, part: PartType, settings: Settings) -> OfferList
    ensures { result ≡ as_offer_list (offers_of piece part settings) }
{
    let first = OfferList::none().with_rotation(piece, part, settings, Rotation::Default);
    first.with_rotation(piece, part, settings, Rotation::Rotated)
}

// The free piece offers the part in this rotation and shape.
#[tactic(auto, using(crate::proofs::Offered::counted))]
pub fn is_offered(
    piece: Datum,
    part: PartType,
    settings: Settings,
    rotation: Rotation,
    shape: InsertionShape,
) -> bool
    ensures { result ≡ offered_b piece part settings rotation shape }
{
    let offers = offers(piece, part, settings);
    offers.list[..offers.count].contains(&Offer { rotation, shape })
}
