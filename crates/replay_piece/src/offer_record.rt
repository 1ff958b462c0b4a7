// A record of offers: 20 bytes that ask and 9 that answer.
use hexadecimal::four;
use piece::insertion_option::{Offer, OfferList, offers};
use piece::node::{Datum, Kind};
use piece::orientation::Orientation;
use piece::parttype::{PartType, fixed_rotation_of};
use piece::settings::Settings;
use piece::size::Size;

// What our offers call answers to the record's question. The sheet is the piece itself: no offer goes by the sheet.
fn asked(b: [u8; 74]) -> OfferList {
    let size = Size {
        width: four(b[4], b[5], b[6], b[7]),
        height: four(b[8], b[9], b[10], b[11]),
    };
    let piece = Datum {
        serial: 0,
        size,
        number: 0,
        level: b[0],
        kind: Kind::Free,
        cut: Orientation::of_number(b[2]),
        eaten: 0,
    };
    let part = PartType {
        number: 0,
        size: Size {
            width: four(b[12], b[13], b[14], b[15]),
            height: four(b[16], b[17], b[18], b[19]),
        },
        fixed_rotation: fixed_rotation_of(b[3]),
    };
    let settings = Settings {
        stages: b[1],
        blade: 0,
        sheet: size,
    };
    offers(piece, part, settings)
}

// Whether an entry is what the two recorded bytes say; past the count they are zero.
fn same_entry(offer: Offer, within: bool, rotation: u8, shape: u8) -> bool {
    if within {
        offer.rotation.number() == rotation && offer.shape.number() == shape
    } else {
        rotation == 0 && shape == 0
    }
}

// Whether our answer is the recorded one.
pub fn agrees(b: [u8; 74]) -> bool {
    let ours = asked(b);
    if ours.count != b[20] as usize {
        return false;
    }
    for k in 0..4 {
        if !same_entry(ours.list[k], k < ours.count, b[21 + 2 * k], b[22 + 2 * k]) {
            return false;
        }
    }
    true
}
