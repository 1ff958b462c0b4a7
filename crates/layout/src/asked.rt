// What a call is asked about: the part, the piece that a mark names, and the head that the calls on a free piece share: `insert`, and of crate
// `questions` the offers and why not. `sought` is asked behind the check, inside this crate.
ghost use Rattle.std.specs.Prelude.{◌≡◌};
ghost use Rattle.layout.specs.Asked.{free_piece_of, part_b, sought_of};

use crate::layout::Layout;
use marks::{Mark, Refusal};
use piece::node::Datum;
use piece::parttype::PartType;
use sound::frame::side_ok;
use table::NONE;

// Whether the part's sides are in the domain.
pub fn part_ok(part: PartType) -> bool
    ensures { result ≡ part_b part }
{
    let size = part.size;
    side_ok(size.width) && side_ok(size.height)
}

impl Layout {
    // What a mark names: refusals 4 and 5.
    pub(crate) fn sought(self, mark: Mark) -> Result<Datum, Refusal>
        ensures { result ≡ sought_of self mark }
    {
        if mark.layout != self.number {
            return Err(Refusal::OtherLayout);
        }
        let place = mark.place;
        if NONE <= place {
            return Err(Refusal::Gone);
        }
        let d = self.nodes[place as usize].datum;
        if d.serial == 0 || d.serial != mark.serial {
            return Err(Refusal::Gone);
        }
        Ok(d)
    }

    // The free piece that a mark names, for a part: refusals 1, 3, 4, 5 and 6.
    pub fn free_piece(self, mark: Mark, part: PartType) -> Result<Datum, Refusal>
        ensures { result ≡ free_piece_of self mark part }
    {
        self.examined()?;
        if !part_ok(part) {
            return Err(Refusal::PartOutside);
        }
        let piece = self.sought(mark)?;
        if !piece.kind.is_free() {
            return Err(Refusal::NotFree);
        }
        Ok(piece)
    }
}
