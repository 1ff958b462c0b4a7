// Taking a part or a structure out. Rust: remove_node of core/entities/layout.rs. The steps are those of crate `removal`; here are the refusals, in
// document 01's order, and the layout as a whole.
ghost use Rattle.std.specs.Prelude.{◌≡◌, length, ◌≤◌};
ghost use Rattle.layout.specs.Refusing.{outcome_of};
ghost use Rattle.layout.specs.Remove.{RemoveDone, RemoveSays, go_no, numbers_left, numbers_out, out_after, refused_remove, remove_is, room_no};
ghost use Rattle.layout.specs.Inner.{Leaving, Takeable};

use crate::layout::Layout;
use marks::{Mark, Refusal};
use piece::node::Datum;
use removal::going::{Going, going_with};
use removal::remove::{area_along, remove};
use sound::frame::MAX_SERIAL;
use walks::numbers::{count_numbers, put_numbers};

// The mark of the new free piece, and how many part numbers came out; zero, with the layout as it came, where it is refused.
#[derive(Clone, Copy)]
pub struct Removed {
    pub outcome: Result<(), Refusal>,
    pub free: Mark,
    pub count: u16,
    pub layout: Layout,
}

impl Layout {
    fn refused_remove(self, refusal: Refusal) -> Removed
        ensures { result ≡ refused_remove self refusal }
    {
        Removed {
            outcome: Err(refusal),
            free: Mark::zero(),
            count: 0,
            layout: self,
        }
    }

    // Refusals 10, 11 and 9, of the piece that the mark names.
    fn may_go(self, place: u16, piece: Datum) -> Result<(), Refusal>
        ensures { result ≡ outcome_of (go_no self place piece) }
    {
        if place == 0 {
            return Err(Refusal::TheTop);
        }
        if piece.kind.is_free() {
            return Err(Refusal::FreePiece);
        }
        if MAX_SERIAL <= self.serial {
            return Err(Refusal::SerialsSpent);
        }
        Ok(())
    }
    // The nodes and the lists without what goes, and the mark of the new free piece.
    fn without(self, place: u16, g: Going, count: usize) -> Removed
        requires { Takeable self place × Leaving self place g × (count ≡ length (numbers_out self place)) }
        ensures { RemoveDone self place result }
    {
        let c = remove(self.layout_nodes(), g, place, self.serial);
        let last = self.serial + 1;
        let next = self.with_nodes(
            c.nodes,
            self.held + 1 - g.count as u16,
            self.used - area_along(&self.nodes, g),
            last,
        );
        Removed {
            outcome: Ok(()),
            free: Mark {
                layout: self.number,
                place: c.place,
                serial: last,
            },
            count: count as u16,
            layout: next,
        }
    }

    // The piece at the place goes, if the buffer has room for the part numbers: refusal 13.
    fn taken_out(self, place: u16, out: &mut [u16]) -> Removed
        requires { Takeable self place }
        ensures says { remove_is (room_no self place (length out.old)) self place result }
        ensures written { out.new
            ≡ out_after (room_no self place (length out.old)) (numbers_out self place) out.old }
    {
        let g = going_with(&self.nodes, place, self.held as usize);
        let order = g.order;
        let count = count_numbers(&self.nodes, &order, g.count);
        if out.len() < count {
            return self.refused_remove(Refusal::BufferTooShort);
        }
        put_numbers(&self.nodes, &order, g.count, out);
        self.without(place, g, count)
    }

    // The part or structure that the mark names goes, with all below it; its part numbers come out into the buffer.
    pub fn remove(self, mark: Mark, out: &mut [u16]) -> Removed
        ensures says { RemoveSays self mark (length out.old) result }
        ensures written { out.new ≡ numbers_left self mark out.old }
    {
        if !self.sound() {
            return self.refused_remove(Refusal::NotSound);
        }
        match self.sought(mark) {
            Err(refusal) => self.refused_remove(refusal),
            Ok(piece) => match self.may_go(mark.place, piece) {
                Err(refusal) => self.refused_remove(refusal),
                Ok(()) => self.taken_out(mark.place, out),
            },
        }
    }
}
