// Booking a part in a free piece. Rust: implement_insertion_blueprint of core/entities/layout.rs, after its `InsertionOption` is looked for among
// the offers. The steps are those of crate `booking`; here are the refusals, in document 01's order, and the layout as a whole.
ghost use Rattle.std.specs.Prelude.{◌≡◌, ◌≤◌};
ghost use Rattle.layout.specs.Check.{limit, max_serial};
ghost use Rattle.layout.specs.Refusing.{outcome_of};
ghost use Rattle.layout.specs.Insert.{InsertDone, InsertSays, book_no, booking_for, refused_insert};
ghost use Rattle.layout.specs.Inner.{Insertable};

use crate::layout::Layout;
use booking::book::book;
use booking::new_marks::{NewMarks, marks_of, no_marks};
use marks::{Mark, Refusal};
use piece::insertion_blueprint::InsertionShape;
use piece::insertion_option::is_offered;
use piece::node::Datum;
use piece::parttype::PartType;
use piece::rotation::Rotation;
use sound::frame::MAX_SERIAL;
use table::LIMIT;

// The marks of the new nodes; zero, with the layout as it came, where it is refused.
#[derive(Clone, Copy)]
pub struct Inserted {
    pub outcome: Result<(), Refusal>,
    pub marks: NewMarks,
    pub layout: Layout,
}

impl Layout {
    fn refused_insert(self, refusal: Refusal) -> Inserted
        ensures { result ≡ refused_insert self refusal }
    {
        Inserted {
            outcome: Err(refusal),
            marks: no_marks(),
            layout: self,
        }
    }

    // Refusals 7, 8 and 9, of the free piece that the mark names.
    fn may_book(
        self,
        piece: Datum,
        part: PartType,
        rotation: Rotation,
        shape: InsertionShape,
    ) -> Result<(), Refusal>
        requires { (1 ≤ self.held) × (self.held ≤ limit) × (self.serial ≤ max_serial) }
        ensures { result ≡ outcome_of (book_no self piece part rotation shape) }
    {
        if !is_offered(piece, part, self.settings, rotation, shape) {
            return Err(Refusal::NotOffered);
        }
        let new = shape.new_count();
        if LIMIT < (self.held - 1 + new) as usize {
            return Err(Refusal::TooManyNodes);
        }
        if MAX_SERIAL < self.serial + new as u32 {
            return Err(Refusal::SerialsSpent);
        }
        Ok(())
    }

    // What is booked, and the marks of its nodes.
    fn booked(
        self,
        place: u16,
        part: PartType,
        rotation: Rotation,
        shape: InsertionShape,
    ) -> Inserted
        requires { Insertable self place part rotation shape }
        ensures { InsertDone self place (booking_for self place part rotation shape) result }
    {
        let size = part.size_in(rotation);
        let new = shape.new_count();
        let b = book(
            self.layout_nodes(),
            place,
            shape,
            size,
            part.number,
            self.settings.blade,
            self.serial,
        );
        let next = self.with_nodes(
            b.nodes,
            self.held - 1 + new,
            self.used + size.area(),
            self.serial + new as u32,
        );
        Inserted {
            outcome: Ok(()),
            marks: marks_of(self.number, b.new),
            layout: next,
        }
    }

    // A part is booked in the free piece that the mark names, in this rotation and shape.
    pub fn insert(
        self,
        mark: Mark,
        part: PartType,
        rotation: Rotation,
        shape: InsertionShape,
    ) -> Inserted
        ensures { InsertSays self mark part rotation shape result }
    {
        match self.free_piece(mark, part) {
            Err(refusal) => self.refused_insert(refusal),
            Ok(piece) => match self.may_book(piece, part, rotation, shape) {
                Err(refusal) => self.refused_insert(refusal),
                Ok(()) => self.booked(mark.place, part, rotation, shape),
            },
        }
    }
}
