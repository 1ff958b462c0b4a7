// A part that a customer asks for. Rust: core/entities/parttype.rs.
ghost use Rattle.std.specs.Prelude.{◌≡◌};
ghost use Rattle.piece.specs.Numbers.{turn_of};
ghost use Rattle.piece.specs.Offers.{allowed, turned};

use crate::rotation::Rotation;
use crate::size::Size;

// The rotation that the number of a part's turn fixes: 0 none, 1 Default, 2 Rotated.
pub fn fixed_rotation_of(turn: u8) -> Option<Rotation>
    ensures { result ≡ turn_of turn }
{
    match turn {
        0 => None,
        1 => Some(Rotation::Default),
        _ => Some(Rotation::Rotated),
    }
}

// A part whose rotation is not fixed may be cut in either.
#[derive(Clone, Copy)]
pub struct PartType {
    pub number: u16,
    pub size: Size,
    pub fixed_rotation: Option<Rotation>,
}

impl PartType {
    // Whether the part may be cut in this rotation.
    pub fn allows(self, rotation: Rotation) -> bool
        ensures { result ≡ allowed self.fixed_rotation rotation }
    {
        match self.fixed_rotation {
            None => true,
            Some(fixed) => fixed == rotation,
        }
    }

    // Its sides in this rotation.
    pub fn size_in(self, rotation: Rotation) -> Size
        ensures { result ≡ turned rotation self.size }
    {
        match rotation {
            Rotation::Default => self.size,
            Rotation::Rotated => self.size.exchanged(),
        }
    }
}
