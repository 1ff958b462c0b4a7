// How a part is turned before it is cut. Rust: core/rotation.rs.
ghost use Rattle.std.specs.Prelude.{◌≡◌};
ghost use Rattle.piece.specs.Numbers.{listed_rotation, rotation_no, rotation_of};
ghost use Rattle.piece.specs.Offers.{other_way};

use crate::unlisted::Unlisted;

#[derive(Clone, Copy, PartialEq, Eq)]
pub enum Rotation {
    Default,
    Rotated,
}

impl Rotation {
    pub fn rotate(self) -> Rotation
        ensures { result ≡ other_way self }
    {
        match self {
            Rotation::Default => Rotation::Rotated,
            Rotation::Rotated => Rotation::Default,
        }
    }

    // Its number in bytes.
    pub fn number(self) -> u8
        ensures { result ≡ rotation_no self }
    {
        u8::from(self)
    }

    // The rotation of a number that is known to be listed; `try_from` tests it.
    pub fn of_number(n: u8) -> Rotation
        ensures { result ≡ rotation_of n }
    {
        match n {
            0 => Rotation::Default,
            _ => Rotation::Rotated,
        }
    }
}

impl From<Rotation> for u8 {
    ghost from_gives = { λ r n. n ≡ rotation_no r };

    fn from(rotation: Rotation) -> u8 {
        match rotation {
            Rotation::Default => 0,
            Rotation::Rotated => 1,
        }
    }
}

impl TryFrom<u8> for Rotation {
    type Error = Unlisted;

    ghost try_from_gives = { λ n r. r ≡ listed_rotation n };

    fn try_from(n: u8) -> Result<Rotation, Unlisted> {
        match n {
            0 => Ok(Rotation::Default),
            1 => Ok(Rotation::Rotated),
            _ => Err(Unlisted),
        }
    }
}
