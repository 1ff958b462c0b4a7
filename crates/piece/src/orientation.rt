// The way of a cut. Rust: core/orientation.rs.
ghost use Rattle.std.specs.Prelude.{◌≡◌};
ghost use Rattle.piece.specs.Numbers.{cut_no, cut_of, listed_cut};
ghost use Rattle.piece.specs.Sides.{is_horizontal, other};

use crate::unlisted::Unlisted;

#[derive(Clone, Copy, PartialEq, Eq)]
pub enum Orientation {
    Horizontal,
    Vertical,
}

impl Orientation {
    pub fn rotate(self) -> Orientation
        ensures { result ≡ other self }
    {
        match self {
            Orientation::Horizontal => Orientation::Vertical,
            Orientation::Vertical => Orientation::Horizontal,
        }
    }

    pub fn is_horizontal(self) -> bool
        ensures { result ≡ is_horizontal self }
    {
        self == Orientation::Horizontal
    }

    // Its number in bytes.
    pub fn number(self) -> u8
        ensures { result ≡ cut_no self }
    {
        u8::from(self)
    }

    // The cut of a number of which it was tested that it is listed (kiosk's records); `try_from` tests it.
    pub fn of_number(n: u8) -> Orientation
        ensures { result ≡ cut_of n }
    {
        match n {
            0 => Orientation::Horizontal,
            _ => Orientation::Vertical,
        }
    }
}

impl From<Orientation> for u8 {
    ghost from_gives = { λ c n. n ≡ cut_no c };

    fn from(cut: Orientation) -> u8 {
        match cut {
            Orientation::Horizontal => 0,
            Orientation::Vertical => 1,
        }
    }
}

impl TryFrom<u8> for Orientation {
    type Error = Unlisted;

    ghost try_from_gives = { λ n r. r ≡ listed_cut n };

    fn try_from(n: u8) -> Result<Orientation, Unlisted> {
        match n {
            0 => Ok(Orientation::Horizontal),
            1 => Ok(Orientation::Vertical),
            _ => Err(Unlisted),
        }
    }
}
