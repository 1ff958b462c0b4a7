// A piece of the sheet, apart from where it stands, and what can be cut from a free one. Rust: core/entities/node.rs.
ghost use Rattle.std.specs.Prelude.{◌≡◌, Bool};
ghost use Rattle.piece.specs.Kinds.{is_free, is_part, is_structure};
ghost use Rattle.piece.specs.Numbers.{kind_no, kind_of, listed_kind};
ghost use Rattle.piece.specs.Offers.{fits, along, across};

use crate::orientation::Orientation;
use crate::size::Size;
use crate::unlisted::Unlisted;

// A free piece, a part, or a structure, which has children.
#[derive(Clone, Copy, PartialEq, Eq)]
pub enum Kind {
    Free,
    Part,
    Structure,
}

impl Kind {
    pub fn is_free(self) -> bool
        ensures { result ≡ is_free self }
    {
        self == Kind::Free
    }

    pub fn is_part(self) -> bool
        ensures { result ≡ is_part self }
    {
        self == Kind::Part
    }

    pub fn is_structure(self) -> bool
        ensures { result ≡ is_structure self }
    {
        self == Kind::Structure
    }

    // Its number in bytes.
    pub fn number(self) -> u8
        ensures { result ≡ kind_no self }
    {
        u8::from(self)
    }

    // The kind of a number of which it was tested that it is listed (kiosk's records); `try_from` tests it.
    pub fn of_number(n: u8) -> Kind
        ensures { result ≡ kind_of n }
    {
        match n {
            0 => Kind::Free,
            1 => Kind::Part,
            _ => Kind::Structure,
        }
    }
}

impl From<Kind> for u8 {
    ghost from_gives = { λ k n. n ≡ kind_no k };

    fn from(kind: Kind) -> u8 {
        match kind {
            Kind::Free => 0,
            Kind::Part => 1,
            Kind::Structure => 2,
        }
    }
}

impl TryFrom<u8> for Kind {
    type Error = Unlisted;

    ghost try_from_gives = { λ n r. r ≡ listed_kind n };

    fn try_from(n: u8) -> Result<Kind, Unlisted> {
        match n {
            0 => Ok(Kind::Free),
            1 => Ok(Kind::Part),
            2 => Ok(Kind::Structure),
            _ => Err(Unlisted),
        }
    }
}

// What a piece is. The serial is that of its mark; the number is a part's, and 0 otherwise; `eaten` is how much the saw's blade ate behind the piece
// when it was cut off.
#[derive(Clone, Copy)]
pub struct Datum {
    pub serial: u32,
    pub size: Size,
    pub number: u16,
    pub level: u8,
    pub kind: Kind,
    pub cut: Orientation,
    pub eaten: u8,
}

// Whether a part of this size fits within a piece of that.
pub fn insertion_possible(piece: Size, part: Size) -> bool
    ensures { result ≡ fits piece part }
{
    part.width <= piece.width && part.height <= piece.height
}

pub fn fits_along(cut: Orientation, piece: Size, part: Size) -> bool
    ensures { result ≡ along cut piece part }
{
    piece.laid(cut).height == part.laid(cut).height
}

pub fn fits_across(cut: Orientation, piece: Size, part: Size) -> bool
    ensures { result ≡ across cut piece part }
{
    piece.laid(cut).width == part.laid(cut).width
}
