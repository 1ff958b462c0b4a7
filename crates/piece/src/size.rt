// A width and a height, in units of the sheet. Rust: core/size.rs.
ghost use Rattle.std.specs.Prelude.{◌≡◌, ◌-◌};
ghost use Rattle.piece.specs.Insertion.{eaten_behind};
ghost use Rattle.piece.specs.Sides.{area, exchanged, laid};

use crate::orientation::Orientation;

#[derive(Clone, Copy, PartialEq, Eq)]
pub struct Size {
    pub width: u32,
    pub height: u32,
}

impl Size {
    // A product of two u32 always fits a u64; in the domain it stays below 2^52.
    pub fn area(self) -> u64
        ensures { result ≡ area self }
    {
        (self.width as u64) * (self.height as u64)
    }

    pub fn exchanged(self) -> Size
        ensures { result ≡ exchanged self }
    {
        Size {
            width: self.height,
            height: self.width,
        }
    }

    // As the tables of document 01 write it: they are for a Horizontal cut, and for Vertical the two axes are exchanged.
    pub fn laid(self, cut: Orientation) -> Size
        ensures { result ≡ laid cut self }
    {
        match cut {
            Orientation::Horizontal => self,
            Orientation::Vertical => self.exchanged(),
        }
    }
}

// What is left of a side, 0 where nothing is.
pub fn rest(whole: u32, taken: u32) -> u32
    ensures { result ≡ whole - taken }
{
    if taken <= whole { whole - taken } else { 0 }
}

// How much a blade of this width eats of a remainder: all of it, if that is less.
pub fn eaten_behind(blade: u8, remainder: u32) -> u8
    ensures { result ≡ eaten_behind blade remainder }
{
    let width = blade as u32;
    if remainder < width {
        remainder as u8
    } else {
        blade
    }
}
