// What names a piece, and what a call says no with (document 01, "Marks" and "What a call says no with"). Rests on nothing.
#![tactic(auto)]

ghost use Rattle.std.specs.Prelude.{◌≡◌};
ghost use Rattle.marks.specs.Marks.{zero_mark};
ghost use Rattle.marks.specs.Refusals.{refusal_no};

// The mark of a piece: its layout's number, its place and its serial.
#[derive(Clone, Copy, PartialEq, Eq)]
pub struct Mark {
    pub layout: u16,
    pub place: u16,
    pub serial: u32,
}

impl Mark {
    // What stands where there is no mark.
    pub fn zero() -> Mark
        ensures { result ≡ zero_mark }
    {
        Mark {
            layout: 0,
            place: 0,
            serial: 0,
        }
    }
}

// In the order of document 01's table, which is the order in which they are tested.
#[derive(Clone, Copy, PartialEq, Eq)]
pub enum Refusal {
    NotSound,
    OpeningOutside,
    PartOutside,
    OtherLayout,
    Gone,
    NotFree,
    NotOffered,
    TheTop,
    FreePiece,
    TooManyNodes,
    SerialsSpent,
    PastTheEnd,
    BufferTooShort,
    Malformed,
}

impl Refusal {
    pub fn number(self) -> u8
        ensures { result ≡ refusal_no self }
    {
        u8::from(self)
    }
}

impl From<Refusal> for u8 {
    ghost from_gives = { λ r n. n ≡ refusal_no r };

    fn from(refusal: Refusal) -> u8 {
        match refusal {
            Refusal::NotSound => 1,
            Refusal::OpeningOutside => 2,
            Refusal::PartOutside => 3,
            Refusal::OtherLayout => 4,
            Refusal::Gone => 5,
            Refusal::NotFree => 6,
            Refusal::NotOffered => 7,
            Refusal::TheTop => 10,
            Refusal::FreePiece => 11,
            Refusal::TooManyNodes => 8,
            Refusal::SerialsSpent => 9,
            Refusal::PastTheEnd => 12,
            Refusal::BufferTooShort => 13,
            Refusal::Malformed => 14,
        }
    }
}
