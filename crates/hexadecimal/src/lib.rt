// Lower-case hexadecimal, two characters a byte, highest digit first: the letters of frames and of recorded answers. Rests on nothing.
#![tactic(auto)]

ghost use Rattle.std.specs.Prelude.{◌≡◌, ◌+◌, ◌*◌, ◌<◌};
ghost use Rattle.hexadecimal.specs.Hex.{below, digit_of, letter_of, pair_of};

#[tactic(auto, using(crate::proofs::Pairs::below_all, crate::proofs::Pairs::decimal, crate::proofs::Pairs::between, crate::proofs::Pairs::from_a, crate::proofs::Pairs::above_all))]
// The value of a digit; none, where the character is no digit.
pub fn value(letter: u8) -> Option<u8>
    ensures { result ≡ below 16 (digit_of letter) }
{
    match letter {
        b'0'..=b'9' => Some(letter - b'0'),
        b'a'..=b'f' => Some(letter - b'a' + 10),
        _ => None,
    }
}

// The byte that two characters write; none, where one of them is no digit.
pub fn byte(high: u8, low: u8) -> Option<u8>
    ensures { result ≡ below 256 (pair_of high low) }
{
    Some(value(high)? * 16 + value(low)?)
}

// The character of a digit.
pub fn letter(digit: u8) -> u8
    requires { digit < 16 }
    ensures { result ≡ letter_of digit }
{
    if digit < 10 { digit + 48 } else { digit + 87 }
}

// A field of two bytes and one of four, highest byte first.
pub fn two(a: u8, b: u8) -> u16
    ensures { result ≡ a * 256 + b }
{
    (a as u16) * 256 + b as u16
}

pub fn four(a: u8, b: u8, c: u8, d: u8) -> u32
    ensures { result ≡ (a * 256 + b) * 65536 + (c * 256 + d) }
{
    (two(a, b) as u32) * 65536 + two(c, d) as u32
}
