// One cut of the list, and its bytes.
ghost use Rattle.std.specs.Prelude.{◌≡◌, [], ◌+◌, ◌≤◌, length};
ghost use Rattle.std.proofs.lemmas.List.Edits.{sets};
ghost use Rattle.saw.specs.Listed.{entry_bytes};

use piece::orientation::Orientation;
use walks::snapshot::{put_four, put_two};

// The bytes of a cut; and those of an entry of the list as the routines write it, which ends with what the cut loses.
pub const BYTES: usize = 9;

pub const ENTRY: usize = 10;

// The piece of the pile at `place` is cut at `distance` from its left edge (Vertical) or its upper one (Horizontal). `piece` is the kind of what is cut
// off and `remainder` of what is left, right of the cut or below it, as in snapshots; 3 is several siblings. `eaten` is what the blade eats behind
// the piece that is cut off.
#[derive(Clone, Copy)]
pub struct Cut {
    pub place: u16,
    pub way: Orientation,
    pub distance: u32,
    pub piece: u8,
    pub remainder: u8,
    pub eaten: u8,
}

pub fn put_cut(cut: Cut, out: &mut [u8], at: usize)
    requires { at + 10 ≤ length out.old }
    ensures { out.new ≡ sets out.old at (entry_bytes cut []) }
{
    let way = cut.way;
    put_two(cut.place, out, at);
    out[at + 2] = way.number();
    put_four(cut.distance, out, at + 3);
    out[at + 7] = cut.piece;
    out[at + 8] = cut.remainder;
    out[at + 9] = cut.eaten;
}
