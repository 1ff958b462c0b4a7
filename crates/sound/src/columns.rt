// The steps over lent columns of numbers, for a caller who holds columns and no nodes. They are kept because they were public and may not ask
// more of their callers; the calls of this repository lend nodes.
ghost use Rattle.std.specs.Prelude.{◌≡◌, ◌<◌, ◌^◌};
ghost use Rattle.lists.specs.Lists.{limit};
ghost use Rattle.sound.specs.Listed.{area_listed};

use table::LIMIT;

// The area of the free pieces, where it is known to be small.
pub fn free_sum(kind: &[u8; LIMIT], area: &[u64; LIMIT]) -> u64
    requires { area_listed 0 kind.now area.now limit < 2 ^ 52 }
    ensures { result ≡ area_listed 0 kind.now area.now limit }
{
    let mut sum: u64 = 0;
    for i in 0..LIMIT {
        if kind[i] == 0 {
            sum += area[i];
        }
    }
    sum
}
