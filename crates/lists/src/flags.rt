// Which places stand in a list.
ghost use Rattle.std.specs.Prelude.{◌≡◌};
ghost use Rattle.lists.specs.Flags.{flagged};

use crate::LIMIT;
use crate::search::wide;

// A 1 for each place that the first entries name, and else a 0; nothing of a list that has more than its entries, names no place, or names one twice.
pub fn flags_of(list: &[u16; LIMIT], count: usize) -> Option<[u8; LIMIT]>
    ensures { result ≡ flagged list.now count }
{
    let mut flag = [0u8; LIMIT];
    for &place in list.get(..count)? {
        let p = wide(place);
        if LIMIT <= p || flag[p] == 1 {
            return None;
        }
        flag[p] = 1;
    }
    Some(flag)
}
