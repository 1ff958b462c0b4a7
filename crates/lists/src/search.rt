// Searches in a list.
ghost use Rattle.std.specs.Prelude.{◌≡◌, ◌≤◌};
ghost use Rattle.lists.specs.Lists.{limit};
ghost use Rattle.lists.specs.Search.{index_of, zero_tail};

use crate::LIMIT;

// A place as an index.
pub fn wide(place: u16) -> usize
    ensures { result ≡ place }
{
    place as usize
}

// The first index below the count at which the place stands, or the count.
pub fn index_of(list: &[u16; LIMIT], count: usize, place: u16) -> usize
    requires { count ≤ limit }
    ensures { result ≡ index_of list.now count place }
{
    for i in 0..count {
        if list[i] == place {
            return i;
        }
    }
    count
}

// Every entry from the count on is 0.
pub fn zero_tail(list: &[u16; LIMIT], count: usize) -> bool
    ensures { result ≡ zero_tail limit list.now count }
{
    for i in count..LIMIT {
        if list[i] != 0 {
            return false;
        }
    }
    true
}
