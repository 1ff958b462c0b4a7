// Putting an entry into a list and taking one out.
ghost use Rattle.std.specs.Prelude.{◌≡◌, ◌≤◌, ◌<◌};
ghost use Rattle.lists.specs.Lists.{limit, put_in, swap_out, take_out};

use crate::LIMIT;

// Puts a place in at an index. What stood from there on moves up by one, the last entry first.
pub fn insert_at(list: &mut [u16; LIMIT], count: usize, at: usize, place: u16)
    requires { (at ≤ count) × (count < limit) }
    ensures { list.new ≡ put_in list.old count at place }
{
    for i in (at..count).rev() {
        list[i + 1] = list[i];
    }
    list[at] = place;
}

// Takes the entry at an index out. What follows moves down by one, and a zero comes behind it.
pub fn delete_at(list: &mut [u16; LIMIT], count: usize, at: usize)
    requires { (at < count) × (count ≤ limit) }
    ensures { list.new ≡ take_out list.old count at }
{
    for i in at + 1..count {
        list[i - 1] = list[i];
    }
    list[count - 1] = 0;
}

// Takes the entry at an index out of a list whose order is free: the final entry goes into the hole.
pub fn swap_out(list: &mut [u16; LIMIT], count: usize, at: usize)
    requires { (at < count) × (count ≤ limit) }
    ensures { list.new ≡ swap_out list.old count at }
{
    let last = count - 1;
    list[at] = list[last];
    list[last] = 0;
}
