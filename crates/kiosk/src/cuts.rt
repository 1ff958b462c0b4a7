// The list of saw cuts for programs in C and Rust (document 02, change request 3): of a session that is lent, into bytes that are lent. Rests on
// records.rt for the layout and on `saw` for the list.
ghost use Rattle.kiosk.specs.Cuts.{Handed};

use crate::records::{LayoutRecord, SessionRecord, layout_of};
use saw::cuts::{ROOM, cuts};

// What is said where there is no list: refusal 1, the layout isn't sound. No list has so many bytes.
const NO_LIST: u16 = 65535;

// The bytes that were lent, the list first in them, and how many bytes it has.
#[repr(C)]
#[derive(Drop)]
pub struct CutsRecord {
    pub list: [u8; ROOM],
    pub count: u16,
}

// The list by value, over the first of these bytes.
fn handed(given: LayoutRecord, mut list: [u8; ROOM]) -> CutsRecord
    ensures { Handed given list result.list result.count }
{
    let layout = layout_of(given);
    match cuts(layout, &mut list) {
        Ok(count) => CutsRecord { list, count },
        Err(_) => CutsRecord {
            list,
            count: NO_LIST,
        },
    }
}

// The list of saw cuts of a lent session's layout: how many of the first bytes of `list` it has, 9 to a cut, or 65,535 where the layout isn't sound
// (refusal 1); then nothing is written. The bytes behind the list stay.
#[unsafe(no_mangle)]
pub extern "C" fn nickelgrove_cuts(session: &SessionRecord, list: &mut [u8; ROOM]) -> u16
    ensures { Handed session.now.layout list.old list.new result }
{
    let next = handed(session.layout, *list);
    let said = next.list;
    *list = said;
    next.count
}
