// The sizes of what a program in C or Rust lends, exported: it compares them with its own before it lends anything, so that an archive of another build
// is told from its own. Rests on the constants of `table`, `session` and `saw`.
ghost use Rattle.std.specs.Prelude.{◌≡◌};
ghost use Rattle.lists.specs.Lists.{limit};
ghost use Rattle.session.specs.Session.{longest};
ghost use Rattle.kiosk.specs.Sizes.{room_bytes, session_bytes};

use saw::cuts::ROOM;
use session::LONGEST_ANSWER;
use table::LIMIT;

// The bytes of the records of records.rt, as specs/Sizes.antt adds them up: a node's, a layout's up to its counts, and a layout's.
const NODE: usize = 32;

const COUNTS: usize = LIMIT * NODE + 2 * (LIMIT * 2) + 3 * 2;

const LAYOUT: usize = COUNTS + (8 - COUNTS % 8) % 8 + 24;

// The most nodes that a layout holds: the length of its three arrays.
#[unsafe(no_mangle)]
pub extern "C" fn nickelgrove_limit() -> usize
    ensures { result ≡ limit }
{
    LIMIT
}

// The bytes that are lent for an answer.
#[unsafe(no_mangle)]
pub extern "C" fn nickelgrove_longest() -> usize
    ensures { result ≡ longest }
{
    LONGEST_ANSWER
}

// The bytes that are lent for a list of saw cuts.
#[unsafe(no_mangle)]
pub extern "C" fn nickelgrove_room() -> usize
    ensures { result ≡ room_bytes }
{
    ROOM
}

// The bytes of a session's record.
#[unsafe(no_mangle)]
pub extern "C" fn nickelgrove_session_bytes() -> usize
    ensures { result ≡ session_bytes }
{
    2 * LAYOUT
}
