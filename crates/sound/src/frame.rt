// What stands beside the nodes and the lists of a layout: its settings, the last serial issued, and what waits for the passes over the table. The order
// of the free list is asked for where the list names places, and whether the serials differ where none is above MAX_SERIAL.
ghost use Rattle.std.specs.Prelude.{◌≡◌, true, ◌&&◌, leb};
ghost use Rattle.lists.specs.Lists.{limit};
ghost use Rattle.lists.specs.Search.{differ, zero_tail};
ghost use Rattle.lists.specs.Inner.{Low};
ghost use Rattle.lists.specs.Flags.{ok_b};
ghost use Rattle.tree.specs.Pieces.{max_serial};
ghost use Rattle.sound.specs.Places.{top_b};
ghost use Rattle.sound.specs.Listed.{sorted_b};
ghost use Rattle.sound.specs.Frame.{domain_b, side_b};

use crate::listed::is_sorted;
use crate::places::top_ok;
use lists::search::zero_tail;
use lists::serials::all_differ;
use piece::settings::Settings;
use table::{LIMIT, Node};

pub const MAX_SIDE: u32 = 67108863;

pub const MAX_STAGES: u8 = 254;

pub const MAX_BLADE: u8 = 100;

pub const MAX_SERIAL: u32 = 1000000;

pub fn side_ok(side: u32) -> bool
    ensures { result ≡ side_b side }
{
    1 <= side && side <= MAX_SIDE
}

// Sheet sides, stages and blade width are in the domain.
pub fn domain_ok(settings: Settings) -> bool
    ensures { result ≡ domain_b settings }
{
    side_ok(settings.sheet.width)
        && side_ok(settings.sheet.height)
        && 1 <= settings.stages
        && settings.stages <= MAX_STAGES
        && settings.blade <= MAX_BLADE
}

// What stands beside the lists: the settings, the top, and the last serial issued.
pub fn frame_ok(settings: Settings, top: Node, last: u32) -> bool
    ensures { result ≡ (domain_b settings && (top_b limit settings top && leb last max_serial)) }
{
    domain_ok(settings) && top_ok(top, settings) && last <= MAX_SERIAL
}

// What waits for the passes: the serials differ, the free list is in order, and both lists have a zero tail.
pub fn rest_ok(
    area: &[u64; LIMIT],
    serial: &[u32; LIMIT],
    free: &[u16; LIMIT],
    frees: usize,
    removable: &[u16; LIMIT],
    removables: usize,
) -> bool
    requires { (ok_b limit free.now frees ≡ true) × Low serial.now }
    ensures { result ≡ (differ limit serial.now && (sorted_b area.now serial.now free.now frees
        && (zero_tail limit free.now frees && zero_tail limit removable.now removables))) }
{
    all_differ(serial)
        && is_sorted(area, serial, free, frees)
        && zero_tail(free, frees)
        && zero_tail(removable, removables)
}
