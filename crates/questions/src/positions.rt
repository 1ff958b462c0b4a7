// The two lists of a layout: a position gives the mark of the piece there (refusals 1 and 12).
ghost use Rattle.std.specs.Prelude.{◌≡◌, true, ◌<◌, ◌≤◌};
ghost use Rattle.lists.specs.Lists.{limit};
ghost use Rattle.walks.specs.Inner.{Placed};
ghost use Rattle.layout.specs.Check.{sound_b};
ghost use Rattle.questions.specs.Answers.{free_mark_of, mark_at_position, mark_of, removable_mark_of};

use layout::layout::Layout;
use marks::{Mark, Refusal};
use table::LIMIT;

// The mark of the piece at a place.
pub(crate) fn mark_of(layout: Layout, place: u16) -> Mark
    requires { place < limit }
    ensures { result ≡ mark_of layout place }
{
    Mark {
        layout: layout.number,
        place,
        serial: layout.nodes[place as usize].datum.serial,
    }
}

// The mark at a position of a list of which `count` entries count.
fn mark_at(layout: Layout, list: [u16; LIMIT], count: u16, position: u16) -> Result<Mark, Refusal>
    requires { sound_b layout ≡ true → (count ≤ limit) × Placed limit count list }
    ensures { result ≡ mark_at_position layout list count position }
{
    layout.examined()?;
    if count <= position {
        return Err(Refusal::PastTheEnd);
    }
    Ok(mark_of(layout, list[position as usize]))
}

// The mark at a position of the free list.
pub fn free_mark(layout: Layout, position: u16) -> Result<Mark, Refusal>
    ensures { result ≡ free_mark_of layout position }
{
    let list = layout.free;
    mark_at(layout, list, layout.frees, position)
}

// The mark at a position of the removable list.
pub fn removable_mark(layout: Layout, position: u16) -> Result<Mark, Refusal>
    ensures { result ≡ removable_mark_of layout position }
{
    let list = layout.removable;
    mark_at(layout, list, layout.removables, position)
}
