// The calls that write into a lent buffer: the tree snapshot (Rust: core/insertion/node_blueprint.rs) and the part numbers held
// (Rust: included_part_ids of core/entities/layout.rs; ours are by place).
ghost use Rattle.std.specs.Prelude.{◌≡◌, length};
ghost use Rattle.questions.specs.Written.{answer_to, held_numbers, left_in_buffer, snapshot_bytes};

use layout::layout::Layout;
use marks::Refusal;
use table::LIMIT;
use walks::numbers::{count_numbers, every_place, put_numbers};
use walks::snapshot::{NODE, put_subtree};

// The snapshot of the tree, 14 bytes a node, and how many bytes it has. It is written down the tree from the top, which is at place 0.
pub fn snapshot(layout: Layout, out: &mut [u8]) -> Result<u16, Refusal>
    ensures answer { result ≡ answer_to layout (snapshot_bytes layout) (length out.old) }
    ensures written { out.new ≡ left_in_buffer layout (snapshot_bytes layout) out.old }
{
    layout.examined()?;
    let held = layout.held as usize;
    let bytes = NODE * held;
    if out.len() < bytes {
        return Err(Refusal::BufferTooShort);
    }
    put_subtree(&layout.nodes, 0, held, out, 0);
    Ok(bytes as u16)
}

// The numbers of the parts held, by place, and how many there are.
pub fn part_numbers(layout: Layout, out: &mut [u16]) -> Result<u16, Refusal>
    ensures answer { result ≡ answer_to layout (held_numbers layout) (length out.old) }
    ensures written { out.new ≡ left_in_buffer layout (held_numbers layout) out.old }
{
    layout.examined()?;
    let order = every_place();
    let count = count_numbers(&layout.nodes, &order, LIMIT);
    if out.len() < count {
        return Err(Refusal::BufferTooShort);
    }
    put_numbers(&layout.nodes, &order, LIMIT, out);
    Ok(count as u16)
}
