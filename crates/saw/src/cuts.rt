// The two calls: the cuts of a layout's tree into a lent buffer, and what each of them loses.
ghost use Rattle.std.specs.Prelude.{◌≡◌, ◌+◌, ◌*◌, ◌≤◌, length, take, drop};
ghost use Rattle.std.proofs.lemmas.List.Edits.{sets};
ghost use Rattle.layout.specs.Check.{tree};
ghost use Rattle.layout.specs.SoundLayout.{SoundLayout};
ghost use Rattle.questions.specs.Written.{answer_to, left_in_buffer};
ghost use Rattle.saw.specs.Cuts as spec;
ghost use Rattle.saw.specs.Listed.{entries_of_cuts, nines_of, tenths_of};
ghost use Rattle.saw.specs.Written.{amount_bytes, saw_bytes};

use crate::cut::{BYTES, ENTRY};
use crate::routines::list_row;
use layout::layout::Layout;
use marks::Refusal;
use table::LIMIT;

// More than the bytes of the longest list: each cut is behind a piece of its own. And more than the amounts of its cuts.
pub const ROOM: usize = 9 * LIMIT;

pub const AMOUNTS: usize = LIMIT;

// The list as the routines leave it.
const LIST: usize = 10 * LIMIT;

// The list of a sound layout, each entry with what its cut loses, from the start of `list` on; gives how many cuts there are.
fn list_of(layout: Layout, list: &mut [u8; LIST]) -> usize
    requires { SoundLayout layout }
    ensures written { list.new ≡ sets list.old 0 (entries_of_cuts (spec.cuts (tree layout))) }
    ensures counted { result ≡ length (spec.cuts (tree layout)) }
{
    let top = layout.nodes[0];
    let l = list_row(
        &layout.nodes,
        top.datum.cut,
        top.first,
        layout.held as usize,
        0,
        list,
        0,
    );
    l.cuts
}

// The first n bytes of `from`, over those of `out`.
pub fn copy_first(from: &[u8], n: usize, out: &mut [u8])
    requires { (n ≤ length from.now) × (n ≤ length out.old) }
    ensures { out.new ≡ sets out.old 0 (take n from.now) }
{
    for i in 0..n {
        out[i] = from[i];
    }
}

// Nine bytes of `list` from `from` on, over those of `out` from `to` on.
fn put_nine(list: &[u8], from: usize, out: &mut [u8], to: usize)
    requires { (from + 9 ≤ length list.now) × (to + 9 ≤ length out.old) }
    ensures { out.new ≡ sets out.old to (take 9 (drop from list.now)) }
{
    for j in 0..BYTES {
        out[to + j] = list[from + j];
    }
}

// The cuts of n entries, over the bytes of `out`.
fn put_nines(list: &[u8], n: usize, out: &mut [u8])
    requires { (10 * n ≤ length list.now) × (9 * n ≤ length out.old) }
    ensures { out.new ≡ sets out.old 0 (nines_of n list.now) }
{
    for k in 0..n {
        put_nine(list, ENTRY * k, out, BYTES * k);
    }
}

// What the cuts of n entries lose, over the bytes of `out`.
fn put_tenths(list: &[u8], n: usize, out: &mut [u8])
    requires { (10 * n ≤ length list.now) × (n ≤ length out.old) }
    ensures { out.new ≡ sets out.old 0 (tenths_of n list.now) }
{
    for k in 0..n {
        out[k] = list[ENTRY * k + BYTES];
    }
}

// The cuts, 9 bytes each, and how many bytes they have.
pub fn cuts(layout: Layout, out: &mut [u8]) -> Result<u16, Refusal>
    ensures answer { result ≡ answer_to layout (saw_bytes layout) (length out.old) }
    ensures written { out.new ≡ left_in_buffer layout (saw_bytes layout) out.old }
{
    layout.examined()?;
    let mut list = [0u8; LIST];
    let n = list_of(layout, &mut list);
    let bytes = BYTES * n;
    if out.len() < bytes {
        return Err(Refusal::BufferTooShort);
    }
    put_nines(&list, n, out);
    Ok(bytes as u16)
}

// What the blade eats with each of these cuts, in their order, 1 byte each, and how many there are.
pub fn amounts(layout: Layout, out: &mut [u8]) -> Result<u16, Refusal>
    ensures answer { result ≡ answer_to layout (amount_bytes layout) (length out.old) }
    ensures written { out.new ≡ left_in_buffer layout (amount_bytes layout) out.old }
{
    layout.examined()?;
    let mut list = [0u8; LIST];
    let n = list_of(layout, &mut list);
    if out.len() < n {
        return Err(Refusal::BufferTooShort);
    }
    put_tenths(&list, n, out);
    Ok(n as u16)
}
