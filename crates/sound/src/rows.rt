// The clauses that speak of a parent and its children: each row is walked by its links, within as many steps as there are places.
ghost use Rattle.std.specs.Prelude.{◌≡◌, true, ◌<◌};
ghost use Rattle.lists.specs.Lists.{limit};
ghost use Rattle.sound.specs.Hung.{hang_row, hang_rows};
ghost use Rattle.sound.specs.Rows.{child_b, child_datum_b, eaten_b, end_b, hung_under_b, parent_b, room, row_b, rows_b, step};

use piece::node::Datum;
use piece::settings::Settings;
use table::{LIMIT, NONE, Node};

// Whether n hangs under q, after the sibling pv.
#[tactic(auto, unfolding(crate::specs::Rows::hung_under_b))]
fn is_hung(q: u16, pv: u16, n: Node) -> bool
    ensures { result ≡ hung_under_b q pv n }
{
    n.datum.serial != 0 && n.parent == q && n.prev == pv
}

// Whether d has the level, the cut and the side of a child of the piece `parent`.
#[tactic(auto, unfolding(crate::specs::Rows::child_datum_b))]
fn child_datum(settings: Settings, parent: Datum, d: Datum) -> bool
    ensures { result ≡ child_datum_b settings parent d }
{
    d.level as u32 == parent.level as u32 + 1
        && d.level <= settings.stages
        && d.cut == parent.cut.rotate()
        && d.size.laid(d.cut).height == parent.size.laid(d.cut).height
}

// Whether the amount that was eaten behind it is within the blade's width, and 0 where it is the last child.
#[tactic(auto, unfolding(crate::specs::Rows::eaten_b))]
fn eaten_ok(settings: Settings, n: Node) -> bool
    ensures { result ≡ eaten_b limit settings n }
{
    if n.next == NONE {
        n.datum.eaten == 0
    } else {
        n.datum.eaten <= settings.blade
    }
}

// Whether n is a child of q, which is `up`, after the sibling pv.
#[tactic(auto, unfolding(crate::specs::Rows::child_b))]
fn child_ok(settings: Settings, up: Node, q: u16, pv: u16, n: Node) -> bool
    ensures { result ≡ child_b limit settings up q pv n }
{
    is_hung(q, pv, n) && child_datum(settings, up.datum, n.datum) && eaten_ok(settings, n)
}

// What a child takes of the side that its parent's cut divides, with what was eaten behind it.
fn step_of(n: Node) -> u64
    ensures says { result ≡ step n }
    ensures below { result < 8589934592 }
{
    let d = n.datum;
    d.size.laid(d.cut).width as u64 + d.eaten as u64
}

// The side that a row has to fill.
fn room_of(n: Node) -> u32
    ensures { result ≡ room n }
{
    let d = n.datum;
    d.size.laid(d.cut.rotate()).width
}

// Whether the node is held and has children.
fn is_parent(n: Node) -> bool
    ensures { result ≡ parent_b n }
{
    n.datum.serial != 0 && n.datum.kind.is_structure()
}

// Whether a row ends as it should: at no place, at its parent's last child, with its parent's side filled.
#[tactic(auto, unfolding(crate::specs::Rows::end_b))]
fn ends_ok(up: Node, pv: u16, p: u16, sum: u64) -> bool
    ensures { result ≡ end_b limit up pv p sum }
{
    p == NONE && up.last == pv && sum == room_of(up) as u64
}

// Whether the place q is no held structure's, or its row is linked and filled; where it is, the row's places are marked.
fn row_ok(nodes: &[Node; LIMIT], settings: Settings, q: u16, hung: &mut [u8; LIMIT]) -> bool
    requires { q < limit }
    ensures says { result ≡ row_b limit settings nodes.now q }
    ensures marked { result ≡ true → hung.new ≡ hang_row limit nodes.now q hung.old }
{
    let up = nodes[q as usize];
    if !is_parent(up) {
        return true;
    }
    let mut pv = NONE;
    let mut p = up.first;
    // A side with what was eaten is below 2^33 and there are at most LIMIT steps, so the sum fits.
    let mut sum: u64 = 0;
    for _step in 0..LIMIT {
        if NONE <= p {
            return ends_ok(up, pv, p, sum);
        }
        let n = nodes[p as usize];
        if !child_ok(settings, up, q, pv, n) {
            return false;
        }
        sum += step_of(n);
        hung[p as usize] = 1;
        pv = p;
        p = n.next;
    }
    false
}

// Every row of a held structure is linked and filled; where all are, their places are marked.
pub fn rows_ok(nodes: [Node; LIMIT], settings: Settings, hung: &mut [u8; LIMIT]) -> bool
    ensures says { result ≡ rows_b limit settings nodes }
    ensures marked { result ≡ true → hung.new ≡ hang_rows limit nodes limit hung.old }
{
    for q in 0..LIMIT {
        if !row_ok(&nodes, settings, q as u16, hung) {
            return false;
        }
    }
    true
}
