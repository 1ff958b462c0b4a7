// The clauses that speak of one place at a time.
ghost use Rattle.std.specs.Prelude.{◌≡◌};
ghost use Rattle.lists.specs.Lists.{limit};
ghost use Rattle.sound.specs.Places.{kind_b, leaf_b, place_b, sided_b, top_b, top_datum_b, top_links_b, zero_b, zero_datum_b, zero_links_b};

use piece::node::{Datum, Kind};
use piece::settings::Settings;
use piece::size::Size;
use table::{NONE, Node};

// Whether both sides are at least 1.
fn is_sided(size: Size) -> bool
    ensures { result ≡ sided_b size }
{
    1 <= size.width && 1 <= size.height
}

// Whether there is no child.
fn is_leaf(n: Node) -> bool
    ensures { result ≡ leaf_b limit n }
{
    n.first == NONE && n.last == NONE
}

#[tactic(auto, unfolding(crate::specs::Places::zero_links_b))]
fn zero_links(n: Node) -> bool
    ensures { result ≡ zero_links_b n }
{
    n.parent == 0 && n.first == 0 && n.last == 0 && n.prev == 0 && n.next == 0
}

#[tactic(auto, unfolding(crate::specs::Places::zero_datum_b))]
fn zero_datum(d: Datum) -> bool
    ensures { result ≡ zero_datum_b d }
{
    d.serial == 0
        && d.size.width == 0
        && d.size.height == 0
        && d.number == 0
        && d.level == 0
        && d.eaten == 0
        && d.kind.is_free()
        && d.cut.is_horizontal()
}

fn is_zero(n: Node) -> bool
    ensures { result ≡ zero_b n }
{
    zero_datum(n.datum) && zero_links(n)
}

// Whether a held node's links, number and sides suit its kind.
fn kind_ok(n: Node) -> bool
    ensures { result ≡ kind_b limit n.datum.kind n }
{
    let d = n.datum;
    match d.kind {
        Kind::Free => is_leaf(n) && d.number == 0 && n.next == NONE,
        Kind::Part => is_leaf(n) && d.number <= 65535 && is_sided(d.size),
        Kind::Structure => n.first < NONE && d.number == 0 && is_sided(d.size),
    }
}

// A place is all zero where its serial is.
#[tactic(auto, unfolding(crate::specs::Places::place_b))]
pub fn place_ok(n: Node) -> bool
    ensures { result ≡ place_b limit n }
{
    if n.datum.serial == 0 {
        is_zero(n)
    } else {
        kind_ok(n)
    }
}

// Whether it is a structure at level 0 with the sheet's size and nothing eaten behind it.
#[tactic(auto, unfolding(crate::specs::Places::top_datum_b))]
fn top_datum(d: Datum, settings: Settings) -> bool
    ensures { result ≡ top_datum_b settings d }
{
    d.serial != 0
        && d.level == 0
        && d.eaten == 0
        && d.kind.is_structure()
        && d.size.width == settings.sheet.width
        && d.size.height == settings.sheet.height
}

// Whether it hangs under no node and beside none.
#[tactic(auto, unfolding(crate::specs::Places::top_links_b))]
fn top_links(n: Node) -> bool
    ensures { result ≡ top_links_b limit n }
{
    n.parent == NONE && n.prev == NONE && n.next == NONE
}

// Whether the node at place 0 is a top with the sheet's size.
#[tactic(auto, unfolding(crate::specs::Places::top_b))]
pub fn top_ok(n: Node, settings: Settings) -> bool
    ensures { result ≡ top_b limit settings n }
{
    top_datum(n.datum, settings) && top_links(n)
}
