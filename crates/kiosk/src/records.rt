// A session as plain numbers: records that a program in C or Rust can hold and lend. Each stands for the struct of its name (Datum, Node, Layout,
// Session), field by field in its order, sizes and settings as the numbers in them, so that nodes have one layout in memory; a kind and a cut are their
// numbers in snapshots (document 01, "Tree snapshot"), and a record with another one is read as zeros, which aren't sound. Rests on those structs.
ghost use Rattle.std.specs.Prelude.{◌≡◌, replicate};
ghost use Rattle.piece.specs.Numbers.{cut_of};
ghost use Rattle.lists.specs.Lists.{limit};
ghost use Rattle.kiosk.specs.Records.{listed_b, all_listed_b, node_of_record, nodes_of_records, fields_of, layout_of};
ghost use Rattle.kiosk.specs.Records.{node_record, node_records, layout_record, no_record};

use layout::layout::Layout;
use piece::node::{Datum, Kind};
use piece::orientation::Orientation;
use piece::settings::Settings;
use piece::size::Size;
use table::nodes::empty_table;
use table::{LIMIT, Node};

#[repr(C)]
#[derive(Clone, Copy)]
pub struct DatumRecord {
    pub serial: u32,
    pub width: u32,
    pub height: u32,
    pub number: u16,
    pub level: u8,
    pub kind: u8,
    pub cut: u8,
    pub eaten: u8,
}

#[repr(C)]
#[derive(Clone, Copy)]
pub struct NodeRecord {
    pub datum: DatumRecord,
    pub parent: u16,
    pub first: u16,
    pub last: u16,
    pub prev: u16,
    pub next: u16,
}

#[repr(C)]
#[derive(Clone, Copy)]
pub struct LayoutRecord {
    pub nodes: [NodeRecord; LIMIT],
    pub free: [u16; LIMIT],
    pub removable: [u16; LIMIT],
    pub held: u16,
    pub frees: u16,
    pub removables: u16,
    pub used: u64,
    pub serial: u32,
    pub number: u16,
    pub stages: u8,
    pub blade: u8,
    pub width: u32,
    pub height: u32,
}

#[repr(C)]
#[derive(Clone, Copy)]
pub struct SessionRecord {
    pub layout: LayoutRecord,
    pub kept: LayoutRecord,
}

// ---- Reading.

// A kind and a cut that document 01 lists.
#[tactic(auto, unfolding(crate::specs::Records::listed_b))]
fn listed(given: NodeRecord) -> bool
    ensures { result ≡ listed_b given }
{
    given.datum.kind <= 2 && given.datum.cut <= 1
}

// At each place.
fn all_listed(records: [NodeRecord; LIMIT]) -> bool
    ensures { result ≡ all_listed_b records }
{
    for i in 0..LIMIT {
        if !listed(records[i]) {
            return false;
        }
    }
    true
}

#[tactic(auto, unfolding(crate::specs::Records::node_of_record))]
fn node_of(given: NodeRecord) -> Node
    ensures { result ≡ node_of_record given }
{
    let d = given.datum;
    Node {
        datum: Datum {
            serial: d.serial,
            size: Size {
                width: d.width,
                height: d.height,
            },
            number: d.number,
            level: d.level,
            kind: Kind::of_number(d.kind),
            cut: Orientation::of_number(d.cut),
            eaten: d.eaten,
        },
        parent: given.parent,
        first: given.first,
        last: given.last,
        prev: given.prev,
        next: given.next,
    }
}

fn nodes_of(records: [NodeRecord; LIMIT]) -> [Node; LIMIT]
    ensures { result ≡ nodes_of_records records }
{
    let mut nodes = empty_table();
    for i in 0..LIMIT {
        nodes[i] = node_of(records[i]);
    }
    nodes
}

// Field by field.
#[tactic(auto, unfolding(crate::specs::Records::fields_of))]
fn fields_of(given: LayoutRecord) -> Layout
    ensures { result ≡ fields_of given }
{
    // An array goes from record to record by a name of its own: the borrow checker follows no other way.
    let nodes = nodes_of(given.nodes);
    let free = given.free;
    let removable = given.removable;
    Layout {
        nodes,
        free,
        removable,
        held: given.held,
        frees: given.frees,
        removables: given.removables,
        used: given.used,
        serial: given.serial,
        number: given.number,
        settings: Settings {
            stages: given.stages,
            blade: given.blade,
            sheet: Size {
                width: given.width,
                height: given.height,
            },
        },
    }
}

// The layout that a record stands for.
#[tactic(auto, unfolding(crate::specs::Records::layout_of))]
pub fn layout_of(given: LayoutRecord) -> Layout
    ensures { result ≡ layout_of given }
{
    if all_listed(given.nodes) {
        fields_of(given)
    } else {
        Layout::zero()
    }
}

// ---- Writing.

#[tactic(auto, unfolding(crate::specs::Records::node_record))]
fn node_record(n: Node) -> NodeRecord
    ensures { result ≡ node_record n }
{
    let d = n.datum;
    NodeRecord {
        datum: DatumRecord {
            serial: d.serial,
            width: d.size.width,
            height: d.size.height,
            number: d.number,
            level: d.level,
            kind: d.kind.number(),
            cut: d.cut.number(),
            eaten: d.eaten,
        },
        parent: n.parent,
        first: n.first,
        last: n.last,
        prev: n.prev,
        next: n.next,
    }
}

// Records of zeros.
fn no_records() -> [NodeRecord; LIMIT]
    ensures { result ≡ replicate limit no_record }
{
    let zero = NodeRecord {
        datum: DatumRecord {
            serial: 0,
            width: 0,
            height: 0,
            number: 0,
            level: 0,
            kind: 0,
            cut: 0,
            eaten: 0,
        },
        parent: 0,
        first: 0,
        last: 0,
        prev: 0,
        next: 0,
    };
    [zero; LIMIT]
}

fn node_records(nodes: [Node; LIMIT]) -> [NodeRecord; LIMIT]
    ensures { result ≡ node_records nodes }
{
    let mut records = no_records();
    for i in 0..LIMIT {
        records[i] = node_record(nodes[i]);
    }
    records
}

#[tactic(auto, unfolding(crate::specs::Records::layout_record))]
pub fn layout_record(l: Layout) -> LayoutRecord
    ensures { result ≡ layout_record l }
{
    let nodes = node_records(l.nodes);
    let free = l.free;
    let removable = l.removable;
    LayoutRecord {
        nodes,
        free,
        removable,
        held: l.held,
        frees: l.frees,
        removables: l.removables,
        used: l.used,
        serial: l.serial,
        number: l.number,
        stages: l.settings.stages,
        blade: l.settings.blade,
        width: l.settings.sheet.width,
        height: l.settings.sheet.height,
    }
}
