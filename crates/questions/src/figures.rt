// The figures of a layout: areas (used, free and eaten), nodes held, usage. Each examines the layout first (refusal 1).
ghost use Rattle.std.specs.Prelude.{◌≡◌};
ghost use Rattle.questions.specs.Answers.{eaten_area_of, free_area_of, is_empty_of, nodes_held_of, sheet_usage_of, tree_usage_of, used_area_of};

use crate::eaten::strips_of;
use layout::layout::Layout;
use marks::Refusal;
use sound::listed::free_sum;
use walks::usage::usage_of;

pub fn used_area(layout: Layout) -> Result<u64, Refusal>
    ensures { result ≡ used_area_of layout }
{
    // Refusal 1, as of each figure.
    layout.examined()?;
    Ok(layout.used)
}

// The sum over the free pieces, never what the parts leave over.
pub fn free_area(layout: Layout) -> Result<u64, Refusal>
    ensures { result ≡ free_area_of layout }
{
    layout.examined()?;
    Ok(free_sum(&layout.nodes))
}

// What the saw's blade has eaten: the strip behind each piece.
pub fn eaten_area(layout: Layout) -> Result<u64, Refusal>
    ensures { result ≡ eaten_area_of layout }
{
    layout.examined()?;
    let nodes = layout.nodes;
    Ok(strips_of(nodes))
}

pub fn nodes_held(layout: Layout) -> Result<u16, Refusal>
    ensures { result ≡ nodes_held_of layout }
{
    layout.examined()?;
    Ok(layout.held)
}

// Whole areas below 2^52 are cast without loss and divided once.
pub fn sheet_usage(layout: Layout) -> Result<f64, Refusal>
    ensures { result ≡ sheet_usage_of layout }
{
    layout.examined()?;
    let sheet = layout.settings.sheet;
    let used = layout.used;
    let whole = sheet.area();
    Ok(used as f64 / whole as f64)
}

pub fn tree_usage(layout: Layout) -> Result<f64, Refusal>
    ensures { result ≡ tree_usage_of layout }
{
    layout.examined()?;
    Ok(usage_of(&layout.nodes, 0, layout.held as usize))
}

// No on every sound layout: the top has a child.
pub fn is_empty(layout: Layout) -> Result<bool, Refusal>
    ensures { result ≡ is_empty_of layout }
{
    layout.examined()?;
    Ok(false)
}
