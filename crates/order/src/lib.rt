// The structs of a sheet in the order of toposort.rs, and whether they hold one another in a ring.
#![tactic(auto)]

ghost use Rattle.std.specs.Prelude.{◌≡◌, length};
ghost use Rattle.toposort.specs.Adjacency.{item_numbers};
ghost use Rattle.rules.specs.Rules.{ring as ringOf};
ghost use Rattle.view.specs.Values.{items_at, Whole};
ghost use Rattle.order.specs.Ordered.{Ordered};

use format::Outline;
use holds::{fill_edges, list_structs};
use toposort::{Cycle, Traversal, sort};

// Puts the structs in order in front of `out`, and answers where they end, or that there is a ring. What each struct
// holds is put into `held`.
pub fn order_of(
    s: &[u8],
    names: &[u32],
    items: &[u32],
    held: &mut [u8; Traversal::HELD],
    out: &mut [u8; Traversal::NUMBERS],
) -> Result<usize, Cycle>
    requires { Whole s.now names.now items.now × (length out.old ≡ item_numbers) }
    ensures { Ordered (items_at s.now names.now items.now) result
        out.new }
{
    let mut numbers = [0u8; Outline::ITEMS];
    let n = list_structs(s, names, items, &mut numbers);
    if n == 0 {
        return Ok(0);
    }
    let mut starts = [0u16; Traversal::STARTS];
    let mut marks = [0u8; Traversal::NUMBERS];
    fill_edges(s, names, items, &mut starts, held);
    sort(&starts, held, &numbers[..n], &mut marks, out)
}

// Rule 12: whether a struct holds itself by named fields, over any number of structs.
pub fn ring_in(s: &[u8], names: &[u32], items: &[u32], held: &mut [u8; Traversal::HELD]) -> bool
    requires { Whole s.now names.now items.now }
    ensures { result ≡ ringOf (items_at s.now names.now items.now) }
{
    let mut out = [0u8; Traversal::NUMBERS];
    order_of(s, names, items, held, &mut out).is_err()
}

// The same with a table of its own, which a sheet without structs does not need.
pub fn ring(s: &[u8], names: &[u32], items: &[u32]) -> bool
    requires { Whole s.now names.now items.now }
    ensures { result ≡ ringOf (items_at s.now names.now items.now) }
{
    let mut numbers = [0u8; Outline::ITEMS];
    let n = list_structs(s, names, items, &mut numbers);
    if 0 < n {
        let mut held = [0u8; Traversal::HELD];
        ring_in(s, names, items, &mut held)
    } else {
        false
    }
}
