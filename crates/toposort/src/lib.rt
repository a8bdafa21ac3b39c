// The order of structs: each after those that it holds (toposort.rs).
#![tactic(auto)]

ghost use Rattle.std.specs.Prelude.{◌≡◌, ◌<◌, length, replicate};
ghost use Rattle.toposort.specs.Adjacency.{item_numbers, graph_of, Adjacency, Room, Visited, VisitedAll, Sorted};

use format::{ItemKind, Outline};

// What ends a traversal: a struct holds itself, over any number of structs.
#[derive(Clone, Copy)]
pub struct Cycle;

// The sizes of a traversal's tables.
#[derive(Clone, Copy)]
pub struct Traversal;

impl Traversal {
    // The numbers that an item may have, which is a byte: one more than a sheet has items.
    pub const NUMBERS: usize = Outline::ITEMS + 1;
    // Where what each item holds starts, and where the last ends.
    pub const STARTS: usize = Traversal::NUMBERS + 1;
    // The most structs that are held: as many as all structs have fields.
    pub const HELD: usize = Outline::ITEMS * ItemKind::FIELDS;
}

// Visits struct `i`, at most `levels` deep. The order so far ends at `at`; the answer is where it ends then.
#[cycle(visit_visit_held)]
fn visit(
    starts: &[u16; Traversal::STARTS],
    held: &[u8; Traversal::HELD],
    levels: usize,
    i: usize,
    marks: &mut [u8; Traversal::NUMBERS],
    order: &mut [u8; Traversal::NUMBERS],
    at: usize,
) -> Result<usize, Cycle>
    requires { (i < item_numbers) × Adjacency starts.now held.now × Room marks.old order.old at }
    ensures { Visited (graph_of starts.now held.now) levels i marks.old
        order.old at result marks.new order.new }
{
    let mark = marks[i];
    if 1 < mark {
        return Ok(at);
    }
    if mark == 1 {
        return Err(Cycle);
    }
    if levels == 0 {
        return Err(Cycle);
    }
    marks[i] = 1;
    let end = visit_held(starts, held, levels - 1, i, marks, order, at)?;
    marks[i] = 2;
    order[end] = i as u8;
    Ok(end + 1)
}

// Visits the structs that struct `i` holds.
#[cycle(visit_visit_held)]
fn visit_held(
    starts: &[u16; Traversal::STARTS],
    held: &[u8; Traversal::HELD],
    levels: usize,
    i: usize,
    marks: &mut [u8; Traversal::NUMBERS],
    order: &mut [u8; Traversal::NUMBERS],
    at: usize,
) -> Result<usize, Cycle>
    requires { (i < item_numbers) × Adjacency starts.now held.now × Room marks.old order.old at }
    ensures { VisitedAll (graph_of starts.now held.now) levels
        (graph_of starts.now held.now i) marks.old order.old at result
        marks.new order.new }
{
    let mut k = usize::from(starts[i]);
    let stop = usize::from(starts[i + 1]);
    let mut end = at;
    // By an index, which the edit next_passed_over moves too far.
    while k < stop {
        let j = usize::from(held[k]);
        if 1 < marks[j] {
            // One that was visited costs no call.
            k = k + 1;
            continue;
        }
        end = visit(starts, held, levels, j, marks, order, end)?;
        k = k + 1;
    }
    Ok(end)
}

// Sorts the structs `js`. No item has a mark yet; the sorted list is put in front of `order`.
pub fn sort(
    starts: &[u16; Traversal::STARTS],
    held: &[u8; Traversal::HELD],
    js: &[u8],
    marks: &mut [u8; Traversal::NUMBERS],
    order: &mut [u8; Traversal::NUMBERS],
) -> Result<usize, Cycle>
    requires { Adjacency starts.now held.now × (marks.old ≡ replicate item_numbers 0) ×
        (length order.old ≡ item_numbers) }
    ensures { Sorted (graph_of starts.now held.now) js.now result
        marks.new order.new }
{
    let mut end = 0;
    for j in js {
        end = visit(
            starts,
            held,
            Traversal::NUMBERS,
            usize::from(*j),
            marks,
            order,
            end,
        )?;
    }
    Ok(end)
}
