// Which structs the structs of a sheet hold by named fields: the table that crate toposort sorts by. Every reader is
// lent the sheet and the tables of the positions of its names and items, cut to their lengths.
#![tactic(auto)]

ghost use Rattle.std.specs.Prelude.{◌≡◌, ◌+◌, ◌*◌, ◌≤◌, ◌<◌, length};
ghost use Rattle.format.specs.Limits.{most_fields};
ghost use Rattle.format.specs.Decode.{many};
ghost use Rattle.format.specs.Types.{str};
ghost use Rattle.format.specs.Decoding.{type};
ghost use Rattle.format.specs.declared.ItemKind.TheVariants.{Struct};
ghost use Rattle.syntax.specs.Items.{item_at, is_struct};
ghost use Rattle.toposort.specs.Adjacency.{item_numbers, most_held};
ghost use Rattle.rules.specs.Rules.{gather, held_by, held_structs};
ghost use Rattle.view.specs.Values.{value_or, Yields, type_here, items_at, Whole};
ghost use Rattle.view.specs.Views.{ItemAt};
ghost use Rattle.holds.specs.Edges.{is_struct_kind, counted, Puts, Tells, named_at, fields_here};
ghost use Rattle.holds.specs.Edges.{Flags, Edges, StructNumbers};

use cursor::fields::field;
use cursor::{Cursor, width};
use format::{ItemKind, Outline};
use toposort::Traversal;
use types::kind_of;
use view::{ItemView, is_named, item, kind_at, past_type};

// The struct that a field holds by its name, by number, and the position behind the field.
#[derive(Clone, Copy)]
pub struct FieldView {
    pub held: Option<u8>,
    pub next: Cursor,
}

// ---- kinds

fn is_struct(k: ItemKind) -> bool
    ensures { result ≡ is_struct_kind k }
{
    matches!(k, ItemKind::Struct)
}

// Whether item i is a struct.
fn struct_at(s: &[u8], names: &[u32], items: &[u32], i: u32) -> bool
    requires { Whole s.now names.now items.now × (i < length items.now) }
    ensures { result ≡ is_struct
        (item_at (items_at s.now names.now items.now) i).body }
{
    is_struct(kind_at(s, names, items, i))
}

// Writes for each item whether it is a struct: a 1 at its number.
fn flag_structs(s: &[u8], names: &[u32], items: &[u32], structs: &mut [u8; Traversal::NUMBERS])
    requires { Whole s.now names.now items.now × (length structs.old ≡ item_numbers) }
    ensures { Flags (items_at s.now names.now items.now)
        structs.new }
{
    for i in 0..items.len() {
        structs[i] = u8::from(struct_at(s, names, items, i as u32));
    }
}

// ---- lists in front of an array

// Puts a number behind the first `at`, if there is one.
fn put(list: &mut [u8], at: usize, number: Option<u8>) -> usize
    requires { at < length list.old }
    ensures { Puts (counted number) at list.old result list.new }
{
    match number {
        Some(n) => {
            list[at] = n;
            at + 1
        }
        None => at,
    }
}

// ---- fields

// What a field holds whose type is named by the index at c.
fn named_at(
    s: &[u8],
    names: &[u32],
    items: &[u32],
    structs: &[u8; Traversal::NUMBERS],
    c: Cursor,
) -> FieldView
    requires { Whole s.now names.now items.now × Flags (items_at s.now names.now items.now) structs.now ×
        Yields (named_at (length items.now) s.now c.at)
        (value_or str (named_at (length items.now) s.now c.at)) }
    ensures { Tells (items_at s.now names.now items.now)
        (named_at (length items.now) s.now c.at) result }
{
    let w = width(items.len() as u32);
    let index = field(s, c, w);
    let i = index.value;
    let mark = structs[i as usize];
    FieldView {
        held: (mark == 1).then_some(i as u8),
        next: index.next,
    }
}

// What the field at c holds.
fn held_at(
    s: &[u8],
    names: &[u32],
    items: &[u32],
    structs: &[u8; Traversal::NUMBERS],
    c: Cursor,
) -> FieldView
    requires { Whole s.now names.now items.now × Flags (items_at s.now names.now items.now) structs.now ×
        Yields (type (length items.now) s.now c.at)
        (type_here (length items.now) s.now c.at) }
    ensures { Tells (items_at s.now names.now items.now)
        (type (length items.now) s.now c.at) result }
{
    let f = field(s, c, 4);
    if is_named(kind_of(f.value)) {
        return named_at(s, names, items, structs, f.next);
    }
    FieldView {
        held: None,
        next: past_type(s, c, items.len() as u32),
    }
}

// Puts what the n fields at c hold behind the first `at`.
fn put_fields(
    s: &[u8],
    names: &[u32],
    items: &[u32],
    structs: &[u8; Traversal::NUMBERS],
    c: Cursor,
    n: u32,
    held: &mut [u8],
    at: usize,
) -> usize
    requires { Whole s.now names.now items.now × Flags (items_at s.now names.now items.now) structs.now ×
        Yields (many n (type (length items.now)) s.now c.at)
        (fields_here (length items.now) n s.now c.at) × (at + n ≤ length held.old) }
    ensures { Puts (gather (held_by (items_at s.now names.now items.now))
        (fields_here (length items.now) n s.now c.at)) at held.old result
        held.new }
{
    let mut next = c;
    let mut end = at;
    for _ in 0..n {
        let f = held_at(s, names, items, structs, next);
        end = put(held, end, f.held);
        next = f.next;
    }
    end
}

// Puts what a struct holds behind the first `at`.
fn put_struct(
    s: &[u8],
    names: &[u32],
    items: &[u32],
    structs: &[u8; Traversal::NUMBERS],
    v: ItemView,
    held: &mut [u8],
    at: usize,
) -> usize
    requires { Whole s.now names.now items.now × Flags (items_at s.now names.now items.now) structs.now ×
        ItemAt s.now names.now items.now v × (v.kind ≡ Struct) ×
        (at + most_fields ≤ length held.old) }
    ensures { Puts
        (held_structs (items_at s.now names.now items.now) v.number) at
        held.old result held.new × (result ≤ at + most_fields) }
{
    let bit = field(s, v.body, 1);
    let count = field(s, bit.next, 6);
    put_fields(s, names, items, structs, count.next, count.value, held, at)
}

// Puts what item i holds behind the first `at`: nothing, unless it is a struct.
fn put_item(
    s: &[u8],
    names: &[u32],
    items: &[u32],
    structs: &[u8; Traversal::NUMBERS],
    i: usize,
    held: &mut [u8],
    at: usize,
) -> usize
    requires { Whole s.now names.now items.now × Flags (items_at s.now names.now items.now) structs.now ×
        (at ≤ most_fields * i) × (at ≤ most_held) ×
        (length held.old ≡ most_held) }
    ensures { Puts (held_structs (items_at s.now names.now items.now) i) at
        held.old result held.new × (result ≤ at + most_fields) × (result ≤ most_held) }
{
    if items.len() <= i {
        return at;
    }
    let v = item(s, names, items, i as u32);
    if is_struct(v.kind) {
        return put_struct(s, names, items, structs, v, held, at);
    }
    at
}

// ---- the table and the list that crate toposort sorts

// Puts what every item holds: item i what stands in `held` from starts[i] up to starts[i + 1].
fn fill_rows(
    s: &[u8],
    names: &[u32],
    items: &[u32],
    structs: &[u8; Traversal::NUMBERS],
    starts: &mut [u16],
    held: &mut [u8],
)
    requires { Whole s.now names.now items.now × Flags (items_at s.now names.now items.now) structs.now ×
        (length starts.old ≡ item_numbers + 1) ×
        (length held.old ≡ most_held) }
    ensures { Edges (items_at s.now names.now items.now) starts.new
        held.new }
{
    starts[0] = 0;
    let mut end: usize = 0;
    for i in 0..Traversal::NUMBERS {
        end = put_item(s, names, items, structs, i, held, end);
        starts[i + 1] = end as u16;
    }
}

// The table of a sheet.
pub fn fill_edges(
    s: &[u8],
    names: &[u32],
    items: &[u32],
    starts: &mut [u16; Traversal::STARTS],
    held: &mut [u8; Traversal::HELD],
)
    requires { Whole s.now names.now items.now }
    ensures { Edges (items_at s.now names.now items.now) starts.new
        held.new }
{
    let mut structs = [0u8; Traversal::NUMBERS];
    flag_structs(s, names, items, &mut structs);
    fill_rows(s, names, items, &structs, starts, held);
}

// The numbers of the structs, in the sheet's order, put in front of `numbers`; how many there are.
pub fn list_structs(
    s: &[u8],
    names: &[u32],
    items: &[u32],
    numbers: &mut [u8; Outline::ITEMS],
) -> usize
    requires { Whole s.now names.now items.now }
    ensures { StructNumbers (items_at s.now names.now items.now) result
        numbers.new }
{
    let mut n: usize = 0;
    for i in 0..items.len() {
        let number = struct_at(s, names, items, i as u32).then_some(i as u8);
        n = put(numbers, n, number);
    }
    n
}
