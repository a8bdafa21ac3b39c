// Types that arguments share: each is spelled once in the pool, and told by its bits from then on.
#![tactic(auto)]

ghost use Rattle.std.specs.Prelude.{◌/◌, ◌<◌, ◌≤◌, length, take};
ghost use Rattle.view.specs.Views.{FactsOf, unpacked};
ghost use Rattle.tables.specs.Tables.{names_in, items_in, Item, Typed, Function, Lent, Filled};

use cursor::{Cursor, extract};
use format::ItemKind;
use shape::write_outermost_space;
use sink::put_text;
use tables::{Pool, Table, fill_arguments, function, item, row_of};
use view::{FunctionView, ItemView, is_function, skip_type};

// The longest text of a type that is spelled, with the space behind it.
const LONGEST: usize = 64;

// After so many functions in a row that bring no type the rest are taken to bring none.
const IDLE: u32 = 8;

// Of fewer items no types are kept: where a text has two passes, the sheet has more than 512 bytes, and the short types
// of three functions take less.
const FEW: u32 = 4;

// ---- a type

// Keeps the bits of the type of an argument with this entry, and what the entry says of it. Nothing is kept of a type
// of more than 32 bits, or where its place is taken. The first `end` bytes of the pool are in use.
fn keep_type(
    s: &[u8],
    t: &mut [u32; Table::PLACES],
    pool: &[u8; Pool::BYTES],
    entry: u32,
    end: usize,
) -> bool
    requires { Lent s.now t.old (take end pool.now) × (end ≤ length pool.now) ×
        Typed s.now t.old (entry / 16384) × FactsOf s.now (names_in t.old) (items_in t.old) (unpacked entry) }
    ensures { Filled s.now t.old t.new pool.now end }
{
    let at = entry / 16384;
    let size = s.len() * 8;
    let window = at as usize + 32;
    if size < window {
        return false;
    }
    let bits = extract(s, at, 32);
    let k = row_of(bits);
    if t[Table::MET + k] != 0 {
        return false;
    }
    let spelling = at as usize % Table::SPELLINGS;
    if t[Table::SPACED + spelling] != 0 {
        return false;
    }
    let next = skip_type(s, Cursor::new(at), t[Table::ITEMS]);
    let end_at = at + 32;
    if end_at < next.at {
        return false;
    }
    let less = end_at - next.at;
    t[Table::KEYS + k] = bits >> less;
    t[Table::MET + k] = at * 512 + less * 16 + entry % 16;
    true
}

// The text of the type at c, behind the first `end` bytes of the pool, where it has room; the answer is the place
// behind it.
fn spell_type(
    s: &[u8],
    t: &mut [u32; Table::PLACES],
    pool: &mut [u8; Pool::BYTES],
    c: Cursor,
    end: usize,
) -> usize
    requires { Lent s.now t.old (take end pool.old) × (end ≤ length pool.old) ×
        Typed s.now t.old c.at }
    ensures { Filled s.now t.old t.new pool.new result }
{
    let k = c.at as usize % Table::SPELLINGS;
    if t[Table::SPACED + k] != 0 {
        return end;
    }
    let mut text = [0u8; LONGEST];
    let count = write_outermost_space(s, t, pool, c, &mut text, 0);
    if LONGEST < count {
        return end;
    }
    if Pool::BYTES - count < end {
        return end;
    }
    put_text(pool, end, &text[..count]);
    t[Table::TYPES + k] = c.at;
    t[Table::SPACED + k] = end as u32 * 1024 + count as u32;
    end + count
}

// Both.
fn intern_type(
    s: &[u8],
    t: &mut [u32; Table::PLACES],
    pool: &mut [u8; Pool::BYTES],
    entry: u32,
    end: usize,
) -> usize
    requires { Lent s.now t.old (take end pool.old) × (end ≤ length pool.old) ×
        Typed s.now t.old (entry / 16384) × FactsOf s.now (names_in t.old) (items_in t.old) (unpacked entry) }
    ensures { Filled s.now t.old t.new pool.new result }
{
    if keep_type(s, t, pool, entry, end) {
        return spell_type(s, t, pool, Cursor::new(entry / 16384), end);
    }
    end
}

// ---- functions

// The types of a function's arguments.
fn intern_arguments(
    s: &[u8],
    t: &mut [u32; Table::PLACES],
    pool: &mut [u8; Pool::BYTES],
    f: FunctionView,
    from: usize,
) -> usize
    requires { Lent s.now t.old (take from pool.old) × (from ≤ length pool.old) ×
        Function s.now t.old f }
    ensures { Filled s.now t.old t.new pool.new result }
{
    let mut entries = [0u32; FunctionView::ARGUMENTS];
    fill_arguments(s, t, f, &mut entries);
    let n = f.arguments as usize;
    let mut end = from;
    for &entry in &entries[..n] {
        end = intern_type(s, t, pool, entry, end);
    }
    end
}

// The same of item v, where it is a function.
fn intern_item(
    s: &[u8],
    t: &mut [u32; Table::PLACES],
    pool: &mut [u8; Pool::BYTES],
    v: ItemView,
    end: usize,
) -> usize
    requires { Lent s.now t.old (take end pool.old) × (end ≤ length pool.old) × Item s.now t.old v }
    ensures { Filled s.now t.old t.new pool.new result }
{
    match v.kind {
        ItemKind::RustFunction => {
            let f = function(s, t, v);
            intern_arguments(s, t, pool, f, end)
        }
        _ => end,
    }
}

// How many functions in a row brought nothing.
fn idle_after(kind: ItemKind, end: usize, next: usize, idle: u32) -> u32
    requires { idle < 8 }
    ensures { result ≤ 8 }
{
    if end < next {
        return 0;
    }
    if is_function(kind) {
        return idle + 1;
    }
    idle
}

// The types of the functions' arguments, behind the first `from` bytes of the pool, until too many functions in a
// row bring none; the answer is the place behind them.
pub fn intern_types(
    s: &[u8],
    t: &mut [u32; Table::PLACES],
    pool: &mut [u8; Pool::BYTES],
    from: usize,
) -> usize
    requires { Lent s.now t.old (take from pool.old) × (from ≤ length pool.old) }
    ensures { Filled s.now t.old t.new pool.new result }
{
    let n = t[Table::ITEMS];
    if n < FEW {
        return from;
    }
    let mut end = from;
    let mut idle: u32 = 0;
    for i in 0..n {
        if IDLE <= idle {
            return end;
        }
        let v = item(s, t, i);
        let next = intern_item(s, t, pool, v, end);
        idle = idle_after(v.kind, end, next, idle);
        end = next;
    }
    end
}
