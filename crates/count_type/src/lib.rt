// How long a type's text is. A text is first written where it has no room, only to count it; there most types need no
// spelling.
#![tactic(auto)]

ghost use Rattle.std.specs.Prelude.{◌≡◌, ◌<◌, length};
ghost use Rattle.format.specs.Decoding.{atom_of, kind_of, type_at};
ghost use Rattle.syntax.specs.Items.{item_at, full_name};
ghost use Rattle.bridge.specs.WriteType.{write_atom};
ghost use Rattle.view.specs.Values.{Yields};
ghost use Rattle.write_type.specs.TypeAt.{ty_at};
ghost use Rattle.tables.specs.Tables.{items_in, items_of, Lent};
ghost use Rattle.write_chain.specs.Chains.{begin_of, end_of, write_type_as};
ghost use Rattle.count_type.specs.Counts.{Counts};

use cursor::{Cursor, extract, width};
use tables::{Pool, Table};
use view::prefix_of;
use write_chain::{code_of, end_length};

// ---- lengths, by the number of an atom or of a kind, or by a code

fn atom_length(n: u32) -> usize
    ensures { result ≡ length (write_atom (atom_of n)) }
{
    match n {
        1 => 4,
        2 => 14,
        3 => 15,
        4 => 15,
        5 => 15,
        6 => 13,
        7 => 13,
        8 => 14,
        9 => 14,
        10 => 14,
        11 => 13,
        12 => 5,
        13 => 6,
        14 => 13,
        15 => 14,
        _ => 4,
    }
}

// What stands before an inner type.
fn begin_length(k: u32) -> usize
    ensures { result ≡ length (begin_of (kind_of k)) }
{
    match k {
        2 => 12,
        3 => 12,
        4 => 18,
        5 => 18,
        6 => 16,
        7 => 0,
        8 => 0,
        10 => 14,
        13 => 14,
        _ => 0,
    }
}

// What stands behind it, by its code.
fn close_length(code: usize) -> usize
    ensures { result ≡ length (end_of code) }
{
    match code {
        1 => 1,
        2 => 7,
        3 => 8,
        4 => 1,
        5 => 2,
        6 => 7,
        7 => 8,
        8 => 1,
        9 => 2,
        10 => 6,
        11 => 7,
        12 => 1,
        13 => 2,
        14 => 1,
        _ => 0,
    }
}

// ---- types

// The length of item i's full name; 0 where the table does not know it.
fn full_length(s: &[u8], t: &[u32; Table::PLACES], pool: &[u8; Pool::BYTES], i: u32) -> usize
    requires { Lent s.now t.now pool.now × (i < length (items_in t.now)) }
    ensures { (result < 1024) ×
        Counts (full_name (item_at (items_of s.now t.now) i)) result }
{
    let e = t[Table::FULL + i as usize];
    (e % 1024) as usize
}

// The length of the type at c, with the space behind it or without; 0 where it is not counted, for Fn, Array or a named
// type of unknown length in it.
pub fn count_type(
    s: &[u8],
    t: &[u32; Table::PLACES],
    pool: &[u8; Pool::BYTES],
    c: Cursor,
    levels: u32,
    spaced: bool,
) -> usize
    requires { Lent s.now t.now pool.now ×
        Yields (type_at (length (items_in t.now)) levels s.now c.at)
        (ty_at (length (items_in t.now)) levels s.now c.at) }
    ensures { Counts (write_type_as spaced (items_of s.now t.now)
        (ty_at (length (items_in t.now)) levels s.now c.at)) result }
{
    let mut at = c.at;
    let mut k = extract(s, at, 4);
    let mut sum = end_length(spaced, k);
    let mut prefix = prefix_of(k);
    // Down to the base, level by level: no count.
    while 0 < prefix {
        sum = sum + begin_length(k);
        if prefix == 4 {
            sum = sum + 1;
            at = at + 4;
            k = extract(s, at, 4);
            prefix = prefix_of(k);
            continue;
        }
        let m = extract(s, at + 4, 5);
        sum = sum + close_length(code_of(k, m));
        at = at + 5;
        k = m % 16;
        prefix = prefix_of(k);
    }
    if k == 0 {
        let a = extract(s, at + 4, 4);
        return sum + atom_length(a);
    }
    if k == 9 {
        return sum + 11;
    }
    if k == 1 {
        let w = width(t[Table::ITEMS]);
        let i = extract(s, at + 4, w);
        let n = full_length(s, t, pool, i);
        if 0 < n {
            return sum + n;
        }
    }
    0
}
