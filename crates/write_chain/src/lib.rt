// Types spelled by two loops. Inwards what stands before each inner type is written, and a code of four bits for what
// stands behind it goes onto a stack; outwards that is written.
#![tactic(auto)]

ghost use Rattle.std.specs.Prelude.{◌≡◌, [], length};
ghost use Rattle.lexical.specs.Decimal.{pick_text};
ghost use Rattle.sink.specs.Sink.{sink, Wrote};
ghost use Rattle.format.specs.Bits.{bits_at};
ghost use Rattle.format.specs.Decoding.{kind_of, type_at};
ghost use Rattle.bridge.specs.WriteType.{write_type};
ghost use Rattle.cursor.specs.Checking.{Limited};
ghost use Rattle.view.specs.Values.{Yields};
ghost use Rattle.write_atom.specs.Texts.{space_of_kind};
ghost use Rattle.write_type.specs.TypeAt.{ty_at};
ghost use Rattle.tables.specs.Tables.{items_in, items_of, Lent};
ghost use Rattle.write_chain.specs.Chains.{begin_of, base_of, end_of, code_of, ends_of, write_type_as, Entering};

use cursor::{Cursor, extract, width};
use mangle::write_full_name;
use sink::put_bytes;
use tables::{Pool, Table};
use view::prefix_of;
use write_atom::write_atom;
use write_type::write_type;

// From here on a stack has no room for one more code.
const HIGH: usize = 0x1000_0000_0000_0000;

// ---- texts, by the number of a kind or by a code

// What stands before an inner type.
fn put_begin(k: u32, out: &mut [u8], at: usize) -> usize
    ensures { Wrote (sink out.old at) (begin_of (kind_of k)) (sink out.new result) }
{
    match k {
        2 => put_bytes(out, at, b"::rust::Box<"),
        3 => put_bytes(out, at, b"::rust::Vec<"),
        4 => put_bytes(out, at, b"::std::unique_ptr<"),
        5 => put_bytes(out, at, b"::std::shared_ptr<"),
        6 => put_bytes(out, at, b"::std::weak_ptr<"),
        7 => at,
        8 => at,
        10 => put_bytes(out, at, b"::std::vector<"),
        13 => put_bytes(out, at, b"::rust::Slice<"),
        _ => at,
    }
}

// What stands behind an inner type, with the space before it; 14 is the space behind the whole type.
fn put_end(code: usize, out: &mut [u8], at: usize) -> usize
    ensures { Wrote (sink out.old at) (end_of code) (sink out.new result) }
{
    match code {
        1 => put_bytes(out, at, b">"),
        2 => put_bytes(out, at, b"const &"),
        3 => put_bytes(out, at, b" const &"),
        4 => put_bytes(out, at, b"&"),
        5 => put_bytes(out, at, b" &"),
        6 => put_bytes(out, at, b"const *"),
        7 => put_bytes(out, at, b" const *"),
        8 => put_bytes(out, at, b"*"),
        9 => put_bytes(out, at, b" *"),
        10 => put_bytes(out, at, b"const>"),
        11 => put_bytes(out, at, b" const>"),
        12 => put_bytes(out, at, b">"),
        13 => put_bytes(out, at, b" >"),
        14 => put_bytes(out, at, b" "),
        _ => at,
    }
}

// The first code of a pointer; 0 for a kind that is none.
fn base_of(k: u32) -> usize
    ensures { result ≡ base_of (kind_of k) }
{
    match k {
        7 => 2,
        8 => 6,
        13 => 10,
        _ => 0,
    }
}

// The space behind a type.
fn space_length(k: u32) -> usize
    ensures { result ≡ length (space_of_kind (kind_of k)) }
{
    match k {
        7 => 0,
        8 => 0,
        _ => 1,
    }
}

// The space behind the whole type, where one is asked for.
pub fn end_length(spaced: bool, k: u32) -> usize
    ensures { result ≡ length (pick_text spaced (space_of_kind (kind_of k)) []) }
{
    if spaced {
        return space_length(k);
    }
    0
}

// The code of what stands behind the inner type of a pointer of kind k, by the five bits that follow k: the mutable bit
// and the inner type's kind.
pub fn code_of(k: u32, m: u32) -> usize
    ensures { result ≡ code_of (kind_of k) m }
{
    base_of(k) + (m / 16 * 2) as usize + space_length(m % 16)
}

// ---- inwards

// An inner type that is reached: where it stands, its kind, the levels left, the codes of what stands behind it, and
// the place for its text.
#[derive(Clone, Copy)]
struct Entered {
    at: u32,
    kind: u32,
    levels: u32,
    stack: usize,
    place: usize,
}

// Into the type at c, as far as its inner types are single and the stack has room.
fn enter(
    s: &[u8],
    t: &[u32; Table::PLACES],
    c: Cursor,
    levels: u32,
    spaced: bool,
    out: &mut [u8],
    at: usize,
) -> Entered
    requires { Limited s.now ×
        Yields (type_at (length (items_in t.now)) levels s.now c.at)
        (ty_at (length (items_in t.now)) levels s.now c.at) }
    ensures { Entering (length (items_in t.now)) s.now
        (items_of s.now t.now)
        (write_type_as spaced (items_of s.now t.now)
        (ty_at (length (items_in t.now)) levels s.now c.at))
        (sink out.old at) (sink out.new result.place) result.at result.levels result.stack ×
        (result.kind ≡ bits_at s.now result.at 4) }
{
    let mut p = c.at;
    let mut k = extract(s, p, 4);
    let mut left = levels;
    let mut stack = end_length(spaced, k) * 14;
    let mut here = at;
    let mut prefix = prefix_of(k);
    // Down to the base, level by level: no count.
    while 0 < prefix {
        if HIGH <= stack {
            return Entered {
                at: p,
                kind: k,
                levels: left,
                stack,
                place: here,
            };
        }
        here = put_begin(k, out, here);
        left = left - 1;
        if prefix == 4 {
            stack = stack * 16 + 1;
            p = p + 4;
            k = extract(s, p, 4);
            prefix = prefix_of(k);
            continue;
        }
        let m = extract(s, p + 4, 5);
        stack = stack * 16 + code_of(k, m);
        p = p + 5;
        k = m % 16;
        prefix = prefix_of(k);
    }
    Entered {
        at: p,
        kind: k,
        levels: left,
        stack,
        place: here,
    }
}

// ---- the inner type that is reached, and outwards

// The type at a position, of kind k, with so many levels left.
fn write_inner(
    s: &[u8],
    t: &[u32; Table::PLACES],
    pool: &[u8; Pool::BYTES],
    p: u32,
    k: u32,
    levels: u32,
    out: &mut [u8],
    at: usize,
) -> usize
    requires { Lent s.now t.now pool.now ×
        Yields (type_at (length (items_in t.now)) levels s.now p)
        (ty_at (length (items_in t.now)) levels s.now p) × (k ≡ bits_at s.now p 4) }
    ensures { Wrote (sink out.old at)
        (write_type (items_of s.now t.now)
        (ty_at (length (items_in t.now)) levels s.now p)) (sink out.new result) }
{
    if k == 0 {
        let a = extract(s, p + 4, 4);
        return write_atom(a, out, at);
    }
    if k == 9 {
        return put_bytes(out, at, b"::rust::Str");
    }
    if k == 1 {
        let w = width(t[Table::ITEMS]);
        let i = extract(s, p + 4, w);
        return write_full_name(s, t, pool, i, out, at);
    }
    let walked = write_type(s, t, pool, Cursor::new(p), levels, out, at);
    walked.at
}

// What a stack's codes stand for, the last one first.
fn leave(codes: usize, out: &mut [u8], at: usize) -> usize
    ensures { Wrote (sink out.old at) (ends_of codes) (sink out.new result) }
{
    let mut stack = codes;
    let mut here = at;
    // A stack of codes, no count.
    while 0 < stack {
        here = put_end(stack % 16, out, here);
        stack = stack / 16;
    }
    here
}

// The type at c, with so many levels left, and with a space behind it where one is asked for and belongs.
pub fn write_chain(
    s: &[u8],
    t: &[u32; Table::PLACES],
    pool: &[u8; Pool::BYTES],
    c: Cursor,
    levels: u32,
    spaced: bool,
    out: &mut [u8],
    at: usize,
) -> usize
    requires { Lent s.now t.now pool.now ×
        Yields (type_at (length (items_in t.now)) levels s.now c.at)
        (ty_at (length (items_in t.now)) levels s.now c.at) }
    ensures { Wrote (sink out.old at)
        (write_type_as spaced (items_of s.now t.now)
        (ty_at (length (items_in t.now)) levels s.now c.at)) (sink out.new result) }
{
    let e = enter(s, t, c, levels, spaced, out, at);
    let here = write_inner(s, t, pool, e.at, e.kind, e.levels, out, e.place);
    leave(e.stack, out, here)
}
