// How types are spelled in C++: `write_type` and `write_type_space` of write.rs.
#![tactic(auto)]

ghost use Rattle.std.specs.Prelude.{◌≡◌, length};
ghost use Rattle.sink.specs.Sink.{sink, Wrote};
ghost use Rattle.format.specs.Decoding.{type_at};
ghost use Rattle.bridge.specs.WriteType.{write_type, write_type_space};
ghost use Rattle.view.specs.Values.{next_of, Yields};
ghost use Rattle.write_type.specs.TypeAt.{ty_at};
ghost use Rattle.tables.specs.Tables.{items_in, items_of, Lent};

use cursor::fields::field;
use cursor::{Cursor, width};
use format::TypeKind;
use mangle::write_full_name;
use sink::{put_bytes, put_decimal, put_when};
use tables::{Pool, Table};
use types::kind_of;
use write_atom::{
    put_pointer_begin, put_pointer_end, put_template, write_atom, write_space_after_type,
};

// Where a speller is: in the text, and behind the type that it has written.
#[derive(Clone, Copy)]
pub struct Walked {
    pub at: usize,
    pub next: Cursor,
}

// The type at c, with so many levels left.
#[cycle(write_type_write_type_space)]
pub fn write_type(
    s: &[u8],
    t: &[u32; Table::PLACES],
    pool: &[u8; Pool::BYTES],
    c: Cursor,
    levels: u32,
    out: &mut [u8],
    at: usize,
) -> Walked
    requires { Lent s.now t.now pool.now ×
        Yields (type_at (length (items_in t.now)) levels s.now c.at)
        (ty_at (length (items_in t.now)) levels s.now c.at) }
    ensures { Wrote (sink out.old at)
        (write_type (items_of s.now t.now)
        (ty_at (length (items_in t.now)) levels s.now c.at)) (sink out.new result.at) ×
        (result.next.at ≡ next_of (type_at (length (items_in t.now)) levels s.now c.at)) }
{
    let k = field(s, c, 4);
    let kind = kind_of(k.value);
    let inner = levels - 1;
    let inside = k.next;
    match kind {
        TypeKind::Atom => {
            let a = field(s, inside, 4);
            let end = write_atom(a.value, out, at);
            let next = a.next;
            Walked { at: end, next }
        }
        TypeKind::Named => {
            let w = width(t[Table::ITEMS]);
            let i = field(s, inside, w);
            let end = write_full_name(&s[..], t, pool, i.value, out, at);
            let next = i.next;
            Walked { at: end, next }
        }
        TypeKind::Template(of) => {
            let begin = put_template(of, out, at);
            let w = write_type(&s[..], t, pool, inside, inner, out, begin);
            let end = put_bytes(out, w.at, b">");
            let next = w.next;
            Walked { at: end, next }
        }
        TypeKind::Pointer(of) => {
            let m = field(s, inside, 1);
            let mutable = m.value == 1;
            let begin = put_pointer_begin(of, out, at);
            let w = write_type_space(&s[..], t, pool, m.next, inner, out, begin);
            let end = put_pointer_end(of, mutable, out, w.at);
            let next = w.next;
            Walked { at: end, next }
        }
        TypeKind::Str => {
            let end = put_bytes(out, at, b"::rust::Str");
            Walked {
                at: end,
                next: inside,
            }
        }
        TypeKind::Fn => {
            let b = field(s, inside, 1);
            let mut here = put_bytes(out, at, b"::rust::Fn<");
            let mut next = b.next;
            if b.value == 1 {
                let w = write_type(&s[..], t, pool, next, inner, out, here);
                here = w.at;
                next = w.next;
            } else {
                here = put_bytes(out, here, b"void");
            }
            let n = field(s, next, 4);
            let count = n.value;
            here = put_bytes(out, here, b"(");
            next = n.next;
            for i in 0..count {
                here = put_when(out, here, 0 < i, b", ");
                let w = write_type(&s[..], t, pool, next, inner, out, here);
                here = w.at;
                next = w.next;
            }
            let end = put_bytes(out, here, b")>");
            Walked { at: end, next }
        }
        TypeKind::Array => {
            let begin = put_bytes(out, at, b"::std::array<");
            let w = write_type(&s[..], t, pool, inside, inner, out, begin);
            let n = field(s, w.next, 32);
            let comma = put_bytes(out, w.at, b", ");
            let number = put_decimal(out, comma, n.value);
            let end = put_bytes(out, number, b">");
            let next = n.next;
            Walked { at: end, next }
        }
        TypeKind::Bad => Walked { at, next: inside },
    }
}

// The same with `write_space_after_type` behind it.
#[cycle(write_type_write_type_space)]
pub fn write_type_space(
    s: &[u8],
    t: &[u32; Table::PLACES],
    pool: &[u8; Pool::BYTES],
    c: Cursor,
    levels: u32,
    out: &mut [u8],
    at: usize,
) -> Walked
    requires { Lent s.now t.now pool.now ×
        Yields (type_at (length (items_in t.now)) levels s.now c.at)
        (ty_at (length (items_in t.now)) levels s.now c.at) }
    ensures { Wrote (sink out.old at)
        (write_type_space (items_of s.now t.now)
        (ty_at (length (items_in t.now)) levels s.now c.at)) (sink out.new result.at) ×
        (result.next.at ≡ next_of (type_at (length (items_in t.now)) levels s.now c.at)) }
{
    let w = write_type(&s[..], t, pool, c, levels, out, at);
    let k = field(s, c, 4);
    let kind = kind_of(k.value);
    let end = write_space_after_type(kind, out, w.at);
    let next = w.next;
    Walked { at: end, next }
}
