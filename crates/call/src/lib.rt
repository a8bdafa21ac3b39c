// What stands around a shim's call: the return slot, the function that takes the result, and the return of the slot.
#![tactic(auto)]

ghost use Rattle.std.specs.Prelude.{◌≡◌, true, [], ◌++◌};
ghost use Rattle.lexical.specs.Bytes.{bytes};
ghost use Rattle.lexical.specs.Decimal.{pick_text};
ghost use Rattle.bridge.specs.Write.{shape as shape_of, slot_type, call_begin, call_end, slot_return};
ghost use Rattle.sink.specs.Sink.{sink, Wrote};
ghost use Rattle.cursor.specs.Checking.{Limited};
ghost use Rattle.call.specs.Calls.{is_closed};
ghost use Rattle.tables.specs.Tables.{items_of, Lent, type_of, Typed};

use cursor::Cursor;
use shape::{ShapeKind, is_ref, shape, write_outermost, write_slot_type};
use sink::{put_bytes, put_when};
use tables::{Pool, Table};

// ---- the slot

// The slot of the type at c, where the return is indirect.
pub fn write_slot(
    s: &[u8],
    t: &[u32; Table::PLACES],
    pool: &[u8; Pool::BYTES],
    c: Cursor,
    indirect: bool,
    out: &mut [u8],
    at: usize,
) -> usize
    requires { Lent s.now t.now pool.now ×
        (indirect ≡ true → Typed s.now t.now c.at) }
    ensures { Wrote (sink out.old at)
        (pick_text indirect (bytes "::rust::MaybeUninit<" ++ slot_type
        (items_of s.now t.now)
        (type_of s.now t.now c.at)
        (shape_of (type_of s.now t.now c.at)) ++ bytes "> return$;\n" ++ bytes "  ") [])
        (sink out.new result) }
{
    if indirect {
        let a = put_bytes(out, at, b"::rust::MaybeUninit<");
        let b = write_slot_type(s, t, pool, c, out, a);
        let d = put_bytes(out, b, b"> return$;\n");
        return put_bytes(out, d, b"  ");
    }
    at
}

// ---- a direct return

// What takes the call's result, of the type at c.
fn write_call_begin(
    s: &[u8],
    t: &[u32; Table::PLACES],
    pool: &[u8; Pool::BYTES],
    c: Cursor,
    out: &mut [u8],
    at: usize,
) -> usize
    requires { Lent s.now t.now pool.now ×
        Typed s.now t.now c.at }
    ensures { Wrote (sink out.old at)
        (call_begin (items_of s.now t.now)
        (type_of s.now t.now c.at)
        (shape_of (type_of s.now t.now c.at))) (sink out.new result) }
{
    match shape(s, t, c).kind {
        ShapeKind::RustBox => {
            let typed = write_outermost(s, t, pool, c, out, at);
            put_bytes(out, typed, b"::from_raw(")
        }
        ShapeKind::UniquePtr => {
            let typed = write_outermost(s, t, pool, c, out, at);
            put_bytes(out, typed, b"(")
        }
        ShapeKind::Ref => put_bytes(out, at, b"*"),
        ShapeKind::Str => put_bytes(out, at, b"::rust::impl<::rust::Str>::new_unchecked("),
        ShapeKind::SliceRef => {
            let begun = put_bytes(out, at, b"::rust::impl<");
            let typed = write_outermost(s, t, pool, c, out, begun);
            put_bytes(out, typed, b">::slice(")
        }
        ShapeKind::Other => at,
    }
}

// What stands before a call that returns the type at c, where the return is direct.
pub fn write_return(
    s: &[u8],
    t: &[u32; Table::PLACES],
    pool: &[u8; Pool::BYTES],
    c: Cursor,
    direct: bool,
    out: &mut [u8],
    at: usize,
) -> usize
    requires { Lent s.now t.now pool.now ×
        (direct ≡ true → Typed s.now t.now c.at) }
    ensures { Wrote (sink out.old at)
        (pick_text direct (bytes "return " ++ call_begin
        (items_of s.now t.now)
        (type_of s.now t.now c.at)
        (shape_of (type_of s.now t.now c.at))) [])
        (sink out.new result) }
{
    if direct {
        let behind = put_bytes(out, at, b"return ");
        return write_call_begin(s, t, pool, c, out, behind);
    }
    at
}

fn is_closed(kind: ShapeKind) -> bool
    ensures { result ≡ is_closed kind }
{
    matches!(
        kind,
        ShapeKind::RustBox | ShapeKind::UniquePtr | ShapeKind::Str | ShapeKind::SliceRef
    )
}

// What closes the function that takes the call's result, where the return is direct.
pub fn put_call_end(
    s: &[u8],
    t: &[u32; Table::PLACES],
    c: Cursor,
    direct: bool,
    out: &mut [u8],
    at: usize,
) -> usize
    requires { Limited s.now × (direct ≡ true → Typed s.now t.now c.at) }
    ensures { Wrote (sink out.old at)
        (pick_text direct (call_end (shape_of (type_of s.now t.now c.at))) [])
        (sink out.new result) }
{
    if direct {
        let closed = is_closed(shape(s, t, c).kind);
        return put_when(out, at, closed, b")");
    }
    at
}

// ---- the return of what the slot holds

fn put_slot_value(reference: bool, out: &mut [u8], at: usize) -> usize
    ensures { Wrote (sink out.old at)
        (pick_text reference (bytes "*return$.value") (bytes "::std::move(return$.value)"))
        (sink out.new result) }
{
    if reference {
        return put_bytes(out, at, b"*return$.value");
    }
    put_bytes(out, at, b"::std::move(return$.value)")
}

// The return of what the slot of the type at c holds, where the return is indirect.
pub fn put_slot_return(
    s: &[u8],
    t: &[u32; Table::PLACES],
    c: Cursor,
    indirect: bool,
    out: &mut [u8],
    at: usize,
) -> usize
    requires { Limited s.now × (indirect ≡ true → Typed s.now t.now c.at) }
    ensures { Wrote (sink out.old at)
        (pick_text indirect (bytes "  return " ++ slot_return
        (shape_of (type_of s.now t.now c.at)) ++ bytes ";\n") [])
        (sink out.new result) }
{
    if indirect {
        let reference = is_ref(shape(s, t, c).kind);
        let a = put_bytes(out, at, b"  return ");
        let b = put_slot_value(reference, out, a);
        return put_bytes(out, b, b";\n");
    }
    at
}
