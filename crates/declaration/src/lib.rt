// `write_rust_function_decl_impl` of bridge/write.rs, and the layout functions of an opaque type.
#![tactic(auto)]

ghost use Rattle.std.specs.Prelude.{◌≡◌};
ghost use Rattle.syntax.specs.Items.{item_at};
ghost use Rattle.bridge.specs.Write.{indirect_return, shape as shape_of, direct_return, extern_return};
ghost use Rattle.bridge.specs.Write.{function_decl, layout_decl, layout_definition};
ghost use Rattle.sink.specs.Sink.{sink, Wrote};
ghost use Rattle.summary.specs.Summaries.{Summary};
ghost use Rattle.tables.specs.Tables.{items_of, function_of, Item, Function, Lent, type_of, Typed};

use cursor::Cursor;
use mangle::{write_cxx_name, write_extern_fn, write_operator};
use parameters::write_parameters;
use shape::{ShapeKind, indirect_return, shape, write_outermost_space, write_pointer};
use sink::put_bytes;
use tables::{Pool, Table};
use view::{FunctionView, ItemView};

// ---- the return type

// The type at c where it is returned directly.
fn write_direct_return(
    s: &[u8],
    t: &[u32; Table::PLACES],
    pool: &[u8; Pool::BYTES],
    c: Cursor,
    out: &mut [u8],
    at: usize,
) -> usize
    requires { Lent s.now t.now pool.now ×
        Typed s.now t.now c.at }
    ensures { Wrote (sink out.old at)
        (direct_return (items_of s.now t.now)
        (type_of s.now t.now c.at)
        (shape_of (type_of s.now t.now c.at))) (sink out.new result) }
{
    let v = shape(s, t, c);
    match v.kind {
        ShapeKind::RustBox | ShapeKind::UniquePtr => {
            write_pointer(s, t, pool, v.inner, true, out, at)
        }
        ShapeKind::Ref => write_pointer(s, t, pool, v.inner, v.mutable, out, at),
        ShapeKind::Str | ShapeKind::SliceRef => put_bytes(out, at, b"::rust::repr::Fat "),
        ShapeKind::Other => write_outermost_space(s, t, pool, c, out, at),
    }
}

// `write_extern_return_type_space`
fn write_extern_return(
    s: &[u8],
    t: &[u32; Table::PLACES],
    pool: &[u8; Pool::BYTES],
    f: FunctionView,
    indirect: bool,
    out: &mut [u8],
    at: usize,
) -> usize
    requires { Lent s.now t.now pool.now × Function s.now t.now f ×
        (indirect ≡ indirect_return (items_of s.now t.now)
        (function_of s.now t.now f.number)
        (function_of s.now t.now f.number).return) }
    ensures { Wrote (sink out.old at)
        (extern_return (items_of s.now t.now)
        (function_of s.now t.now f.number))
        (sink out.new result) }
{
    if f.throws {
        return put_bytes(out, at, b"::rust::repr::PtrLen ");
    }
    if indirect {
        return put_bytes(out, at, b"void ");
    }
    if f.returns {
        return write_direct_return(s, t, pool, f.result, out, at);
    }
    put_bytes(out, at, b"void ")
}

// ---- the declaration

// `write_rust_function_decl_impl`
pub fn write_function_decl(
    s: &[u8],
    t: &[u32; Table::PLACES],
    pool: &[u8; Pool::BYTES],
    v: ItemView,
    f: FunctionView,
    offsets: &[u32],
    out: &mut [u8],
    at: usize,
) -> usize
    requires { Lent s.now t.now pool.now × Item s.now t.now v ×
        Function s.now t.now f × (f.number ≡ v.number) ×
        Summary s.now t.now f offsets.now }
    ensures { Wrote (sink out.old at)
        (function_decl (items_of s.now t.now)
        (item_at (items_of s.now t.now) v.number)
        (function_of s.now t.now v.number))
        (sink out.new result) }
{
    let indirect = indirect_return(s, t, f);
    let returned = write_extern_return(s, t, pool, f, indirect, out, at);
    let named = write_extern_fn(s, t, pool, v, f, out, returned);
    let opened = put_bytes(out, named, b"(");
    let listed = write_parameters(s, t, pool, f, offsets, indirect, out, opened);
    put_bytes(out, listed, b") noexcept;\n")
}

// ---- layout functions

// The declaration of an opaque type's size or alignment.
pub fn write_layout_decl(
    s: &[u8],
    t: &[u32; Table::PLACES],
    pool: &[u8; Pool::BYTES],
    v: ItemView,
    name: &[u8],
    out: &mut [u8],
    at: usize,
) -> usize
    requires { Lent s.now t.now pool.now × Item s.now t.now v }
    ensures { Wrote (sink out.old at)
        (layout_decl (item_at (items_of s.now t.now) v.number)
        name.now) (sink out.new result) }
{
    let typed = put_bytes(out, at, b"::std::size_t ");
    let named = write_operator(s, t, pool, v, name, out, typed);
    put_bytes(out, named, b"() noexcept;\n")
}

// Its definition as a member of the type's layout.
pub fn write_layout_definition(
    s: &[u8],
    t: &[u32; Table::PLACES],
    pool: &[u8; Pool::BYTES],
    v: ItemView,
    member: &[u8],
    name: &[u8],
    out: &mut [u8],
    at: usize,
) -> usize
    requires { Lent s.now t.now pool.now × Item s.now t.now v }
    ensures { Wrote (sink out.old at)
        (layout_definition (item_at (items_of s.now t.now) v.number)
        member.now name.now) (sink out.new result) }
{
    let typed = put_bytes(out, at, b"::std::size_t ");
    let of = write_cxx_name(s, t, pool, v.number, out, typed);
    let inside = put_bytes(out, of, b"::layout::");
    let named = put_bytes(out, inside, member);
    let begun = put_bytes(out, named, b"() noexcept {\n");
    let returned = put_bytes(out, begun, b"  return ");
    let called = write_operator(s, t, pool, v, name, out, returned);
    let ended = put_bytes(out, called, b"();\n");
    put_bytes(out, ended, b"}\n")
}
