// Shims: the functions that C++ calls, each of which calls a Rust function.
#![tactic(auto)]

ghost use Rattle.std.specs.Prelude.{◌≡◌, [], not, ◌&&◌};
ghost use Rattle.lexical.specs.Decimal.{pick_text};
ghost use Rattle.syntax.specs.Items.{item_at};
ghost use Rattle.bridge.specs.Write.{is_free, shim_body, write_doc, function_shim};
ghost use Rattle.sink.specs.Sink.{sink, Wrote};
ghost use Rattle.view.specs.Values.{Yields};
ghost use Rattle.view.specs.Views.{comment_lines};
ghost use Rattle.summary.specs.Summaries.{Summary};
ghost use Rattle.tables.specs.Tables.{items_of, function_of, Item, Function, Lent};

use call::{put_call_end, put_slot_return, write_return, write_slot};
use cursor::Cursor;
use doc::write_doc;
use head::write_shim_decl;
use mangle::write_extern_fn;
use operands::{write_held_locals, write_operands};
use shape::indirect_return;
use sink::{put_bytes, put_when};
use tables::{Pool, Table};
use view::{FunctionView, ItemView};

// ---- the body

// Whether a function returns its value itself.
fn is_direct(returns: bool, indirect: bool) -> bool
    ensures { result ≡ (returns && not indirect) }
{
    returns && !indirect
}

// The body of the function's shim.
fn write_shim_body(
    s: &[u8],
    t: &[u32; Table::PLACES],
    pool: &[u8; Pool::BYTES],
    v: ItemView,
    f: FunctionView,
    offsets: &[u32],
    out: &mut [u8],
    at: usize,
) -> usize
    requires { Lent s.now t.now pool.now × Item s.now t.now v ×
        Function s.now t.now f × (f.number ≡ v.number) ×
        Summary s.now t.now f offsets.now }
    ensures { Wrote (sink out.old at)
        (shim_body (items_of s.now t.now)
        (item_at (items_of s.now t.now) v.number)
        (function_of s.now t.now f.number))
        (sink out.new result) }
{
    let indirect = indirect_return(s, t, f);
    let direct = is_direct(f.returns, indirect);
    let begun = put_bytes(out, at, b" {\n");
    let held = write_held_locals(s, t, pool, f, offsets, out, begun);
    let indented = put_bytes(out, held, b"  ");
    let slotted = write_slot(s, t, pool, f.result, indirect, out, indented);
    let returned = write_return(s, t, pool, f.result, direct, out, slotted);
    let guarded = put_when(out, returned, f.throws, b"::rust::repr::PtrLen error$ = ");
    let named = write_extern_fn(s, t, pool, v, f, out, guarded);
    let opened = put_bytes(out, named, b"(");
    let listed = write_operands(s, t, pool, f, offsets, indirect, out, opened);
    let closed = put_bytes(out, listed, b")");
    let taken = put_call_end(s, t, f.result, direct, out, closed);
    let called = put_bytes(out, taken, b";\n");
    let tested = put_when(
        out,
        called,
        f.throws,
        b"  if (error$.ptr) {\n    throw ::rust::impl<::rust::Error>::error(error$);\n  }\n",
    );
    let given = put_slot_return(s, t, f.result, indirect, out, tested);
    put_bytes(out, given, b"}\n")
}

// ---- the shim

// The comment of a function that is no member.
fn write_shim_doc(
    s: &[u8],
    t: &[u32; Table::PLACES],
    pool: &[u8; Pool::BYTES],
    doxygen: bool,
    f: FunctionView,
    comment: Cursor,
    out: &mut [u8],
    at: usize,
) -> usize
    requires { Lent s.now t.now pool.now × Function s.now t.now f ×
        Yields (comment_lines s.now comment.at) (function_of s.now t.now f.number).comment }
    ensures { Wrote (sink out.old at)
        (pick_text (is_free (function_of s.now t.now f.number).form)
        (write_doc doxygen (function_of s.now t.now
        f.number).comment) []) (sink out.new result) }
{
    match f.form.self_type() {
        None => write_doc(s, doxygen, comment, out, at),
        Some(_) => at,
    }
}

// The shim of a function: its comment, its head, and its body where it is no header.
pub fn write_function_shim(
    s: &[u8],
    t: &[u32; Table::PLACES],
    pool: &[u8; Pool::BYTES],
    header: bool,
    doxygen: bool,
    v: ItemView,
    f: FunctionView,
    offsets: &[u32],
    comment: Cursor,
    out: &mut [u8],
    at: usize,
) -> usize
    requires { Lent s.now t.now pool.now × Item s.now t.now v ×
        Function s.now t.now f × (f.number ≡ v.number) ×
        Summary s.now t.now f offsets.now ×
        Yields (comment_lines s.now comment.at) (function_of s.now t.now f.number).comment }
    ensures { Wrote (sink out.old at)
        (function_shim (record {
          header = header;
          doxygen = doxygen;
          items = items_of s.now t.now;
        })
        (item_at (items_of s.now t.now) v.number)
        (function_of s.now t.now f.number))
        (sink out.new result) }
{
    let a = write_shim_doc(s, t, pool, doxygen, f, comment, out, at);
    let b = write_shim_decl(s, t, pool, v, f, offsets, out, a);
    if header {
        return put_bytes(out, b, b";\n");
    }
    write_shim_body(s, t, pool, v, f, offsets, out, b)
}
