// The parameters of a Rust function's declaration in C++ (bridge/write.rs `write_rust_function_decl_impl`).
#![tactic(auto)]

ghost use Rattle.std.specs.Prelude.{◌≡◌, false, map, ◌<◌, ◌≤◌, length};
ghost use Rattle.bridge.specs.Write.{commas, indirect_return, shape as shape_of, extern_arg_type, extern_arg};
ghost use Rattle.bridge.specs.Write.{receiver, slot, extern_parameters};
ghost use Rattle.sink.specs.Sink.{sink, Wrote};
ghost use Rattle.view.specs.Views.{kind_of_type, owner_of};
ghost use Rattle.parameters.specs.Parts.{slot_parameter};
ghost use Rattle.summary.specs.Summaries.{Summary};
ghost use Rattle.tables.specs.Tables.{items_of, function_of, argument_of, Function, Arguments, Lent, type_of, Typed};

use cursor::Cursor;
use mangle::write_full_name;
use shape::{is_method, needs_comma, write_outermost_space, write_pointer, write_slot_type};
use sink::{advance, put_bytes, put_when};
use summary::kept_length;
use tables::{Pool, Table, put_name_of, type_kind};
use view::{FormView, FunctionView, argument};
use write_atom::write_space_after_type;

// ---- the receiver

// The receiver's parameter, where there is one.
fn write_receiver(
    s: &[u8],
    t: &[u32; Table::PLACES],
    pool: &[u8; Pool::BYTES],
    f: FunctionView,
    out: &mut [u8],
    at: usize,
) -> usize
    requires { Lent s.now t.now pool.now × Function s.now t.now f }
    ensures { Wrote (sink out.old at)
        (commas false (receiver (items_of s.now t.now)
        (function_of s.now t.now f.number).form))
        (sink out.new result) }
{
    match f.form {
        FormView::ConstMethod(i) => {
            let named = write_full_name(s, t, pool, i, out, at);
            let qualified = put_bytes(out, named, b" const");
            put_bytes(out, qualified, b" &self")
        }
        FormView::MutMethod(i) => {
            let named = write_full_name(s, t, pool, i, out, at);
            put_bytes(out, named, b" &self")
        }
        FormView::Associated(_) => at,
        FormView::Free => at,
    }
}

// ---- arguments

// The type at c as an argument has it; owner says whether its kind is an owner's.
fn write_extern_arg_type(
    s: &[u8],
    t: &[u32; Table::PLACES],
    pool: &[u8; Pool::BYTES],
    c: Cursor,
    owner: u32,
    out: &mut [u8],
    at: usize,
) -> usize
    requires { Lent s.now t.now pool.now × Typed s.now t.now c.at ×
        (owner ≡ owner_of (kind_of_type (type_of s.now t.now c.at))) }
    ensures { Wrote (sink out.old at)
        (extern_arg_type (items_of s.now t.now)
        (type_of s.now t.now c.at)
        (shape_of (type_of s.now t.now c.at))) (sink out.new result) }
{
    if owner == 0 {
        return write_outermost_space(s, t, pool, c, out, at);
    }
    let inner = Cursor::new(c.at + 4);
    write_pointer(s, t, pool, inner, true, out, at)
}

// `write_extern_arg`, for argument j
fn write_extern_arg(
    s: &[u8],
    t: &[u32; Table::PLACES],
    pool: &[u8; Pool::BYTES],
    f: FunctionView,
    offsets: &[u32],
    j: u32,
    out: &mut [u8],
    at: usize,
) -> usize
    requires { Lent s.now t.now pool.now × Arguments s.now t.now f offsets.now ×
        (j < f.arguments) × (f.arguments ≤ length offsets.now) }
    ensures { Wrote (sink out.old at)
        (extern_arg (items_of s.now t.now)
        (argument_of s.now t.now f.number j))
        (sink out.new result) }
{
    let a = argument(offsets, j);
    let typed = write_extern_arg_type(s, t, pool, a.of, a.owner, out, at);
    let marked = put_when(out, typed, a.indirect, b"*");
    put_name_of(s, t, pool, a.name, out, marked)
}

// Every argument; a comma before the first if `before`. Where the buffer ends before the place, they are counted if the
// summary has their length.
fn write_extern_args(
    s: &[u8],
    t: &[u32; Table::PLACES],
    pool: &[u8; Pool::BYTES],
    f: FunctionView,
    offsets: &[u32],
    before: bool,
    out: &mut [u8],
    at: usize,
) -> usize
    requires { Lent s.now t.now pool.now × Summary s.now t.now f offsets.now }
    ensures { Wrote (sink out.old at)
        (commas before (map (extern_arg (items_of s.now t.now))
        (function_of s.now t.now f.number).arguments))
        (sink out.new result) }
{
    if out.len() < at {
        let n = kept_length(offsets, f.arguments as usize);
        if 0 < n {
            let next = put_when(out, at, before, b", ");
            return advance(next, n);
        }
    }
    let mut here = at;
    let mut comma = before;
    for j in 0..f.arguments {
        let next = put_when(out, here, comma, b", ");
        here = write_extern_arg(s, t, pool, f, offsets, j, out, next);
        comma = true;
    }
    here
}

// ---- the return slot

// The slot's parameter, where the return is indirect; a comma before it if `before`.
fn write_slot(
    s: &[u8],
    t: &[u32; Table::PLACES],
    pool: &[u8; Pool::BYTES],
    f: FunctionView,
    indirect: bool,
    before: bool,
    out: &mut [u8],
    at: usize,
) -> usize
    requires { Lent s.now t.now pool.now × Function s.now t.now f ×
        (indirect ≡ indirect_return (items_of s.now t.now)
        (function_of s.now t.now f.number)
        (function_of s.now t.now f.number).return) }
    ensures { Wrote (sink out.old at)
        (commas before (map (slot_parameter (items_of s.now t.now))
        (slot (items_of s.now t.now)
        (function_of s.now t.now f.number))))
        (sink out.new result) }
{
    if indirect {
        let next = put_when(out, at, before, b", ");
        let typed = write_slot_type(s, t, pool, f.result, out, next);
        let kind = type_kind(s, t, f.result);
        let spaced = write_space_after_type(kind, out, typed);
        return put_bytes(out, spaced, b"*return$");
    }
    at
}

// ---- all of them

// The parameters: the receiver, the arguments, the slot.
pub fn write_parameters(
    s: &[u8],
    t: &[u32; Table::PLACES],
    pool: &[u8; Pool::BYTES],
    f: FunctionView,
    offsets: &[u32],
    indirect: bool,
    out: &mut [u8],
    at: usize,
) -> usize
    requires { Lent s.now t.now pool.now × Function s.now t.now f ×
        Summary s.now t.now f offsets.now ×
        (indirect ≡ indirect_return (items_of s.now t.now)
        (function_of s.now t.now f.number)
        (function_of s.now t.now f.number).return) }
    ensures { Wrote (sink out.old at)
        (commas false (extern_parameters (items_of s.now t.now)
        (function_of s.now t.now f.number)))
        (sink out.new result) }
{
    let method = is_method(f);
    let received = write_receiver(s, t, pool, f, out, at);
    let listed = write_extern_args(s, t, pool, f, offsets, method, out, received);
    let comma = needs_comma(method, f.arguments);
    write_slot(s, t, pool, f, indirect, comma, out, listed)
}
