// The head of a shim.
#![tactic(auto)]

ghost use Rattle.std.specs.Prelude.{◌≡◌, ◌++◌, map, false, ◌&&◌, ◌≤◌, ◌<◌, length};
ghost use Rattle.lexical.specs.Bytes.{bytes};
ghost use Rattle.lexical.specs.Decimal.{pick_text};
ghost use Rattle.syntax.specs.Items.{item_at};
ghost use Rattle.bridge.specs.WriteType.{write_type_space, write_return_type};
ghost use Rattle.bridge.specs.Write.{commas, is_const, is_cxx_main, local_name, shim_decl};
ghost use Rattle.view.specs.Views.{form_of};
ghost use Rattle.sink.specs.Sink.{sink, Wrote};
ghost use Rattle.summary.specs.Summaries.{Summary};
ghost use Rattle.tables.specs.Tables.{items_of, function_of, argument_of, Tabled, Item, Function, Arguments, Lent};

use mangle::write_cxx_name;
use shape::write_outermost_space;
use sink::{advance, put_bytes, put_unless, put_when};
use summary::kept_length;
use tables::{Pool, Table, put_name_of, reads};
use view::{FormView, FunctionView, ItemView, argument};

// Whether the function is the program's `main`. Its name is read last, and only if the rest holds.
fn is_main(s: &[u8], t: &[u32; Table::PLACES], v: ItemView, f: FunctionView) -> bool
    requires { Tabled s.now t.now × Item s.now t.now v ×
        Function s.now t.now f }
    ensures { result ≡ is_cxx_main (item_at (items_of s.now t.now)
        v.number) (function_of s.now t.now f.number) }
{
    if f.form.self_type().is_some() {
        return false;
    }
    f.arguments == 0 && v.depth == 0 && !f.returns && !f.throws && reads(s, t, v.name, b"main")
}

// The type that the shim returns: that of the function, but for `main`.
fn write_shim_type(
    s: &[u8],
    t: &[u32; Table::PLACES],
    pool: &[u8; Pool::BYTES],
    v: ItemView,
    f: FunctionView,
    out: &mut [u8],
    at: usize,
) -> usize
    requires { Lent s.now t.now pool.now × Item s.now t.now v ×
        Function s.now t.now f }
    ensures { Wrote (sink out.old at)
        (pick_text (is_cxx_main (item_at (items_of s.now t.now) v.number)
        (function_of s.now t.now f.number)) (bytes "int ")
        (write_return_type (items_of s.now t.now)
        (function_of s.now t.now f.number).return))
        (sink out.new result) }
{
    if is_main(s, t, v, f) {
        return put_bytes(out, at, b"int ");
    }
    if f.returns {
        return write_outermost_space(s, t, pool, f.result, out, at);
    }
    put_bytes(out, at, b"void ")
}

// The name that the head defines, behind that of the self type where there is one.
fn write_local_name(
    s: &[u8],
    t: &[u32; Table::PLACES],
    pool: &[u8; Pool::BYTES],
    v: ItemView,
    f: FunctionView,
    out: &mut [u8],
    at: usize,
) -> usize
    requires { Lent s.now t.now pool.now × Item s.now t.now v ×
        Function s.now t.now f }
    ensures { Wrote (sink out.old at)
        (local_name (items_of s.now t.now)
        (item_at (items_of s.now t.now) v.number)
        (function_of s.now t.now f.number))
        (sink out.new result) }
{
    match f.form.self_type() {
        None => put_name_of(s, t, pool, v.name, out, at),
        Some(i) => {
            let owned = write_cxx_name(s, t, pool, i, out, at);
            let behind = put_bytes(out, owned, b"::");
            put_name_of(s, t, pool, v.name, out, behind)
        }
    }
}

// Parameter j.
fn write_parameter(
    s: &[u8],
    t: &[u32; Table::PLACES],
    pool: &[u8; Pool::BYTES],
    f: FunctionView,
    offsets: &[u32],
    j: u32,
    out: &mut [u8],
    at: usize,
) -> usize
    requires { Lent s.now t.now pool.now × Arguments s.now t.now f offsets.now ×
        (j < f.arguments) × (f.arguments ≤ length offsets.now) }
    ensures { Wrote (sink out.old at)
        (write_type_space (items_of s.now t.now)
        (argument_of s.now t.now f.number j).type ++
        (argument_of s.now t.now f.number j).name) (sink out.new result) }
{
    let a = argument(offsets, j);
    let behind = write_outermost_space(s, t, pool, a.of, out, at);
    put_name_of(s, t, pool, a.name, out, behind)
}

// The parameters. Where the buffer ends before the place, they are counted if the summary has their length.
fn write_parameters(
    s: &[u8],
    t: &[u32; Table::PLACES],
    pool: &[u8; Pool::BYTES],
    f: FunctionView,
    offsets: &[u32],
    out: &mut [u8],
    at: usize,
) -> usize
    requires { Lent s.now t.now pool.now × Summary s.now t.now f offsets.now }
    ensures { Wrote (sink out.old at)
        (commas false (map (λ a. write_type_space (items_of s.now t.now)
        a.type ++ a.name) (function_of s.now t.now
        f.number).arguments)) (sink out.new result) }
{
    if out.len() < at {
        let n = kept_length(offsets, f.arguments as usize + 1);
        if 0 < n {
            return advance(at, n);
        }
    }
    let mut here = at;
    let mut comma = false;
    for j in 0..f.arguments {
        let behind = put_when(out, here, comma, b", ");
        here = write_parameter(s, t, pool, f, offsets, j, out, behind);
        comma = true;
    }
    here
}

fn is_const(form: FormView) -> bool
    ensures { result ≡ is_const (form_of form) }
{
    matches!(form, FormView::ConstMethod(_))
}

// The head of the function's shim.
pub fn write_shim_decl(
    s: &[u8],
    t: &[u32; Table::PLACES],
    pool: &[u8; Pool::BYTES],
    v: ItemView,
    f: FunctionView,
    offsets: &[u32],
    out: &mut [u8],
    at: usize,
) -> usize
    requires { Lent s.now t.now pool.now × Item s.now t.now v ×
        Function s.now t.now f × (f.number ≡ v.number) ×
        Summary s.now t.now f offsets.now }
    ensures { Wrote (sink out.old at)
        (shim_decl (items_of s.now t.now)
        (item_at (items_of s.now t.now) v.number)
        (function_of s.now t.now f.number))
        (sink out.new result) }
{
    let a = write_shim_type(s, t, pool, v, f, out, at);
    let b = write_local_name(s, t, pool, v, f, out, a);
    let c = put_bytes(out, b, b"(");
    let d = write_parameters(s, t, pool, f, offsets, out, c);
    let e = put_bytes(out, d, b")");
    let g = put_when(out, e, is_const(f.form), b" const");
    put_unless(out, g, f.throws, b" noexcept")
}
