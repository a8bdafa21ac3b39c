// syntax/mangle.rs: the symbols of functions and of a type's layout.
ghost use Rattle.std.specs.Prelude.{◌++◌};
ghost use Rattle.sink.specs.Sink.{sink, Wrote};
ghost use Rattle.syntax.specs.Items.{item_at};
ghost use Rattle.syntax.specs.Symbol.{join};
ghost use Rattle.syntax.specs.Mangle.{version, extern_fn, operator};
ghost use Rattle.tables.specs.Tables.{items_of, function_of, Item, Function, Lent};

use crate::namespace::write_namespace;
use crate::symbol::{push, push_name};
use sink::put_bytes;
use tables::{Pool, Table, item};
use view::{FunctionView, ItemView};

// The segments that every symbol begins with: an item's namespace, CXXBRIDGE and CXXVERSION.
fn write_version(
    s: &[u8],
    t: &[u32; Table::PLACES],
    pool: &[u8; Pool::BYTES],
    v: ItemView,
    out: &mut [u8],
    at: usize,
) -> usize
    requires { Lent s.now t.now pool.now × Item s.now t.now v }
    ensures { Wrote (sink out.old at)
        (join ((item_at (items_of s.now t.now) v.number).namespace ++
        version)) (sink out.new result) }
{
    let here = write_namespace(s, t, pool, v, b"", b"$", out, at);
    put_bytes(out, here, b"cxxbridge1$205")
}

// The symbol of a function.
pub fn write_extern_fn(
    s: &[u8],
    t: &[u32; Table::PLACES],
    pool: &[u8; Pool::BYTES],
    v: ItemView,
    f: FunctionView,
    out: &mut [u8],
    at: usize,
) -> usize
    requires { Lent s.now t.now pool.now × Item s.now t.now v ×
        Function s.now t.now f }
    ensures { Wrote (sink out.old at)
        (extern_fn (items_of s.now t.now)
        (item_at (items_of s.now t.now) v.number).namespace
        (function_of s.now t.now f.number))
        (sink out.new result) }
{
    match f.form.self_type() {
        None => {
            let version = write_version(s, t, pool, v, out, at);
            push_name(s, t, pool, f.rust, out, version)
        }
        Some(i) => {
            let self_type = item(s, t, i);
            let scope = write_version(s, t, pool, v, out, at);
            let receiver = push_name(s, t, pool, self_type.name, out, scope);
            push_name(s, t, pool, f.rust, out, receiver)
        }
    }
}

// A symbol of a type's layout: ends in the type's C++ name, `operator` and the name given.
pub fn write_operator(
    s: &[u8],
    t: &[u32; Table::PLACES],
    pool: &[u8; Pool::BYTES],
    v: ItemView,
    name: &[u8],
    out: &mut [u8],
    at: usize,
) -> usize
    requires { Lent s.now t.now pool.now × Item s.now t.now v }
    ensures { Wrote (sink out.old at)
        (operator (item_at (items_of s.now t.now) v.number)
        name.now) (sink out.new result) }
{
    let version = write_version(s, t, pool, v, out, at);
    let receiver = push_name(s, t, pool, v.name, out, version);
    let here = push(b"operator", out, receiver);
    push(name, out, here)
}
