// The arguments of a shim's call: the locals that hold some of them, and the operands.
#![tactic(auto)]

ghost use Rattle.std.specs.Prelude.{◌≡◌, ◌<◌, ◌≤◌, false, map, length};
ghost use Rattle.rules.specs.Rules.{gather};
ghost use Rattle.bridge.specs.Write.{commas, indirect_return, held_local, operand, operands};
ghost use Rattle.sink.specs.Sink.{sink, Wrote};
ghost use Rattle.tables.specs.Tables.{items_of, function_of, argument_of, Function, Arguments, Lent};
ghost use Rattle.summary.specs.Ends.{owner_end};
ghost use Rattle.summary.specs.Summaries.{Summary};

use shape::{is_method, needs_comma, write_outermost};
use sink::{advance, put_bytes, put_when};
use summary::{is_held, kept_length};
use tables::{Pool, Table, put_name_of};
use view::{FunctionView, argument};

// ---- locals

// The local that holds argument j, where one does.
fn write_held_local(
    s: &[u8],
    t: &[u32; Table::PLACES],
    pool: &[u8; Pool::BYTES],
    f: FunctionView,
    offsets: &[u32],
    j: u32,
    out: &mut [u8],
    at: usize,
) -> usize
    requires { Lent s.now t.now pool.now × Arguments s.now t.now f offsets.now ×
        (j < f.arguments) × (f.arguments ≤ length offsets.now) }
    ensures { Wrote (sink out.old at)
        (held_local (items_of s.now t.now)
        (argument_of s.now t.now f.number j))
        (sink out.new result) }
{
    let a = argument(offsets, j);
    if is_held(a) {
        let begun = put_bytes(out, at, b"  ::rust::ManuallyDrop<");
        let typed = write_outermost(s, t, pool, a.of, out, begun);
        let closed = put_bytes(out, typed, b"> ");
        let named = put_name_of(s, t, pool, a.name, out, closed);
        let moved = put_bytes(out, named, b"$(::std::move(");
        let held_name = put_name_of(s, t, pool, a.name, out, moved);
        return put_bytes(out, held_name, b"));\n");
    }
    at
}

// The locals that hold arguments. Where the buffer ends before the place, they are counted if the summary has their
// length.
pub fn write_held_locals(
    s: &[u8],
    t: &[u32; Table::PLACES],
    pool: &[u8; Pool::BYTES],
    f: FunctionView,
    offsets: &[u32],
    out: &mut [u8],
    at: usize,
) -> usize
    requires { Lent s.now t.now pool.now × Summary s.now t.now f offsets.now }
    ensures { Wrote (sink out.old at)
        (gather (held_local (items_of s.now t.now))
        (function_of s.now t.now f.number).arguments)
        (sink out.new result) }
{
    if out.len() < at {
        let n = kept_length(offsets, f.arguments as usize + 2);
        if 0 < n {
            return advance(at, n);
        }
    }
    let mut here = at;
    for j in 0..f.arguments {
        here = write_held_local(s, t, pool, f, offsets, j, out, here);
    }
    here
}

// ---- operands

// What stands behind an argument's name.
fn put_operand_end(owner: u32, held: bool, out: &mut [u8], at: usize) -> usize
    ensures { Wrote (sink out.old at) (owner_end owner held) (sink out.new result) }
{
    match owner {
        1 => put_bytes(out, at, b".into_raw()"),
        2 => put_bytes(out, at, b".release()"),
        _ => put_when(out, at, held, b"$.value"),
    }
}

// Argument j as an operand.
fn write_operand(
    s: &[u8],
    t: &[u32; Table::PLACES],
    pool: &[u8; Pool::BYTES],
    f: FunctionView,
    offsets: &[u32],
    j: u32,
    out: &mut [u8],
    at: usize,
) -> usize
    requires { Lent s.now t.now pool.now × Arguments s.now t.now f offsets.now ×
        (j < f.arguments) × (f.arguments ≤ length offsets.now) }
    ensures { Wrote (sink out.old at)
        (operand (items_of s.now t.now)
        (argument_of s.now t.now f.number j))
        (sink out.new result) }
{
    let a = argument(offsets, j);
    let held = is_held(a);
    let b = put_when(out, at, a.indirect, b"&");
    let c = put_name_of(s, t, pool, a.name, out, b);
    put_operand_end(a.owner, held, out, c)
}

// The arguments as operands, behind others or not; counted as the locals are.
fn write_arguments(
    s: &[u8],
    t: &[u32; Table::PLACES],
    pool: &[u8; Pool::BYTES],
    f: FunctionView,
    offsets: &[u32],
    others: bool,
    out: &mut [u8],
    at: usize,
) -> usize
    requires { Lent s.now t.now pool.now × Summary s.now t.now f offsets.now }
    ensures { Wrote (sink out.old at)
        (commas others (map (operand (items_of s.now t.now))
        (function_of s.now t.now f.number).arguments))
        (sink out.new result) }
{
    if out.len() < at {
        let n = kept_length(offsets, f.arguments as usize + 3);
        if 0 < n {
            let next = put_when(out, at, others, b", ");
            return advance(next, n);
        }
    }
    let mut here = at;
    let mut comma = others;
    for j in 0..f.arguments {
        let behind = put_when(out, here, comma, b", ");
        here = write_operand(s, t, pool, f, offsets, j, out, behind);
        comma = true;
    }
    here
}

// The operands of the call.
pub fn write_operands(
    s: &[u8],
    t: &[u32; Table::PLACES],
    pool: &[u8; Pool::BYTES],
    f: FunctionView,
    offsets: &[u32],
    indirect: bool,
    out: &mut [u8],
    at: usize,
) -> usize
    requires { Lent s.now t.now pool.now × Function s.now t.now f ×
        Summary s.now t.now f offsets.now ×
        (indirect ≡ indirect_return (items_of s.now t.now)
        (function_of s.now t.now f.number)
        (function_of s.now t.now f.number).return) }
    ensures { Wrote (sink out.old at)
        (commas false (operands (items_of s.now t.now)
        (function_of s.now t.now f.number)))
        (sink out.new result) }
{
    let method = is_method(f);
    let received = put_when(out, at, method, b"*this");
    let listed = write_arguments(s, t, pool, f, offsets, method, out, received);
    if indirect {
        let comma = needs_comma(method, f.arguments);
        let behind = put_when(out, listed, comma, b", ");
        return put_bytes(out, behind, b"&return$.value");
    }
    listed
}
