// `Pair` of syntax/mod.rs: the names of an item.
ghost use Rattle.std.specs.Prelude.{◌<◌, length};
ghost use Rattle.sink.specs.Sink.{sink, Wrote};
ghost use Rattle.syntax.specs.Items.{item_at, full_name};
ghost use Rattle.tables.specs.Tables.{items_in, items_of, Lent};

use crate::namespace::write_namespace;
use sink::put_bytes;
use tables::{Pool, Table, item, put_name_of, put_part};

// The C++ name of item i.
pub fn write_cxx_name(
    s: &[u8],
    t: &[u32; Table::PLACES],
    pool: &[u8; Pool::BYTES],
    i: u32,
    out: &mut [u8],
    at: usize,
) -> usize
    requires { Lent s.now t.now pool.now × (i < length (items_in t.now)) }
    ensures { Wrote (sink out.old at)
        (item_at (items_of s.now t.now) i).cxx
        (sink out.new result) }
{
    let v = item(s, t, i);
    put_name_of(s, t, pool, v.name, out, at)
}

// `to_fully_qualified`: `::` before each namespace and before the C++ name of item i.
pub fn write_full_name(
    s: &[u8],
    t: &[u32; Table::PLACES],
    pool: &[u8; Pool::BYTES],
    i: u32,
    out: &mut [u8],
    at: usize,
) -> usize
    requires { Lent s.now t.now pool.now × (i < length (items_in t.now)) }
    ensures { Wrote (sink out.old at)
        (full_name (item_at (items_of s.now t.now) i))
        (sink out.new result) }
{
    let e = t[Table::FULL + i as usize];
    if e != 0 {
        return put_part(pool, e / 1024, e % 1024, out, at);
    }
    let v = item(s, t, i);
    let outer = write_namespace(s, t, pool, v, b"::", b"", out, at);
    let here = put_bytes(out, outer, b"::");
    put_name_of(s, t, pool, v.name, out, here)
}
