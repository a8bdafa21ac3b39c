// syntax/namespace.rs: the namespaces of an item.
ghost use Rattle.sink.specs.Sink.{sink, Wrote};
ghost use Rattle.syntax.specs.Items.{item_at};
ghost use Rattle.mangle.specs.Segments.{each_between};
ghost use Rattle.tables.specs.Tables.{items_of, Item, Lent};

use sink::put_bytes;
use tables::{Pool, Table, namespace, put_name_of};
use view::ItemView;

// Each namespace of an item, from the outermost on, with one text before it and one behind it.
pub fn write_namespace(
    s: &[u8],
    t: &[u32; Table::PLACES],
    pool: &[u8; Pool::BYTES],
    v: ItemView,
    before: &[u8],
    behind: &[u8],
    out: &mut [u8],
    at: usize,
) -> usize
    requires { Lent s.now t.now pool.now × Item s.now t.now v }
    ensures { Wrote (sink out.old at) (each_between before.now behind.now
        (item_at (items_of s.now t.now) v.number).namespace)
        (sink out.new result) }
{
    let mut here = at;
    for d in 0..v.depth {
        let name = namespace(s, t, v, d);
        here = put_bytes(out, here, before);
        here = put_name_of(s, t, pool, name, out, here);
        here = put_bytes(out, here, behind);
    }
    here
}
