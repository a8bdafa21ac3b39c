// syntax/symbol.rs: segments joined by `$`.
ghost use Rattle.std.specs.Prelude.{[], ◌∷◌, ◌<◌, length, get_or};
ghost use Rattle.sink.specs.Sink.{sink, Wrote};
ghost use Rattle.syntax.specs.Symbol.{push_all};
ghost use Rattle.view.specs.Values.{name_at};
ghost use Rattle.tables.specs.Tables.{names_in, Lent};

use sink::{put_byte, put_bytes};
use tables::{Pool, Table, put_name_of};

// One segment more, a text.
pub fn push(segment: &[u8], out: &mut [u8], at: usize) -> usize
    ensures { Wrote (sink out.old at) (push_all (segment.now ∷ []))
        (sink out.new result) }
{
    let here = put_byte(out, at, b'$');
    put_bytes(out, here, segment)
}

// One segment more, name i of the table.
pub fn push_name(
    s: &[u8],
    t: &[u32; Table::PLACES],
    pool: &[u8; Pool::BYTES],
    i: u32,
    out: &mut [u8],
    at: usize,
) -> usize
    requires { Lent s.now t.now pool.now × (i < length (names_in t.now)) }
    ensures { Wrote (sink out.old at)
        (push_all (name_at s.now (get_or (names_in t.now) i 0) ∷ []))
        (sink out.new result) }
{
    let here = put_byte(out, at, b'$');
    put_name_of(s, t, pool, i, out, here)
}
