// The full names of types, spelled once for all writers.
ghost use Rattle.std.specs.Prelude.{◌≡◌, ◌≤◌, ◌<◌, length, take};
ghost use Rattle.tables.specs.Tables.{items_in, Lent, Filled};

use crate::pair::write_full_name;
use sink::put_text;
use tables::{Pool, Table, item};
use view::is_function;

// The longest full name: eight names of 63 bytes, with `::` before each.
const LONGEST: usize = 520;

// A sheet of at most so many bytes names a type too seldom for this to pay.
const SMALL: usize = 512;

// The full name of item i, spelled in `text`, then in the pool behind its first `end` bytes, where it fits there; the
// answer is the place behind it. A function's name is not spelled.
fn fill_full_name(
    s: &[u8],
    t: &mut [u32; Table::PLACES],
    pool: &mut [u8; Pool::BYTES],
    i: u32,
    end: usize,
    text: &mut [u8],
) -> usize
    requires { Lent s.now t.old (take end pool.old) × (end ≤ length pool.old) ×
        (i < length (items_in t.old)) × (length text.old ≡ 520) }
    ensures { Filled s.now t.old t.new pool.new result }
{
    let v = item(s, t, i);
    if is_function(v.kind) {
        return end;
    }
    let count = write_full_name(s, t, pool, i, text, 0);
    if LONGEST < count {
        return end;
    }
    if Pool::BYTES - count < end {
        return end;
    }
    put_text(pool, end, &text[..count]);
    t[Table::FULL + i as usize] = end as u32 * 1024 + count as u32;
    end + count
}

// The full names of all types, in the pool behind its first `from` bytes; none of a small sheet. The answer is the
// place behind them.
pub fn fill_full_names(
    s: &[u8],
    t: &mut [u32; Table::PLACES],
    pool: &mut [u8; Pool::BYTES],
    from: usize,
) -> usize
    requires { Lent s.now t.old (take from pool.old) × (from ≤ length pool.old) }
    ensures { Filled s.now t.old t.new pool.new result }
{
    if s.len() <= SMALL {
        return from;
    }
    let n = t[Table::ITEMS];
    let mut text = [0u8; LONGEST];
    let mut end = from;
    for i in 0..n {
        end = fill_full_name(s, t, pool, i, end, &mut text);
    }
    end
}
