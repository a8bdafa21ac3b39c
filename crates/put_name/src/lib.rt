// Writers of characters that stand in a sheet: those of a name, and any in a row.
#![tactic(auto)]

ghost use Rattle.sink.specs.Sink.{sink, Wrote};
ghost use Rattle.format.specs.Decode.{many};
ghost use Rattle.format.specs.Bits.{bits};
ghost use Rattle.format.specs.Decoding.{name};
ghost use Rattle.cursor.specs.Checking.{Limited};
ghost use Rattle.view.specs.Values.{Yields, name_at};
ghost use Rattle.put_name.specs.Chars.{chars_at};

use cursor::Cursor;
use cursor::fields::field;
use sink::{advance, has_room};
use text::unpack;

// The n characters at c. Where they have no room they are not read.
pub fn put_chars(s: &[u8], c: Cursor, n: u32, out: &mut [u8], at: usize) -> usize
    requires { Limited s.now × Yields (many n (bits 7) s.now c.at) (chars_at n s.now c.at) }
    ensures { Wrote (sink out.old at) (chars_at n s.now c.at)
        (sink out.new result) }
{
    if n == 0 {
        return at;
    }
    let count = n as usize;
    let room = has_room(out.len(), at, count);
    if room {
        let end = at + count;
        unpack(s, c.at, n, &mut out[at..end]);
        return end;
    }
    advance(at, count)
}

// The name at a position.
pub fn put_name(s: &[u8], position: u32, out: &mut [u8], at: usize) -> usize
    requires { Limited s.now × Yields (name s.now position) (name_at s.now position) }
    ensures { Wrote (sink out.old at) (name_at s.now position)
        (sink out.new result) }
{
    let length = field(s, Cursor::new(position), 6);
    put_chars(s, length.next, length.value, out, at)
}
