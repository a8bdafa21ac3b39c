// Characters of a sheet.
#![tactic(auto)]

ghost use Rattle.std.specs.Prelude.{◌≡◌, ◌+◌, ◌*◌, ◌/◌, ◌%◌, ◌^◌, ◌≤◌, ◌<◌, length};
ghost use Rattle.format.specs.Decode.{many};
ghost use Rattle.format.specs.Bits.{bits};
ghost use Rattle.cursor.specs.Checking.{Limited, Fills};
ghost use Rattle.text.specs.Text.{Holds, Spelled};

use cursor::{Cursor, Found, end_of, extract_wide, read};
use refusal::Refusal;

// A character of a number, d bits of which stand behind it.
pub fn char_in(x: u64, d: u32) -> u8
    requires { d < 64 }
    ensures { result ≡ x / 2 ^ d % 128 }
{
    ((x >> d) % 128) as u8
}

// Eight characters of the text at a position, behind its first i in buf.
fn put_eight(s: &[u8], at: u32, i: u32, buf: &mut [u8])
    requires limited { Limited s.now × (at + 7 * (i + 8) ≤ 8 * length s.now) × (i + 8 ≤ length buf.old) }
    requires holds { Holds s.now at i buf.old }
    ensures { Holds s.now at (i + 8) buf.new }
{
    let x = extract_wide(s, at + 7 * i, 56);
    let k = i as usize;
    buf[k] = char_in(x, 49);
    buf[k + 1] = char_in(x, 42);
    buf[k + 2] = char_in(x, 35);
    buf[k + 3] = char_in(x, 28);
    buf[k + 4] = char_in(x, 21);
    buf[k + 5] = char_in(x, 14);
    buf[k + 6] = char_in(x, 7);
    buf[k + 7] = char_in(x, 0);
}

// The first n characters of the text at a position, fewer than eight, into the front of buf.
fn put_few(s: &[u8], at: u32, n: u32, buf: &mut [u8])
    requires { Limited s.now × (at + 7 * n ≤ 8 * length s.now) × (n < 8) × (n ≤ length buf.old) }
    ensures { Holds s.now at n buf.new }
{
    let x = extract_wide(s, at, 7 * n);
    for i in 0..n {
        buf[i as usize] = char_in(x, 7 * (n - 1 - i));
    }
}

// The first n characters of the text at a position, eight or more, into the front of buf: eight by eight, and the last
// eight once more.
fn put_many(s: &[u8], at: u32, n: u32, buf: &mut [u8])
    requires { Limited s.now × (at + 7 * n ≤ 8 * length s.now) × (8 ≤ n) × (n ≤ length buf.old) }
    ensures { Holds s.now at n buf.new }
{
    let last = n - 8;
    for i in (0..last).step_by(8) {
        put_eight(s, at, i, buf);
    }
    put_eight(s, at, last, buf);
}

// The n characters at a position, all of them in the sheet, into the front of buf.
pub fn unpack(s: &[u8], at: u32, n: u32, buf: &mut [u8])
    requires { Limited s.now × (at + 7 * n ≤ 8 * length s.now) × (n ≤ length buf.old) }
    ensures { Holds s.now at n buf.new }
{
    if n < 8 {
        put_few(s, at, n, buf);
        return;
    }
    put_many(s, at, n, buf);
}

// The n characters at c, into the front of buf.
fn chars(s: &[u8], c: Cursor, n: u32, buf: &mut [u8]) -> Result<Cursor, Refusal>
    requires { Limited s.now × (c.at ≤ 8 * length s.now) × (n ≤ length buf.old) }
    ensures { Fills (many n (bits 7) s.now c.at) result n buf.new }
{
    let at = c.at;
    let left = end_of(s) - at;
    if left / 7 < n {
        return Err(Refusal::CutSheet);
    }
    let next = Cursor { at: at + 7 * n };
    unpack(s, at, n, buf);
    Ok(next)
}

// A length of w bits and as many characters at c, into the front of buf: the length, and the position behind them.
pub fn read_text(s: &[u8], c: Cursor, w: u32, buf: &mut [u8]) -> Result<Found, Refusal>
    requires { Limited s.now × (w ≤ 32) × (2 ^ w ≤ length buf.old + 1) }
    ensures { Spelled w s.now c.at result buf.new }
{
    let length = read(s, c, w)?;
    let next = chars(s, length.next, length.value, buf)?;
    Ok(Found {
        value: length.value,
        next,
    })
}
