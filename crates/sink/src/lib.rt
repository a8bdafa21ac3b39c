// Writers of bytes into a lent buffer. Each takes the buffer and the place of its first byte, stores its text if the
// buffer has room for it, and answers the place behind it. On an empty slice the same call measures.
#![tactic(auto)]

ghost use Rattle.std.specs.Prelude.{[], ◌∷◌, ◌≡◌, ◌+◌, ◌≤◌, min, length, take, replicate};
ghost use Rattle.std.proofs.lemmas.List.Edits.{sets};
ghost use Rattle.lexical.specs.Decimal.{digits, decimal, pick_text};
ghost use Rattle.sink.specs.Sink.{limit, sink, Wrote};
ghost use Rattle.sink.specs.Copying.{Fits, Copied};

// The largest place: no buffer reaches it.
const LIMIT: usize = 0xffff_ffff_ffff_ffff;

// The place `count` bytes on.
pub fn advance(at: usize, count: usize) -> usize
    ensures { result ≡ min limit (at + count) }
{
    if count <= LIMIT - at {
        return at + count;
    }
    LIMIT
}

// Whether a buffer of length `len` has room for `count` bytes from the place on.
pub fn has_room(len: usize, at: usize, count: usize) -> bool
    ensures { Fits at count len result }
{
    at <= len && count <= len - at
}

// The first `count` bytes of a text, all within the buffer.
fn copy_at(out: &mut [u8], at: usize, text: &[u8], count: usize)
    requires { (count ≤ length text.now) × (at + count ≤ length out.old) }
    ensures { out.new ≡ sets out.old at (take count text.now) }
{
    for i in 0..count {
        out[at + i] = text[i];
    }
}

// The bytes of a text, copied by its own length, a constant where the text is a literal.
pub fn put_bytes(out: &mut [u8], at: usize, text: &[u8]) -> usize
    ensures { Wrote (sink out.old at) text.now (sink out.new result) }
{
    let count = text.len();
    if has_room(out.len(), at, count) {
        copy_at(out, at, text, count);
        return at + count;
    }
    advance(at, count)
}

// One byte.
pub fn put_byte(out: &mut [u8], at: usize, byte: u8) -> usize
    ensures { Wrote (sink out.old at) (byte ∷ []) (sink out.new result) }
{
    put_bytes(out, at, &[byte])
}

// Eight bytes of a text, behind its first i in buf.
fn copy_eight(text: &[u8], i: usize, buf: &mut [u8])
    requires { (i + 8 ≤ length text.now) × Copied text.now i buf.old }
    ensures { Copied text.now (i + 8) buf.new }
{
    let a = text[i];
    let b = text[i + 1];
    let c = text[i + 2];
    let d = text[i + 3];
    let e = text[i + 4];
    let f = text[i + 5];
    let g = text[i + 6];
    let h = text[i + 7];
    buf[i] = a;
    buf[i + 1] = b;
    buf[i + 2] = c;
    buf[i + 3] = d;
    buf[i + 4] = e;
    buf[i + 5] = f;
    buf[i + 6] = g;
    buf[i + 7] = h;
}

// A text into a buffer of its length, byte by byte.
fn copy_plain(text: &[u8], buf: &mut [u8])
    requires { length buf.old ≡ length text.now }
    ensures { buf.new ≡ text.now }
{
    for i in 0..text.len() {
        buf[i] = text[i];
    }
}

// From so many bytes on the compiler copies more than eight at a time.
const LONG: usize = 64;

// A text into a buffer of its length: eight bytes by eight, and the last eight once more, unless it is very short or
// long. From eight to sixteen bytes there is no loop.
fn copy(text: &[u8], buf: &mut [u8])
    requires { length buf.old ≡ length text.now }
    ensures { buf.new ≡ text.now }
{
    let n = text.len();
    if n < 8 {
        copy_plain(text, buf);
        return;
    }
    if LONG <= n {
        copy_plain(text, buf);
        return;
    }
    let last = n - 8;
    copy_eight(text, 0, buf);
    if last <= 8 {
        copy_eight(text, last, buf);
        return;
    }
    for i in (8..last).step_by(8) {
        copy_eight(text, i, buf);
    }
    copy_eight(text, last, buf);
}

// The bytes of a text whose length is no constant.
pub fn put_text(out: &mut [u8], at: usize, text: &[u8]) -> usize
    ensures { Wrote (sink out.old at) text.now (sink out.new result) }
{
    let count = text.len();
    if has_room(out.len(), at, count) {
        let end = at + count;
        copy(text, &mut out[at..end]);
        return end;
    }
    advance(at, count)
}

// The bytes of a text where `yes`, or else nothing.
pub fn put_when(out: &mut [u8], at: usize, yes: bool, text: &[u8]) -> usize
    ensures { Wrote (sink out.old at) (pick_text yes text.now [])
        (sink out.new result) }
{
    if yes {
        return put_bytes(out, at, text);
    }
    at
}

// The bytes of a text unless `no`.
pub fn put_unless(out: &mut [u8], at: usize, no: bool, text: &[u8]) -> usize
    ensures { Wrote (sink out.old at) (pick_text no [] text.now)
        (sink out.new result) }
{
    if no {
        return at;
    }
    put_bytes(out, at, text)
}

// One byte `count` times.
pub fn put_repeat(out: &mut [u8], at: usize, count: usize, byte: u8) -> usize
    ensures { Wrote (sink out.old at) (replicate count byte) (sink out.new result) }
{
    if has_room(out.len(), at, count) {
        for i in 0..count {
            out[at + i] = byte;
        }
        return at + count;
    }
    advance(at, count)
}

// `count` spaces.
pub fn put_spaces(out: &mut [u8], at: usize, count: usize) -> usize
    ensures { Wrote (sink out.old at) (replicate count 32) (sink out.new result) }
{
    put_repeat(out, at, count, b' ')
}

// The digits of n: the last, behind at most `more` others.
fn put_digits(out: &mut [u8], at: usize, n: u32, more: usize) -> usize
    ensures { Wrote (sink out.old at) (digits more n) (sink out.new result) }
{
    let last = (48 + n % 10) as u8;
    if more == 0 {
        return put_byte(out, at, last);
    }
    if n < 10 {
        return put_byte(out, at, last);
    }
    let next = put_digits(out, at, n / 10, more - 1);
    put_byte(out, next, last)
}

// n in decimal, without leading zeros.
pub fn put_decimal(out: &mut [u8], at: usize, n: u32) -> usize
    ensures { Wrote (sink out.old at) (decimal n) (sink out.new result) }
{
    put_digits(out, at, n, 9)
}
