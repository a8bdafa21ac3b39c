// Fields of a sheet at bit positions (document 01, "The sheet").
#![tactic(auto)]

ghost use Rattle.std.specs.Prelude.{◌≡◌, ◌+◌, ◌*◌, ◌≤◌, ◌<◌, length, get_or};
ghost use Rattle.format.specs.Limits.{most_bytes, most_bits};
ghost use Rattle.format.specs.Bits.{bit_at, bits_at, bits, width_of, index};
ghost use Rattle.cursor.specs.Checking.{Limited, ReadsField, Checks, refusal_of, step_in};

use refusal::Refusal;

// A bit position.
#[derive(Clone, Copy)]
pub struct Cursor {
    pub at: u32,
}

impl Cursor {
    // The bytes of the longest sheet.
    pub const SHEET: usize = 32768;
    // The last position in a sheet: behind the last bit of the longest.
    pub const LAST: u32 = (Cursor::SHEET * 8) as u32;
    // A number behind the last position says a refusal (`step_in` of specs/Checking.antt): 1, 4, 5 and 6.
    pub const CUT: u32 = Cursor::LAST + 1;

    pub const LOOSE: u32 = Cursor::LAST + 4;

    pub const BAD_KIND: u32 = Cursor::LAST + 5;

    pub const TOO_DEEP: u32 = Cursor::LAST + 6;

    pub fn new(at: u32) -> Cursor
        ensures { result ≡ record { at = at } }
    {
        Cursor { at }
    }
}

// The value of a field, and the position behind it.
#[derive(Clone, Copy)]
pub struct Found {
    pub value: u32,
    pub next: Cursor,
}

fn to_u64(b: u8) -> u64
    ensures { result ≡ b }
{
    b as u64
}

// A byte of the sheet.
fn byte_in(s: &[u8], i: usize) -> u64
    requires { i < length s.now }
    ensures { (result ≡ get_or s.now i 0) × (result < 256) }
{
    to_u64(s[i])
}

// The 64 bits from a byte on: one load, where each byte is joined to what stands before it.
fn word(s: &[u8], b: usize) -> u64
    requires { (b ≤ most_bytes) × (b + 8 ≤ length s.now) }
    ensures { result ≡ bits_at s.now (8 * b) 64 }
{
    let w0 = byte_in(s, b);
    let w1 = w0 * 256 + byte_in(s, b + 1);
    let w2 = w1 * 256 + byte_in(s, b + 2);
    let w3 = w2 * 256 + byte_in(s, b + 3);
    let w4 = w3 * 256 + byte_in(s, b + 4);
    let w5 = w4 * 256 + byte_in(s, b + 5);
    let w6 = w5 * 256 + byte_in(s, b + 6);
    w6 * 256 + byte_in(s, b + 7)
}

// The byte from which eight bytes of the sheet hold the field of n bits at a position: the field's first, or the
// eighth from the sheet's end.
fn word_start(size: usize, at: u32, n: u32) -> usize
    requires { (8 ≤ size) × (size ≤ most_bytes) × (n ≤ 57) × (at + n ≤ 8 * size) }
    ensures { (result + 8 ≤ size) × (8 * result ≤ at) × (at + n ≤ 8 * result + 64) }
{
    let first = (at / 8) as usize;
    let last = size - 8;
    if first < last {
        return first;
    }
    last
}

fn bit_in(s: &[u8], i: u32) -> u64
    requires { i < 8 * length s.now }
    ensures { (result ≡ bit_at s.now i) × (result < 2) }
{
    let b = (i / 8) as usize;
    (byte_in(s, b) >> (7 - i % 8)) % 2
}

// The value of n bits, bit by bit. It calls itself, so that no caller grows by it.
fn extract_slowly(s: &[u8], at: u32, n: u32) -> u64
    requires { Limited s.now × (n ≤ 57) × (at + n ≤ 8 * length s.now) }
    ensures { result ≡ bits_at s.now at n }
{
    if n == 0 {
        return 0;
    }
    let less = n - 1;
    let high = extract_slowly(s, at, less);
    2 * high + bit_in(s, at + less)
}

// The value of n bits, all of them in the sheet.
pub fn extract_wide(s: &[u8], at: u32, n: u32) -> u64
    requires { Limited s.now × (n ≤ 57) × (at + n ≤ 8 * length s.now) }
    ensures { result ≡ bits_at s.now at n }
{
    if n == 0 {
        return 0;
    }
    if s.len() < 8 {
        return extract_slowly(&s[..], at, n);
    }
    let b = word_start(s.len(), at, n);
    let w = word(s, b);
    let down = 64 - (at - (8 * b) as u32 + n);
    let one: u64 = 1;
    (w >> down) % (one << n)
}

// The same of at most 32 bits.
pub fn extract(s: &[u8], at: u32, n: u32) -> u32
    requires { Limited s.now × (n ≤ 32) × (at + n ≤ 8 * length s.now) }
    ensures { result ≡ bits_at s.now at n }
{
    extract_wide(s, at, n) as u32
}

// The position behind the sheet's last bit.
pub fn end_of(s: &[u8]) -> u32
    requires { Limited s.now }
    ensures { result ≡ 8 * length s.now }
{
    8 * (s.len() as u32)
}

// The field of n bits at c, or that the sheet ends before it is whole.
pub fn read(s: &[u8], c: Cursor, n: u32) -> Result<Found, Refusal>
    requires { Limited s.now × (n ≤ 32) }
    ensures { ReadsField (bits n s.now c.at) result }
{
    let at = c.at;
    if Cursor::LAST < at {
        return Err(Refusal::CutSheet);
    }
    let end = at + n;
    if end_of(s) < end {
        return Err(Refusal::CutSheet);
    }
    Ok(Found {
        value: extract(s, at, n),
        next: Cursor { at: end },
    })
}

// Past a field of n bits: the position behind it.
pub fn skip(s: &[u8], c: Cursor, n: u32) -> Result<Cursor, Refusal>
    requires { Limited s.now × (n ≤ 32) }
    ensures { Checks (bits n s.now c.at) result }
{
    let f = read(s, c, n)?;
    Ok(f.next)
}

// ---- steps as numbers: what a recursive checker answers, for a number comes back in a register

const REFUSALS: [Refusal; 14] = [
    Refusal::Overrun,
    Refusal::CutSheet,
    Refusal::Edition,
    Refusal::BadName,
    Refusal::LooseIndex,
    Refusal::BadKind,
    Refusal::TooDeep,
    Refusal::BadComment,
    Refusal::Tail,
    Refusal::WrongPart,
    Refusal::Taken,
    Refusal::UnfitArgument,
    Refusal::Ring,
    Refusal::Overrun,
];

// The refusal of a number.
fn refusal_of(n: u32) -> Refusal
    ensures { result ≡ refusal_of n }
{
    if 13 < n {
        return Refusal::Overrun;
    }
    REFUSALS[n as usize]
}

// The step that a number says.
pub fn step_in(r: u32) -> Result<Cursor, Refusal>
    ensures { result ≡ step_in r }
{
    if r <= Cursor::LAST {
        return Ok(Cursor { at: r });
    }
    let n = r - Cursor::LAST;
    Err(refusal_of(n))
}

// Past a field of n bits.
pub fn pass(s: &[u8], at: u32, n: u32) -> u32
    requires { Limited s.now × (at ≤ most_bits) × (n ≤ 32) }
    ensures { Checks (bits n s.now at) (step_in result) }
{
    let end = at + n;
    if end_of(s) < end {
        return Cursor::CUT;
    }
    end
}

// The bits of an index into a table of n entries.
pub fn width(n: u32) -> u32
    ensures { result ≡ width_of n }
{
    if n == 0 {
        return 0;
    }
    32 - u32::leading_zeros(n - 1)
}

// Past an index into a table of n entries.
pub fn check_index(s: &[u8], c: Cursor, n: u32) -> Result<Cursor, Refusal>
    requires { Limited s.now }
    ensures { Checks (index n s.now c.at) result }
{
    let i = read(s, c, width(n))?;
    if i.value < n {
        return Ok(i.next);
    }
    Err(Refusal::LooseIndex)
}

pub mod fields;
