// The names of a sheet: the table of their positions and digests, and access to names by position and by number.
#![tactic(auto)]

ghost use Rattle.std.specs.Prelude.{◌≡◌, ◌+◌, ◌-◌, ◌*◌, ◌^◌, ◌≤◌, ◌<◌, length, get_or};
ghost use Rattle.lexical.specs.Bytes.{same};
ghost use Rattle.lexical.specs.Names.{table_of, sheet_name};
ghost use Rattle.format.specs.Limits.{longest_name};
ghost use Rattle.format.specs.Decode.{many};
ghost use Rattle.format.specs.Decoding.{name, table_name};
ghost use Rattle.cursor.specs.Checking.{Limited, position_of, Fills};
ghost use Rattle.cursor.specs.Yielding.{Yields};
ghost use Rattle.text.specs.Text.{chars_at};
ghost use Rattle.words.specs.Words.{Right};
ghost use Rattle.names.specs.Fetching.{Fetched};
ghost use Rattle.names.specs.Naming.{name_at, Named};
ghost use Rattle.names.specs.Digests.{mix as mixOf, digest as digestChars, digests_at, digest_of, judged_of};
ghost use Rattle.names.specs.Digests.{Digests};

use cursor::{Cursor, Found, end_of, extract_wide, read};
use refusal::Refusal;
use text::read_text;
use walk::walk;
use words::{State, Words, equal, verdict};

// A name whose characters stand in the front of a buffer: how many there are.
#[derive(Clone, Copy)]
pub struct Name {
    pub length: usize,
}

impl Name {
    // The characters of the longest name.
    pub const LONGEST: usize = 63;
}

// ---- digests

// A digest with a window of characters more; of a text they may have eight bits.
fn mix(h: u64, x: u64) -> u64
    requires { (h < 2 ^ 32) × (x < 2 ^ 58) }
    ensures { (result ≡ mixOf h x) × (result < 2 ^ 32) }
{
    (h * 786033569 + x / 268435456 * 7116134815 + x % 268435456 * 10617743077) / 1048576
        % 4294967296
}

// The digest of at most eight characters.
pub fn digest(w: &[u8]) -> u32
    requires { length w.now ≤ 8 }
    ensures { result ≡ digestChars w.now }
{
    let mut x: u64 = 0;
    for c in w {
        x = x * 128 + *c as u64;
    }
    mix(0, x) as u32
}

// ---- a walk over the names

// The digest of the n characters at a position, if they are a name by the rule of a sheet of that edition. Each window
// of them is read once, for the digest and for the state.
fn judge_name(t: &[u16; Words::SIZE], s: &[u8], at: u32, n: u32, edition: u32) -> Option<u32>
    requires { Right t.now × Limited s.now × (at + 7 * n ≤ 8 * length s.now) }
    ensures { result ≡ judged_of (sheet_name (table_of edition) (chars_at s.now at n))
        (digestChars (chars_at s.now at n)) }
{
    let end = at + 7 * n;
    let mut q = State::start();
    let mut h: u64 = 0;
    let mut next = at;
    // Windows of at most eight characters, by bit positions: no count.
    while next < end {
        let bits = (end - next).min(56);
        let x = extract_wide(s, next, bits);
        h = mix(h, x);
        q = walk(t, q, x, bits);
        next = next + bits;
    }
    if verdict(t, q, edition) {
        return Some(h as u32);
    }
    None
}

// The digest of the name at c, by the rule of a sheet of that edition, and the position behind it.
fn check_name(t: &[u16; Words::SIZE], s: &[u8], c: Cursor, edition: u32) -> Result<Found, Refusal>
    requires { Right t.now × Limited s.now }
    ensures { Digests (table_name (table_of edition) s.now c.at) result }
{
    let length = read(s, c, 6)?;
    let at = length.next.at;
    let behind = at + 7 * length.value;
    if end_of(s) < behind {
        return Err(Refusal::CutSheet);
    }
    match judge_name(t, s, at, length.value, edition) {
        Some(digest) => Ok(Found {
            value: digest,
            next: Cursor { at: behind },
        }),
        None => Err(Refusal::BadName),
    }
}

// Past n names, with the position of each in offsets and its digest in digests.
pub fn check_names(
    s: &[u8],
    c: Cursor,
    edition: u32,
    n: u32,
    offsets: &mut [u32],
    digests: &mut [u32],
) -> Result<Cursor, Refusal>
    requires { Limited s.now × (n ≤ length offsets.old) × (n ≤ length digests.old) }
    ensures { Fills (many n (position_of (table_name (table_of edition))) s.now c.at) result n
        offsets.new ×
        Fills (many n (digest_of (table_name (table_of edition))) s.now c.at) result n digests.new }
{
    let words = Words::table();
    let mut next = c;
    for i in 0..n {
        let name = check_name(&words, s, next, edition)?;
        let k = i as usize;
        offsets[k] = next.at;
        digests[k] = name.value;
        next = name.next;
    }
    Ok(next)
}

// The name at a position, into the front of buf.
pub fn fetch(s: &[u8], at: u32, buf: &mut [u8]) -> Name
    requires { Limited s.now × (longest_name ≤ length buf.old) }
    ensures { Fetched (name s.now at) result.length buf.new }
{
    match read_text(s, Cursor::new(at), 6, buf) {
        Ok(text) => Name {
            length: text.value as usize,
        },
        Err(_) => Name { length: 0 },
    }
}

// ---- names by number

// Whether the names at two positions are the same. Not inlined, so that `same_name` is small.
#[inline(never)]
fn same_chars(s: &[u8], a: u32, b: u32) -> bool
    requires { Limited s.now × Yields (name s.now a) (name_at s.now a) ×
        Yields (name s.now b) (name_at s.now b) }
    ensures { result ≡ same (name_at s.now a) (name_at s.now b) }
{
    let mut x = [0u8; Name::LONGEST];
    let mut y = [0u8; Name::LONGEST];
    let n = fetch(s, a, &mut x);
    let m = fetch(s, b, &mut y);
    let k = n.length;
    let l = m.length;
    equal(&x[..k], &y[..l])
}

// Whether names i and j are the same; unequal digests tell them apart. Inlined: most pairs that a loop asks for have
// one number, or two digests.
#[inline(always)]
pub fn same_name(s: &[u8], names: &[u32], digests: &[u32], i: u32, j: u32) -> bool
    requires { Named s.now names.now × (digests.now ≡ digests_at s.now names.now) ×
        (i < length names.now) × (j < length names.now) }
    ensures { result ≡ same (name_at s.now (get_or names.now i 0))
        (name_at s.now (get_or names.now j 0)) }
{
    let a = i as usize;
    let b = j as usize;
    i == j || digests[a] == digests[b] && same_chars(s, names[a], names[b])
}

// Whether name i is the text, by its characters alone.
pub fn name_reads(s: &[u8], names: &[u32], i: u32, text: &[u8]) -> bool
    requires { Named s.now names.now × (i < length names.now) }
    ensures { result ≡ same (name_at s.now (get_or names.now i 0)) text.now }
{
    let k = i as usize;
    let mut x = [0u8; Name::LONGEST];
    let n = fetch(s, names[k], &mut x);
    let l = n.length;
    equal(&x[..l], text)
}

// Whether name i is the text; unequal digests tell them apart.
pub fn name_is(s: &[u8], names: &[u32], digests: &[u32], i: u32, text: &[u8]) -> bool
    requires { Named s.now names.now × (digests.now ≡ digests_at s.now names.now) ×
        (i < length names.now) × (length text.now ≤ 8) }
    ensures { result ≡ same (name_at s.now (get_or names.now i 0)) text.now }
{
    let k = i as usize;
    digests[k] == digest(text) && name_reads(s, names, i, text)
}
