// The comment lines of a sheet: the line rule, and lines that are checked.
#![tactic(auto)]

ghost use Rattle.std.specs.Prelude.{◌≡◌, List, ℕ, ◌+◌, ◌*◌, ◌≤◌, length};
ghost use Rattle.lexical.specs.Bytes.{within, every};
ghost use Rattle.format.specs.Decode.{many};
ghost use Rattle.format.specs.Sheet.{Body};
ghost use Rattle.format.specs.Decoding.{line_ok, line};
ghost use Rattle.cursor.specs.Checking.{Limited, Checks};
ghost use Rattle.text.specs.Text.{chars_at};
ghost use Rattle.comments.specs.Comments.{comment};

use cursor::{Cursor, end_of, extract, extract_wide, read};
use refusal::Refusal;

// A line of a comment, by its number of characters.
#[derive(Clone, Copy)]
pub struct CommentLine {
    pub length: usize,
}

impl CommentLine {
    // The characters of the longest line.
    pub const LONGEST: usize = 127;
    // The most lines of a comment.
    pub const MOST: usize = 31;
}

// Eight characters of 7 bits in one number: 1 in each,
const ONES: u64 = 0x2_0408_1020_4081;
// 32 in each,
const HALVES: u64 = 32 * ONES;
// the six low bits of each,
const LOWS: u64 = 63 * ONES;
// the high bit of each.
const HIGHS: u64 = 64 * ONES;

// Whether the n characters at a position, at most eight, are those of a line: 32 to 126, all tested at once.
// The two sums tell by each high bit whether the low bits are 32 or more, and whether they are 63.
fn few_line_chars(s: &[u8], at: u32, n: u32) -> bool
    requires { Limited s.now × (at + 7 * n ≤ 8 * length s.now) × (n ≤ 8) }
    ensures { result ≡ every (within 32 126) (chars_at s.now at n) }
{
    let x = extract_wide(&s[..], at, 7 * n);
    let low = x & LOWS;
    let good = (((low + HALVES) | x) ^ ((low + ONES) & x)) & HIGHS;
    good == HIGHS >> (56 - 7 * n)
}

// The same of any number of characters, eight by eight.
fn all_line_chars(s: &[u8], at: u32, n: u32) -> bool
    requires { Limited s.now × (at + 7 * n ≤ 8 * length s.now) }
    ensures { result ≡ every (within 32 126) (chars_at s.now at n) }
{
    let mut next = at;
    let mut left = n;
    // Windows of eight characters, and the last one after the loop: no count.
    while 8 < left {
        if !few_line_chars(s, next, 8) {
            return false;
        }
        next = next + 56;
        left = left - 8;
    }
    few_line_chars(s, next, left)
}

// The line rule, for the n characters at a position.
fn is_line(s: &[u8], at: u32, n: u32) -> bool
    requires { Limited s.now × (at + 7 * n ≤ 8 * length s.now) }
    ensures { result ≡ line_ok (chars_at s.now at n) }
{
    // The last one is no backslash (92).
    all_line_chars(s, at, n) && (n == 0 || extract(s, at + 7 * (n - 1), 7) != 92)
}

// Past the line at c.
fn check_line(s: &[u8], c: Cursor) -> Result<Cursor, Refusal>
    requires { Limited s.now }
    ensures { Checks (line s.now c.at) result }
{
    let length = read(s, c, 7)?;
    let at = length.next.at;
    let end = at + 7 * length.value;
    if end_of(s) < end {
        return Err(Refusal::CutSheet);
    }
    if is_line(s, at, length.value) {
        return Ok(Cursor { at: end });
    }
    Err(Refusal::BadComment)
}

// Past n lines.
fn check_lines(s: &[u8], c: Cursor, n: u32) -> Result<Cursor, Refusal>
    requires { Limited s.now }
    ensures { Checks (many n line s.now c.at) result }
{
    let mut next = c;
    for _ in 0..n {
        next = check_line(s, next)?;
    }
    Ok(next)
}

// Past a comment's count and lines.
pub fn check_comment(s: &[u8], c: Cursor) -> Result<Cursor, Refusal>
    requires { Limited s.now }
    ensures { (make : List (List ℕ) → Body) → Checks (comment make s.now c.at) result }
{
    let count = read(s, c, 5)?;
    check_lines(s, count.next, count.value)
}
