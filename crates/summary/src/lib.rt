// Summaries of functions: what both passes over a sheet ask of a function's arguments, gathered once.
#![tactic(auto)]

mod count;

ghost use Rattle.std.specs.Prelude.{◌≡◌, ◌+◌, ◌<◌, ◌≤◌, length, replicate};
ghost use Rattle.format.specs.declared.ItemKind.TheVariants.{RustFunction};
ghost use Rattle.view.specs.Values.{Yields};
ghost use Rattle.view.specs.Views.{comment_lines};
ghost use Rattle.tables.specs.Tables.{items_in, function_of, Tabled, Item, Function, Lent};
ghost use Rattle.summary.specs.Summaries.{Summary, Summaries, Keeping};

use crate::count::count_summary;
pub use count::{is_held, kept_length};
use cursor::Cursor;
use format::{ItemKind, Outline};
use tables::{Pool, Table, fill_arguments, function, item};
use view::{FunctionView, ItemView};

// The summary of one function: a word for each argument and five more.
#[derive(Clone, Copy)]
pub struct Words {
    pub place: usize,
}

impl Words {
    // The most words of a summary.
    pub const MOST: usize = FunctionView::ARGUMENTS + 5;
    // The words that are kept: where the summary of each item begins, or 0, and the summaries.
    pub const KEPT: usize = 3744;
}

// The summary of a function, whose texts are not counted; the answer is the position of its comment.
fn fill_summary(s: &[u8], t: &[u32], f: FunctionView, words: &mut [u32]) -> Cursor
    requires { Tabled s.now t.now × Function s.now t.now f × (36 ≤ length words.old) }
    ensures { Summary s.now t.now f words.new ×
        Yields (comment_lines s.now result.at)
        (function_of s.now t.now f.number).comment }
{
    let comment = fill_arguments(s, t, f, words);
    let n = f.arguments as usize;
    words[n] = 0;
    words[n + 1] = 0;
    words[n + 2] = 0;
    words[n + 3] = 0;
    words[n + 4] = comment.at;
    comment
}

// The same, counted where that can be.
fn make_summary(
    s: &[u8],
    t: &[u32; Table::PLACES],
    pool: &[u8; Pool::BYTES],
    f: FunctionView,
    words: &mut [u32],
)
    requires { Lent s.now t.now pool.now × Function s.now t.now f × (36 ≤ length words.old) }
    ensures { Summary s.now t.now f words.new }
{
    fill_summary(s, t, f, words);
    count_summary(s, t, pool, f, words);
}

// ---- all functions

// The summary of function v, behind the first `end` words; the answer is the place behind it.
fn keep(
    s: &[u8],
    t: &[u32; Table::PLACES],
    pool: &[u8; Pool::BYTES],
    v: ItemView,
    end: usize,
    kept: &mut [u32],
) -> usize
    requires { Lent s.now t.now pool.now × Item s.now t.now v × (v.kind ≡ RustFunction) ×
        Keeping s.now t.now v.number end kept.old × (end + 36 ≤ length kept.old) }
    ensures { Keeping s.now t.now (v.number + 1) result kept.new }
{
    let f = function(s, t, v);
    make_summary(s, t, pool, f, &mut kept[end..]);
    let i = v.number as usize;
    kept[i] = end as u32;
    end + (f.arguments as usize + 5)
}

// The same of item i, where it is a function and its summary has room.
fn keep_item(
    s: &[u8],
    t: &[u32; Table::PLACES],
    pool: &[u8; Pool::BYTES],
    i: u32,
    end: usize,
    kept: &mut [u32],
) -> usize
    requires { Lent s.now t.now pool.now × (i < length (items_in t.now)) ×
        Keeping s.now t.now i end kept.old }
    ensures { Keeping s.now t.now (i + 1) result kept.new }
{
    if kept.len() - end < Words::MOST {
        return end;
    }
    let v = item(s, t, i);
    match v.kind {
        ItemKind::RustFunction => keep(s, t, pool, v, end, kept),
        _ => end,
    }
}

// The summaries of a sheet's functions, as far as they have room.
pub fn fill_summaries(
    s: &[u8],
    t: &[u32; Table::PLACES],
    pool: &[u8; Pool::BYTES],
    kept: &mut [u32],
)
    requires { Lent s.now t.now pool.now × (kept.old ≡ replicate 3744 0) }
    ensures { Summaries s.now t.now kept.new }
{
    let n = t[Table::ITEMS];
    let mut end = Outline::ITEMS;
    for i in 0..n {
        end = keep_item(s, t, pool, i, end, kept);
    }
}

// Words into as many places. std's `copy_from_slice` would call memmove, which nothing else of the archive needs.
fn copy_words(from: &[u32], to: &mut [u32])
    requires { length to.old ≡ length from.now }
    ensures { to.new ≡ from.now }
{
    for i in 0..from.len() {
        to[i] = from[i];
    }
}

// The summary of a function, into the front of words, from those that are kept if it is among them; the answer is the
// position of its comment.
pub fn load_summary(s: &[u8], t: &[u32], f: FunctionView, kept: &[u32], words: &mut [u32]) -> Cursor
    requires { Tabled s.now t.now × Function s.now t.now f × Summaries s.now t.now kept.now ×
        (36 ≤ length words.old) }
    ensures { Summary s.now t.now f words.new ×
        Yields (comment_lines s.now result.at)
        (function_of s.now t.now f.number).comment }
{
    let i = f.number as usize;
    if kept.len() <= i {
        return fill_summary(s, t, f, words);
    }
    let start = kept_length(kept, i);
    if start == 0 {
        return fill_summary(s, t, f, words);
    }
    let n = f.arguments as usize + 5;
    let end = start + n;
    copy_words(&kept[start..end], &mut words[..n]);
    Cursor::new(words[n - 1])
}
