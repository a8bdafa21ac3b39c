// The lengths of a function's arguments in its declaration, in the head of its shim, as locals and as operands. All are
// counted by places in an empty buffer, from place 1 on; place 0 stands for texts that are not counted.
ghost use Rattle.std.specs.Prelude.{◌≡◌, ◌+◌, ◌<◌, ◌≤◌, min, false, not, ◌&&◌, [], ◌++◌, map, length, slice_index};
ghost use Rattle.lexical.specs.Bytes.{bytes};
ghost use Rattle.lexical.specs.Decimal.{pick_text};
ghost use Rattle.format.specs.Decode.{pick};
ghost use Rattle.rules.specs.Rules.{gather};
ghost use Rattle.bridge.specs.WriteType.{write_type_space};
ghost use Rattle.bridge.specs.Write.{commas, shape as shape_of, extern_arg_type, extern_arg, held_local, operand};
ghost use Rattle.sink.specs.Sink.{sink, limit, Wrote};
ghost use Rattle.view.specs.Values.{name_at};
ghost use Rattle.view.specs.Views.{kind_of_type, owner_of};
ghost use Rattle.tables.specs.Tables.{names_in, items_of, function_of, argument_of, type_of, Typed};
ghost use Rattle.tables.specs.Tables.{Function, Arguments, Lent};
ghost use Rattle.count_type.specs.Counts.{Counts};
ghost use Rattle.summary.specs.Summaries.{Summary};
ghost use Rattle.summary.specs.Places.{Word, Passed, Placed};
ghost use Rattle.summary.specs.Ends.{owner_end};

use count_type::count_type;
use cursor::Cursor;
use put_name::put_name;
use shape::{write_outermost_space, write_pointer};
use sink::advance;
use tables::{Pool, Table, type_word};
use types::Levels;
use view::{ArgumentView, FunctionView, argument};

// ---- parts of an argument

// The comma before an argument.
fn comma_length(comma: bool) -> usize
    ensures { result ≡ length (pick_text comma (bytes ", ") []) }
{
    if comma { 2 } else { 0 }
}

// The star of an argument that is passed by its address, and the sign before its operand.
fn star_length(indirect: bool) -> usize
    ensures { (result ≡ length (pick_text indirect (bytes "*") [])) ×
        (result ≡ length (pick_text indirect (bytes "&") [])) }
{
    if indirect { 1 } else { 0 }
}

fn name_length(s: &[u8], t: &[u32; Table::PLACES], pool: &[u8; Pool::BYTES], i: u32) -> usize
    requires { Lent s.now t.now pool.now × (i < length (names_in t.now)) }
    ensures { result ≡ min limit (length (name_at s.now (slice_index (names_in t.now) i))) }
{
    let k = i as usize;
    let e = t[Table::SPELLED + k];
    if e == 0 {
        let mut none = [0u8; 1];
        return put_name(s, t[k], &mut none[..0], 0);
    }
    (e % 64) as usize
}

// The length of the type at c, with the space behind it; 0 only where it is too long for a word.
fn type_length(s: &[u8], t: &[u32; Table::PLACES], pool: &[u8; Pool::BYTES], c: Cursor) -> usize
    requires { Lent s.now t.now pool.now × Typed s.now t.now c.at }
    ensures { Counts (write_type_space (items_of s.now t.now)
        (type_of s.now t.now c.at)) result }
{
    let word = type_word(s, t, pool, c);
    if 0 < word {
        return (word % 1024) as usize;
    }
    let n = count_type(s, t, pool, c, Levels::MOST, true);
    if 0 < n {
        return n;
    }
    let mut none = [0u8; 1];
    let end = write_outermost_space(s, t, pool, c, &mut none[..0], 1);
    if end < 0xffff_ffff {
        return end - 1;
    }
    0
}

// The place behind the type at c as a declaration has it; n is its length as it is written.
fn declared_type(
    s: &[u8],
    t: &[u32; Table::PLACES],
    pool: &[u8; Pool::BYTES],
    c: Cursor,
    owner: u32,
    n: usize,
    at: usize,
) -> usize
    requires { Lent s.now t.now pool.now × Typed s.now t.now c.at ×
        (owner ≡ owner_of (kind_of_type (type_of s.now t.now c.at))) ×
        Counts (write_type_space (items_of s.now t.now) (type_of s.now t.now c.at)) n × (0 < n) × (0 < at) }
    ensures { Wrote (sink [] at) (extern_arg_type (items_of s.now t.now)
        (type_of s.now t.now c.at)
        (shape_of (type_of s.now t.now c.at))) (sink [] result) }
{
    if owner == 0 {
        return advance(at, n);
    }
    let mut none = [0u8; 1];
    write_pointer(s, t, pool, Cursor::new(c.at + 4), true, &mut none[..0], at)
}

// Whether an argument is held in a local.
pub fn is_held(a: ArgumentView) -> bool
    ensures { result ≡ (not a.string && a.indirect) }
{
    !a.string && a.indirect
}

// The place behind the local of an argument, where it has one; n and name are the lengths of its type and of its name.
fn behind_local(held: bool, n: usize, name: usize, at: usize) -> usize
    ensures { result ≡ pick held (min limit (at + 42 + n + name + name)) at }
{
    if held {
        let fixed = advance(at, 42);
        let typed = advance(fixed, n);
        let named = advance(typed, name);
        return advance(named, name);
    }
    at
}

fn value_length(held: bool) -> usize
    ensures { result ≡ length (pick_text held (bytes "$.value") []) }
{
    if held { 7 } else { 0 }
}

// What stands behind an operand's name.
fn end_length(owner: u32, held: bool) -> usize
    ensures { result ≡ length (owner_end owner held) }
{
    match owner {
        1 => 11,
        2 => 10,
        _ => value_length(held),
    }
}

// ---- arguments

// The places in all texts.
#[derive(Drop)]
struct Places {
    exts: usize,
    pars: usize,
    locals: usize,
    operands: usize,
}

// Behind a gap, which locals do not have.
fn behind_gap(p: Places, gap: usize) -> Places
    ensures { (result.exts ≡ min limit (p.exts + gap)) × (result.pars ≡ min limit (p.pars + gap)) ×
        (result.locals ≡ p.locals) × (result.operands ≡ min limit (p.operands + gap)) }
{
    Places {
        exts: advance(p.exts, gap),
        pars: advance(p.pars, gap),
        locals: p.locals,
        operands: advance(p.operands, gap),
    }
}

// Behind argument j, of which the texts begin at these places.
fn count_argument(
    s: &[u8],
    t: &[u32; Table::PLACES],
    pool: &[u8; Pool::BYTES],
    f: FunctionView,
    words: &[u32],
    j: u32,
    p: Places,
) -> Places
    requires { Lent s.now t.now pool.now × Arguments s.now t.now f words.now ×
        (j < f.arguments) × (f.arguments ≤ length words.now) × Placed p }
    ensures { Passed (extern_arg (items_of s.now t.now)
        (argument_of s.now t.now f.number j))
        (write_type_space (items_of s.now t.now)
        (argument_of s.now t.now f.number j).type ++
        (argument_of s.now t.now f.number j).name)
        (held_local (items_of s.now t.now)
        (argument_of s.now t.now f.number j))
        (operand (items_of s.now t.now)
        (argument_of s.now t.now f.number j)) p result }
{
    let a = argument(words, j);
    let n = type_length(s, t, pool, a.of);
    if n == 0 {
        return Places {
            exts: 0,
            pars: 0,
            locals: 0,
            operands: 0,
        };
    }
    let name = name_length(s, t, pool, a.name);
    let held = is_held(a);
    let star = star_length(a.indirect);
    let end = end_length(a.owner, held);
    let typed = declared_type(s, t, pool, a.of, a.owner, n, p.exts);
    let marked = advance(typed, star);
    let spaced = advance(p.pars, n);
    let begun = advance(p.operands, star);
    let named = advance(begun, name);
    Places {
        exts: advance(marked, name),
        pars: advance(spaced, name),
        locals: behind_local(held, n, name, p.locals),
        operands: advance(named, end),
    }
}

// Behind all arguments.
fn count_arguments(
    s: &[u8],
    t: &[u32; Table::PLACES],
    pool: &[u8; Pool::BYTES],
    f: FunctionView,
    words: &[u32],
) -> Places
    requires { Lent s.now t.now pool.now × Arguments s.now t.now f words.now ×
        (f.arguments ≤ length words.now) }
    ensures { Passed (commas false (map (extern_arg (items_of s.now t.now))
        (function_of s.now t.now f.number).arguments))
        (commas false (map (λ a. write_type_space (items_of s.now t.now)
        a.type ++ a.name) (function_of s.now t.now f.number).arguments))
        (gather (held_local (items_of s.now t.now))
        (function_of s.now t.now f.number).arguments)
        (commas false (map (operand (items_of s.now t.now))
        (function_of s.now t.now f.number).arguments))
        (record { exts = 1; pars = 1; locals = 1; operands = 1 }) result }
{
    let mut p = Places {
        exts: 1,
        pars: 1,
        locals: 1,
        operands: 1,
    };
    let mut comma = false;
    for j in 0..f.arguments {
        let gap = comma_length(comma);
        let q = behind_gap(p, gap);
        p = count_argument(s, t, pool, f, words, j, q);
        if p.exts == 0 {
            return p;
        }
        comma = true;
    }
    p
}

// ---- summaries

// Word i, which may be a length or a place.
pub fn kept_length(words: &[u32], i: usize) -> usize
    requires { i < length words.now }
    ensures { result ≡ slice_index words.now i }
{
    words[i] as usize
}

// The length of a text from place 1 on up to a place, as a word; 0 where it is too long.
fn length_word(place: usize) -> u32
    requires { 0 < place }
    ensures { Word place result }
{
    if 0xffff_ffff < place {
        return 0;
    }
    (place - 1) as u32
}

// Stores the lengths in the summary, where they were counted.
pub fn count_summary(
    s: &[u8],
    t: &[u32; Table::PLACES],
    pool: &[u8; Pool::BYTES],
    f: FunctionView,
    words: &mut [u32],
)
    requires { Lent s.now t.now pool.now × Function s.now t.now f ×
        Summary s.now t.now f words.old }
    ensures { Summary s.now t.now f words.new }
{
    let p = count_arguments(s, t, pool, f, words);
    if p.exts == 0 {
        return;
    }
    let n = f.arguments as usize;
    words[n] = length_word(p.exts);
    words[n + 1] = length_word(p.pars);
    words[n + 2] = length_word(p.locals);
    words[n + 3] = length_word(p.operands);
}
