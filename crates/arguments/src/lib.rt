// The arguments of one function, walked past and looked at on the way: what rules 9 to 11 want of them is marked.
#![tactic(auto)]

ghost use Rattle.std.specs.Prelude.{◌≡◌, ◌&&◌, ◌<◌, ◌≤◌, length, get_or, take};
ghost use Rattle.lexical.specs.Bytes.{same};
ghost use Rattle.format.specs.Limits.{most_arguments, most_bits};
ghost use Rattle.format.specs.Decode.{many};
ghost use Rattle.format.specs.Decoding.{kind_of, argument, type};
ghost use Rattle.rules.specs.Rules.{twice};
ghost use Rattle.cursor.specs.Checking.{Limited, step_in};
ghost use Rattle.cursor.specs.Yielding.{Yields};
ghost use Rattle.names.specs.Naming.{name_at, names_at, Named};
ghost use Rattle.names.specs.Digests.{digests_at};
ghost use Rattle.types.specs.Kinds.{type_here, kind_of_type};
ghost use Rattle.marks.specs.Gathering.{Gathers};
ghost use Rattle.marks.specs.Marking.{mark_if, judge_argument, mark_arguments};
ghost use Rattle.arguments.specs.Arguments.{is_vector_kind, judge_error, argument_of, Passes};
ghost use Rattle.arguments.specs.Arguments.{names_of, Indexes, Notes};

use cursor::{Cursor, end_of, extract, width};
use format::TypeKind;
use marks::{Mark, repeats, set_mark};
use names::{name_is, same_name};
use types::{Levels, is_indirect_template, kind_of, walk_type};

// How many arguments a function has.
#[derive(Clone, Copy)]
pub struct Count {
    pub arguments: usize,
}

impl Count {
    // The most.
    pub const MOST: usize = 31;
}

// Marks a place where the test holds.
fn mark_if(marks: &mut [u8], yes: bool, place: usize)
    ensures { marks.new ≡ mark_if yes place marks.old }
{
    if yes {
        set_mark(marks, place);
    }
}

// ---- one argument

// Whether the kind of this number is a vector.
fn is_vector(k: u32) -> bool
    ensures { result ≡ is_vector_kind (kind_of k) }
{
    k == 10
}

// Where it is asked, whether name i is the text.
fn name_when(s: &[u8], names: &[u32], digests: &[u32], asked: bool, i: u32, text: &[u8]) -> bool
    requires { Named s.now names.now × (digests.now ≡ digests_at s.now names.now) ×
        (i < length names.now) × (length text.now ≤ 8) }
    ensures { result ≡
        (asked && same (name_at s.now (get_or names.now i 0)) text.now) }
{
    asked && name_is(s, names, digests, i, text)
}

// Of an argument `error` of a throwing function: its type is of the kind and stands at a position.
fn judge_error(s: &[u8], items: u32, at: u32, kind: TypeKind, marks: &mut [u8])
    requires { Limited s.now × Yields (type items s.now at) (type_here items s.now at) ×
        (kind ≡ kind_of_type (type_here items s.now at)) }
    ensures { marks.new ≡ judge_error (type_here items s.now at) marks.old }
{
    let body = at + 4;
    match kind {
        TypeKind::Atom => {
            let a = extract(s, body, 4);
            mark_if(marks, a == 14, Mark::UNFIT);
        }
        TypeKind::Named => {
            let i = extract(s, body, width(items));
            mark_if(marks, i < 256, Mark::ERRORS + i as usize);
        }
        TypeKind::Template(k) => mark_if(marks, is_indirect_template(k), Mark::UNFIT),
        TypeKind::Array => set_mark(marks, Mark::UNFIT),
        TypeKind::Pointer(_) | TypeKind::Str | TypeKind::Fn | TypeKind::Bad => {}
    }
}

// Marks what rule 11 wants of the argument with the name of this index, whose type stands at `of`.
fn judge_argument(
    s: &[u8],
    names: &[u32],
    digests: &[u32],
    items: u32,
    name: u32,
    of: u32,
    method: bool,
    throws: bool,
    marks: &mut [u8],
)
    requires { Named s.now names.now × (digests.now ≡ digests_at s.now names.now) ×
        (name < length names.now) × Yields (type items s.now of) (type_here items s.now of) }
    ensures { marks.new ≡ judge_argument method throws
        (argument_of s.now names.now items name of) marks.old }
{
    let k = extract(s, of, 4);
    let vector = is_vector(k);
    mark_if(marks, vector, Mark::UNFIT);
    let receiver = name_when(s, names, digests, method, name, b"self");
    mark_if(marks, receiver, Mark::UNFIT);
    if name_when(s, names, digests, throws, name, b"error") {
        judge_error(s, items, of, kind_of(k), marks);
    }
}

// An argument that was walked past: the index of its name, and the position behind it or the refusal, by one number.
// A number comes back in a register, a Result through memory (docs/DECISIONS.md).
#[derive(Clone, Copy)]
pub struct Passed {
    pub name: u32,
    pub next: u32,
}

// Past the argument at a position, which is marked.
fn check_argument(
    s: &[u8],
    names: &[u32],
    digests: &[u32],
    at: u32,
    items: u32,
    method: bool,
    throws: bool,
    marks: &mut [u8],
) -> Passed
    requires { Named s.now names.now × (digests.now ≡ digests_at s.now names.now) × (at ≤ most_bits) }
    ensures { Passes method throws s.now names.now
        (argument (names_at s.now names.now) items s.now at)
        marks.old result marks.new }
{
    let n = names.len() as u32;
    let w = width(n);
    let of = at + w;
    if end_of(s) < of {
        return Passed {
            name: 0,
            next: Cursor::CUT,
        };
    }
    let name = extract(s, at, w);
    if n <= name {
        return Passed {
            name,
            next: Cursor::LOOSE,
        };
    }
    let next = walk_type(&s[..], of, items, Levels::MOST, &mut marks[..]);
    if Cursor::LAST < next {
        return Passed { name, next };
    }
    judge_argument(s, names, digests, items, name, of, method, throws, marks);
    Passed { name, next }
}

// ---- all arguments

// Past n arguments, which are marked; the index of each one's name and the digest of it go to the front of two tables.
fn check_each(
    s: &[u8],
    names: &[u32],
    digests: &[u32],
    at: u32,
    items: u32,
    n: u32,
    method: bool,
    throws: bool,
    numbers: &mut [u32],
    keys: &mut [u32],
    marks: &mut [u8],
) -> u32
    requires { Named s.now names.now × (digests.now ≡ digests_at s.now names.now) × (at ≤ most_bits) ×
        (n ≤ length numbers.old) × (n ≤ length keys.old) }
    ensures { Notes method throws s.now names.now
        (many n (argument (names_at s.now names.now) items) s.now at)
        marks.old result (take n numbers.new) (take n keys.new) marks.new }
{
    let mut next = at;
    for i in 0..n {
        let a = check_argument(s, names, digests, next, items, method, throws, marks);
        if Cursor::LAST < a.next {
            return a.next;
        }
        numbers[i as usize] = a.name;
        keys[i as usize] = digests[a.name as usize];
        next = a.next;
    }
    next
}

// Whether two of the names are the same.
fn equal_names(s: &[u8], names: &[u32], digests: &[u32], numbers: &[u32]) -> bool
    requires { Named s.now names.now × (digests.now ≡ digests_at s.now names.now) ×
        Indexes names.now numbers.now }
    ensures { result ≡ twice same (names_of s.now names.now numbers.now) }
{
    let mut found = false;
    'pairs: for i in 0..numbers.len() {
        for j in i + 1..numbers.len() {
            found = same_name(s, names, digests, numbers[i], numbers[j]);
            if found {
                break 'pairs;
            }
        }
    }
    found
}

// Past the n arguments of a function at a position, in a sheet of so many items.
pub fn check_arguments(
    s: &[u8],
    names: &[u32],
    digests: &[u32],
    at: u32,
    items: u32,
    n: u32,
    method: bool,
    throws: bool,
    marks: &mut [u8],
) -> u32
    requires { Named s.now names.now × (digests.now ≡ digests_at s.now names.now) × (at ≤ most_bits) ×
        (n ≤ most_arguments) }
    ensures { Gathers (mark_arguments method throws)
        (many n (argument (names_at s.now names.now) items) s.now at)
        marks.old (step_in result) marks.new }
{
    let mut numbers = [0u32; Count::MOST];
    let mut keys = [0u32; Count::MOST];
    let r = check_each(
        s,
        names,
        digests,
        at,
        items,
        n,
        method,
        throws,
        &mut numbers,
        &mut keys,
        marks,
    );
    if Cursor::LAST < r {
        return r;
    }
    let k = n as usize;
    if !repeats(&keys[..k]) {
        return r;
    }
    let same = equal_names(s, names, digests, &numbers[..k]);
    mark_if(marks, same, Mark::REPEATED);
    r
}
