// The types of a sheet, walked by recursion over the levels left (document 01, "A type is a 4-bit kind"). What they
// name is marked on the way, as far as the lent table reaches: who wants no marks lends an empty one.
#![tactic(auto)]

ghost use Rattle.std.specs.Prelude.{◌≡◌, ◌≤◌, Err};
ghost use Rattle.format.specs.Limits.{most_levels, most_bits};
ghost use Rattle.format.specs.Decode.{many};
ghost use Rattle.format.specs.Bits.{index};
ghost use Rattle.format.specs.Decoding.{kind_of, too_deep, type_body, type_at, type, optional};
ghost use Rattle.format.specs.declared.TypeKind.TheVariants.{Fn};
ghost use Rattle.syntax.specs.Types.{is_indirect_template};
ghost use Rattle.cursor.specs.Checking.{Limited, step_in};
ghost use Rattle.marks.specs.Gathering.{each, Gathers};
ghost use Rattle.marks.specs.Marking.{mark_index, mark_ty, mark_ret};

use cursor::{Cursor, check_index, end_of, extract, pass, step_in, width};
use format::{Pointer, Template, TypeKind};
use marks::{Mark, set_mark};
use refusal::Refusal;

// The levels that a type may still have.
#[derive(Clone, Copy)]
pub struct Levels {
    pub left: u32,
}

impl Levels {
    // The depth of the deepest type.
    pub const MOST: u32 = 8;

    // Those of an outermost type.
    pub fn new() -> Levels
        ensures { result ≡ record { left = most_levels } }
    {
        Levels { left: Levels::MOST }
    }
}

// What the number k of a kind says.
pub fn kind_of(k: u32) -> TypeKind
    ensures { result ≡ kind_of k }
{
    match k {
        0 => TypeKind::Atom,
        1 => TypeKind::Named,
        2 => TypeKind::Template(Template::RustBox),
        3 => TypeKind::Template(Template::RustVec),
        4 => TypeKind::Template(Template::UniquePtr),
        5 => TypeKind::Template(Template::SharedPtr),
        6 => TypeKind::Template(Template::WeakPtr),
        7 => TypeKind::Pointer(Pointer::Ref),
        8 => TypeKind::Pointer(Pointer::Ptr),
        9 => TypeKind::Str,
        10 => TypeKind::Template(Template::CxxVector),
        11 => TypeKind::Fn,
        12 => TypeKind::Bad,
        13 => TypeKind::Pointer(Pointer::SliceRef),
        14 => TypeKind::Array,
        _ => TypeKind::Bad,
    }
}

// Whether a type of this kind is passed by reference.
pub fn is_indirect_template(k: Template) -> bool
    ensures { result ≡ is_indirect_template k }
{
    matches!(
        k,
        Template::RustVec | Template::SharedPtr | Template::WeakPtr | Template::CxxVector
    )
}

// The walks answer by a number, as `step_in` of crate cursor reads it.
// A number comes back in a register, a Result through memory (docs/DECISIONS.md).

// The refusal of a kind where no level is left.
#[tactic(auto, using(cursor::proofs::CodeLaws::bad_in, cursor::proofs::CodeLaws::deep_in))]
fn too_deep(k: TypeKind) -> u32
    ensures { step_in result ≡ Err (too_deep k) }
{
    match k {
        TypeKind::Bad => Cursor::BAD_KIND,
        _ => Cursor::TOO_DEEP,
    }
}

// Past an item index, which is marked.
fn walk_index(s: &[u8], at: u32, items: u32, marks: &mut [u8]) -> u32
    requires { Limited s.now × (at ≤ most_bits) }
    ensures { Gathers mark_index (index items s.now at) marks.old (step_in result)
        marks.new }
{
    let w = width(items);
    let end = at + w;
    if end_of(s) < end {
        return Cursor::CUT;
    }
    let i = extract(s, at, w);
    if items <= i {
        return Cursor::LOOSE;
    }
    set_mark(marks, Mark::NAMED + i as usize);
    end
}

// Past the type at a position, with so many levels left.
#[cycle(walk_fn_walk_return_walk_slot_walk_type_walk_types)]
pub fn walk_type(s: &[u8], at: u32, items: u32, left: u32, marks: &mut [u8]) -> u32
    requires { Limited s.now × (at ≤ most_bits) }
    ensures { Gathers mark_ty (type_at items left s.now at) marks.old (step_in result)
        marks.new }
{
    let body = at + 4;
    if end_of(s) < body {
        return Cursor::CUT;
    }
    let kind = kind_of(extract(s, at, 4));
    if left == 0 {
        return too_deep(kind);
    }
    let deeper = left - 1;
    match kind {
        TypeKind::Atom => pass(s, body, 4),
        TypeKind::Named => walk_index(s, body, items, marks),
        TypeKind::Template(_) => walk_type(&s[..], body, items, deeper, &mut marks[..]),
        TypeKind::Pointer(_) => {
            let r = pass(s, body, 1);
            if Cursor::LAST < r {
                return r;
            }
            walk_type(&s[..], r, items, deeper, &mut marks[..])
        }
        TypeKind::Str => body,
        TypeKind::Fn => walk_fn(&s[..], body, items, deeper, &mut marks[..]),
        TypeKind::Array => {
            let r = walk_type(&s[..], body, items, deeper, &mut marks[..]);
            if Cursor::LAST < r {
                return r;
            }
            pass(s, r, 32)
        }
        TypeKind::Bad => Cursor::BAD_KIND,
    }
}

// Past a type that a bit may leave out.
#[cycle(walk_fn_walk_return_walk_slot_walk_type_walk_types)]
fn walk_return(s: &[u8], at: u32, items: u32, left: u32, marks: &mut [u8]) -> u32
    requires { Limited s.now × (at ≤ most_bits) }
    ensures { Gathers mark_ret (optional (type_at items left) s.now at) marks.old (step_in result)
        marks.new }
{
    let next = at + 1;
    if end_of(s) < next {
        return Cursor::CUT;
    }
    if extract(s, at, 1) == 1 {
        return walk_type(&s[..], next, items, left, &mut marks[..]);
    }
    next
}

// Past a Fn's return type, count and types.
#[cycle(walk_fn_walk_return_walk_slot_walk_type_walk_types)]
fn walk_fn(s: &[u8], at: u32, items: u32, left: u32, marks: &mut [u8]) -> u32
    requires { Limited s.now × (at ≤ most_bits) }
    ensures { Gathers mark_ty (type_body Fn items (type_at items left) s.now at) marks.old
        (step_in result) marks.new }
{
    let r = walk_return(&s[..], at, items, left, &mut marks[..]);
    if Cursor::LAST < r {
        return r;
    }
    let first = r + 4;
    if end_of(s) < first {
        return Cursor::CUT;
    }
    let n = extract(s, r, 4);
    walk_types(&s[..], first, items, left, n, &mut marks[..])
}

// Past the type at a position in a row of types: where it is a name, at once.
#[cycle(walk_fn_walk_return_walk_slot_walk_type_walk_types)]
fn walk_slot(s: &[u8], at: u32, items: u32, left: u32, marks: &mut [u8]) -> u32
    requires { Limited s.now × (at ≤ most_bits) }
    ensures { Gathers mark_ty (type_at items left s.now at) marks.old (step_in result)
        marks.new }
{
    let body = at + 4;
    let w = width(items);
    let end = body + w;
    if end_of(s) < end {
        return walk_type(&s[..], at, items, left, &mut marks[..]);
    }
    if left == 0 {
        return walk_type(&s[..], at, items, left, &mut marks[..]);
    }
    if extract(s, at, 4) != 1 {
        return walk_type(&s[..], at, items, left, &mut marks[..]);
    }
    let i = extract(s, body, w);
    if items <= i {
        return Cursor::LOOSE;
    }
    set_mark(marks, Mark::NAMED + i as usize);
    end
}

// Past n types.
#[cycle(walk_fn_walk_return_walk_slot_walk_type_walk_types)]
fn walk_types(s: &[u8], at: u32, items: u32, left: u32, n: u32, marks: &mut [u8]) -> u32
    requires { Limited s.now × (at ≤ most_bits) }
    ensures { Gathers (each mark_ty) (many n (type_at items left) s.now at) marks.old
        (step_in result) marks.new }
{
    let mut next = at;
    for _ in 0..n {
        let r = walk_slot(&s[..], next, items, left, &mut marks[..]);
        if Cursor::LAST < r {
            return r;
        }
        next = r;
    }
    next
}

// Past an item index, which is marked.
pub fn check_item_index(
    s: &[u8],
    c: Cursor,
    items: u32,
    marks: &mut [u8],
) -> Result<Cursor, Refusal>
    requires { Limited s.now }
    ensures { Gathers mark_index (index items s.now c.at) marks.old result
        marks.new }
{
    let next = check_index(s, c, items)?;
    let index = extract(s, c.at, width(items));
    set_mark(marks, Mark::NAMED + index as usize);
    Ok(next)
}

// Past an outermost type, in a sheet of so many items.
pub fn check_type(s: &[u8], c: Cursor, items: u32, marks: &mut [u8]) -> Result<Cursor, Refusal>
    requires { Limited s.now }
    ensures { Gathers mark_ty (type items s.now c.at) marks.old result
        marks.new }
{
    let at = c.at;
    if Cursor::LAST < at {
        return Err(Refusal::CutSheet);
    }
    step_in(walk_type(&s[..], at, items, Levels::MOST, &mut marks[..]))
}

// Past n outermost types.
pub fn check_types(
    s: &[u8],
    c: Cursor,
    items: u32,
    n: u32,
    marks: &mut [u8],
) -> Result<Cursor, Refusal>
    requires { Limited s.now }
    ensures { Gathers (each mark_ty) (many n (type items) s.now c.at) marks.old result
        marks.new }
{
    if n == 0 {
        return Ok(c);
    }
    let at = c.at;
    if Cursor::LAST < at {
        return Err(Refusal::CutSheet);
    }
    step_in(walk_types(&s[..], at, items, Levels::MOST, n, &mut marks[..]))
}

// Past an outermost type that a bit may leave out.
pub fn check_return(s: &[u8], c: Cursor, items: u32, marks: &mut [u8]) -> Result<Cursor, Refusal>
    requires { Limited s.now }
    ensures { Gathers mark_ret (optional (type items) s.now c.at) marks.old result
        marks.new }
{
    let at = c.at;
    if Cursor::LAST < at {
        return Err(Refusal::CutSheet);
    }
    step_in(walk_return(&s[..], at, items, Levels::MOST, &mut marks[..]))
}
