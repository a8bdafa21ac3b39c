// The items of a sheet, checked; names are the positions of the sheet's names, items is the number of its items. The
// walk marks what rules 9 to 11 ask for.
#![tactic(auto)]

ghost use Rattle.std.specs.Prelude.{◌≡◌, List, ℕ, ◌≤◌, length};
ghost use Rattle.format.specs.Decode.{got, many};
ghost use Rattle.format.specs.Bits.{index};
ghost use Rattle.format.specs.Types.{Ret};
ghost use Rattle.format.specs.Sheet.{Form, Argument, Body};
ghost use Rattle.format.specs.Decoding.{form, function_body, struct_body, enum_body};
ghost use Rattle.format.specs.Decoding.{part_of, is_bad, item_body, namespace, item};
ghost use Rattle.rules.specs.Rules.{is_method};
ghost use Rattle.cursor.specs.Checking.{Limited, Checks, position_of, Fills};
ghost use Rattle.names.specs.Naming.{names_at, Named};
ghost use Rattle.names.specs.Digests.{digests_at};
ghost use Rattle.marks.specs.Gathering.{each, Gathers};
ghost use Rattle.marks.specs.Marking.{mark_ret, mark_form, mark_arguments, mark_body, mark_item};
ghost use Rattle.items.specs.Parts.{signature};

use arguments::check_arguments;
use comments::check_comment;
use cursor::{Cursor, check_index, read, skip, step_in};
use format::ItemKind;
use refusal::Refusal;
use types::{check_item_index, check_return, check_types};
use words::in_range;

// ---- functions

fn check_form(s: &[u8], c: Cursor, items: u32, marks: &mut [u8]) -> Result<Cursor, Refusal>
    requires { Limited s.now }
    ensures { Gathers mark_form (form items s.now c.at) marks.old result
        marks.new }
{
    let kind = read(s, c, 2)?;
    if kind.value == 0 {
        return Ok(kind.next);
    }
    check_item_index(s, kind.next, items, marks)
}

// Whether the form at c is a method's.
fn is_method(s: &[u8], c: Cursor) -> bool
    requires { Limited s.now }
    ensures { (items m : ℕ) (x : Form) → form items s.now c.at ≡ got x m → result ≡ is_method x }
{
    match read(s, c, 2) {
        Ok(kind) => matches!(kind.value, 1 | 2),
        Err(_) => false,
    }
}

// Past a function's return type, arguments and comment.
fn check_signature(
    s: &[u8],
    names: &[u32],
    digests: &[u32],
    c: Cursor,
    items: u32,
    method: bool,
    throws: bool,
    marks: &mut [u8],
) -> Result<Cursor, Refusal>
    requires { Named s.now names.now × (digests.now ≡ digests_at s.now names.now) }
    ensures { (make : Ret → List Argument → List (List ℕ) → Body) (u : List ℕ) →
        ((x : Ret) (xs : List Argument) (ls : List (List ℕ)) →
        mark_body (make x xs ls) u ≡ mark_arguments method throws xs (mark_ret x marks.old)) →
        Gathers mark_body
        (signature make (names_at s.now names.now) items s.now c.at)
        u result marks.new }
{
    let count = check_return(s, c, items, marks)?;
    let arguments = read(s, count, 5)?;
    let comment = step_in(check_arguments(
        s,
        names,
        digests,
        arguments.next.at,
        items,
        arguments.value,
        method,
        throws,
        marks,
    ))?;
    check_comment(s, comment)
}

fn check_function(
    s: &[u8],
    names: &[u32],
    digests: &[u32],
    c: Cursor,
    items: u32,
    marks: &mut [u8],
) -> Result<Cursor, Refusal>
    requires { Named s.now names.now × (digests.now ≡ digests_at s.now names.now) }
    ensures { Gathers mark_body
        (function_body (names_at s.now names.now) items s.now c.at)
        marks.old result marks.new }
{
    let form = check_index(s, c, names.len() as u32)?;
    let behind = check_form(s, form, items, marks)?;
    let throws = read(s, behind, 1)?;
    let method = is_method(s, form);
    check_signature(
        s,
        names,
        digests,
        throws.next,
        items,
        method,
        throws.value == 1,
        marks,
    )
}

// ---- items

fn check_struct(s: &[u8], c: Cursor, items: u32, marks: &mut [u8]) -> Result<Cursor, Refusal>
    requires { Limited s.now }
    ensures { Gathers mark_body (struct_body items s.now c.at) marks.old result
        marks.new }
{
    let count = skip(s, c, 1)?;
    let fields = read(s, count, 6)?;
    check_types(s, fields.next, items, fields.value, marks)
}

fn check_enum(s: &[u8], c: Cursor) -> Result<Cursor, Refusal>
    requires { Limited s.now }
    ensures { Checks (enum_body s.now c.at) result }
{
    let next = skip(s, c, 1)?;
    let repr = read(s, next, 4)?;
    if in_range(2, 11, repr.value as u8) {
        return skip(s, repr.next, 1);
    }
    Err(Refusal::BadKind)
}

// What the number k of a kind says.
pub fn part_of(k: u32) -> ItemKind
    ensures { result ≡ part_of k }
{
    match k {
        0 => ItemKind::Struct,
        1 => ItemKind::Enum,
        2 => ItemKind::CxxType,
        3 => ItemKind::RustType,
        4 => ItemKind::RustFunction,
        _ => ItemKind::Bad,
    }
}

fn is_bad(k: ItemKind) -> bool
    ensures { result ≡ is_bad k }
{
    matches!(k, ItemKind::Bad)
}

// Past what stands behind the C++ name.
fn check_body(
    s: &[u8],
    names: &[u32],
    digests: &[u32],
    c: Cursor,
    items: u32,
    kind: ItemKind,
    marks: &mut [u8],
) -> Result<Cursor, Refusal>
    requires { Named s.now names.now × (digests.now ≡ digests_at s.now names.now) }
    ensures { Gathers mark_body
        (item_body kind (names_at s.now names.now) items s.now c.at)
        marks.old result marks.new }
{
    match kind {
        ItemKind::Struct => check_struct(s, c, items, marks),
        ItemKind::Enum => check_enum(s, c),
        ItemKind::CxxType | ItemKind::RustType => skip(s, c, 1),
        ItemKind::RustFunction => check_function(s, names, digests, c, items, marks),
        ItemKind::Bad => Err(Refusal::BadKind),
    }
}

// Past n indexes into the name table.
fn check_indexes(s: &[u8], c: Cursor, names: u32, n: u32) -> Result<Cursor, Refusal>
    requires { Limited s.now }
    ensures { Checks (many n (index names) s.now c.at) result }
{
    let mut next = c;
    for _ in 0..n {
        next = check_index(s, next, names)?;
    }
    Ok(next)
}

fn check_namespace(s: &[u8], names: &[u32], c: Cursor) -> Result<Cursor, Refusal>
    requires { Named s.now names.now }
    ensures { Checks (namespace (names_at s.now names.now) s.now c.at) result }
{
    let count = read(s, c, 3)?;
    check_indexes(s, count.next, names.len() as u32, count.value)
}

// Past the item at c.
fn check_item(
    s: &[u8],
    names: &[u32],
    digests: &[u32],
    c: Cursor,
    items: u32,
    marks: &mut [u8],
) -> Result<Cursor, Refusal>
    requires { Named s.now names.now × (digests.now ≡ digests_at s.now names.now) }
    ensures { Gathers mark_item
        (item (names_at s.now names.now) items s.now c.at)
        marks.old result marks.new }
{
    let number = read(s, c, 3)?;
    let kind = part_of(number.value);
    if is_bad(kind) {
        return Err(Refusal::BadKind);
    }
    let name = check_namespace(s, names, number.next)?;
    let behind = check_index(s, name, names.len() as u32)?;
    check_body(s, names, digests, behind, items, kind, marks)
}

// Past all items, with the position of each in offsets.
pub fn check_items(
    s: &[u8],
    names: &[u32],
    digests: &[u32],
    c: Cursor,
    items: u32,
    offsets: &mut [u32],
    marks: &mut [u8],
) -> Result<Cursor, Refusal>
    requires { Named s.now names.now × (digests.now ≡ digests_at s.now names.now) ×
        (items ≤ length offsets.old) }
    ensures { Fills
        (many items (position_of (item (names_at s.now names.now) items)) s.now c.at)
        result items offsets.new ×
        Gathers (each mark_item)
        (many items (item (names_at s.now names.now) items) s.now c.at)
        marks.old result marks.new }
{
    let mut next = c;
    for i in 0..items {
        let behind = check_item(s, names, digests, next, items, marks)?;
        offsets[i as usize] = next.at;
        next = behind;
    }
    Ok(next)
}
