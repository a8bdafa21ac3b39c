// Random access into a decoded sheet: its names, items and types by number. Every reader is lent the sheet and the
// tables of the positions of its names and items, cut to their lengths.
#![tactic(auto)]

ghost use Rattle.std.specs.Prelude.{◌≡◌, [], ◌≤◌, ◌<◌, length, get_or};
ghost use Rattle.format.specs.Limits.{most_names, most_bits};
ghost use Rattle.format.specs.Bits.{bits_at};
ghost use Rattle.format.specs.Sheet.{free};
ghost use Rattle.format.specs.Decoding.{kind_of, type as type_of, form};
ghost use Rattle.format.specs.declared.ItemKind.TheVariants.{RustFunction};
ghost use Rattle.syntax.specs.Items.{item_at};
ghost use Rattle.syntax.specs.Types.{pointer_bit, needs_indirect_abi};
ghost use Rattle.cursor.specs.Checking.{Limited};
ghost use Rattle.view.specs.Values.{value_or, next_of, Yields, name_at, items_at, type_here};
ghost use Rattle.view.specs.Values.{Named, Whole};
ghost use Rattle.view.specs.Views.{kind_of_body, ItemAt, form_view, self_number, Formed, FunctionAt, EntryOf, unpacked};
ghost use Rattle.view.specs.Views.{return_of, return_here, is_function_kind, kind_of_type, is_named_kind};
ghost use Rattle.view.specs.Views.{is_indirect_kind, prefix_of, owner_of};

use cursor::fields::field;
use cursor::{Cursor, extract, width};
use format::{ItemKind, TypeKind};
use items::part_of;
use types::{check_type, is_indirect_template};

// ---- items

// An item by its number: its kind, its namespaces, the index of its C++ name, and where its body stands.
#[derive(Clone, Copy)]
pub struct ItemView {
    pub number: u32,
    pub kind: ItemKind,
    pub depth: u32,
    pub spaces: Cursor,
    pub name: u32,
    pub body: Cursor,
}

pub fn item(s: &[u8], names: &[u32], items: &[u32], i: u32) -> ItemView
    requires { Whole s.now names.now items.now × (i < length items.now) }
    ensures { (result.number ≡ i) × ItemAt s.now names.now items.now result }
{
    let k = i as usize;
    let at = items[k];
    let head = extract(s, at, 6);
    let depth = head % 8;
    let w = width(names.len() as u32);
    let from = at + 6;
    let title = from + depth * w;
    let name = extract(s, title, w);
    let spaces = Cursor::new(from);
    let body = Cursor::new(title + w);
    let of = part_of(head / 8);
    ItemView {
        number: i,
        kind: of,
        depth,
        spaces,
        name,
        body,
    }
}

// The kind of item i.
pub fn kind_at(s: &[u8], names: &[u32], items: &[u32], i: u32) -> ItemKind
    requires { Whole s.now names.now items.now × (i < length items.now) }
    ensures { result ≡ kind_of_body
        (item_at (items_at s.now names.now items.now) i).body }
{
    let k = i as usize;
    let at = items[k];
    part_of(extract(s, at, 3))
}

// How many namespaces item i lies in.
pub fn depth_at(s: &[u8], names: &[u32], items: &[u32], i: u32) -> u32
    requires { Whole s.now names.now items.now × (i < length items.now) }
    ensures { result ≡ length
        (item_at (items_at s.now names.now items.now) i).namespace }
{
    let k = i as usize;
    let at = items[k];
    extract(s, at + 3, 3)
}

// The index of an item's namespace d, counted from the outermost.
pub fn namespace(s: &[u8], names: &[u32], items: &[u32], v: ItemView, d: u32) -> u32
    requires { Whole s.now names.now items.now × ItemAt s.now names.now items.now v × (d < v.depth) }
    ensures { (result < length names.now) × (name_at s.now (get_or names.now result 0) ≡
        get_or
        (item_at (items_at s.now names.now items.now) v.number).namespace d []) }
{
    let w = width(names.len() as u32);
    let at = v.spaces.at + d * w;
    extract(s, at, w)
}

pub fn is_function(kind: ItemKind) -> bool
    ensures { result ≡ is_function_kind kind }
{
    matches!(kind, ItemKind::RustFunction)
}

// The pointer bit of item i.
pub fn pointer_bit(s: &[u8], names: &[u32], items: &[u32], i: u32) -> bool
    requires { Whole s.now names.now items.now × (i < length items.now) }
    ensures { result ≡ pointer_bit
        (item_at (items_at s.now names.now items.now) i).body }
{
    let v = item(s, names, items, i);
    !is_function(v.kind) && extract(s, v.body.at, 1) == 1
}

// ---- functions

// A function's form, with the number of its self type's item where it has one.
#[derive(Clone, Copy)]
pub enum FormView {
    Free,
    ConstMethod(u32),
    MutMethod(u32),
    Associated(u32),
}

impl FormView {
    // The form of this number, whose self type, where it has one, is this item.
    fn new(k: u32, i: u32) -> FormView
        ensures { result ≡ form_view k i }
    {
        match k {
            0 => FormView::Free,
            1 => FormView::ConstMethod(i),
            2 => FormView::MutMethod(i),
            _ => FormView::Associated(i),
        }
    }

    // Of a method or an associated function the number of its self type's item.
    pub fn self_type(self) -> Option<u32>
        ensures { result ≡ self_number self }
    {
        match self {
            FormView::Free => None,
            FormView::ConstMethod(i) => Some(i),
            FormView::MutMethod(i) => Some(i),
            FormView::Associated(i) => Some(i),
        }
    }
}

// A form, and the position behind it.
#[derive(Clone, Copy)]
struct FoundForm {
    form: FormView,
    next: Cursor,
}

// The form at c, which is known to be there.
fn form_at(s: &[u8], c: Cursor, items: u32) -> FoundForm
    requires { Limited s.now × Yields (form items s.now c.at) (value_or free (form items s.now c.at)) }
    ensures { Formed (form items s.now c.at) items result.form result.next }
{
    let k = extract(s, c.at, 2);
    let at = c.at + 2;
    if k == 0 {
        return FoundForm {
            form: FormView::Free,
            next: Cursor::new(at),
        };
    }
    let w = width(items);
    let i = extract(s, at, w);
    FoundForm {
        form: FormView::new(k, i),
        next: Cursor::new(at + w),
    }
}

// Past the outermost type at c, in a sheet of so many items.
pub fn past_type(s: &[u8], c: Cursor, items: u32) -> Cursor
    requires { Limited s.now }
    ensures { result.at ≡ next_of (type_of items s.now c.at) }
{
    let mut none = [0u8; 1];
    match check_type(s, c, items, &mut none[..0]) {
        Ok(next) => next,
        Err(_) => Cursor::new(0),
    }
}

// The bits of a kind, by its number, before its inner type; 0 where it has none, or more stands behind that.
pub fn prefix_of(k: u32) -> u32
    ensures { result ≡ prefix_of (kind_of k) }
{
    match k {
        2 => 4,
        3 => 4,
        4 => 4,
        5 => 4,
        6 => 4,
        7 => 5,
        8 => 5,
        10 => 4,
        13 => 5,
        _ => 0,
    }
}

// Past the outermost type at c, which is known to be there.
pub fn skip_type(s: &[u8], c: Cursor, items: u32) -> Cursor
    requires { Limited s.now × Yields (type_of items s.now c.at) (type_here items s.now c.at) }
    ensures { result.at ≡ next_of (type_of items s.now c.at) }
{
    let mut at = c.at;
    let mut k = extract(s, at, 4);
    let mut p = prefix_of(k);
    // Down the prefixes, no count.
    while 0 < p {
        at = at + p;
        k = extract(s, at, 4);
        p = prefix_of(k);
    }
    if k == 0 {
        return Cursor::new(at + 8);
    }
    if k == 1 {
        return Cursor::new(at + 4 + width(items));
    }
    if k == 9 {
        return Cursor::new(at + 4);
    }
    past_type(s, c, items)
}

// Past the type at c, where the return bit before it says that there is one.
fn past_return(s: &[u8], c: Cursor, returns: bool, items: u32) -> Cursor
    requires { Limited s.now ×
        Yields (return_of returns (type_of items) s.now c.at) (return_here returns items s.now c.at) }
    ensures { result.at ≡ next_of (return_of returns (type_of items) s.now c.at) }
{
    if returns {
        return skip_type(s, c, items);
    }
    c
}

// A function by its item's number: the index of its Rust name, its form, its two bits, where the type that it returns
// stands, and where the first of its arguments does.
#[derive(Clone, Copy)]
pub struct FunctionView {
    pub number: u32,
    pub rust: u32,
    pub form: FormView,
    pub throws: bool,
    pub returns: bool,
    pub result: Cursor,
    pub arguments: u32,
    pub first: Cursor,
}

impl FunctionView {
    // The most arguments of a function.
    pub const ARGUMENTS: usize = 31;
}

pub fn function(s: &[u8], names: &[u32], items: &[u32], v: ItemView) -> FunctionView
    requires { Whole s.now names.now items.now × ItemAt s.now names.now items.now v ×
        (v.kind ≡ RustFunction) }
    ensures { (result.number ≡ v.number) ×
        FunctionAt s.now names.now items.now result }
{
    let n = items.len() as u32;
    let w = width(names.len() as u32);
    let rust = extract(s, v.body.at, w);
    let form = form_at(s, Cursor::new(v.body.at + w), n);
    let both = extract(s, form.next.at, 2);
    let throws = both / 2 == 1;
    let returns = both % 2 == 1;
    let result = Cursor::new(form.next.at + 2);
    let end = past_return(s, result, returns, n);
    let arguments = extract(s, end.at, 5);
    let first = Cursor::new(end.at + 5);
    FunctionView {
        number: v.number,
        rust,
        form: form.form,
        throws,
        returns,
        result,
        arguments,
        first,
    }
}

// An argument: the index of its name, where its type stands, whether that is a RustBox (1), a UniquePtr (2) or
// another (0), whether it needs an indirect ABI, and whether it is RustString.
#[derive(Clone, Copy)]
pub struct ArgumentView {
    pub name: u32,
    pub of: Cursor,
    pub owner: u32,
    pub indirect: bool,
    pub string: bool,
}

// What an argument's view says of a kind, by its number.
fn owner_of(k: u32) -> u32
    ensures { result ≡ owner_of (kind_of k) }
{
    match k {
        2 => 1,
        4 => 2,
        _ => 0,
    }
}

// An argument's view as one entry of a table (`unpacked` of specs/Views.antt).
fn pack(name: u32, of: Cursor, owner: u32, indirect: bool, string: bool) -> u32
    requires { (name ≤ most_names) × (of.at < most_bits) × (owner < 4) }
    ensures { unpacked result ≡
        record { name = name; of = of; owner = owner; indirect = indirect; string = string } }
{
    let low = u32::from(indirect);
    let high = u32::from(string);
    of.at * 16384 + name * 16 + owner * 4 + high * 2 + low
}

// The entry of an argument with this name, whose type stands at c.
pub fn argument_entry(s: &[u8], names: &[u32], items: &[u32], name: u32, c: Cursor) -> u32
    requires { Whole s.now names.now items.now × (name ≤ most_names) ×
        Yields (type_of (length items.now) s.now c.at) (type_here (length items.now) s.now c.at) }
    ensures { EntryOf s.now names.now items.now name c.at result }
{
    let k = extract(s, c.at, 4);
    if k == 0 {
        let a = extract(s, c.at + 4, 4);
        return pack(name, c, 0, 14 <= a, a == 15);
    }
    let indirect = is_indirect_other(s, names, items, c, k);
    pack(name, c, owner_of(k), indirect, false)
}

// Argument j of a table of entries.
pub fn argument(offsets: &[u32], j: u32) -> ArgumentView
    requires { j < length offsets.now }
    ensures { result ≡ unpacked (get_or offsets.now j 0) }
{
    let k = j as usize;
    let e = offsets[k];
    let of = Cursor::new(e / 16384);
    ArgumentView {
        name: e / 16 % 1024,
        of,
        owner: e / 4 % 4,
        indirect: e % 2 == 1,
        string: e / 2 % 2 == 1,
    }
}

// ---- types

// The kind of the outermost type at c.
pub fn type_kind(s: &[u8], items: &[u32], c: Cursor) -> TypeKind
    requires { Limited s.now ×
        Yields (type_of (length items.now) s.now c.at) (type_here (length items.now) s.now c.at) }
    ensures { result ≡ kind_of_type (type_here (length items.now) s.now c.at) }
{
    let k = field(s, c, 4);
    types::kind_of(k.value)
}

pub fn is_named(kind: TypeKind) -> bool
    ensures { result ≡ is_named_kind kind }
{
    matches!(kind, TypeKind::Named)
}

fn is_indirect_kind(kind: TypeKind) -> bool
    ensures { result ≡ is_indirect_kind kind }
{
    match kind {
        TypeKind::Array => true,
        TypeKind::Template(k) => is_indirect_template(k),
        _ => false,
    }
}

// Whether the type at c, which is no atom and whose kind has the number k, needs an indirect ABI.
fn is_indirect_other(s: &[u8], names: &[u32], items: &[u32], c: Cursor, k: u32) -> bool
    requires { Whole s.now names.now items.now ×
        Yields (type_of (length items.now) s.now c.at) (type_here (length items.now) s.now c.at) ×
        (k ≡ bits_at s.now c.at 4) × (k ≡ 0 → ⊥) }
    ensures { result ≡ needs_indirect_abi (items_at s.now names.now items.now)
        (type_here (length items.now) s.now c.at) }
{
    if k == 1 {
        let i = extract(s, c.at + 4, width(items.len() as u32));
        return pointer_bit(s, names, items, i);
    }
    is_indirect_kind(types::kind_of(k))
}

// Whether the type at c needs an indirect ABI.
pub fn needs_indirect_abi(s: &[u8], names: &[u32], items: &[u32], c: Cursor) -> bool
    requires { Whole s.now names.now items.now ×
        Yields (type_of (length items.now) s.now c.at) (type_here (length items.now) s.now c.at) }
    ensures { result ≡ needs_indirect_abi (items_at s.now names.now items.now)
        (type_here (length items.now) s.now c.at) }
{
    let k = extract(s, c.at, 4);
    if k == 0 {
        let a = extract(s, c.at + 4, 4);
        return 14 <= a;
    }
    is_indirect_other(s, names, items, c, k)
}
