// The types that a call treats in a way of their own, and what a declaration and a shim write alike.
#![tactic(auto)]

ghost use Rattle.std.specs.Prelude.{◌≡◌, ◌||◌, ltb, length};
ghost use Rattle.format.specs.Decoding.{type_at};
ghost use Rattle.rules.specs.Rules.{is_method};
ghost use Rattle.bridge.specs.WriteType.{write_type, write_type_space};
ghost use Rattle.bridge.specs.Write.{indirect_return, write_pointer, shape as shape_of, slot_type};
ghost use Rattle.sink.specs.Sink.{sink, Wrote};
ghost use Rattle.cursor.specs.Checking.{Limited};
ghost use Rattle.view.specs.Views.{form_of};
ghost use Rattle.view.specs.Values.{Yields};
ghost use Rattle.write_type.specs.TypeAt.{ty_at};
ghost use Rattle.shape.specs.Shapes.{inner_levels, template_kind, pointer_kind, shape_kind, is_ref, ShapeOf};
ghost use Rattle.tables.specs.Tables.{items_in, items_of, function_of, Tabled, Function, Lent, type_of, Typed};

use count_type::count_type;
use cursor::Cursor;
use cursor::fields::field;
use format::{Pointer, Template, TypeKind};
use sink::{advance, put_bytes, put_unless};
use tables::{Pool, Table, needs_indirect_abi, put_part, type_word};
use types::{Levels, kind_of};
use view::{FormView, FunctionView};
use write_chain::write_chain;

// ---- shapes

#[derive(Clone, Copy)]
pub enum ShapeKind {
    RustBox,
    UniquePtr,
    Ref,
    Str,
    SliceRef,
    Other,
}

// A type's shape; where it has an inner type, whether that is mutable and where it stands.
#[derive(Clone, Copy)]
pub struct ShapeView {
    pub kind: ShapeKind,
    pub mutable: bool,
    pub inner: Cursor,
}

fn template_kind(k: Template) -> ShapeKind
    ensures { result ≡ template_kind k }
{
    match k {
        Template::RustBox => ShapeKind::RustBox,
        Template::UniquePtr => ShapeKind::UniquePtr,
        _ => ShapeKind::Other,
    }
}

fn pointer_kind(k: Pointer) -> ShapeKind
    ensures { result ≡ pointer_kind k }
{
    match k {
        Pointer::Ref => ShapeKind::Ref,
        Pointer::Ptr => ShapeKind::Other,
        Pointer::SliceRef => ShapeKind::SliceRef,
    }
}

fn shape_kind(kind: TypeKind) -> ShapeKind
    ensures { result ≡ shape_kind kind }
{
    match kind {
        TypeKind::Template(k) => template_kind(k),
        TypeKind::Pointer(k) => pointer_kind(k),
        TypeKind::Str => ShapeKind::Str,
        _ => ShapeKind::Other,
    }
}

// Whether a shape is a reference.
pub fn is_ref(kind: ShapeKind) -> bool
    ensures { result ≡ is_ref kind }
{
    matches!(kind, ShapeKind::Ref)
}

// The shape of the outermost type at c.
pub fn shape(s: &[u8], t: &[u32; Table::PLACES], c: Cursor) -> ShapeView
    requires { Limited s.now ×
        Typed s.now t.now c.at }
    ensures { ShapeOf (length (items_in t.now)) s.now
        (shape_of (type_of s.now t.now c.at)) result }
{
    let k = field(s, c, 4);
    let kind = shape_kind(kind_of(k.value));
    if is_ref(kind) {
        let m = field(s, k.next, 1);
        let mutable = m.value == 1;
        let inner = m.next;
        return ShapeView {
            kind,
            mutable,
            inner,
        };
    }
    let inner = k.next;
    ShapeView {
        kind,
        mutable: true,
        inner,
    }
}

// ---- types

// The outermost type at c. Where the buffer ends before the place, it is counted if that can be.
pub fn write_outermost(
    s: &[u8],
    t: &[u32; Table::PLACES],
    pool: &[u8; Pool::BYTES],
    c: Cursor,
    out: &mut [u8],
    at: usize,
) -> usize
    requires { Lent s.now t.now pool.now ×
        Typed s.now t.now c.at }
    ensures { Wrote (sink out.old at)
        (write_type (items_of s.now t.now)
        (type_of s.now t.now c.at)) (sink out.new result) }
{
    if out.len() < at {
        let n = count_type(s, t, pool, c, Levels::MOST, false);
        if 0 < n {
            return advance(at, n);
        }
    }
    write_chain(s, t, pool, c, Levels::MOST, false, out, at)
}

// The same of any type at c, with so many levels left, and with a space behind it where one belongs.
fn write_spaced(
    s: &[u8],
    t: &[u32; Table::PLACES],
    pool: &[u8; Pool::BYTES],
    c: Cursor,
    levels: u32,
    out: &mut [u8],
    at: usize,
) -> usize
    requires { Lent s.now t.now pool.now ×
        Yields (type_at (length (items_in t.now)) levels s.now c.at)
        (ty_at (length (items_in t.now)) levels s.now c.at) }
    ensures { Wrote (sink out.old at)
        (write_type_space (items_of s.now t.now)
        (ty_at (length (items_in t.now)) levels s.now c.at)) (sink out.new result) }
{
    if out.len() < at {
        let n = count_type(s, t, pool, c, levels, true);
        if 0 < n {
            return advance(at, n);
        }
    }
    write_chain(s, t, pool, c, levels, true, out, at)
}

// The same of the outermost type at c, which the pool may have.
pub fn write_outermost_space(
    s: &[u8],
    t: &[u32; Table::PLACES],
    pool: &[u8; Pool::BYTES],
    c: Cursor,
    out: &mut [u8],
    at: usize,
) -> usize
    requires { Lent s.now t.now pool.now ×
        Typed s.now t.now c.at }
    ensures { Wrote (sink out.old at)
        (write_type_space (items_of s.now t.now)
        (type_of s.now t.now c.at)) (sink out.new result) }
{
    let word = type_word(s, t, pool, c);
    if 0 < word {
        return put_part(pool, word / 1024, word % 1024, out, at);
    }
    write_spaced(s, t, pool, c, Levels::MOST, out, at)
}

// The pointer that stands for a reference to the type at inner.
pub fn write_pointer(
    s: &[u8],
    t: &[u32; Table::PLACES],
    pool: &[u8; Pool::BYTES],
    inner: Cursor,
    mutable: bool,
    out: &mut [u8],
    at: usize,
) -> usize
    requires { Lent s.now t.now pool.now ×
        Yields (type_at (length (items_in t.now)) inner_levels s.now inner.at)
        (ty_at (length (items_in t.now)) inner_levels s.now inner.at) }
    ensures { Wrote (sink out.old at)
        (write_pointer (items_of s.now t.now) mutable
        (ty_at (length (items_in t.now)) inner_levels s.now inner.at))
        (sink out.new result) }
{
    let end = write_spaced(s, t, pool, inner, Levels::MOST - 1, out, at);
    let behind = put_unless(out, end, mutable, b"const ");
    put_bytes(out, behind, b"*")
}

// What the return slot holds for the type at c.
pub fn write_slot_type(
    s: &[u8],
    t: &[u32; Table::PLACES],
    pool: &[u8; Pool::BYTES],
    c: Cursor,
    out: &mut [u8],
    at: usize,
) -> usize
    requires { Lent s.now t.now pool.now ×
        Typed s.now t.now c.at }
    ensures { Wrote (sink out.old at)
        (slot_type (items_of s.now t.now)
        (type_of s.now t.now c.at)
        (shape_of (type_of s.now t.now c.at))) (sink out.new result) }
{
    let v = shape(s, t, c);
    match v.kind {
        ShapeKind::Ref => write_pointer(s, t, pool, v.inner, v.mutable, out, at),
        _ => write_outermost(s, t, pool, c, out, at),
    }
}

// ---- functions

// Whether a function has a receiver.
pub fn is_method(f: FunctionView) -> bool
    ensures { result ≡ is_method (form_of f.form) }
{
    matches!(f.form, FormView::ConstMethod(_) | FormView::MutMethod(_))
}

// Whether a comma stands before what follows `count` parameters, which stand behind others or not.
pub fn needs_comma(others: bool, count: u32) -> bool
    ensures { result ≡ (others || ltb 0 count) }
{
    others || 0 < count
}

// Whether a function returns by a slot.
pub fn indirect_return(s: &[u8], t: &[u32; Table::PLACES], f: FunctionView) -> bool
    requires { Tabled s.now t.now × Function s.now t.now f }
    ensures { result ≡ indirect_return (items_of s.now t.now)
        (function_of s.now t.now f.number)
        (function_of s.now t.now f.number).return }
{
    if f.returns {
        if f.throws {
            return true;
        }
        return needs_indirect_abi(s, t, f.result);
    }
    false
}
