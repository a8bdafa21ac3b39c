// Texts of types: atoms, what opens a template, what stands around a pointer, and the space behind a type.
#![tactic(auto)]

ghost use Rattle.std.specs.Prelude.{◌≡◌};
ghost use Rattle.sink.specs.Sink.{sink, Wrote};
ghost use Rattle.format.specs.Decoding.{atom_of};
ghost use Rattle.bridge.specs.WriteType.{write_atom, template_name, pointer_begin, pointer_end, is_slice};
ghost use Rattle.write_atom.specs.Texts.{is_spaced, space_of_kind};

use format::{Pointer, Template, TypeKind};
use sink::{put_byte, put_bytes, put_unless, put_when};

// ---- atoms and templates

// Atom n of `Atom`'s order; past the last stands the first.
pub fn write_atom(n: u32, out: &mut [u8], at: usize) -> usize
    ensures { Wrote (sink out.old at) (write_atom (atom_of n)) (sink out.new result) }
{
    match n {
        1 => put_bytes(out, at, b"char"),
        2 => put_bytes(out, at, b"::std::uint8_t"),
        3 => put_bytes(out, at, b"::std::uint16_t"),
        4 => put_bytes(out, at, b"::std::uint32_t"),
        5 => put_bytes(out, at, b"::std::uint64_t"),
        6 => put_bytes(out, at, b"::std::size_t"),
        7 => put_bytes(out, at, b"::std::int8_t"),
        8 => put_bytes(out, at, b"::std::int16_t"),
        9 => put_bytes(out, at, b"::std::int32_t"),
        10 => put_bytes(out, at, b"::std::int64_t"),
        11 => put_bytes(out, at, b"::rust::isize"),
        12 => put_bytes(out, at, b"float"),
        13 => put_bytes(out, at, b"double"),
        14 => put_bytes(out, at, b"::std::string"),
        15 => put_bytes(out, at, b"::rust::String"),
        _ => put_bytes(out, at, b"bool"),
    }
}

// What opens a template.
pub fn put_template(k: Template, out: &mut [u8], at: usize) -> usize
    ensures { Wrote (sink out.old at) (template_name k) (sink out.new result) }
{
    match k {
        Template::RustBox => put_bytes(out, at, b"::rust::Box<"),
        Template::RustVec => put_bytes(out, at, b"::rust::Vec<"),
        Template::UniquePtr => put_bytes(out, at, b"::std::unique_ptr<"),
        Template::SharedPtr => put_bytes(out, at, b"::std::shared_ptr<"),
        Template::WeakPtr => put_bytes(out, at, b"::std::weak_ptr<"),
        Template::CxxVector => put_bytes(out, at, b"::std::vector<"),
    }
}

// ---- pointers

fn is_slice(k: Pointer) -> bool
    ensures { result ≡ is_slice k }
{
    matches!(k, Pointer::SliceRef)
}

// What stands before the inner type of a pointer.
pub fn put_pointer_begin(k: Pointer, out: &mut [u8], at: usize) -> usize
    ensures { Wrote (sink out.old at) (pointer_begin k) (sink out.new result) }
{
    let slice = is_slice(k);
    put_when(out, at, slice, b"::rust::Slice<")
}

// What stands behind the inner type of a pointer.
pub fn put_pointer_end(k: Pointer, mutable: bool, out: &mut [u8], at: usize) -> usize
    ensures { Wrote (sink out.old at) (pointer_end k mutable) (sink out.new result) }
{
    match k {
        Pointer::Ref => {
            let sign = put_unless(out, at, mutable, b"const ");
            put_byte(out, sign, b'&')
        }
        Pointer::Ptr => {
            let sign = put_unless(out, at, mutable, b"const ");
            put_byte(out, sign, b'*')
        }
        Pointer::SliceRef => {
            let sign = put_unless(out, at, mutable, b"const");
            put_byte(out, sign, b'>')
        }
    }
}

// ---- the space behind a type

fn is_spaced(kind: TypeKind) -> bool
    ensures { result ≡ is_spaced kind }
{
    match kind {
        TypeKind::Pointer(k) => is_slice(k),
        _ => true,
    }
}

pub fn write_space_after_type(kind: TypeKind, out: &mut [u8], at: usize) -> usize
    ensures { Wrote (sink out.old at) (space_of_kind kind) (sink out.new result) }
{
    let spaced = is_spaced(kind);
    put_when(out, at, spaced, b" ")
}
