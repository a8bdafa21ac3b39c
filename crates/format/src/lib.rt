// The words of the sheet's format: what each number of a kind stands for, and how many there may be (document 01,
// "The sheet"). The definitions of specs/ and the code that reads sheets share them.

// syntax/atom.rs, in its order.
#![tactic(auto)]

#[derive(Clone, Copy)]
pub enum Atom {
    Bool,
    Char,
    U8,
    U16,
    U32,
    U64,
    Usize,
    I8,
    I16,
    I32,
    I64,
    Isize,
    F32,
    F64,
    CxxString,
    RustString,
}

// The types of syntax/mod.rs that are spelled as a template of one type.
#[derive(Clone, Copy)]
pub enum Template {
    RustBox,
    RustVec,
    UniquePtr,
    SharedPtr,
    WeakPtr,
    CxxVector,
}

// The types that have a mutable bit before the inner type.
#[derive(Clone, Copy)]
pub enum Pointer {
    Ref,
    Ptr,
    SliceRef,
}

// What a type's 4-bit kind says; Bad is refused.
#[derive(Clone, Copy)]
pub enum TypeKind {
    Atom,
    Named,
    Template(Template),
    Pointer(Pointer),
    Str,
    Fn,
    Array,
    Bad,
}

// What an item's 3-bit kind says; Bad is refused.
#[derive(Clone, Copy)]
pub enum ItemKind {
    Struct,
    Enum,
    CxxType,
    RustType,
    RustFunction,
    Bad,
}

impl TypeKind {
    // The most types that a Fn takes.
    pub const SLOTS: usize = 15;
}

impl ItemKind {
    // The most namespaces around an item.
    pub const NAMESPACES: usize = 7;
    // The most fields of a struct.
    pub const FIELDS: usize = 63;
}

// What a decoded sheet begins with, and how much it has.
#[derive(Clone, Copy)]
pub struct Outline {
    pub header: bool,
    pub doxygen: bool,
    pub names: u32,
    pub items: u32,
}

impl Outline {
    // The newest edition of a sheet; the oldest is 1.
    pub const LAST_EDITION: u32 = 2;
    // The most names of a sheet.
    pub const NAMES: usize = 1023;
    // The most items of a sheet.
    pub const ITEMS: usize = 255;
}
