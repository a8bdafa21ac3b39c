// nested.rs: the items of a namespace's level, without a list of them. A group is named by one of its items, the
// leader, and a depth: its members need a forward declaration and lie in the leader's first so many namespaces.
#![tactic(auto)]

ghost use Rattle.std.specs.Prelude.{◌≡◌, ◌<◌, ◌≤◌, length};
ghost use Rattle.format.specs.declared.ItemKind.TheVariants.{Enum};
ghost use Rattle.bridge.specs.Write.{needs_forward_declaration};
ghost use Rattle.view.specs.Values.{items_at, item_no, Whole};
ghost use Rattle.names.specs.Digests.{digests_at};
ghost use Rattle.view.specs.Views.{ItemAt};
ghost use Rattle.nested.specs.Groups.{EnumOf, shared, belongs, is_direct, is_first, Next};
ghost use Rattle.nested.specs.Groups.{opens as opens_of};

use cursor::fields::field;
use format::ItemKind;
use names::same_name;
use view::{ItemView, depth_at, item, kind_at, namespace};

// ---- items that need a forward declaration

// An enum: the number of its atom, and whether C++ owns it.
#[derive(Clone, Copy)]
pub struct EnumView {
    pub atom: u32,
    pub owned: bool,
}

pub fn enum_of(s: &[u8], names: &[u32], items: &[u32], v: ItemView) -> EnumView
    requires { Whole s.now names.now items.now × ItemAt s.now names.now items.now v ×
        (v.kind ≡ Enum) }
    ensures { EnumOf
        (item_no s.now names.now items.now v.number).body result }
{
    let pointer = field(s, v.body, 1);
    let atom = field(s, pointer.next, 4);
    let owned = field(s, atom.next, 1);
    EnumView {
        atom: atom.value,
        owned: owned.value == 1,
    }
}

// Whether item i needs a forward declaration; an enum that C++ owns does not.
pub fn needs_forward_declaration(s: &[u8], names: &[u32], items: &[u32], i: u32) -> bool
    requires { Whole s.now names.now items.now × (i < length items.now) }
    ensures { result ≡ needs_forward_declaration
        (item_no s.now names.now items.now i).body }
{
    match kind_at(s, names, items, i) {
        ItemKind::Struct | ItemKind::CxxType | ItemKind::RustType => true,
        ItemKind::Enum => {
            let v = item(s, names, items, i);
            let e = enum_of(s, names, items, v);
            !e.owned
        }
        ItemKind::RustFunction | ItemKind::Bad => false,
    }
}

// ---- shared namespaces

// Whether two items share so many namespaces.
fn shares(
    s: &[u8],
    names: &[u32],
    items: &[u32],
    digests: &[u32],
    v: ItemView,
    w: ItemView,
    depth: u32,
) -> bool
    requires { Whole s.now names.now items.now × (digests.now ≡ digests_at s.now names.now) ×
        ItemAt s.now names.now items.now v × ItemAt s.now names.now items.now w }
    ensures { result ≡ shared depth
        (item_no s.now names.now items.now v.number).namespace
        (item_no s.now names.now items.now w.number).namespace }
{
    if v.depth < depth || w.depth < depth {
        return false;
    }
    for d in 0..depth {
        let a = namespace(s, names, items, v, d);
        let b = namespace(s, names, items, w, d);
        if !same_name(s, names, digests, a, b) {
            return false;
        }
    }
    true
}

// ---- groups

// Whether item i is a member of the leader's group.
fn is_member(
    s: &[u8],
    names: &[u32],
    items: &[u32],
    digests: &[u32],
    leader: ItemView,
    depth: u32,
    i: u32,
) -> bool
    requires { Whole s.now names.now items.now × (digests.now ≡ digests_at s.now names.now) ×
        ItemAt s.now names.now items.now leader × (i < length items.now) }
    ensures { result ≡ belongs
        (item_no s.now names.now items.now leader.number) depth
        (item_no s.now names.now items.now i) }
{
    if !needs_forward_declaration(s, names, items, i) {
        return false;
    }
    let v = item(s, names, items, i);
    shares(s, names, items, digests, leader, v, depth)
}

// Whether item i is one of the group's own entries.
pub fn is_direct(
    s: &[u8],
    names: &[u32],
    items: &[u32],
    digests: &[u32],
    leader: ItemView,
    depth: u32,
    i: u32,
) -> bool
    requires { Whole s.now names.now items.now × (digests.now ≡ digests_at s.now names.now) ×
        ItemAt s.now names.now items.now leader × (i < length items.now) }
    ensures { result ≡ is_direct
        (item_no s.now names.now items.now leader.number) depth
        (item_no s.now names.now items.now i) }
{
    if depth_at(s, names, items, i) != depth {
        return false;
    }
    if !needs_forward_declaration(s, names, items, i) {
        return false;
    }
    let v = item(s, names, items, i);
    shares(s, names, items, digests, leader, v, depth)
}

// Whether no item before v is in its group.
fn is_first(
    s: &[u8],
    names: &[u32],
    items: &[u32],
    digests: &[u32],
    v: ItemView,
    depth: u32,
) -> bool
    requires { Whole s.now names.now items.now × (digests.now ≡ digests_at s.now names.now) ×
        ItemAt s.now names.now items.now v }
    ensures { result ≡ is_first (items_at s.now names.now items.now) depth
        v.number }
{
    for k in 0..v.number {
        if is_member(s, names, items, digests, v, depth, k) {
            return false;
        }
    }
    true
}

// Whether item i is a member, and the first of an inner namespace.
fn opens(
    s: &[u8],
    names: &[u32],
    items: &[u32],
    digests: &[u32],
    leader: ItemView,
    depth: u32,
    i: u32,
) -> bool
    requires { Whole s.now names.now items.now × (digests.now ≡ digests_at s.now names.now) ×
        ItemAt s.now names.now items.now leader × (i < length items.now) }
    ensures { result ≡ opens_of (items_at s.now names.now items.now)
        (item_no s.now names.now items.now leader.number) depth i }
{
    if depth_at(s, names, items, i) <= depth {
        return false;
    }
    if !needs_forward_declaration(s, names, items, i) {
        return false;
    }
    let v = item(s, names, items, i);
    shares(s, names, items, digests, leader, v, depth)
        && is_first(s, names, items, digests, v, depth + 1)
}

// The first item from one on that opens an inner namespace of the group, or the number of all items.
pub fn next_namespace(
    s: &[u8],
    names: &[u32],
    items: &[u32],
    digests: &[u32],
    leader: ItemView,
    depth: u32,
    from: u32,
) -> u32
    requires { Whole s.now names.now items.now × (digests.now ≡ digests_at s.now names.now) ×
        ItemAt s.now names.now items.now leader × (from ≤ length items.now) }
    ensures { Next (items_at s.now names.now items.now)
        (item_no s.now names.now items.now leader.number) depth from result }
{
    let n = items.len() as u32;
    for i in from..n {
        if opens(s, names, items, digests, leader, depth, i) {
            return i;
        }
    }
    n
}
