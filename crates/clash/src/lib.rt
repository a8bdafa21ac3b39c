// Rule 10 of document 01's table for pairs of items: two types with the same full name, two functions with the same
// symbol. Each is told by the names that it is made of.
#![tactic(auto)]

ghost use Rattle.std.specs.Prelude.{◌≡◌, true, ◌||◌, ◌+◌, ◌<◌, ◌≤◌, length, get_or, drop};
ghost use Rattle.lexical.specs.Bytes.{same};
ghost use Rattle.syntax.specs.Items.{full_name};
ghost use Rattle.rules.specs.Rules.{any, twice, gather, type_name, symbol};
ghost use Rattle.view.specs.Values.{name_at, items_at, function_at, Whole, item_no, Ready};
ghost use Rattle.view.specs.Views.{is_function_kind, ItemAt, FunctionAt};
ghost use Rattle.clash.specs.Clashes.{same_names, owner_names, item_symbol, clashes, own_name, Keyed};

use cursor::fields::field;
use cursor::width;
use format::Outline;
use marks::repeats;
use names::same_name;
use view::{FunctionView, ItemView, function, is_function, item, namespace};

// ---- two items

// Whether two items stand in the same namespaces.
fn same_namespace(
    s: &[u8],
    names: &[u32],
    items: &[u32],
    digests: &[u32],
    v: ItemView,
    w: ItemView,
) -> bool
    requires { Ready s.now names.now items.now digests.now × ItemAt s.now names.now items.now v ×
        ItemAt s.now names.now items.now w }
    ensures { result ≡ same_names
        (item_no s.now names.now items.now v.number).namespace
        (item_no s.now names.now items.now w.number).namespace }
{
    if v.depth != w.depth {
        return false;
    }
    for d in 0..v.depth {
        let a = namespace(s, names, items, v, d);
        let b = namespace(s, names, items, w, d);
        if !same_name(s, names, digests, a, b) {
            return false;
        }
    }
    true
}

// Whether two items have the same full name.
fn same_full_name(
    s: &[u8],
    names: &[u32],
    items: &[u32],
    digests: &[u32],
    v: ItemView,
    w: ItemView,
) -> bool
    requires { Ready s.now names.now items.now digests.now × ItemAt s.now names.now items.now v ×
        ItemAt s.now names.now items.now w }
    ensures { result ≡ same (full_name (item_no s.now names.now items.now v.number))
        (full_name (item_no s.now names.now items.now w.number)) }
{
    same_namespace(s, names, items, digests, v, w) && same_name(s, names, digests, v.name, w.name)
}

// Whether two functions have self types of the same C++ name, or none.
fn same_owner(
    s: &[u8],
    names: &[u32],
    items: &[u32],
    digests: &[u32],
    f: FunctionView,
    g: FunctionView,
) -> bool
    requires { Ready s.now names.now items.now digests.now × FunctionAt s.now names.now items.now f ×
        FunctionAt s.now names.now items.now g }
    ensures { result ≡ same_names
        (owner_names (items_at s.now names.now items.now)
        (function_at s.now names.now items.now f.number).form)
        (owner_names (items_at s.now names.now items.now)
        (function_at s.now names.now items.now g.number).form) }
{
    match f.form.self_type() {
        None => g.form.self_type().is_none(),
        Some(i) => match g.form.self_type() {
            None => false,
            Some(j) => {
                let v = item(s, names, items, i);
                let w = item(s, names, items, j);
                same_name(s, names, digests, v.name, w.name)
            }
        },
    }
}

// Whether two functions have the same symbol.
fn same_symbol(
    s: &[u8],
    names: &[u32],
    items: &[u32],
    digests: &[u32],
    v: ItemView,
    w: ItemView,
) -> bool
    requires { Ready s.now names.now items.now digests.now × ItemAt s.now names.now items.now v ×
        ItemAt s.now names.now items.now w × (is_function_kind v.kind ≡ true) ×
        (is_function_kind w.kind ≡ true) }
    ensures { result ≡ same
        (item_symbol (items_at s.now names.now items.now)
        (item_no s.now names.now items.now v.number))
        (item_symbol (items_at s.now names.now items.now)
        (item_no s.now names.now items.now w.number)) }
{
    if !same_namespace(s, names, items, digests, v, w) {
        return false;
    }
    let f = function(s, names, items, v);
    let g = function(s, names, items, w);
    same_name(s, names, digests, f.rust, g.rust) && same_owner(s, names, items, digests, f, g)
}

// Whether item j takes the name that v has; unequal keys tell them apart.
fn clash(
    s: &[u8],
    names: &[u32],
    items: &[u32],
    digests: &[u32],
    keys: &[u32],
    v: ItemView,
    j: u32,
) -> bool
    requires { Ready s.now names.now items.now digests.now ×
        Keyed s.now names.now items.now keys.now ×
        ItemAt s.now names.now items.now v × (j < length items.now) }
    ensures { result ≡ clashes (items_at s.now names.now items.now)
        (item_no s.now names.now items.now v.number)
        (item_no s.now names.now items.now j) }
{
    let i = v.number as usize;
    let k = j as usize;
    if keys[i] != keys[k] {
        return false;
    }
    let w = item(s, names, items, j);
    match (is_function(v.kind), is_function(w.kind)) {
        (true, true) => same_symbol(s, names, items, digests, v, w),
        (true, false) => false,
        (false, true) => false,
        (false, false) => same_full_name(s, names, items, digests, v, w),
    }
}

// ---- all items

// Whether an item behind v takes its name.
fn clash_behind(
    s: &[u8],
    names: &[u32],
    items: &[u32],
    digests: &[u32],
    keys: &[u32],
    v: ItemView,
) -> bool
    requires { Ready s.now names.now items.now digests.now ×
        Keyed s.now names.now items.now keys.now ×
        ItemAt s.now names.now items.now v }
    ensures { result ≡ any (clashes (items_at s.now names.now items.now)
        (item_no s.now names.now items.now v.number))
        (drop (v.number + 1) (items_at s.now names.now items.now)) }
{
    let n = items.len() as u32;
    for j in v.number + 1..n {
        if clash(s, names, items, digests, keys, v, j) {
            return true;
        }
    }
    false
}

// Whether two items take the same name.
fn clashing(s: &[u8], names: &[u32], items: &[u32], digests: &[u32], keys: &[u32]) -> bool
    requires { Ready s.now names.now items.now digests.now ×
        Keyed s.now names.now items.now keys.now }
    ensures { result ≡ twice (clashes (items_at s.now names.now items.now))
        (items_at s.now names.now items.now) }
{
    let n = items.len() as u32;
    for i in 0..n {
        let v = item(s, names, items, i);
        if clash_behind(s, names, items, digests, keys, v) {
            return true;
        }
    }
    false
}

// ---- keys

// The index of an item's own name: a function's Rust name, or a type's C++ name.
fn own_name(s: &[u8], names: &[u32], items: &[u32], i: u32) -> u32
    requires { Whole s.now names.now items.now × (i < length items.now) }
    ensures { (result < length names.now) × (name_at s.now (get_or names.now result 0) ≡
        own_name (item_no s.now names.now items.now i)) }
{
    let v = item(s, names, items, i);
    if is_function(v.kind) {
        let rust = field(s, v.body, width(names.len() as u32));
        return rust.value;
    }
    v.name
}

// The digest of each item's own name, into the front of keys.
fn fill_keys(s: &[u8], names: &[u32], items: &[u32], digests: &[u32], keys: &mut [u32])
    requires { Ready s.now names.now items.now digests.now × (length items.now ≤ length keys.old) }
    ensures { Keyed s.now names.now items.now keys.new }
{
    for i in 0..items.len() {
        let name = own_name(s, names, items, i as u32);
        keys[i] = digests[name as usize];
    }
}

// Whether two types have the same full name, or two functions the same symbol. No pair is looked at where no key
// repeats.
pub fn name_clash(s: &[u8], names: &[u32], items: &[u32], digests: &[u32]) -> bool
    requires { Ready s.now names.now items.now digests.now }
    ensures { result ≡
        (twice same (gather type_name (items_at s.now names.now items.now)) ||
        twice same (gather (symbol (items_at s.now names.now items.now))
        (items_at s.now names.now items.now))) }
{
    let n = items.len();
    let mut keys = [0u32; Outline::ITEMS];
    fill_keys(s, names, items, digests, &mut keys);
    repeats(&keys[..n]) && clashing(s, names, items, digests, &keys)
}
