// Rule 10 of document 01's table, on a decoded sheet: what is taken.
#![tactic(auto)]

ghost use Rattle.std.specs.Prelude.{◌≡◌, ◌<◌, length};
ghost use Rattle.rules.specs.Rules.{any, reserved_namespace, taken as taken_of};
ghost use Rattle.view.specs.Values.{items_at, item_no, Ready};
ghost use Rattle.judge.specs.Marked.{Marked};

use clash::name_clash;
use judge::repeated_name;
use marks::Mark;
use names::name_is;
use view::{item, namespace};

// ---- reserved namespaces

// Whether an item's first namespace is `std` or `rust`.
fn reserved_at(s: &[u8], names: &[u32], items: &[u32], digests: &[u32], i: u32) -> bool
    requires { Ready s.now names.now items.now digests.now × (i < length items.now) }
    ensures { result ≡
        reserved_namespace (item_no s.now names.now items.now i).namespace }
{
    let v = item(s, names, items, i);
    if v.depth == 0 {
        return false;
    }
    let first = namespace(s, names, items, v, 0);
    name_is(s, names, digests, first, b"std") || name_is(s, names, digests, first, b"rust")
}

// Whether some item's first namespace is.
fn any_reserved(s: &[u8], names: &[u32], items: &[u32], digests: &[u32]) -> bool
    requires { Ready s.now names.now items.now digests.now }
    ensures { result ≡ any (λ x. reserved_namespace x.namespace)
        (items_at s.now names.now items.now) }
{
    let n = items.len() as u32;
    for i in 0..n {
        if reserved_at(s, names, items, digests, i) {
            return true;
        }
    }
    false
}

// ---- the rule

// Whether rule 10 refuses the sheet.
pub fn taken(
    s: &[u8],
    names: &[u32],
    items: &[u32],
    digests: &[u32],
    marks: &[u8; Mark::PLACES],
) -> bool
    requires { Ready s.now names.now items.now digests.now ×
        Marked s.now names.now items.now marks.now }
    ensures { result ≡ taken_of (items_at s.now names.now items.now) }
{
    any_reserved(s, names, items, digests)
        || name_clash(s, names, items, digests)
        || repeated_name(s, names, items, marks)
}
