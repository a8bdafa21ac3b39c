// Rules 9 to 11 of document 01's table, as far as the marks of a decoded sheet decide them.
#![tactic(auto)]

ghost use Rattle.std.specs.Prelude.{◌≡◌, ◌<◌, length};
ghost use Rattle.lexical.specs.Bytes.{same};
ghost use Rattle.rules.specs.Rules.{any, twice, functions, wrong_part, argument_names, unfit_argument};
ghost use Rattle.view.specs.Values.{items_at, Whole};
ghost use Rattle.judge.specs.Marked.{Marked, named_function, indirect_error};

use marks::Mark;
use view::{is_function, kind_at, pointer_bit};

// ---- 9: an item index names a function

// Whether item i is a function, and an item index names it.
fn named_function(
    s: &[u8],
    names: &[u32],
    items: &[u32],
    marks: &[u8; Mark::PLACES],
    i: u32,
) -> bool
    requires { Whole s.now names.now items.now × (i < length items.now) }
    ensures { result ≡
        named_function s.now names.now items.now marks.now i }
{
    let k = Mark::NAMED + i as usize;
    marks[k] == 1 && is_function(kind_at(s, names, items, i))
}

// Rule 9.
pub fn wrong_part(s: &[u8], names: &[u32], items: &[u32], marks: &[u8; Mark::PLACES]) -> bool
    requires { Whole s.now names.now items.now × Marked s.now names.now items.now marks.now }
    ensures { result ≡ wrong_part (items_at s.now names.now items.now) }
{
    let n = items.len() as u32;
    for i in 0..n {
        if named_function(s, names, items, marks, i) {
            return true;
        }
    }
    false
}

// ---- 10: two arguments of a function have the same name

pub fn repeated_name(s: &[u8], names: &[u32], items: &[u32], marks: &[u8; Mark::PLACES]) -> bool
    requires { Whole s.now names.now items.now × Marked s.now names.now items.now marks.now }
    ensures { result ≡ any (λ f. twice same (argument_names f))
        (functions (items_at s.now names.now items.now)) }
{
    marks[Mark::REPEATED] == 1
}

// ---- 11: unfit argument

// Whether item i is indirect, and types an argument `error` of a throwing function.
fn indirect_error(
    s: &[u8],
    names: &[u32],
    items: &[u32],
    marks: &[u8; Mark::PLACES],
    i: u32,
) -> bool
    requires { Whole s.now names.now items.now × (i < length items.now) }
    ensures { result ≡
        indirect_error s.now names.now items.now marks.now i }
{
    let k = Mark::ERRORS + i as usize;
    marks[k] == 1 && pointer_bit(s, names, items, i)
}

// Rule 11.
pub fn unfit_argument(s: &[u8], names: &[u32], items: &[u32], marks: &[u8; Mark::PLACES]) -> bool
    requires { Whole s.now names.now items.now × Marked s.now names.now items.now marks.now }
    ensures { result ≡ unfit_argument (items_at s.now names.now items.now) }
{
    if marks[Mark::UNFIT] == 1 {
        return true;
    }
    let n = items.len() as u32;
    for i in 0..n {
        if indirect_error(s, names, items, marks, i) {
            return true;
        }
    }
    false
}
