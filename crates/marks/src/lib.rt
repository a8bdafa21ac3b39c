// The table of marks that a walk over a sheet leaves behind: a 1 where something was met. What each place says is in
// specs/Marking.antt. And keys: names that are equal have equal keys.
#![tactic(auto)]

ghost use Rattle.std.specs.Prelude.{◌≡◌, ◌&&◌, ◌<◌, length, eqb};
ghost use Rattle.rules.specs.Rules.{any, twice};
ghost use Rattle.marks.specs.Keys.{count_of};
ghost use Rattle.marks.specs.Marking.{mark};

#[derive(Clone, Copy)]
pub struct Mark {
    pub place: usize,
}

impl Mark {
    // An argument is unfit, whatever the items are.
    pub const UNFIT: usize = 0;
    // Two arguments of a function have the same name.
    pub const REPEATED: usize = 1;
    // Behind this the items that type an argument `error` of a throwing function.
    pub const ERRORS: usize = 2;
    // Behind this the items that an item index names.
    pub const NAMED: usize = 258;
    // The places of the table.
    pub const PLACES: usize = 514;
}

// Marks a place, if the table has it.
pub fn set_mark(marks: &mut [u8], place: usize)
    ensures { marks.new ≡ mark place marks.old }
{
    if place < marks.len() {
        marks[place] = 1;
    }
}

// ---- keys

// How many of the keys are k. No early exit: so it is compiled to vector code.
fn count_equal(keys: &[u32], k: u32) -> u32
    requires { length keys.now < 4294967296 }
    ensures { result ≡ count_of k keys.now }
{
    let mut n: u32 = 0;
    for x in keys {
        n = n + u32::from(k == *x);
    }
    n
}

// Whether k is one of the keys in front of it; with another mark than 1 it is not asked.
fn seen_before(front: &[u32], k: u32, mark: u8) -> bool
    requires { length front.now < 4294967296 }
    ensures { result ≡ (eqb mark 1 && any (eqb k) front.now) }
{
    mark == 1 && count_equal(front, k) != 0
}

// Whether two of the keys are equal. Each key leaves a 1 at its last byte: a key whose place has none is new.
fn repeats_in(keys: &[u32], seen: &mut [u8; 256]) -> bool
    requires { (length keys.now < 4294967296) × (length seen.old ≡ 256) }
    ensures { result ≡ twice eqb keys.now }
{
    for (i, k) in keys.iter().enumerate() {
        let p = (*k % 256) as usize;
        if seen_before(&keys[..i], *k, seen[p]) {
            return true;
        }
        seen[p] = 1;
    }
    false
}

// Whether two of the keys are equal.
pub fn repeats(keys: &[u32]) -> bool
    requires { length keys.now < 4294967296 }
    ensures { result ≡ twice eqb keys.now }
{
    let mut seen = [0u8; 256];
    repeats_in(keys, &mut seen)
}
