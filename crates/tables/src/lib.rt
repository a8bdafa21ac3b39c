// What every writer is lent beside the sheet: the positions of its names and items in one table, and their texts in a
// pool. A table of known length costs a writer one register.
#![tactic(auto)]

ghost use Rattle.std.specs.Prelude.{◌≡◌, [], ◌+◌, ◌/◌, ◌%◌, ◌≤◌, ◌<◌, length, get_or, drop, replicate};
ghost use Rattle.std.proofs.Math.Seq.{slice};
ghost use Rattle.lexical.specs.Bytes.{same};
ghost use Rattle.sink.specs.Sink.{sink, Wrote};
ghost use Rattle.format.specs.Limits.{most_names, most_items, most_arguments};
ghost use Rattle.format.specs.Decoding.{type};
ghost use Rattle.format.specs.declared.ItemKind.TheVariants.{RustFunction};
ghost use Rattle.syntax.specs.Items.{item_at};
ghost use Rattle.syntax.specs.Types.{needs_indirect_abi};
ghost use Rattle.bridge.specs.WriteType.{write_type_space};
ghost use Rattle.view.specs.Values.{name_at};
ghost use Rattle.view.specs.Views.{kind_of_type, EntryOf};
ghost use Rattle.tables.specs.Tables.{names_in, items_in, Listed, items_of, Tabled, Item};
ghost use Rattle.tables.specs.Tables.{Function, Arguments, behind_arguments, Part, Lent, Filled, type_of};
ghost use Rattle.tables.specs.Tables.{Typed, Known};

use cursor::fields::field;
use cursor::{Cursor, extract, width};
use format::{Outline, TypeKind};
use names::name_reads;
use put_name::put_name;
use sink::put_text;
use text::unpack;
use toposort::Traversal;
use view::{FunctionView, ItemView, argument_entry, skip_type};

// The table: the positions of the names and behind them their number, the same of the items, and then for each name and
// for each item one word that says where its text is in the pool, or is 0. Behind them the positions of types and the
// words of their texts, and then what is kept of types that arguments have.
#[derive(Clone, Copy)]
pub struct Table {
    pub place: usize,
}

impl Table {
    // Where the number of names stands.
    pub const NAMES: usize = Outline::NAMES;
    // Where the items begin.
    pub const FIRST: usize = Table::NAMES + 1;
    // Where their number stands.
    pub const ITEMS: usize = Table::FIRST + Outline::ITEMS;

    // Where the words of the names begin: 64 times the text's first place, and its length.
    pub const SPELLED: usize = Table::ITEMS + 1;
    // Where the words of the items begin: 1024 times the first place of the full name, and its length.
    pub const FULL: usize = Table::SPELLED + Outline::NAMES;

    // The most types that are spelled in the pool.
    pub const SPELLINGS: usize = 127;
    // Where their positions begin.
    pub const TYPES: usize = Table::FULL + Outline::ITEMS;
    // Where their words begin: 1024 times the first place of the type and the space behind it, and their length.
    pub const SPACED: usize = Table::TYPES + Table::SPELLINGS;

    // The most types that are kept.
    pub const ROWS: usize = 128;
    // Where their bits begin, each as one number.
    pub const KEYS: usize = Table::SPACED + Table::SPELLINGS;
    // Where their words begin: 512 times the type's position, 16 times the number of bits that it has less than 32, and
    // the lowest four bits of an argument's entry.
    pub const MET: usize = Table::KEYS + Table::ROWS;

    pub const PLACES: usize = Table::MET + Table::ROWS;
}

// The pool: names, one behind the other, behind them full names, and then types. It is lent the bytes that held the
// edges of the structs.
#[derive(Clone, Copy)]
pub struct Pool {
    pub place: usize,
}

impl Pool {
    pub const BYTES: usize = Traversal::HELD;
    // The most bytes that names take.
    pub const NAMES: usize = 12000;
}

// ---- the table

// The table of these names and items; its words stay.
pub fn fill_table(names: &[u32], items: &[u32], t: &mut [u32])
    requires { (length names.now ≤ most_names) × (length items.now ≤ most_items) × (length t.old ≡ 3068) }
    ensures { Listed names.now items.now t.new ×
        (drop 1280 t.new ≡ drop 1280 t.old) }
{
    let n = names.len();
    let k = items.len();
    let first = Table::FIRST;
    let end = first + k;
    t[..n].copy_from_slice(names);
    t[first..end].copy_from_slice(items);
    t[Table::NAMES] = n as u32;
    t[Table::ITEMS] = k as u32;
}

// ---- readers

// The positions of the names.
pub fn names_in(t: &[u32]) -> &[u32]
    requires { (length t.now ≡ 3068) × (get_or t.now 1023 0 ≤ most_names) }
    ensures { result.now ≡ names_in t.now }
{
    &t[..t[Table::NAMES] as usize]
}

// The positions of the items.
pub fn items_in(t: &[u32]) -> &[u32]
    requires { (length t.now ≡ 3068) × (get_or t.now 1279 0 ≤ most_items) }
    ensures { result.now ≡ items_in t.now }
{
    let end = Table::FIRST + t[Table::ITEMS] as usize;
    &t[Table::FIRST..end]
}

// Item i.
pub fn item(s: &[u8], t: &[u32], i: u32) -> ItemView
    requires { Tabled s.now t.now × (i < length (items_in t.now)) }
    ensures { (result.number ≡ i) × Item s.now t.now result }
{
    view::item(s, names_in(t), items_in(t), i)
}

// The index of an item's namespace d, counted from the outermost.
pub fn namespace(s: &[u8], t: &[u32], v: ItemView, d: u32) -> u32
    requires { Tabled s.now t.now × Item s.now t.now v × (d < v.depth) }
    ensures { (result < length (names_in t.now)) ×
        (name_at s.now (get_or (names_in t.now) result 0) ≡
        get_or (item_at (items_of s.now t.now) v.number).namespace d []) }
{
    view::namespace(s, names_in(t), items_in(t), v, d)
}

// The function of an item.
pub fn function(s: &[u8], t: &[u32], v: ItemView) -> FunctionView
    requires { Tabled s.now t.now × Item s.now t.now v × (v.kind ≡ RustFunction) }
    ensures { (result.number ≡ v.number) × Function s.now t.now result }
{
    view::function(s, names_in(t), items_in(t), v)
}

// ---- arguments

// The row of a type that begins with these bits. A Str is its kind alone, and what stands behind it tells nothing.
pub fn row_of(bits: u32) -> usize
    ensures { result < 128 }
{
    if bits >> 28 == 9 {
        return 16;
    }
    (bits >> 24) as usize % Table::ROWS
}

// The word of a type that was met, where it stands at a position; 0 where none is known to.
fn known_type(s: &[u8], t: &[u32], at: u32) -> u32
    requires { Tabled s.now t.now }
    ensures { (result ≡ 0 → ⊥) →
        Known s.now (names_in t.now) (items_in t.now) at result }
{
    let size = s.len() * 8;
    let end = at as usize + 32;
    if size < end {
        return 0;
    }
    let bits = extract(s, at, 32);
    let k = row_of(bits);
    let word = t[Table::MET + k];
    if bits >> (word / 16 % 32) == t[Table::KEYS + k] {
        return word;
    }
    0
}

// The entry of an argument with this name, whose type has this word.
fn met_entry(s: &[u8], t: &[u32], at: u32, word: u32, name: u32) -> u32
    requires { Tabled s.now t.now × (name ≤ most_names) ×
        Known s.now (names_in t.now) (items_in t.now) at word }
    ensures { EntryOf s.now (names_in t.now) (items_in t.now) name
        (word / 512) result }
{
    word / 512 * 16384 + name * 16 + word % 16
}

// The arguments of a function, into the front of offsets; the answer is the position behind the last. A type that was
// met is where it was met first.
pub fn fill_arguments(s: &[u8], t: &[u32], v: FunctionView, offsets: &mut [u32]) -> Cursor
    requires { Tabled s.now t.now × Function s.now t.now v × (most_arguments ≤ length offsets.old) }
    ensures { Arguments s.now t.now v offsets.new ×
        (result.at ≡ behind_arguments s.now t.now v) }
{
    let w = width(t[Table::NAMES]);
    let mut next = v.first;
    for j in 0..v.arguments as usize {
        let name = field(s, next, w);
        let of = name.next;
        let word = known_type(s, t, of.at);
        if 0 < word {
            offsets[j] = met_entry(s, t, of.at, word, name.value);
            next = Cursor::new(of.at + (32 - word / 16 % 32));
        } else {
            offsets[j] = argument_entry(s, names_in(t), items_in(t), name.value, of);
            next = skip_type(s, of, t[Table::ITEMS]);
        }
    }
    next
}

// ---- types

// Whether the type at c needs an indirect ABI.
pub fn needs_indirect_abi(s: &[u8], t: &[u32], c: Cursor) -> bool
    requires { Tabled s.now t.now × Typed s.now t.now c.at }
    ensures { result ≡ needs_indirect_abi (items_of s.now t.now)
        (type_of s.now t.now c.at) }
{
    view::needs_indirect_abi(s, names_in(t), items_in(t), c)
}

// The kind of the outermost type at c.
pub fn type_kind(s: &[u8], t: &[u32], c: Cursor) -> TypeKind
    requires { Tabled s.now t.now × Typed s.now t.now c.at }
    ensures { result ≡ kind_of_type
        (type_of s.now t.now c.at) }
{
    view::type_kind(s, items_in(t), c)
}

// Whether name i is the text.
pub fn reads(s: &[u8], t: &[u32], i: u32, text: &[u8]) -> bool
    requires { Tabled s.now t.now × (i < length (names_in t.now)) }
    ensures { result ≡ same (name_at s.now (get_or (names_in t.now) i 0)) text.now }
{
    name_reads(s, names_in(t), i, text)
}

// ---- the pool

// Spells the first names, up to the first that does not fit; the answer is the place behind them.
pub fn fill_pool(s: &[u8], t: &mut [u32], pool: &mut [u8]) -> usize
    requires { Tabled s.now t.old × (drop 1280 t.old ≡ replicate 1788 0) × (12000 ≤ length pool.old) }
    ensures { Filled s.now t.old t.new pool.new result }
{
    let n = t[Table::NAMES] as usize;
    let mut end: usize = 0;
    for i in 0..n {
        let length = field(s, Cursor::new(t[i]), 6);
        let next = end + length.value as usize;
        if Pool::NAMES < next {
            return end;
        }
        unpack(s, length.next.at, length.value, &mut pool[end..next]);
        let word = Table::SPELLED + i;
        t[word] = end as u32 * 64 + length.value;
        end = next;
    }
    end
}

// So many bytes of the pool, from `start` on.
pub fn put_part(pool: &[u8], start: u32, count: u32, out: &mut [u8], at: usize) -> usize
    requires { start + count ≤ length pool.now }
    ensures { Wrote (sink out.old at) (slice start (start + count) pool.now)
        (sink out.new result) }
{
    let first = start as usize;
    let end = first + count as usize;
    put_text(out, at, &pool[first..end])
}

// The word of the type at c, with the space behind it; 0 where the pool does not have it.
pub fn type_word(s: &[u8], t: &[u32; Table::PLACES], pool: &[u8; Pool::BYTES], c: Cursor) -> u32
    requires { Lent s.now t.now pool.now }
    ensures { (result ≡ 0 → ⊥) → Part pool.now (result / 1024) (result % 1024)
        (write_type_space (items_of s.now t.now)
        (type_of s.now t.now c.at)) }
{
    let k = c.at as usize % Table::SPELLINGS;
    if t[Table::TYPES + k] == c.at {
        return t[Table::SPACED + k];
    }
    0
}

// Name i.
pub fn put_name_of(
    s: &[u8],
    t: &[u32; Table::PLACES],
    pool: &[u8; Pool::BYTES],
    i: u32,
    out: &mut [u8],
    at: usize,
) -> usize
    requires { Lent s.now t.now pool.now × (i < length (names_in t.now)) }
    ensures { Wrote (sink out.old at)
        (name_at s.now (get_or (names_in t.now) i 0)) (sink out.new result) }
{
    let k = i as usize;
    let e = t[Table::SPELLED + k];
    if e == 0 {
        return put_name(s, t[k], out, at);
    }
    put_part(pool, e / 64, e % 64, out, at)
}
