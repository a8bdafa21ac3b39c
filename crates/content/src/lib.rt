// What out.rs does to the state of a text, and what nested.rs asks of items, by the table of names and items.
#![tactic(auto)]

ghost use Rattle.std.specs.Prelude.{◌≡◌, ◌<◌, ◌≤◌, length};
ghost use Rattle.format.specs.declared.ItemKind.TheVariants.{Enum};
ghost use Rattle.syntax.specs.Items.{item_at};
ghost use Rattle.names.specs.Digests.{digests_at};
ghost use Rattle.nested.specs.Groups.{EnumOf, is_direct, Next};
ghost use Rattle.pieces.specs.Between.{named};
ghost use Rattle.out.specs.State.{Standing, inside, content_of};
ghost use Rattle.out.specs.Steps.{Turns, Sets};
ghost use Rattle.tables.specs.Tables.{names_in, items_in, items_of, item_of, Tabled, Item};

use nested::EnumView;
use out::Content;
use tables::{items_in, names_in};
use view::ItemView;

// The namespace of an item.
pub fn set_namespace(
    s: &[u8],
    t: &[u32],
    digests: &[u32],
    c: &mut [usize; Content::PLACES],
    v: ItemView,
)
    requires { Tabled s.now t.now × (digests.now ≡ digests_at s.now (names_in t.now)) ×
        Standing s.now (names_in t.now) named (content_of c.old) × Item s.now t.now v }
    ensures { Sets s.now (names_in t.now)
        (item_at (items_of s.now t.now) v.number).namespace (content_of c.old)
        (content_of c.new) }
{
    out::set_namespace(s, names_in(t), items_in(t), digests, c, v);
}

pub fn begin_extern_c(s: &[u8], t: &[u32], digests: &[u32], c: &mut [usize; Content::PLACES])
    requires { Tabled s.now t.now × (digests.now ≡ digests_at s.now (names_in t.now)) ×
        Standing s.now (names_in t.now) named (content_of c.old) }
    ensures { Turns s.now (names_in t.now) named inside (content_of c.old)
        (content_of c.new) }
{
    out::begin_extern_c(s, names_in(t), digests, c);
}

pub fn end_extern_c(s: &[u8], t: &[u32], digests: &[u32], c: &mut [usize; Content::PLACES])
    requires { Tabled s.now t.now × (digests.now ≡ digests_at s.now (names_in t.now)) ×
        Standing s.now (names_in t.now) inside (content_of c.old) }
    ensures { Turns s.now (names_in t.now) inside named (content_of c.old)
        (content_of c.new) }
{
    out::end_extern_c(s, names_in(t), digests, c);
}

// ---- nested.rs

// An enum: the number of its atom, and whether C++ owns it.
pub fn enum_of(s: &[u8], t: &[u32], v: ItemView) -> EnumView
    requires { Tabled s.now t.now × Item s.now t.now v × (v.kind ≡ Enum) }
    ensures { EnumOf (item_of s.now t.now v.number).body result }
{
    nested::enum_of(s, names_in(t), items_in(t), v)
}

// Whether item i is one of the group's own entries.
pub fn is_direct(s: &[u8], t: &[u32], digests: &[u32], leader: ItemView, depth: u32, i: u32) -> bool
    requires { Tabled s.now t.now × (digests.now ≡ digests_at s.now (names_in t.now)) ×
        Item s.now t.now leader × (i < length (items_in t.now)) }
    ensures { result ≡ is_direct (item_of s.now t.now leader.number) depth
        (item_of s.now t.now i) }
{
    nested::is_direct(s, names_in(t), items_in(t), digests, leader, depth, i)
}

// The first item from one on that opens an inner namespace of the group, or the number of all items.
pub fn next_namespace(
    s: &[u8],
    t: &[u32],
    digests: &[u32],
    leader: ItemView,
    depth: u32,
    from: u32,
) -> u32
    requires { Tabled s.now t.now × (digests.now ≡ digests_at s.now (names_in t.now)) ×
        Item s.now t.now leader × (from ≤ length (items_in t.now)) }
    ensures { Next (items_of s.now t.now)
        (item_of s.now t.now leader.number) depth from result }
{
    nested::next_namespace(s, names_in(t), items_in(t), digests, leader, depth, from)
}
