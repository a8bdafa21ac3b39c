// write.rs: `write_forward_declarations`.
#![tactic(auto)]

ghost use Rattle.std.specs.Prelude.{◌≡◌, [], ◌++◌, true, ◌-◌, ◌<◌, ◌≤◌, length, get_or};
ghost use Rattle.lexical.specs.Bytes.{bytes};
ghost use Rattle.lexical.specs.Decimal.{pick_text};
ghost use Rattle.sink.specs.Sink.{sink, Wrote};
ghost use Rattle.format.specs.Limits.{most_namespaces};
ghost use Rattle.format.specs.declared.ItemKind.TheVariants.{Enum};
ghost use Rattle.syntax.specs.Items.{full_name};
ghost use Rattle.bridge.specs.Write.{forward_line, indent as indentOf, write_direct, write_entries};
ghost use Rattle.bridge.specs.Write.{forward_declarations};
ghost use Rattle.names.specs.Digests.{digests_at};
ghost use Rattle.nested.specs.Groups.{members, is_direct, is_first};
ghost use Rattle.forward.specs.Entries.{entry};
ghost use Rattle.tables.specs.Tables.{names_in, items_in, items_of, item_of, Item, Lent};

use content::{enum_of, is_direct, next_namespace};
use format::ItemKind;
use mangle::write_full_name;
use sink::{put_bytes, put_spaces};
use tables::{Pool, Table, item, namespace, put_name_of};
use view::ItemView;
use write_atom::write_atom;

// ---- an item's line

fn write_struct_decl(
    s: &[u8],
    t: &[u32; Table::PLACES],
    pool: &[u8; Pool::BYTES],
    v: ItemView,
    out: &mut [u8],
    at: usize,
) -> usize
    requires { Lent s.now t.now pool.now × Item s.now t.now v }
    ensures { Wrote (sink out.old at)
        (bytes "struct " ++ (item_of s.now t.now v.number).cxx ++
        bytes ";\n") (sink out.new result) }
{
    let name = put_bytes(out, at, b"struct ");
    let end = put_name_of(s, t, pool, v.name, out, name);
    put_bytes(out, end, b";\n")
}

fn write_enum_decl(
    s: &[u8],
    t: &[u32; Table::PLACES],
    pool: &[u8; Pool::BYTES],
    v: ItemView,
    out: &mut [u8],
    at: usize,
) -> usize
    requires { Lent s.now t.now pool.now × Item s.now t.now v ×
        (v.kind ≡ Enum) }
    ensures { Wrote (sink out.old at)
        (forward_line (item_of s.now t.now v.number)
        (item_of s.now t.now v.number).body)
        (sink out.new result) }
{
    let e = enum_of(s, t, v);
    let name = put_bytes(out, at, b"enum class ");
    let colon = put_name_of(s, t, pool, v.name, out, name);
    let atom = put_bytes(out, colon, b" : ");
    let end = write_atom(e.atom, out, atom);
    put_bytes(out, end, b";\n")
}

fn write_struct_using(
    s: &[u8],
    t: &[u32; Table::PLACES],
    pool: &[u8; Pool::BYTES],
    v: ItemView,
    out: &mut [u8],
    at: usize,
) -> usize
    requires { Lent s.now t.now pool.now × Item s.now t.now v }
    ensures { Wrote (sink out.old at)
        (bytes "using " ++ (item_of s.now t.now v.number).cxx ++
        bytes " = " ++ full_name (item_of s.now t.now v.number) ++
        bytes ";\n") (sink out.new result) }
{
    let name = put_bytes(out, at, b"using ");
    let equals = put_name_of(s, t, pool, v.name, out, name);
    let full = put_bytes(out, equals, b" = ");
    let end = write_full_name(s, t, pool, v.number, out, full);
    put_bytes(out, end, b";\n")
}

// The forward declaration of an item.
fn write_line(
    s: &[u8],
    t: &[u32; Table::PLACES],
    pool: &[u8; Pool::BYTES],
    v: ItemView,
    out: &mut [u8],
    at: usize,
) -> usize
    requires { Lent s.now t.now pool.now × Item s.now t.now v }
    ensures { Wrote (sink out.old at)
        (forward_line (item_of s.now t.now v.number)
        (item_of s.now t.now v.number).body)
        (sink out.new result) }
{
    match v.kind {
        ItemKind::Struct | ItemKind::RustType => write_struct_decl(s, t, pool, v, out, at),
        ItemKind::Enum => write_enum_decl(s, t, pool, v, out, at),
        ItemKind::CxxType => write_struct_using(s, t, pool, v, out, at),
        ItemKind::RustFunction | ItemKind::Bad => at,
    }
}

// ---- a level

// Two spaces for each level.
fn indent(depth: u32, out: &mut [u8], at: usize) -> usize
    requires { depth ≤ most_namespaces }
    ensures { Wrote (sink out.old at) (indentOf depth) (sink out.new result) }
{
    put_spaces(out, at, 2 * depth as usize)
}

// Item i, where it is one of the group's own entries.
fn write_entry(
    s: &[u8],
    t: &[u32; Table::PLACES],
    pool: &[u8; Pool::BYTES],
    digests: &[u32],
    leader: ItemView,
    depth: u32,
    i: u32,
    out: &mut [u8],
    at: usize,
) -> usize
    requires { Lent s.now t.now pool.now × (digests.now ≡ digests_at s.now (names_in t.now)) ×
        Item s.now t.now leader × (depth ≤ most_namespaces) × (i < length (items_in t.now)) }
    ensures { Wrote (sink out.old at)
        (pick_text (is_direct (item_of s.now t.now leader.number) depth
        (item_of s.now t.now i))
        (entry depth (item_of s.now t.now i)) [])
        (sink out.new result) }
{
    if !is_direct(s, t, digests, leader, depth, i) {
        return at;
    }
    let v = item(s, t, i);
    let here = indent(depth, out, at);
    write_line(s, t, pool, v, out, here)
}

// The group's own entries, from its leader on.
fn write_direct(
    s: &[u8],
    t: &[u32; Table::PLACES],
    pool: &[u8; Pool::BYTES],
    digests: &[u32],
    leader: ItemView,
    depth: u32,
    out: &mut [u8],
    at: usize,
) -> usize
    requires { Lent s.now t.now pool.now × (digests.now ≡ digests_at s.now (names_in t.now)) ×
        Item s.now t.now leader × (depth ≤ most_namespaces) ×
        (is_first (items_of s.now t.now) depth leader.number ≡ true) }
    ensures { Wrote (sink out.old at)
        (write_direct depth (members (item_of s.now t.now leader.number)
        depth (items_of s.now t.now))) (sink out.new result) }
{
    let n = t[Table::ITEMS];
    let mut here = at;
    for i in leader.number..n {
        here = write_entry(s, t, pool, digests, leader, depth, i, out, here);
    }
    here
}

// The head of namespace `depth` of v.
fn open_namespace(
    s: &[u8],
    t: &[u32; Table::PLACES],
    pool: &[u8; Pool::BYTES],
    v: ItemView,
    depth: u32,
    out: &mut [u8],
    at: usize,
) -> usize
    requires { Lent s.now t.now pool.now × Item s.now t.now v ×
        (depth < v.depth) }
    ensures { Wrote (sink out.old at)
        (indentOf depth ++ bytes "namespace " ++
        get_or (item_of s.now t.now v.number).namespace depth [] ++
        bytes " {\n") (sink out.new result) }
{
    let name = namespace(s, t, v, depth);
    let begin = indent(depth, out, at);
    let word = put_bytes(out, begin, b"namespace ");
    let brace = put_name_of(s, t, pool, name, out, word);
    put_bytes(out, brace, b" {\n")
}

fn close_namespace(depth: u32, out: &mut [u8], at: usize) -> usize
    requires { depth ≤ most_namespaces }
    ensures { Wrote (sink out.old at) (indentOf depth ++ bytes "}\n")
        (sink out.new result) }
{
    let begin = indent(depth, out, at);
    put_bytes(out, begin, b"}\n")
}

// The inner `write`: the group's own entries, then its inner namespaces by first appearance.
fn write_entries(
    s: &[u8],
    t: &[u32; Table::PLACES],
    pool: &[u8; Pool::BYTES],
    digests: &[u32],
    leader: ItemView,
    depth: u32,
    out: &mut [u8],
    at: usize,
) -> usize
    requires { Lent s.now t.now pool.now × (digests.now ≡ digests_at s.now (names_in t.now)) ×
        Item s.now t.now leader × (depth ≤ most_namespaces) ×
        (is_first (items_of s.now t.now) depth leader.number ≡ true) }
    ensures { Wrote (sink out.old at)
        (write_entries (most_namespaces - depth) depth
        (members (item_of s.now t.now leader.number) depth
        (items_of s.now t.now))) (sink out.new result) }
{
    let n = t[Table::ITEMS];
    let direct = write_direct(s, t, pool, digests, leader, depth, out, at);
    if depth == ItemKind::NAMESPACES as u32 {
        return direct;
    }
    let deeper = depth + 1;
    let mut here = direct;
    let mut i = next_namespace(s, t, digests, leader, depth, leader.number);
    // From one first member to the next: no count.
    while i < n {
        let v = item(s, t, i);
        let head = open_namespace(s, t, pool, v, depth, out, here);
        let tail = write_entries(s, t, pool, digests, v, deeper, out, head);
        here = close_namespace(depth, out, tail);
        i = next_namespace(s, t, digests, leader, depth, i + 1);
    }
    here
}

// The forward declarations of a sheet.
pub fn write_forward_declarations(
    s: &[u8],
    t: &[u32; Table::PLACES],
    pool: &[u8; Pool::BYTES],
    digests: &[u32],
    out: &mut [u8],
    at: usize,
) -> usize
    requires { Lent s.now t.now pool.now × (digests.now ≡ digests_at s.now (names_in t.now)) }
    ensures { Wrote (sink out.old at)
        (forward_declarations (items_of s.now t.now))
        (sink out.new result) }
{
    if t[Table::ITEMS] == 0 {
        return at;
    }
    let leader = item(s, t, 0);
    write_entries(s, t, pool, digests, leader, 0, out, at)
}
