// Text with pending boundaries and sections: the port of block.rs and out.rs. The text stands in a buffer that the
// caller lends, from its first byte on.
#![tactic(auto)]

ghost use Rattle.std.specs.Prelude.{◌≡◌, [], ◌&&◌, ◌<◌, ◌≤◌, length, set, ltb};
ghost use Rattle.sink.specs.Sink.{sink, Wrote};
ghost use Rattle.format.specs.Limits.{most_bits, most_namespaces};
ghost use Rattle.syntax.specs.Items.{item_at};
ghost use Rattle.view.specs.Values.{items_at, Named, Whole};
ghost use Rattle.names.specs.Digests.{digests_at};
ghost use Rattle.view.specs.Views.{ItemAt};
ghost use Rattle.bridge.specs.Block as block;
ghost use Rattle.bridge.specs.Out as machine;
ghost use Rattle.pieces.specs.Between.{named};
ghost use Rattle.tables.specs.Tables.{names_in, Tabled, Lent};
ghost use Rattle.out.specs.State.{block_of, boundary_of, KnownBlock, Known, pending_of, Listed, namespace_at, Spaces};
ghost use Rattle.out.specs.State.{SmallBlock, Small, packed_block, packed, unpacked_block, unpacked};
ghost use Rattle.out.specs.State.{max_pending, Standing, inside, content_of};
ghost use Rattle.out.specs.Steps.{Starts, asking, behind, appended_to, Pushes, Turns, Sets, Indexes, boundary_text};
ghost use Rattle.out.specs.Steps.{is_end, Flushing, Prepares, Flushes};

use cursor::fields::field;
use cursor::{Cursor, width};
use names::same_name;
use sink::{put_bytes, put_when};
use tables::{Pool, Table, names_in, put_name_of};
use view::ItemView;

// ---- block.rs

// A namespace holds the index of its name.
#[derive(Clone, Copy)]
pub enum Block {
    UserDefinedNamespace(u32),
    ExternC,
}

fn write_common(
    s: &[u8],
    t: &[u32; Table::PLACES],
    pool: &[u8; Pool::BYTES],
    b: Block,
    out: &mut [u8],
    at: usize,
) -> usize
    requires { Lent s.now t.now pool.now × KnownBlock (names_in t.now) b }
    ensures { Wrote (sink out.old at)
        (block.write_common (block_of s.now (names_in t.now) b)) (sink out.new result) }
{
    match b {
        Block::UserDefinedNamespace(name) => {
            let next = put_bytes(out, at, b"namespace ");
            put_name_of(s, t, pool, name, out, next)
        }
        Block::ExternC => put_bytes(out, at, b"extern \"C\""),
    }
}

fn write_begin(
    s: &[u8],
    t: &[u32; Table::PLACES],
    pool: &[u8; Pool::BYTES],
    b: Block,
    out: &mut [u8],
    at: usize,
) -> usize
    requires { Lent s.now t.now pool.now × KnownBlock (names_in t.now) b }
    ensures { Wrote (sink out.old at)
        (block.write_begin (block_of s.now (names_in t.now) b)) (sink out.new result) }
{
    let next = write_common(s, t, pool, b, out, at);
    put_bytes(out, next, b" {\n")
}

fn write_end(
    s: &[u8],
    t: &[u32; Table::PLACES],
    pool: &[u8; Pool::BYTES],
    b: Block,
    out: &mut [u8],
    at: usize,
) -> usize
    requires { Lent s.now t.now pool.now × KnownBlock (names_in t.now) b }
    ensures { Wrote (sink out.old at)
        (block.write_end (block_of s.now (names_in t.now) b)) (sink out.new result) }
{
    let next = put_bytes(out, at, b"} // ");
    let end = write_common(s, t, pool, b, out, next);
    put_bytes(out, end, b"\n")
}

// Whether two blocks are the same: two names are equal when their characters are.
fn same_block(s: &[u8], names: &[u32], digests: &[u32], a: Block, b: Block) -> bool
    requires { Named s.now names.now × (digests.now ≡ digests_at s.now names.now) ×
        KnownBlock names.now a × KnownBlock names.now b }
    ensures { result ≡ block.same_block (block_of s.now names.now a)
        (block_of s.now names.now b) }
{
    match (a, b) {
        (Block::UserDefinedNamespace(m), Block::UserDefinedNamespace(n)) => {
            same_name(s, names, digests, m, n)
        }
        (Block::ExternC, Block::ExternC) => true,
        _ => false,
    }
}

// ---- out.rs

#[derive(Clone, Copy)]
pub enum Boundary {
    Begin(Block),
    End(Block),
}

// An entry of the pending boundaries, as one number: twice its block's number, and one more for an end. The number of
// extern "C" is 0, and that of a namespace is the index of its name and one.
#[derive(Clone, Copy)]
pub struct Pending {
    pub code: u16,
}

fn pack_block(b: Block) -> u16
    requires { SmallBlock b }
    ensures { result ≡ packed_block b }
{
    match b {
        Block::UserDefinedNamespace(i) => (i + 1) as u16,
        Block::ExternC => 0,
    }
}

fn pack(boundary: Boundary) -> Pending
    requires { Small boundary }
    ensures { result ≡ packed boundary }
{
    match boundary {
        Boundary::Begin(block) => {
            let code = pack_block(block) * 2;
            Pending { code }
        }
        Boundary::End(block) => {
            let code = pack_block(block) * 2 + 1;
            Pending { code }
        }
    }
}

fn unpack_block(n: u16) -> Block
    ensures { result ≡ unpacked_block n }
{
    if n == 0 {
        return Block::ExternC;
    }
    Block::UserDefinedNamespace((n - 1) as u32)
}

fn unpack(p: Pending) -> Boundary
    ensures { result ≡ unpacked p }
{
    let block = unpack_block(p.code / 2);
    if p.code % 2 == 0 {
        return Boundary::Begin(block);
    }
    Boundary::End(block)
}

// The place behind the text; where the indexes of the names of the namespace that is set stand, and how many there
// are; the pending boundaries, the oldest first; and whether a section is pending. The code has them in an array of
// numbers, which it lends: a Content by value is copied at each call.
#[derive(Drop)]
pub struct Content {
    pub at: usize,
    pub spaces: Cursor,
    pub depth: u32,
    pub pending: [Pending; Content::PENDING],
    pub count: usize,
    pub section_pending: bool,
}

// A number into a place. As a slice an array tells how many places it has.
fn put_place(c: &mut [usize], place: usize, n: usize)
    requires { place < length c.old }
    ensures { c.new ≡ set c.old place n }
{
    c[place] = n;
}

impl Content {
    // The most pending boundaries: eight ends and eight begins.
    pub const PENDING: usize = 16;

    // The places of the fields; the numbers of the pending boundaries are the last.
    pub const AT: usize = 0;

    pub const SPACES: usize = 1;

    pub const DEPTH: usize = 2;

    pub const COUNT: usize = 3;

    pub const SECTION: usize = 4;

    pub const FIRST: usize = 5;

    pub const PLACES: usize = Content::FIRST + Content::PENDING;

    pub fn new(c: &mut [usize; Content::PLACES])
        ensures { Starts (content_of c.new) }
    {
        put_place(c, Content::AT, 0);
        c[Content::SPACES] = 0;
        c[Content::DEPTH] = 0;
        c[Content::COUNT] = 0;
        c[Content::SECTION] = 0;
    }
}

// The same state behind more text.
pub fn placed(c: &mut [usize; Content::PLACES], at: usize)
    ensures { content_of c.new ≡ behind (content_of c.old) at }
{
    put_place(c, Content::AT, at);
}

pub fn next_section(c: &mut [usize; Content::PLACES])
    ensures { content_of c.new ≡ asking (content_of c.old) }
{
    put_place(c, Content::SECTION, 1);
}

// Whether a boundary is the reverse of the last one.
fn cancels(s: &[u8], names: &[u32], digests: &[u32], boundary: Boundary, last: Boundary) -> bool
    requires { Named s.now names.now × (digests.now ≡ digests_at s.now names.now) ×
        Known names.now boundary × Known names.now last }
    ensures { result ≡ machine.cancels (boundary_of s.now names.now boundary)
        (boundary_of s.now names.now last) }
{
    match (boundary, last) {
        (Boundary::Begin(a), Boundary::End(b)) => same_block(s, names, digests, a, b),
        (Boundary::End(a), Boundary::Begin(b)) => same_block(s, names, digests, a, b),
        (Boundary::Begin(_), Boundary::Begin(_)) => false,
        (Boundary::End(_), Boundary::End(_)) => false,
    }
}

// One boundary more.
fn append(c: &mut [usize; Content::PLACES], boundary: Boundary)
    requires { ((content_of c.old).count < max_pending) × Small boundary }
    ensures { content_of c.new ≡ appended_to (content_of c.old) boundary }
{
    let p = pack(boundary);
    let n = c[Content::COUNT];
    let last = Content::FIRST + n;
    put_place(c, last, p.code as usize);
    c[Content::COUNT] = n + 1;
}

// A boundary cancels only a pending last boundary that is its reverse.
fn push_block_boundary(
    s: &[u8],
    names: &[u32],
    digests: &[u32],
    c: &mut [usize; Content::PLACES],
    boundary: Boundary,
)
    requires { Named s.now names.now × (digests.now ≡ digests_at s.now names.now) ×
        Listed names.now (content_of c.old) × Known names.now boundary × (length (machine.push
        (boundary_of s.now names.now boundary) (pending_of s.now names.now (content_of c.old))) ≤ max_pending) }
    ensures { Pushes s.now names.now (content_of c.old) boundary
        (content_of c.new) }
{
    let n = c[Content::COUNT];
    if n == 0 {
        append(c, boundary);
        return;
    }
    let i = n - 1;
    let place = Content::FIRST + i;
    let code = c[place] as u16;
    let last = unpack(Pending { code });
    if cancels(s, names, digests, boundary, last) {
        c[Content::COUNT] = i;
        return;
    }
    append(c, boundary);
}

pub fn begin_extern_c(s: &[u8], names: &[u32], digests: &[u32], c: &mut [usize; Content::PLACES])
    requires { Named s.now names.now × (digests.now ≡ digests_at s.now names.now) ×
        Standing s.now names.now named (content_of c.old) }
    ensures { Turns s.now names.now named inside (content_of c.old)
        (content_of c.new) }
{
    let boundary = Boundary::Begin(Block::ExternC);
    push_block_boundary(s, names, digests, c, boundary);
}

pub fn end_extern_c(s: &[u8], names: &[u32], digests: &[u32], c: &mut [usize; Content::PLACES])
    requires { Named s.now names.now × (digests.now ≡ digests_at s.now names.now) ×
        Standing s.now names.now inside (content_of c.old) }
    ensures { Turns s.now names.now inside named (content_of c.old)
        (content_of c.new) }
{
    let boundary = Boundary::End(Block::ExternC);
    push_block_boundary(s, names, digests, c, boundary);
}

// ---- set_namespace

// The index of name d of a namespace.
fn name_index(s: &[u8], names: &[u32], spaces: Cursor, d: u32) -> u32
    requires { Named s.now names.now × (spaces.at ≤ most_bits) × (d < most_namespaces) }
    ensures { Indexes s.now names.now spaces d result }
{
    let w = width(names.len() as u32);
    let at = spaces.at + d * w;
    let name = field(s, Cursor::new(at), w);
    name.value
}

// The blocks of the namespace end, innermost first.
fn end_namespaces(s: &[u8], names: &[u32], digests: &[u32], c: &mut [usize; Content::PLACES])
    requires { Named s.now names.now × (digests.now ≡ digests_at s.now names.now) ×
        Standing s.now names.now named (content_of c.old) }
    ensures { Turns s.now names.now named (λ _. []) (content_of c.old)
        (content_of c.new) }
{
    let at = c[Content::SPACES] as u32;
    let spaces = Cursor::new(at);
    let depth = c[Content::DEPTH] as u32;
    for d in (0..depth).rev() {
        let name = name_index(s, names, spaces, d);
        let block = Block::UserDefinedNamespace(name);
        push_block_boundary(s, names, digests, c, Boundary::End(block));
    }
}

// The blocks of another begin, outermost first.
fn begin_namespaces(
    s: &[u8],
    names: &[u32],
    digests: &[u32],
    c: &mut [usize; Content::PLACES],
    spaces: Cursor,
    depth: u32,
)
    requires { Named s.now names.now × (digests.now ≡ digests_at s.now names.now) ×
        Standing s.now names.now (λ _. []) (content_of c.old) ×
        Spaces s.now names.now spaces depth (namespace_at s.now names.now spaces depth) }
    ensures { Turns s.now names.now (λ _. [])
        (λ _. named (namespace_at s.now names.now spaces depth)) (content_of c.old)
        (content_of c.new) }
{
    for d in 0..depth {
        let name = name_index(s, names, spaces, d);
        let block = Block::UserDefinedNamespace(name);
        push_block_boundary(s, names, digests, c, Boundary::Begin(block));
    }
}

// The namespace whose indexes stand at a position.
fn set_spaces(
    s: &[u8],
    names: &[u32],
    digests: &[u32],
    c: &mut [usize; Content::PLACES],
    spaces: Cursor,
    depth: u32,
)
    requires { Named s.now names.now × (digests.now ≡ digests_at s.now names.now) ×
        Standing s.now names.now named (content_of c.old) ×
        Spaces s.now names.now spaces depth (namespace_at s.now names.now spaces depth) }
    ensures { Sets s.now names.now
        (namespace_at s.now names.now spaces depth) (content_of c.old)
        (content_of c.new) }
{
    if c[Content::DEPTH] == 0 && depth == 0 {
        return;
    }
    end_namespaces(s, names, digests, c);
    begin_namespaces(s, names, digests, c, spaces, depth);
    c[Content::SPACES] = spaces.at as usize;
    c[Content::DEPTH] = depth as usize;
}

// The namespace of an item.
pub fn set_namespace(
    s: &[u8],
    names: &[u32],
    items: &[u32],
    digests: &[u32],
    c: &mut [usize; Content::PLACES],
    v: ItemView,
)
    requires { Whole s.now names.now items.now × (digests.now ≡ digests_at s.now names.now) ×
        Standing s.now names.now named (content_of c.old) × ItemAt s.now names.now items.now v }
    ensures { Sets s.now names.now
        (item_at (items_at s.now names.now items.now) v.number).namespace
        (content_of c.old) (content_of c.new) }
{
    set_spaces(s, names, digests, c, v.spaces, v.depth);
}

// ---- flush_blocks

// The place behind the text, and whether a section is pending.
#[derive(Clone, Copy)]
pub struct Flushed {
    pub at: usize,
    pub section: bool,
}

fn is_end(boundary: Boundary) -> bool
    ensures { result ≡ is_end boundary }
{
    matches!(boundary, Boundary::End(_))
}

// One turn of its loop.
fn flush_boundary(
    s: &[u8],
    t: &[u32; Table::PLACES],
    pool: &[u8; Pool::BYTES],
    boundary: Boundary,
    section: bool,
    out: &mut [u8],
    at: usize,
) -> usize
    requires { Lent s.now t.now pool.now × Known (names_in t.now) boundary }
    ensures { Wrote (sink out.old at) (boundary_text section
        (boundary_of s.now (names_in t.now) boundary)) (sink out.new result) }
{
    match boundary {
        Boundary::Begin(block) => {
            let next = put_when(out, at, section, b"\n");
            write_begin(s, t, pool, block, out, next)
        }
        Boundary::End(block) => write_end(s, t, pool, block, out, at),
    }
}

// Its loop.
fn flush_all(
    s: &[u8],
    t: &[u32; Table::PLACES],
    pool: &[u8; Pool::BYTES],
    c: &[usize; Content::PLACES],
    out: &mut [u8],
) -> Flushed
    requires { Lent s.now t.now pool.now × Listed (names_in t.now) (content_of c.now) }
    ensures { Flushing s.now (names_in t.now) out.old out.new
        machine.flush_all (content_of c.now) result }
{
    let mut at = c[Content::AT];
    let mut section = 0 < at;
    let count = c[Content::COUNT];
    for i in 0..count {
        let place = Content::FIRST + i;
        let code = c[place] as u16;
        let boundary = unpack(Pending { code });
        at = flush_boundary(s, t, pool, boundary, section, out, at);
        section = is_end(boundary);
    }
    Flushed { at, section }
}

fn flush_blocks(
    s: &[u8],
    t: &[u32; Table::PLACES],
    pool: &[u8; Pool::BYTES],
    c: &[usize; Content::PLACES],
    out: &mut [u8],
) -> Flushed
    requires { Lent s.now t.now pool.now × Listed (names_in t.now) (content_of c.now) }
    ensures { Flushing s.now (names_in t.now) out.old out.new
        (λ _ m. machine.flush_blocks m) (content_of c.now) result }
{
    let count = c[Content::COUNT];
    if count == 0 {
        let at = c[Content::AT];
        let section = 0 < c[Content::SECTION];
        return Flushed { at, section };
    }
    flush_all(s, t, pool, c, out)
}

// ---- write and flush

// Whether a blank line stands before the text: not at its start.
fn is_blank(f: Flushed) -> bool
    ensures { result ≡ (f.section && ltb 0 f.at) }
{
    f.section && 0 < f.at
}

// What `write` does before it appends a text that is not empty.
pub fn prepare(
    s: &[u8],
    t: &[u32; Table::PLACES],
    pool: &[u8; Pool::BYTES],
    c: &mut [usize; Content::PLACES],
    out: &mut [u8],
)
    requires { Lent s.now t.now pool.now × Listed (names_in t.now) (content_of c.old) }
    ensures { Prepares s.now (names_in t.now) out.old out.new
        (content_of c.old) (content_of c.new) }
{
    let f = flush_blocks(s, t, pool, c, out);
    let at = put_when(out, f.at, is_blank(f), b"\n");
    c[Content::AT] = at;
    c[Content::COUNT] = 0;
    c[Content::SECTION] = 0;
}

// No namespace is set.
fn set_none(s: &[u8], t: &[u32], digests: &[u32], c: &mut [usize; Content::PLACES])
    requires { Tabled s.now t.now × (digests.now ≡ digests_at s.now (names_in t.now)) ×
        Standing s.now (names_in t.now) named (content_of c.old) }
    ensures { Sets s.now (names_in t.now) [] (content_of c.old)
        (content_of c.new) }
{
    set_spaces(s, names_in(t), digests, c, Cursor::new(0), 0);
}

// The end of the text: every block is closed.
pub fn flush(
    s: &[u8],
    t: &[u32; Table::PLACES],
    pool: &[u8; Pool::BYTES],
    digests: &[u32],
    c: &mut [usize; Content::PLACES],
    out: &mut [u8],
) -> usize
    requires { Lent s.now t.now pool.now × (digests.now ≡ digests_at s.now (names_in t.now)) ×
        Standing s.now (names_in t.now) named (content_of c.old) }
    ensures { Flushes s.now (names_in t.now) out.old out.new
        (content_of c.old) result }
{
    set_none(s, t, digests, c);
    let f = flush_blocks(s, t, pool, c, out);
    f.at
}
