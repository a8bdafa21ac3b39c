// The text of a sheet: the port of write.rs' two passes. Every function is lent the sheet, the table and the
// pool, the digests of the names, room for the views of a function's arguments, and the buffer.
#![tactic(auto)]

ghost use Rattle.std.specs.Prelude.{◌≡◌, ◌≤◌, ◌<◌, length};
ghost use Rattle.sink.specs.Sink.{sink, Wrote};
ghost use Rattle.syntax.specs.Items.{item_at};
ghost use Rattle.bridge.specs.Write.{for_each, write_functions, text};
ghost use Rattle.names.specs.Digests.{digests_at};
ghost use Rattle.out.specs.State.{content_of};
ghost use Rattle.sections.specs.Runs.{Representing, Runs, sheet_of};
ghost use Rattle.write.specs.Passes.{declare_item, define_item, Begins, Ends};
ghost use Rattle.summary.specs.Summaries.{Summaries};
ghost use Rattle.tables.specs.Tables.{names_in, items_in, items_of, Lent};

use format::ItemKind;
use forward::write_forward_declarations;
use out::{Content, flush, next_section, placed};
use sections::{
    write_opaque_type_layout, write_opaque_type_layout_decls, write_rust_function_decl,
    write_rust_function_shim,
};
use summary::Words;
use tables::{Pool, Table, item};

// ---- the two passes

// Item i in the first pass.
fn declare(
    s: &[u8],
    t: &[u32; Table::PLACES],
    pool: &[u8; Pool::BYTES],
    digests: &[u32],
    i: u32,
    kept: &[u32],
    offsets: &mut [u32],
    c: &mut [usize; Content::PLACES],
    out: &mut [u8],
)
    requires { Lent s.now t.now pool.now × (digests.now ≡ digests_at s.now (names_in t.now)) ×
        (i < length (items_in t.now)) × Summaries s.now t.now kept.now × (36 ≤ length offsets.old) ×
        Representing s.now (names_in t.now) out.old (content_of c.old) }
    ensures { Runs s.now (names_in t.now) out.old out.new
        (declare_item (items_of s.now t.now)
        (item_at (items_of s.now t.now) i)) (content_of c.old)
        (content_of c.new) }
{
    let v = item(s, t, i);
    match v.kind {
        ItemKind::RustFunction => {
            write_rust_function_decl(s, t, pool, digests, v, kept, offsets, c, out);
        }
        ItemKind::RustType => {
            write_opaque_type_layout_decls(s, t, pool, digests, v, c, out);
        }
        _ => {}
    }
}

// Item i in the second pass.
fn define(
    s: &[u8],
    t: &[u32; Table::PLACES],
    pool: &[u8; Pool::BYTES],
    digests: &[u32],
    header: bool,
    doxygen: bool,
    i: u32,
    kept: &[u32],
    offsets: &mut [u32],
    c: &mut [usize; Content::PLACES],
    out: &mut [u8],
)
    requires { Lent s.now t.now pool.now × (digests.now ≡ digests_at s.now (names_in t.now)) ×
        (i < length (items_in t.now)) × Summaries s.now t.now kept.now × (36 ≤ length offsets.old) ×
        Representing s.now (names_in t.now) out.old (content_of c.old) }
    ensures { Runs s.now (names_in t.now) out.old out.new
        (define_item (sheet_of header doxygen (items_of s.now t.now))
        (item_at (items_of s.now t.now) i)) (content_of c.old)
        (content_of c.new) }
{
    let v = item(s, t, i);
    match v.kind {
        ItemKind::RustFunction => {
            write_rust_function_shim(
                s, t, pool, digests, header, doxygen, v, kept, offsets, c, out,
            );
        }
        ItemKind::RustType => {
            if header {
                return;
            }
            write_opaque_type_layout(s, t, pool, digests, v, c, out);
        }
        _ => {}
    }
}

fn declare_all(
    s: &[u8],
    t: &[u32; Table::PLACES],
    pool: &[u8; Pool::BYTES],
    digests: &[u32],
    kept: &[u32],
    offsets: &mut [u32],
    c: &mut [usize; Content::PLACES],
    out: &mut [u8],
)
    requires { Lent s.now t.now pool.now × (digests.now ≡ digests_at s.now (names_in t.now)) ×
        Summaries s.now t.now kept.now × (36 ≤ length offsets.old) ×
        Representing s.now (names_in t.now) out.old (content_of c.old) }
    ensures { Runs s.now (names_in t.now) out.old out.new
        (for_each (declare_item (items_of s.now t.now))
        (items_of s.now t.now)) (content_of c.old)
        (content_of c.new) }
{
    let n = t[Table::ITEMS];
    for i in 0..n {
        declare(s, t, pool, digests, i, kept, offsets, c, out);
    }
}

fn define_all(
    s: &[u8],
    t: &[u32; Table::PLACES],
    pool: &[u8; Pool::BYTES],
    digests: &[u32],
    header: bool,
    doxygen: bool,
    kept: &[u32],
    offsets: &mut [u32],
    c: &mut [usize; Content::PLACES],
    out: &mut [u8],
)
    requires { Lent s.now t.now pool.now × (digests.now ≡ digests_at s.now (names_in t.now)) ×
        Summaries s.now t.now kept.now × (36 ≤ length offsets.old) ×
        Representing s.now (names_in t.now) out.old (content_of c.old) }
    ensures { Runs s.now (names_in t.now) out.old out.new
        (for_each (define_item (sheet_of header doxygen
        (items_of s.now t.now)))
        (items_of s.now t.now)) (content_of c.old)
        (content_of c.new) }
{
    let count = t[Table::ITEMS];
    for i in 0..count {
        define(
            s, t, pool, digests, header, doxygen, i, kept, offsets, c, out,
        );
    }
}

// A header has no declarations.
fn write_functions(
    s: &[u8],
    t: &[u32; Table::PLACES],
    pool: &[u8; Pool::BYTES],
    digests: &[u32],
    header: bool,
    doxygen: bool,
    kept: &[u32],
    offsets: &mut [u32],
    c: &mut [usize; Content::PLACES],
    out: &mut [u8],
)
    requires { Lent s.now t.now pool.now × (digests.now ≡ digests_at s.now (names_in t.now)) ×
        Summaries s.now t.now kept.now × (36 ≤ length offsets.old) ×
        Representing s.now (names_in t.now) out.old (content_of c.old) }
    ensures { Runs s.now (names_in t.now) out.old out.new
        (write_functions (sheet_of header doxygen (items_of s.now t.now)))
        (content_of c.old) (content_of c.new) }
{
    if header {
        define_all(s, t, pool, digests, header, doxygen, kept, offsets, c, out);
        return;
    }
    declare_all(s, t, pool, digests, kept, offsets, c, out);
    define_all(s, t, pool, digests, header, doxygen, kept, offsets, c, out);
}

// ---- the text

// The state behind the forward declarations: a section is pending where there are none.
fn behind_forward(at: usize, c: &mut [usize; Content::PLACES])
    ensures { Begins at (content_of c.new) }
{
    Content::new(c);
    placed(c, at);
    if at == 0 {
        next_section(c);
    }
}

// What stands behind the forward declarations.
fn write_body(
    s: &[u8],
    t: &[u32; Table::PLACES],
    pool: &[u8; Pool::BYTES],
    digests: &[u32],
    header: bool,
    doxygen: bool,
    kept: &[u32],
    c: &mut [usize; Content::PLACES],
    out: &mut [u8],
) -> usize
    requires { Lent s.now t.now pool.now × (digests.now ≡ digests_at s.now (names_in t.now)) ×
        Summaries s.now t.now kept.now × Representing s.now (names_in t.now) out.old (content_of c.old) }
    ensures { Ends s.now (names_in t.now) out.old out.new
        (write_functions (sheet_of header doxygen (items_of s.now t.now)))
        (content_of c.old) result }
{
    let mut offsets = [0u32; Words::MOST];
    write_functions(
        s,
        t,
        pool,
        digests,
        header,
        doxygen,
        kept,
        &mut offsets,
        c,
        out,
    );
    flush(s, t, pool, digests, c, out)
}

// The text, from the buffer's first byte on; the answer is the place behind it.
pub fn write_text(
    s: &[u8],
    t: &[u32; Table::PLACES],
    pool: &[u8; Pool::BYTES],
    digests: &[u32],
    header: bool,
    doxygen: bool,
    kept: &[u32],
    out: &mut [u8],
) -> usize
    requires { Lent s.now t.now pool.now × (digests.now ≡ digests_at s.now (names_in t.now)) ×
        Summaries s.now t.now kept.now }
    ensures { Wrote (sink out.old 0)
        (text (sheet_of header doxygen (items_of s.now t.now)))
        (sink out.new result) }
{
    let at = write_forward_declarations(s, t, pool, digests, out, 0);
    let mut c = [0usize; Content::PLACES];
    behind_forward(at, &mut c);
    write_body(s, t, pool, digests, header, doxygen, kept, &mut c, out)
}
