// Declarations, layouts and shims, each in its namespace and section: the port of the parts of write.rs that write an
// item. Every function is lent the sheet, the table and the pool, the digests of the names, and the buffer; a
// function's writer also the summaries that are kept, and room for one.
#![tactic(auto)]

ghost use Rattle.std.specs.Prelude.{◌≡◌, false, ◌≤◌, length};
ghost use Rattle.format.specs.declared.ItemKind.TheVariants.{RustFunction};
ghost use Rattle.syntax.specs.Items.{item_at};
ghost use Rattle.bridge.specs.Write.{write_rust_function_decl, write_opaque_type_layout_decls, layout_definition};
ghost use Rattle.bridge.specs.Write.{write_opaque_type_layout};
ghost use Rattle.names.specs.Digests.{digests_at};
ghost use Rattle.out.specs.State.{content_of};
ghost use Rattle.view.specs.Views.{form_of};
ghost use Rattle.sections.specs.Runs.{Representing, Runs, hidden_form, section_of, shim_section, sheet_of};
ghost use Rattle.summary.specs.Summaries.{Summaries};
ghost use Rattle.tables.specs.Tables.{names_in, items_of, function_of, Item, Lent};

use content::{begin_extern_c, end_extern_c, set_namespace};
use declaration::{write_function_decl, write_layout_decl, write_layout_definition};
use out::{Content, next_section, placed, prepare};
use shim::write_function_shim;
use summary::load_summary;
use tables::{Pool, Table, function};
use view::{FormView, ItemView};

// ---- declarations

pub fn write_rust_function_decl(
    s: &[u8],
    t: &[u32; Table::PLACES],
    pool: &[u8; Pool::BYTES],
    digests: &[u32],
    v: ItemView,
    kept: &[u32],
    offsets: &mut [u32],
    c: &mut [usize; Content::PLACES],
    out: &mut [u8],
)
    requires { Lent s.now t.now pool.now × (digests.now ≡ digests_at s.now (names_in t.now)) ×
        Item s.now t.now v × (v.kind ≡ RustFunction) × Summaries s.now t.now kept.now ×
        (36 ≤ length offsets.old) × Representing s.now (names_in t.now) out.old (content_of c.old) }
    ensures { Runs s.now (names_in t.now) out.old out.new
        (write_rust_function_decl (items_of s.now t.now)
        (item_at (items_of s.now t.now) v.number)
        (function_of s.now t.now v.number)) (content_of c.old)
        (content_of c.new) }
{
    let f = function(s, t, v);
    load_summary(s, t, f, kept, offsets);
    set_namespace(s, t, digests, c, v);
    begin_extern_c(s, t, digests, c);
    next_section(c);
    prepare(s, t, pool, c, out);
    let at = write_function_decl(s, t, pool, v, f, offsets, out, c[Content::AT]);
    placed(c, at);
    end_extern_c(s, t, digests, c);
}

pub fn write_opaque_type_layout_decls(
    s: &[u8],
    t: &[u32; Table::PLACES],
    pool: &[u8; Pool::BYTES],
    digests: &[u32],
    v: ItemView,
    c: &mut [usize; Content::PLACES],
    out: &mut [u8],
)
    requires { Lent s.now t.now pool.now × (digests.now ≡ digests_at s.now (names_in t.now)) ×
        Item s.now t.now v × Representing s.now (names_in t.now) out.old (content_of c.old) }
    ensures { Runs s.now (names_in t.now) out.old out.new
        (write_opaque_type_layout_decls
        (item_at (items_of s.now t.now) v.number)) (content_of c.old)
        (content_of c.new) }
{
    set_namespace(s, t, digests, c, v);
    begin_extern_c(s, t, digests, c);
    prepare(s, t, pool, c, out);
    let next = write_layout_decl(s, t, pool, v, b"sizeof", out, c[Content::AT]);
    let at = write_layout_decl(s, t, pool, v, b"alignof", out, next);
    placed(c, at);
    end_extern_c(s, t, digests, c);
}

// ---- definitions

// The definition of one of the two, where the type's namespace is set.
fn write_layout(
    s: &[u8],
    t: &[u32; Table::PLACES],
    pool: &[u8; Pool::BYTES],
    v: ItemView,
    member: &[u8],
    name: &[u8],
    c: &mut [usize; Content::PLACES],
    out: &mut [u8],
)
    requires { Lent s.now t.now pool.now × Item s.now t.now v ×
        Representing s.now (names_in t.now) out.old (content_of c.old) }
    ensures { Runs s.now (names_in t.now) out.old out.new
        (section_of (layout_definition
        (item_at (items_of s.now t.now) v.number)
        member.now name.now)) (content_of c.old)
        (content_of c.new) }
{
    next_section(c);
    prepare(s, t, pool, c, out);
    let at = write_layout_definition(s, t, pool, v, member, name, out, c[Content::AT]);
    placed(c, at);
}

pub fn write_opaque_type_layout(
    s: &[u8],
    t: &[u32; Table::PLACES],
    pool: &[u8; Pool::BYTES],
    digests: &[u32],
    v: ItemView,
    c: &mut [usize; Content::PLACES],
    out: &mut [u8],
)
    requires { Lent s.now t.now pool.now × (digests.now ≡ digests_at s.now (names_in t.now)) ×
        Item s.now t.now v × Representing s.now (names_in t.now) out.old (content_of c.old) }
    ensures { Runs s.now (names_in t.now) out.old out.new
        (write_opaque_type_layout false
        (item_at (items_of s.now t.now) v.number)) (content_of c.old)
        (content_of c.new) }
{
    set_namespace(s, t, digests, c, v);
    write_layout(s, t, pool, v, b"size", b"sizeof", c, out);
    write_layout(s, t, pool, v, b"align", b"alignof", c, out);
}

fn is_hidden(header: bool, form: FormView) -> bool
    ensures { result ≡ hidden_form header (form_of form) }
{
    header && form.self_type().is_some()
}

// Behind a section.
pub fn write_rust_function_shim(
    s: &[u8],
    t: &[u32; Table::PLACES],
    pool: &[u8; Pool::BYTES],
    digests: &[u32],
    header: bool,
    doxygen: bool,
    v: ItemView,
    kept: &[u32],
    offsets: &mut [u32],
    c: &mut [usize; Content::PLACES],
    out: &mut [u8],
)
    requires { Lent s.now t.now pool.now × (digests.now ≡ digests_at s.now (names_in t.now)) ×
        Item s.now t.now v × (v.kind ≡ RustFunction) × Summaries s.now t.now kept.now ×
        (36 ≤ length offsets.old) × Representing s.now (names_in t.now) out.old (content_of c.old) }
    ensures { Runs s.now (names_in t.now) out.old out.new
        (shim_section
        (sheet_of header doxygen (items_of s.now t.now))
        (item_at (items_of s.now t.now) v.number)
        (function_of s.now t.now v.number)) (content_of c.old)
        (content_of c.new) }
{
    let f = function(s, t, v);
    let comment = load_summary(s, t, f, kept, offsets);
    next_section(c);
    set_namespace(s, t, digests, c, v);
    if is_hidden(header, f.form) {
        return;
    }
    prepare(s, t, pool, c, out);
    let at = write_function_shim(
        s,
        t,
        pool,
        header,
        doxygen,
        v,
        f,
        offsets,
        comment,
        out,
        c[Content::AT],
    );
    placed(c, at);
}
