// A sheet, checked for the refusals 1 to 8, with tables of where its names and its items stand, of the names' digests,
// and of what its items name.
#![tactic(auto)]

ghost use Rattle.std.specs.Prelude.{◌≡◌, ◌≤◌, length};
ghost use Rattle.lexical.specs.Names.{table_of};
ghost use Rattle.format.specs.Limits.{most_names, most_items};
ghost use Rattle.format.specs.Sheet.{Sheet};
ghost use Rattle.format.specs.Decoding.{tail, sheet as sheet_of, decode as decodeOf};
ghost use Rattle.cursor.specs.Checking.{Limited, Checks};
ghost use Rattle.names.specs.Naming.{names_at, Named};
ghost use Rattle.names.specs.Digests.{digests_at};
ghost use Rattle.decode.specs.Tables.{behind_names, behind_bits, AnswersItems, Answers};

use cursor::{Cursor, read};
use format::Outline;
use items::check_items;
use marks::Mark;
use names::check_names;
use refusal::Refusal;

// Zero bits up to the byte's end, and no byte more.
fn check_tail(s: &[u8], c: Cursor) -> Result<Cursor, Refusal>
    requires { Limited s.now }
    ensures { (x : Sheet) → Checks (tail x s.now c.at) result }
{
    let pad = (8 - c.at % 8) % 8;
    let zeros = read(s, c, pad)?;
    if zeros.value != 0 {
        return Err(Refusal::Tail);
    }
    let bytes = (zeros.next.at / 8) as usize;
    if bytes == s.len() {
        return Ok(zeros.next);
    }
    Err(Refusal::Tail)
}

// The item table and the tail at c, behind the names.
fn decode_items(
    s: &[u8],
    names: &[u32],
    digests: &[u32],
    c: Cursor,
    header: bool,
    doxygen: bool,
    items: &mut [u32],
    marks: &mut [u8],
) -> Result<Outline, Refusal>
    requires { Named s.now names.now × (digests.now ≡ digests_at s.now names.now) ×
        (most_items ≤ length items.old) }
    ensures { AnswersItems s.now (names_at s.now names.now)
        (behind_names header doxygen (names_at s.now names.now) s.now c.at) result
        items.new marks.old marks.new }
{
    let count = read(s, c, 8)?;
    let next = check_items(s, names, digests, count.next, count.value, items, marks)?;
    check_tail(s, next)?;
    Ok(Outline {
        header,
        doxygen,
        names: names.len() as u32,
        items: count.value,
    })
}

// Both tables and the tail at c, in a sheet of that edition.
fn decode_tables(
    s: &[u8],
    c: Cursor,
    edition: u32,
    header: bool,
    doxygen: bool,
    names: &mut [u32],
    items: &mut [u32],
    digests: &mut [u32],
    marks: &mut [u8],
) -> Result<Outline, Refusal>
    requires { Limited s.now × (most_names ≤ length names.old) × (most_items ≤ length items.old) ×
        (most_names ≤ length digests.old) }
    ensures { Answers s.now (behind_bits (table_of edition) header doxygen s.now c.at) result
        names.new items.new digests.new marks.old marks.new }
{
    let count = read(s, c, 10)?;
    let next = check_names(s, count.next, edition, count.value, names, digests)?;
    let n = count.value as usize;
    decode_items(
        s,
        &names[..n],
        &digests[..n],
        next,
        header,
        doxygen,
        items,
        marks,
    )
}

// The sheet at c.
fn decode_fields(
    s: &[u8],
    c: Cursor,
    names: &mut [u32],
    items: &mut [u32],
    digests: &mut [u32],
    marks: &mut [u8],
) -> Result<Outline, Refusal>
    requires { Limited s.now × (most_names ≤ length names.old) × (most_items ≤ length items.old) ×
        (most_names ≤ length digests.old) }
    ensures { Answers s.now (sheet_of s.now c.at) result
        names.new items.new digests.new marks.old marks.new }
{
    let edition = read(s, c, 4)?;
    if edition.value == 0 || Outline::LAST_EDITION < edition.value {
        return Err(Refusal::Edition);
    }
    let header = read(s, edition.next, 1)?;
    let doxygen = read(s, header.next, 1)?;
    decode_tables(
        s,
        doxygen.next,
        edition.value,
        header.value == 1,
        doxygen.value == 1,
        names,
        items,
        digests,
        marks,
    )
}

// A sheet: the first refusal of 1 to 8, or the four tables filled.
pub fn decode(
    sheet: &[u8],
    names: &mut [u32; Outline::NAMES],
    items: &mut [u32; Outline::ITEMS],
    digests: &mut [u32; Outline::NAMES],
    marks: &mut [u8; Mark::PLACES],
) -> Result<Outline, Refusal>
    ensures { Answers sheet.now (decodeOf sheet.now) result
        names.new items.new digests.new marks.old marks.new }
{
    if Cursor::SHEET < sheet.len() {
        return Err(Refusal::CutSheet);
    }
    decode_fields(sheet, Cursor::new(0), names, items, digests, marks)
}
