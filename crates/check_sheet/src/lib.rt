// The check service: what documents 01 and 02 answer to any bytes.
#![tactic(auto)]

ghost use Rattle.std.specs.Prelude.{◌≡◌, ◌≤◌, length, replicate};
ghost use Rattle.format.specs.Limits.{most_names, most_items};
ghost use Rattle.format.specs.Decoding.{decode as decodeOf};
ghost use Rattle.decode.specs.Tables.{Tables, Answers};
ghost use Rattle.marks.specs.Marking.{places};
ghost use Rattle.judge.specs.Marked.{Marked};
ghost use Rattle.rules.specs.Judge.{check as checkOf};
ghost use Rattle.view.specs.Values.{items_at, Ready};
ghost use Rattle.check_sheet.specs.Ruled.{ruled_parts, ringed, ruled_items};

use decode::decode;
use format::Outline;
use judge::{unfit_argument, wrong_part};
use marks::Mark;
use order::{ring, ring_in};
use refusal::Refusal;
use taken::taken;
use toposort::Traversal;

// Rules 9 to 11, the lowest number first.
pub fn judge_parts(
    s: &[u8],
    names: &[u32],
    items: &[u32],
    digests: &[u32],
    marks: &[u8; Mark::PLACES],
) -> Result<(), Refusal>
    requires { Ready s.now names.now items.now digests.now ×
        Marked s.now names.now items.now marks.now }
    ensures { result ≡ ruled_parts (items_at s.now names.now items.now) }
{
    if wrong_part(s, names, items, marks) {
        return Err(Refusal::WrongPart);
    }
    if taken(s, names, items, digests, marks) {
        return Err(Refusal::Taken);
    }
    if unfit_argument(s, names, items, marks) {
        return Err(Refusal::UnfitArgument);
    }
    Ok(())
}

// Rule 12, where it is known whether there is a ring.
fn judge_ring(ring: bool) -> Result<(), Refusal>
    ensures { result ≡ ringed ring }
{
    if ring {
        return Err(Refusal::Ring);
    }
    Ok(())
}

// Rules 9 to 12, the lowest number first.
pub fn judge(
    s: &[u8],
    names: &[u32],
    items: &[u32],
    digests: &[u32],
    marks: &[u8; Mark::PLACES],
) -> Result<(), Refusal>
    requires { Ready s.now names.now items.now digests.now ×
        Marked s.now names.now items.now marks.now }
    ensures { result ≡ ruled_items (items_at s.now names.now items.now) }
{
    judge_parts(s, names, items, digests, marks)?;
    judge_ring(ring(s, names, items))
}

// The same, where the bytes for what each struct holds are lent.
pub fn judge_in(
    s: &[u8],
    names: &[u32],
    items: &[u32],
    digests: &[u32],
    marks: &[u8; Mark::PLACES],
    held: &mut [u8; Traversal::HELD],
) -> Result<(), Refusal>
    requires { Ready s.now names.now items.now digests.now ×
        Marked s.now names.now items.now marks.now }
    ensures { result ≡ ruled_items (items_at s.now names.now items.now) }
{
    judge_parts(s, names, items, digests, marks)?;
    judge_ring(ring_in(s, names, items, held))
}

// A decoded sheet, with the four tables that its decoding filled.
fn check_decoded(
    sheet: &[u8],
    names: &[u32],
    items: &[u32],
    digests: &[u32],
    marks: &[u8; Mark::PLACES],
    o: Outline,
) -> Result<(), Refusal>
    requires { Tables sheet.now (decodeOf sheet.now) o names.now items.now digests.now
        (replicate places 0) marks.now × (most_names ≤ length names.now) × (most_items ≤ length items.now) ×
        (most_names ≤ length digests.now) }
    ensures { result ≡ checkOf sheet.now }
{
    let n = o.names as usize;
    let k = o.items as usize;
    judge(sheet, &names[..n], &items[..k], &digests[..n], marks)
}

// The answer to a sheet, from that of its decoding.
fn answer(
    sheet: &[u8],
    names: &[u32; Outline::NAMES],
    items: &[u32; Outline::ITEMS],
    digests: &[u32; Outline::NAMES],
    marks: &[u8; Mark::PLACES],
    d: Result<Outline, Refusal>,
) -> Result<(), Refusal>
    requires { Answers sheet.now (decodeOf sheet.now) d names.now items.now digests.now
        (replicate places 0) marks.now }
    ensures { result ≡ checkOf sheet.now }
{
    let o = d?;
    check_decoded(sheet, names, items, digests, marks, o)
}

// Any bytes: accepted, or the refusal.
pub fn check(sheet: &[u8]) -> Result<(), Refusal>
    ensures { result ≡ checkOf sheet.now }
{
    let mut names = [0u32; Outline::NAMES];
    let mut items = [0u32; Outline::ITEMS];
    let mut digests = [0u32; Outline::NAMES];
    let mut marks = [0u8; Mark::PLACES];
    let d = decode(sheet, &mut names, &mut items, &mut digests, &mut marks);
    answer(sheet, &names, &items, &digests, &marks, d)
}
