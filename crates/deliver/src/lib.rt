// The text into the lent buffer: once where it is short, else measured first; or 13.
#![tactic(auto)]

ghost use Rattle.std.specs.Prelude.{◌≡◌};
ghost use Rattle.bridge.specs.Write.{text};
ghost use Rattle.names.specs.Digests.{digests_at};
ghost use Rattle.tables.specs.Tables.{names_in, items_of, Lent};
ghost use Rattle.summary.specs.Summaries.{Summaries};
ghost use Rattle.sections.specs.Runs.{sheet_of};
ghost use Rattle.deliver.specs.Delivers.{Delivers};

use refusal::Refusal;
use sink::put_bytes;
use tables::{Pool, Table};
use write::write_text;

// Writes the text where it fits. It is written beside the buffer first, into bytes that may be too few to hold it.
pub fn deliver_text(
    s: &[u8],
    t: &[u32; Table::PLACES],
    pool: &[u8; Pool::BYTES],
    digests: &[u32],
    header: bool,
    doxygen: bool,
    kept: &[u32],
    short: &mut [u8],
    buf: &mut [u8],
) -> Result<usize, Refusal>
    requires { Lent s.now t.now pool.now × (digests.now ≡ digests_at s.now (names_in t.now)) ×
        Summaries s.now t.now kept.now }
    ensures { Delivers (text (sheet_of header doxygen (items_of s.now t.now)))
        buf.old result buf.new }
{
    let length = write_text(s, t, pool, digests, header, doxygen, kept, short);
    if buf.len() < length {
        return Err(Refusal::Overrun);
    }
    if length <= short.len() {
        put_bytes(buf, 0, &short[..length]);
        return Ok(length);
    }
    write_text(
        s,
        t,
        pool,
        digests,
        header,
        doxygen,
        kept,
        &mut buf[..length],
    );
    Ok(length)
}
