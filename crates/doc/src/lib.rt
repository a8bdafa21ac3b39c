// Comments.
#![tactic(auto)]

ghost use Rattle.std.specs.Prelude.{◌&&◌, [], ◌++◌, ◌≡◌, eqb};
ghost use Rattle.lexical.specs.Bytes.{bytes};
ghost use Rattle.lexical.specs.Decimal.{pick_text};
ghost use Rattle.sink.specs.Sink.{sink, Wrote};
ghost use Rattle.format.specs.Decode.{many};
ghost use Rattle.format.specs.Decoding.{line};
ghost use Rattle.rules.specs.Rules.{gather};
ghost use Rattle.bridge.specs.Write.{write_doc};
ghost use Rattle.cursor.specs.Checking.{Limited};
ghost use Rattle.view.specs.Values.{value_or, next_of, Yields};
ghost use Rattle.view.specs.Views.{comment_lines};

use cursor::Cursor;
use cursor::fields::field;
use put_name::put_chars;
use sink::{put_bytes, put_when};

// Where a writer is: in the text, and behind the line that it has written.
#[derive(Clone, Copy)]
struct WrittenLine {
    at: usize,
    next: Cursor,
}

// The slashes before a line.
fn put_slashes(doxygen: bool, out: &mut [u8], at: usize) -> usize
    ensures { Wrote (sink out.old at) (pick_text doxygen (bytes "///") (bytes "//"))
        (sink out.new result) }
{
    if doxygen {
        return put_bytes(out, at, b"///");
    }
    put_bytes(out, at, b"//")
}

// The line at c.
fn write_line(s: &[u8], doxygen: bool, c: Cursor, out: &mut [u8], at: usize) -> WrittenLine
    requires { Limited s.now × Yields (line s.now c.at) (value_or [] (line s.now c.at)) }
    ensures { Wrote (sink out.old at)
        (pick_text doxygen (bytes "///") (bytes "//") ++ value_or [] (line s.now c.at) ++ bytes "\n")
        (sink out.new result.at) × (result.next.at ≡ next_of (line s.now c.at)) }
{
    let length = field(s, c, 7);
    let a = put_slashes(doxygen, out, at);
    let b = put_chars(s, length.next, length.value, out, a);
    let here = put_bytes(out, b, b"\n");
    let end = length.next.at + length.value * 7;
    let next = Cursor::new(end);
    WrittenLine { at: here, next }
}

// The n lines at c.
fn write_lines(s: &[u8], doxygen: bool, c: Cursor, n: u32, out: &mut [u8], at: usize) -> usize
    requires { Limited s.now × Yields (many n line s.now c.at) (value_or [] (many n line s.now c.at)) }
    ensures { Wrote (sink out.old at)
        (gather (λ l. pick_text doxygen (bytes "///") (bytes "//") ++ l ++ bytes "\n")
        (value_or [] (many n line s.now c.at))) (sink out.new result) }
{
    let mut here = at;
    let mut next = c;
    for _ in 0..n {
        let w = write_line(s, doxygen, next, out, here);
        here = w.at;
        next = w.next;
    }
    here
}

// Whether one line more follows.
fn is_alone(doxygen: bool, n: u32) -> bool
    ensures { result ≡ doxygen && eqb n 1 }
{
    doxygen && n == 1
}

// The comment whose number of lines stands at c.
pub fn write_doc(s: &[u8], doxygen: bool, c: Cursor, out: &mut [u8], at: usize) -> usize
    requires { Limited s.now ×
        Yields (comment_lines s.now c.at) (value_or [] (comment_lines s.now c.at)) }
    ensures { Wrote (sink out.old at)
        (write_doc doxygen (value_or [] (comment_lines s.now c.at))) (sink out.new result) }
{
    let count = field(s, c, 5);
    let here = write_lines(s, doxygen, count.next, count.value, out, at);
    let alone = is_alone(doxygen, count.value);
    put_when(out, here, alone, b"///\n")
}
