//! The services with numbers for answers, as C and Rust get them. exports_c gives them C's symbols.
#![tactic(auto)]

ghost use Rattle.std.specs.Prelude.{◌≡◌, ◌<◌, ◌^◌, pos, neg_ℤ};
ghost use Rattle.refusal.specs.Refusal.{number_of};
ghost use Rattle.services.specs.Services.{written_code};
ghost use Rattle.exports.specs.Codes.{ChecksCode, OrdersCode, WritesCode, length_of};

use check_sheet::check;
use refusal::Refusal;
use struct_order::struct_order;
use write_sheet::write;

// Across C linkage a refusal is its number negated.
fn refusal_code(e: Refusal) -> i64
    ensures { result ≡ neg_ℤ (pos (number_of e)) }
{
    -i64::from(u8::from(e))
}

// Any bytes: 0 if the sheet is accepted, else the refusal's number negated.
pub fn bridgetext_check(sheet: &[u8]) -> i64
    ensures { ChecksCode sheet.now result }
{
    match check(sheet) {
        Ok(()) => 0,
        Err(e) => refusal_code(e),
    }
}

// A length, or the refusal's number negated.
fn written_code(w: Result<usize, Refusal>) -> i64
    requires { length_of w < 2 ^ 63 }
    ensures { result ≡ written_code w }
{
    match w {
        Ok(n) => n as i64,
        Err(refusal) => refusal_code(refusal),
    }
}

// Any bytes: the length of the list at the front of `buf`, or the refusal's number negated.
pub fn bridgetext_struct_order(sheet: &[u8], buf: &mut [u8]) -> i64
    ensures { OrdersCode sheet.now buf.old result buf.new }
{
    written_code(struct_order(sheet, buf))
}

// Any bytes: the length of the text at the front of `buf`, or the refusal's number negated.
pub fn bridgetext_write(sheet: &[u8], buf: &mut [u8]) -> i64
    ensures { WritesCode sheet.now buf.old result buf.new }
{
    written_code(write(sheet, buf))
}
