//! The services as C and Rust call them: the functions of exports, with their clauses, under C's symbols.
#![tactic(auto)]

ghost use Rattle.exports.specs.Codes.{ChecksCode, OrdersCode, WritesCode};

// Any bytes: 0 if the sheet is accepted, else the refusal's number negated.
#[unsafe(no_mangle)]
pub extern "C" fn bridgetext_check(sheet: &[u8]) -> i64
    ensures { ChecksCode sheet.now result }
{
    exports::bridgetext_check(sheet)
}

// Any bytes: the length of the list at the front of `buf`, or the refusal's number negated.
#[unsafe(no_mangle)]
pub extern "C" fn bridgetext_struct_order(sheet: &[u8], buf: &mut [u8]) -> i64
    ensures { OrdersCode sheet.now buf.old result buf.new }
{
    exports::bridgetext_struct_order(sheet, buf)
}

// Any bytes: the length of the text at the front of `buf`, or the refusal's number negated.
#[unsafe(no_mangle)]
pub extern "C" fn bridgetext_write(sheet: &[u8], buf: &mut [u8]) -> i64
    ensures { WritesCode sheet.now buf.old result buf.new }
{
    exports::bridgetext_write(sheet, buf)
}
