// Fields that are known to be there.
ghost use Rattle.std.specs.Prelude.{◌≤◌};
ghost use Rattle.format.specs.Bits.{bits};
ghost use Rattle.cursor.specs.Checking.{Limited};
ghost use Rattle.cursor.specs.Yielding.{Finds};

use crate::{Cursor, Found, read};

// The field of n bits at c.
pub fn field(s: &[u8], c: Cursor, n: u32) -> Found
    requires { Limited s.now × (n ≤ 32) }
    ensures { Finds (bits n s.now c.at) n result }
{
    match read(s, c, n) {
        Ok(f) => f,
        Err(_) => Found {
            value: 0,
            next: Cursor::new(0),
        },
    }
}
