// The two fields of bytes answer alike.
ghost use Rattle.std.specs.Prelude.{◌≡◌, true};

use crate::field::Field;
use crate::shift::Shift256;
use crate::table::Table256;

// True for all numbers: sum, product, inverse and power are the same by tables and by shifts.
pub fn byte_fields_agree(a: u8, b: u8, e: u64) -> bool
    ensures { result ≡ true }
{
    Table256::sum(a, b) == Shift256::sum(a, b)
        && Table256::product(a, b) == Shift256::product(a, b)
        && Table256::inverse(a) == Shift256::inverse(a)
        && Table256::power(e) == Shift256::power(e)
}
