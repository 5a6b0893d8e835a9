// The field of bytes by shifts.
ghost use Rattle.coding_theory.specs.Galois.{bytes, times as plain};
ghost use Rattle.std.specs.Prelude.{◌≡◌, refl};
ghost use Rattle.coding_theory.proofs.Fields.{bytes_lawful};

use crate::field::Field;

// x times a: a shift, and x^8 replaced by x^4 + x^3 + x^2 + 1.
fn doubled(a: u8) -> u8
    ensures { result ≡ plain 8 285 2 a }
{
    if a < 128 { a << 1 } else { (a << 1) ^ 0x1d }
}

// The sum of a x^i over the powers x^i in b.
fn shifted_product(a: u8, b: u8) -> u8
    ensures { result ≡ plain 8 285 a b }
{
    let mut sum = 0;
    let mut term = a;
    let mut rest = b;
    for _i in 0..8u32 {
        if rest % 2 == 1 {
            sum ^= term;
        }
        term = doubled(term);
        rest /= 2;
    }
    sum
}

// The bytes modulo x^8 + x^4 + x^3 + x^2 + 1: a product adds shifted copies. Constants and sum are those of the field by tables as well: one
// implementation for both would need a trait under `Field` with laws of its own, for two numbers and one line.
pub struct Shift256 {}

impl Field for Shift256 {
    ghost ops = { bytes };

    ghost SIZE = { 256 };

    ghost ALPHA = { 2 };

    const SIZE: usize = 256;

    const ALPHA: u8 = 2;

    ghost lawful = { bytes_lawful };

    ghost size = { refl };

    ghost alpha = { refl };

    fn sum(a: u8, b: u8) -> u8 {
        a ^ b
    }

    fn product(a: u8, b: u8) -> u8 {
        shifted_product(a, b)
    }

    // a^254, since a^255 is 1
    fn inverse(a: u8) -> u8 {
        let mut value = 1;
        for _i in 0..254u32 {
            value = shifted_product(a, value);
        }
        value
    }

    fn power(e: u64) -> u8 {
        let mut value = 1;
        for _i in 0..e % 255 {
            value = doubled(value);
        }
        value
    }
}
