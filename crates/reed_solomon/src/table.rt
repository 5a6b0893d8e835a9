// The field of bytes by two tables.
ghost use Rattle.std.specs.Prelude.{◌≡◌, ◌<◌, ◌%◌, refl};
ghost use Rattle.coding_theory.specs.Galois.{bytes, pow as powered};
ghost use Rattle.coding_theory.proofs.Fields.{bytes_lawful};

use crate::exponents::EXPONENTS;
use crate::field::Field;
use crate::powers::POWERS;

fn power_at(k: usize) -> u8
    requires { k < 255 }
    ensures { result ≡ powered 8 285 k }
{
    POWERS[k]
}

fn exponent_of(a: u8) -> usize
    requires { 0 < a }
    ensures { (result < 255) × (powered 8 285 result ≡ a) }
{
    EXPONENTS[a as usize] as usize
}

// The remainder by 255 of a sum of two exponents, without a division.
fn reduced(e: usize) -> usize
    requires { e < 510 }
    ensures { result ≡ e % 255 }
{
    if e < 255 { e } else { e - 255 }
}

// The bytes modulo x^8 + x^4 + x^3 + x^2 + 1: a product adds exponents.
pub struct Table256 {}

impl Field for Table256 {
    ghost ops = { bytes };

    ghost SIZE = { 256 };

    ghost ALPHA = { 2 };

    const SIZE: usize = 256;

    const ALPHA: u8 = 2;

    ghost lawful = { bytes_lawful };

    ghost size = { refl };

    ghost alpha = { refl };

    fn sum(a: u8, b: u8) -> u8 {
        a ^ b
    }

    fn product(a: u8, b: u8) -> u8 {
        if a == 0 || b == 0 {
            0
        } else {
            power_at(reduced(exponent_of(a) + exponent_of(b)))
        }
    }

    fn inverse(a: u8) -> u8 {
        if a == 0 {
            0
        } else {
            power_at((255 - exponent_of(a)) % 255)
        }
    }

    fn power(e: u64) -> u8 {
        power_at((e % 255) as usize)
    }
}
