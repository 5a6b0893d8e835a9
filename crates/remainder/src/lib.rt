// The remainder by the generator polynomial of the code with sixteen check bytes, four bytes at a step.
#![tactic(auto)]

ghost use Rattle.std.specs.Prelude.{◌≡◌, ◌<◌, ◌++◌, fold};
ghost use Rattle.remainder.specs.Register.{SameValues, Zeros, absorbed, bytes_of, combined, rows_after};

mod multiples;

use multiples::MULTIPLES;

// The low sixteen bytes of `f` times the generator polynomial, after as many more shifts of the register.
fn multiple(shifts: usize, f: u8) -> u128
    requires { shifts < 4 }
    ensures { result ≡ combined (rows_after shifts) f }
{
    MULTIPLES[shifts][f as usize]
}

// The register after one byte more.
fn absorb(state: u128, byte: u8) -> u128
    ensures { result ≡ absorbed state byte }
{
    (state << 8) ^ multiple(0, (state >> 120) as u8 ^ byte)
}

// Four bytes at once.
fn absorb_four(state: u128, bytes: &[u8; 4]) -> u128
    ensures { result ≡ fold absorbed state bytes.now }
{
    let [a, b, c, d] = *bytes;
    (state << 32)
        ^ multiple(3, (state >> 120) as u8 ^ a)
        ^ multiple(2, ((state >> 112) % 256) as u8 ^ b)
        ^ multiple(1, ((state >> 104) % 256) as u8 ^ c)
        ^ multiple(0, ((state >> 96) % 256) as u8 ^ d)
}

// The register after all of the bytes.
fn absorb_all(bytes: &[u8]) -> u128
    ensures { result ≡ fold absorbed 0 bytes.now }
{
    let (fours, rest) = bytes.as_chunks::<4>();
    let state = fours.iter().fold(0, |state, four| absorb_four(state, four));
    rest.iter().fold(state, |state, byte| absorb(state, *byte))
}

// The check bytes, as one number: the bytes followed by these sixteen are zero at alpha^0 to alpha^15.
pub fn remainder(bytes: &[u8]) -> u128
    ensures { Zeros (bytes.now ++ bytes_of 16 result) }
{
    absorb_all(bytes)
}

// Sixteen bytes, as one number, with the same values at alpha^0 to alpha^15 as the front followed by the check bytes: 0 exactly if these are zero.
pub fn difference(front: &[u8], check: u128) -> u128
    ensures values { SameValues (bytes_of 16 result) (front.now ++ bytes_of 16 check) }
    ensures clean { (result ≡ 0 → Zeros (front.now ++ bytes_of 16 check)) × (Zeros (front.now ++ bytes_of 16 check) → result ≡ 0) }
{
    remainder(front) ^ check
}

// The number that sixteen bytes write, and the bytes of a number, the highest first.
pub fn number_of(bytes: [u8; 16]) -> u128
    ensures { bytes_of 16 result ≡ bytes }
{
    u128::from_be_bytes(bytes)
}

pub fn bytes_of(number: u128) -> [u8; 16]
    ensures { result ≡ bytes_of 16 number }
{
    number.to_be_bytes()
}
