// Words of the code: their values at powers of alpha.
ghost use Rattle.std.specs.Prelude.{◌≡◌, ℕ, ◌+◌, ◌<◌, ◌↔◌, length, Decides, IsTrue, slice_index};
ghost use Rattle.coding_theory.specs.Algebra.{plain};
ghost use Rattle.coding_theory.specs.Code.{CodeWord};
ghost use Rattle.coding_theory.specs.Words.{horner};
ghost use Rattle.reed_solomon.specs.Syndromes.{ZeroAt, values};

use crate::field::Field;

// The code of words of `length` symbols that are zero at alpha^first, alpha^(first+1), ..: `powers` of them.
#[derive(Clone, Copy, Debug, PartialEq, Eq)]
pub struct Code {
    pub length: usize,
    pub first: u64,
    pub powers: usize,
}

// The code of EN 300 749: 204 bytes, zero at alpha^0 to alpha^15.
pub const BYTE_CODE: Code = Code {
    length: 204,
    first: 0,
    powers: 16,
};

// The value at `x` of the polynomial whose coefficients are given from the highest down.
pub(crate) fn evaluate<F: Field>(coefficients: &[u8], x: u8) -> u8
    ensures { result ≡ horner (plain F.ops) x 0 coefficients.now }
{
    let mut value = 0;
    for c in coefficients {
        value = F::sum(F::product(value, x), *c);
    }
    value
}

// The values of `word` at alpha^first, alpha^(first+1), .., as many as `out` holds.
pub fn syndromes<F: Field>(word: &[u8], first: u64, out: &mut [u8])
    ensures { out.new ≡ values F.ops first (length out.old) word.now }
{
    let mut x = F::power(first);
    for value in out.iter_mut() {
        *value = evaluate::<F>(word, x);
        x = F::product(F::ALPHA, x);
    }
}

// Whether each symbol is an element of the field.
fn are_elements<F: Field>(word: &[u8]) -> bool
    ensures { IsTrue result ↔ ((k : ℕ) → k < length word.now → slice_index word.now k < F.ops.order) }
{
    word.iter().all(|symbol| (*symbol as usize) < F::SIZE)
}

// Whether `word` is zero at `count` powers of alpha from alpha^first on.
pub(crate) fn is_zero_at_powers<F: Field>(word: &[u8], first: u64, count: usize) -> bool
    ensures { IsTrue result ↔ ZeroAt F.ops first count word.now }
{
    let mut x = F::power(first);
    for _k in 0..count {
        if evaluate::<F>(word, x) != 0 {
            return false;
        }
        x = F::product(F::ALPHA, x);
    }
    true
}

// Whether `word` is a word of the code.
pub fn is_code_word<F: Field>(code: Code, word: &[u8]) -> bool
    ensures { Decides result (CodeWord F.ops code.length code.first code.powers word.now) }
{
    word.len() == code.length
        && are_elements::<F>(word)
        && is_zero_at_powers::<F>(word, code.first, code.powers)
}
