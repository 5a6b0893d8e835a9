// Correction of up to eight wrong bytes in a word of 204.
ghost use Rattle.std.specs.Prelude.{◌≡◌, ℕ, ◌<◌, ◌↔◌, List, length, Some, None, IsTrue, slice_index};
ghost use Rattle.coding_theory.specs.Words.{differ};
ghost use Rattle.reed_solomon.specs.Correction.{Corrected, EarlyBegins, LateRefused, Near};
ghost use Rattle.reed_solomon.specs.Syndromes.{Evaluated, ZeroAt, values};

use crate::code::{is_zero_at_powers, syndromes};
use crate::field::Field;
use crate::refusal::{CodeFault, CodeRefusal};
use crate::repair::restore;

// How many wrong bytes are corrected.
const CORRECTABLE: usize = 8;

// How many coefficients a polynomial with as many roots has.
const WIDTH: usize = CORRECTABLE + 1;

// No code word is within reach.
const NO_WORD: CodeRefusal = CodeRefusal::Fault(CodeFault {
    number: 11,
    frame: 0,
    layer: 1,
});

// A way to find a word's syndromes over a field.
pub(crate) trait Evaluation<F: Field> {
    // The syndromes of `word`, or nothing if all are 0.
    fn nonzero_syndromes(word: &[u8; 204]) -> Option<[u8; 16]>
        ensures { Evaluated F.ops word.now result };

    // Whether all are 0: told without finding those behind the first that is not.
    fn is_zero(word: &[u8; 204]) -> bool
        ensures { IsTrue result ↔ ZeroAt F.ops 0 16 word.now };
}

// At how many places two words of one length differ.
fn distance(a: &[u8], b: &[u8]) -> usize
    requires { length a.now ≡ length b.now }
    ensures { result ≡ differ a.now b.now }
{
    a.iter().zip(b).filter(|(x, y)| **x != **y).count()
}

// Whether all are 0.
fn are_zero(s: &[u8]) -> bool
    ensures { IsTrue result ↔ ((k : ℕ) → k < length s.now → slice_index s.now k ≡ 0) }
{
    s.iter().all(|value| *value == 0)
}

// By the values at the powers of alpha one by one, over any field.
struct Horner {}

impl<F: Field> Evaluation<F> for Horner {
    fn nonzero_syndromes(word: &[u8; 204]) -> Option<[u8; 16]> {
        let mut s = [0u8; 16];
        syndromes::<F>(word, 0, &mut s);
        if are_zero(&s) { None } else { Some(s) }
    }

    fn is_zero(word: &[u8; 204]) -> bool {
        is_zero_at_powers::<F>(word, 0, 16)
    }
}

// Takes `fixed` for the word if it is a code word within eight bytes of it.
fn settle<F: Field, E: Evaluation<F>>(word: &mut [u8], fixed: &[u8; 204]) -> Result<u8, CodeRefusal>
    requires word_len { length word.old ≡ 204 }
    requires order_value { F.ops.order ≡ 256 }
    requires by_index { (c : List ℕ) → F.ops.order ≡ 256 → Near F.ops word.old c → fixed.now ≡ c }
    ensures { Corrected F.ops word.old word.new result }
{
    let count = distance(fixed, word);
    if count > CORRECTABLE {
        return Err(NO_WORD);
    }
    if !E::is_zero(fixed) {
        return Err(NO_WORD);
    }
    word.copy_from_slice(fixed);
    Ok(count as u8)
}

// The code word within eight bytes, or the fault.
pub(crate) fn decide<F: Field, E: Evaluation<F>>(word: &mut [u8]) -> Result<u8, CodeRefusal>
    ensures { Corrected F.ops word.old word.new result }
{
    let Some(received) = word.as_array::<204>() else {
        return Err(CodeRefusal::Length);
    };
    if F::SIZE != 256 {
        return Err(NO_WORD);
    }
    let Some(s) = E::nonzero_syndromes(received) else {
        return Ok(0);
    };
    let Some(fixed) = restore::<F, 204, WIDTH>(*received, &s, 0) else {
        return Err(NO_WORD);
    };
    settle::<F, E>(word, &fixed)
}

// Puts the code word within eight bytes of `word` in its place, and answers how many bytes differed; a word read one to four bytes late
// is refused, and one read early is refused or begins with 0.
pub fn correct<F: Field>(word: &mut [u8]) -> Result<u8, CodeRefusal>
    ensures corrected { Corrected F.ops word.old word.new result }
    ensures late { LateRefused F.ops word.old word.new result }
    ensures early { EarlyBegins F.ops word.old word.new result }
{
    decide::<F, Horner>(word)
}
