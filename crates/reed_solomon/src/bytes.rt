// The byte code by a remainder in one number: the same answers, sooner.
ghost use Rattle.std.specs.Prelude.{◌≡◌};
ghost use Rattle.coding_theory.specs.Galois.{bytes as field};
ghost use Rattle.reed_solomon.specs.Correction.{Corrected, EarlyBegins, LateRefused, OneCorrection};
ghost use Rattle.reed_solomon.specs.Encoding.{Encoded, OneEncoding};
ghost use Rattle.remainder.specs.Register.{SameValues, Zeros, bytes_of};

use crate::code::syndromes;
use crate::corrector::{Evaluation, decide};
use crate::encoder::join;
use crate::refusal::CodeRefusal;
use crate::table::Table256;
use remainder::{bytes_of, difference, number_of, remainder};

// The word of 204 bytes that begins with the message.
pub fn encode_bytes(message: &[u8; 188]) -> [u8; 204]
    ensures { Encoded field message.now result }
{
    let mut word = [0u8; 204];
    let checks = bytes_of(remainder(message));
    join(&mut word, message, &checks);
    word
}

// Sixteen bytes, as one number, with the syndromes of `word`: 0 exactly if it is a code word.
fn gap(word: &[u8; 204]) -> u128
    ensures values { SameValues (bytes_of 16 result) word.now }
    ensures clean { (result ≡ 0 → Zeros word.now) × (Zeros word.now → result ≡ 0) }
{
    let mut check = [0u8; 16];
    check.copy_from_slice(&word[188..204]);
    difference(&word[0..188], number_of(check))
}

// By the remainder, whose syndromes are those of the word.
struct Remainder {}

impl Evaluation<Table256> for Remainder {
    fn nonzero_syndromes(word: &[u8; 204]) -> Option<[u8; 16]> {
        let left = gap(word);
        if left == 0 {
            return None;
        }
        let mut s = [0u8; 16];
        syndromes::<Table256>(&bytes_of(left), 0, &mut s);
        Some(s)
    }

    fn is_zero(word: &[u8; 204]) -> bool {
        gap(word) == 0
    }
}

// What `correct` does over the field of bytes.
pub fn correct_bytes(word: &mut [u8]) -> Result<u8, CodeRefusal>
    ensures corrected { Corrected field word.old word.new result }
    ensures late { LateRefused field word.old word.new result }
    ensures early { EarlyBegins field word.old word.new result }
{
    decide::<Table256, Remainder>(word)
}

// The contracts of encoder and corrector leave one answer, so any two that meet them answer alike: tables and shifts, generic and fast.
pub fn answers_are_unique()
    ensures encoding { OneEncoding }
    ensures correction { OneCorrection }
{}
