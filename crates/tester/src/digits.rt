// Bytes as hex digits, in either case.
ghost use Rattle.std.specs.Prelude.{◌≡◌, ℕ, ◌<◌, true, false, length, if◌then◌else◌, is_some, MatchOption, slice_index};
ghost use Rattle.tester.specs.Hex.{Writes, bytes_of, is_digit};

use hex::{FromHex, decode_to_slice};

pub fn is_digit(c: u8) -> bool
    ensures { result ≡ is_digit c }
{
    c.is_ascii_hexdigit()
}

// Where the first character stands that is no hex digit.
pub fn first_bad_digit(text: &[u8]) -> Option<usize>
    ensures { MatchOption result ((k : ℕ) → k < length text.now → is_digit (slice_index text.now k) ≡ true) (λ k. (k < length text.now) × (is_digit (slice_index text.now k) ≡ false) × ((j : ℕ) → j < k → is_digit (slice_index text.now j) ≡ true)) }
{
    text.iter().position(|c| !is_digit(*c))
}

// The bytes that `text` writes, where it is digits, two for each of N bytes.
pub fn decode<const N: usize>(text: &[u8]) -> Option<[u8; N]>
    ensures { MatchOption result (Writes N text.now → ⊥) (λ bytes. Writes N text.now × (bytes ≡ bytes_of text.now)) }
{
    <[u8; N]>::from_hex(text).ok()
}

// The same into a slice of any length, which is left as it was where `text` does not write just its bytes.
pub fn decode_into(text: &[u8], out: &mut [u8]) -> Option<()>
    ensures answer { MatchOption result (Writes (length out.old) text.now → ⊥) (λ _. Writes (length out.old) text.now) }
    ensures bytes { out.new ≡ (if is_some result then bytes_of text.now else out.old) }
{
    if text.len() % 2 != 0 || text.len() / 2 != out.len() || first_bad_digit(text).is_some() {
        return None;
    }
    decode_to_slice(text, out).ok()
}
