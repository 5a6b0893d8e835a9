// The code for callers in C: encoder, corrector and word reader on the caller's own buffer of 204 bytes. Answers are numbers, since C needs
// them.
#![tactic(auto)]

ghost use Rattle.std.specs.Prelude.{◌≡◌};
ghost use Rattle.code_c.specs.Calls.{Corrects, Encodes, mend_number};
ghost use Rattle.framing.specs.Laws.{MisalignedUnread};
ghost use Rattle.framing.specs.Mending.{mended};

use framing::mend;
use reed_solomon::{CodeRefusal, correct_bytes, encode_bytes};

// Puts the 16 check bytes behind the 188 bytes of a message in a buffer of 204 bytes, and answers 0; 14 for a buffer of another length,
// which is left as it was.
#[unsafe(no_mangle)]
pub extern "C" fn bethlyfor_encode(word: &mut [u8]) -> u32
    ensures { Encodes word.old word.new result }
{
    // a part of the buffer is copied to be coded, and the whole written: the buffer as an array of 204 would serve neither
    if word.len() != 204 {
        return CodeRefusal::Length.number();
    }
    let mut message = [0u8; 188];
    message.copy_from_slice(&word[0..188]);
    word.copy_from_slice(&encode_bytes(&message));
    0
}

// Corrects a buffer of 204 bytes, and answers how many bytes were wrong (0 to 8), 11 if no code word is within eight bytes, or 14 for a
// buffer of another length. After 11 and 14 the buffer is left as it was.
#[unsafe(no_mangle)]
pub extern "C" fn bethlyfor_correct(word: &mut [u8]) -> u32
    ensures { Corrects word.old word.new result }
{
    correct_bytes(word).map_or_else(|refusal| refusal.number(), u32::from)
}

// Reads a buffer of 204 bytes as a word: corrects it and tries its first byte. Answers how many bytes were wrong (0 to 8), 11 if no code
// word is within eight bytes, 12 if the code word begins with neither 47h nor B8h, or 14 for a buffer of another length. After 11, 12 and
// 14 the buffer is left as it was.
#[unsafe(no_mangle)]
pub extern "C" fn bethlyfor_mend(word: &mut [u8]) -> u32
    ensures answer { result ≡ mend_number (mended word.old).answer }
    ensures buffer { word.new ≡ (mended word.old).buffer }
    ensures misaligned { MisalignedUnread word.old }
{
    mend(word).map_or_else(|refusal| refusal.number(), u32::from)
}
