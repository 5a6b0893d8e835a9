// Words: made of packets at the sender, and read at the receiver.
ghost use Rattle.std.specs.Prelude.{◌≡◌, ◌%◌};
ghost use Rattle.framing.specs.Laws.{MisalignedUnread};
ghost use Rattle.framing.specs.Mending.{is_sync, mended};
ghost use Rattle.framing.specs.Words.{sent_word};

use crate::randomizer::randomize;
use crate::refusal::{WordFault, WordRefusal};
use reed_solomon::{correct_bytes, encode_bytes};

// The word that is sent for a packet at a position, counted from any start of a group.
pub fn sent_word(packet: &[u8; 188], position: u8) -> [u8; 204]
    ensures { result ≡ sent_word (position % 8) packet.now }
{
    let mut message = *packet;
    randomize(&mut message, position);
    encode_bytes(&message)
}

// Whether a word that begins with `first` begins a packet.
fn is_sync(first: u8) -> bool
    ensures { result ≡ is_sync first }
{
    matches!(first, 0x47 | 0xB8)
}

// Corrects a word of 204 bytes that begins with a sync byte, and answers how many bytes were wrong. After a refusal the buffer holds
// what it held.
pub fn mend(word: &mut [u8]) -> Result<u8, WordRefusal>
    ensures answer { result ≡ (mended word.old).answer }
    ensures buffer { word.new ≡ (mended word.old).buffer }
    ensures misaligned { MisalignedUnread word.old }
{
    let Ok(mut copy) = <[u8; 204]>::try_from(&*word) else {
        return Err(WordRefusal::Length);
    };
    let count = correct_bytes(&mut copy)?;
    if !is_sync(copy[0]) {
        return Err(WordRefusal::Fault(WordFault::Sync));
    }
    word.copy_from_slice(&copy);
    Ok(count)
}
