// The randomizer: a packet's bytes combined with the mask of its group position.
ghost use Rattle.std.specs.Prelude.{◌≡◌, ◌%◌, ◌<◌, slice_set};
ghost use Rattle.framing.specs.Mask.{combined, mask_byte, randomized, restored};

use crate::mask::MASK;

fn mask_byte(i: usize) -> u8
    requires { i < 1503 }
    ensures { result ≡ mask_byte i }
{
    MASK[i]
}

// Combines bytes 1 to 187 with the mask.
fn combine(packet: &mut [u8], position: u8)
    requires { position < 8 }
    ensures { packet.new ≡ combined position packet.old }
{
    let start = 188 * position as usize;
    let end = packet.len().min(188);
    // tried: packet.iter_mut().skip(1).zip(..); the proof didn't close at the packet's bytes after the loop, of which nothing is known then
    for b in 1..end {
        packet[b] ^= mask_byte(start + b - 1);
    }
}

fn put_first(packet: &mut [u8], x: u8)
    ensures { packet.new ≡ slice_set packet.old 0 x }
{
    if let Some(first) = packet.first_mut() {
        *first = x;
    }
}

// Makes of a packet what is sent at a position, counted from any start of a group.
pub fn randomize(packet: &mut [u8], position: u8)
    ensures { packet.new ≡ randomized (position % 8) packet.old }
{
    let g = position % 8;
    combine(packet, g);
    if g == 0 {
        put_first(packet, 0xB8);
    }
}

// Makes of what was sent at a position the packet again.
pub fn derandomize(packet: &mut [u8], position: u8)
    ensures { packet.new ≡ restored (position % 8) packet.old }
{
    combine(packet, position % 8);
    put_first(packet, 0x47);
}
