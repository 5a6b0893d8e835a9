// What a sender does.
ghost use Rattle.std.specs.Prelude.{◌≡◌, ◌<◌, length};
ghost use Rattle.link_theory.specs.Sender.{after_load, fresh_sender};
ghost use Rattle.link_theory.specs.Symbols.{SymbolsOfPackets};
ghost use Rattle.link.specs.Models.{draw_of, load_of, sender_after, sender_of, settings_of};

use super::Sender;
use delay_line::{DelayLine, Half};
use framing::{next_position, sent_word};
use link_theory::{DrawRefusal, LoadRefusal};
use symbols::{Mapping, SymbolWriter};

impl<D: DelayLine> Sender<D> {
    // A fresh sender over a delay line, which is cleared.
    pub fn new(mapping: Mapping, line: D) -> Sender<D>
        ensures fresh { sender_of result ≡ fresh_sender }
        ensures settings { settings_of result ≡ record { bits = mapping.bits; delays = D.DelayLine.delay line; lag = D.DelayLine.frames line } }
    {
        Sender {
            half: Half::new(line),
            position: 0,
            writer: SymbolWriter::new(mapping),
        }
    }

    // Randomizes and codes a packet, passes its word through the delay line, and answers the number of undrawn bits.
    fn accept(&mut self, packet: &[u8; 188]) -> u32
        requires { length (sender_of self.old).outgoing.undrawn < (settings_of self.old).bits }
        ensures sender { sender_of self.new ≡ after_load (settings_of self.old).delays packet.now (sender_of self.old) }
        ensures answer { result ≡ length (sender_of self.new).outgoing.undrawn }
        ensures settings { settings_of self.new ≡ settings_of self.old }
    {
        let mut frame = sent_word(packet, self.position);
        self.half.carry(&mut frame);
        self.position = next_position(self.position);
        // taken, since fewer than m bits are undrawn and m is below eight
        let _ = self.writer.append(&frame);
        self.writer.undrawn_bits()
    }

    // Takes a packet of 188 bytes that begins with 47h, while no symbol can be drawn, and answers the number of undrawn bits.
    pub fn load(&mut self, packet: &[u8]) -> Result<u32, LoadRefusal>
        ensures done { sender_after result self.new ≡ load_of self.old packet.now }
    {
        let Ok(packet) = <[u8; 188]>::try_from(packet) else {
            return Err(LoadRefusal::Length);
        };
        if packet[0] != 0x47 {
            return Err(LoadRefusal::Sync);
        }
        if self.writer.undrawn_bits() >= self.writer.mapping().bits() {
            return Err(LoadRefusal::Undrawn);
        }
        Ok(self.accept(&packet))
    }

    // What `draw` does, apart from it so that the law there needs no proof at each exit.
    fn next_symbol(&mut self) -> Result<u8, DrawRefusal>
        ensures done { sender_after result self.new ≡ draw_of self.old }
    {
        self.writer.draw().ok_or(DrawRefusal::Exhausted)
    }

    // The next symbol, while enough bits are undrawn. What all calls together promise stands here too: the symbols are those that
    // EN 300 749 has for the packets that were loaded.
    pub fn draw(&mut self) -> Result<u8, DrawRefusal>
        ensures done { sender_after result self.new ≡ draw_of self.old }
        ensures symbols { SymbolsOfPackets }
    {
        self.next_symbol()
    }
}
