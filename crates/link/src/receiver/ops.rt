// What a receiver does.
ghost use Rattle.std.specs.Prelude.{◌≡◌, ℕ, List, None};
ghost use Rattle.delay_line.specs.Laws.{CascadeIsOne};
ghost use Rattle.delay_line.specs.Halves.{line_of};
ghost use Rattle.delay_line.specs.Line.{onward, passed};
ghost use Rattle.framing.specs.Laws.{MisalignedUnread};
ghost use Rattle.link_theory.specs.Delivery.{Delivery};
ghost use Rattle.link_theory.specs.Receiver.{begun, collected, cut, fresh_receiver, on_word};
ghost use Rattle.link.specs.Models.{collect_of, receiver_after, receiver_of, receives_by, take_of};

use super::Receiver;
use crate::cutter::WordCutter;
use crate::reader::PacketReader;
use delay_line::{DelayLine, Half};
use link_theory::{CollectRefusal, Outcome, TakeRefusal};
use symbols::{Mapping, SymbolReader};

impl<D: DelayLine> Receiver<D> {
    // A fresh receiver over a delay line, which is cleared.
    pub fn new(mapping: Mapping, line: D) -> Receiver<D>
        ensures fresh { receiver_of result ≡ fresh_receiver (D.DelayLine.frames line) }
        ensures settings { receives_by result ≡ record { bits = mapping.bits; delays = D.DelayLine.delay line; lag = D.DelayLine.frames line } }
    {
        let half = Half::new(line);
        let cutter = WordCutter::new(half.lag());
        Receiver {
            symbols: SymbolReader::new(mapping),
            half,
            cutter,
            packets: PacketReader::new(),
            waiting: None,
        }
    }

    // A byte goes through the delay line; where that completes a word, the word is read and its outcome waits.
    fn hear(&mut self, byte: u8)
        requires { self.old.waiting ≡ None }
        ensures receiver { receiver_of self.new ≡ on_word (self.old.symbols.incoming) (onward (receives_by self.old).delays (line_of self.old.half) byte) self.old.packets (cut (passed (receives_by self.old).delays (line_of self.old.half) byte) self.old.cutter) }
        ensures settings { receives_by self.new ≡ receives_by self.old }
    {
        if let Some(word) = self.cutter.push(self.half.pass(byte)) {
            self.waiting = Some(self.packets.read(word));
        }
    }

    // Takes a symbol below 2^m, while no outcome waits, and tells whether one waits now.
    pub fn take(&mut self, symbol: u8) -> Result<bool, TakeRefusal>
        ensures { receiver_after result self.new ≡ take_of self.old symbol }
    {
        if symbol as u32 >= 1 << self.symbols.mapping().bits() {
            return Err(TakeRefusal::NotASymbol);
        }
        if self.waiting.is_some() {
            return Err(TakeRefusal::Waiting);
        }
        if let Some(byte) = self.symbols.take(symbol) {
            self.hear(byte);
        }
        Ok(self.waiting.is_some())
    }

    // What `collect` does, apart from it so that the laws there need no proof at each exit.
    fn spend(&mut self, buffer: &mut [u8]) -> Result<(u32, u8), CollectRefusal>
        ensures done { receiver_after result self.new ≡ collect_of self.old buffer.old }
        ensures buffer { buffer.new ≡ (collected buffer.old (receiver_of self.old)).buffer }
    {
        // tried by its length alone: one of three outcomes is copied, and the buffer as an array of 188 would serve that one only
        if buffer.len() != 188 {
            return Err(CollectRefusal::Length);
        }
        // by reference, since most calls of a caller that polls find nothing
        match &self.waiting {
            None => Err(CollectRefusal::NothingWaits),
            Some(
                Outcome::Packet {
                    bytes,
                    frame,
                    count,
                },
            ) => {
                let (frame, count) = (*frame, *count);
                buffer.copy_from_slice(bytes);
                self.waiting = None;
                Ok((frame, count))
            }
            Some(Outcome::Fault { frame, fault }) => {
                let (frame, fault) = (*frame, *fault);
                self.waiting = None;
                Err(CollectRefusal::Fault { frame, fault })
            }
        }
    }

    // Writes the packet that waits into a buffer of 188 bytes, and answers its frame number and how many bytes were corrected. What all
    // calls together promise stands here too: every packet that is loaded is collected, in order and once; delay lines in a cascade are
    // one delay line; and words out of step are not read.
    pub fn collect(&mut self, buffer: &mut [u8]) -> Result<(u32, u8), CollectRefusal>
        ensures done { receiver_after result self.new ≡ collect_of self.old buffer.old }
        ensures buffer { buffer.new ≡ (collected buffer.old (receiver_of self.old)).buffer }
        ensures delivery { Delivery }
        ensures composition { CascadeIsOne }
        ensures misalignment { (w : List ℕ) → MisalignedUnread w }
    {
        self.spend(buffer)
    }

    // Makes the receiver fresh.
    pub fn begin(&mut self)
        ensures receiver { receiver_of self.new ≡ begun (receives_by self.old).lag }
        ensures settings { receives_by self.new ≡ receives_by self.old }
    {
        self.symbols.clear();
        self.half.clear();
        self.cutter = WordCutter::new(self.half.lag());
        self.packets = PacketReader::new();
        self.waiting = None;
    }
}
