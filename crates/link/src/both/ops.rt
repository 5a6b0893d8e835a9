// The calls on both ends. Each is the call of the model that the laws over whole runs are about.
ghost use Rattle.link_theory.specs.Receiver.{fresh_receiver};
ghost use Rattle.link_theory.specs.Runs.{beginning, begins, collecting, collects, drawing, draws, loading, loads, takes, taking};
ghost use Rattle.link_theory.specs.Sender.{fresh_sender};
ghost use Rattle.link.specs.Both.{Delivers, call_on, done, ends_of, plan_of};
ghost use Rattle.std.specs.Prelude.{◌≡◌};

use super::Link;
use crate::receiver::Receiver;
use crate::sender::Sender;
use delay_line::DelayLine;
use link_theory::{CollectRefusal, DrawRefusal, LoadRefusal, TakeRefusal};
use symbols::Mapping;

impl<A: DelayLine, B: DelayLine> Link<A, B> {
    // Fresh ends over a sending and a receiving delay line, which are cleared.
    pub fn new(mapping: Mapping, sending: A, receiving: B) -> Link<A, B>
        ensures fresh { ends_of result ≡ record { sender = fresh_sender; receiver = fresh_receiver (B.DelayLine.frames receiving) } }
        ensures plan { plan_of result ≡ record { width = mapping.bits; out = A.DelayLine.delay sending; back = B.DelayLine.delay receiving; lag = B.DelayLine.frames receiving } }
    {
        Link {
            sender: Sender::new(mapping, sending),
            receiver: Receiver::new(mapping, receiving),
        }
    }

    // Gives the sender a packet.
    pub fn load(&mut self, packet: &[u8]) -> Result<u32, LoadRefusal>
        ensures done { done (loading packet.now result) self.new ≡ call_on self.old (loads packet.now) }
    {
        self.sender.load(packet)
    }

    // Draws the sender's next symbol.
    pub fn draw(&mut self) -> Result<u8, DrawRefusal>
        ensures done { done (drawing result) self.new ≡ call_on self.old draws }
    {
        self.sender.draw()
    }

    // Gives the receiver a symbol.
    pub fn take(&mut self, symbol: u8) -> Result<bool, TakeRefusal>
        ensures done { done (taking symbol result) self.new ≡ call_on self.old (takes symbol) }
    {
        self.receiver.take(symbol)
    }

    // Collects the receiver's outcome: whatever calls came before, it is the next one of the packets that were loaded.
    pub fn collect(&mut self, buffer: &mut [u8]) -> Result<(u32, u8), CollectRefusal>
        ensures done { done (collecting result buffer.new) self.new ≡ call_on self.old (collects buffer.old) }
        ensures delivers { Delivers self.old (collects buffer.old) }
    {
        self.receiver.collect(buffer)
    }

    // Makes the receiver fresh.
    pub fn begin(&mut self)
        ensures done { done beginning self.new ≡ call_on self.old begins }
    {
        self.receiver.begin();
    }
}
