// A sender and a receiver with one mapping: both ends of a link.
ghost use Rattle.std.specs.Prelude.{◌≡◌};

use crate::receiver::Receiver;
use crate::sender::Sender;
use delay_line::DelayLine;

mod ops;

#[derive(Drop)]
pub struct Link<A: DelayLine, B: DelayLine> {
    sender: Sender<A>,
    receiver: Receiver<B>,
    ghost same: { sender.writer.mapping.bits ≡ receiver.symbols.mapping.bits },
}
