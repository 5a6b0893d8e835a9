// The line without a delay.
mod halves;

ghost use Rattle.delay_line.specs.Line.{silent};
ghost use Rattle.std.proofs.Common.{rules};

use crate::line::DelayLine;
use crate::slot::Slot;

// Answers each byte at once.
#[derive(Clone, Copy, Debug, PartialEq, Eq)]
pub struct Straight;

impl DelayLine for Straight {
    ghost pending = { λ s k. silent };

    ghost delay = { λ s. silent };

    ghost frames = { λ s. 0 };

    ghost delays = { Prim.search rules };

    fn pass(&mut self, _slot: Slot, byte: u8) -> u8 {
        byte
    }

    fn clear(&mut self) {}

    fn lag(&self) -> u16 {
        0
    }
}
