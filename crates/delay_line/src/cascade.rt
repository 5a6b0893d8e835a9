// Two delay lines in series.
ghost use Rattle.std.specs.Prelude.{◌+◌};
ghost use Rattle.delay_line.specs.Fresh.{IsFresh};
ghost use Rattle.delay_line.specs.Line.{series, through_both};
ghost use Rattle.delay_line.specs.InSeries.{series_delays};

use crate::line::DelayLine;
use crate::slot::Slot;

// A byte passes `first`, and what that answers passes `second`.
#[derive(Drop)]
pub struct Cascade<A: DelayLine, B: DelayLine> {
    first: A,
    second: B,
}

impl<A: DelayLine, B: DelayLine> Cascade<A, B> {
    // The two in series, both cleared.
    pub fn new(mut first: A, mut second: B) -> Cascade<A, B>
        ensures first { IsFresh A.DelayLine result.first (A.DelayLine.delay first) (A.DelayLine.frames first) }
        ensures second { IsFresh B.DelayLine result.second (B.DelayLine.delay second) (B.DelayLine.frames second) }
    {
        first.clear();
        second.clear();
        Cascade { first, second }
    }
}

impl<A: DelayLine, B: DelayLine> DelayLine for Cascade<A, B> {
    ghost pending = { λ s k. through_both (B.DelayLine.delay s.second) k (A.DelayLine.pending s.first k) (B.DelayLine.pending s.second k) };

    ghost delay = { λ s. series (A.DelayLine.delay s.first) (B.DelayLine.delay s.second) };

    ghost frames = { λ s. A.DelayLine.frames s.first + B.DelayLine.frames s.second };

    ghost delays = { λ s. series_delays _ _ _ _ (A.DelayLine.delays s.first) (B.DelayLine.delays s.second) };

    fn pass(&mut self, slot: Slot, byte: u8) -> u8 {
        let between = self.first.pass(slot, byte);
        self.second.pass(slot, between)
    }

    fn clear(&mut self) {
        self.first.clear();
        self.second.clear();
    }

    fn lag(&self) -> u16 {
        (self.first.lag() + self.second.lag()).min(4095)
    }
}
