// What every delay line does.
ghost use Rattle.std.specs.Prelude.{◌≡◌, ℕ, suc, ◌%◌, min};
ghost use Rattle.delay_line.specs.Line.{Delays, line_at, onward, passed, silent};

use crate::slot::Slot;

// What holds the bytes under way in one half of a delay line. It is told the slot at each call, and does not count.
pub trait DelayLine {
    // For the slot that comes next, the number at each place ahead.
    ghost pending: { Self → ℕ → ℕ → ℕ };

    // The delay of each slot, in byte places.
    ghost delay: { Self → ℕ → ℕ };

    // The lag, in frames.
    ghost frames: { Self → ℕ };

    // Takes a byte at its slot, and answers the byte that is due.
    fn pass(&mut self, slot: Slot, byte: u8) -> u8
        ensures answers { result ≡ passed (delay self.old) (line_at (pending self.old) slot.number) byte }
        ensures goes { line_at (pending self.new) (suc slot.number % 204) ≡ onward (delay self.old) (line_at (pending self.old) slot.number) byte }
        ensures same { delay self.new ≡ delay self.old }
        ensures span { frames self.new ≡ frames self.old };

    // Nothing is pending afterwards, at slot 0.
    fn clear(&mut self)
        ensures empty { pending self.new 0 ≡ silent }
        ensures same { delay self.new ≡ delay self.old }
        ensures span { frames self.new ≡ frames self.old };

    // The lag in frames, or 4,095 where it is more.
    fn lag(&self) -> u16
        ensures { result ≡ min (frames self.now) 4095 };

    ghost delays: { (s : Self) → Delays (delay s) (frames s) };
}
