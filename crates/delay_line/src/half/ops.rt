// What a half does: as the one line that its delay line and its slot stand for.
ghost use Rattle.std.specs.Prelude.{◌≡◌, min};
ghost use Rattle.delay_line.specs.Line.{after_all, carried, fresh_line, onward, passed};
ghost use Rattle.delay_line.specs.Halves.{line_of, timing_of};

use crate::half::Half;
use crate::line::DelayLine;
use crate::slot::Slot;

impl<D: DelayLine> Half<D> {
    // The half of this line, fresh whatever the line held.
    pub fn new(mut line: D) -> Half<D>
        ensures fresh { line_of result ≡ fresh_line }
        ensures timing { timing_of result ≡ record { delay = D.DelayLine.delay line; frames = D.DelayLine.frames line } }
    {
        line.clear();
        Half {
            slot: Slot::first(),
            line,
        }
    }

    // Takes a byte at the slot that comes next, and answers the byte that is due.
    pub fn pass(&mut self, byte: u8) -> u8
        ensures answers { result ≡ passed (timing_of self.old).delay (line_of self.old) byte }
        ensures goes { line_of self.new ≡ onward (timing_of self.old).delay (line_of self.old) byte }
        ensures timing { timing_of self.new ≡ timing_of self.old }
    {
        let answer = self.line.pass(self.slot, byte);
        self.slot = self.slot.next();
        answer
    }

    // Passes each byte in turn, and puts what is answered in its place.
    pub fn carry(&mut self, bytes: &mut [u8])
        ensures answers { bytes.new ≡ carried (timing_of self.old).delay (line_of self.old) bytes.old }
        ensures goes { line_of self.new ≡ after_all (timing_of self.old).delay (line_of self.old) bytes.old }
        ensures timing { timing_of self.new ≡ timing_of self.old }
    {
        for x in bytes.iter_mut() {
            *x = self.pass(*x);
        }
    }

    // Makes the half fresh.
    pub fn clear(&mut self)
        ensures fresh { line_of self.new ≡ fresh_line }
        ensures timing { timing_of self.new ≡ timing_of self.old }
    {
        self.line.clear();
        self.slot = Slot::first();
    }

    // The lag in frames, or 4,095 where it is more.
    pub fn lag(&self) -> u16
        ensures { result ≡ min (timing_of self.now).frames 4095 }
    {
        self.line.lag()
    }
}
